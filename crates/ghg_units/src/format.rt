//! The formats of bodies.

ghost use Rattle.std.specs.Prelude.{◌≡◌};
ghost use Rattle.ghg_units.specs.Format.{after_mark, format_in};

// How UTF-8 writes a byte order mark.
const MARK: [u8; 3] = [0xEF, 0xBB, 0xBF];

/// The format that a body's header names, after one byte order mark if there is one: 2 where its first
/// name is `act2`, with quotes or without, and otherwise 1. It takes no memory.
pub fn format_of(body: &[u8]) -> u32
    ensures { result ≡ format_in body.now }
{
    let text = after_mark(body);
    if text.starts_with(b"act2,") || text.starts_with(b"\"act2\",") {
        2
    } else {
        1
    }
}

// What stands after a byte order mark, if there is one.
fn after_mark(body: &[u8]) -> &[u8]
    ensures { result.now ≡ after_mark body.now }
{
    if body.starts_with(&MARK) {
        &body[3..]
    } else {
        body
    }
}
