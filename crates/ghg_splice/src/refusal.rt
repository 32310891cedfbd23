//! Why a series is not spliced.

ghost use Rattle.std.specs.Prelude.{◌≡◌, ◌++◌, take, length, OnOk, OnErr};
ghost use Rattle.ghg_splice.specs.Refusals.{numbered, refusal_text};

use itoa::Buffer;
use std::alloc::AllocError;

/// Why a series is not spliced, in the order in which it is tested.
#[derive(Clone, Copy, Debug, PartialEq, Eq, Drop)]
pub enum SpliceRefusal {
    /// The body is longer than [`MAX_BODY`](crate::MAX_BODY).
    TooLong,
    /// The header, which is row 0, or the first row that is not as it should be.
    BadRow(u32),
    /// Linear: fewer than two years are known. Else: no year has both series.
    NoBase,
    /// The range of the other series holds zero in this year, which the technique divides by.
    ZeroRange(u32),
    /// The earliest year to fill of which a result, or a bound, is beyond what a submission takes.
    Over(u32),
}

/// Appends the text of a refusal, as `not spliced: row 3`.
///
/// Without the memory for it the text is as before.
pub fn append_refusal(out: &mut Vec<u8>, refusal: SpliceRefusal) -> Result<(), AllocError>
    ensures ok { OnOk result (out.new.items ≡ out.old.items ++ refusal_text refusal) }
    ensures err { OnErr result (out.new.items ≡ out.old.items) }
{
    let before = out.len();
    let appended = append_text(out, refusal);
    if appended.is_err() {
        out.truncate(before);
    }
    appended
}

// The same, where an error may leave a part of the text at the end.
fn append_text(out: &mut Vec<u8>, refusal: SpliceRefusal) -> Result<(), AllocError>
    ensures ok { OnOk result (out.new.items ≡ out.old.items ++ refusal_text refusal) }
    ensures kept { OnErr result (take (length out.old.items) out.new.items ≡ out.old.items) }
{
    match refusal {
        SpliceRefusal::TooLong => out.extend_from_slice(b"not spliced: too long"),
        SpliceRefusal::BadRow(row) => append_numbered(out, b"not spliced: row ", row),
        SpliceRefusal::NoBase => out.extend_from_slice(b"not spliced: no base"),
        SpliceRefusal::ZeroRange(year) => append_numbered(out, b"not spliced: zero ", year),
        SpliceRefusal::Over(year) => append_numbered(out, b"not spliced: over ", year),
    }
}

// Words and a number.
fn append_numbered(out: &mut Vec<u8>, words: &[u8], number: u32) -> Result<(), AllocError>
    ensures ok { OnOk result (out.new.items ≡ out.old.items ++ numbered words.now number) }
    ensures kept { OnErr result (take (length out.old.items) out.new.items ≡ out.old.items) }
{
    let mut digits = Buffer::new();
    out.extend_from_slice(words)?;
    out.extend_from_slice(digits.format(number).as_bytes())
}

/// Why there is no text.
#[derive(Clone, Copy, Debug, PartialEq, Eq)]
pub(crate) enum Stop {
    /// The series is refused.
    Refusal(SpliceRefusal),
    /// Out of memory.
    Memory,
}

impl From<SpliceRefusal> for Stop {
    ghost use Rattle.std.specs.Prelude.{◌≡◌};
    ghost use Rattle.ghg_splice.specs.declared.refusal.Stop.TheVariants as stops;

    ghost from_gives = { λ refusal stop. stop ≡ stops.Refusal refusal };

    fn from(refusal: SpliceRefusal) -> Stop {
        Stop::Refusal(refusal)
    }
}

impl From<AllocError> for Stop {
    ghost use Rattle.std.specs.Prelude.{◌≡◌};
    ghost use Rattle.ghg_splice.specs.declared.refusal.Stop.TheVariants as stops;

    ghost from_gives = { λ _ stop. stop ≡ stops.Memory };

    fn from(_error: AllocError) -> Stop {
        Stop::Memory
    }
}
