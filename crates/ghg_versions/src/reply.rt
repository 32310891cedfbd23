//! What a desk answers.

ghost use Rattle.std.specs.Prelude.{◌≡◌, ◌++◌, OnOk, OnErr, codes, decimal, length, take};
ghost use Rattle.ghg_versions.specs.Lines.{desk_text};

use ghg_office::{Reply, append_reply};
use ghg_units::Text;
use itoa::Buffer;
use std::alloc::AllocError;

/// The answer to a command.
#[derive(Drop)]
pub enum DeskReply {
    /// The office's answer to a submission or to a request for a table. It is neither that its keeper failed
    /// nor that memory ran out.
    Office(Reply),
    /// The name stands for the state after so many accepted submissions, which is the present one.
    Frozen { seq: u64 },
    /// What was to be frozen is no name.
    BadVersion,
    /// The name stands for an earlier state, that after so many accepted submissions.
    VersionExists { seq: u64 },
    /// There are 100 versions, and no room for one more.
    TooManyVersions,
    /// The lines of the table, each ended by a line feed.
    Table(Text),
    /// There is no such table, the name is not frozen, or the year lies outside a span that is asked for, or
    /// there is none.
    NoTable,
    /// Memory ran out, and nothing changed.
    Memory,
}

/// Appends the line of the reply to a command of this name, without its end, or the lines of a table.
///
/// Without the memory for it the text is as before.
pub fn append_desk_reply(
    out: &mut Vec<u8>,
    name: &[u8],
    reply: &DeskReply,
) -> Result<(), AllocError>
    ensures ok { OnOk result (out.new.items ≡ out.old.items ++ desk_text name.now reply.now) }
    ensures err { OnErr result (out.new.items ≡ out.old.items) }
{
    let before = out.len();
    let appended = append_text(out, name, reply);
    if appended.is_err() {
        out.truncate(before);
    }
    appended
}

// The same, where an error may leave a part of the text at the end.
#[tactic(auto, unfolding(crate::specs::Lines::desk_text))]
fn append_text(out: &mut Vec<u8>, name: &[u8], reply: &DeskReply) -> Result<(), AllocError>
    ensures ok { OnOk result (out.new.items ≡ out.old.items ++ desk_text name.now reply.now) }
    ensures kept { OnErr result (take (length out.old.items) out.new.items ≡ out.old.items) }
{
    match reply {
        DeskReply::Office(reply) => append_reply(out, reply),
        DeskReply::Frozen { seq } => append_frozen(out, name, *seq),
        DeskReply::BadVersion => out.extend_from_slice(b"refused 14 BadVersion"),
        DeskReply::VersionExists { seq } => append_numbered(
            out,
            b"refused 15 VersionExists ",
            *seq,
        ),
        DeskReply::TooManyVersions => out.extend_from_slice(b"refused 16 TooManyVersions"),
        DeskReply::Table(text) => out.extend_from_slice(text.as_slice()),
        DeskReply::NoTable => out.extend_from_slice(b"no table"),
        DeskReply::Memory => out.extend_from_slice(b"memory"),
    }
}

// The name of a version, and its number.
fn append_frozen(out: &mut Vec<u8>, name: &[u8], seq: u64) -> Result<(), AllocError>
    ensures ok { OnOk result (out.new.items ≡ out.old.items
        ++ codes "frozen " ++ name.now ++ codes " " ++ decimal seq) }
    ensures kept { OnErr result (take (length out.old.items) out.new.items ≡ out.old.items) }
{
    out.extend_from_slice(b"frozen ")?;
    out.extend_from_slice(name)?;
    append_numbered(out, b" ", seq)
}

// Words, and a number.
fn append_numbered(out: &mut Vec<u8>, words: &[u8], number: u64) -> Result<(), AllocError>
    ensures ok { OnOk result (out.new.items ≡ out.old.items ++ words.now ++ decimal number) }
    ensures kept { OnErr result (take (length out.old.items) out.new.items ≡ out.old.items) }
{
    let mut digits = Buffer::new();
    out.extend_from_slice(words)?;
    out.extend_from_slice(digits.format(number).as_bytes())
}
