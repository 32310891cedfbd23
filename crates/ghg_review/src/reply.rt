//! The lines that reply to requests.

ghost use Rattle.std.specs.Prelude.{◌≡◌, ◌≤◌, ◌+◌, ◌++◌, ◌∷◌, [], IfErr, IfOk, codes, decimal, length};
ghost use Rattle.std.specs.Vec.{vec_capacity};
ghost use Rattle.ghg_review.specs.Replies.{HasNoLines, lines_of, lines_under, name_in};
ghost use Rattle.ghg_script.specs.Commands.{line_of};
ghost use Rattle.ghg_session.specs.Session.{bytes_of};
ghost use Rattle.ghg_versions.specs.Lines.{desk_text};

use arrayvec::ArrayVec;
use ghg_office::Reply;
use ghg_session::{Lines, one_line, table_lines};
use ghg_units::Text;
use ghg_versions::{Command, DeskReply, append_desk_reply};
use ghg_words::Status;
use itoa::Buffer;
use std::alloc::{AllocError, Global};

/// The lines that reply to a command. The words are those for the name that is to be frozen, and so that it
/// was frozen is told without further memory.
pub(crate) fn lines(
    alloc: Global,
    words: Vec<u8>,
    command: &Command,
    reply: DeskReply,
) -> Result<Lines, Status>
    requires words { words.items ≡ codes "frozen " ++ name_in command.now }
    requires room { length words.items + LONGEST_END ≤ vec_capacity words }
    ensures lines { IfOk result (λ lines. bytes_of lines ≡ lines_of command.now reply) }
    ensures none { IfErr result (HasNoLines reply) }
{
    match command {
        Command::Submit { .. } => line(alloc, words, b"", reply),
        Command::Show { table, year } => lines_under(alloc, words, table.as_slice(), *year, reply),
        Command::Freeze { name } => line(alloc, words, name.as_slice(), reply),
        Command::Recalc { year, .. } => lines_under(alloc, words, b"recalc", *year, reply),
        Command::Trend { year } => lines_under(alloc, words, b"trendunc", *year, reply),
    }
}

// A table under its heading, or one line.
fn lines_under(
    alloc: Global,
    words: Vec<u8>,
    table: &[u8],
    year: u32,
    reply: DeskReply,
) -> Result<Lines, Status>
    requires words { words.items ≡ codes "frozen " }
    requires room { length words.items + LONGEST_END ≤ vec_capacity words }
    ensures lines { IfOk result (λ lines. bytes_of lines ≡ lines_under table.now year reply) }
    ensures none { IfErr result (HasNoLines reply) }
{
    match reply {
        DeskReply::Office(reply) => table_lines(alloc, table, year, reply),
        DeskReply::Table(text) => table_lines(alloc, table, year, Reply::Table(text)),
        other => line(alloc, words, b"", other),
    }
}

// One line. The words are those for the name.
#[tactic(auto, unfolding(ghg_versions::specs::Lines::desk_text))]
fn line(alloc: Global, words: Vec<u8>, name: &[u8], reply: DeskReply) -> Result<Lines, Status>
    requires words { words.items ≡ codes "frozen " ++ name.now }
    requires room { length words.items + LONGEST_END ≤ vec_capacity words }
    ensures line { IfOk result (λ lines. bytes_of lines ≡ line_of (desk_text name.now reply)) }
    ensures none { IfErr result (HasNoLines reply) }
{
    match reply {
        DeskReply::Office(reply) => one_line(alloc, &reply),
        DeskReply::Frozen { seq } => Ok(whole(alloc, frozen_line(words, seq))),
        other => Ok(whole(alloc, desk_line(alloc, name, &other)?)),
    }
}

// The line of a reply, in memory.
fn desk_line(alloc: Global, name: &[u8], reply: &DeskReply) -> Result<Vec<u8>, AllocError>
    ensures { IfOk result (λ line. line.items ≡ line_of (desk_text name.now reply.now)) }
{
    let mut line = Vec::new(alloc);
    append_desk_reply(&mut line, name, reply)?;
    line.push(b'\n')?;
    Ok(line)
}

// A line with nothing under it.
fn whole(alloc: Global, first: Vec<u8>) -> Lines
    ensures { bytes_of result ≡ first.items }
{
    Lines::Long {
        first,
        below: Text::new(Vec::new(alloc)),
    }
}

// ---- that a version was frozen

/// A space, the digits of a number of 64 bits, and a line feed.
const LONGEST_END: usize = 22;

/// The words that tell that a name was frozen, with room for the rest of the line.
pub(crate) fn frozen_words(alloc: Global, name: &[u8]) -> Result<Vec<u8>, AllocError>
    ensures words { IfOk result (λ words. words.items ≡ codes "frozen " ++ name.now) }
    ensures room { IfOk result (λ words. length words.items + LONGEST_END ≤ vec_capacity words) }
{
    let mut words = b"frozen ".to_vec(alloc)?;
    words.extend_from_slice(name)?;
    words.reserve(LONGEST_END)?;
    Ok(words)
}

// The whole line, in the room that there is.
fn frozen_line(mut words: Vec<u8>, seq: u64) -> Vec<u8>
    requires { length words.items + LONGEST_END ≤ vec_capacity words }
    ensures { result.items ≡ words.items ++ codes " " ++ decimal seq ++ 10 ∷ [] }
{
    words.extend_from_slice(end(seq).as_slice()).unwrap();
    words
}

fn end(seq: u64) -> ArrayVec<u8, LONGEST_END>
    ensures { result.items ≡ codes " " ++ decimal seq ++ 10 ∷ [] }
{
    let mut digits = Buffer::new();
    let mut end = ArrayVec::new();
    end.push(b' ');
    end.try_extend_from_slice(digits.format(seq).as_bytes())
        .unwrap();
    end.push(b'\n');
    end
}
