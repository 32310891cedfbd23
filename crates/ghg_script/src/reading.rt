//! Reads the commands of a script from a source, and takes no byte behind them.

ghost use Rattle.std.specs.Prelude.{◌≡◌, ◌+◌, ◌-◌, ◌≤◌, [], ◌∷◌, ◌++◌, length, take, IsErrOf, MatchOption, MatchResult};
ghost use Rattle.std.specs.Vec.{vec_capacity};
ghost use Rattle.ghg_outer.specs.Counts.{IsCounted};
ghost use Rattle.ghg_outer.specs.Tape.{Consumes, IsAtEnd};
ghost use Rattle.ghg_script.specs.Commands.{bodies, commands_of, lines, most_kept};
ghost use Rattle.ghg_script.specs.Reader.{Found, Missing, Parses, Stopped};

use crate::command::{Command, Line, Request};
use crate::dialect::Dialect;
use arrayvec::ArrayVec;
use ghg_import::MAX_BODY;
use ghg_outer::Source;
use ghg_units::Text;
use ghg_words::Status;
use std::alloc::Global;

/// The most commands of a script, its end included.
pub const MOST_COMMANDS: u32 = 1_000_000;

/// The next command, or nothing where what is left begins with none. Memory is taken for a body alone, and
/// before its last byte is read.
pub fn next_command<Q: Drop, D: Dialect<Q>, S: Source>(
    alloc: Global,
    source: &mut S,
) -> Result<Option<Command<Request<Q>>>, Status>
    ensures parsed { Parses (commands_of D.forms) (S.tape source.old) (S.tape source.new) result }
    ensures counted { IsCounted (S.tape source.old).faults (S.tape source.new).faults
        (IsErrOf result Status.InputFailed) }
{
    let Some(text) = read_line(source)? else {
        return Ok(None);
    };
    match D::read_form(text.as_slice()) {
        None => Ok(None),
        Some(Line::End) => Ok(Some(Command::End)),
        Some(Line::Query(query)) => Ok(Some(Command::Request(Request::Query(query)))),
        Some(Line::Submit { id, length }) => match read_body(alloc, source, length as usize)? {
            None => Ok(None),
            Some(body) => {
                let body = Text::new(body);
                Ok(Some(Command::Request(Request::Submit { id, body })))
            }
        },
    }
}

/// The most bytes that a line has before its line feed.
const LONGEST_LINE: usize = 120;

// One byte more shows that a line is too long.
const LINE_ROOM: usize = LONGEST_LINE + 1;

// The next line without its line feed, or nothing where no line ends within its limit.
fn read_line<S: Source>(source: &mut S) -> Result<Option<ArrayVec<u8, LINE_ROOM>>, Status>
    ensures parsed { MatchResult result
        (λ found. MatchOption found (Missing lines (S.tape source.old) (S.tape source.new))
        (λ line. Found lines (S.tape source.old) (S.tape source.new) line.items))
        (Stopped lines (S.tape source.old) (S.tape source.new)) }
    ensures counted { IsCounted (S.tape source.old).faults (S.tape source.new).faults
        (IsErrOf result Status.InputFailed) }
{
    let mut line = ArrayVec::new();
    'bytes: while line.len() < LINE_ROOM {
        match next_byte(source)? {
            None => return Ok(None),
            Some(b'\n') => return Ok(Some(line)),
            Some(byte) => line.push(byte),
        }
    }
    Ok(None)
}

// The next byte, or nothing at the end of the input.
fn next_byte<S: Source>(source: &mut S) -> Result<Option<u8>, Status>
    ensures read { MatchResult result
        (λ next. MatchOption next
        (IsAtEnd (S.tape source.new) × Consumes (S.tape source.old) (S.tape source.new) [])
        (λ b. Consumes (S.tape source.old) (S.tape source.new) (b ∷ [])))
        (λ stop. Consumes (S.tape source.old) (S.tape source.new) [] × (stop ≡ Status.InputFailed)) }
    ensures counted { IsCounted (S.tape source.old).faults (S.tape source.new).faults
        (IsErrOf result Status.InputFailed) }
{
    let mut byte = [0];
    match source.read(&mut byte) {
        Ok(0) => Ok(None),
        Ok(_) => Ok(Some(byte[0])),
        Err(_) => Err(Status::InputFailed),
    }
}

/// How many bytes of a body are read at once.
const BLOCK: usize = 4096;

// A body of so many bytes, of which a prefix is kept, or nothing where the input ends before. Room for a
// block is made before the block is read.
fn read_body<S: Source>(
    alloc: Global,
    source: &mut S,
    count: usize,
) -> Result<Option<Vec<u8>>, Status>
    ensures parsed { MatchResult result
        (λ found. MatchOption found (Missing (bodies count) (S.tape source.old) (S.tape source.new))
        (λ body. Found (bodies count) (S.tape source.old) (S.tape source.new) body.items))
        (Stopped (bodies count) (S.tape source.old) (S.tape source.new)) }
    ensures counted { IsCounted (S.tape source.old).faults (S.tape source.new).faults
        (IsErrOf result Status.InputFailed) }
{
    let mut body = Vec::new(alloc);
    let mut block = [0; BLOCK];
    let mut at = 0;
    'pieces: while at < count {
        let wanted = BLOCK.min(count - at);
        body.reserve(wanted)?;
        match source.read(&mut block[..wanted]) {
            Ok(0) => return Ok(None),
            Ok(given) => {
                keep_prefix(&mut body, &block[..given]);
                at += given;
            }
            Err(_) => return Err(Status::InputFailed),
        }
    }
    Ok(Some(body))
}

/// Of a body one byte more is kept than the longest that is taken, so that it is seen to be too long.
const MOST_KEPT: usize = MAX_BODY + 1;

// Appends as much of the piece as is kept of a body. There is room for all of it.
fn keep_prefix(body: &mut Vec<u8>, piece: &[u8])
    requires short { length body.old.items ≤ most_kept }
    requires room { length body.old.items + length piece.now ≤ vec_capacity body.old }
    ensures { body.new.items ≡ body.old.items ++ take (most_kept - length body.old.items) piece.now }
{
    let left = MOST_KEPT - body.len();
    body.extend_from_slice(&piece[..left.min(piece.len())])
        .unwrap();
}
