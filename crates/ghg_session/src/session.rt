//! Answers a whole script.

ghost use Rattle.std.specs.Prelude.{◌≡◌, ◌≤◌, true, false, IsErrOf};
ghost use Rattle.ghg_office.specs.Keeping.{KeepsAccepted, Lists};
ghost use Rattle.ghg_outer.specs.Counts.{IsCounted};
ghost use Rattle.ghg_session.specs.Replies.{office_step};
ghost use Rattle.ghg_session.specs.Session.{KeepsNone, Session, bytes_of, protocol_of, wrong_line};
ghost use Rattle.ghg_session.specs.Writing.{Reports, WritesAll};

use crate::environment::Environment;
use crate::office::answer;
use crate::reply::Lines;
use crate::writing::{report, write_all};
use arrayvec::ArrayVec;
use ghg_keeper::Keeper;
use ghg_office::Office;
use ghg_outer::{Sink, Source};
use ghg_script::{Command, Dialect, MOST_COMMANDS, TableQuery, next_command};
use ghg_steps::Steps;
use ghg_words::Status;
use ghg_workers::Gate;
use itoa::Buffer;
use std::sync::ledger::Ledger;
use std::thread::Threads;

/// Answers a script in this dialect to its end, command by command: each reply is written whole before the
/// next command is read. Where submissions are stored, the keeper keeps each one before it is accepted. For
/// each one no more nodes are evaluated than its rows affect.
pub fn answer_script<
    D: Dialect<TableQuery>,
    S: Source,
    W: Sink,
    K: Keeper,
    G: Gate,
    T: Threads + Sync,
    L: Ledger,
>(
    environment: &Environment<'_, T, G>,
    input: &mut S,
    out: &mut W,
    office: &mut Office,
    keeper: &mut K,
    steps: &mut Steps<L>,
) -> Status
    requires workers { (1 ≤ environment.now.workers.count) × (environment.now.workers.count ≤ 64) }
    requires same { environment.now.stored ≡ true → Lists (K.shelf keeper.old) office.old.accepted }
    // If none of the requests that it read is to be kept, the keeper is as it was.
    ensures session { (session : Session (protocol_of D.forms (office_step environment.now.stored))
        office.old office.new (S.tape input.old) (S.tape input.new) (W.tape out.old) (W.tape out.new)
        steps.old steps.new result)
        × (KeepsNone (protocol_of D.forms (office_step environment.now.stored)) office.old session.took
        → keeper.new ≡ keeper.old) }
    // A count of faults rose exactly where the result is that failure.
    ensures input { IsCounted (S.tape input.old).faults (S.tape input.new).faults
        (result ≡ Status.InputFailed) }
    ensures output { IsCounted (W.tape out.old).faults (W.tape out.new).faults
        (result ≡ Status.OutputFailed) }
    ensures counted { IsCounted (K.shelf keeper.old).faults (K.shelf keeper.new).faults
        (result ≡ Status.StoreFailed) }
    // With every result the keeper's rows are the accepted submissions.
    ensures kept { environment.now.stored ≡ true
        → KeepsAccepted (K.shelf keeper.old) (K.shelf keeper.new) office.new.accepted }
    ensures untouched { environment.now.stored ≡ false → keeper.new ≡ keeper.old }
{
    'commands: for done in 0..MOST_COMMANDS {
        match next_command::<TableQuery, D, S>(environment.alloc, input) {
            Err(status) => return status,
            Ok(None) => return refuse(out, done + 1),
            Ok(Some(Command::End)) => return Status::Done,
            Ok(Some(Command::Request(request))) => {
                match answer(environment, office, &request, keeper, steps) {
                    Err(status) => return status,
                    Ok(lines) => {
                        if let Err(status) = write_lines(out, &lines) {
                            return status;
                        }
                    }
                }
            }
        }
    }
    refuse(out, MOST_COMMANDS + 1)
}

/// Reports the command of this number as malformed.
pub fn refuse<W: Sink>(out: &mut W, number: u32) -> Status
    ensures reported { Reports (W.tape out.old) (W.tape out.new) (wrong_line number) Status.NoScript result }
    ensures counted { IsCounted (W.tape out.old).faults (W.tape out.new).faults
        (result ≡ Status.OutputFailed) }
{
    report(out, refusal(number).as_slice(), Status::NoScript)
}

// Words of 22 bytes, the digits of a number of 32 bits, and the line feed.
fn refusal(number: u32) -> ArrayVec<u8, 33>
    ensures { result.items ≡ wrong_line number }
{
    let mut digits = Buffer::new();
    let mut line = ArrayVec::new();
    line.try_extend_from_slice(b"not a script: command ")
        .unwrap();
    line.try_extend_from_slice(digits.format(number).as_bytes())
        .unwrap();
    line.push(b'\n');
    line
}

/// Writes all lines. Where that stops early, a proper prefix of them was written.
pub fn write_lines<W: Sink>(out: &mut W, lines: &Lines) -> Result<(), Status>
    ensures written { WritesAll (W.tape out.old) (W.tape out.new) (bytes_of lines.now) result }
    ensures counted { IsCounted (W.tape out.old).faults (W.tape out.new).faults
        (IsErrOf result Status.OutputFailed) }
{
    match lines {
        Lines::Short(line) => write_all(out, line.as_slice()),
        Lines::Long { first, below } => match write_all(out, first) {
            Ok(()) => write_all(out, below.as_slice()),
            Err(stop) => Err(stop),
        },
    }
}
