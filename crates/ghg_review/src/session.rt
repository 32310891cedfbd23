//! Answers a whole script.

ghost use Rattle.std.specs.Prelude.{◌≡◌, ◌≤◌};
ghost use Rattle.ghg_outer.specs.Counts.{IsCounted};
ghost use Rattle.ghg_review.specs.Replies.{review};
ghost use Rattle.ghg_session.specs.Session.{Session};

use crate::answering::answer;
use ghg_outer::{Sink, Source};
use ghg_script::{Command, MOST_COMMANDS, Review, ReviewQuery, next_command};
use ghg_session::{refuse, write_lines};
use ghg_steps::Steps;
use ghg_versions::Desk;
use ghg_words::Status;
use ghg_workers::{Gate, Workers};
use std::alloc::Global;
use std::sync::ledger::Ledger;
use std::thread::Threads;

/// Answers a script of `review` to its end, command by command: each reply is written whole before the next
/// command is read. For each submission no more nodes are evaluated than its rows affect, and for the other
/// requests none.
pub fn answer_review<S: Source, W: Sink, G: Gate, T: Threads + Sync, L: Ledger>(
    alloc: Global,
    workers: &Workers<'_, T, G>,
    input: &mut S,
    out: &mut W,
    desk: &mut Desk,
    steps: &mut Steps<L>,
) -> Status
    requires { (1 ≤ workers.now.count) × (workers.now.count ≤ 64) }
    ensures session { Session review desk.old desk.new (S.tape input.old) (S.tape input.new)
        (W.tape out.old) (W.tape out.new) steps.old steps.new result }
    // A count of faults rose exactly where the result is that failure.
    ensures input { IsCounted (S.tape input.old).faults (S.tape input.new).faults
        (result ≡ Status.InputFailed) }
    ensures output { IsCounted (W.tape out.old).faults (W.tape out.new).faults
        (result ≡ Status.OutputFailed) }
{
    'commands: for done in 0..MOST_COMMANDS {
        match next_command::<ReviewQuery, Review, S>(alloc, input) {
            Err(status) => return status,
            Ok(None) => return refuse(out, done + 1),
            Ok(Some(Command::End)) => return Status::Done,
            Ok(Some(Command::Request(request))) => {
                match answer(alloc, workers, desk, request, steps) {
                    Err(status) => return status,
                    Ok(lines) => {
                        if let Err(status) = write_lines(out, &lines) {
                            return status;
                        }
                    }
                }
            }
        }
    }
    refuse(out, MOST_COMMANDS + 1)
}
