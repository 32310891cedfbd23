//! What the desk answers to the requests of a script.

ghost use Rattle.std.specs.Prelude.{◌≡◌, ◌≤◌, ◌+◌, IfErr, IfOk, OnErr, OnOk};
ghost use Rattle.ghg_review.specs.Replies.{command_of, name_in, query_of, review_step};
ghost use Rattle.ghg_session.specs.Session.{MayLeaveUndone, bytes_of};

use crate::reply::{frozen_words, lines};
use ghg_script::{Request, ReviewQuery, Word};
use ghg_session::Lines;
use ghg_steps::Steps;
use ghg_units::Text;
use ghg_versions::{Command, Desk, DeskReply};
use ghg_words::Status;
use ghg_workers::{Gate, Workers};
use std::alloc::{AllocError, Global};
use std::sync::ledger::Ledger;
use std::thread::Threads;

/// The lines that reply to a request. It is left undone only where memory runs out.
#[tactic(auto, unfolding(crate::specs::Replies::review_step))]
pub(crate) fn answer<G: Gate, T: Threads + Sync, L: Ledger>(
    alloc: Global,
    workers: &Workers<'_, T, G>,
    desk: &mut Desk,
    request: Request<ReviewQuery>,
    steps: &mut Steps<L>,
) -> Result<Lines, Status>
    requires { (1 ≤ workers.now.count) × (workers.now.count ≤ 64) }
    ensures lines { IfOk result (λ lines. bytes_of lines ≡ (review_step desk.old request).reply) }
    ensures after { OnOk result (desk.new ≡ (review_step desk.old request).after) }
    ensures undone { OnErr result (desk.new ≡ desk.old) }
    ensures cause { IfErr result (MayLeaveUndone (review_step desk.old request)) }
    ensures steps { steps.new ≤ steps.old + (review_step desk.old request).steps }
{
    let command = command_of(alloc, request)?;
    // That a version was frozen is told in memory that is taken before.
    let words = frozen_words(alloc, name_in(&command))?;
    match desk.step(
        workers.threads,
        alloc,
        &command,
        workers.count,
        workers.gate,
        steps,
    ) {
        DeskReply::Memory => Err(Status::OutOfMemory),
        reply => lines(alloc, words, &command, reply),
    }
}

// What a request puts to the desk.
fn command_of(alloc: Global, request: Request<ReviewQuery>) -> Result<Command, AllocError>
    ensures { IfOk result (λ command. command ≡ command_of request) }
{
    match request {
        Request::Submit { id, body } => {
            let id = text_of(alloc, &id)?;
            Ok(Command::Submit { id, body })
        }
        Request::Query(query) => query_of(alloc, query),
    }
}

fn query_of(alloc: Global, query: ReviewQuery) -> Result<Command, AllocError>
    ensures { IfOk result (λ command. command ≡ query_of query) }
{
    match query {
        ReviewQuery::Show(show) => {
            let table = text_of(alloc, &show.table)?;
            Ok(Command::Show {
                table,
                year: show.year,
            })
        }
        ReviewQuery::Freeze { name } => {
            let name = text_of(alloc, &name)?;
            Ok(Command::Freeze { name })
        }
        ReviewQuery::Recalc { name, year } => {
            let name = text_of(alloc, &name)?;
            Ok(Command::Recalc { name, year })
        }
        ReviewQuery::Trend { year } => Ok(Command::Trend { year }),
    }
}

fn text_of(alloc: Global, word: &Word) -> Result<Text, AllocError>
    ensures { IfOk result (λ text. text ≡ word.now) }
{
    Ok(Text::new(Vec::from_slice(alloc, word.as_slice())?))
}

// The name that is to be frozen, if one is.
fn name_in(command: &Command) -> &[u8]
    ensures { result.now ≡ name_in command.now }
{
    match command {
        Command::Freeze { name } => name.as_slice(),
        _ => b"",
    }
}
