//! One connection is served: one request is read, and one reply is written.

ghost use Rattle.std.specs.Prelude.{◌≡◌, ◌≤◌, ◌+◌, true, false, Option, Some};
ghost use Rattle.ghg_office.specs.Keeping.{KeepsAccepted, Lists};
ghost use Rattle.ghg_outer.specs.Counts.{IsCounted};
ghost use Rattle.ghg_http.specs.Reply.{HttpReply};
ghost use Rattle.ghg_http.specs.Route.{routes};
ghost use Rattle.ghg_http.specs.Serve.{AnswersRequest, Sends, ServesLink, TellsFaults, asks_to_append, evaluations_asked, snapshot};

use crate::reply::Message;
use crate::request::{ReceiveError, Request, receive_request};
use crate::route::Route;
use crate::status::{office_message, refusal_message};
use ghg_keeper::Keeper;
use ghg_office::Office;
use ghg_outer::{Sink, Source, WriteError, write_all};
use ghg_steps::Steps;
use ghg_workers::{Gate, Workers};
use matchit::Router;
use std::alloc::{AllocError, Global};
use std::sync::ledger::Ledger;
use std::thread::Threads;

/// How a connection ended.
#[derive(Clone, Copy, Debug, PartialEq, Eq, Drop)]
pub enum LinkEnd {
    /// The whole reply was written, which has this status.
    Served(u16),
    /// The input ended before a whole request, and nothing was written.
    Cut,
    /// The link failed, and its count of faults rose.
    LinkFault,
    /// Memory ran out, here or at the link, whose count of faults is as before.
    Memory,
}

/// Reads one request from a link, answers it, and writes the reply, which is whole in memory before its first
/// byte is written.
///
/// Where a submission is to be stored, it is kept before it is in force. No more nodes are evaluated than its
/// rows affect, by so many workers; `gate` is told of each before.
pub fn serve_one<T: Source + Sink, K: Keeper, G: Gate, R: Threads + Sync, L: Ledger>(
    rt: &R,
    alloc: Global,
    router: &Router<Route>,
    link: &mut T,
    office: &mut Office,
    workers: u32,
    gate: &G,
    keeper: &mut K,
    stored: bool,
    steps: &mut Steps<L>,
) -> LinkEnd
    requires router { router.now ≡ routes }
    requires workers { (1 ≤ workers) × (workers ≤ 64) }
    requires same { stored ≡ true → Lists (K.shelf keeper.old) office.old.accepted }
    // However much of the reply that was due is written, only a fault of the keeper is replied to as one. The
    // keeper is called only for a submission that is to be stored and breaks no rule.
    ensures serves { (due : Option HttpReply)
        × (served : ServesLink (snapshot office.old (T.tape link.old) steps.old)
        (snapshot office.new (T.tape link.new) steps.new) due result)
        × TellsFaults due stored (K.shelf keeper.old).faults (K.shelf keeper.new).faults
        × (asks_to_append stored office.old served.exchange.asked ≡ false → keeper.new ≡ keeper.old) }

    // However the connection ends, the rows that a keeper tells are the accepted submissions.
    ensures kept { stored ≡ true
        → KeepsAccepted (K.shelf keeper.old) (K.shelf keeper.new) office.new.accepted }
    ensures untouched { stored ≡ false → keeper.new ≡ keeper.old }
{
    let request = match receive_request(alloc, router, link) {
        Ok(Some(request)) => request,
        Ok(None) => return LinkEnd::Cut,
        Err(ReceiveError::Failed) => return LinkEnd::LinkFault,
        Err(ReceiveError::Memory) => return LinkEnd::Memory,
    };
    let workers = Workers {
        threads: rt,
        count: workers,
        gate,
    };
    match answer(alloc, &workers, &request, office, keeper, stored, steps) {
        Ok(message) => send(link, &message),
        Err(_) => LinkEnd::Memory,
    }
}

// Answers a request, and makes the whole reply.
fn answer<K: Keeper, G: Gate, R: Threads + Sync, L: Ledger>(
    alloc: Global,
    workers: &Workers<'_, R, G>,
    request: &Request,
    office: &mut Office,
    keeper: &mut K,
    stored: bool,
    steps: &mut Steps<L>,
) -> Result<Message, AllocError>
    requires workers { (1 ≤ workers.now.count) × (workers.now.count ≤ 64) }
    requires same { stored ≡ true → Lists (K.shelf keeper.old) office.old.accepted }
    ensures answers { (due : HttpReply) × AnswersRequest office.old request.now due office.new result
        × TellsFaults (Some due) stored (K.shelf keeper.old).faults (K.shelf keeper.new).faults }
    ensures steps { steps.new ≤ steps.old + evaluations_asked office.old (Some request.now) }
    ensures kept { stored ≡ true
        → KeepsAccepted (K.shelf keeper.old) (K.shelf keeper.new) office.new.accepted }
    ensures untouched { asks_to_append stored office.old (Some request.now) ≡ false
        → keeper.new ≡ keeper.old }
{
    match request {
        Request::Refused(reason) => refusal_message(alloc, *reason),
        Request::Asked(request) => {
            let reply = office.answer(alloc, workers, &request.as_slices(), keeper, stored, steps);
            office_message(alloc, &reply)
        }
    }
}

// Writes a whole message to a link.
fn send<T: Sink>(link: &mut T, message: &Message) -> LinkEnd
    ensures sent { Sends (T.tape link.old) (T.tape link.new) message.now result }
    ensures counted { IsCounted (T.tape link.old).faults (T.tape link.new).faults
        (result ≡ LinkEnd.LinkFault) }
{
    match write_all(link, &message.bytes) {
        Ok(()) => LinkEnd::Served(message.status.as_u16()),
        Err(WriteError::Failed) => LinkEnd::LinkFault,
        Err(WriteError::Memory) => LinkEnd::Memory,
    }
}
