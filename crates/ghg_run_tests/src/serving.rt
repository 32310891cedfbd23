//! Connections that are served in memory: whole replies, a link that fails, and a keeper without memory.

ghost use Rattle.std.specs.Prelude.{All, IfOk};
ghost use Rattle.ghg_outer.specs.Doors.{IsFreshLink};

use crate::full_at_first::FullAtFirst;
use crate::words::words_of;
use ghg_keeper::{Keeper, SteadyKeeper};
use ghg_outer::{MemoryDoor, MemoryLink, MemorySink, MemorySource};
use ghg_run::run_counted;
use ghg_workers::OpenGate;
use std::alloc::{AllocError, Global};
use std::hash::RandomState;
use std::marker::Brand;
use std::process::Abort;
use std::random::RandomSource;
use std::sync::ledger::Blank;
use std::test::Fail;
use std::thread::Threads;

/// A request for a path that is none.
pub(crate) const NOWHERE: &str = "GET /nothing HTTP/1.1\r\n\r\n";

const NOT_FOUND: &str = "HTTP/1.1 404 Not Found\r\ncontent-type: application/json\r\n\
    content-length: 21\r\nconnection: close\r\n\r\n{\"reply\":\"not found\"}";

/// A submission of a header.
pub(crate) const SUBMISSION: &str = "POST /submissions/a HTTP/1.1\r\nContent-Length: 52\r\n\r\n\
    act,kind,subject,name,year,value,low,high,unit,note\n";

/// The reply to it, if it is the first.
pub(crate) const ACCEPTED: &str = "HTTP/1.1 201 Created\r\ncontent-type: application/json\r\n\
    content-length: 22\r\nconnection: close\r\n\r\n{\"reply\":\"accepted 1\"}";

/// The reply to it where it acted before.
pub(crate) const REPEATED: &str = "HTTP/1.1 200 OK\r\ncontent-type: application/json\r\n\
    content-length: 22\r\nconnection: close\r\n\r\n{\"reply\":\"repeated 1\"}";

const NO_MEMORY: &str = "HTTP/1.1 507 Insufficient Storage\r\ncontent-type: application/json\r\n\
    content-length: 18\r\nconnection: close\r\n\r\n{\"reply\":\"memory\"}";

/// A link with this request, and the number of the call on it that fails, or 0 where none does.
pub(crate) fn link(alloc: Global, request: &[u8], failing: u64) -> Result<MemoryLink, AllocError>
    ensures { IfOk result IsFreshLink }
{
    let bytes = request.to_vec(alloc)?;
    Ok(MemoryLink::new(alloc, bytes, [failing].to_vec(alloc)?))
}

/// Serves these links, and compares the status and what was written on each link that was taken back.
pub(crate) fn check<K: Keeper>(
    rt: &(impl Abort + AllocGlobal + RandomSource + Threads + Sync),
    words: &str,
    links: Vec<MemoryLink>,
    keeper: &mut K,
    status: u8,
    replies: &[&str],
) -> Result<(), Fail>
    requires { All IsFreshLink links.items }
{
    let alloc = rt.alloc();
    let words = words_of(alloc, words)?;
    let mut input = MemorySource::new(Vec::new(alloc), Vec::new(alloc));
    let mut out = MemorySink::new(alloc, Vec::new(alloc));
    let mut door = MemoryDoor::new(alloc, links, Vec::new(alloc));
    let ended = run_counted::<_, _, _, _, _, _, Brand>(
        rt,
        alloc,
        RandomState::new(rt)?,
        &words,
        &mut input,
        &mut out,
        keeper,
        &mut door,
        &OpenGate,
        Blank::new(1),
    );
    assert_eq!(rt; ended, status);
    assert_eq!(rt; out.bytes(), b"".as_slice());
    assert_eq!(rt; door.finished().len(), replies.len());
    for (link, reply) in door.finished().iter().zip(replies) {
        assert_eq!(rt; link.written(), reply.as_bytes());
    }
    Ok(())
}

// The reply comes whole, and then the door gives no second link.
#[test]
fn a_request_is_replied_to(rt: HostRuntime) -> Result<(), Fail> {
    let alloc = rt.alloc();
    let links = Vec::from_array(alloc, [link(alloc, NOWHERE.as_bytes(), 0)?])?;
    check(
        &rt,
        "serve --port 8000 --connections 2",
        links,
        &mut SteadyKeeper::new(alloc),
        7,
        &[NOT_FOUND],
    )
}

// The first read of the first link fails.
#[test]
fn a_link_that_fails_ends_no_other(rt: HostRuntime) -> Result<(), Fail> {
    let alloc = rt.alloc();
    let failing = link(alloc, NOWHERE.as_bytes(), 1)?;
    let whole = link(alloc, SUBMISSION.as_bytes(), 0)?;
    check(
        &rt,
        "serve --port 8000 --connections 2",
        Vec::from_array(alloc, [failing, whole])?,
        &mut SteadyKeeper::new(alloc),
        0,
        &["", ACCEPTED],
    )
}

// Memory runs out where the row is to be kept, and the next link submits the same.
#[test]
fn want_of_memory_is_replied_to(rt: HostRuntime) -> Result<(), Fail> {
    let alloc = rt.alloc();
    let first = link(alloc, SUBMISSION.as_bytes(), 0)?;
    let again = link(alloc, SUBMISSION.as_bytes(), 0)?;
    let mut keeper = FullAtFirst::new(alloc);
    check(
        &rt,
        "serve --port 8000 --connections 2 --store s",
        Vec::from_array(alloc, [first, again])?,
        &mut keeper,
        0,
        &[NO_MEMORY, ACCEPTED],
    )?;
    assert!(rt; keeper.count() == Ok(1));
    Ok(())
}
