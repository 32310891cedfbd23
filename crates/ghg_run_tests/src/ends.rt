//! How connections end, which no reply shows.

ghost use Rattle.std.specs.Prelude.{◌≡◌, ◌<◌};

use crate::serving::{NOWHERE, link};
use ghg_http::{LinkEnd, routes, serve_one};
use ghg_keeper::SteadyKeeper;
use ghg_office::Office;
use ghg_outer::MemoryLink;
use ghg_steps::Steps;
use ghg_workers::OpenGate;
use std::alloc::{AllocError, Global};
use std::hash::RandomState;
use std::marker::Brand;
use std::process::Abort;
use std::random::RandomSource;
use std::sync::ledger::{Blank, Ledger};
use std::test::Fail;
use std::thread::Threads;

fn end_with<T: Threads + Sync, L: Ledger>(
    rt: &T,
    alloc: Global,
    hasher: RandomState,
    blank: Blank,
    link: &mut MemoryLink,
) -> Result<LinkEnd, AllocError>
    requires name { blank.name ≡ L.name }
    requires parts { blank.parts ≡ L.parts }
    requires some { 0 < blank.parts }
{
    let router = routes(alloc)?;
    let mut office = Office::new(alloc, hasher);
    let mut keeper = SteadyKeeper::new(alloc);
    let mut steps = Steps::<L>::new(blank);
    Ok(serve_one(
        rt,
        alloc,
        &router,
        link,
        &mut office,
        1,
        &OpenGate,
        &mut keeper,
        false,
        &mut steps,
    ))
}

fn end_of(
    rt: &(impl Threads + Sync),
    alloc: Global,
    hasher: RandomState,
    link: &mut MemoryLink,
) -> Result<LinkEnd, AllocError> {
    end_with::<_, Brand>(rt, alloc, hasher, Blank::new(1), link)
}

/// The end of a link with these bytes, on which the call of this number fails, or none where it is 0, and
/// what was written on it.
pub(crate) fn end(
    rt: &(impl Abort + AllocGlobal + RandomSource + Threads + Sync),
    bytes: &[u8],
    failing: u64,
) -> Result<(LinkEnd, Vec<u8>), Fail> {
    let alloc = rt.alloc();
    let mut link = link(alloc, bytes, failing)?;
    let end = end_of(rt, alloc, RandomState::new(rt)?, &mut link)?;
    Ok((end, link.written().to_vec(alloc)?))
}

#[test]
fn a_link_that_fails_ends_in_a_fault(rt: HostRuntime) -> Result<(), Fail> {
    let nowhere = NOWHERE.as_bytes();
    assert_eq!(rt; end(&rt, nowhere, 0)?.0, LinkEnd::Served(404));
    assert_eq!(rt; end(&rt, b"GET /nothing HTTP/1.1\r\n", 0)?.0, LinkEnd::Cut);
    assert_eq!(rt; end(&rt, nowhere, 1)?.0, LinkEnd::LinkFault);
    assert_eq!(rt; end(&rt, nowhere, 2)?.0, LinkEnd::LinkFault);
    Ok(())
}
