//! Where the head of a request stands in the bytes that have come.

ghost use Rattle.std.specs.Prelude.{◌≡◌, IfOk};
ghost use Rattle.ghg_http.specs.Head.{IsHead};
ghost use Rattle.ghg_http.specs.Route.{routes};

use crate::decision::{Decision, decide};
use crate::fields::{fields_of, framing_of};
use crate::route::{Route, path_of, target_of};
use httparse::spans::{EMPTY_HEADER_SPAN, parse_request};
use httparse::{Error, Status};
use matchit::Router;
use std::alloc::{AllocError, Global};
use std::str;

/// The longest head that is read.
pub const MAX_HEAD: usize = 16_384;

/// The most fields that a head has.
const MAX_FIELDS: usize = 64;

/// What is said of the bytes that have come.
#[derive(Clone, Copy, Debug)]
pub enum Head<'b> {
    /// They begin with a head of so many bytes.
    Whole { decision: Decision<'b>, size: usize },
    /// They hold no head yet, and there is room for more.
    Unfinished,
    /// No bytes can follow that make a head.
    Malformed,
    /// There is no head in the room that a head has, or there are too many fields.
    TooLarge,
}

/// Reads the head of a request at the front of the bytes.
pub fn read_head<'b>(
    alloc: Global,
    router: &Router<Route>,
    bytes: &'b [u8],
) -> Result<Head<'b>, AllocError>
    requires { router.now ≡ routes }
    ensures { IfOk result (IsHead bytes.now) }
{
    let mut spans = [EMPTY_HEADER_SPAN; MAX_FIELDS];
    match parse_request(bytes, &mut spans) {
        Ok(Status::Complete(head)) => {
            let Ok(target) = str::from_utf8(head.path.of(bytes)) else {
                return Ok(Head::Malformed);
            };
            let fields = fields_of(alloc, bytes, &spans[..head.headers])?;
            let decision = decide(
                head.method.of(bytes),
                target_of(router, path_of(target)),
                framing_of(&fields),
            );
            Ok(Head::Whole {
                decision,
                size: head.len,
            })
        }
        Ok(Status::Partial) if bytes.len() < MAX_HEAD => Ok(Head::Unfinished),
        Ok(Status::Partial) | Err(Error::TooManyHeaders) => Ok(Head::TooLarge),
        Err(_) => Ok(Head::Malformed),
    }
}
