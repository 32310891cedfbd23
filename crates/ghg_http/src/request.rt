//! Requests, as they are received from a link.

ghost use Rattle.std.specs.Prelude.{◌≡◌, ◌⊎◌, ◌+◌, ◌++◌, ◌<◌, ◌≤◌, [], IfErr, IfOk, IfSome, IsErrOf, MatchOption, false, length, true};
ghost use Rattle.ghg_http.specs.Head.{IsWhole};
ghost use Rattle.ghg_http.specs.Receive.{CompletesBody, CutsBody, EndsEarly, FollowsHead, Grows, IsFilled, IsPrompt, Stopped, TakesRequest, max_read};
ghost use Rattle.ghg_http.specs.Route.{routes};
ghost use Rattle.ghg_outer.specs.Counts.{IsCounted};
ghost use Rattle.ghg_outer.specs.Tape.{IsAtEnd};

use crate::decision::{Decision, Refusal};
use crate::head::{Head, MAX_HEAD, read_head};
use crate::route::Route;
use ghg_office::Request as Asked;
use ghg_outer::{Failed, Source};
use ghg_units::Text;
use matchit::Router;
use std::alloc::{AllocError, AllocFailed, Global};

// The most bytes that one read takes.
const MAX_READ: usize = 4096;

/// Why no request was received.
#[derive(Clone, Copy, Debug, PartialEq, Eq, Drop)]
pub enum ReceiveError {
    /// The link failed.
    Failed,
    /// Memory ran out.
    Memory,
}

impl From<Failed> for ReceiveError {
    ghost use Rattle.ghg_http.specs.declared.request.ReceiveError.TheVariants.{Failed as FailedVariant};

    ghost from_gives = { λ _ e. e ≡ FailedVariant };

    fn from(_: Failed) -> ReceiveError {
        ReceiveError::Failed
    }
}

impl From<AllocError> for ReceiveError {
    ghost use Rattle.ghg_http.specs.declared.request.ReceiveError.TheVariants.{Memory};

    ghost from_gives = { λ _ e. e ≡ Memory };

    fn from(_: AllocError) -> ReceiveError {
        ReceiveError::Memory
    }
}

/// A request.
#[derive(Drop)]
pub enum Request {
    /// It is refused before its body is read.
    Refused(Refusal),
    /// It is put to the office.
    Asked(Asked<Text>),
}

/// Receives the next request from a link, or finds that the input ends before a whole one.
///
/// No more than 16,384 bytes are read, or than the body of a submission takes. The first of them may stand
/// behind the request too, but nothing is read once a whole request has come.
pub fn receive_request<T: Source>(
    alloc: Global,
    router: &Router<Route>,
    link: &mut T,
) -> Result<Option<Request>, ReceiveError>
    requires { router.now ≡ routes }
    ensures request { IfOk result (TakesRequest (T.tape link.old) (T.tape link.new)) }
    ensures stopped { IfErr result (Stopped EndsEarly IsPrompt (T.tape link.old) (T.tape link.new)) }
    ensures counted { IsCounted (T.tape link.old).faults (T.tape link.new).faults
        (IsErrOf result ReceiveError.Failed) }
{
    let mut buffer = Vec::new(alloc);
    'head: loop {
        match read_head(alloc, router, &buffer)? {
            Head::Unfinished => {
                let room = MAX_HEAD - buffer.len();
                if receive(link, &mut buffer, room)? == 0 {
                    return Ok(None);
                }
            }
            Head::Malformed => return Ok(Some(Request::Refused(Refusal::BadRequest))),
            Head::TooLarge => return Ok(Some(Request::Refused(Refusal::HeadTooLarge))),
            Head::Whole { decision, size } => {
                return receive_rest(alloc, link, &buffer, decision, size);
            }
        }
    }
}

// Receives what a head asks for. The bytes begin with the head, which has this size.
fn receive_rest<T: Source>(
    alloc: Global,
    link: &mut T,
    bytes: &[u8],
    decision: Decision<'_>,
    size: usize,
) -> Result<Option<Request>, ReceiveError>
    requires whole { IsWhole bytes.now decision size }
    requires short { length bytes.now ≤ MAX_HEAD }
    requires prompt { IsPrompt bytes.now }
    ensures request { IfOk result (FollowsHead (T.tape link.old) (T.tape link.new) bytes.now) }
    ensures stopped { IfErr result (Stopped (λ text. EndsEarly (bytes.now ++ text))
        (λ text. IsPrompt (bytes.now ++ text)) (T.tape link.old) (T.tape link.new)) }
    ensures counted { IsCounted (T.tape link.old).faults (T.tape link.new).faults
        (IsErrOf result ReceiveError.Failed) }
{
    match decision {
        Decision::Refuse(reason) => Ok(Some(Request::Refused(reason))),
        Decision::Show { table, year } => {
            let table = text_of(alloc, table)?;
            Ok(Some(Request::Asked(Asked::Show { table, year })))
        }
        Decision::Submit {
            id,
            size: body_size,
        } => {
            let id = text_of(alloc, id)?;
            let rest = bytes.split_at(size).1;
            match receive_body(alloc, link, rest, body_size as usize)? {
                Some(body) => Ok(Some(Request::Asked(Asked::Submit { id, body }))),
                None => Ok(None),
            }
        }
    }
}

// A text's bytes.
fn text_of(alloc: Global, text: &str) -> Result<Text, AllocError>
    ensures { IfOk result (λ bytes. bytes ≡ text.now) }
{
    Ok(Text::new(text.as_bytes().to_vec(alloc)?))
}

// Receives the rest of a body of this size, or finds that the input ends before.
fn receive_body<T: Source>(
    alloc: Global,
    link: &mut T,
    rest: &[u8],
    size: usize,
) -> Result<Option<Text>, ReceiveError>
    ensures body { IfOk result (λ body. MatchOption body
        (CutsBody (T.tape link.old) (T.tape link.new) rest.now size)
        (CompletesBody (T.tape link.old) (T.tape link.new) rest.now)) }
    ensures size { IfOk result (λ body. IfSome body (λ bytes. length bytes ≡ size)) }
    ensures stopped { IfErr result (Stopped (λ text. length (rest.now ++ text) < size)
        (λ text. IsFilled rest.now (rest.now ++ text) size) (T.tape link.old) (T.tape link.new)) }
    ensures counted { IsCounted (T.tape link.old).faults (T.tape link.new).faults
        (IsErrOf result ReceiveError.Failed) }
{
    let mut body = Vec::from_slice(alloc, rest)?;
    if !fill(link, &mut body, size)? {
        return Ok(None);
    }
    body.truncate(size);
    Ok(Some(Text::new(body)))
}

// Receives bytes until there are so many, and says whether that came before the end of the input.
fn fill<T: Source>(link: &mut T, body: &mut Vec<u8>, size: usize) -> Result<bool, ReceiveError>
    ensures got { IfOk result (λ _.
        Grows (T.tape link.old) (T.tape link.new) body.old.items body.new.items) }
    ensures last { IfOk result (λ _. IsFilled body.old.items body.new.items size) }
    ensures whole { IfOk result (λ whole. whole ≡ true → size ≤ length body.new.items) }
    ensures near { IfOk result (λ _. (body.new.items ≡ body.old.items) ⊎ (length body.new.items ≤ size)) }
    ensures cut { IfOk result (λ whole. whole ≡ false → length body.new.items < size) }
    ensures end { IfOk result (λ whole. whole ≡ false → IsAtEnd (T.tape link.new)) }
    ensures stopped { IfErr result (Stopped (λ text. length (body.old.items ++ text) < size)
        (λ text. IsFilled body.old.items (body.old.items ++ text) size) (T.tape link.old) (T.tape link.new)) }
    ensures counted { IsCounted (T.tape link.old).faults (T.tape link.new).faults
        (IsErrOf result ReceiveError.Failed) }
{
    while body.len() < size {
        if receive(link, body, size - body.len())? == 0 {
            return Ok(false);
        }
    }
    Ok(true)
}

// Receives some bytes, at most so many, to the end of a buffer. None come at the end of the input.
fn receive<T: Source>(
    link: &mut T,
    buffer: &mut Vec<u8>,
    most: usize,
) -> Result<usize, ReceiveError>
    requires { 0 < most }
    ensures got { IfOk result (λ _.
        Grows (T.tape link.old) (T.tape link.new) buffer.old.items buffer.new.items) }
    ensures count { IfOk result (λ n. length buffer.new.items ≡ length buffer.old.items + n) }
    ensures bound { IfOk result (λ n. n ≤ most) }
    ensures once { IfOk result (λ n. n ≤ max_read) }
    ensures end { IfOk result (λ n. n ≡ 0 → IsAtEnd (T.tape link.new)) }
    ensures stopped { IfErr result (Stopped (λ text. text ≡ []) (λ text. length text ≤ max_read)
        (T.tape link.old) (T.tape link.new)) }
    ensures counted { IsCounted (T.tape link.old).faults (T.tape link.new).faults
        (IsErrOf result ReceiveError.Failed) }
{
    let mut chunk = [0; MAX_READ];
    let room = most.min(chunk.len());
    let count = link.read(&mut chunk[..room])?;
    buffer.extend_from_slice(&chunk[..count])?;
    Ok(count)
}
