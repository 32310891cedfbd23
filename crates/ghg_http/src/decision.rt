//! What the head of a request decides, without its body.

ghost use Rattle.std.specs.Prelude.{◌≡◌, option_map};
ghost use Rattle.ghg_http.specs.Decision.{decision, refusal_row, seen, show_dated, show_framed, sized, submit_framed, year_of};
ghost use Rattle.ghg_http.specs.Route.{seen as seen_target};

use crate::fields::{Framing, Length};
use crate::route::Target;
use ghg_import::MAX_BODY;
use ghg_units::read_number;
use http::StatusCode;

/// Why a request is refused before its body is read, and what to do then.
#[derive(Clone, Copy, Debug, PartialEq, Eq, Drop)]
pub enum Refusal {
    /// The bytes are no request, as if the path is not UTF-8, or `Content-Length` is not 1 to 10 digits, or
    /// stands twice with different texts, as `291` and `0291`. Mend the client.
    BadRequest,
    /// The head has more than `MAX_HEAD` bytes or `MAX_FIELDS` fields. Mend the client.
    HeadTooLarge,
    /// There is no such path. Take `/submissions/ID` or `/tables/TABLE/YEAR`.
    NotFound,
    /// The path has the other method. POST to `/submissions/`, GET from `/tables/`.
    WrongMethod,
    /// A POST without `Content-Length`, or in chunks. Send the length.
    LengthRequired,
    /// The body is compressed. Send it plain.
    CodedBody,
    /// The body has more than `MAX_BODY` bytes. Split the file.
    BodyTooLong,
    /// It asks for a table of what is no year.
    NoYear,
}

impl Refusal {
    /// The status and the text of the reply.
    pub fn reply(self) -> (StatusCode, &'static str)
        ensures status { result.0 ≡ (refusal_row self).0 }
        ensures text { result.1.now ≡ (refusal_row self).1 }
    {
        match self {
            Refusal::BadRequest => (StatusCode::BAD_REQUEST, "bad request"),
            Refusal::HeadTooLarge => (
                StatusCode::REQUEST_HEADER_FIELDS_TOO_LARGE,
                "head too large",
            ),
            Refusal::NotFound => (StatusCode::NOT_FOUND, "not found"),
            Refusal::WrongMethod => (StatusCode::METHOD_NOT_ALLOWED, "method"),
            Refusal::LengthRequired => (StatusCode::LENGTH_REQUIRED, "length required"),
            Refusal::CodedBody => (StatusCode::UNSUPPORTED_MEDIA_TYPE, "coded body"),
            Refusal::BodyTooLong => (StatusCode::PAYLOAD_TOO_LARGE, "refused 3 BodyTooLong"),
            Refusal::NoYear => (StatusCode::NOT_FOUND, "no table"),
        }
    }
}

/// What a head decides.
#[derive(Clone, Copy, Debug)]
pub enum Decision<'b> {
    /// That the request is refused.
    Refuse(Refusal),
    /// That a submission follows, of so many bytes.
    Submit { id: &'b str, size: u64 },
    /// That a table is shown.
    Show { table: &'b str, year: u32 },
}

/// The first case that holds, by the method, what the path asks for and how the body is sent.
pub fn decide<'b>(method: &[u8], target: Option<Target<'b>>, framing: Framing) -> Decision<'b>
    ensures { seen result ≡ decision method.now (option_map seen_target target.entry) framing }
{
    match target {
        None => Decision::Refuse(Refusal::NotFound),
        Some(Target::Submission { id }) if method == b"POST".as_slice() => submit_framed(
            id, framing,
        ),
        Some(Target::Table { table, year }) if method == b"GET".as_slice() => show_framed(
            table,
            year,
            framing.body_length,
        ),
        Some(_) => Decision::Refuse(Refusal::WrongMethod),
    }
}

fn submit_framed(id: &str, framing: Framing) -> Decision<'_>
    ensures { seen result ≡ submit_framed id.now framing }
{
    if framing.is_chunked {
        return Decision::Refuse(Refusal::LengthRequired);
    }
    match framing.body_length {
        Length::Missing => Decision::Refuse(Refusal::LengthRequired),
        Length::Malformed => Decision::Refuse(Refusal::BadRequest),
        Length::Given(_) if framing.is_coded => Decision::Refuse(Refusal::CodedBody),
        Length::Given(size) => sized(id, size),
    }
}

fn sized(id: &str, size: u64) -> Decision<'_>
    ensures { seen result ≡ sized id.now size }
{
    if size > MAX_BODY as u64 {
        Decision::Refuse(Refusal::BodyTooLong)
    } else {
        Decision::Submit { id, size }
    }
}

fn show_framed<'b>(table: &'b str, year: &str, length: Length) -> Decision<'b>
    ensures { seen result ≡ show_framed table.now year.now length }
{
    match length {
        Length::Malformed => Decision::Refuse(Refusal::BadRequest),
        Length::Missing | Length::Given(_) => show_dated(table, read_year(year.as_bytes())),
    }
}

fn show_dated(table: &str, year: Option<u32>) -> Decision<'_>
    ensures { seen result ≡ show_dated table.now year }
{
    match year {
        Some(year) => Decision::Show { table, year },
        None => Decision::Refuse(Refusal::NoYear),
    }
}

// The year that four digits write.
fn read_year(text: &[u8]) -> Option<u32>
    ensures { result ≡ year_of text.now }
{
    if text.len() != 4 {
        return None;
    }
    let year = read_number(text, 4)?;
    Some(year as u32)
}
