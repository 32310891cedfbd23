//! The bytes of a reply.

ghost use Rattle.std.specs.Prelude.{◌≡◌, string_bytes, IfOk};
ghost use Rattle.ghg_http.specs.Reply.{IsMessageOf, in_json, json_body, reply_bytes, reply_head};

use http::StatusCode;
use serde_json::json;
use std::alloc::{AllocError, Global};
use std::fmt;

/// What a body holds.
#[derive(Clone, Copy, Debug, PartialEq, Eq)]
pub enum MediaType {
    /// The lines of a table.
    Csv,
    /// An object with the text of a reply.
    Json,
}

impl fmt::Display for MediaType {
    ghost use Rattle.std.specs.Prelude.{Some};
    ghost use Rattle.ghg_http.specs.Reply.{media_text};

    ghost output = { λ media. Some (media_text media) };

    fn fmt<W: fmt::Write>(&self, f: &mut fmt::Formatter<W>) -> fmt::Result {
        match self {
            MediaType::Csv => f.write_str("text/csv"),
            MediaType::Json => f.write_str("application/json"),
        }
    }
}

/// A reply as it is sent: its status, and all of its bytes from the status line on.
#[derive(Drop)]
pub struct Message {
    pub status: StatusCode,
    pub bytes: Vec<u8>,
}

// The status line, the fields and the empty line.
fn reply_head(
    alloc: Global,
    status: StatusCode,
    media: MediaType,
    size: usize,
) -> Result<String, AllocError>
    ensures { IfOk result (λ s. string_bytes s ≡ reply_head status media size) }
{
    format!(in alloc;
        "HTTP/1.1 {status}\r\ncontent-type: {media}\r\ncontent-length: {size}\r\nconnection: close\r\n\r\n"
    )
}

/// A reply with a body.
#[tactic(auto, unfolding(crate::specs::Reply::reply_bytes))]
pub fn reply_message(
    alloc: Global,
    status: StatusCode,
    media: MediaType,
    body: &[u8],
) -> Result<Message, AllocError>
    ensures { IfOk result (IsMessageOf (record { code = status; media = media; body = body.now })) }
{
    let head = reply_head(alloc, status, media, body.len())?;
    let mut bytes = Vec::from_slice(alloc, head.as_bytes())?;
    bytes.extend_from_slice(body)?;
    Ok(Message { status, bytes })
}

// A text as a body in JSON.
fn json_body(alloc: Global, text: &str) -> Result<String, AllocError>
    ensures { IfOk result (λ s. string_bytes s ≡ json_body text.now) }
{
    json!(in alloc; {"reply": text})?.to_string(alloc)
}

/// A reply whose body is a text in JSON.
pub fn json_message(alloc: Global, status: StatusCode, text: &str) -> Result<Message, AllocError>
    ensures { IfOk result (IsMessageOf (in_json status text.now)) }
{
    let body = json_body(alloc, text)?;
    reply_message(alloc, status, MediaType::Json, body.as_bytes())
}
