//! The table of statuses.

ghost use Rattle.std.specs.Prelude.{◌≡◌, IfOk};
ghost use Rattle.ghg_http.specs.Reply.{IsMessageOf};
ghost use Rattle.ghg_http.specs.Statuses.{office_code, office_reply, refusal_reply, rule_code};

use crate::decision::Refusal;
use crate::reply::{MediaType, Message, json_message, reply_message};
use ghg_office::{Reply, append_reply};
use ghg_units::Rule;
use http::StatusCode;
use std::alloc::{AllocError, Global};
use std::str;

/// The reply to a request that is refused before its body is read.
pub fn refusal_message(alloc: Global, reason: Refusal) -> Result<Message, AllocError>
    ensures { IfOk result (IsMessageOf (refusal_reply reason)) }
{
    let (status, text) = reason.reply();
    json_message(alloc, status, text)
}

/// The reply to a request that reaches the office.
pub fn office_message(alloc: Global, answer: &Reply) -> Result<Message, AllocError>
    ensures { IfOk result (IsMessageOf (office_reply answer.now)) }
{
    let status = office_status(answer);
    match answer {
        Reply::Table(lines) => reply_message(alloc, status, MediaType::Csv, lines.as_slice()),
        _ => {
            let mut text = Vec::new(alloc);
            append_reply(&mut text, answer)?;
            json_message(alloc, status, str::from_utf8(&text).unwrap())
        }
    }
}

// The status of what the office answers.
fn office_status(answer: &Reply) -> StatusCode
    ensures { result ≡ office_code answer.now }
{
    match answer {
        Reply::Accepted { .. } => StatusCode::CREATED,
        Reply::Repeated { .. } | Reply::Table(_) => StatusCode::OK,
        Reply::Refused(rule) => rule_status(rule),
        Reply::NoTable => StatusCode::NOT_FOUND,
        Reply::KeeperFault => StatusCode::SERVICE_UNAVAILABLE,
        Reply::Memory => StatusCode::INSUFFICIENT_STORAGE,
    }
}

// The status for the rule that a submission breaks.
fn rule_status(rule: &Rule) -> StatusCode
    ensures { result ≡ rule_code rule.now }
{
    match rule {
        Rule::IdReused(_) => StatusCode::CONFLICT,
        _ => StatusCode::UNPROCESSABLE_ENTITY,
    }
}
