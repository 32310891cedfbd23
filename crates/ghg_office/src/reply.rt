//! What an office answers.

ghost use Rattle.std.specs.Prelude.{◌≡◌, ◌≤◌, ◌<◌, ◌++◌, codes, decimal, take, length, is_some, false, IfSome, OnOk, OnErr};
ghost use Rattle.std.specs.Str.{IsUtf8};
ghost use Rattle.arrayvec.specs.ArrayVec.{array_vec_len};
ghost use Rattle.ghg_units.specs.Refusals.{refusal_text};
ghost use Rattle.ghg_office.specs.Replies.{is_short, is_table, reply_text};

use arrayvec::ArrayVec;
use ghg_data::PlanRefusal;
use ghg_keeper::KeepError;
use ghg_units::{Rule, Text, append_rule};
use itoa::Buffer;
use std::alloc::AllocError;

/// The answer to a submission or to a request for a table.
#[derive(Drop)]
pub enum Reply {
    /// The submission is in force, has this number, and affects this many nodes.
    Accepted { seq: u64, cells: u64 },
    /// The submission was accepted before, under this number.
    Repeated { seq: u64 },
    /// The submission breaks this rule, and changed nothing.
    Refused(Rule),
    /// The lines of the table, each ended by a line feed.
    Table(Text),
    /// There is no table of this name for this year.
    NoTable,
    /// The keeper failed, its count of faults rose, and the office is as before.
    KeeperFault,
    /// Memory ran out, and nothing changed.
    Memory,
}

/// The number of a submission that is accepted, and how many nodes it affects.
#[derive(Drop)]
pub(crate) struct Acceptance {
    pub(crate) seq: u64,
    pub(crate) cells: u64,
}

impl From<AllocError> for Reply {
    ghost use Rattle.std.specs.Prelude.{◌≡◌};
    ghost use Rattle.ghg_office.specs.declared.reply.Reply.TheVariants.{Memory};

    ghost from_gives = { λ _ reply. reply ≡ Memory };

    fn from(_error: AllocError) -> Reply {
        Reply::Memory
    }
}

impl From<PlanRefusal> for Reply {
    ghost use Rattle.std.specs.Prelude.{◌≡◌};
    ghost use Rattle.ghg_office.specs.Replies.{plan_reply};

    ghost from_gives = { λ refusal reply. reply ≡ plan_reply refusal };

    fn from(refusal: PlanRefusal) -> Reply {
        match refusal {
            PlanRefusal::Rule(rule) => Reply::Refused(rule),
            PlanRefusal::Memory => Reply::Memory,
        }
    }
}

impl From<KeepError> for Reply {
    ghost use Rattle.std.specs.Prelude.{◌≡◌};
    ghost use Rattle.ghg_office.specs.Replies.{keep_reply};

    ghost from_gives = { λ error reply. reply ≡ keep_reply error };

    fn from(error: KeepError) -> Reply {
        match error {
            KeepError::Failed => Reply::KeeperFault,
            KeepError::Memory => Reply::Memory,
        }
    }
}

/// Appends the line of a reply without its end, which is UTF-8, or the lines of a table.
///
/// Without the memory for it the text is as before.
pub fn append_reply(out: &mut Vec<u8>, reply: &Reply) -> Result<(), AllocError>
    ensures ok { OnOk result (out.new.items ≡ out.old.items ++ reply_text reply.now) }
    ensures err { OnErr result (out.new.items ≡ out.old.items) }
    ensures text { OnOk result (is_table reply.now ≡ false → IsUtf8 (reply_text reply.now)) }
{
    let before = out.len();
    let appended = append_text(out, reply);
    if appended.is_err() {
        out.truncate(before);
    }
    appended
}

// The same, where an error may leave a part of the text at the end.
#[tactic(auto, unfolding(crate::specs::Replies::reply_text))]
fn append_text(out: &mut Vec<u8>, reply: &Reply) -> Result<(), AllocError>
    ensures ok { OnOk result (out.new.items ≡ out.old.items ++ reply_text reply.now) }
    ensures kept { OnErr result (take (length out.old.items) out.new.items ≡ out.old.items) }
    ensures text { OnOk result (is_table reply.now ≡ false → IsUtf8 (reply_text reply.now)) }
{
    if let Some(text) = short_text(reply) {
        return out.extend_from_slice(text.as_slice());
    }
    match reply {
        Reply::Refused(rule) => append_refused(out, rule),
        Reply::Table(text) => out.extend_from_slice(text.as_slice()),
        Reply::KeeperFault => out.extend_from_slice(b"keeper fault"),
        _ => out.extend_from_slice(b"memory"),
    }
}

// The rule that refuses a submission.
fn append_refused(out: &mut Vec<u8>, rule: &Rule) -> Result<(), AllocError>
    ensures ok { OnOk result (out.new.items ≡ out.old.items ++ (codes "refused " ++ refusal_text rule.now)) }
    ensures kept { OnErr result (take (length out.old.items) out.new.items ≡ out.old.items) }
    ensures text { OnOk result (IsUtf8 (codes "refused " ++ refusal_text rule.now)) }
{
    out.extend_from_slice("refused ".as_bytes())?;
    append_rule(out, rule)
}

/// A line in a buffer of fixed size: a word and a space, the most digits of a number of 64 bits, and the
/// line feed.
pub type ShortLine = ArrayVec<u8, 30>;

/// The line of a reply without its end, for which there is room, where the line needs no memory: of an
/// acceptance, of a repeat, and that there is no table.
#[tactic(auto, unfolding(crate::specs::Replies::reply_text))]
pub fn short_text(reply: &Reply) -> Option<ShortLine>
    ensures which { is_some result ≡ is_short reply.now }
    ensures text { IfSome result (λ line. line.items ≡ reply_text reply.now) }
    ensures room { IfSome result (λ line. array_vec_len line < 30) }
    ensures utf8 { IfSome result (λ line. IsUtf8 line.items) }
{
    match reply {
        Reply::Accepted { seq, .. } => Some(numbered("accepted ", *seq)),
        Reply::Repeated { seq } => Some(numbered("repeated ", *seq)),
        Reply::NoTable => Some(words_alone("no table")),
        Reply::Refused(_) | Reply::Table(_) | Reply::KeeperFault | Reply::Memory => None,
    }
}

// Words and a number.
fn numbered(words: &str, number: u64) -> ShortLine
    requires { length words.now ≤ 9 }
    ensures text { result.items ≡ words.now ++ decimal number }
    ensures room { array_vec_len result < 30 }
    ensures utf8 { IsUtf8 result.items }
{
    let mut digits = Buffer::new();
    let mut line = words_alone(words);
    line.try_extend_from_slice(digits.format(number).as_bytes())
        .unwrap();
    line
}

// Words alone.
fn words_alone(words: &str) -> ShortLine
    requires { length words.now ≤ 9 }
    ensures text { result.items ≡ words.now }
    ensures room { array_vec_len result ≤ 9 }
    ensures utf8 { IsUtf8 result.items }
{
    let mut line = ArrayVec::new();
    line.try_extend_from_slice(words.as_bytes()).unwrap();
    line
}
