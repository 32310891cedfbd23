//! The lines that reply to requests.

ghost use Rattle.std.specs.Prelude.{◌≡◌, false, IfErr, IfOk, OnOk};
ghost use Rattle.ghg_office.specs.Replies.{is_failure, reply_text};
ghost use Rattle.ghg_script.specs.Commands.{line_of};
ghost use Rattle.ghg_session.specs.Replies.{HasNoLines, HasNoReply, heading, line_count, table_lines};
ghost use Rattle.ghg_session.specs.Session.{bytes_of};

use ghg_office::{Reply, ShortLine, append_reply, short_text};
use ghg_units::Text;
use ghg_words::Status;
use std::alloc::{AllocError, Global};

/// The lines of a reply.
#[derive(Drop)]
pub enum Lines {
    /// One line, in a buffer of fixed size.
    Short(ShortLine),
    /// A first line, and the text of a table that stands under it.
    Long { first: Vec<u8>, below: Text },
}

/// The lines that reply to a request for a table. That the keeper failed or memory ran out is no reply.
pub fn table_lines(alloc: Global, table: &[u8], year: u32, reply: Reply) -> Result<Lines, Status>
    ensures lines { IfOk result (λ lines. bytes_of lines ≡ table_lines table.now year reply) }
    ensures answered { OnOk result (is_failure reply ≡ false) }
    ensures none { IfErr result (HasNoLines reply) }
{
    match reply {
        Reply::Table(text) => {
            let first = heading(alloc, table, year, text.as_slice())?;
            Ok(Lines::Long { first, below: text })
        }
        other => one_line(alloc, &other),
    }
}

// The line that a table stands under.
#[tactic(auto, unfolding(crate::specs::Replies::heading))]
fn heading(alloc: Global, table: &[u8], year: u32, text: &[u8]) -> Result<Vec<u8>, AllocError>
    ensures { IfOk result (λ line. line.items ≡ heading table.now year text.now) }
{
    let count = line_count(text);
    let rest = format!(in alloc; " {year} rows {count}\n")?;
    let mut line = b"table ".to_vec(alloc)?;
    line.extend_from_slice(table)?;
    line.extend_from_slice(rest.as_bytes())?;
    Ok(line)
}

// Each line of a text ends with a line feed.
fn line_count(text: &[u8]) -> usize
    ensures { result ≡ line_count text.now }
{
    text.iter().filter(|b| **b == b'\n').count()
}

/// The line of a reply, with nothing under it. That the keeper failed or memory ran out is no reply. A short
/// line needs no memory.
pub fn one_line(alloc: Global, reply: &Reply) -> Result<Lines, Status>
    ensures line { IfOk result (λ lines. bytes_of lines ≡ line_of (reply_text reply.now)) }
    ensures answered { OnOk result (is_failure reply.now ≡ false) }
    ensures none { IfErr result (HasNoLines reply.now) }
{
    match short_text(reply) {
        Some(mut line) => {
            line.push(b'\n');
            Ok(Lines::Short(line))
        }
        None => {
            let first = long_line(alloc, reply)?;
            let below = Text::new(Vec::new(alloc));
            Ok(Lines::Long { first, below })
        }
    }
}

// The line of a reply, in memory.
fn long_line(alloc: Global, reply: &Reply) -> Result<Vec<u8>, Status>
    ensures line { IfOk result (λ line. line.items ≡ line_of (reply_text reply.now)) }
    ensures answered { OnOk result (is_failure reply.now ≡ false) }
    ensures none { IfErr result (HasNoReply reply.now) }
{
    match reply {
        Reply::KeeperFault => Err(Status::StoreFailed),
        Reply::Memory => Err(Status::OutOfMemory),
        _ => {
            let mut line = Vec::new(alloc);
            append_reply(&mut line, reply)?;
            line.push(b'\n')?;
            Ok(line)
        }
    }
}
