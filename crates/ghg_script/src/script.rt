//! The script of `compile`: submissions, and requests for tables.

ghost use Rattle.std.specs.Prelude.{◌≡◌, ◌&&◌};
ghost use Rattle.std.specs.List.{list_all};
ghost use Rattle.ghg_script.specs.Script.{is_lower, show_form, submit_form};
ghost use Rattle.ghg_script.specs.Words.{has_length};

use crate::command::Line;
use crate::dialect::Dialect;
use crate::word::{LONGEST_ID, Word, is_between, parts, year_from};
use ghg_units::read_number;

/// The lines `SUBMIT ID LENGTH`, `SHOW TABLE YEAR` and `END`.
pub struct Script;

impl Dialect<TableQuery> for Script {
    ghost use Rattle.ghg_script.specs.Script.{script_forms};

    ghost forms = { script_forms };

    #[tactic(auto, unfolding(crate::specs::Script::script_forms))]
    fn read_form(line: &[u8]) -> Option<Line<TableQuery>> {
        if line == b"END".as_slice() {
            return Some(Line::End);
        }
        if let Some(rest) = line.strip_prefix(b"SUBMIT ".as_slice()) {
            return submit(rest);
        }
        match line.strip_prefix(b"SHOW ".as_slice()) {
            Some(rest) => show(rest),
            None => None,
        }
    }
}

/// A request for a table of a year.
#[derive(Drop)]
pub struct TableQuery {
    /// The name of the table.
    pub table: Word,
    /// The year.
    pub year: u32,
}

const LENGTH_DIGITS: usize = 8;

// An id, and how many bytes the body has.
fn submit(words: &[u8]) -> Option<Line<TableQuery>>
    ensures { result ≡ submit_form words.now }
{
    let (id, length) = parts(words)?;
    match read_number(length, LENGTH_DIGITS) {
        Some(length) if is_between(id, 1, LONGEST_ID) => Some(Line::Submit {
            id: Word::new(id),
            length: length as u32,
        }),
        _ => None,
    }
}

const LONGEST_TABLE: usize = 16;

// The name of a table, and a year.
fn show(words: &[u8]) -> Option<Line<TableQuery>>
    ensures { result ≡ show_form words.now }
{
    let (table, digits) = parts(words)?;
    match year_from(digits) {
        Some(year) if is_table(table) => Some(Line::Query(TableQuery {
            table: Word::new(table),
            year,
        })),
        _ => None,
    }
}

fn is_table(word: &[u8]) -> bool
    ensures { result ≡ (has_length 1 LONGEST_TABLE word.now && list_all is_lower word.now) }
{
    is_between(word, 1, LONGEST_TABLE) && has_lower_letters_alone(word)
}

fn has_lower_letters_alone(word: &[u8]) -> bool
    ensures { result ≡ list_all is_lower word.now }
{
    word.iter().all(|b| b'a' <= *b && *b <= b'z')
}
