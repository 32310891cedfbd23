//! The script of `review`: that of `compile`, and requests that set the present data beside earlier ones.

ghost use Rattle.std.specs.Prelude.{◌≡◌};
ghost use Rattle.ghg_script.specs.Commands.{lacks};
ghost use Rattle.ghg_script.specs.Review.{as_review, freeze_form, further_query, recalc_form};

use crate::command::Line;
use crate::dialect::Dialect;
use crate::script::{Script, TableQuery};
use crate::word::{LONGEST_ID, Word, is_between, parts, year_from};

/// The lines of [`Script`], and `FREEZE NAME`, `RECALC NAME YEAR` and `TREND YEAR`.
pub struct Review;

/// What one line of a review asks for.
#[derive(Drop)]
pub enum ReviewQuery {
    /// A table of a year.
    Show(TableQuery),
    /// To freeze the present data as the version of this name.
    Freeze { name: Word },
    /// The differences between the version of this name and the present data, in a year.
    Recalc { name: Word, year: u32 },
    /// The uncertainty of the trend from the base year to a year.
    Trend { year: u32 },
}

impl Dialect<ReviewQuery> for Review {
    ghost use Rattle.ghg_script.specs.Review.{review_forms};

    ghost forms = { review_forms };

    #[tactic(auto, unfolding(crate::specs::Review::review_forms))]
    fn read_form(line: &[u8]) -> Option<Line<ReviewQuery>> {
        match Script::read_form(line) {
            Some(said) => Some(as_review(said)),
            None => Some(Line::Query(further_query(line)?)),
        }
    }
}

// What a line of `Script` says here.
fn as_review(said: Line<TableQuery>) -> Line<ReviewQuery>
    ensures { result ≡ as_review said }
{
    match said {
        Line::Submit { id, length } => Line::Submit { id, length },
        Line::Query(query) => Line::Query(ReviewQuery::Show(query)),
        Line::End => Line::End,
    }
}

// What a line asks for that is none of `Script`.
fn further_query(line: &[u8]) -> Option<ReviewQuery>
    ensures { result ≡ further_query line.now }
{
    if let Some(name) = line.strip_prefix(b"FREEZE ".as_slice()) {
        return freeze(name);
    }
    if let Some(words) = line.strip_prefix(b"RECALC ".as_slice()) {
        return recalc(words);
    }
    let digits = line.strip_prefix(b"TREND ".as_slice())?;
    Some(ReviewQuery::Trend {
        year: year_from(digits)?,
    })
}

// The name of a version.
fn freeze(name: &[u8]) -> Option<ReviewQuery>
    ensures { result ≡ freeze_form name.now }
{
    if is_between(name, 1, LONGEST_ID) && lacks_spaces(name) {
        Some(ReviewQuery::Freeze {
            name: Word::new(name),
        })
    } else {
        None
    }
}

fn lacks_spaces(word: &[u8]) -> bool
    ensures { result ≡ lacks 32 word.now }
{
    word.iter().all(|b| *b != b' ')
}

// The name of a version, and a year.
fn recalc(words: &[u8]) -> Option<ReviewQuery>
    ensures { result ≡ recalc_form words.now }
{
    let (name, digits) = parts(words)?;
    match year_from(digits) {
        Some(year) if is_between(name, 1, LONGEST_ID) => Some(ReviewQuery::Recalc {
            name: Word::new(name),
            year,
        }),
        _ => None,
    }
}
