//! The limits of a workbook.

ghost use Rattle.std.specs.Prelude.{◌≡◌, length};
ghost use Rattle.std.specs.FinMap.{len};
ghost use Rattle.ghg_definitions.specs.Data.{line_names};
ghost use Rattle.ghg_definitions.specs.Rules.{is_long, limit_fault, passed_limit};

use crate::draft::Draft;
use ghg_definitions::{LONGEST_SPAN, MOST_KEPT_BYTES, MOST_LINES, MOST_RECORDS};
use ghg_units::{Limit, Rule, Span};

fn is_long(span: Option<Span>) -> bool
    ensures { result ≡ is_long span }
{
    match span {
        Some(span) => span.last.saturating_sub(span.first) > LONGEST_SPAN,
        None => false,
    }
}

// The first limit of the workbook that the records are beyond.
#[tactic(auto, unfolding(ghg_definitions::specs::Rules::passed_limit))]
fn passed_limit(draft: &Draft<'_>, lines: usize, records: usize) -> Option<Limit>
    requires lines { lines ≡ length (line_names draft.now) }
    requires records { records ≡ len draft.now }
    ensures { result ≡ passed_limit draft.now }
{
    if lines > MOST_LINES {
        Some(Limit::Lines)
    } else if records > MOST_RECORDS {
        Some(Limit::Records)
    } else if is_long(draft.span()) {
        Some(Limit::Span)
    } else {
        None
    }
}

/// The rule on limits, where the records or the kept bytes break it.
pub(crate) fn limit_fault(
    draft: &Draft<'_>,
    lines: usize,
    records: usize,
    kept_bytes: u64,
) -> Option<Rule>
    requires lines { lines ≡ length (line_names draft.now) }
    requires records { records ≡ len draft.now }
    ensures { result ≡ limit_fault (passed_limit draft.now) kept_bytes }
{
    match passed_limit(draft, lines, records) {
        Some(limit) => Some(Rule::TooMany(limit)),
        None if kept_bytes > MOST_KEPT_BYTES => Some(Rule::TooMany(Limit::Bytes)),
        None => None,
    }
}
