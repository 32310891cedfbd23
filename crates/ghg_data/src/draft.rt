//! Records with edits applied, in the midst of planning.

ghost use Rattle.std.specs.Prelude.{◌≡◌, ℕ, true, ◌&&◌, None, is_some, option_copied, IfOk, IfSome, IfNone};
ghost use Rattle.std.specs.FinMap as finite;
ghost use Rattle.ghg_definitions.specs.Data.{as_line, as_span, binding, figure, line, line_names, span, uncertainty};
ghost use Rattle.ghg_definitions.specs.Rules.{is_other_year};
ghost use Rattle.ghg_definitions.specs.Sound.{IsConsistent};
ghost use Rattle.ghg_data.specs.Series.{dated};
ghost use Rattle.ghg_data.specs.Changes.{applied};
ghost use Rattle.ghg_roots.specs.Decay.{decay_bounds};
ghost use Rattle.ghg_units.specs.WellFormed.{IsHalfLife};
ghost use Rattle.ghg_units.specs.Year.{is_year};
ghost use Rattle.ghg_data.specs.YearSet.{has_year};

use crate::edits::Edits;
use crate::holdings::Holdings;
use crate::names::lines_after;
use crate::series::{Series, date_of};
use crate::year_set::YearSet;
use ghg_definitions::{Record, RecordKey};
use ghg_equations::EqId;
use ghg_interval::Interval;
use ghg_units::{Binding, EARLIEST_YEAR, Figure, LATEST_YEAR, Name, ParamName, Span};
use std::alloc::{AllocError, Global};
use std::marker::Model;

/// Records as the edits so far leave them.
#[derive(Drop)]
pub(crate) struct Draft<'a> {
    holdings: &'a Holdings,
    edits: &'a Edits,
}

impl<'a> Model for Draft<'a> {
    ghost use Rattle.std.specs.FinMap.{code};
    ghost use Rattle.std.specs.Coded.{codes};
    ghost use Rattle.ghg_definitions.specs.Data.{Data};
    ghost use Rattle.ghg_definitions.specs.Sound.{IsConsistent};
    ghost use Rattle.ghg_data.specs.Changes.{applied};

    ghost Value = { Data };

    ghost coded = { code (Prim.hlevel codes) (Prim.hlevel codes) };

    ghost view = { λ d. applied d.holdings.now.content d.edits.now };

    ghost invariant = { λ d. IsConsistent (applied d.holdings.now.content d.edits.now) };
}

impl<'a> Draft<'a> {
    /// The records once the edits are made.
    pub(crate) fn of(holdings: &'a Holdings, edits: &'a Edits) -> Draft<'a>
        requires { IsConsistent (applied holdings.now.content edits.now) }
        ensures { result ≡ applied holdings.now.content edits.now }
    {
        Draft { holdings, edits }
    }

    /// The record under a key.
    pub(crate) fn get(&self, key: &RecordKey) -> Option<&Record>
        ensures { option_copied result ≡ finite.get self.now key.now }
    {
        match self.edits.get(key) {
            Some(change) => change.as_ref(),
            None => self.holdings.get(key),
        }
    }

    /// Whether a key has a record. Those of a series are seen in its years.
    pub(crate) fn has(&self, key: &RecordKey) -> bool
        ensures { result ≡ is_some (finite.get self.now key.now) }
    {
        match date_of(key) {
            Some((series, year)) if EARLIEST_YEAR <= year && year <= LATEST_YEAR => {
                self.years(&series).has(year)
            }
            _ => self.get(key).is_some(),
        }
    }

    /// The figure of an activity's or a factor's record.
    pub(crate) fn figure(&self, key: &RecordKey) -> Option<Figure>
        ensures { result ≡ figure self.now key.now }
    {
        match self.get(key) {
            Some(Record::Activity(figure) | Record::Factor(figure)) => Some(*figure),
            _ => None,
        }
    }

    /// The years that the span's record holds, where there is one.
    pub(crate) fn span(&self) -> Option<Span>
        ensures { result ≡ span self.now }
    {
        span_in(self.get(&RecordKey::Span))
    }

    /// The names of the lines, in order.
    pub(crate) fn lines(&self, alloc: Global) -> Result<Vec<Name>, AllocError>
        ensures { IfOk result (λ lines. lines.items ≡ line_names self.now) }
    {
        lines_after(alloc, self.holdings, self.edits)
    }

    /// The bracket of the yearly decay factor of a half-life in tenths of a year.
    pub(crate) fn decay_bracket(&self, half_life: u32) -> Interval
        requires { IsHalfLife half_life }
        ensures { result ≡ decay_bounds half_life }
    {
        self.holdings.decay_bracket(half_life)
    }

    /// The equation of a line that is present.
    pub(crate) fn line(&self, name: &Name) -> Option<EqId>
        ensures { result ≡ line self.now name.now }
    {
        equation_in(self.get(&RecordKey::Line(*name)))
    }

    /// What a parameter of a line is bound to.
    pub(crate) fn binding(&self, line: &Name, parameter: &ParamName) -> Option<&Binding>
        ensures { option_copied result ≡ binding self.now line.now parameter.now }
    {
        match self.get(&RecordKey::Bind(*line, *parameter)) {
            Some(Record::Bind(binding)) => Some(binding),
            _ => None,
        }
    }

    /// Whether a line has an uncertainty record.
    pub(crate) fn has_uncertainty(&self, line: &Name) -> bool
        ensures { result ≡ is_some (uncertainty self.now line.now) }
    {
        matches!(
            self.get(&RecordKey::Uncert(*line)),
            Some(Record::Uncert(_, _))
        )
    }

    /// The years of the records of a series.
    pub(crate) fn years(&self, series: &Series) -> YearSet
        ensures { (y : ℕ) → has_year result y ≡ is_year y && is_some
            (finite.get self.now (dated series.now y)) }
    {
        let put = self.edits.years_put(series);
        let taken = self.edits.years_taken(series);
        self.holdings.years(series).changed(&put, &taken)
    }

    /// The figure of some record of the same kind and name for another year.
    pub(crate) fn other_year(&self, key: &RecordKey) -> Option<Figure>
        ensures found { IfSome result (λ f. (q : RecordKey) × (figure self.now q ≡ Some f) ×
            (is_other_year key.now q ≡ true)) }
        ensures none { IfNone result ((q : RecordKey) → is_other_year key.now q ≡ true
            → figure self.now q ≡ None) }
        ensures consistent { IsConsistent self.now }
    {
        // The proof learns the type's invariant where a field is named.
        let _ = &self.holdings;
        let Some((series, year)) = date_of(key) else {
            return None;
        };
        match self
            .years(&series)
            .with(year, false)
            .last_until(LATEST_YEAR)
        {
            Some(other) => self.figure(&series.dated(other)),
            None => None,
        }
    }
}

/// The years that a span's record holds.
pub(crate) fn span_in(entry: Option<&Record>) -> Option<Span>
    ensures { result ≡ as_span (option_copied entry.entry) }
{
    match entry {
        Some(Record::Span(span)) => Some(*span),
        _ => None,
    }
}

/// The equation that a line's record holds.
pub(crate) fn equation_in(entry: Option<&Record>) -> Option<EqId>
    ensures { result ≡ as_line (option_copied entry.entry) }
{
    match entry {
        Some(Record::Line(_, equation)) => Some(*equation),
        _ => None,
    }
}
