//! A workbook's records.

ghost use Rattle.std.specs.Prelude.{◌≡◌, IfOk};
ghost use Rattle.std.specs.FinMap as finite;
ghost use Rattle.std.specs.List.{AllByRecursion};
ghost use Rattle.ghg_units.specs.WellFormed.{IsWellFormed};
ghost use Rattle.ghg_definitions.specs.Rows.{after};
ghost use Rattle.ghg_definitions.specs.Rules.{planned};
ghost use Rattle.ghg_data.specs.Refusal.{IsPlanOf};
ghost use Rattle.ghg_data.specs.Changes.{AreOfRows, applied};
ghost use Rattle.ghg_data.specs.Shelf.{IsPlanned};

use crate::draft::{Draft, span_in};
use crate::edits::Edits;
use crate::holdings::Holdings;
use crate::plan::planned_edits;
use crate::records::Records;
use crate::refusal::PlanRefusal;
use crate::series::Series;
use crate::view::After;
use ghg_definitions::{Record, RecordKey};
use ghg_interval::Interval;
use ghg_units::{Name, Row, Rule, Span};
use std::alloc::{AllocError, Global};
use std::hash::RandomState;
use std::marker::Model;

/// The records of a workbook. Contracts see its data, and how many more changes fit without memory.
#[derive(Drop)]
pub struct Book {
    holdings: Holdings,
}

impl Model for Book {
    ghost use Rattle.ghg_data.specs.Shelf.{Shelf, shelf_code};
    ghost use Rattle.ghg_definitions.specs.Sound.{IsWorkbook};
    ghost use Rattle.std.specs.Coded.{codes};

    ghost Value = { Shelf };

    ghost coded = { shelf_code (Prim.hlevel codes) (Prim.hlevel codes) };

    ghost view = { λ b. b.holdings };

    ghost invariant = { λ b. IsWorkbook b.holdings.content };
}

/// The records that a book will have once edits that were planned on it as it stands are committed. It takes
/// no memory.
pub fn after<'a>(book: &'a Book, edits: &'a Edits) -> After<'a>
    requires { IsPlanned book.now edits.now }
    ensures { result ≡ applied book.now.content edits.now }
{
    After::of(book, edits)
}

impl Records for Book {
    ghost content = { λ b. b.content };

    fn get(&self, key: &RecordKey) -> Option<&Record> {
        self.holdings.get(key)
    }

    fn span(&self) -> Option<Span> {
        span_in(self.holdings.get(&RecordKey::Span))
    }

    fn start_year(&self, name: &Name, year: u32) -> Option<u32> {
        let years = self.holdings.years(&Series::Factor(*name));
        years.last_until(year)
    }

    fn next_start(&self, name: &Name, year: u32) -> Option<u32> {
        let years = self.holdings.years(&Series::Factor(*name));
        years.first_after(year)
    }

    fn decay_bracket(&self, half_life: u32) -> Interval {
        self.holdings.decay_bracket(half_life)
    }

    fn lines(&self, alloc: Global) -> Result<Vec<Name>, AllocError> {
        Vec::from_slice(alloc, self.holdings.lines())
    }
}

impl Book {
    /// A workbook without records. Its maps hash with `hasher`. It takes no memory.
    pub fn new(alloc: Global, hasher: RandomState) -> Book
        ensures { result.content ≡ finite.empty }
    {
        Book {
            holdings: Holdings::new(alloc, hasher),
        }
    }

    /// What the rows of a submission make of this book: the edits, with room made for them, where no rule is
    /// broken.
    ///
    /// `rest` is the rule that stopped the reading of the rows, and `kept_bytes` how many bytes all kept
    /// bodies have with this one. The first rule that is broken is answered: that of the first row that
    /// breaks one on units or presence, `rest`, the least unsound binding, and the first limit. Each key of
    /// the edits is that of some row, and there are no more edits than rows. The records stay with every
    /// answer.
    pub fn plan(
        &mut self,
        alloc: Global,
        rows: &[Row],
        rest: Option<Rule>,
        kept_bytes: u64,
    ) -> Result<Edits, PlanRefusal>
        requires { AllByRecursion IsWellFormed rows.now }
        ensures kept { self.new.content ≡ self.old.content }
        ensures planned { IsPlanOf (planned self.old.content rows.now rest kept_bytes)
            self.old.content result }
        ensures after { IfOk result (λ edits. applied self.old.content edits ≡ after
            self.old.content rows.now) }
        ensures few { IfOk result (AreOfRows rows.now) }
        ensures ready { IfOk result (IsPlanned self.new) }
    {
        self.holdings.keep_brackets(rows)?;
        let edits = planned_edits(alloc, &self.holdings, rows, rest, kept_bytes)?;
        let span = Draft::of(&self.holdings, &edits).span();
        self.holdings.reserve(alloc, &edits, span)?;
        Ok(edits)
    }

    /// Makes the changes of edits that were planned on this book as it stands. It takes no memory.
    pub fn commit(&mut self, edits: Edits)
        requires { IsPlanned self.old edits }
        ensures { self.new.content ≡ applied self.old.content edits }
    {
        self.holdings.apply(edits);
    }

    /// The records by their keys, with the names and years that look-ups search.
    pub(crate) fn holdings(&self) -> &Holdings
        ensures { result.now ≡ self.now }
    {
        &self.holdings
    }
}
