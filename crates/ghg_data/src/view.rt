//! A book with edits applied.

ghost use Rattle.std.specs.Prelude.{◌≡◌};
ghost use Rattle.ghg_data.specs.Changes.{applied};
ghost use Rattle.ghg_data.specs.Shelf.{IsPlanned};

use crate::book::Book;
use crate::draft::Draft;
use crate::edits::Edits;
use crate::records::Records;
use crate::series::Series;
use ghg_definitions::{Record, RecordKey};
use ghg_interval::Interval;
use ghg_units::{Name, Span};
use std::alloc::{AllocError, Global};
use std::marker::Model;

/// The records that a book will have once its edits are committed.
#[derive(Drop)]
pub struct After<'a> {
    draft: Draft<'a>,
}

impl<'a> Model for After<'a> {
    ghost use Rattle.std.specs.FinMap.{code};
    ghost use Rattle.std.specs.Coded.{codes};
    ghost use Rattle.ghg_definitions.specs.Data.{Data};
    ghost use Rattle.ghg_definitions.specs.Sound.{IsWorkbook};

    ghost Value = { Data };

    ghost coded = { code (Prim.hlevel codes) (Prim.hlevel codes) };

    ghost view = { λ a. a.draft };

    ghost invariant = { λ a. IsWorkbook a.draft };
}

impl<'a> After<'a> {
    /// The book as it will be once the edits that were planned on it are made.
    pub(crate) fn of(book: &'a Book, edits: &'a Edits) -> After<'a>
        requires { IsPlanned book.now edits.now }
        ensures { result ≡ applied book.now.content edits.now }
    {
        After {
            draft: Draft::of(book.holdings(), edits),
        }
    }
}

impl<'a> Records for After<'a> {
    ghost content = { λ a. a };

    fn get(&self, key: &RecordKey) -> Option<&Record> {
        self.draft.get(key)
    }

    fn span(&self) -> Option<Span> {
        self.draft.span()
    }

    fn start_year(&self, name: &Name, year: u32) -> Option<u32> {
        let years = self.draft.years(&Series::Factor(*name));
        years.last_until(year)
    }

    fn next_start(&self, name: &Name, year: u32) -> Option<u32> {
        let years = self.draft.years(&Series::Factor(*name));
        years.first_after(year)
    }

    fn decay_bracket(&self, half_life: u32) -> Interval {
        self.draft.decay_bracket(half_life)
    }

    fn lines(&self, alloc: Global) -> Result<Vec<Name>, AllocError> {
        self.draft.lines(alloc)
    }
}
