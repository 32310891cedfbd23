//! What changed at each leaf in each year.

ghost use Rattle.std.specs.Prelude.{◌≡◌, ℕ, Bool, true, false, if◌then◌else◌, Some, OnOk};
ghost use Rattle.ghg_categories.specs.declared.category.Category.{Category};
ghost use Rattle.ghg_definitions.specs.Compilation.{compilation, is_node};
ghost use Rattle.ghg_definitions.specs.Data.{Data, Name};
ghost use Rattle.ghg_definitions.specs.Trials.{or_blank};
ghost use Rattle.ghg_units.specs.declared.node.Node.TheVariants as node;
ghost use Rattle.ghg_shifts.specs.Extents.{figures_of};
ghost use Rattle.ghg_shifts.specs.Noted.{AreNoted, AreShifts, HasRoom, IsAdded, IsChange, IsCounted, IsOutcomeOf, emitted_at, is_there, less, more, no_line, nothing, shift_at, shifts_in, with_line_in};
ghost use Rattle.ghg_shifts.specs.Shifts.{counts_in, input_at, total_at};
ghost use Rattle.ghg_shifts.specs.Sums.{IsSumOf, most_joined};

use crate::evaluated::Evaluated;
use crate::extents::Extents;
use crate::shift::Shift;
use ghg_categories::{Category, is_under};
use ghg_cell::{Input, Ticket};
use ghg_interval::Over;
use std::alloc::{AllocError, Global};
use std::collections::BTreeMap;

/// For each leaf of the tree of categories and each year, what went from it and what came to it.
#[derive(Drop)]
pub struct Shifts {
    by_leaf: BTreeMap<(u32, Category), Shift>,
}

impl Shifts {
    /// Nothing went and nothing came. Takes no memory.
    pub fn new(alloc: Global) -> Shifts
        ensures shifts { (year : ℕ) (leaf : Category) → shift_at result year leaf ≡ nothing }
        ensures noted { (old new : Data) → AreNoted old new (λ year. no_line) (λ year. no_line) result }
    {
        Shifts {
            by_leaf: BTreeMap::new(alloc),
        }
    }

    /// What went from a leaf in a year, and what came to it.
    pub fn at(&self, year: u32, leaf: Category) -> Shift
        ensures { result ≡ shift_at self.now year leaf }
    {
        match self.by_leaf.get(&(year, leaf)) {
            Some(shift) => *shift,
            None => Shift::nothing(),
        }
    }

    /// Notes that a line is gone in a year. What its equivalent gave goes from the category at which the line
    /// stood, if it emitted a gas.
    pub fn note_gone(
        &mut self,
        year: u32,
        stood: Option<Category>,
        gave: &Input,
    ) -> Result<(), AllocError>
        requires { (leaf : Category) → HasRoom (shift_at self.old year leaf) }
        ensures shifts { OnOk result ((y : ℕ) (leaf : Category) → shift_at self.new y leaf ≡
            (if is_there year stood y leaf then less gave.now (shift_at self.old y leaf)
            else shift_at self.old y leaf)) }
        ensures noted { OnOk result ((old new : Data) (gone come : ℕ → Name → Bool) (name : Name) →
            AreNoted old new gone come self.old → gone year name ≡ false → stood ≡ emitted_at old name →
            gave.now ≡ input_at (compilation old) (node.Equiv name year) →
            AreNoted old new (with_line_in year name gone) come self.new) }
    {
        if let Some(leaf) = stood {
            let mut shift = self.at(year, leaf);
            shift.go(gave);
            self.put(year, leaf, shift)?;
        }
        Ok(())
    }

    /// Notes that a line has come in a year. What its equivalent gives, which may be over, comes to the
    /// category at which the line stands, if it emits a gas.
    pub fn note_come(
        &mut self,
        year: u32,
        stands: Option<Category>,
        gives: Result<Input, Over>,
    ) -> Result<(), AllocError>
        requires { (leaf : Category) → HasRoom (shift_at self.old year leaf) }
        ensures shifts { OnOk result ((y : ℕ) (leaf : Category) → shift_at self.new y leaf ≡
            (if is_there year stands y leaf then more gives (shift_at self.old y leaf)
            else shift_at self.old y leaf)) }
        ensures noted { OnOk result ((old new : Data) (gone come : ℕ → Name → Bool) (name : Name) →
            AreNoted old new gone come self.old → come year name ≡ false → stands ≡ emitted_at new name →
            ((leaf : Category) → stands ≡ Some leaf →
            gives ≡ or_blank (compilation new (node.Equiv name year))) →
            AreNoted old new gone (with_line_in year name come) self.new) }
    {
        if let Some(leaf) = stands {
            let mut shift = self.at(year, leaf);
            shift.come(gives);
            self.put(year, leaf, shift)?;
        }
        Ok(())
    }

    /// The total of a category in a year, or the gross total if `top` is `None`: what it was, blank in a new
    /// year, less what went, plus what came. It is over, and does not break, if something over came.
    /// Otherwise it is over, and breaks, if a bound is beyond 10^9 of its unit.
    pub fn total(&self, kept: &Input, top: Option<Category>, year: u32, ticket: Ticket) -> Evaluated
        ensures { (old new : Data) → IsChange old new → AreShifts old new year top self.now →
            kept.now ≡ input_at (compilation old) (total_at top year) →
            is_node new (total_at top year) ≡ true → IsOutcomeOf new (total_at top year) result }
    {
        let counted = self.counted(top, year);
        if counted.over {
            return Evaluated::passed_on();
        }
        let figures = counted.came.exchanged(kept, &counted.went);
        Evaluated::of(figures.total(ticket))
    }

    fn put(&mut self, year: u32, leaf: Category, shift: Shift) -> Result<(), AllocError>
        ensures { OnOk result ((y : ℕ) (c : Category) → shift_at self.new y c ≡
            (if is_there year (Some leaf) y c then shift else shift_at self.old y c)) }
    {
        self.by_leaf.insert((year, leaf), shift)?;
        Ok(())
    }

    // What went from all leaves that a total counts, and what came to them. It visits only the leaves at
    // which something is noted in the year, from the first category of the tree to the last.
    fn counted(&self, top: Option<Category>, year: u32) -> Counted
        ensures { IsCounted most_joined (shifts_in self.now year top) result }
    {
        let mut counted = Counted {
            went: Extents::zero(),
            came: Extents::zero(),
            over: false,
        };
        let first = (year, Category::National);
        let last = (year, Category::C5B);
        for ((_, leaf), shift) in self.by_leaf.range(first..=last) {
            if counts(top, *leaf) {
                counted = counted.with(shift);
            }
        }
        counted
    }
}

// What went from several leaves, and what came to them.
#[derive(Clone, Copy)]
struct Counted {
    went: Extents,
    came: Extents,
    over: bool,
}

impl Counted {
    // With one more leaf.
    fn with(self, shift: &Shift) -> Counted
        requires went { IsSumOf most_joined (figures_of self.went) }
        requires came { IsSumOf most_joined (figures_of self.came) }
        ensures { IsAdded self shift.now result }
    {
        Counted {
            went: self.went.joined(&shift.went.extents()),
            came: self.came.joined(&shift.came.extents()),
            over: self.over || shift.over,
        }
    }
}

// Whether a total counts what stands at a category.
fn counts(top: Option<Category>, category: Category) -> bool
    ensures { result ≡ counts_in top category }
{
    match top {
        Some(top) => is_under(category, top),
        None => is_under(category, Category::National) && !is_under(category, Category::C3B),
    }
}
