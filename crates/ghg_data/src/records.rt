//! What reads as the records of a workbook.

ghost use Rattle.std.specs.Prelude.{◌≡◌, true, IfOk, option_copied};
ghost use Rattle.std.specs.FinMap.{get};
ghost use Rattle.std.specs.Option.{option_map};
ghost use Rattle.std.specs.List.Sorted.{IsStrictlySortedBy};
ghost use Rattle.ghg_units.specs.Parameter.{is_parameter};
ghost use Rattle.ghg_definitions.specs.declared.record.RecordKey.TheVariants as key;
ghost use Rattle.ghg_definitions.specs.Choices.{HoldsSource};
ghost use Rattle.ghg_definitions.specs.Data.{Data, binding, category, line, line_names, name_cmp, span};
ghost use Rattle.ghg_definitions.specs.Lookups.{activity, activity_input, decay, decay_input, factor, factor_input, factor_key};
ghost use Rattle.ghg_definitions.specs.Sound.{IsWorkbook};
ghost use Rattle.ghg_roots.specs.Decay.{decay_bounds};
ghost use Rattle.ghg_units.specs.WellFormed.{IsHalfLife};
ghost use Rattle.ghg_data.specs.Lasting.{HasYear, IsLasting, IsNextStart};

use crate::lasting::Lasting;
use crate::lookups;
use crate::parameters::name_of;
use ghg_categories::Category;
use ghg_cell::Input;
use ghg_definitions::{Record, RecordKey};
use ghg_equations::{EqId, Param};
use ghg_interval::Interval;
use ghg_units::{Binding, Name, ParamName, Span};
use std::alloc::{AllocError, Global};

/// A workbook's records: those of a book, or those that it will have once its edits are committed.
pub trait Records {
    ghost content: { Self → Data };

    /// The record under a key; `None` exactly where the key has none.
    fn get(&self, key: &RecordKey) -> Option<&Record>
        ensures record { option_copied result ≡ get (content self.now) key.now }
        ensures workbook { IsWorkbook (content self.now) };

    /// The years of the inventory; `None` exactly where there is no record of them.
    fn span(&self) -> Option<Span>
        ensures span { result ≡ span (content self.now) }
        ensures workbook { IsWorkbook (content self.now) };

    /// The names of the lines that are present, each once, in byte order.
    fn lines(&self, alloc: Global) -> Result<Vec<Name>, AllocError>
        ensures names { IfOk result (λ names. names.items ≡ line_names (content self.now)) }
        ensures order { IfOk result (λ names. IsStrictlySortedBy name_cmp names.items) }
        ensures workbook { IsWorkbook (content self.now) };

    /// The start year of a factor's record that is in force in a year, which is the greatest that is not
    /// after the year; `None` exactly where there is none.
    fn start_year(&self, name: &Name, year: u32) -> Option<u32>
        ensures start { option_map (λ start. key.Factor name.now start) result ≡ factor_key
            (content self.now) name.now year }
        ensures workbook { IsWorkbook (content self.now) };

    /// The start year of a factor's first record that starts after a year; `None` exactly where none does.
    fn next_start(&self, name: &Name, year: u32) -> Option<u32>
        ensures { IsNextStart (content self.now) name.now year result };

    /// The bracket of the yearly decay factor of a half-life in tenths of a year.
    fn decay_bracket(&self, half_life: u32) -> Interval
        requires { IsHalfLife half_life }
        ensures { result ≡ decay_bounds half_life };

    /// The category at which a line stands, and its equation; `None` exactly where the line is not present.
    final fn line(&self, name: &Name) -> Option<(Category, EqId)>
        ensures category { option_map (λ l. l.0) result ≡ category (content self.now) name.now }
        ensures equation { option_map (λ l. l.1) result ≡ line (content self.now) name.now }
    {
        match self.get(&RecordKey::Line(*name)) {
            Some(Record::Line(category, equation)) => Some((*category, *equation)),
            _ => None,
        }
    }

    /// What a parameter of a line is bound to; `None` exactly where nothing binds it.
    final fn binding(&self, line: &Name, parameter: &ParamName) -> Option<&Binding>
        ensures { option_copied result ≡ binding (content self.now) line.now parameter.now }
    {
        match self.get(&RecordKey::Bind(*line, *parameter)) {
            Some(Record::Bind(binding)) => Some(binding),
            _ => None,
        }
    }

    /// What a parameter of a line's equation is bound to; `None` exactly where nothing binds it.
    final fn bound(&self, line: &Name, param: &Param) -> Option<&Binding>
        requires { is_parameter param.now.name.now ≡ true }
        ensures { option_copied result ≡ binding (content self.now) line.now param.now.name.now }
    {
        self.binding(line, &name_of(param))
    }

    /// What an activity gives in a year: the figures of the year's record in the base unit, so that at every
    /// choice within the supplied bounds what is chosen is inside the range. Blank where there is no record,
    /// or where it is not estimated.
    final fn activity(&self, name: &Name, year: u32) -> Input
        ensures input { result ≡ activity_input (content self.now) name.now year }
        ensures holds { HoldsSource (content self.now) (activity (content self.now) name.now year) result }
    {
        lookups::activity(self, name, year)
    }

    /// What a factor gives in a year: the figures in the base unit of the record with the greatest start year
    /// that is not after the year, which hold what is chosen likewise. Blank where there is none, or where it
    /// is not estimated.
    final fn factor(&self, name: &Name, year: u32) -> Input
        ensures input { result ≡ factor_input (content self.now) name.now year }
        ensures holds { HoldsSource (content self.now) (factor (content self.now) name.now year) result }
    {
        lookups::factor(self, name, year)
    }

    /// What a factor gives in a year, and in which years around it: from that in which the record in force
    /// starts up to the one before the next record starts. Where none is in force, it is a blank up to the
    /// year before the first record starts.
    final fn lasting_factor(&self, name: &Name, year: u32) -> Lasting
        ensures lasting { IsLasting (content self.now) name.now result }
        ensures year { HasYear result year }
    {
        lookups::lasting_factor(self, name, year)
    }

    /// The share of decaying waste that a year leaves, by the half-life that a factor has in the year: the
    /// bracket of its yearly decay factor (2006 IPCC Guidelines, Volume 5, Chapter 3), as point and as range,
    /// which holds what is chosen likewise. Blank where there is no record, or one that is no half-life.
    final fn decay(&self, name: &Name, year: u32) -> Input
        ensures input { result ≡ decay_input (content self.now) name.now year }
        ensures holds { HoldsSource (content self.now) (decay (content self.now) name.now year) result }
    {
        lookups::decay(self, name, year)
    }
}
