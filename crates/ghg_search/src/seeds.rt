//! The nodes that edits change.

ghost use Rattle.std.specs.Prelude.{◌≡◌, ◌≢◌, ℕ, true, is_some, OnOk};
ghost use Rattle.ghg_categories.specs.declared.category.Category.{Category};
ghost use Rattle.ghg_units.specs.declared.node.Node.TheVariants as node;
ghost use Rattle.ghg_data.specs.YearSet.{has_year};
ghost use Rattle.ghg_definitions.specs.declared.record.RecordKey.{RecordKey};
ghost use Rattle.ghg_definitions.specs.Compilation.{first_year};
ghost use Rattle.ghg_definitions.specs.Data.{Name, line, span};
ghost use Rattle.ghg_definitions.specs.Listed.{IsListed};
ghost use Rattle.ghg_graph.specs.Moves.{AreMoved};
ghost use Rattle.ghg_search.specs.Found.{AreAdded, AreFound, IsEquivalentTried, IsIn, IsLineTried};
ghost use Rattle.ghg_search.specs.Search.{AddsChanges, AreEquivalentsTried, AreKept, AreLinesTried, AreTriedBy, AreYearsOf, IsChange, IsNodeIn, IsTotalOf};
ghost use Rattle.ghg_search.specs.Series.{Within};

use crate::changed::{changed_equivalents, changed_lines};
use crate::found::Found;
use crate::index::{Index, Source, is_potential, names_bound};
use crate::years::{years_at, years_from, years_if};
use ghg_categories::Category;
use ghg_columns::Series;
use ghg_data::{Records, YearSet};
use ghg_definitions::RecordKey;
use ghg_graph::{Moved, first_year, line_gas};
use ghg_units::Name;
use std::alloc::{AllocError, Global};

impl Found {
    /// Adds all nodes of some years.
    pub(crate) fn put_years<R: Records>(
        &mut self,
        alloc: Global,
        records: &R,
        years: &YearSet,
    ) -> Result<(), AllocError>
        requires { AreYearsOf (R.content records.now) years.now }
        ensures { OnOk result (AreFound (IsNodeIn (R.content records.now) years.now) self.old self.new) }
    {
        if years.is_empty() {
            return Ok(());
        }
        let lines = records.lines(alloc)?;
        for name in &lines {
            self.put(&Series::Line(*name), years)?;
            let emits = line_gas(records, name).is_some();
            self.put_if(emits, &Series::Equivalent(*name), years)?;
        }
        self.put_totals(ghg_categories::all(), years)?;
        self.put(&Series::Gross, years)?;
        Ok(())
    }

    /// Adds the lines and equivalents that are changed where the records of the keys differ, in some years
    /// that are no new ones.
    pub(crate) fn try_keys<R: Records, S: Records>(
        &mut self,
        alloc: Global,
        old: &R,
        new: &S,
        keys: &[RecordKey],
        index: &Index,
        years: &YearSet,
    ) -> Result<(), AllocError>
        requires { AreKept (R.content old.now) (S.content new.now) years.now }
        ensures added { OnOk result (AddsChanges (R.content old.now) (S.content new.now) self.old self.new) }
        ensures lines { OnOk result ((k : RecordKey) → IsListed k keys.now →
            AreLinesTried (R.content old.now) (S.content new.now) index.now years.now k self.new) }
        ensures equivalents { OnOk result ((k : RecordKey) → IsListed k keys.now →
            AreEquivalentsTried (R.content old.now) (S.content new.now) index.now years.now k self.new) }
    {
        if years.is_empty() {
            return Ok(());
        }
        for key in keys {
            self.try_key(alloc, old, new, key, index, years)?;
        }
        Ok(())
    }

    // Adds those that are changed where the record of a key differs.
    fn try_key<R: Records, S: Records>(
        &mut self,
        alloc: Global,
        old: &R,
        new: &S,
        key: &RecordKey,
        index: &Index,
        years: &YearSet,
    ) -> Result<(), AllocError>
        requires { AreKept (R.content old.now) (S.content new.now) years.now }
        ensures added { OnOk result (AddsChanges (R.content old.now) (S.content new.now) self.old self.new) }
        ensures lines { OnOk result
            (AreLinesTried (R.content old.now) (S.content new.now) index.now years.now key.now self.new) }
        ensures equivalents { OnOk result
            (AreEquivalentsTried (R.content old.now) (S.content new.now) index.now years.now key.now
            self.new) }
    {
        match key {
            RecordKey::Span => self.try_span(alloc, old, new, years),
            RecordKey::Activity(name, year) => {
                let users = index.users(&Source::Activity(*name));
                self.try_lines(old, new, users, &years_at(years, *year))
            }
            RecordKey::Factor(name, start) => {
                let factor = Source::Factor(*name);
                let users = index.users(&factor);
                self.try_users(old, new, users, &factor, &years_from(years, *start))?;
                Ok(())
            }
            RecordKey::Line(name) => {
                self.try_line(old, new, name, years)?;
                self.try_equivalent(old, new, name, years)?;
                Ok(())
            }
            RecordKey::Bind(name, _) => self.try_line(old, new, name, years),
            RecordKey::Uncert(_) => Ok(()),
        }
    }

    // Adds the lines that are changed where another year is the first.
    fn try_span<R: Records, S: Records>(
        &mut self,
        alloc: Global,
        old: &R,
        new: &S,
        years: &YearSet,
    ) -> Result<(), AllocError>
        requires { AreKept (R.content old.now) (S.content new.now) years.now }
        ensures added { OnOk result (AddsChanges (R.content old.now) (S.content new.now) self.old self.new) }
        ensures tried { OnOk result (first_year (span (R.content old.now)) ≢
            first_year (span (S.content new.now)) → (name : Name) (year : ℕ) →
            has_year years.now year ≡ true →
            IsLineTried (R.content old.now) (S.content new.now) self.new name year) }
    {
        if first_year(old) == first_year(new) {
            return Ok(());
        }
        let lines = new.lines(alloc)?;
        self.try_lines(old, new, &lines, years)?;
        Ok(())
    }

    // Adds those of lines that are changed in some years.
    fn try_lines<R: Records, S: Records>(
        &mut self,
        old: &R,
        new: &S,
        names: &[Name],
        years: &YearSet,
    ) -> Result<(), AllocError>
        requires { AreKept (R.content old.now) (S.content new.now) years.now }
        ensures added { OnOk result (AddsChanges (R.content old.now) (S.content new.now) self.old self.new) }
        ensures tried { OnOk result ((name : Name) → IsListed name names.now → (year : ℕ) →
            has_year years.now year ≡ true →
            IsLineTried (R.content old.now) (S.content new.now) self.new name year) }
    {
        for name in names {
            self.try_line(old, new, name, years)?;
        }
        Ok(())
    }

    // Adds the lines of which bindings name the source, and the equivalents of those of which it is the
    // potential, where they are changed in some years.
    fn try_users<R: Records, S: Records>(
        &mut self,
        old: &R,
        new: &S,
        names: &[Name],
        source: &Source,
        years: &YearSet,
    ) -> Result<(), AllocError>
        requires { AreKept (R.content old.now) (S.content new.now) years.now }
        ensures added { OnOk result (AddsChanges (R.content old.now) (S.content new.now) self.old self.new) }
        ensures tried { OnOk result ((name : Name) → IsListed name names.now →
            AreTriedBy (R.content old.now) (S.content new.now) source.now years.now name self.new) }
    {
        for name in names {
            let bound = years_if(names_bound(new, name, source), years);
            self.try_line(old, new, name, &bound)?;
            let weighted = years_if(is_potential(line_gas(new, name), source), years);
            self.try_equivalent(old, new, name, &weighted)?;
        }
        Ok(())
    }

    // Adds a line in those of some years in which it is changed.
    fn try_line<R: Records, S: Records>(
        &mut self,
        old: &R,
        new: &S,
        name: &Name,
        years: &YearSet,
    ) -> Result<(), AllocError>
        requires { AreKept (R.content old.now) (S.content new.now) years.now }
        ensures added { OnOk result (AddsChanges (R.content old.now) (S.content new.now) self.old self.new) }
        ensures tried { OnOk result ((year : ℕ) → has_year years.now year ≡ true →
            IsLineTried (R.content old.now) (S.content new.now) self.new name.now year) }
    {
        let line = Series::Line(*name);
        let changed = changed_lines(old, new, name, &self.missing(&line, years));
        self.put(&line, &changed)?;
        Ok(())
    }

    // Adds a line's equivalent in those of some years in which it is changed. Where the line is found its
    // equivalent is affected anyhow, and not tried.
    fn try_equivalent<R: Records, S: Records>(
        &mut self,
        old: &R,
        new: &S,
        name: &Name,
        years: &YearSet,
    ) -> Result<(), AllocError>
        requires { AreKept (R.content old.now) (S.content new.now) years.now }
        ensures added { OnOk result (AddsChanges (R.content old.now) (S.content new.now) self.old self.new) }
        ensures tried { OnOk result ((year : ℕ) → has_year years.now year ≡ true →
            IsEquivalentTried (R.content old.now) (S.content new.now) self.new name.now year) }
    {
        let equivalent = Series::Equivalent(*name);
        let others = self.missing(&equivalent, &self.missing(&Series::Line(*name), years));
        let changed = changed_equivalents(old, new, name, &others);
        self.put(&equivalent, &changed)?;
        Ok(())
    }

    /// Adds the totals that add other lines, in some years that are no new ones.
    pub(crate) fn put_moved<R: Records, S: Records>(
        &mut self,
        old: &R,
        new: &S,
        moved: &Moved,
        years: &YearSet,
    ) -> Result<(), AllocError>
        requires moved { AreMoved (R.content old.now) (S.content new.now) moved.now }
        requires years { AreKept (R.content old.now) (S.content new.now) years.now }
        ensures added { OnOk result (AddsChanges (R.content old.now) (S.content new.now) self.old self.new) }
        ensures totals { OnOk result ((top : Category) (year : ℕ) → has_year years.now year ≡ true →
            IsChange (R.content old.now) (S.content new.now) (node.Total top year) →
            IsIn self.new (node.Total top year)) }
        ensures gross { OnOk result ((year : ℕ) → has_year years.now year ≡ true →
            IsChange (R.content old.now) (S.content new.now) (node.Gross year) →
            IsIn self.new (node.Gross year)) }
    {
        self.put_totals(moved.tops.as_slice(), years)?;
        self.put_if(moved.gross, &Series::Gross, years)?;
        Ok(())
    }

    // Adds the totals of categories in some years.
    fn put_totals(&mut self, tops: &[Category], years: &YearSet) -> Result<(), AllocError>
        ensures { OnOk result (AreFound (Within years.now (IsTotalOf tops.now)) self.old self.new) }
    {
        for top in tops {
            self.put(&Series::Total(*top), years)?;
        }
        Ok(())
    }
}
