//! From the nodes that are found to those that take them.

ghost use Rattle.std.specs.Prelude.{◌≡◌, ℕ, true, Some, OnOk};
ghost use Rattle.ghg_units.specs.WellFormed.{IsSpan};
ghost use Rattle.ghg_units.specs.declared.node.Node.{Node};
ghost use Rattle.ghg_units.specs.declared.node.Node.TheVariants as node;
ghost use Rattle.ghg_definitions.specs.Data.{Data, span};
ghost use Rattle.ghg_columns.specs.declared.series.Series.TheVariants as series;
ghost use Rattle.ghg_search.specs.Found.{AreAdded, AreFound, AreQueued, IsIn};
ghost use Rattle.ghg_data.specs.YearSet.{has_year};
ghost use Rattle.ghg_search.specs.Index.{HasUsers, names_bound};
ghost use Rattle.ghg_search.specs.Search.{AreAffected, AreNodes, AreNodesOf, IsClosed, IsLineNaming, IsTakerOf, IsTotalAbove};
ghost use Rattle.ghg_search.specs.Series.{Within};

use crate::found::{Found, Group};
use crate::index::{Index, Source, names_bound};
use crate::years::next_years;
use ghg_categories::{Category, DEPTH, parent};
use ghg_columns::Series;
use ghg_data::{Records, YearSet};
use ghg_graph::{counts_in_gross, is_in_tree, line_gas};
use ghg_units::{Name, Span};
use std::alloc::AllocError;

impl Found {
    /// Adds the nodes that take those that are found, those that take these, and so on.
    pub(crate) fn spread<R: Records>(
        &mut self,
        records: &R,
        index: &Index,
        years: Span,
    ) -> Result<(), AllocError>
        requires index { HasUsers (R.content records.now) index.now }
        requires span { span (R.content records.now) ≡ Some years }
        requires years { IsSpan years }
        requires queued { AreQueued self.old }
        requires nodes { AreNodes (R.content records.now) self.old }
        ensures kept { OnOk result ((n : Node) → IsIn self.old n → IsIn self.new n) }
        ensures queued { OnOk result (AreQueued self.new) }
        ensures closed { OnOk result (IsClosed (R.content records.now) self.new) }
        ensures affected { OnOk result ((old : Data) → AreAffected old (R.content records.now) self.old →
            AreAffected old (R.content records.now) self.new) }
    {
        let mut next = 0;
        while let Some(group) = self.at(next) {
            self.put_takers(records, index, years, &group)?;
            next += 1;
        }
        Ok(())
    }

    // Adds the nodes that take one of a group.
    fn put_takers<R: Records>(
        &mut self,
        records: &R,
        index: &Index,
        inventory: Span,
        group: &Group,
    ) -> Result<(), AllocError>
        requires index { HasUsers (R.content records.now) index.now }
        requires span { span (R.content records.now) ≡ Some inventory }
        requires years { IsSpan inventory }
        requires nodes { AreNodesOf (R.content records.now) group.now.series group.now.years }
        ensures { OnOk result (AreFound
            (IsTakerOf (R.content records.now) group.now.series group.now.years) self.old self.new) }
    {
        match &group.series {
            Series::Line(name) => {
                self.put_line_takers(records, index, inventory, name, &group.years)
            }
            Series::Equivalent(name) => self.put_tops(records, name, &group.years),
            Series::Total(_) => Ok(()),
            Series::Gross => Ok(()),
        }
    }

    // Adds the lines that take a line's values of some years, in these and the next ones, and its
    // equivalents.
    fn put_line_takers<R: Records>(
        &mut self,
        records: &R,
        index: &Index,
        inventory: Span,
        name: &Name,
        years: &YearSet,
    ) -> Result<(), AllocError>
        requires index { HasUsers (R.content records.now) index.now }
        requires span { span (R.content records.now) ≡ Some inventory }
        requires years { IsSpan inventory }
        requires nodes { AreNodesOf (R.content records.now) (series.Line name.now) years.now }
        ensures { OnOk result (AreFound
            (IsTakerOf (R.content records.now) (series.Line name.now) years.now) self.old self.new) }
    {
        let emits = line_gas(records, name).is_some();
        self.put_if(emits, &Series::Equivalent(*name), years)?;
        self.put_each(records, index, &Source::Line(*name), years)?;
        let next = next_years(years, inventory);
        self.put_each(records, index, &Source::Previous(*name), &next)?;
        Ok(())
    }

    // Adds the lines that name a source, in some years.
    fn put_each<R: Records>(
        &mut self,
        records: &R,
        index: &Index,
        source: &Source,
        years: &YearSet,
    ) -> Result<(), AllocError>
        requires { HasUsers (R.content records.now) index.now }
        ensures { OnOk result (AreFound
            (Within years.now (IsLineNaming (R.content records.now) source.now)) self.old self.new) }
    {
        for taker in index.users(source) {
            let line = Series::Line(*taker);
            if self.missing(&line, years).is_empty() {
                continue;
            }
            self.put_if(names_bound(records, taker, source), &line, years)?;
        }
        Ok(())
    }

    // Adds the totals that add a line's equivalents of some years.
    fn put_tops<R: Records>(
        &mut self,
        records: &R,
        name: &Name,
        years: &YearSet,
    ) -> Result<(), AllocError>
        requires { AreNodesOf (R.content records.now) (series.Equivalent name.now) years.now }
        ensures { OnOk result (AreFound
            (IsTakerOf (R.content records.now) (series.Equivalent name.now) years.now) self.old self.new) }
    {
        let Some((category, _)) = records.line(name) else {
            return Ok(());
        };
        self.put_if(counts_in_gross(category), &Series::Gross, years)?;
        self.put_up(DEPTH, category, years)?;
        Ok(())
    }

    // Adds the totals of a category, and of those above it by so many levels.
    fn put_up(&mut self, levels: u8, category: Category, years: &YearSet) -> Result<(), AllocError>
        ensures { OnOk result
            (AreFound (Within years.now (IsTotalAbove levels category)) self.old self.new) }
    {
        self.put_if(is_in_tree(category), &Series::Total(category), years)?;
        let Some(above) = parent(category) else {
            return Ok(());
        };
        if levels == 0 {
            return Ok(());
        }
        self.put_up(levels - 1, above, years)?;
        Ok(())
    }
}
