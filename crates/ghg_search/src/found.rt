//! Nodes that are found one after the other.

ghost use Rattle.std.specs.Prelude.{◌≡◌, ◌&&◌, ◌<◌, ℕ, [], true, not, slice_get, IfOk, OnOk};
ghost use Rattle.std.specs.BTreeMap.{keys};
ghost use Rattle.std.specs.List.{Contains};
ghost use Rattle.std.specs.List.Sorted.{IsStrictlySortedBy};
ghost use Rattle.ghg_units.specs.declared.node.Node.{Node};
ghost use Rattle.ghg_data.specs.YearSet.{has_year};
ghost use Rattle.ghg_definitions.specs.Nodes.{node_cmp, year_in};
ghost use Rattle.ghg_search.specs.Found.{AreFound, AreQueued, IsIn, is_found};
ghost use Rattle.ghg_search.specs.Listing.{AreListed, AreOfSeries};
ghost use Rattle.ghg_search.specs.Series.{IsOf};
ghost use Rattle.ghg_columns.specs.Cells.{series_order};

use ghg_columns::Series;
use ghg_data::YearSet;
use ghg_units::Node;
use std::alloc::{AllocError, Global};
use std::collections::BTreeMap;

/// The nodes of a series in some years.
#[derive(Clone, Copy)]
pub(crate) struct Group {
    pub(crate) series: Series,
    pub(crate) years: YearSet,
}

/// Nodes, also in the order in which they were found.
#[derive(Drop)]
pub(crate) struct Found {
    years: BTreeMap<Series, YearSet>,
    queue: Vec<Group>,
}

impl Found {
    /// No nodes. It takes no memory.
    pub(crate) fn new(alloc: Global) -> Found
        ensures queued { AreQueued result }
        ensures none { result.queue.items ≡ [] }
    {
        Found {
            years: BTreeMap::new(alloc),
            queue: Vec::new(alloc),
        }
    }

    /// The group that was found so many groups after the first.
    pub(crate) fn at(&self, index: usize) -> Option<Group>
        ensures { result ≡ slice_get self.now.queue.items index }
    {
        self.queue.get(index).copied()
    }

    /// Those of some years in which a series has no node that is found.
    pub(crate) fn missing(&self, series: &Series, years: &YearSet) -> YearSet
        ensures { (year : ℕ) → has_year result year ≡
            has_year years.now year && not (is_found self.now series.now year) }
    {
        years.changed(&YearSet::empty(), &self.years_of(series))
    }

    /// Adds the nodes of a series in some years, if they are not found yet.
    pub(crate) fn put(&mut self, series: &Series, years: &YearSet) -> Result<(), AllocError>
        ensures { OnOk result (AreFound (IsOf series.now years.now) self.old self.new) }
    {
        let fresh = self.missing(series, years);
        if fresh.is_empty() {
            return Ok(());
        }
        let all = self.years_of(series).changed(&fresh, &YearSet::empty());
        self.years.insert(*series, all)?;
        self.queue.push(Group {
            series: *series,
            years: fresh,
        })?;
        Ok(())
    }

    /// Adds the nodes of a series in some years, where the condition holds.
    pub(crate) fn put_if(
        &mut self,
        condition: bool,
        series: &Series,
        years: &YearSet,
    ) -> Result<(), AllocError>
        ensures { OnOk result
            (AreFound (λ n. (condition ≡ true) × IsOf series.now years.now n) self.old self.new) }
    {
        if condition {
            self.put(series, years)?;
        }
        Ok(())
    }

    /// The nodes in their order. Those of a year 0 may be left out.
    pub(crate) fn nodes(&self, alloc: Global) -> Result<Vec<Node>, AllocError>
        ensures order { IfOk result (λ nodes. IsStrictlySortedBy node_cmp nodes.items) }
        ensures only { IfOk result (λ nodes. (n : Node) → Contains nodes.items n → IsIn self.now n) }
        ensures all { IfOk result (λ nodes. (n : Node) → 0 < year_in n → IsIn self.now n →
            Contains nodes.items n) }
    {
        let all = self.series(alloc)?;
        let nodes = self.nodes_of(alloc, &all)?;
        Ok(nodes)
    }

    // The series that have nodes, in order.
    fn series(&self, alloc: Global) -> Result<Vec<Series>, AllocError>
        ensures series { IfOk result (λ all. all.items ≡ keys self.now.years) }
        ensures order { IfOk result (λ all. IsStrictlySortedBy series_order all.items) }
    {
        self.years.keys().copied().collect(alloc)
    }

    // The nodes of these series.
    fn nodes_of(&self, alloc: Global, all: &[Series]) -> Result<Vec<Node>, AllocError>
        requires { IsStrictlySortedBy series_order all.now }
        ensures { IfOk result (λ nodes. AreOfSeries self.now all.now nodes.items) }
    {
        let mut nodes = Vec::new(alloc);
        for series in all {
            put_nodes(&mut nodes, series, &self.years_of(series))?;
        }
        Ok(nodes)
    }

    // The years in which a series has a node that is found.
    fn years_of(&self, series: &Series) -> YearSet
        ensures { (year : ℕ) → has_year result year ≡ is_found self.now series.now year }
    {
        match self.years.get(series) {
            Some(years) => *years,
            None => YearSet::empty(),
        }
    }
}

// Puts the nodes of a series in some years behind others. Those of a year 0 may be left out.
fn put_nodes(nodes: &mut Vec<Node>, series: &Series, years: &YearSet) -> Result<(), AllocError>
    ensures { OnOk result (AreListed series.now years.now nodes.old.items nodes.new.items) }
{
    let mut last = 0;
    while let Some(year) = years.first_after(last) {
        nodes.push(series.node(year))?;
        last = year;
    }
    Ok(())
}
