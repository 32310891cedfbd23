//! Ranks by row and year.

ghost use Rattle.std.specs.Prelude.{◌≡◌, ◌<◌, ℕ, length, IfOk, OnOk};
ghost use Rattle.ghg_layers.specs.Grids.{IsSet, IsSetIn, cell, height};

use std::alloc::{AllocError, Global};

/// Ranks by row and year, as years behind the first; 0 where none was set.
#[derive(Drop)]
pub(crate) struct Grid {
    rows: Vec<Vec<usize>>,
}

impl Grid {
    /// So many rows without ranks.
    pub(crate) fn new(alloc: Global, count: usize) -> Result<Grid, AllocError>
        ensures height { IfOk result (λ grid. height grid ≡ count) }
        ensures none { IfOk result (λ grid. (row year : ℕ) → cell grid row year ≡ 0) }
    {
        let mut rows = Vec::with_capacity(alloc, count)?;
        for _ in 0..count {
            rows.push(Vec::new(alloc))?;
        }
        Ok(Grid { rows })
    }

    /// The rank in a row and year.
    pub(crate) fn get(&self, row: usize, year: usize) -> usize
        requires { row < height self.now }
        ensures { result ≡ cell self.now row year }
    {
        match self.rows[row].get(year) {
            Some(rank) => *rank,
            None => 0,
        }
    }

    /// Sets the rank in a row and year.
    pub(crate) fn set(&mut self, row: usize, year: usize, rank: usize) -> Result<(), AllocError>
        requires { row < height self.old }
        ensures height { height self.new ≡ height self.old }
        ensures set { OnOk result (IsSet row year rank self.old self.new) }
    {
        set_at(&mut self.rows[row], year, rank)
    }
}

fn set_at(ranks: &mut Vec<usize>, year: usize, rank: usize) -> Result<(), AllocError>
    ensures { OnOk result (IsSetIn year rank ranks.old.items ranks.new.items) }
{
    while ranks.len() <= year {
        ranks.push(0)?;
    }
    ranks[year] = rank;
    Ok(())
}
