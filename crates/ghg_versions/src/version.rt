//! Versions, with the values of all years as they were when the version was frozen.

ghost use Rattle.std.specs.Prelude.{◌≡◌, ◌≤◌, IfOk, find, option_copied, option_map, true, unsigned_abs};
ghost use Rattle.std.specs.Str.{bytes_eq};
ghost use Rattle.ghg_definitions.specs.Compilation.{compilation, is_year_of};
ghost use Rattle.ghg_definitions.specs.Data.{span};
ghost use Rattle.ghg_keycat.specs.Sizes.{gross_limit};
ghost use Rattle.ghg_tables.specs.Gathering.{IsGrouping};
ghost use Rattle.ghg_tables.specs.Values.{values};
ghost use Rattle.ghg_versions.specs.Versions.{IsReportOf, column_at};

use ghg_categories::Category;
use ghg_data::Records;
use ghg_equations::Gas;
use ghg_graph::Cells;
use ghg_tables::{Groups, PairValue, grouped_values};
use ghg_units::Name;
use std::alloc::{AllocError, Global};
use std::marker::Model;
use std::mem::size_of;

/// A kept value takes 16 bytes: 100 versions of 275 values over 151 years take 66,440,000.
const _: () = prove!(size_of::<KeptValue>() == 16);

/// A value of a pair.
#[derive(Drop)]
pub(crate) struct KeptValue {
    tonnes: i64,
    category: Category,
    gas: Gas,
}

impl Model for KeptValue {
    ghost use Rattle.std.specs.Prelude.{◌≤◌, unsigned_abs};
    ghost use Rattle.ghg_keycat.specs.Sizes.{gross_limit};
    ghost use Rattle.ghg_tables.specs.declared.values.PairValue.{PairValue};

    ghost Value = { PairValue };

    ghost view = { λ k. record { category = k.category; gas = k.gas; tonnes = k.tonnes } };

    ghost invariant = { λ k. unsigned_abs k.tonnes ≤ gross_limit };
}

impl KeptValue {
    fn new(value: PairValue) -> KeptValue
        requires { unsigned_abs value.tonnes ≤ gross_limit }
        ensures { result ≡ value }
    {
        KeptValue {
            tonnes: value.tonnes as i64,
            category: value.category,
            gas: value.gas,
        }
    }

    /// The value.
    pub(crate) fn value(&self) -> PairValue
        ensures same { result ≡ self.now }
        ensures small { unsigned_abs result.tonnes ≤ gross_limit }
    {
        PairValue {
            category: self.category,
            gas: self.gas,
            tonnes: i128::from(self.tonnes),
        }
    }
}

/// The values of each year from a first one.
#[derive(Drop)]
pub(crate) struct Report {
    first: u32,
    years: Vec<Vec<KeptValue>>,
}

impl Report {
    /// The values of all years of the span.
    pub(crate) fn of<C: Cells>(alloc: Global, cells: &C) -> Result<Report, AllocError>
        ensures { IfOk result (IsReportOf (C.content cells.now)) }
    {
        let mut years = Vec::new(alloc);
        let Some(span) = cells.book().span() else {
            return Ok(Report { first: 0, years });
        };
        let groups = Groups::of(alloc, cells)?;
        for year in span.first..=span.last {
            years.push(kept_values(alloc, &groups, year, cells)?)?;
        }
        Ok(Report {
            first: span.first,
            years,
        })
    }

    /// The values of a year; `None` exactly where it was outside the span.
    pub(crate) fn at(&self, year: u32) -> Option<&[KeptValue]>
        ensures { option_map (λ kept. kept.now) result ≡ column_at self.now year }
    {
        if year < self.first {
            return None;
        }
        match self.years.get((year - self.first) as usize) {
            Some(kept) => Some(kept.as_slice()),
            None => None,
        }
    }
}

// The values of a year, in little memory.
fn kept_values<C: Cells>(
    alloc: Global,
    groups: &Groups,
    year: u32,
    cells: &C,
) -> Result<Vec<KeptValue>, AllocError>
    requires grouped { IsGrouping (C.content cells.now) groups.now }
    requires year { is_year_of (span (C.content cells.now)) year ≡ true }
    ensures { IfOk result (λ kept.
        kept.items ≡ values (C.content cells.now) (compilation (C.content cells.now)) year) }
{
    let rows = grouped_values(alloc, groups, year, cells)?;
    let mut kept = Vec::with_capacity(alloc, rows.len())?;
    for row in &rows {
        kept.push(KeptValue::new(*row))?;
    }
    Ok(kept)
}

/// What was frozen under a name: after how many accepted submissions, and the values then.
#[derive(Drop)]
pub(crate) struct KeptVersion {
    pub(crate) name: Name,
    pub(crate) seq: u64,
    pub(crate) report: Report,
}

/// The version of a name.
pub(crate) fn version_named<'a>(versions: &'a [KeptVersion], name: &[u8]) -> Option<&'a KeptVersion>
    ensures { option_copied result ≡ find (λ v. bytes_eq v.name name.now) versions.now }
{
    versions
        .iter()
        .find(|version| version.name.as_bytes() == name)
}
