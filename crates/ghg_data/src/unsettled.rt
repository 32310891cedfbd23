//! Whether edits may leave a binding unsound that none of them is about.

ghost use Rattle.std.specs.Prelude.{◌≡◌, ◌↔◌, false};
ghost use Rattle.std.specs.List.{list_any};
ghost use Rattle.ghg_definitions.specs.Sound.{IsConsistent, IsWorkbook};
ghost use Rattle.ghg_data.specs.Changes.{applied};
ghost use Rattle.ghg_data.specs.Settling.{IsSettled, loses_dimension, loses_equation};

use crate::draft::Draft;
use crate::edits::Edits;
use crate::holdings::Holdings;
use crate::measures::{is_of, some_figure};
use crate::series::Series;
use ghg_definitions::RecordKey;
use std::alloc::Global;

// The activity or factor has figures before, and after has none or others than of their dimension.
fn loses_dimension(before: &Draft<'_>, after: &Draft<'_>, series: &Series) -> bool
    ensures { result ≡ loses_dimension before.now after.now series.now }
{
    match some_figure(before, series) {
        Some(figure) => !is_of(after, ghg_units::dim(figure.unit), series),
        None => false,
    }
}

fn lose_dimension(before: &Draft<'_>, after: &Draft<'_>, names: &[Series]) -> bool
    ensures { result ≡ list_any (loses_dimension before.now after.now) names.now }
{
    names
        .iter()
        .any(|series| loses_dimension(before, after, series))
}

// The key is that of a line which has an equation before, and after has another one or none.
fn loses_equation(holdings: &Holdings, after: &Draft<'_>, key: &RecordKey) -> bool
    ensures { result ≡ loses_equation holdings.now.content after.now key.now }
{
    let RecordKey::Line(name) = key else {
        return false;
    };
    let Some(before) = holdings.line(name) else {
        return false;
    };
    match after.line(name) {
        Some(equation) => before != equation,
        None => true,
    }
}

fn lose_equation(holdings: &Holdings, after: &Draft<'_>, keys: &[RecordKey]) -> bool
    ensures { result ≡ list_any (loses_equation holdings.now.content after.now) keys.now }
{
    keys.iter().any(|key| loses_equation(holdings, after, key))
}

/// A name loses its figures or their dimension, or a line its equation.
pub(crate) fn unsettles(
    alloc: Global,
    holdings: &Holdings,
    after: &Draft<'_>,
    edits: &Edits,
) -> bool
    requires workbook { IsWorkbook holdings.now.content }
    requires consistent { IsConsistent after.now }
    requires after { after.now ≡ applied holdings.now.content edits.now }
    ensures { (result ≡ false) ↔ IsSettled holdings.now.content after.now }
{
    let none = Edits::new(alloc, holdings.hasher());
    let before = Draft::of(holdings, &none);
    if lose_dimension(&before, after, edits.series_put()) {
        return true;
    }
    if lose_dimension(&before, after, edits.series_taken()) {
        return true;
    }
    lose_equation(holdings, after, edits.keys())
}
