//! What the figures of an activity or a factor measure, and the output of a line.

ghost use Rattle.std.specs.Prelude.{◌≡◌, IfSome, IfNone, None, Some, true};
ghost use Rattle.ghg_definitions.specs.declared.record.RecordKey.{RecordKey};
ghost use Rattle.ghg_definitions.specs.Data.{figure};
ghost use Rattle.ghg_definitions.specs.Rules.{are_of, dim_of_output, is_line_of, is_other_year};
ghost use Rattle.ghg_definitions.specs.Sound.{IsConsistent};
ghost use Rattle.ghg_data.specs.Series.{dated};
ghost use Rattle.ghg_data.specs.Settling.{figures_of};

use crate::draft::Draft;
use crate::series::Series;
use ghg_equations::{Dim, Output, equation};
use ghg_units::{Figure, Name};

// In place of the year in a key that stands for all years.
const NO_YEAR: u32 = 0;

/// Some figure of an activity or a factor.
pub(crate) fn some_figure(draft: &Draft<'_>, series: &Series) -> Option<Figure>
    ensures found { IfSome result (λ f. (q : RecordKey) × (figure draft.now q ≡ Some f) ×
        (is_other_year (dated series.now 0) q ≡ true)) }
    ensures none { IfNone result ((q : RecordKey) → is_other_year (dated series.now 0) q ≡ true
        → figure draft.now q ≡ None) }
    ensures consistent { IsConsistent draft.now }
{
    draft.other_year(&series.dated(NO_YEAR))
}

/// The activity or factor has records, all of the dimension.
pub(crate) fn is_of(draft: &Draft<'_>, dim: Dim, series: &Series) -> bool
    ensures { result ≡ are_of dim (figures_of draft.now series.now) }
{
    match some_figure(draft, series) {
        Some(figure) => dim == ghg_units::dim(figure.unit),
        None => false,
    }
}

/// What an output measures.
pub(crate) fn dim_of_output(output: Output) -> Dim
    ensures { result ≡ dim_of_output output }
{
    match output {
        Output::Emission(_) => Dim::Gas,
        Output::Aux(dim) => dim,
    }
}

/// The line is present, and its output is of the dimension.
pub(crate) fn is_line_of(draft: &Draft<'_>, dim: Dim, name: &Name) -> bool
    ensures { result ≡ is_line_of draft.now dim name.now }
{
    match draft.line(name) {
        Some(id) => dim == dim_of_output(equation(id).output),
        None => false,
    }
}
