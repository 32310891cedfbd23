//! Bindings: each parameter of a line's equation is bound, to something of its dimension.

ghost use Rattle.std.specs.Prelude.{◌≡◌, true, false, find, fold, flat_map, map, option_copied};
ghost use Rattle.std.specs.List.{AllByRecursion, list_all};
ghost use Rattle.std.specs.Option.{option_map, option_map_or};
ghost use Rattle.std.specs.Ordering.{is_gt};
ghost use Rattle.std.specs.Str.{bytes_eq};
ghost use Rattle.ghg_equations.specs.Table.{parameters};
ghost use Rattle.ghg_units.specs.Parameter.{is_parameter};
ghost use Rattle.ghg_definitions.specs.Data.{first_name, line, line_names};
ghost use Rattle.ghg_definitions.specs.Rules.{gives_decay, gives_dimension, is_bound, is_line_of, is_uncertainty, place_cmp, places_in, unsound_place};
ghost use Rattle.ghg_definitions.specs.Sound.{IsConsistent, IsWorkbook};
ghost use Rattle.ghg_data.specs.Changes.{applied};
ghost use Rattle.ghg_data.specs.Faults.{considered, dim_of_place, is_fault, key_places, line_places, uncertainty_place};
ghost use Rattle.ghg_data.specs.Settling.{HasLooked};

use crate::draft::Draft;
use crate::edits::Edits;
use crate::holdings::Holdings;
use crate::measures::{is_line_of, is_of};
use crate::parameters::{name_of, params_of};
use crate::series::Series;
use crate::unsettled::unsettles;
use ghg_definitions::{Place, RecordKey};
use ghg_equations::{Dim, EqId, Param};
use ghg_units::{Binding, Name, ParamName};
use std::alloc::Global;
use std::cmp::Ordering;

fn are_lines_of(draft: &Draft<'_>, dim: Dim, names: &[Name]) -> bool
    ensures { result ≡ list_all (λ n. is_line_of draft.now dim n) names.now }
{
    names.iter().all(|name| is_line_of(draft, dim, name))
}

// What a parameter that is no decay factor may be bound to.
fn gives_dimension(draft: &Draft<'_>, dim: Dim, binding: &Binding) -> bool
    ensures { result ≡ gives_dimension draft.now dim binding.now }
{
    match binding {
        Binding::Activity(name) => is_of(draft, dim, &Series::Activity(*name)),
        Binding::Factor(name) => is_of(draft, dim, &Series::Factor(*name)),
        Binding::Line(name) | Binding::Prev(name) => is_line_of(draft, dim, name),
        Binding::Sum(names) => are_lines_of(draft, dim, names.as_slice()),
        Binding::Decay(_) => false,
        Binding::Key(_) => true,
    }
}

// A decay factor is that of a half-life.
fn gives_decay(draft: &Draft<'_>, binding: &Binding) -> bool
    ensures { result ≡ gives_decay draft.now binding.now }
{
    match binding {
        Binding::Decay(name) => is_of(draft, Dim::HalfLife, &Series::Factor(*name)),
        _ => false,
    }
}

fn is_bound(draft: &Draft<'_>, dim: Dim, binding: Option<&Binding>) -> bool
    ensures { result ≡ is_bound draft.now dim (option_copied binding.entry) }
{
    match binding {
        Some(binding) if dim == Dim::Decay => gives_decay(draft, binding),
        Some(binding) => gives_dimension(draft, dim, binding),
        None => false,
    }
}

// What the parameter of an equation measures.
fn dim_of_parameter(id: EqId, parameter: &ParamName) -> Option<Dim>
    ensures { result ≡ option_map (λ q. q.dim) (find (λ q. bytes_eq q.name parameter.now) (parameters id)) }
{
    dim_in(params_of(id), parameter)
}

fn dim_in(params: &[Param], parameter: &ParamName) -> Option<Dim>
    ensures { result ≡ option_map (λ q. q.dim) (find (λ q. bytes_eq q.name.now parameter.now) params.now) }
{
    params
        .iter()
        .find(|param| param.name.as_bytes() == parameter.as_bytes())
        .map(|param| param.dim)
}

// What the parameter of a place measures, where its line is present and takes it.
fn dim_of_place(draft: &Draft<'_>, place: &Place) -> Option<Dim>
    ensures { result ≡ dim_of_place draft.now place.now }
{
    dim_of_parameter(draft.line(&place.line)?, &place.parameter)
}

// The place is that of an uncertainty record.
fn is_uncertainty(place: &Place) -> bool
    ensures { result ≡ is_uncertainty place.now }
{
    place.parameter.as_bytes() == ParamName::uncertainty().as_bytes()
}

// The line takes the parameter, which is not bound to what it measures; or a binding names it, and no line
// takes it; or the line has an uncertainty record and is absent.
fn is_fault(draft: &Draft<'_>, place: &Place) -> bool
    ensures { result ≡ is_fault draft.now place.now }
{
    if is_uncertainty(place) {
        return draft.has_uncertainty(&place.line) && draft.line(&place.line).is_none();
    }
    let binding = draft.binding(&place.line, &place.parameter);
    match dim_of_place(draft, place) {
        Some(dim) => !is_bound(draft, dim, binding),
        None => binding.is_some(),
    }
}

// The least fault so far comes before the place.
fn comes_before(least: &Option<Place>, place: &Place) -> bool
    ensures { result ≡ option_map_or (λ other. is_gt (place_cmp place.now other)) least.now false }
{
    match least {
        Some(other) => place.cmp(other) == Ordering::Greater,
        None => false,
    }
}

// Keeps the least fault, once this place is looked at.
fn consider(draft: &Draft<'_>, least: &mut Option<Place>, place: &Place)
    ensures { least.new ≡ considered draft.now least.old place.now }
{
    if comes_before(least, place) {
        return;
    }
    if is_fault(draft, place) {
        *least = Some(*place);
    }
}

// Looks at each parameter of a line with this equation.
fn consider_parameters(draft: &Draft<'_>, least: &mut Option<Place>, line: &Name, id: EqId)
    ensures { least.new ≡ fold (considered draft.now) least.old
        (map (λ q. record { line = line.now; parameter = q.name }) (parameters id)) }
{
    consider_params(draft, least, line, params_of(id));
}

fn consider_params(draft: &Draft<'_>, least: &mut Option<Place>, line: &Name, params: &[Param])
    requires { AllByRecursion (λ q. is_parameter q.name.now ≡ true) params.now }
    ensures { least.new ≡ fold (considered draft.now) least.old
        (map (λ q. record { line = line.now; parameter = q.name.now }) params.now) }
{
    for param in params {
        consider(
            draft,
            least,
            &Place {
                line: *line,
                parameter: name_of(param),
            },
        );
    }
}

// Looks at the place of a line's uncertainty record.
fn consider_uncertainty(draft: &Draft<'_>, least: &mut Option<Place>, line: &Name)
    ensures { least.new ≡ considered draft.now least.old (uncertainty_place line.now) }
{
    consider(
        draft,
        least,
        &Place {
            line: *line,
            parameter: ParamName::uncertainty(),
        },
    );
}

// Looks at the places that a key is about. A line that is withdrawn may leave its uncertainty record behind.
fn consider_key(draft: &Draft<'_>, least: &mut Option<Place>, key: &RecordKey)
    ensures { least.new ≡ fold (considered draft.now) least.old (key_places draft.now key.now) }
{
    match key {
        RecordKey::Line(name) => match draft.line(name) {
            Some(id) => consider_parameters(draft, least, name, id),
            None => consider_uncertainty(draft, least, name),
        },
        RecordKey::Uncert(line) => consider_uncertainty(draft, least, line),
        RecordKey::Bind(line, parameter) => consider(
            draft,
            least,
            &Place {
                line: *line,
                parameter: *parameter,
            },
        ),
        _ => {}
    }
}

// Looks at each parameter that a line had before the edits.
fn consider_line(draft: &Draft<'_>, least: &mut Option<Place>, holdings: &Holdings, line: &Name)
    ensures { least.new ≡ fold (considered draft.now) least.old (line_places holdings.now.content line.now) }
{
    if let Some(id) = holdings.line(line) {
        consider_parameters(draft, least, line, id);
    }
}

// Looks at each parameter of the lines before the edits.
fn consider_lines(draft: &Draft<'_>, least: &mut Option<Place>, holdings: &Holdings)
    ensures { least.new ≡ fold (considered draft.now) least.old
        (flat_map (line_places holdings.now.content) (line_names holdings.now.content)) }
{
    for line in holdings.lines() {
        consider_line(draft, least, holdings, line);
    }
}

// Looks at what no edit is about and the edits may leave unsound: at each parameter of the lines, where a
// name loses its dimension or a line its equation.
fn consider_unsettled(
    alloc: Global,
    draft: &Draft<'_>,
    least: &mut Option<Place>,
    holdings: &Holdings,
    edits: &Edits,
)
    requires workbook { IsWorkbook holdings.now.content }
    requires consistent { IsConsistent draft.now }
    requires draft { draft.now ≡ applied holdings.now.content edits.now }
    ensures { HasLooked draft.now (map (λ c. c.0) edits.now) least.old least.new }
{
    if unsettles(alloc, holdings, draft, edits) {
        consider_lines(draft, least, holdings);
    }
}

// Looks at the places that changed keys are about.
fn consider_keys(draft: &Draft<'_>, least: &mut Option<Place>, keys: &[RecordKey])
    ensures { least.new ≡ fold (considered draft.now) least.old (flat_map (key_places draft.now) keys.now) }
{
    for key in keys {
        consider_key(draft, least, key);
    }
}

/// The least place that is unsound once the edits are made.
pub(crate) fn unsound_place(alloc: Global, holdings: &Holdings, edits: &Edits) -> Option<Place>
    requires workbook { IsWorkbook holdings.now.content }
    requires consistent { IsConsistent (applied holdings.now.content edits.now) }
    ensures { result ≡ unsound_place (applied holdings.now.content edits.now) }
{
    let draft = Draft::of(holdings, edits);
    let mut least = None;
    consider_unsettled(alloc, &draft, &mut least, holdings, edits);
    consider_keys(&draft, &mut least, edits.keys());
    least
}
