//! Rows: the record that a row changes, and the rules on units and presence.

ghost use Rattle.std.specs.Prelude.{◌≡◌, false, not, IfOk};
ghost use Rattle.std.specs.Option.{option_map_or};
ghost use Rattle.ghg_equations.specs.Quantity.{same_dim};
ghost use Rattle.ghg_units.specs.Units.{dim_of};
ghost use Rattle.ghg_definitions.specs.Data.{as_figure};
ghost use Rattle.ghg_definitions.specs.Rows.{key_of, record_of};
ghost use Rattle.ghg_definitions.specs.Rules.{breaks_activity, breaks_potential, breaks_unit, meets_other_dimension, presence_fault, row_fault};

use crate::draft::Draft;
use ghg_definitions::{Record, RecordKey};
use ghg_equations::Dim;
use ghg_units::{Act, Binding, Names, Row, RowForm, Rule, Unit, is_potential_name};
use std::alloc::{AllocError, Global};

/// The key of the record that a row is about.
pub(crate) fn key_of(form: &RowForm) -> RecordKey
    ensures { result ≡ key_of form.now }
{
    match form {
        RowForm::Span(_) => RecordKey::Span,
        RowForm::Activity(name, year, _) => RecordKey::Activity(*name, *year),
        RowForm::Factor(name, start, _) => RecordKey::Factor(*name, *start),
        RowForm::Line(name, _) => RecordKey::Line(*name),
        RowForm::Bind(line, parameter, _) => RecordKey::Bind(*line, *parameter),
        RowForm::Uncert(line, _) => RecordKey::Uncert(*line),
    }
}

/// The record that a row puts there, or none where it withdraws.
pub(crate) fn record_of(alloc: Global, form: &RowForm) -> Result<Option<Record>, AllocError>
    ensures { IfOk result (λ entry. entry ≡ record_of form.now) }
{
    match form {
        RowForm::Span(Some(span)) => Ok(Some(Record::Span(*span))),
        RowForm::Activity(_, _, Some(figure)) => Ok(Some(Record::Activity(*figure))),
        RowForm::Factor(_, _, Some(figure)) => Ok(Some(Record::Factor(*figure))),
        RowForm::Line(_, Some((category, equation))) => Ok(Some(Record::Line(
            *category, *equation,
        ))),
        RowForm::Bind(_, _, Some(binding)) => Ok(Some(Record::Bind(copied(alloc, binding)?))),
        RowForm::Uncert(_, Some((activity, factor))) => {
            Ok(Some(Record::Uncert(*activity, *factor)))
        }
        _ => Ok(None),
    }
}

fn copied(alloc: Global, binding: &Binding) -> Result<Binding, AllocError>
    ensures { IfOk result (λ copy. copy ≡ binding.now) }
{
    match binding {
        Binding::Activity(name) => Ok(Binding::Activity(*name)),
        Binding::Factor(name) => Ok(Binding::Factor(*name)),
        Binding::Line(name) => Ok(Binding::Line(*name)),
        Binding::Prev(name) => Ok(Binding::Prev(*name)),
        Binding::Sum(names) => Ok(Binding::Sum(copied_names(alloc, names)?)),
        Binding::Decay(name) => Ok(Binding::Decay(*name)),
        Binding::Key(key) => Ok(Binding::Key(*key)),
    }
}

fn copied_names(alloc: Global, names: &Names) -> Result<Names, AllocError>
    ensures { IfOk result (λ copy. copy ≡ names.now) }
{
    Ok(Names::new(Vec::from_slice(alloc, names.as_slice())?))
}

/// The first rule that a row breaks over the records as they stand.
#[tactic(auto, unfolding(ghg_definitions::specs::Rules::row_fault))]
pub(crate) fn row_fault(draft: &Draft<'_>, row: &Row) -> Option<Rule>
    ensures { result ≡ row_fault draft.now row.now }
{
    if breaks_unit(draft, &row.form) {
        return Some(Rule::WrongUnit(row.number));
    }
    presence_fault(row.number, row.act, draft.has(&key_of(&row.form)))
}

// A global warming potential is a ratio.
fn breaks_potential(form: &RowForm) -> bool
    ensures { result ≡ breaks_potential form.now }
{
    match form {
        RowForm::Factor(name, _, Some(figure)) => {
            is_potential_name(name.as_bytes()) && Dim::Ratio != ghg_units::dim(figure.unit)
        }
        _ => false,
    }
}

// An activity is no half-life.
fn breaks_activity(form: &RowForm) -> bool
    ensures { result ≡ breaks_activity form.now }
{
    match form {
        RowForm::Activity(_, _, Some(figure)) => ghg_units::dim(figure.unit) == Dim::HalfLife,
        _ => false,
    }
}

fn breaks_unit(draft: &Draft<'_>, form: &RowForm) -> bool
    ensures { result ≡ breaks_unit draft.now form.now }
{
    breaks_potential(form) || breaks_activity(form) || meets_other_figure(draft, form)
}

// Whether the row's figure meets a record of another dimension.
fn meets_other_figure(draft: &Draft<'_>, form: &RowForm) -> bool
    ensures { result ≡ option_map_or (λ f. meets_other_dimension draft.now (key_of form.now) (dim_of f.unit))
        (as_figure (record_of form.now)) false }
{
    match form {
        RowForm::Activity(_, _, Some(figure)) | RowForm::Factor(_, _, Some(figure)) => {
            meets_other_dimension(draft, &key_of(form), figure.unit)
        }
        _ => false,
    }
}

// Whether a record of the same kind and name for another year has a unit of another dimension.
fn meets_other_dimension(draft: &Draft<'_>, key: &RecordKey, unit: Unit) -> bool
    ensures { result ≡ meets_other_dimension draft.now key.now (dim_of unit) }
{
    match draft.other_year(key) {
        Some(other) => differ(unit, other.unit),
        None => false,
    }
}

// Whether units are of two dimensions. Two that are the same are not looked up in their table.
fn differ(unit: Unit, other: Unit) -> bool
    ensures { result ≡ not (same_dim (dim_of unit) (dim_of other)) }
{
    unit != other && ghg_units::dim(unit) != ghg_units::dim(other)
}

// A record is entered where there is none, and corrected or withdrawn where there is one.
fn presence_fault(number: u32, act: Act, present: bool) -> Option<Rule>
    ensures { result ≡ presence_fault number act present }
{
    match (act, present) {
        (Act::Enter, true) => Some(Rule::Exists(number)),
        (Act::Correct | Act::Withdraw, false) => Some(Rule::Absent(number)),
        _ => None,
    }
}
