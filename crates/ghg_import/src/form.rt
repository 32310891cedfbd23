//! What a row says, where none of its columns is wrong.

ghost use Rattle.std.specs.Prelude.{◌≡◌, IfOk};
ghost use Rattle.csv.specs.Records.{fields_of};
ghost use Rattle.ghg_units.specs.declared.rule.Column.TheVariants as columns;
ghost use Rattle.ghg_units.specs.Units.{unit_in};
ghost use Rattle.ghg_import.specs.declared.kind.Kind.TheVariants as kinds;
ghost use Rattle.ghg_import.specs.Content.{amount_in, bound_in, content_of, figure_in, form_in, known_in, line_in, span_in, uncertainties_in, unless_withdrawn};
ghost use Rattle.ghg_import.specs.Fault.{Gives};
ghost use Rattle.ghg_import.specs.Forms.{binding_in, target_in};
ghost use Rattle.ghg_import.specs.Reading.{content_in};
ghost use Rattle.ghg_import.specs.Shape.{text_of};
ghost use Rattle.ghg_import.specs.Table.{chosen_in, is_in_years, manner_of};

use crate::columns::text;
use crate::fault::{Fault, ReadError};
use crate::kind::{BindingForm, Chosen, Kind, Manner, binding_form_named, kind_named};
use crate::sum::names_named;
use crate::table::{leaf_named, quantity, says_no_more, wrong_column};
use csv::ByteRecord;
use ghg_categories::Category;
use ghg_equations::{Dim, EqId, eq_named};
use ghg_units::{
    Act, Amount, Binding, Column, Decimal, Figure, Name, ParamName, RowForm, Span, Unit, act_named,
    dim, key_named, read_half_life, read_uncertainty, read_year, unit_named,
};
use std::alloc::{AllocError, Global};

/// What a row of a body of a format says, or the first rule that it breaks.
#[tactic(auto, unfolding(crate::specs::Reading::content_in))]
pub(crate) fn content(
    alloc: Global,
    format: u32,
    row: &ByteRecord,
) -> Result<(Act, RowForm), ReadError>
    ensures { Gives result (content_in format (fields_of row.now)) }
{
    let act = act_named(text(row, Column::Act)).ok_or(Fault::Word(Column::Act))?;
    let kind = kind_named(text(row, Column::Kind)).ok_or(Fault::Word(Column::Kind))?;
    let form = form(alloc, format, kind, act, row)?;
    Ok((act, form))
}

// A wrong column, else disorder, else the content. Where the row has a content, no text in a column that
// should be empty, and no bound alone, no column is wrong, and they are not gone through one by one.
#[tactic(auto, unfolding(crate::specs::Content::form_of))]
fn form(
    alloc: Global,
    format: u32,
    kind: Kind,
    act: Act,
    row: &ByteRecord,
) -> Result<RowForm, ReadError>
    ensures { Gives result (form_in format kind act (fields_of row.now)) }
{
    let binding = binding_named(alloc, row)?;
    let unit = unit_of(row);
    let chosen = Chosen {
        format,
        manner: manner_of(kind, act, unit, row),
        unit,
        binds: binding.is_some(),
    };
    match content_of(kind, chosen, row, binding) {
        Some(form) if says_no_more(kind, chosen.manner, row) => Ok(form),
        form => match wrong_column(kind, chosen, row) {
            Some(fault) => Err(ReadError::Fault(fault)),
            None => form.ok_or(ReadError::Fault(Fault::Disorder)),
        },
    }
}

// The unit that a row names.
fn unit_of(row: &ByteRecord) -> Option<Unit>
    ensures { result ≡ unit_in (text_of (fields_of row.now) columns.Unit) }
{
    unit_named(text(row, Column::Unit))
}

// How a row is filled.
fn manner_of(kind: Kind, act: Act, unit: Option<Unit>, row: &ByteRecord) -> Manner
    requires { unit ≡ unit_in (text_of (fields_of row.now) columns.Unit) }
    ensures { result ≡ manner_of kind act (fields_of row.now) }
{
    if act == Act::Withdraw {
        Manner::Withdraws
    } else if is_in_years(kind, unit) {
        Manner::InYears
    } else if key_named(text(row, Column::Value)).is_some() {
        Manner::Keyed
    } else {
        Manner::Valued
    }
}

// Whether a row of this kind and unit holds a half-life.
fn is_in_years(kind: Kind, unit: Option<Unit>) -> bool
    ensures { result ≡ is_in_years kind unit }
{
    match (kind, unit) {
        (Kind::Factor, Some(unit)) => dim(unit) == Dim::HalfLife,
        _ => false,
    }
}

// What the columns of a row say, or nothing where its numbers are not in their order.
fn content_of(
    kind: Kind,
    chosen: Chosen,
    row: &ByteRecord,
    binding: Option<Binding>,
) -> Option<RowForm>
    requires { binding ≡ binding_in (fields_of row.now) }
    ensures { result ≡ content_of kind chosen (fields_of row.now) }
{
    match kind {
        Kind::Span => span(chosen, row),
        Kind::Activity => activity(chosen, row),
        Kind::Factor => factor(chosen, row),
        Kind::Line => line(chosen, row),
        Kind::Bind => bind(chosen, row, binding),
        Kind::Uncert => uncert(chosen, row),
    }
}

#[tactic(auto, unfolding(crate::specs::Content::content_of, crate::specs::Content::span_in))]
fn span(chosen: Chosen, row: &ByteRecord) -> Option<RowForm>
    ensures { result ≡ content_of kinds.Span chosen (fields_of row.now) }
{
    if chosen.manner == Manner::Withdraws {
        return Some(RowForm::Span(None));
    }
    let first = read_year(text(row, Column::Year))?;
    let last = read_year(text(row, Column::Value))?;
    let base = read_year(text(row, Column::Low))?;
    if first > base || base > last {
        return None;
    }
    Some(RowForm::Span(Some(Span { first, base, last })))
}

#[tactic(auto, unfolding(crate::specs::Content::content_of))]
fn activity(chosen: Chosen, row: &ByteRecord) -> Option<RowForm>
    ensures { result ≡ content_of kinds.Activity chosen (fields_of row.now) }
{
    let name = Name::plain(text(row, Column::Name))?;
    let year = read_year(text(row, Column::Year))?;
    let figure = figure_unless_withdrawn(chosen, row)?;
    Some(RowForm::Activity(name, year, figure))
}

#[tactic(auto, unfolding(crate::specs::Content::content_of))]
fn factor(chosen: Chosen, row: &ByteRecord) -> Option<RowForm>
    ensures { result ≡ content_of kinds.Factor chosen (fields_of row.now) }
{
    let name = Name::of_factor(text(row, Column::Name))?;
    let year = read_year(text(row, Column::Year))?;
    let figure = figure_unless_withdrawn(chosen, row)?;
    Some(RowForm::Factor(name, year, figure))
}

fn figure_unless_withdrawn(chosen: Chosen, row: &ByteRecord) -> Option<Option<Figure>>
    ensures { result ≡ unless_withdrawn chosen.manner (figure_in chosen (fields_of row.now)) }
{
    match chosen.manner {
        Manner::Withdraws => Some(None),
        _ => Some(Some(figure(chosen, row)?)),
    }
}

#[tactic(auto, unfolding(crate::specs::Content::figure_in))]
fn figure(chosen: Chosen, row: &ByteRecord) -> Option<Figure>
    ensures { result ≡ figure_in chosen (fields_of row.now) }
{
    let unit = chosen.unit?;
    let amount = amount(chosen, unit, row)?;
    Some(Figure { unit, amount })
}

// A half-life, a notation key, or a value.
fn amount(chosen: Chosen, unit: Unit, row: &ByteRecord) -> Option<Amount>
    ensures { result ≡ amount_in chosen.format chosen.manner unit (fields_of row.now) }
{
    match chosen.manner {
        Manner::InYears => {
            let tenths = read_half_life(chosen.format, text(row, Column::Value))?;
            Some(Amount::HalfLife(tenths))
        }
        Manner::Keyed => Some(Amount::Key(key_named(text(row, Column::Value))?)),
        _ => known(unit, row),
    }
}

// A value between its bounds.
#[tactic(auto, unfolding(crate::specs::Content::known_in))]
fn known(unit: Unit, row: &ByteRecord) -> Option<Amount>
    ensures { result ≡ known_in unit (fields_of row.now) }
{
    let value = quantity(text(row, Column::Value), unit)?;
    let low = bound(unit, value, text(row, Column::Low))?;
    let high = bound(unit, value, text(row, Column::High))?;
    if low > value || value > high {
        return None;
    }
    Some(Amount::Known { value, low, high })
}

// A bound, which is the value where none is supplied.
#[tactic(auto, unfolding(crate::specs::Content::bound_in))]
fn bound(unit: Unit, value: Decimal, text: &[u8]) -> Option<Decimal>
    ensures { result ≡ bound_in unit value text.now }
{
    if text.is_empty() {
        Some(value)
    } else {
        quantity(text, unit)
    }
}

#[tactic(auto, unfolding(crate::specs::Content::content_of))]
fn line(chosen: Chosen, row: &ByteRecord) -> Option<RowForm>
    ensures { result ≡ content_of kinds.Line chosen (fields_of row.now) }
{
    let name = Name::plain(text(row, Column::Name))?;
    match chosen.manner {
        Manner::Withdraws => Some(RowForm::Line(name, None)),
        _ => Some(RowForm::Line(name, Some(place_of(row)?))),
    }
}

// The category and the equation of a line.
#[tactic(auto, unfolding(crate::specs::Content::line_in))]
fn place_of(row: &ByteRecord) -> Option<(Category, EqId)>
    ensures { result ≡ line_in (fields_of row.now) }
{
    let category = leaf_named(text(row, Column::Subject))?;
    let equation = eq_named(text(row, Column::Value))?;
    Some((category, equation))
}

#[tactic(auto, unfolding(crate::specs::Content::content_of))]
fn bind(chosen: Chosen, row: &ByteRecord, binding: Option<Binding>) -> Option<RowForm>
    requires { binding ≡ binding_in (fields_of row.now) }
    ensures { result ≡ content_of kinds.Bind chosen (fields_of row.now) }
{
    let line = Name::plain(text(row, Column::Subject))?;
    let parameter = ParamName::new(text(row, Column::Name))?;
    match chosen.manner {
        Manner::Withdraws => Some(RowForm::Bind(line, parameter, None)),
        _ => Some(RowForm::Bind(line, parameter, Some(binding?))),
    }
}

#[tactic(auto, unfolding(crate::specs::Content::content_of))]
fn uncert(chosen: Chosen, row: &ByteRecord) -> Option<RowForm>
    ensures { result ≡ content_of kinds.Uncert chosen (fields_of row.now) }
{
    let line = Name::plain(text(row, Column::Name))?;
    match chosen.manner {
        Manner::Withdraws => Some(RowForm::Uncert(line, None)),
        _ => Some(RowForm::Uncert(line, Some(uncertainties(row)?))),
    }
}

// The uncertainties of activity data and of an emission factor.
#[tactic(auto, unfolding(crate::specs::Content::uncertainties_in))]
fn uncertainties(row: &ByteRecord) -> Option<(u32, u32)>
    ensures { result ≡ uncertainties_in (fields_of row.now) }
{
    let activity = read_uncertainty(text(row, Column::Value))?;
    let factor = read_uncertainty(text(row, Column::Low))?;
    Some((activity, factor))
}

// What a row names as the target of the form that it names.
#[tactic(auto, unfolding(crate::specs::Forms::binding_in))]
fn binding_named(alloc: Global, row: &ByteRecord) -> Result<Option<Binding>, AllocError>
    ensures { IfOk result (λ binding. binding ≡ binding_in (fields_of row.now)) }
{
    match binding_form_named(text(row, Column::Value)) {
        Some(form) => target(alloc, form, text(row, Column::Low)),
        None => Ok(None),
    }
}

// What a text names as the target of a binding.
#[tactic(auto, unfolding(crate::specs::Forms::target_in))]
fn target(alloc: Global, form: BindingForm, text: &[u8]) -> Result<Option<Binding>, AllocError>
    ensures { IfOk result (λ binding. binding ≡ target_in form text.now) }
{
    match form {
        BindingForm::Activity => Ok(Name::plain(text).map(|name| Binding::Activity(name))),
        BindingForm::Factor => Ok(Name::plain(text).map(|name| Binding::Factor(name))),
        BindingForm::Line => Ok(Name::plain(text).map(|name| Binding::Line(name))),
        BindingForm::Prev => Ok(Name::plain(text).map(|name| Binding::Prev(name))),
        BindingForm::Sum => Ok(names_named(alloc, text)?.map(|names| Binding::Sum(names))),
        BindingForm::Decay => Ok(Name::plain(text).map(|name| Binding::Decay(name))),
        BindingForm::Key => Ok(key_named(text).map(|key| Binding::Key(key))),
    }
}
