//! The forms of rows as a table: what each column may hold, kind by kind.

ghost use Rattle.std.specs.Prelude.{◌≡◌, find};
ghost use Rattle.csv.specs.Records.{fields_of};
ghost use Rattle.ghg_import.specs.Forms.{leaf_in, quantity_in};
ghost use Rattle.ghg_import.specs.Table.{columns_of, decided, holding_at, holdings_of, is_held, is_number, is_quantity, is_unfilled, is_wrong_number, is_wrong_word, says_no_more, says_no_more_in, wrong_among, wrong_column};

use crate::columns::text;
use crate::fault::Fault;
use crate::kind::{Chosen, Kind, Manner, binding_form_named};
use csv::ByteRecord;
use ghg_categories::{Category, is_leaf};
use ghg_equations::eq_named;
use ghg_units::{
    Column, Decimal, Name, ParamName, Unit, key_named, read_decimal, read_half_life,
    read_uncertainty, read_year, to_interval,
};

/// What a column may hold: nothing, a word, or a number.
#[derive(Clone, Copy, Debug, PartialEq, Eq, Drop)]
pub(crate) enum Holding {
    /// Nothing.
    Empty,
    /// The code of a category that has no children.
    LeafCategory,
    /// A name that is not that of a global warming potential.
    PlainName,
    /// A plain name, or that of a global warming potential.
    FactorName,
    /// A parameter's name.
    Parameter,
    /// The code of an equation.
    Equation,
    /// The form of a binding.
    Form,
    /// The target of the form that the value names.
    Target,
    /// A notation key.
    NotationKey,
    /// A unit.
    UnitWord,
    /// A year.
    Year,
    /// A number within the limit of intervals, in the row's unit.
    Figure,
    /// Such a number, or nothing where the other bound has nothing either.
    Bound,
    /// A half-life.
    HalfLife,
    /// Nothing, where other figures have a bound: a half-life has none.
    NoBound,
    /// A percentage of an uncertainty.
    Percentage,
}

/// What the columns from the subject to the unit may hold.
#[derive(Clone, Copy, Drop)]
pub(crate) struct Holdings {
    subject: Holding,
    name: Holding,
    year: Holding,
    value: Holding,
    low: Holding,
    high: Holding,
    unit: Holding,
}

fn columns_of(
    subject: Holding,
    name: Holding,
    year: Holding,
    value: Holding,
    low: Holding,
    high: Holding,
    unit: Holding,
) -> Holdings
    ensures { result ≡ columns_of subject name year value low high unit }
{
    Holdings {
        subject,
        name,
        year,
        value,
        low,
        high,
        unit,
    }
}

// The table: for each kind the columns of its key, which alone a row that withdraws fills, and the columns of
// another row.
fn holdings_of(kind: Kind, manner: Manner) -> Holdings
    ensures { result ≡ holdings_of kind manner }
{
    use Holding::*;
    match (kind, manner) {
        (Kind::Span, Manner::Withdraws) => columns_of(
            Empty, Empty, Empty, Empty, Empty, Empty, Empty,
        ),
        (Kind::Span, _) => columns_of(Empty, Empty, Year, Year, Year, Empty, Empty),
        (Kind::Activity, Manner::Withdraws) => {
            columns_of(Empty, PlainName, Year, Empty, Empty, Empty, Empty)
        }
        (Kind::Activity, Manner::Keyed) => {
            columns_of(Empty, PlainName, Year, NotationKey, Empty, Empty, UnitWord)
        }
        (Kind::Activity, _) => {
            columns_of(Empty, PlainName, Year, Figure, Bound, Bound, UnitWord)
        }
        (Kind::Factor, Manner::Withdraws) => {
            columns_of(Empty, FactorName, Year, Empty, Empty, Empty, Empty)
        }
        (Kind::Factor, Manner::InYears) => {
            columns_of(
                Empty, FactorName, Year, HalfLife, NoBound, NoBound, UnitWord,
            )
        }
        (Kind::Factor, Manner::Keyed) => {
            columns_of(Empty, FactorName, Year, NotationKey, Empty, Empty, UnitWord)
        }
        (Kind::Factor, Manner::Valued) => {
            columns_of(Empty, FactorName, Year, Figure, Bound, Bound, UnitWord)
        }
        (Kind::Line, Manner::Withdraws) => {
            columns_of(Empty, PlainName, Empty, Empty, Empty, Empty, Empty)
        }
        (Kind::Line, _) => {
            columns_of(
                LeafCategory,
                PlainName,
                Empty,
                Equation,
                Empty,
                Empty,
                Empty,
            )
        }
        (Kind::Bind, Manner::Withdraws) => {
            columns_of(PlainName, Parameter, Empty, Empty, Empty, Empty, Empty)
        }
        (Kind::Bind, _) => columns_of(PlainName, Parameter, Empty, Form, Target, Empty, Empty),
        (Kind::Uncert, Manner::Withdraws) => {
            columns_of(Empty, PlainName, Empty, Empty, Empty, Empty, Empty)
        }
        (Kind::Uncert, _) => {
            columns_of(
                Empty, PlainName, Empty, Percentage, Percentage, Empty, Empty,
            )
        }
    }
}

// What a column may hold.
fn holding_at(holdings: Holdings, column: Column) -> Holding
    ensures { result ≡ holding_at holdings column }
{
    match column {
        Column::Subject => holdings.subject,
        Column::Name => holdings.name,
        Column::Year => holdings.year,
        Column::Value => holdings.value,
        Column::Low => holdings.low,
        Column::High => holdings.high,
        Column::Unit => holdings.unit,
        _ => Holding::Empty,
    }
}

fn is_number(holding: Holding) -> bool
    ensures { result ≡ is_number holding }
{
    matches!(
        holding,
        Holding::Year
            | Holding::Figure
            | Holding::Bound
            | Holding::HalfLife
            | Holding::NoBound
            | Holding::Percentage
    )
}

/// The category that a text is the code of, where it has no children: lines stand at leaves alone.
#[tactic(auto, unfolding(crate::specs::Forms::leaf_in))]
pub(crate) fn leaf_named(text: &[u8]) -> Option<Category>
    ensures { result ≡ leaf_in text.now }
{
    let category = ghg_categories::named(text)?;
    if is_leaf(category) {
        Some(category)
    } else {
        None
    }
}

/// The decimal that a text writes, where it is within the limit of intervals in the base unit.
#[tactic(auto, unfolding(crate::specs::Forms::quantity_in))]
pub(crate) fn quantity(text: &[u8], unit: Unit) -> Option<Decimal>
    ensures { result ≡ quantity_in unit text.now }
{
    let decimal = read_decimal(text)?;
    if to_interval(decimal, unit).is_err() {
        return None;
    }
    Some(decimal)
}

fn is_quantity(unit: Option<Unit>, text: &[u8]) -> bool
    ensures { result ≡ is_quantity unit text.now }
{
    match unit {
        Some(unit) => quantity(text, unit).is_some(),
        None => false,
    }
}

fn is_unfilled(row: &ByteRecord, column: Column) -> bool
    ensures { result ≡ is_unfilled (fields_of row.now) column }
{
    text(row, column).is_empty()
}

// Whether a text is what a column may hold in its row.
fn is_held(holding: Holding, chosen: Chosen, row: &ByteRecord, text: &[u8]) -> bool
    ensures { result ≡ is_held holding chosen (fields_of row.now) text.now }
{
    match holding {
        Holding::Empty => text.is_empty(),
        Holding::LeafCategory => leaf_named(text).is_some(),
        Holding::PlainName => Name::plain(text).is_some(),
        Holding::FactorName => Name::of_factor(text).is_some(),
        Holding::Parameter => ParamName::new(text).is_some(),
        Holding::Equation => eq_named(text).is_some(),
        Holding::Form => binding_form_named(text).is_some(),
        Holding::Target => chosen.binds,
        Holding::NotationKey => key_named(text).is_some(),
        Holding::UnitWord => chosen.unit.is_some(),
        Holding::Year => read_year(text).is_some(),
        Holding::Figure => is_quantity(chosen.unit, text),
        Holding::Bound => {
            is_unfilled(row, Column::Low) && is_unfilled(row, Column::High)
                || is_quantity(chosen.unit, text)
        }
        Holding::HalfLife => read_half_life(chosen.format, text).is_some(),
        Holding::NoBound => text.is_empty(),
        Holding::Percentage => read_uncertainty(text).is_some(),
    }
}

// The columns that the kind decides, from left to right.
const DECIDED: [Column; 7] = [
    Column::Subject,
    Column::Name,
    Column::Year,
    Column::Value,
    Column::Low,
    Column::High,
    Column::Unit,
];

// Whether the column should be empty or hold a word, and does not.
fn is_wrong_word(holdings: Holdings, chosen: Chosen, row: &ByteRecord, column: Column) -> bool
    ensures { result ≡ is_wrong_word holdings chosen (fields_of row.now) column }
{
    let holding = holding_at(holdings, column);
    !is_number(holding) && !is_held(holding, chosen, row, text(row, column))
}

// Whether the column should hold a number, and does not.
fn is_wrong_number(holdings: Holdings, chosen: Chosen, row: &ByteRecord, column: Column) -> bool
    ensures { result ≡ is_wrong_number holdings chosen (fields_of row.now) column }
{
    let holding = holding_at(holdings, column);
    is_number(holding) && !is_held(holding, chosen, row, text(row, column))
}

// The leftmost wrong word.
fn wrong_word(holdings: Holdings, chosen: Chosen, row: &ByteRecord) -> Option<Column>
    ensures { result ≡ find (is_wrong_word holdings chosen (fields_of row.now)) decided }
{
    DECIDED
        .iter()
        .copied()
        .find(|column| is_wrong_word(holdings, chosen, row, *column))
}

// The leftmost wrong number.
fn wrong_number(holdings: Holdings, chosen: Chosen, row: &ByteRecord) -> Option<Column>
    ensures { result ≡ find (is_wrong_number holdings chosen (fields_of row.now)) decided }
{
    DECIDED
        .iter()
        .copied()
        .find(|column| is_wrong_number(holdings, chosen, row, *column))
}

/// What is wrong with a column: the leftmost wrong word, and else the leftmost wrong number.
#[tactic(auto, unfolding(crate::specs::Table::wrong_column))]
pub(crate) fn wrong_column(kind: Kind, chosen: Chosen, row: &ByteRecord) -> Option<Fault>
    ensures { result ≡ wrong_column kind chosen (fields_of row.now) }
{
    let holdings = holdings_of(kind, chosen.manner);
    match wrong_word(holdings, chosen, row) {
        Some(column) => Some(Fault::Word(column)),
        None => match wrong_number(holdings, chosen, row) {
            Some(column) => Some(Fault::Number(column)),
            None => None,
        },
    }
}

// Whether a column is empty if it should be, and a bound does not stand alone. What another column holds, the
// row's content tells.
fn says_no_more_in(holding: Holding, row: &ByteRecord, text: &[u8]) -> bool
    ensures { result ≡ says_no_more_in holding (fields_of row.now) text.now }
{
    match holding {
        Holding::Empty | Holding::NoBound => text.is_empty(),
        Holding::Bound => is_unfilled(row, Column::Low) == is_unfilled(row, Column::High),
        _ => true,
    }
}

/// Whether no column that should be empty has a text, and no bound stands alone.
pub(crate) fn says_no_more(kind: Kind, manner: Manner, row: &ByteRecord) -> bool
    ensures { result ≡ says_no_more kind manner (fields_of row.now) }
{
    let holdings = holdings_of(kind, manner);
    says_no_more_in(holdings.subject, row, text(row, Column::Subject))
        && says_no_more_in(holdings.name, row, text(row, Column::Name))
        && says_no_more_in(holdings.year, row, text(row, Column::Year))
        && says_no_more_in(holdings.value, row, text(row, Column::Value))
        && says_no_more_in(holdings.low, row, text(row, Column::Low))
        && says_no_more_in(holdings.high, row, text(row, Column::High))
        && says_no_more_in(holdings.unit, row, text(row, Column::Unit))
}
