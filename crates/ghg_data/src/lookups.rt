//! What activities, factors and half-lives give in a year.

ghost use Rattle.std.specs.Prelude.{◌≡◌, ◌≤◌, ◌+◌, IfSome, option_copied, pos};
ghost use Rattle.ghg_definitions.specs.Data.{figure};
ghost use Rattle.ghg_definitions.specs.Lookups.{activity_input, decay_input, decay_of_figure, factor_input, input_of_amount, input_of_figure, input_of_key, zero_input};
ghost use Rattle.ghg_definitions.specs.Sound.{IsWorkbook};
ghost use Rattle.ghg_interval.specs.Bounds.{AreBounded, exactly};
ghost use Rattle.ghg_data.specs.Lasting.{HasYear, IsLasting, NoneStartsBetween};
ghost use Rattle.ghg_units.specs.Units.{converted};
ghost use Rattle.ghg_units.specs.WellFormed.{IsAmountOf, IsFigure};

use crate::lasting::Lasting;
use crate::records::Records;
use ghg_cell::Input;
use ghg_definitions::{Record, RecordKey};
use ghg_interval::{Interval, SCALE};
use ghg_units::{Amount, Decimal, Figure, Name, NotationKey, Unit, to_interval};

/// What an activity's record of the year gives.
pub(crate) fn activity<R: Records>(records: &R, name: &Name, year: u32) -> Input
    ensures input { result ≡ activity_input (R.content records.now) name.now year }
    ensures workbook { IsWorkbook (R.content records.now) }
{
    input(figure(records, &RecordKey::Activity(*name, year)))
}

/// What a factor's record with the greatest start year that is not after the year gives.
pub(crate) fn factor<R: Records>(records: &R, name: &Name, year: u32) -> Input
    ensures input { result ≡ factor_input (R.content records.now) name.now year }
    ensures workbook { IsWorkbook (R.content records.now) }
{
    match records.start_year(name, year) {
        Some(start) => input(figure(records, &RecordKey::Factor(*name, start))),
        None => Input::Blank,
    }
}

/// What a factor gives in a year, with the years in which it gives it by the same record.
pub(crate) fn lasting_factor<R: Records>(records: &R, name: &Name, year: u32) -> Lasting
    ensures lasting { IsLasting (R.content records.now) name.now result }
    ensures year { HasYear result year }
{
    let last = year_before_next(records, name, year);
    match records.start_year(name, year) {
        Some(first) => Lasting {
            first,
            last,
            input: input(figure(records, &RecordKey::Factor(*name, first))),
        },
        None => Lasting {
            first: 0,
            last,
            input: Input::Blank,
        },
    }
}

// The year before that in which a factor's next record starts.
fn year_before_next<R: Records>(records: &R, name: &Name, year: u32) -> u32
    ensures after { year ≤ result }
    ensures none { NoneStartsBetween (R.content records.now) name.now year (result + 1) }
{
    match records.next_start(name, year) {
        Some(next) => next - 1,
        None => u32::MAX,
    }
}

/// The decay of the half-life in a factor's record with the greatest start year that is not after the year.
pub(crate) fn decay<R: Records>(records: &R, name: &Name, year: u32) -> Input
    ensures input { result ≡ decay_input (R.content records.now) name.now year }
    ensures workbook { IsWorkbook (R.content records.now) }
{
    match records.start_year(name, year) {
        Some(start) => decay_of(records, figure(records, &RecordKey::Factor(*name, start))),
        None => Input::Blank,
    }
}

// The figure of an activity's or a factor's record.
fn figure<'a, R: Records>(records: &'a R, key: &RecordKey) -> Option<&'a Figure>
    ensures figure { option_copied result ≡ figure (R.content records.now) key.now }
    ensures keeps { IfSome result (λ f. IsFigure f.now) }
    ensures workbook { IsWorkbook (R.content records.now) }
{
    match records.get(key) {
        Some(Record::Activity(figure)) => Some(figure),
        Some(Record::Factor(figure)) => Some(figure),
        _ => None,
    }
}

// The input of a record's figure; blank where there is none.
fn input(figure: Option<&Figure>) -> Input
    requires { IfSome figure (λ f. IsFigure f.now) }
    ensures { result ≡ input_of_figure (option_copied figure.entry) }
{
    let Some(figure) = figure else {
        return Input::Blank;
    };
    match figure.amount {
        Amount::Key(key) => input_of_key(key),
        Amount::Known { value, low, high } => known(figure.unit, value, low, high),
        Amount::HalfLife(tenths) => exactly(i128::from(tenths) * (SCALE / 10)),
    }
}

// The bracket of a half-life's yearly decay factor; blank where there is no half-life.
fn decay_of<R: Records>(records: &R, figure: Option<&Figure>) -> Input
    requires { IfSome figure (λ f. IsFigure f.now) }
    ensures { result ≡ decay_of_figure (option_copied figure.entry) }
{
    let Some(figure) = figure else {
        return Input::Blank;
    };
    match figure.amount {
        Amount::HalfLife(tenths) => {
            let bracket = records.decay_bracket(tenths);
            Input::Known {
                point: bracket,
                range: bracket,
            }
        }
        _ => Input::Blank,
    }
}

// The input of a value and its bounds. A figure without uncertainty is converted once.
fn known(unit: Unit, value: Decimal, low: Decimal, high: Decimal) -> Input
    requires { IsAmountOf unit (Amount.Known value low high) }
    ensures { result ≡ input_of_amount unit (Amount.Known value low high) }
{
    let point = interval(value, unit);
    if low.scaled == high.scaled {
        return Input::Known {
            point,
            range: point,
        };
    }
    let range = interval(low, unit).hull(&interval(high, unit));
    Input::Known { point, range }
}

// The interval of a decimal that is within the limit in the base unit.
fn interval(decimal: Decimal, unit: Unit) -> Interval
    requires { AreBounded (converted unit decimal decimal) }
    ensures { result ≡ converted unit decimal decimal }
{
    to_interval(decimal, unit).unwrap()
}

/// The input of a notation key: what does not occur, does not apply or is included elsewhere counts as zero.
pub fn input_of_key(key: NotationKey) -> Input
    ensures { result ≡ input_of_key key }
{
    match key {
        NotationKey::No | NotationKey::Na | NotationKey::Ie => zero(),
        NotationKey::Ne => Input::Blank,
    }
}

fn zero() -> Input
    ensures { result ≡ zero_input }
{
    exactly(0)
}

// A number at the scale of intervals, the same at each choice.
fn exactly(number: i128) -> Input
    requires { AreBounded (exactly number) }
    ensures { result ≡ Input.Known (exactly number) (exactly number) }
{
    let point = Interval::exact(number).unwrap();
    Input::Known {
        point,
        range: point,
    }
}
