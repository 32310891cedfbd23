//! The rows of a body.

ghost use Rattle.std.specs.Prelude.{◌≡◌, ◌+◌, ◌≤◌, ◌<◌, IfOk, IfSome, length, map};
ghost use Rattle.std.specs.Str.{bytes_eq};
ghost use Rattle.csv.specs.Records.{fields_of};
ghost use Rattle.ghg_units.specs.Year.{latest_year};
ghost use Rattle.ghg_splice.specs.Refusals.{Gives};
ghost use Rattle.ghg_splice.specs.Series.{between_in, field, is_header, quantity_in, row_after, row_in, rows_from, rows_in, supplied_in};

use crate::quantity::Quantity;
use crate::records::read_records;
use crate::refusal::{SpliceRefusal, Stop};
use csv::ByteRecord;
use ghg_interval::Interval;
use ghg_units::{read_decimal, read_year};
use std::alloc::Global;

/// A year, and what is known of the series and of the one beside it.
///
/// Contracts also speak of rows of exact fractions.
#[derive(Clone, Copy, Drop)]
pub(crate) struct Row<T> {
    pub(crate) year: u32,
    pub(crate) y: Option<T>,
    pub(crate) x: Option<T>,
}

/// The rows of a body, or the first that is not as it should be.
#[tactic(auto, unfolding(crate::specs::Series::rows_in))]
pub(crate) fn read_rows(alloc: Global, body: &[u8]) -> Result<Vec<Row<Quantity>>, Stop>
    ensures few { IfOk result (λ rows. length rows.items ≤ latest_year) }
    ensures gives { Gives (λ rows. rows.items) result (rows_in body.now) }
{
    let records = read_records(alloc, body)?;
    match records.as_slice() {
        [header, records @ ..] if is_header(header) => rows_of(alloc, records),
        _ => Err(Stop::Refusal(SpliceRefusal::BadRow(0))),
    }
}

// The rows of the records under the header.
fn rows_of(alloc: Global, records: &[ByteRecord]) -> Result<Vec<Row<Quantity>>, Stop>
    // Years rise, so that there are no more rows than the number of the latest year.
    ensures few { IfOk result (λ rows. length rows.items ≤ latest_year) }
    ensures gives { Gives (λ rows. rows.items) result (rows_from 1 0 (map fields_of records.now)) }
{
    let mut rows = Vec::new(alloc);
    let mut number = 1;
    let mut after = 0;
    for fields in records {
        let Some(row) = row_after(after, fields) else {
            return Err(Stop::Refusal(SpliceRefusal::BadRow(number)));
        };
        number += 1;
        after = row.year;
        if rows.push(row).is_err() {
            return Err(Stop::Memory);
        }
    }
    Ok(rows)
}

// The row that a record is, of a later year than this one.
#[tactic(auto, unfolding(crate::specs::Series::row_after))]
fn row_after(after: u32, fields: &ByteRecord) -> Option<Row<Quantity>>
    ensures reads { result ≡ row_after after (fields_of fields.now) }
    ensures later { IfSome result (λ row. (after < row.year) × (row.year ≤ latest_year)) }
{
    let row = row_of(fields)?;
    if after < row.year { Some(row) } else { None }
}

// The row that a record is.
#[tactic(auto, unfolding(crate::specs::Series::row_in))]
fn row_of(fields: &ByteRecord) -> Option<Row<Quantity>>
    ensures reads { result ≡ row_in (fields_of fields.now) }
    ensures keeps { IfSome result (λ row. row.year ≤ latest_year) }
{
    if fields.len() != COLUMNS {
        return None;
    }
    let year = read_year(field(fields, 0))?;
    let y = supplied(field(fields, 1), field(fields, 2), field(fields, 3))?;
    let x = supplied(field(fields, 4), field(fields, 5), field(fields, 6))?;
    Some(Row { year, y, x })
}

// How many columns a row has: `year,y,y_low,y_high,x,x_low,x_high`.
const COLUMNS: usize = 7;

// Whether a record is the header.
#[tactic(auto, unfolding(crate::specs::Series::is_header))]
fn is_header(fields: &ByteRecord) -> bool
    ensures { result ≡ is_header (fields_of fields.now) }
{
    fields.len() == COLUMNS
        && is_named(fields, 0, b"year")
        && is_named(fields, 1, b"y")
        && is_named(fields, 2, b"y_low")
        && is_named(fields, 3, b"y_high")
        && is_named(fields, 4, b"x")
        && is_named(fields, 5, b"x_low")
        && is_named(fields, 6, b"x_high")
}

fn is_named(fields: &ByteRecord, place: usize, name: &[u8]) -> bool
    ensures { result ≡ bytes_eq (field (fields_of fields.now) place) name.now }
{
    field(fields, place) == name
}

// The field at a place, or nothing.
#[tactic(auto, unfolding(crate::specs::Series::field))]
fn field(fields: &ByteRecord, place: usize) -> &[u8]
    ensures { result.now ≡ field (fields_of fields.now) place }
{
    match fields.get(place) {
        Some(text) => text,
        None => &[],
    }
}

// What a value and its bounds supply: nothing where all are empty, else a quantity.
#[tactic(auto, unfolding(crate::specs::Series::supplied_in))]
fn supplied(value: &[u8], low: &[u8], high: &[u8]) -> Option<Option<Quantity>>
    ensures { result ≡ supplied_in value.now low.now high.now }
{
    if value.is_empty() && low.is_empty() && high.is_empty() {
        return Some(None);
    }
    let quantity = quantity(value, low, high)?;
    Some(Some(quantity))
}

// A quantity, whose bounds are its value where both are empty.
fn quantity(value: &[u8], low: &[u8], high: &[u8]) -> Option<Quantity>
    ensures { result ≡ quantity_in value.now low.now high.now }
{
    if low.is_empty() && high.is_empty() {
        between(value, value, value)
    } else {
        between(value, low, high)
    }
}

// The quantity that three decimals write, in their order.
#[tactic(auto, unfolding(crate::specs::Series::between_in))]
fn between(value: &[u8], low: &[u8], high: &[u8]) -> Option<Quantity>
    ensures { result ≡ between_in value.now low.now high.now }
{
    let value = read_decimal(value)?.scaled;
    let low = read_decimal(low)?.scaled;
    let high = read_decimal(high)?.scaled;
    if low > value || value > high {
        return None;
    }
    let point = Interval::new(value, value)?;
    let range = Interval::new(low, high)?;
    Some(Quantity { point, range })
}
