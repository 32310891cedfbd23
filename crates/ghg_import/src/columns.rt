//! The ten columns of a record.

ghost use Rattle.std.specs.Prelude.{◌≡◌, []};
ghost use Rattle.std.specs.List.{list_all};
ghost use Rattle.std.specs.Str.{bytes_eq, is_utf8};
ghost use Rattle.csv.specs.Records.{field_at, fields_of};
ghost use Rattle.ghg_import.specs.Shape.{all_columns, field, has_columns, header_word, is_header, is_text, text_of};

use csv::ByteRecord;
use ghg_units::Column;
use std::str;

// The columns, from left to right.
const COLUMNS: [Column; 10] = [
    Column::Act,
    Column::Kind,
    Column::Subject,
    Column::Name,
    Column::Year,
    Column::Value,
    Column::Low,
    Column::High,
    Column::Unit,
    Column::Note,
];

/// The text of a column of a row, or nothing where the row has fewer fields.
#[tactic(auto, unfolding(crate::specs::Shape::text_of))]
pub(crate) fn text(row: &ByteRecord, column: Column) -> &[u8]
    ensures { result.now ≡ text_of (fields_of row.now) column }
{
    field(row, column as usize)
}

/// Whether a record has ten fields, each of them UTF-8.
#[tactic(auto, unfolding(crate::specs::Shape::has_columns))]
pub(crate) fn has_columns(row: &ByteRecord) -> bool
    ensures { result ≡ has_columns (fields_of row.now) }
{
    row.len() == COLUMNS.len() && is_text(row)
}

/// Whether a record is the header of a format.
#[tactic(auto, unfolding(crate::specs::Shape::is_header))]
pub(crate) fn is_header(format: u32, row: &ByteRecord) -> bool
    ensures { result ≡ is_header format (fields_of row.now) }
{
    row.len() == COLUMNS.len() && has_names(format, row)
}

// Whether the field of each column is its name.
fn has_names(format: u32, row: &ByteRecord) -> bool
    ensures { result ≡ list_all (λ column. bytes_eq (text_of (fields_of row.now) column)
        (header_word format column)) all_columns }
{
    COLUMNS.iter().all(|column| is_named(format, row, *column))
}

// Whether the field of a column is its name.
fn is_named(format: u32, row: &ByteRecord, column: Column) -> bool
    ensures { result ≡ bytes_eq (text_of (fields_of row.now) column) (header_word format column) }
{
    text(row, column) == header_word(format, column).as_bytes()
}

// The name of a column in the header of a format.
fn header_word(format: u32, column: Column) -> &'static str
    ensures { result.now ≡ header_word format column }
{
    match column {
        Column::Act if format == 2 => "act2",
        _ => column.word(),
    }
}

// The field at a place, or nothing.
#[tactic(auto, unfolding(crate::specs::Shape::field))]
fn field(row: &ByteRecord, place: usize) -> &[u8]
    ensures { result.now ≡ field (fields_of row.now) place }
{
    match row.get(place) {
        Some(text) => text,
        None => &[],
    }
}

// Whether each field is UTF-8, as it is where the whole record is ASCII.
#[tactic(auto, using(crate::proofs::Ascii::ascii_is_text))]
fn is_text(row: &ByteRecord) -> bool
    ensures { result ≡ is_text (fields_of row.now) }
{
    if row.as_slice().is_ascii() {
        return true;
    }
    for place in 0..row.len() {
        if !is_text_alone(field(row, place)) {
            return false;
        }
    }
    true
}

// Whether one field is UTF-8.
fn is_text_alone(text: &[u8]) -> bool
    ensures { result ≡ is_utf8 text.now }
{
    str::from_utf8(text).is_ok()
}
