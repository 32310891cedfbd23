//! The rows of a body.

ghost use Rattle.std.specs.Prelude.{◌≡◌, ◌≤◌, ◌+◌, ◌<◌, ◌↔◌, length, IfOk, IsTrue, OnOk, if◌then◌else◌};
ghost use Rattle.std.specs.List.{AllByRecursion};
ghost use Rattle.csv.specs.Records.{fields_of};
ghost use Rattle.ghg_units.specs.Format.{format_in};
ghost use Rattle.ghg_units.specs.WellFormed.{IsWellFormed};
ghost use Rattle.ghg_import.specs.Body.{max_body};
ghost use Rattle.ghg_import.specs.Fault.{Gives};
ghost use Rattle.ghg_import.specs.Reading.{no_header, reading_of, row_content, rows_from, under_header};
ghost use Rattle.ghg_import.specs.Told.{Tells};

use crate::columns::{has_columns, is_header};
use crate::fault::{Fault, ReadError};
use crate::form::content;
use crate::reader::RecordReader;
use csv::ByteRecord;
use ghg_units::{Act, Row, RowForm, Rule, format_of};
use std::alloc::{AllocError, Global};

/// The longest body that is read, in bytes.
pub const MAX_BODY: usize = 4_194_304;

/// Whether a body is longer than any that is read: the condition under which `read_rows` may not be called.
pub fn is_too_long(body: &[u8]) -> bool
    ensures { IsTrue result ↔ (max_body < length body.now) }
{
    body.len() > MAX_BODY
}

/// What a body says.
#[derive(Drop)]
pub struct Rows {
    /// The rows before the first that breaks a rule, each well formed.
    pub rows: Vec<Row>,
    /// The rule that stopped the reading, if one did.
    pub rest: Option<Rule>,
}

/// The rows of a body, up to the first that breaks a rule which its body alone shows: its shape, its words,
/// its numbers or the order of its bounds.
///
/// Rows are the records that `csv` cuts the body into: the header has the number 0, and an empty line has
/// none. The header is that of the body's format, as `format_of` tells it, and half-lives are read by this
/// format. A word is tested before a number and a number before the order of bounds; of each sort the
/// leftmost wrong column is named.
#[tactic(auto, unfolding(crate::specs::Reading::reading_of))]
pub fn read_rows(alloc: Global, body: &[u8]) -> Result<Rows, AllocError>
    requires { length body.now ≤ max_body }
    // The rows, and the rule, are a function of the body.
    ensures reads { IfOk result (λ rows. Tells rows (reading_of body.now)) }
    ensures keeps { IfOk result (λ rows. AllByRecursion IsWellFormed rows.rows.items) }
{
    let format = format_of(body);
    let mut records = RecordReader::new(alloc, body);
    let mut fields = ByteRecord::new(alloc);
    if !takes_header(format, &mut records, &mut fields)? {
        return Ok(Rows {
            rows: Vec::new(alloc),
            rest: Some(Rule::BadShape(0)),
        });
    }
    rows_under_header(alloc, format, records, fields)
}

// Whether the first record is the header of the format, which is then taken.
fn takes_header(
    format: u32,
    records: &mut RecordReader<'_>,
    fields: &mut ByteRecord,
) -> Result<bool, AllocError>
    ensures header { IfOk result (λ found. under_header format records.old ≡
        (if found then rows_from format 1 records.new else no_header)) }
    ensures fewer { OnOk result (length records.new ≤ length records.old) }
{
    if !records.next(fields)? {
        return Ok(false);
    }
    Ok(is_header(format, fields))
}

// The rows of the records under the header.
fn rows_under_header(
    alloc: Global,
    format: u32,
    mut records: RecordReader<'_>,
    mut fields: ByteRecord,
) -> Result<Rows, AllocError>
    requires { length records ≤ max_body }
    ensures { IfOk result (λ rows. Tells rows (rows_from format 1 records.entry)) }
{
    let mut rows = Vec::new(alloc);
    let mut number = 1;
    'records: while records.next(&mut fields)? {
        match row_content(alloc, format, &fields) {
            Ok((act, form)) => rows.push(Row { number, act, form })?,
            Err(ReadError::Memory) => return Err(AllocError),
            Err(ReadError::Fault(fault)) => {
                let rest = Some(fault.at(number));
                return Ok(Rows { rows, rest });
            }
        }
        number += 1;
    }
    Ok(Rows { rows, rest: None })
}

// What a record says, or the first rule that it breaks.
#[tactic(auto, unfolding(crate::specs::Reading::row_content))]
fn row_content(alloc: Global, format: u32, fields: &ByteRecord) -> Result<(Act, RowForm), ReadError>
    ensures { Gives result (row_content format (fields_of fields.now)) }
{
    if !has_columns(fields) {
        return Err(ReadError::Fault(Fault::Shape));
    }
    content(alloc, format, fields)
}
