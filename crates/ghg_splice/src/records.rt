//! The records of a body.

ghost use Rattle.std.specs.Prelude.{◌≡◌, map, true, IfOk};
ghost use Rattle.csv.specs.Reading.{error_kind, stops_reader};
ghost use Rattle.csv.specs.Records.{fields_of};
ghost use Rattle.ghg_splice.specs.Series.{records_of};

use csv::{ByteRecord, Error, ErrorKind, ReaderBuilder};
use std::alloc::{AllocError, Global};

/// The records of a body, the header first.
pub(crate) fn read_records(alloc: Global, body: &[u8]) -> Result<Vec<ByteRecord>, AllocError>
    ensures { IfOk result (λ records. map fields_of records.items ≡ records_of body.now) }
{
    let reader = ReaderBuilder::new()
        .has_headers(false)
        .flexible(true)
        .from_reader(alloc, body);
    let mut records = Vec::new(alloc);
    for record in reader.into_byte_records() {
        match record {
            Ok(record) => records.push(record)?,
            Err(error) => return Err(want_of_memory(error)),
        }
    }
    Ok(records)
}

// The error of a read of bytes in memory, where records may have any length.
//
// A slice does not fail, but no clause of the reader says so: `Io` is answered as out of memory.
fn want_of_memory(error: Error) -> AllocError
    requires { stops_reader (error_kind error) ≡ true }
{
    match error.into_kind() {
        ErrorKind::Io(_) | ErrorKind::OutOfMemory => AllocError,
        _ => unreachable!(),
    }
}
