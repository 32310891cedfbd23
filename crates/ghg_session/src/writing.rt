//! Writes whole pieces to a sink.

ghost use Rattle.std.specs.Prelude.{◌≡◌, ◌≢◌, IsErrOf};
ghost use Rattle.ghg_outer.specs.Counts.{IsCounted};
ghost use Rattle.ghg_session.specs.Writing.{Reports, WritesAll};

use ghg_outer::{Sink, WriteError};
use ghg_words::Status;

/// Writes the whole piece. Where that stops early, a proper prefix of it was written.
pub fn write_all<W: Sink>(out: &mut W, piece: &[u8]) -> Result<(), Status>
    ensures written { WritesAll (W.tape out.old) (W.tape out.new) piece.now result }
    ensures counted { IsCounted (W.tape out.old).faults (W.tape out.new).faults
        (IsErrOf result Status.OutputFailed) }
{
    match ghg_outer::write_all(out, piece) {
        Ok(()) => Ok(()),
        Err(WriteError::Failed) => Err(Status::OutputFailed),
        Err(WriteError::Memory) => Err(Status::OutOfMemory),
    }
}

/// Writes the line that a status comes with, and answers that status. If the writing stops early, the answer
/// says why.
pub fn report<W: Sink>(out: &mut W, line: &[u8], status: Status) -> Status
    ensures reported { Reports (W.tape out.old) (W.tape out.new) line.now status result }
    ensures counted { status ≢ Status.OutputFailed
        → IsCounted (W.tape out.old).faults (W.tape out.new).faults (result ≡ Status.OutputFailed) }
{
    match write_all(out, line) {
        Ok(()) => status,
        Err(stop) => stop,
    }
}
