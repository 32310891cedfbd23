// Whole pieces.
ghost use Rattle.std.specs.Prelude.{IsErrOf};
ghost use Rattle.ghg_outer.specs.Counts.{IsCounted};
ghost use Rattle.ghg_outer.specs.Writing.{WritesAll};

use crate::{Sink, WriteError};

/// Writes the whole piece. Where that stops early, a proper prefix of it was written. With any answer but
/// `Failed` the count of faults is as before.
pub fn write_all<W: Sink>(out: &mut W, piece: &[u8]) -> Result<(), WriteError>
    ensures written { WritesAll (W.tape out.old) (W.tape out.new) piece.now result }
    ensures counted { IsCounted (W.tape out.old).faults (W.tape out.new).faults
        (IsErrOf result WriteError.Failed) }
{
    let mut at = 0;
    'pieces: while at < piece.len() {
        match out.write(&piece[at..]) {
            Ok(count) => at += count,
            Err(error) => return Err(error),
        }
    }
    Ok(())
}
