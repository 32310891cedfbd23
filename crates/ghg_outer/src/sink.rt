ghost use Rattle.std.specs.Prelude.{◌≡◌, ◌<◌, ◌≤◌, true, length, IfOk, IsErrOf};
ghost use Rattle.ghg_outer.specs.Counts.{IsCounted};
ghost use Rattle.ghg_outer.specs.Tape.{Writes};

use crate::Told;

/// Why nothing was written.
#[derive(Clone, Copy, Debug, PartialEq, Eq, Drop)]
pub enum WriteError {
    /// The sink failed, and its count of faults rose.
    Failed,
    /// Memory ran out, and the count of faults is as before. Only sinks in memory, whose lists grow, answer
    /// this.
    Memory,
}

/// Where bytes go.
pub trait Sink: Told {
    /// Appends bytes from the front of the piece, which is not empty, and says how many: at least one,
    /// and maybe not all.
    ///
    /// After an error nothing was appended. With any answer but `Failed` the count of faults is as before.
    fn write(&mut self, piece: &[u8]) -> Result<usize, WriteError>
        requires { 0 < length piece.now }
        ensures some { IfOk result (λ n. 0 < n) }
        ensures bound { IfOk result (λ n. n ≤ length piece.now) }
        ensures wrote { Writes (Self.tape self.old) (Self.tape self.new) result piece.now }
        ensures counted { IsCounted (Self.tape self.old).faults (Self.tape self.new).faults
            (IsErrOf result WriteError.Failed) }
        ensures memory { IsErrOf result WriteError.Memory → (Self.tape self.old).grows ≡ true };
}
