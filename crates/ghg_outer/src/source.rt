ghost use Rattle.std.specs.Prelude.{◌≡◌, ◌<◌, length, IfOk, IsErr};
ghost use Rattle.std.specs.Io.{ReadsAtMost};
ghost use Rattle.ghg_outer.specs.Counts.{IsCounted};
ghost use Rattle.ghg_outer.specs.Tape.{IsAtEnd, Reads};

use crate::Told;

/// A call on the outside failed, and the count of faults rose.
#[derive(Clone, Copy, Debug, PartialEq, Eq, Drop)]
pub struct Failed;

/// Where bytes come from.
pub trait Source: Told {
    /// Takes the next bytes into the front of the buffer, which is not empty, and says how many. They may
    /// be fewer than there is room for.
    ///
    /// `Ok(0)` is the end of the input: nothing is left. After `Failed` nothing was taken. With `Ok` the
    /// count of faults is as before.
    fn read(&mut self, buf: &mut [u8]) -> Result<usize, Failed>
        requires { 0 < length buf.old }
        ensures bound { ReadsAtMost result buf.new }
        ensures read { Reads (Self.tape self.old) (Self.tape self.new) result buf.new }
        ensures end { IfOk result (λ n. n ≡ 0 → IsAtEnd (Self.tape self.new)) }
        ensures counted { IsCounted (Self.tape self.old).faults (Self.tape self.new).faults (IsErr result) };
}
