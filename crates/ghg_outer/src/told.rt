ghost use Rattle.ghg_outer.specs.Tape.{Tape};

/// What an object of the outside tells. Sources and sinks share it, so that of a link, which is both, a
/// contract can say that a read leaves what was written.
///
/// All else that a call is not said to change stays as it is.
pub trait Told {
    /// What is left, taken and written, where that is known, and how many calls failed.
    ghost tape: { Self → Tape };
}
