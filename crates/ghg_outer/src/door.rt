ghost use Rattle.std.specs.Prelude.{◌≡◌, IfOk, IsErr, OnErr, OnOk};
ghost use Rattle.ghg_outer.specs.Counts.{IsCounted};
ghost use Rattle.ghg_outer.specs.Doors.{GivesLink, IsKept, Opens, Register, TakesBack};
ghost use Rattle.ghg_outer.specs.Links.{IsFresh};

use crate::{Failed, Sink, Source};
use std::alloc::AllocError;

/// Where connections come in, one after the other.
///
/// A door may tell its port, how many links it gave and those that it took back. All that a call is not said
/// to change stays as it is.
pub trait Door {
    /// A connection.
    type Link: Source + Sink;

    ghost register: { Self → Register Self.Link };

    /// Opens a port on loopback.
    fn listen(&mut self, port: u16) -> Result<(), Failed>
        ensures opened { OnOk result (Opens (Self.register self.old) (Self.register self.new) port) }
        ensures kept { OnErr result (IsKept (Self.register self.old) (Self.register self.new)) }
        ensures counted { IsCounted (Self.register self.old).faults (Self.register self.new).faults
            (IsErr result) };

    /// Gives the next connection, on which no call failed and nothing was taken or written.
    fn next(&mut self) -> Result<Self::Link, Failed>
        ensures fresh { IfOk result (λ link. IsFresh (Self.Link.Told.tape link)) }
        ensures given { OnOk result (GivesLink (Self.register self.old) (Self.register self.new)) }
        ensures kept { OnErr result (IsKept (Self.register self.old) (Self.register self.new)) }
        ensures counted { IsCounted (Self.register self.old).faults (Self.register self.new).faults
            (IsErr result) };

    /// Takes a connection back, and ends it.
    ///
    /// Where memory runs out the connection is ended too, but it is not among those that were taken back.
    fn finish(&mut self, link: Self::Link) -> Result<(), AllocError>
        ensures finished { OnOk result (TakesBack (Self.register self.old) (Self.register self.new) link) }
        ensures kept { OnErr result (IsKept (Self.register self.old) (Self.register self.new)) }
        ensures counted { IsCounted (Self.register self.old).faults (Self.register self.new).faults ⊥ };
}
