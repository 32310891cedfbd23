// Links in memory.
ghost use Rattle.std.specs.Prelude.{◌≡◌, ◌↔◌, ◌<◌, ◌≤◌, [], length, IfOk, IsTrue, IsErr, IsErrOf};
ghost use Rattle.std.specs.Io.{ReadsAtMost};
ghost use Rattle.ghg_outer.specs.Counts.{IsCounted};
ghost use Rattle.ghg_outer.specs.Links.{link_tape, planned_link_tape};
ghost use Rattle.ghg_outer.specs.Plans.{planned, fails_next, after_call};
ghost use Rattle.ghg_outer.specs.Tape.{IsAtEnd, Reads, Writes};

use crate::{Failed, FaultPlan, Sink, Source, SteadySink, SteadySource, Told, WriteError};
use std::alloc::Global;
use std::marker::Model;

/// A link in memory whose calls do not fail, though memory may run out in a write.
#[derive(Drop)]
pub struct SteadyLink {
    input: SteadySource,
    output: SteadySink,
}

impl Model for SteadyLink {
    ghost use Rattle.ghg_outer.specs.Links.{LinkBytes};

    ghost Value = { LinkBytes };

    ghost view = { λ l. record { input = l.input; written = l.output } };
}

impl SteadyLink {
    /// A link from which these bytes can be read, and to which nothing was written.
    pub fn new(alloc: Global, bytes: Vec<u8>) -> SteadyLink
        ensures input { result.input ≡ record { left = bytes.items; taken = [] } }
        ensures written { result.written ≡ [] }
    {
        SteadyLink {
            input: SteadySource::new(bytes),
            output: SteadySink::new(alloc),
        }
    }

    /// What was written.
    pub fn written(&self) -> &[u8]
        ensures { result.now ≡ self.now.written }
    {
        self.output.bytes()
    }
}

impl Told for SteadyLink {
    ghost tape = { λ l. link_tape l 0 };
}

impl Source for SteadyLink {
    fn read(&mut self, buf: &mut [u8]) -> Result<usize, Failed> {
        Ok(self.input.take_front(buf))
    }
}

impl Sink for SteadyLink {
    fn write(&mut self, piece: &[u8]) -> Result<usize, WriteError> {
        match self.output.append(piece) {
            Ok(()) => Ok(piece.len()),
            Err(_) => Err(WriteError::Memory),
        }
    }
}

/// A link in memory. Reads and writes are counted together, and one answers `Failed` exactly where its number
/// is listed.
#[derive(Drop)]
pub struct MemoryLink {
    input: SteadySource,
    output: SteadySink,
    plan: FaultPlan,
}

impl Model for MemoryLink {
    ghost use Rattle.ghg_outer.specs.Links.{PlannedLink};

    ghost Value = { PlannedLink };

    ghost view = { λ l. record { bytes = record { input = l.input; written = l.output }; plan = l.plan } };
}

impl MemoryLink {
    /// A link from which these bytes can be read, and to which nothing was written, with the numbers of the
    /// calls that are to fail.
    pub fn new(alloc: Global, bytes: Vec<u8>, failing: Vec<u64>) -> MemoryLink
        ensures input { result.bytes.input ≡ record { left = bytes.items; taken = [] } }
        ensures written { result.bytes.written ≡ [] }
        ensures plan { result.plan ≡ planned failing.items }
    {
        MemoryLink {
            input: SteadySource::new(bytes),
            output: SteadySink::new(alloc),
            plan: FaultPlan::new(failing),
        }
    }

    /// What was written.
    pub fn written(&self) -> &[u8]
        ensures { result.now ≡ self.now.bytes.written }
    {
        self.output.bytes()
    }
}

impl Told for MemoryLink {
    ghost tape = { planned_link_tape };
}

impl Source for MemoryLink {
    fn read(&mut self, buf: &mut [u8]) -> Result<usize, Failed>
        requires { 0 < length buf.old }
        ensures bound { ReadsAtMost result buf.new }
        ensures read { Reads (planned_link_tape self.old) (planned_link_tape self.new) result buf.new }
        ensures end { IfOk result (λ n. n ≡ 0 → IsAtEnd (planned_link_tape self.new)) }
        ensures counted { IsCounted (planned_link_tape self.old).faults (planned_link_tape self.new).faults
            (IsErr result) }
        ensures fails { IsErr result ↔ IsTrue (fails_next self.old.plan) }
        ensures plan { self.new.plan ≡ after_call self.old.plan }
    {
        if self.plan.next_call() {
            Err(Failed)
        } else {
            Ok(self.input.take_front(buf))
        }
    }
}

impl Sink for MemoryLink {
    fn write(&mut self, piece: &[u8]) -> Result<usize, WriteError>
        requires { 0 < length piece.now }
        ensures some { IfOk result (λ n. 0 < n) }
        ensures bound { IfOk result (λ n. n ≤ length piece.now) }
        ensures wrote { Writes (planned_link_tape self.old) (planned_link_tape self.new) result piece.now }
        ensures counted { IsCounted (planned_link_tape self.old).faults (planned_link_tape self.new).faults
            (IsErrOf result WriteError.Failed) }
        ensures fails { IsErrOf result WriteError.Failed ↔ IsTrue (fails_next self.old.plan) }
        ensures plan { self.new.plan ≡ after_call self.old.plan }
    {
        if self.plan.next_call() {
            return Err(WriteError::Failed);
        }
        match self.output.append(piece) {
            Ok(()) => Ok(piece.len()),
            Err(_) => Err(WriteError::Memory),
        }
    }
}
