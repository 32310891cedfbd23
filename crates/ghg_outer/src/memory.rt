// Forms in memory whose calls fail by a list.
ghost use Rattle.std.specs.Prelude.{◌≡◌, ◌↔◌, ◌<◌, ◌≤◌, [], length, IfOk, IsTrue, IsErr, IsErrOf};
ghost use Rattle.std.specs.Io.{ReadsAtMost};
ghost use Rattle.ghg_outer.specs.Counts.{IsCounted};
ghost use Rattle.ghg_outer.specs.Plans.{planned, planned_sink_tape, planned_source_tape, fails_next, after_call};
ghost use Rattle.ghg_outer.specs.Tape.{IsAtEnd, Reads, Writes};

use crate::{Failed, FaultPlan, Sink, Source, SteadySink, SteadySource, Told, WriteError};
use std::alloc::Global;
use std::marker::Model;

/// Bytes in memory. A read fails exactly where its number is listed.
#[derive(Drop)]
pub struct MemorySource {
    inner: SteadySource,
    plan: FaultPlan,
}

impl Model for MemorySource {
    ghost use Rattle.ghg_outer.specs.Plans.{PlannedSource};

    ghost Value = { PlannedSource };

    ghost view = { λ s. record { bytes = s.inner; plan = s.plan } };
}

impl MemorySource {
    /// A source of these bytes, with the numbers of the reads that are to fail.
    pub fn new(bytes: Vec<u8>, failing: Vec<u64>) -> MemorySource
        ensures bytes { result.bytes ≡ record { left = bytes.items; taken = [] } }
        ensures plan { result.plan ≡ planned failing.items }
    {
        MemorySource {
            inner: SteadySource::new(bytes),
            plan: FaultPlan::new(failing),
        }
    }
}

impl Told for MemorySource {
    ghost tape = { planned_source_tape };
}

impl Source for MemorySource {
    fn read(&mut self, buf: &mut [u8]) -> Result<usize, Failed>
        requires { 0 < length buf.old }
        ensures bound { ReadsAtMost result buf.new }
        ensures read { Reads (planned_source_tape self.old) (planned_source_tape self.new) result buf.new }
        ensures end { IfOk result (λ n. n ≡ 0 → IsAtEnd (planned_source_tape self.new)) }
        ensures counted { IsCounted (planned_source_tape self.old).faults
            (planned_source_tape self.new).faults (IsErr result) }
        ensures fails { IsErr result ↔ IsTrue (fails_next self.old.plan) }
        ensures plan { self.new.plan ≡ after_call self.old.plan }
    {
        if self.plan.next_call() {
            Err(Failed)
        } else {
            Ok(self.inner.take_front(buf))
        }
    }
}

/// Bytes that were written, in memory. A write answers `Failed` exactly where its number is listed.
#[derive(Drop)]
pub struct MemorySink {
    inner: SteadySink,
    plan: FaultPlan,
}

impl Model for MemorySink {
    ghost use Rattle.ghg_outer.specs.Plans.{PlannedSink};

    ghost Value = { PlannedSink };

    ghost view = { λ s. record { written = s.inner; plan = s.plan } };
}

impl MemorySink {
    /// A sink to which nothing was written, with the numbers of the writes that are to fail.
    pub fn new(alloc: Global, failing: Vec<u64>) -> MemorySink
        ensures written { result.written ≡ [] }
        ensures plan { result.plan ≡ planned failing.items }
    {
        MemorySink {
            inner: SteadySink::new(alloc),
            plan: FaultPlan::new(failing),
        }
    }

    /// What was written.
    pub fn bytes(&self) -> &[u8]
        ensures { result.now ≡ self.now.written }
    {
        self.inner.bytes()
    }
}

impl Told for MemorySink {
    ghost tape = { planned_sink_tape };
}

impl Sink for MemorySink {
    fn write(&mut self, piece: &[u8]) -> Result<usize, WriteError>
        requires { 0 < length piece.now }
        ensures some { IfOk result (λ n. 0 < n) }
        ensures bound { IfOk result (λ n. n ≤ length piece.now) }
        ensures wrote { Writes (planned_sink_tape self.old) (planned_sink_tape self.new) result piece.now }
        ensures counted { IsCounted (planned_sink_tape self.old).faults (planned_sink_tape self.new).faults
            (IsErrOf result WriteError.Failed) }
        ensures fails { IsErrOf result WriteError.Failed ↔ IsTrue (fails_next self.old.plan) }
        ensures plan { self.new.plan ≡ after_call self.old.plan }
    {
        if self.plan.next_call() {
            return Err(WriteError::Failed);
        }
        match self.inner.append(piece) {
            Ok(()) => Ok(piece.len()),
            Err(_) => Err(WriteError::Memory),
        }
    }
}
