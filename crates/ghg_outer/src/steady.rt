// Forms in memory whose calls do not fail.
ghost use Rattle.std.specs.Prelude.{◌≡◌, ◌≤◌, ◌<◌, ◌+◌, ◌-◌, ◌++◌, [], min, length, take, drop, OnOk, OnErr};
ghost use Rattle.ghg_outer.specs.Tape.{sink_tape, source_tape};

use crate::{Failed, Sink, Source, Told, WriteError};
use std::alloc::{AllocError, Global};
use std::marker::Model;

/// Bytes in memory, each of which a read may take. No read fails.
#[derive(Drop)]
pub struct SteadySource {
    bytes: Vec<u8>,
    at: usize,
}

impl Model for SteadySource {
    ghost use Rattle.std.specs.Prelude.{◌≤◌, length, take, drop};
    ghost use Rattle.ghg_outer.specs.Bytes.{SourceBytes};

    ghost Value = { SourceBytes };

    ghost view = { λ s. record {
      left = drop s.at s.bytes.items;
      taken = take s.at s.bytes.items;
    } };

    ghost invariant = { λ s. s.at ≤ length s.bytes.items };
}

impl SteadySource {
    /// A source of these bytes.
    pub fn new(bytes: Vec<u8>) -> SteadySource
        ensures { result ≡ record { left = bytes.items; taken = [] } }
    {
        SteadySource { bytes, at: 0 }
    }

    /// Takes as many of the next bytes as there is room for.
    #[tactic(auto, using(crate::proofs::Fronts::longer_front))]
    pub(crate) fn take_front(&mut self, buf: &mut [u8]) -> usize
        ensures count { result ≡ min (length self.old.left) (length buf.new) }
        ensures left { self.new.left ≡ drop result self.old.left }
        ensures taken { self.new.taken ≡ self.old.taken ++ take result self.old.left }
        ensures given { take result buf.new ≡ take result self.old.left }
    {
        let count = copy_front(&self.bytes, self.at, buf);
        self.at += count;
        count
    }
}

// Copies what stands at an offset, as far as there is room. The result is how much that was.
fn copy_front(bytes: &[u8], at: usize, buf: &mut [u8]) -> usize
    requires { at ≤ length bytes.now }
    ensures count { result ≡ min (length bytes.now - at) (length buf.new) }
    ensures copied { take result buf.new ≡ take result (drop at bytes.now) }
{
    let count = buf.len().min(bytes.len() - at);
    buf[..count].copy_from_slice(&bytes[at..at + count]);
    count
}

impl Told for SteadySource {
    ghost tape = { λ s. source_tape s.left s.taken 0 };
}

impl Source for SteadySource {
    fn read(&mut self, buf: &mut [u8]) -> Result<usize, Failed> {
        Ok(self.take_front(buf))
    }
}

/// Bytes that were written, in memory. No write fails, but memory may run out.
#[derive(Drop)]
pub struct SteadySink {
    bytes: Vec<u8>,
}

impl Model for SteadySink {
    ghost use Rattle.std.specs.Prelude.{List, ℕ};

    ghost Value = { List ℕ };

    ghost view = { λ s. s.bytes.items };
}

impl SteadySink {
    /// A sink to which nothing was written.
    pub fn new(alloc: Global) -> SteadySink
        ensures { result ≡ [] }
    {
        SteadySink {
            bytes: Vec::new(alloc),
        }
    }

    /// What was written.
    pub fn bytes(&self) -> &[u8]
        ensures { result.now ≡ self.now }
    {
        &self.bytes
    }

    /// Appends the whole piece, or nothing where memory runs out.
    pub(crate) fn append(&mut self, piece: &[u8]) -> Result<(), AllocError>
        ensures ok { OnOk result (self.new ≡ self.old ++ piece.now) }
        ensures err { OnErr result (self.new ≡ self.old) }
    {
        self.bytes.extend_from_slice(piece)?;
        Ok(())
    }
}

impl Told for SteadySink {
    ghost tape = { λ s. sink_tape s 0 };
}

impl Sink for SteadySink {
    fn write(&mut self, piece: &[u8]) -> Result<usize, WriteError> {
        match self.append(piece) {
            Ok(()) => Ok(piece.len()),
            Err(_) => Err(WriteError::Memory),
        }
    }
}
