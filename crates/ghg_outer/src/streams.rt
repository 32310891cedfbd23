// The process's own input and output, which are the trusted edge.
ghost use Rattle.std.specs.Prelude.{◌≡◌, ◌≢◌, ◌<◌, ◌≤◌, false, length, IfOk, IfErr, IsErr, None};
ghost use Rattle.std.specs.Io.{ReadsAtMost, WritesAtMost};
ghost use Rattle.std.specs.Io.KnownBytes.{ReadConsumes, WriteAppends};
ghost use Rattle.std.specs.IoError.{error_kind};
ghost use Rattle.ghg_outer.specs.Counts.{IsCounted, raised};
ghost use Rattle.ghg_outer.specs.Tape.{Writes};

use crate::{Failed, Sink, Source, Told, WriteError};
use std::io;
use std::io::{ErrorKind, Read, Write};

/// A reader of std, as standard input, with a count of its errors. A call that a signal interrupted is
/// made again, and is no error.
///
/// It is part of the trusted edge: std's contracts do not say what standard input gives, so there this
/// source tells nothing of its bytes. It is proved that the count rose where an error is answered. Over a
/// reader that tells what it has left, as a slice, this source tells the same.
#[derive(Drop)]
pub struct InputSource<R: Read + Drop> {
    reader: R,
    faults: u64,
}

impl<R: Read + Drop> InputSource<R> {
    /// A source over the reader, with no fault yet.
    pub fn new(reader: R) -> InputSource<R>
        ensures { ⟦<InputSource<R> as Told>⟧.tape result
            ≡ record { left = R.remaining reader; taken = None; written = None; faults = 0; grows = false } }
    {
        InputSource { reader, faults: 0 }
    }
}

impl<R: Read + Drop> Told for InputSource<R> {
    ghost tape = { λ s. record {
      left = R.remaining s.reader;
      taken = None;
      written = None;
      faults = s.faults;
      grows = false;
    } };
}

impl<R: Read + Drop> Source for InputSource<R> {
    fn read(&mut self, buf: &mut [u8]) -> Result<usize, Failed> {
        match read_again(&mut self.reader, buf) {
            Ok(count) => Ok(count),
            Err(error) => {
                self.faults = count_error(self.faults, &error);
                Err(Failed)
            }
        }
    }
}

/// Reads as the reader does, and again where a signal interrupted that.
/// Where that was so 2^64 - 1 times, the call timed out.
pub(crate) fn read_again<R: Read>(reader: &mut R, buf: &mut [u8]) -> io::Result<usize>
    ensures bound { ReadsAtMost result buf.new }
    ensures bytes { ReadConsumes (R.remaining reader.old) (R.remaining reader.new) result buf.new }
    ensures retried { IfErr result (λ error. error_kind error ≢ ErrorKind.Interrupted) }
{
    for _ in 0..u64::MAX {
        match reader.read(buf) {
            Err(error) if error.kind() == ErrorKind::Interrupted => {}
            other => return other,
        }
    }
    Err(io::Error::from(ErrorKind::TimedOut))
}

/// Counts an error, which is none that a signal made by interrupting a call.
pub(crate) fn count_error(faults: u64, _error: &io::Error) -> u64
    requires { error_kind _error.now ≢ ErrorKind.Interrupted }
    ensures { result ≡ raised faults }
{
    faults.saturating_add(1)
}

/// A writer of std, as standard output, with a count of its errors. Where the writer takes nothing of a
/// piece, that is an error too. A call that a signal interrupted is made again, and is no error.
///
/// It is part of the trusted edge: std's contracts do not say where standard output's bytes go, so there
/// this sink tells nothing of them. It is proved that the count rose where an error is answered. Over a
/// writer that tells what it holds, as a vector, this sink tells the same.
#[derive(Drop)]
pub struct OutputSink<W: Write + Drop> {
    writer: W,
    faults: u64,
}

impl<W: Write + Drop> OutputSink<W> {
    /// A sink over the writer, with no fault yet.
    pub fn new(writer: W) -> OutputSink<W>
        ensures { ⟦<OutputSink<W> as Told>⟧.tape result
            ≡ record { left = None; taken = None; written = W.contents writer; faults = 0; grows = false } }
    {
        OutputSink { writer, faults: 0 }
    }
}

impl<W: Write + Drop> Told for OutputSink<W> {
    ghost tape = { λ s. record {
      left = None;
      taken = None;
      written = W.contents s.writer;
      faults = s.faults;
      grows = false;
    } };
}

impl<W: Write + Drop> Sink for OutputSink<W> {
    fn write(&mut self, piece: &[u8]) -> Result<usize, WriteError>
        requires { 0 < length piece.now }
        ensures some { IfOk result (λ n. 0 < n) }
        ensures bound { IfOk result (λ n. n ≤ length piece.now) }
        ensures wrote { Writes (⟦<OutputSink<W> as Told>⟧.tape self.old)
            (⟦<OutputSink<W> as Told>⟧.tape self.new) result piece.now }
        ensures counted { IsCounted (⟦<OutputSink<W> as Told>⟧.tape self.old).faults
            (⟦<OutputSink<W> as Told>⟧.tape self.new).faults (IsErr result) }
        ensures only { IfErr result (λ error. error ≡ WriteError.Failed) }
    {
        match write_again(&mut self.writer, piece) {
            Ok(count) => Ok(count),
            Err(error) => {
                self.faults = count_error(self.faults, &error);
                Err(WriteError::Failed)
            }
        }
    }
}

/// Writes as the writer does, and again where a signal interrupted that. It is an error where the writer
/// takes nothing of the piece.
/// Where a signal interrupted it 2^64 - 1 times, the call timed out.
pub(crate) fn write_again<W: Write>(writer: &mut W, piece: &[u8]) -> io::Result<usize>
    ensures some { IfOk result (λ n. 0 < n) }
    ensures bound { WritesAtMost result piece.now }
    ensures bytes { WriteAppends (W.contents writer.old) (W.contents writer.new) result piece.now }
    ensures retried { IfErr result (λ error. error_kind error ≢ ErrorKind.Interrupted) }
{
    for _ in 0..u64::MAX {
        match writer.write(piece) {
            Ok(0) => return Err(io::Error::from(ErrorKind::WriteZero)),
            Err(error) if error.kind() == ErrorKind::Interrupted => {}
            other => return other,
        }
    }
    Err(io::Error::from(ErrorKind::TimedOut))
}
