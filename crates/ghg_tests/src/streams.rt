//! Sources and sinks in memory and over streams.

ghost use Rattle.std.specs.Prelude.{◌<◌, length};

use crate::cases::{bytes, check, faults, word};
use ghg_outer::{
    Failed, InputSource, MemorySink, MemorySource, OutputSink, Sink, Source, SteadySink,
    SteadySource, WriteError,
};
use std::io;
use std::io::{ErrorKind, Read, Write};

// Three results of reads of at most two bytes each, and the first byte of the buffer behind them.
type Reads = ([Result<usize, Failed>; 3], u8);

// Whether three reads through the bound give this.
fn gives<S: Source>(source: &mut S, want: &Reads) -> bool {
    let mut buf = [0; 2];
    let first = source.read(&mut buf);
    let second = source.read(&mut buf);
    let third = source.read(&mut buf);
    [first, second, third] == want.0 && buf[0] == want.1
}

// Whether two writes through the bound give this.
fn takes<W: Sink>(sink: &mut W, piece: &[u8], want: &[Result<usize, WriteError>; 2]) -> bool
    requires { 0 < length piece.now }
{
    let first = sink.write(piece);
    [first, sink.write(piece)] == *want
}

// Two bytes, the last byte, and the end.
const WHOLE: Reads = ([Ok(2), Ok(1), Ok(0)], b'c');

#[test]
fn sources_give_their_bytes(rt: HostRuntime) {
    let mut steady = SteadySource::new(bytes(&rt, rt.alloc(), b"abc"));
    check(&rt, gives(&mut steady, &WHOLE), "a source without faults");
    let mut input = InputSource::new(b"abc".as_slice());
    check(&rt, gives(&mut input, &WHOLE), "an input");
}

#[test]
fn a_source_fails_at_its_faults(rt: HostRuntime) {
    let failing = faults(&rt, rt.alloc(), &[2, 4]);
    let mut source = MemorySource::new(bytes(&rt, rt.alloc(), b"abc"), failing);
    let first = ([Ok(2), Err(Failed), Ok(1)], b'c');
    check(&rt, gives(&mut source, &first), "the second call fails");
    let then = ([Err(Failed), Ok(0), Ok(0)], 0);
    check(&rt, gives(&mut source, &then), "the fourth call fails");
}

#[test]
fn sinks_keep_what_is_written(rt: HostRuntime) {
    let mut sink = SteadySink::new(rt.alloc());
    check(&rt, takes(&mut sink, b"ab", &[Ok(2), Ok(2)]), "two writes");
    check(&rt, word(sink.bytes()) == "abab", "both pieces");
}

#[test]
fn a_sink_fails_at_its_faults(rt: HostRuntime) {
    let mut sink = MemorySink::new(rt.alloc(), faults(&rt, rt.alloc(), &[1]));
    let want = [Err(WriteError::Failed), Ok(2)];
    check(&rt, takes(&mut sink, b"ab", &want), "the first call fails");
    check(&rt, word(sink.bytes()) == "ab", "one piece");
}

// A reader whose calls all fail.
#[derive(Drop)]
struct Broken;

impl Read for Broken {
    fn read(&mut self, _buf: &mut [u8]) -> io::Result<usize> {
        Err(io::Error::from(ErrorKind::BrokenPipe))
    }
}

#[test]
fn an_input_fails_as_its_reader(rt: HostRuntime) {
    let mut input = InputSource::new(Broken);
    let want = ([Err(Failed), Err(Failed), Err(Failed)], 0);
    check(&rt, gives(&mut input, &want), "each call fails");
}

#[test]
fn an_output_fails_where_there_is_no_room(rt: HostRuntime) {
    let mut room = [0; 3];
    let mut output = OutputSink::new(room.as_mut_slice());
    check(
        &rt,
        takes(&mut output, b"ab", &[Ok(2), Ok(1)]),
        "three bytes",
    );
    check(
        &rt,
        output.write(b"ab") == Err(WriteError::Failed),
        "no room",
    );
}

// A reader and a writer whose first two calls a signal interrupts, and which moves a byte at each later call.
#[derive(Drop)]
struct Interrupted {
    calls: u8,
}

impl Interrupted {
    fn is_interrupted(&mut self) -> bool {
        self.calls = self.calls.saturating_add(1);
        self.calls <= 2
    }
}

impl Read for Interrupted {
    fn read(&mut self, buf: &mut [u8]) -> io::Result<usize> {
        if self.is_interrupted() {
            return Err(io::Error::from(ErrorKind::Interrupted));
        }
        if buf.is_empty() {
            return Ok(0);
        }
        buf[0] = b'a';
        Ok(1)
    }
}

impl Write for Interrupted {
    fn write(&mut self, piece: &[u8]) -> io::Result<usize> {
        if self.is_interrupted() {
            return Err(io::Error::from(ErrorKind::Interrupted));
        }
        Ok(piece.len().min(1))
    }

    fn flush(&mut self) -> io::Result<()> {
        Ok(())
    }
}

#[test]
fn interrupted_calls_are_made_again(rt: HostRuntime) {
    let mut input = InputSource::new(Interrupted { calls: 0 });
    check(
        &rt,
        gives(&mut input, &([Ok(1), Ok(1), Ok(1)], b'a')),
        "reads",
    );
    let mut output = OutputSink::new(Interrupted { calls: 0 });
    check(&rt, takes(&mut output, b"ab", &[Ok(1), Ok(1)]), "writes");
}
