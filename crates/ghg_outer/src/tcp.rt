// Connections over TCP, which are the trusted edge.
ghost use Rattle.std.specs.Prelude.{◌≡◌, ◌≢◌, ◌<◌, ◌≤◌, ◌↔◌, ◌*◌, ◌^◌, min, length, Some, IfOk, IfErr, IsOk, IsErr, IsTrue, OnErr, OnOk};
ghost use Rattle.std.specs.Duration.{as_nanos};
ghost use Rattle.std.specs.Io.{ReadsAtMost, WritesAtMost};
ghost use Rattle.std.specs.Io.KnownBytes.{ReadConsumes, WriteAppends};
ghost use Rattle.std.specs.IoError.{error_kind};
ghost use Rattle.ghg_outer.specs.Counts.{IsCounted};
ghost use Rattle.ghg_outer.specs.Doors.{IsKept, Opens};
ghost use Rattle.ghg_outer.specs.Tape.{IsAtEnd, Reads, Writes};
ghost use Rattle.ghg_outer.specs.Tcp.{IsShort};

use crate::streams::{count_error, read_again, write_again};
use crate::{Door, Failed, Sink, Source, Told, WriteError};
use std::alloc::AllocError;
use std::io;
use std::io::{ErrorKind, Read, Write};
use std::net::{Ipv4Addr, Net, OpenListener, OpenStream, Shutdown, TcpListener};
use std::thread::sleep;
use std::time::{Clock, Duration, Instant};

/// A connection over TCP, with a count of its errors. A call that a signal interrupted is made again, and is
/// no error. Where the peer takes nothing of a piece, that is an error, and so is a call that has waited for
/// the peer as long as it may, or on which no time-out can be set.
///
/// It is part of the trusted edge and tells nothing of its bytes. It is proved that the count rose where an
/// error is answered, and that each call gives and takes the bytes of a stream that tells them.
#[derive(Drop)]
pub struct TcpLink<C: Drop, S: Drop> {
    clock: C,
    stream: S,
    // How long its calls may still wait for the peer.
    left: Duration,
    faults: u64,
}

impl<C: Drop, S: Drop> TcpLink<C, S> {
    // A link over a new connection.
    fn new(clock: C, stream: S) -> TcpLink<C, S>
        ensures { result.faults ≡ 0 }
    {
        TcpLink {
            clock,
            stream,
            left: Duration::from_secs(DEADLINE),
            faults: 0,
        }
    }
}

impl<C: Drop, S: Drop> Told for TcpLink<C, S> {
    ghost use Rattle.ghg_outer.specs.Tcp.{tcp_tape};

    ghost tape = { tcp_tape };
}

impl<C: Clock + Drop, S: Read + OpenStream + Drop> Source for TcpLink<C, S> {
    ghost use Rattle.ghg_outer.specs.Tcp.{read_tape};

    fn read(&mut self, buf: &mut [u8]) -> Result<usize, Failed>
        requires { 0 < length buf.old }
        ensures bound { ReadsAtMost result buf.new }
        ensures read { Reads (read_tape S.remaining self.old) (read_tape S.remaining self.new)
            result buf.new }
        ensures end { IfOk result (λ n. n ≡ 0 → IsAtEnd (read_tape S.remaining self.new)) }
        ensures counted { IsCounted (read_tape S.remaining self.old).faults
            (read_tape S.remaining self.new).faults (IsErr result) }
    {
        let began = Instant::now(&self.clock);
        let outcome = read_within(&mut self.stream, self.left, buf);
        self.left = left_after(&self.clock, began, self.left);
        match outcome {
            Ok(count) => Ok(count),
            Err(error) => {
                self.faults = count_error(self.faults, &error);
                Err(Failed)
            }
        }
    }
}

impl<C: Clock + Drop, S: Write + OpenStream + Drop> Sink for TcpLink<C, S> {
    ghost use Rattle.ghg_outer.specs.Tcp.{write_tape};

    fn write(&mut self, piece: &[u8]) -> Result<usize, WriteError>
        requires { 0 < length piece.now }
        ensures some { IfOk result (λ n. 0 < n) }
        ensures bound { IfOk result (λ n. n ≤ length piece.now) }
        ensures wrote { Writes (write_tape S.contents self.old) (write_tape S.contents self.new)
            result piece.now }
        ensures counted { IsCounted (write_tape S.contents self.old).faults
            (write_tape S.contents self.new).faults (IsErr result) }
        ensures only { IfErr result (λ error. error ≡ WriteError.Failed) }
    {
        let began = Instant::now(&self.clock);
        let outcome = write_within(&mut self.stream, self.left, piece);
        self.left = left_after(&self.clock, began, self.left);
        match outcome {
            Ok(count) => Ok(count),
            Err(error) => {
                self.faults = count_error(self.faults, &error);
                Err(WriteError::Failed)
            }
        }
    }
}

/// Connections on a port of loopback, with a count of errors.
///
/// It is part of the trusted edge. It tells the port that it opened last, for which it holds a listener, and
/// nothing of its links. It is proved that the count rose where an error is answered.
#[derive(Drop)]
pub struct TcpDoor<R: Net + Drop> {
    runtime: R,
    // The listener, and the port that it was opened at.
    listening: Option<(R::Listener, u16)>,
    faults: u64,
}

impl<R: Net + Drop> TcpDoor<R> {
    ghost use Rattle.std.specs.Prelude.{None};
    ghost use Rattle.ghg_outer.specs.Tcp.{tcp_register};

    /// A door whose port is closed, with no fault yet.
    pub fn new(runtime: R) -> TcpDoor<R>
        ensures port { (tcp_register result).port ≡ None }
        ensures faults { (tcp_register result).faults ≡ 0 }
    {
        TcpDoor {
            runtime,
            listening: None,
            faults: 0,
        }
    }
}

impl<R: Net + Clock + Copy + Drop> Door for TcpDoor<R> {
    type Link = TcpLink<R, R::Stream>;

    ghost use Rattle.ghg_outer.specs.Tcp.{tcp_register};

    ghost register = { tcp_register };

    fn listen(&mut self, port: u16) -> Result<(), Failed>
        ensures opened { OnOk result (Opens (tcp_register self.old) (tcp_register self.new) port) }
        ensures port { OnOk result ((tcp_register self.new).port ≡ Some port) }
        ensures kept { OnErr result (IsKept (tcp_register self.old) (tcp_register self.new)) }
        ensures counted { IsCounted (tcp_register self.old).faults (tcp_register self.new).faults
            (IsErr result) }
    {
        match TcpListener::bind(&self.runtime, (Ipv4Addr::LOCALHOST, port)) {
            Ok(listener) => {
                self.listening = Some((listener, port));
                Ok(())
            }
            Err(_) => {
                self.faults = self.faults.saturating_add(1);
                Err(Failed)
            }
        }
    }

    fn next(&mut self) -> Result<TcpLink<R, R::Stream>, Failed> {
        if let Some((listener, _)) = &self.listening
            && let Ok(stream) = accept_again(&self.runtime, listener)
        {
            return Ok(TcpLink::new(self.runtime, stream));
        }
        self.faults = self.faults.saturating_add(1);
        Err(Failed)
    }

    /// Takes no memory. What the peer still sends is read past, so that the reply is not taken from it.
    fn finish(&mut self, link: TcpLink<R, R::Stream>) -> Result<(), AllocError>
        ensures ok { IsOk result }
        ensures same { self.new ≡ self.old }
    {
        let mut stream = link.stream;
        let _ = stream.shutdown(Shutdown::Write);
        let _ = read_past(&self.runtime, &mut stream);
        Ok(())
    }
}

// How many seconds a read or a write waits for a peer. Connections are served one after the other, so one
// that stays silent would keep all others waiting.
const PATIENCE: u64 = 30;

// How many seconds all reads and writes of a connection wait for its peer. The time in which a request is
// answered is not among them.
const DEADLINE: u64 = 120;

// How many seconds the end of a connection waits in all for what the peer still sends.
const FAREWELL: u64 = 2;

// How many milliseconds pass before a system that was short of something is asked for a connection again.
const PAUSE: u64 = 100;

const ENOMEM: i32 = 12;

const ENFILE: i32 = 23;

const EMFILE: i32 = 24;

const ENOBUFS: i32 = 105;

// Reads, and waits no longer for the peer than is left.
fn read_within<S: Read + OpenStream>(
    stream: &mut S,
    left: Duration,
    buf: &mut [u8],
) -> io::Result<usize>
    ensures bound { ReadsAtMost result buf.new }
    ensures bytes { ReadConsumes (S.remaining stream.old) (S.remaining stream.new) result buf.new }
    ensures retried { IfErr result (λ error. error_kind error ≢ ErrorKind.Interrupted) }
{
    match stream.set_read_timeout(Some(patience(left))) {
        Ok(()) => read_again(stream, buf),
        Err(_) => Err(io::Error::from(ErrorKind::TimedOut)),
    }
}

// Writes, and waits no longer for the peer than is left.
fn write_within<S: Write + OpenStream>(
    stream: &mut S,
    left: Duration,
    piece: &[u8],
) -> io::Result<usize>
    ensures some { IfOk result (λ n. 0 < n) }
    ensures bound { WritesAtMost result piece.now }
    ensures bytes { WriteAppends (S.contents stream.old) (S.contents stream.new) result piece.now }
    ensures retried { IfErr result (λ error. error_kind error ≢ ErrorKind.Interrupted) }
{
    match stream.set_write_timeout(Some(patience(left))) {
        Ok(()) => write_again(stream, piece),
        Err(_) => Err(io::Error::from(ErrorKind::TimedOut)),
    }
}

// How long one call may wait, of what is left for all. No time-out can be set to nothing.
fn patience(left: Duration) -> Duration
    ensures { as_nanos result ≡ min (as_nanos left) (30 * 10 ^ 9) }
{
    left.min(Duration::from_secs(PATIENCE))
}

// What is left after a call that began then: nothing if the clock does not tell.
fn left_after<C: Clock>(clock: &C, began: io::Result<Instant>, left: Duration) -> Duration
    ensures { as_nanos result ≤ as_nanos left }
{
    match spent_since(clock, began) {
        Ok(spent) => left.saturating_sub(spent),
        Err(_) => Duration::ZERO,
    }
}

fn spent_since<C: Clock>(clock: &C, began: io::Result<Instant>) -> io::Result<Duration> {
    began?.elapsed(clock)
}

// The next connection. One that a signal interrupted, or that its peer gave up, is passed over. If the system
// is short of something, it is asked again after a pause.
// Where that was so 2^64 - 1 times, the call timed out.
fn accept_again<C: Clock, L: OpenListener>(clock: &C, listener: &L) -> io::Result<L::Stream>
    ensures retried { IfErr result (λ error. error_kind error ≢ ErrorKind.Interrupted) }
    ensures waited { IfErr result (λ error. IsShort error → ⊥) }
{
    for _ in 0..u64::MAX {
        match listener.accept() {
            Ok((stream, _)) => return Ok(stream),
            Err(error) if is_short(&error) => sleep(clock, Duration::from_millis(PAUSE)),
            Err(error) => match error.kind() {
                ErrorKind::Interrupted | ErrorKind::ConnectionAborted => {}
                _ => return Err(error),
            },
        }
    }
    Err(io::Error::new(ErrorKind::TimedOut, "no connection came"))
}

fn is_short(error: &io::Error) -> bool
    ensures { IsTrue result ↔ IsShort error.now }
{
    matches!(
        error.raw_os_error(),
        Some(ENOMEM | ENFILE | EMFILE | ENOBUFS)
    )
}

// Reads what a peer still sends, up to its end or while the farewell lasts by the clock. A connection that
// is closed with bytes unread is reset, and a reset may take the reply away before the peer reads it.
fn read_past<C: Clock, S: Read + OpenStream>(clock: &C, stream: &mut S) -> io::Result<()> {
    let start = Instant::now(clock)?;
    let mut buf = [0; 16_384];
    for _ in 0..u64::MAX {
        let Some(left) = Duration::from_secs(FAREWELL).checked_sub(start.elapsed(clock)?) else {
            return Ok(());
        };
        stream.set_read_timeout(Some(left))?;
        match stream.read(&mut buf) {
            Ok(0) => return Ok(()),
            Err(error) if error.kind() != ErrorKind::Interrupted => return Err(error),
            _ => {}
        }
    }
    Ok(())
}
