//! Doors and links, in memory and over TCP.

ghost use Rattle.std.specs.Prelude.{◌<◌, All, length};
ghost use Rattle.ghg_outer.specs.Doors.{IsFreshLink};

use crate::cases::{bytes, check, faults, word};
use ghg_outer::{
    Door, Failed, MemoryDoor, MemoryLink, Sink, Source, SteadyLink, TcpDoor, WriteError,
};
use std::alloc::{AllocError, Global};
use std::io::{Read, Write};
use std::net::{Ipv4Addr, TcpStream};
use std::test::Fail;

// What two bytes of room, a piece and two bytes of room again came to.
type Exchange = (
    Result<usize, Failed>,
    Result<usize, WriteError>,
    Result<usize, Failed>,
);

// Whether a read, a write and a read through the bounds come to this.
fn exchanges<T: Source + Sink>(link: &mut T, piece: &[u8], want: &Exchange) -> bool
    requires { 0 < length piece.now }
{
    let mut buf = [0; 2];
    let first = link.read(&mut buf);
    let wrote = link.write(piece);
    (first, wrote, link.read(&mut buf)) == *want
}

// Two bytes, a piece of one byte, and the last byte.
const WHOLE: Exchange = (Ok(2), Ok(1), Ok(1));

#[test]
fn links_are_read_and_written(rt: HostRuntime) {
    let mut link = SteadyLink::new(rt.alloc(), bytes(&rt, rt.alloc(), b"abc"));
    check(&rt, exchanges(&mut link, b"x", &WHOLE), "an exchange");
    check(&rt, word(link.written()) == "x", "a piece");
}

#[test]
fn a_link_fails_at_its_faults(rt: HostRuntime) {
    let failing = faults(&rt, rt.alloc(), &[2, 6]);
    let mut link = MemoryLink::new(rt.alloc(), bytes(&rt, rt.alloc(), b"abc"), failing);
    let first = (Ok(2), Err(WriteError::Failed), Ok(1));
    check(
        &rt,
        exchanges(&mut link, b"x", &first),
        "the second call fails",
    );
    let then = (Ok(0), Ok(1), Err(Failed));
    check(
        &rt,
        exchanges(&mut link, b"x", &then),
        "the sixth call fails",
    );
}

// Whether a door gives a link that this piece is written to, and takes it back.
fn serves<D: Door>(door: &mut D, piece: &[u8], want: &Exchange) -> bool
    requires { 0 < length piece.now }
{
    match door.next() {
        Ok(mut link) => {
            let exchanged = exchanges(&mut link, piece, want);
            door.finish(link).is_ok() && exchanged
        }
        Err(Failed) => false,
    }
}

// A door with one link, whose second call fails, that of `next`.
fn door_with_one_link(alloc: Global) -> Result<MemoryDoor, AllocError> {
    let link = MemoryLink::new(alloc, b"abc".to_vec(alloc)?, Vec::new(alloc));
    let links = Vec::from_array(alloc, [link])?;
    Ok(MemoryDoor::new(alloc, links, [2].to_vec(alloc)?))
}

#[test]
fn doors_give_their_links_once(rt: HostRuntime) {
    let mut door = door_with_one_link(rt.alloc()).ok().expect(&rt, "memory");
    check(&rt, door.listen(8000).is_ok(), "a port");
    check(
        &rt,
        !serves(&mut door, b"x", &WHOLE),
        "the second call fails",
    );
    check(&rt, serves(&mut door, b"x", &WHOLE), "a link");
    check(&rt, !serves(&mut door, b"x", &WHOLE), "no second link");
    check(&rt, door.finished().len() == 1, "the link is taken back");
}

// In one thread: the client connects and writes before the door is asked for it, and reads at the end.
#[test]
fn a_client_is_served_over_tcp(rt: HostRuntime) -> Result<(), Fail> {
    let mut door = TcpDoor::new(&rt);
    check(&rt, door.next().is_err(), "no port");
    check(&rt, door.listen(21_127).is_ok(), "a port");
    let mut client = TcpStream::connect(&rt, (Ipv4Addr::LOCALHOST, 21_127))?;
    client.write_all(b"abc")?;
    check(
        &rt,
        serves(&mut door, b"pong", &(Ok(2), Ok(4), Ok(1))),
        "a client",
    );
    let mut reply = Vec::new(rt.alloc());
    client.read_to_end(&mut reply)?;
    check(&rt, word(&reply) == "pong", "a reply");
    Ok(())
}
