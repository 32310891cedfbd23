//! Layers that several workers evaluate: two of them meet, one who is held leaves the rest to the other, and
//! the gate is told of each evaluation before it begins.

ghost use Rattle.std.specs.Prelude.{◌≡◌, ◌<◌, ◌≤◌, ⊤};

use crate::cases::check;
use ghg_cell::Ticket;
use ghg_steps::Steps;
use ghg_workers::{Gate, Layer, Workers, evaluate_layer};
use std::alloc::{AllocError, Global};
use std::marker::Brand;
use std::process::Abort;
use std::sync::atomic::{AtomicBool, Ordering};
use std::sync::ledger::{Blank, Ledger};
use std::thread::Threads;

const TURNS: u64 = 100_000_000;

// Four places, of which some wait until the first so many have come.
#[derive(Drop)]
struct Meeting {
    came: [AtomicBool; 4],
    waits: [bool; 4],
    first: usize,
    // A wait ran out.
    missed: AtomicBool,
    // A node was evaluated before the gate was told of it.
    untold: AtomicBool,
}

impl Meeting {
    fn new(waits: [bool; 4], first: usize) -> Meeting {
        Meeting {
            came: [
                AtomicBool::new(false),
                AtomicBool::new(false),
                AtomicBool::new(false),
                AtomicBool::new(false),
            ],
            waits,
            first,
            missed: AtomicBool::new(false),
            untold: AtomicBool::new(false),
        }
    }

    fn has_come(&self, place: usize) -> bool
        requires { place < 4 }
    {
        self.came[place].load(Ordering::SeqCst)
    }

    fn have_come(&self) -> bool {
        for place in 0..4 {
            if place < self.first && !self.has_come(place) {
                return false;
            }
        }
        true
    }

    fn wait(&self) {
        for _ in 0..TURNS {
            if self.have_come() {
                return;
            }
        }
        self.missed.store(true, Ordering::SeqCst);
    }
}

impl Gate for Meeting {
    fn at(&self, place: u64) {
        if place >= 4 {
            return;
        }
        self.came[place as usize].store(true, Ordering::SeqCst);
        if self.waits[place as usize] {
            self.wait();
        }
    }
}

// Four nodes, each of which gives its place.
#[derive(Drop)]
struct Places<'a> {
    meeting: &'a Meeting,
}

impl<'a> Layer for Places<'a> {
    type Reader = ();

    type Outcome = usize;

    ghost count = { λ _. 4 };

    ghost outcome = { λ _ place outcome. outcome ≡ place };

    ghost suits = { λ _ _. ⊤ };

    ghost ready = { λ _. ⊤ };

    fn count(&self) -> usize {
        4
    }

    fn reader(&self, _alloc: Global) {}

    fn evaluate(
        &self,
        _alloc: Global,
        _reader: &mut (),
        _ticket: Ticket,
        place: usize,
    ) -> Result<usize, AllocError> {
        if !self.meeting.has_come(place) {
            self.meeting.untold.store(true, Ordering::SeqCst);
        }
        Ok(place)
    }
}

fn evaluated<T: Threads + Sync, L: Ledger>(
    rt: &T,
    alloc: Global,
    meeting: &Meeting,
    workers: u32,
    blank: Blank,
) -> Result<Vec<Option<usize>>, AllocError>
    requires workers { (1 ≤ workers) × (workers ≤ 64) }
    requires name { blank.name ≡ L.name }
    requires parts { blank.parts ≡ L.parts }
    requires some { 0 < blank.parts }
{
    let workers = Workers {
        threads: rt,
        count: workers,
        gate: meeting,
    };
    let layer = Places { meeting };
    evaluate_layer(alloc, &workers, &layer, 0, &mut Steps::<L>::new(blank))
}

// Evaluates the four nodes by so many workers.
fn check_places(rt: &(impl Abort + Threads + Sync), alloc: Global, meeting: &Meeting, workers: u32)
    requires { (1 ≤ workers) × (workers ≤ 64) }
{
    let slots = evaluated::<_, Brand>(rt, alloc, meeting, workers, Blank::new(1));
    let slots = slots.ok().expect(rt, "memory");
    check(rt, slots.len() == 4, "four slots");
    for (place, slot) in slots.iter().enumerate() {
        check(rt, *slot == Some(place), "what the place gives");
    }
    check(rt, !meeting.missed.load(Ordering::SeqCst), "all came");
    check(rt, !meeting.untold.load(Ordering::SeqCst), "told first");
}

#[test]
fn two_places_meet(rt: HostRuntime) {
    let meeting = Meeting::new([true, true, false, false], 2);
    check_places(&rt, rt.alloc(), &meeting, 2);
}

// However a layer is shared out beforehand, one of these fails.
const HELD: [[bool; 4]; 4] = [
    [true, false, false, false],
    [false, true, false, false],
    [false, false, true, false],
    [false, false, false, true],
];

#[test]
fn one_waits_for_the_rest(rt: HostRuntime) {
    for waits in HELD {
        check_places(&rt, rt.alloc(), &Meeting::new(waits, 4), 2);
    }
}

#[test]
fn any_number_of_workers_gives_the_same(rt: HostRuntime) {
    for workers in [1u32, 2, 7, 64] {
        check_places(&rt, rt.alloc(), &Meeting::new([false; 4], 0), workers);
    }
}
