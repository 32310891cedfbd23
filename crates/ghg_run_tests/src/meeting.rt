//! A gate that counts its calls, and at which places wait for others.

use ghg_workers::Gate;
use std::sync::atomic::{AtomicBool, AtomicU64, Ordering};

const TURNS: u64 = 100_000_000;

/// Counts its calls. Of the first four places, once so many calls were made before, some wait until the first
/// so many were called.
#[derive(Drop)]
pub struct Meeting {
    before: u64,
    waits: [bool; 4],
    first: usize,
    calls: AtomicU64,
    called: [AtomicBool; 4],
    // A wait ran out.
    missed: AtomicBool,
}

impl Meeting {
    /// A gate at which, after so many calls, the places that `waits` has true wait until the first so many
    /// places were called.
    pub fn new(before: u64, waits: [bool; 4], first: usize) -> Meeting {
        Meeting {
            before,
            waits,
            first,
            calls: AtomicU64::new(0),
            called: [
                AtomicBool::new(false),
                AtomicBool::new(false),
                AtomicBool::new(false),
                AtomicBool::new(false),
            ],
            missed: AtomicBool::new(false),
        }
    }

    /// How often it was called.
    pub fn calls(&self) -> u64 {
        self.calls.load(Ordering::SeqCst)
    }

    /// Whether the first places were called, and no wait ran out.
    pub fn have_met(&self) -> bool {
        self.were_called() && !self.missed.load(Ordering::SeqCst)
    }

    fn were_called(&self) -> bool {
        for place in 0..4 {
            if place < self.first && !self.called[place].load(Ordering::SeqCst) {
                return false;
            }
        }
        true
    }

    fn wait(&self) {
        for _ in 0..TURNS {
            if self.were_called() {
                return;
            }
        }
        self.missed.store(true, Ordering::SeqCst);
    }
}

impl Gate for Meeting {
    fn at(&self, place: u64) {
        let before = self.calls.fetch_add(1, Ordering::SeqCst);
        if before < self.before || place >= 4 {
            return;
        }
        self.called[place as usize].store(true, Ordering::SeqCst);
        if self.waits[place as usize] {
            self.wait();
        }
    }
}
