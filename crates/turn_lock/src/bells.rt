//! Bells on which the passes sleep that wait: one for all that have no ticket yet, and others for those that wait for the
//! turn of theirs, so that the end of a turn wakes one that can go on and not all.
use std::array;
use std::sync::Wait;
use std::sync::atomic::{AtomicBool, AtomicU64, Ordering};

/// How many bells a lock has. As many passes can wait before two of them sleep on one.
const BELLS: u64 = 64;

/// Who sleeps on a bell looks at its low 32 bits, which are the rest by this number.
const LOW_BITS: u64 = 1 << 32;

/// A bell for each ticket modulo their number, the common bell of those without a ticket, and whether one of these has
/// asked for it since it rang. A bell counts how often it rang, which is no part of what the lock is: no clause sees it.
#[derive(Drop)]
pub(crate) struct Bells {
    rings: [AtomicU64; BELLS as usize],
    common: AtomicU64,
    asked: AtomicBool,
}

impl Bells {
    /// Bells that never rang.
    pub(crate) fn new() -> Bells {
        Bells {
            rings: array::from_fn(|_| AtomicU64::new(0)),
            common: AtomicU64::new(0),
            asked: AtomicBool::new(false),
        }
    }

    fn of(&self, ticket: u64) -> &AtomicU64 {
        &self.rings[(ticket % BELLS) as usize]
    }

    /// How often the bell of a ticket rang.
    pub(crate) fn heard(&self, ticket: u64) -> u64 {
        self.of(ticket).load(Ordering::SeqCst)
    }

    /// Sleeps until the bell of a ticket rings, unless it has rung more than `heard` times. It may also return for no
    /// reason.
    pub(crate) fn sleep<R: Wait>(&self, rt: &R, ticket: u64, heard: u64) {
        self.of(ticket).park(rt, (heard % LOW_BITS) as u32);
    }

    /// Rings the bell of a ticket: who sleeps on it wakes, and who is about to sleep doesn't.
    pub(crate) fn ring(&self, ticket: u64) {
        let bell = self.of(ticket);
        bell.fetch_add(1, Ordering::SeqCst);
        bell.wake_all();
    }

    /// Asks for the next ring of the common bell, and answers how often that bell had rung before. Who asks looks at the lock
    /// once more before it sleeps.
    pub(crate) fn ask(&self) -> u64 {
        let heard = self.common.load(Ordering::SeqCst);
        self.asked.store(true, Ordering::SeqCst);
        heard
    }

    /// Sleeps until the common bell rings, unless it has rung more than `heard` times. It may also return for no reason. Who
    /// returns asks again before it draws: the ring may be the only one for several sleepers.
    pub(crate) fn sleep_without<R: Wait>(&self, rt: &R, heard: u64) {
        self.common.park(rt, (heard % LOW_BITS) as u32);
    }

    /// Rings the common bell if somebody asked for it, and wakes one sleeper, who asks again. The flag goes down before the
    /// ring: who puts it up later finds it up at a later end of a turn, and who put it up before doesn't sleep on the count
    /// that it heard, or sleeps already.
    pub(crate) fn ring_common(&self) {
        if self.asked.load(Ordering::SeqCst) {
            self.asked.store(false, Ordering::SeqCst);
            self.common.fetch_add(1, Ordering::SeqCst);
            self.common.wake_one();
        }
    }
}
