//! Pauses of a thread that waits for another.

use std::sync::Wait;
use std::thread::Parker;
use std::time::Duration;
use std::{hint, thread};

/// For so many looks in vain a thread spins: what it waits for is often there at once.
const SPINS: u32 = 16;

/// For so many more it leaves its processor to others, where another thread waits for it.
const YIELDS: u32 = 128;

/// The length of the first sleep in microseconds, by which each one is longer than the one before.
const SLEEP: u64 = 20;

/// How many sleeps grow.
const LONGER: u32 = 5;

/// How often a thread has looked in vain for what it waits for. The oftener, the longer its next pause.
#[derive(Drop)]
pub struct Backoff {
    looks: u32,

    // For so many looks in vain it stays awake.
    awake: u32,
}

impl Backoff {
    /// For a thread for which another one waits.
    pub fn eager() -> Backoff {
        Backoff {
            looks: 0,
            awake: SPINS + YIELDS,
        }
    }

    /// For a thread for which none waits. It sleeps soon: one that only looks slows the other one down with which it shares
    /// a processor.
    pub fn patient() -> Backoff {
        Backoff {
            looks: 0,
            awake: SPINS,
        }
    }

    /// Has looked, and pauses where it found nothing.
    pub fn looked<R: Wait>(&mut self, rt: &R, found: bool) {
        if found {
            self.looks = 0;
        } else {
            self.pause(rt);
        }
    }

    /// Has looked in vain, and pauses.
    pub fn pause<R: Wait>(&mut self, rt: &R) {
        if self.looks < SPINS {
            hint::spin_loop();
        } else if self.looks < self.awake {
            thread::yield_now();
        } else {
            sleep(rt, self.looks - self.awake);
        }
        if self.looks < self.awake.saturating_add(LONGER) {
            self.looks += 1;
        }
    }
}

// Sleeps behind so many sleeps. Nobody wakes the thread: a sleep by the clock would ask for a clock.
fn sleep<R: Wait>(rt: &R, before: u32) {
    Parker::new().park_timeout(rt, Duration::from_micros(SLEEP * (u64::from(before) + 1)));
}
