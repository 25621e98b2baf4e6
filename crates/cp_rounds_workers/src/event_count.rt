//! A count for which threads wait.

use std::hint;
use std::sync::Wait;
use std::sync::atomic::{AtomicU64, Ordering};

// How many times a thread checks for a change before it sleeps: for 50 to 250 microseconds. In that
// time the calling thread makes the kernel turns of a large round and begins the next one, so that
// no thread has to be woken for it.
const LOOKS: u32 = 50_000;

/// How often something has happened, for threads that wait until it happens again.
#[derive(Drop)]
pub struct EventCount {
    count: AtomicU64,
    asleep: AtomicU64,
}

impl EventCount {
    /// A count of what hasn't happened yet.
    pub fn new() -> EventCount {
        EventCount {
            count: AtomicU64::new(0),
            asleep: AtomicU64::new(0),
        }
    }

    /// The number of times that it has happened.
    pub fn count(&self) -> u64 {
        self.count.load(Ordering::SeqCst)
    }

    /// Counts from 0 again. No thread may wait.
    pub fn reset(&self) {
        self.count.store(0, Ordering::SeqCst);
    }

    /// Counts once more, and wakes the threads that wait.
    pub fn advance(&self) {
        self.count.fetch_add(1, Ordering::SeqCst);
        self.wake();
    }

    /// Counts up to this number, and wakes the threads that wait. No other thread may count.
    pub fn advance_to(&self, count: u64) {
        self.count.store(count, Ordering::SeqCst);
        self.wake();
    }

    fn wake(&self) {
        if self.asleep.load(Ordering::SeqCst) > 0 {
            self.count.wake_all();
        }
    }

    /// Waits until the count is no longer `seen`: looks for a while, and then sleeps.
    pub fn wait<R: Wait>(&self, rt: &R, seen: u64) {
        for _look in 0..LOOKS {
            if self.count() != seen {
                return;
            }
            hint::spin_loop();
        }
        self.asleep.fetch_add(1, Ordering::SeqCst);
        self.count.park(rt, (seen % 4_294_967_296) as u32);
        self.asleep.fetch_sub(1, Ordering::SeqCst);
    }
}
