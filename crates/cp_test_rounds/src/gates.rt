//! Hooks at which turns on several threads wait for each other, but not forever.

use cp_rounds::gate::TurnGate;
use std::sync::atomic::{AtomicU64, Ordering};

// A counter that others read.
#[derive(Drop)]
struct Counter(AtomicU64);

impl Counter {
    const fn new() -> Counter {
        Counter(AtomicU64::new(0))
    }

    // Counts a call and returns how many calls there were before.
    fn count(&self) -> u64 {
        self.0.fetch_add(1, Ordering::SeqCst)
    }

    fn get(&self) -> u64 {
        self.0.load(Ordering::SeqCst)
    }

    // Reads until the count is above `number`, at most a million times.
    fn passes(&self, number: u64) -> bool {
        for _ in 0..1_000_000 {
            if self.get() > number {
                return true;
            }
        }
        false
    }
}

// Whether each counter has counted something.
fn each_has_counted(counters: &[Counter]) -> bool {
    for counter in counters {
        if counter.get() == 0 {
            return false;
        }
    }
    true
}

// Two turns that are made once a round, and how many times each has seen the other begin.
#[derive(Drop)]
pub(crate) struct Meeting {
    begun: [Counter; 2],
    seen: [Counter; 2],
}

impl Meeting {
    pub(crate) const fn new() -> Meeting {
        Meeting {
            begun: [Counter::new(), Counter::new()],
            seen: [Counter::new(), Counter::new()],
        }
    }

    // Whether each turn has seen the other begin.
    pub(crate) fn is_seen_by_both(&self) -> bool {
        each_has_counted(&self.seen)
    }

    fn first(&self) {
        let [first, second] = &self.begun;
        let [seen, _] = &self.seen;
        if second.passes(first.count()) {
            seen.count();
        }
    }

    fn second(&self) {
        let [first, second] = &self.begun;
        let [_, seen] = &self.seen;
        if first.passes(second.count()) {
            seen.count();
        }
    }
}

// The private turns of processes 2 and 3 meet. A hook that allows batching has to be called only
// where threads share turns.
#[derive(Drop)]
pub(crate) struct PrivateTurnsMeet {
    pub(crate) meeting: Meeting,
    pub(crate) allows_batching: bool,
}

impl TurnGate for PrivateTurnsMeet {
    fn begin(&self, p: usize) {
        match p {
            2 => self.meeting.first(),
            3 => self.meeting.second(),
            _ => {}
        }
    }

    fn allows_batching(&self) -> bool {
        self.allows_batching
    }
}

// The kernel turn of process 1 meets the private turn of process 2.
#[derive(Drop)]
pub(crate) struct WavesMeet(pub(crate) Meeting);

impl TurnGate for WavesMeet {
    fn begin(&self, p: usize) {
        if p == 2 {
            self.0.first();
        }
    }

    fn kernel(&self, p: usize) {
        if p == 1 {
            self.0.second();
        }
    }
}

// In each round, a different one of processes 2 to 5 waits until all four have begun.
#[derive(Drop)]
pub(crate) struct EachWaits {
    begun: [Counter; 4],
    seen: [Counter; 4],
    allows_batching: bool,
}

impl EachWaits {
    pub(crate) const fn new(allows_batching: bool) -> EachWaits {
        EachWaits {
            allows_batching,
            begun: [
                Counter::new(),
                Counter::new(),
                Counter::new(),
                Counter::new(),
            ],
            seen: [
                Counter::new(),
                Counter::new(),
                Counter::new(),
                Counter::new(),
            ],
        }
    }

    // Whether each process has seen in some round that all have begun.
    pub(crate) fn each_has_seen_all(&self) -> bool {
        each_has_counted(&self.seen)
    }

    fn all_pass(&self, number: u64) -> bool {
        self.begun.iter().all(|begun| begun.passes(number))
    }
}

impl TurnGate for EachWaits {
    fn begin(&self, p: usize) {
        let place = p.wrapping_sub(2);
        if let (Some(begun), Some(seen)) = (self.begun.get(place), self.seen.get(place)) {
            let before = begun.count();
            if (before % 4 + 1) % 4 == place as u64 && self.all_pass(before) {
                seen.count();
            }
        }
    }

    fn allows_batching(&self) -> bool {
        self.allows_batching
    }
}

// How many times the hook was called for a private and for a kernel turn of each number from 0 to
// 3.
#[derive(Drop)]
pub(crate) struct Counting {
    private: [Counter; 4],
    kernel: [Counter; 4],
}

impl Counting {
    pub(crate) const fn new() -> Counting {
        Counting {
            private: [
                Counter::new(),
                Counter::new(),
                Counter::new(),
                Counter::new(),
            ],
            kernel: [
                Counter::new(),
                Counter::new(),
                Counter::new(),
                Counter::new(),
            ],
        }
    }

    pub(crate) fn calls(&self) -> [(u64, u64); 4] {
        let [a, b, c, d] = &self.private;
        let [e, f, g, h] = &self.kernel;
        [
            (a.get(), e.get()),
            (b.get(), f.get()),
            (c.get(), g.get()),
            (d.get(), h.get()),
        ]
    }
}

impl TurnGate for Counting {
    fn begin(&self, p: usize) {
        if let Some(calls) = self.private.get(p) {
            calls.count();
        }
    }

    fn kernel(&self, p: usize) {
        if let Some(calls) = self.kernel.get(p) {
            calls.count();
        }
    }
}

// Counts kernel turns, and says that nobody waits for its calls.
#[derive(Drop)]
pub(crate) struct CountingKernelTurns(pub(crate) Counting);

impl TurnGate for CountingKernelTurns {
    fn begin(&self, _p: usize) {}

    fn kernel(&self, p: usize) {
        self.0.kernel(p);
    }

    fn allows_batching(&self) -> bool {
        true
    }
}
