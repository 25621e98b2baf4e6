//! Progress: the round that is being made, or how many states have been seen, on a line of standard
//! error, once a second.
#![tactic(auto)]

use cp_rounds::gate::TurnGate;
use cp_search::search::Watch;
use std::io::{self, Write};
use std::rt::Clock;
use std::sync::atomic::{AtomicBool, AtomicU64, Ordering};

// How often the line is shown, in milliseconds.
const PERIOD: u64 = 1_000;

/// A gate that counts rounds and shows the round that is being made, if that is asked for. An
/// outcome may go back and make some rounds again, which count again. A search shows its states.
#[derive(Drop)]
pub struct Progress<'a, H> {
    rt: &'a H,
    is_asked_for: bool,
    /// The number of rounds that were begun.
    round: AtomicU64,
    /// When the line is to be shown next, in milliseconds of the clock.
    next: AtomicU64,
    /// Whether the line is shown now.
    is_shown: AtomicBool,
}

// The time in milliseconds from an arbitrary start, or 0 if there is no clock.
fn now(clock: &impl Clock) -> u64 {
    match clock.monotonic() {
        Ok(time) => u64::try_from(time.as_millis()).unwrap_or(0),
        Err(_) => 0,
    }
}

impl<'a, H: Clock + Eprint> Progress<'a, H> {
    /// The gate of a run that begins now.
    pub fn of(rt: &'a H, is_asked_for: bool) -> Progress<'a, H> {
        let next = if is_asked_for {
            now(rt).saturating_add(PERIOD)
        } else {
            u64::MAX
        };
        Progress {
            rt,
            is_asked_for,
            round: AtomicU64::new(0),
            next: AtomicU64::new(next),
            is_shown: AtomicBool::new(false),
        }
    }

    // Whether it is time to show the line, which will then be shown.
    fn is_due(&self) -> bool {
        let now = now(self.rt);
        if now < self.next.load(Ordering::SeqCst) {
            return false;
        }
        self.next
            .store(now.saturating_add(PERIOD), Ordering::SeqCst);
        self.is_shown.store(true, Ordering::SeqCst);
        true
    }

    // A round begins. Only one thread begins rounds.
    #[inline(never)]
    fn count(&self) {
        let round = self.round.fetch_add(1, Ordering::SeqCst).saturating_add(1);
        if self.is_due() {
            // Nobody misses what can't be written there.
            let _ = eprint!(self.rt; "\rround {round}");
        }
    }

    /// Erases the line.
    pub fn erase(&self) {
        if self.is_shown.swap(false, Ordering::SeqCst) {
            let _ = eprint!(self.rt; "\r\x1b[K");
        }
    }

    /// A writer that erases the line whenever it writes to another, since both may be shown
    /// on one terminal.
    pub fn beside<'p, W: Write>(&'p self, out: W) -> Beside<'p, 'a, H, W> {
        Beside {
            progress: self,
            out,
        }
    }
}

impl<H: Clock + Eprint + Sync> TurnGate for Progress<'_, H> {
    fn begin(&self, _p: usize) {}

    #[inline(always)]
    fn kernel(&self, p: usize) {
        if p == 1 && self.is_asked_for {
            self.count();
        }
    }

    // No thread waits for these calls.
    fn allows_batching(&self) -> bool {
        true
    }
}

impl<H: Clock + Eprint> Watch for Progress<'_, H> {
    fn note(&self, expanded: usize, seen: usize) {
        if self.is_asked_for && self.is_due() {
            let _ = eprint!(self.rt; "\r{expanded} of {seen} states");
        }
    }
}

/// A writer beside a line of progress.
#[derive(Drop)]
pub struct Beside<'p, 'a, H, W> {
    progress: &'p Progress<'a, H>,
    out: W,
}

impl<H: Clock + Eprint, W: Write> Write for Beside<'_, '_, H, W> {
    ghost contents = { λ beside. W.contents beside.out };

    fn write(&mut self, bytes: &[u8]) -> io::Result<usize> {
        self.progress.erase();
        self.out.write(bytes)
    }

    fn flush(&mut self) -> io::Result<()> {
        self.progress.erase();
        self.out.flush()
    }
}
