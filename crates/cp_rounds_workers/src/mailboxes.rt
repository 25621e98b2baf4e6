//! The places of the leases, and the loop of a thread.

ghost use Rattle.std.specs.Prelude.{◌≡◌, ◌<◌, IfOk, length};

use crate::event_count::EventCount;
use crate::lease::{SeatLease, Sheets};
use crate::work::Work;
use std::alloc::{AllocError, Global};
use std::sync::{Mutex, Wait};

// The place of one thread. A lease in it either waits for the thread or has come back. The next
// wave may begin while leases of the one before are still out, so there is room for two.
#[derive(Drop)]
struct Place<'a, C: Sheets> {
    even: Mutex<Option<SeatLease<'a, C>>>,
    odd: Mutex<Option<SeatLease<'a, C>>>,
    // A lease has been published here.
    published: EventCount,
}

impl<'a, C: Sheets> Place<'a, C> {
    // Where the lease of a wave is.
    fn of(&self, wave: usize) -> &Mutex<Option<SeatLease<'a, C>>> {
        if wave % 2 == 0 { &self.even } else { &self.odd }
    }
}

/// A place for the lease of each thread but the calling one.
#[derive(Drop)]
pub struct Mailboxes<'a, C: Sheets> {
    places: Vec<Place<'a, C>>,
    // A lease has come back.
    back: EventCount,
}

/// How far the calling thread has gone through the places.
#[derive(Drop)]
pub(crate) struct Sweep {
    place: usize,
    back: u64,
}

impl<'a, C: Sheets> Mailboxes<'a, C> {
    /// Mailboxes with this many places, all of them empty.
    ///
    /// # Errors
    ///
    /// `AllocError` if memory runs out.
    pub fn new(alloc: Global, threads: usize) -> Result<Mailboxes<'a, C>, AllocError>
        ensures { IfOk result (λ mailboxes. length mailboxes.places.items ≡ threads) }
    {
        let mut places = Vec::with_capacity(alloc, threads)?;
        for _place in 0..threads {
            places.push(Place {
                even: Mutex::new(None),
                odd: Mutex::new(None),
                published: EventCount::new(),
            })?;
        }
        Ok(Mailboxes {
            places,
            back: EventCount::new(),
        })
    }

    /// The number of places.
    pub fn places(&self) -> usize
        ensures { result ≡ length self.now.places.items }
    {
        self.places.len()
    }

    /// The count of the leases that have come back.
    pub fn back(&self) -> &EventCount {
        &self.back
    }

    /// Publishes a lease in a place, and wakes its thread. If there is no such place, the lease is lost.
    pub(crate) fn publish<R: Wait>(&self, rt: &R, place: usize, lease: SeatLease<'a, C>) {
        let Some(place) = self.places.get(place) else {
            return;
        };
        let wave = lease.wave();
        *place.of(wave).lock(rt) = Some(lease);
        place.published.advance();
    }

    /// The place and the count with which a sweep begins.
    pub(crate) fn sweep(&self) -> Sweep {
        Sweep {
            place: 0,
            back: self.back.count(),
        }
    }

    /// The next lease of a wave that is in its place, whether it has come back or was
    /// never taken. Waits until there is one.
    pub(crate) fn take_back<R: Wait>(
        &self,
        rt: &R,
        wave: usize,
        sweep: &mut Sweep,
    ) -> SeatLease<'a, C> {
        for _ in rt.forever() {
            let Some(place) = self.places.get(sweep.place) else {
                self.back.wait(rt, sweep.back);
                *sweep = self.sweep();
                continue;
            };
            sweep.place = sweep.place.wrapping_add(1);
            if let Some(lease) = place.of(wave).lock(rt).take() {
                return lease;
            }
        }
        unreachable!()
    }

    /// Works on each lease that is published in a place, until one of them sees a stop.
    pub fn serve<R: Wait, W: Work>(&self, rt: &R, place: usize, work: &W)
        requires can { W.can work.now }
    {
        let Some(place) = self.places.get(place) else {
            return;
        };
        let mut seen = 0;
        for _ in rt.forever() {
            place.published.wait(rt, seen);
            seen = place.published.count();
            if !self.work_at(rt, &place.even, work) || !self.work_at(rt, &place.odd, work) {
                return;
            }
        }
    }

    // Works on the lease in a place, if there is one that waits, and puts it back. Returns false if
    // it sees a stop.
    fn work_at<R: Wait, W: Work>(
        &self,
        rt: &R,
        place: &Mutex<Option<SeatLease<'a, C>>>,
        work: &W,
    ) -> bool
        requires can { W.can work.now }
    {
        let Some(mut lease) = place.lock(rt).take() else {
            return true;
        };
        let proceeds = lease.work(rt, work);
        *place.lock(rt) = Some(lease);
        self.back.advance();
        proceeds
    }
}
