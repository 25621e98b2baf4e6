//! What the threads of a run share: batches for the turns of a round.

ghost use Rattle.std.specs.Prelude.{◌≡◌, ◌-◌, false, true, Some, length, slice_get};
ghost use Rattle.cp_private.specs.Resting.{is_idle};
ghost use Rattle.cp_rounds_handoff.specs.Tasks.{AreInPlace, HasRoom};

use crate::cursor::Cursor;
use crate::open_round::OpenRound;
use crate::slot::Slot;
use crate::task::Course;
use cp_base_config::plan::Plan;
use cp_private::private_box::PrivateBox;
use cp_rounds_workers::EventCount;
use crossbeam_utils::CachePadded;
use std::alloc::{AllocError, Global};
use std::mem;
use std::sync::{Mutex, Wait};

// The threads hear of chunks when the number of the next chunk has none of these bits, if each
// chunk has so many processes. So some eight processes are published before the threads hear of
// them. Each time, sleeping threads are woken, and whoever advances a count waits for those that
// look at it.
fn unheard(processes: usize) -> usize {
    match processes {
        0..=1 => 7,
        2 => 3,
        3..=4 => 1,
        _ => 0,
    }
}

/// The tasks of a chunk in order of process.
pub type Tasks<'a, C> = Vec<Slot<'a, C>>;

/// Room for the tasks of a chunk of this many processes. After the last slot there is room
/// for one more, so that no cache line holds words of two chunks, whose turns may be made at the
/// same time.
///
/// # Errors
///
/// `AllocError` if memory runs out.
pub fn room_for_tasks<'a, C: Course>(
    alloc: Global,
    processes: usize,
) -> Result<Tasks<'a, C>, AllocError> {
    let mut tasks = Vec::with_capacity(alloc, processes.saturating_add(1))?;
    for _slot in 0..processes {
        tasks.push(Slot::empty(alloc)?)?;
    }
    Ok(tasks)
}

/// What is in a batch.
#[derive(Clone, Copy)]
pub(crate) enum Content {
    /// Room for the tasks of a later round.
    Room,
    /// Tasks whose turns are still to be made.
    Published,
    /// Tasks whose turns are made.
    Made,
}

/// The place of a chunk.
#[derive(Drop)]
pub(crate) struct Batch<'a, C: Course> {
    pub(crate) content: Content,
    pub(crate) tasks: Tasks<'a, C>,
}

/// The tasks of a round, in order of process, chunk by chunk. There is a place for each process.
#[derive(Drop)]
pub struct HandoffQueue<'a, C: Course> {
    batches: Vec<CachePadded<Mutex<Batch<'a, C>>>>,
    // How many chunks of the round have been published.
    published: CachePadded<EventCount>,
    unheard: usize,
}

impl<'a, C: Course> HandoffQueue<'a, C> {
    /// A handoff queue with batches for so many chunks of so many processes, and no task.
    ///
    /// # Errors
    ///
    /// `AllocError` if memory runs out.
    pub fn new(
        alloc: Global,
        chunks: usize,
        processes: usize,
    ) -> Result<HandoffQueue<'a, C>, AllocError> {
        let mut batches = Vec::with_capacity(alloc, chunks)?;
        for _chunk in 0..chunks {
            let batch = Batch {
                content: Content::Room,
                tasks: room_for_tasks(alloc, processes)?,
            };
            batches.push(CachePadded::new(Mutex::new(batch)))?;
        }
        Ok(HandoffQueue {
            batches,
            published: CachePadded::new(EventCount::new()),
            unheard: unheard(processes),
        })
    }

    // Publishes the tasks of a chunk, and takes the room that was there for them.
    fn publish<R: Wait>(&self, rt: &R, chunk: usize, tasks: &mut Tasks<'a, C>) {
        let Some(batch) = self.batches.get(chunk) else {
            return;
        };
        let mut batch = batch.lock(rt);
        if batch.content == Content::Room {
            mem::swap(&mut batch.tasks, tasks);
            batch.content = Content::Published;
        }
    }

    // Publishes the tasks of the last chunk, if there are any, and lets the threads hear of all chunks.
    fn publish_last<R: Wait>(&self, rt: &R, place: Cursor, tasks: &mut Tasks<'a, C>) {
        let mut published = place.chunk;
        if place.slot > 0 {
            self.publish(rt, place.chunk, tasks);
            published = published.wrapping_add(1);
        }
        self.published.advance_to(published as u64);
    }

    // Puts the turn of a process into its slot, and publishes the tasks of its chunk if it is the last
    // of them. Returns the place of the next task.
    #[inline(always)]
    fn put<R: Wait>(
        &self,
        rt: &R,
        plan: &Plan,
        place: Cursor,
        round: &OpenRound<'a, C>,
        process: usize,
        private: &mut PrivateBox,
        tasks: &mut Tasks<'a, C>,
    ) -> Cursor
        requires number { private.old.number ≡ process }
        requires at { slice_get round.now.start.value.items (process - 1)
            ≡ Some private.old }
        requires room { HasRoom C.most false private.old }
        ensures left { is_idle round.now.round_time.wakes private.new ≡ true
            → private.new ≡ private.old }
    {
        if let Some(slot) = tasks.get_mut(place.slot) {
            slot.publish(round, process, private);
        }
        let next = place.next(plan);
        if next.chunk != place.chunk {
            self.publish(rt, place.chunk, tasks);
            if next.chunk & self.unheard == 0 {
                self.published.advance_to(next.chunk as u64);
            }
        }
        next
    }

    /// Publishes the turns of a round in order of process: those of all processes, or else of those that
    /// don't rest. The others stay where they are. `tasks` is room for those of a chunk.
    pub fn put_all<R: Wait>(
        &self,
        rt: &R,
        plan: &Plan,
        round: &OpenRound<'a, C>,
        of_all: bool,
        privates: &mut Vec<PrivateBox>,
        tasks: &mut Tasks<'a, C>,
    )
        requires start { round.now.start.value.items ≡ privates.old.items }
        ensures left { AreInPlace round.now.round_time.wakes 0 privates.old.items privates.new.items }
        ensures count { length privates.new.items ≡ length privates.old.items }
    {
        let mut place = Cursor::first();
        for i in 0..privates.len() {
            if !of_all && privates[i].private().is_idle(round.round_time.wakes) {
                continue;
            }
            place = self.put(rt, plan, place, round, i + 1, &mut privates[i], tasks);
        }
        self.publish_last(rt, place, tasks);
    }

    /// Begins a round, of which nothing is published.
    pub fn clear(&self) {
        self.published.reset();
    }

    // Waits until a chunk is published.
    fn wait_for<R: Wait>(&self, rt: &R, chunk: usize) {
        for _ in rt.forever() {
            let published = self.published.count();
            if published > chunk as u64 {
                return;
            }
            self.published.wait(rt, published);
        }
        unreachable!()
    }

    /// The batch of a chunk, once its tasks are published.
    pub(crate) fn published_batch<R: Wait>(
        &self,
        rt: &R,
        chunk: usize,
    ) -> Option<&Mutex<Batch<'a, C>>> {
        let batch = self.batches.get(chunk)?;
        self.wait_for(rt, chunk);
        Some(batch)
    }

    /// Takes the tasks of a chunk in exchange for room for as many, if their turns are made.
    /// Returns whether they are.
    pub fn exchange(&self, chunk: usize, tasks: &mut Tasks<'a, C>) -> bool {
        let Some(batch) = self.batches.get(chunk) else {
            return false;
        };
        let Some(mut batch) = batch.try_lock() else {
            return false;
        };
        if batch.content != Content::Made {
            return false;
        }
        mem::swap(&mut batch.tasks, tasks);
        batch.content = Content::Room;
        true
    }
}
