//! What the calling thread holds in a round.

ghost use Rattle.std.specs.Prelude.{◌≡◌, ◌<◌, ◌≤◌, ◌-◌};
ghost use Rattle.cp_rounds_handoff.specs.Tasks.{AreMade, AreTaken};

use crate::run::Run;
use cp_private::private_box::PrivateBox;
use cp_rounds_handoff::cursor::Cursor;
use cp_rounds_handoff::gate::TurnGate;
use cp_rounds_handoff::handoff::{Tasks, room_for_tasks};
use cp_rounds_handoff::handoff_turns::HandoffTurns;
use cp_rounds_handoff::open_round::OpenRound;
use cp_rounds_handoff::run_ahead_size::RunAheadSize;
use cp_rounds_handoff::task::Course;
use cp_rounds_workers::{Mailboxes, Wave};
use std::alloc::{AllocError, Global};
use std::sync::Wait;

/// The waves that are left of a round, the first one last, and the chunk from which the calling
/// thread takes private states.
#[derive(Drop)]
pub(crate) struct Coordinator<'a, C: Course> {
    pub(crate) waves: Vec<Wave<'a, C>>,
    pub(crate) tasks: Tasks<'a, C>,
    /// The next place from which a private state is taken.
    pub(crate) place: Cursor,
    /// Whether a process has moved since the clock last woke those that wait. If none has, none has
    /// a private step.
    pub(crate) moved: bool,
    /// How many rounds are worth making at once.
    pub(crate) run_ahead_size: RunAheadSize,
}

// Makes the turns of a wave that nobody has made yet, begins the next wave, and closes the board of
// the wave, all of whose turns are then made. Returns how many chunks were drawn.
fn finish_wave<'a, C: Course, R: Wait, G: TurnGate>(
    rt: &R,
    mailboxes: &Mailboxes<'a, C>,
    wave: Wave<'a, C>,
    next: Option<&mut Wave<'a, C>>,
    turns: &HandoffTurns<'a, C, G>,
) -> usize
    ensures all { result ≡ wave.entry.chunks }
{
    let (board, seat) = wave.finish(rt, mailboxes, next, turns);
    board.close(seat)
}

impl<'a, C: Course> Coordinator<'a, C> {
    /// A coordinator with room for the tasks of a chunk of this many processes, for rounds that
    /// begin at a run-ahead size.
    ///
    /// # Errors
    ///
    /// `AllocError` if memory runs out.
    pub(crate) fn new(
        alloc: Global,
        processes: usize,
        run_ahead_size: RunAheadSize,
    ) -> Result<Coordinator<'a, C>, AllocError> {
        Ok(Coordinator {
            waves: Vec::new(alloc),
            tasks: room_for_tasks(alloc, processes)?,
            place: Cursor::first(),
            moved: true,
            run_ahead_size,
        })
    }

    /// Begins a round with these waves: the threads may draw from the first one.
    pub(crate) fn begin<R: Wait, G: TurnGate>(
        &mut self,
        rt: &R,
        run: &Run<'a, C, G>,
        waves: Vec<Wave<'a, C>>,
    ) {
        run.turns.handoff.clear();
        self.waves = waves;
        self.place = Cursor::first();
        if let Some(wave) = self.waves.last_mut() {
            wave.begin(rt, &run.mailboxes);
        }
    }

    /// Ends the wave whose private states have all been taken.
    pub(crate) fn end_wave<R: Wait, G: TurnGate>(&mut self, rt: &R, run: &Run<'a, C, G>) {
        if let Some(wave) = self.waves.pop() {
            finish_wave(rt, &run.mailboxes, wave, self.waves.last_mut(), &run.turns);
        }
    }

    // Makes the turns of a chunk of the wave. Returns false if none is left.
    fn help<R: Wait, G: TurnGate>(&mut self, rt: &R, run: &Run<'a, C, G>) -> bool {
        match self.waves.last_mut() {
            Some(wave) => wave.help(rt, &run.turns),
            None => false,
        }
    }

    // Begins the wave after this one.
    fn begin_next<R: Wait, G: TurnGate>(&mut self, rt: &R, run: &Run<'a, C, G>) {
        let after = self.waves.len().wrapping_sub(2);
        if let Some(wave) = self.waves.get_mut(after) {
            wave.begin(rt, &run.mailboxes);
        }
    }

    // Takes the tasks of a chunk, once their turns are made. Until then it makes the turns of
    // others.
    fn fetch<R: Wait, G: TurnGate>(&mut self, rt: &R, run: &Run<'a, C, G>) {
        for _ in rt.forever() {
            let seen = run.mailboxes.back().count();
            if run
                .turns
                .handoff
                .exchange(self.place.chunk, &mut self.tasks)
            {
                return;
            }
            if !self.help(rt, run) {
                run.mailboxes.back().wait(rt, seen);
            }
        }
    }

    // Moves on to the next chunk. If it is the first one of a wave, the threads may draw from the
    // wave after that one too.
    fn next_chunk<R: Wait, G: TurnGate>(&mut self, rt: &R, run: &Run<'a, C, G>) {
        if self.place.begins_wave() {
            if self.place.chunk > 0 {
                self.end_wave(rt, run);
            }
            self.begin_next(rt, run);
        }
        self.fetch(rt, run);
    }

    /// Takes the private state of a process after its private turns, of at most `most` rounds from
    /// this one on, into its place. Returns the number of turns.
    pub(crate) fn take<R: Wait, G: TurnGate>(
        &mut self,
        rt: &R,
        run: &Run<'a, C, G>,
        round: &OpenRound<'a, C>,
        process: usize,
        most: u32,
        private: &mut PrivateBox,
    ) -> u32
        ensures some { 0 < result }
        ensures few { result ≤ most }
        ensures taken { AreTaken (AreMade C.without_kernel C.turned C.round_time round.now.index result)
            (C.input (process - 1)) C.most round.now.start.value.items process private.new }
    {
        if self.place.slot == 0 {
            self.next_chunk(rt, run);
        }
        let index = self.place.slot;
        self.place = self.place.next(&run.turns.plan);
        for _ in rt.forever() {
            let Some(slot) = self.tasks.get_mut(index) else {
                continue;
            };
            let turns = slot.take(round, process, most, private);
            if turns > 0 {
                return turns;
            }
        }
        unreachable!()
    }
}
