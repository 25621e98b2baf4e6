//! Private turns on their way between threads.
//!
//! All that is known of a value taken out of a lock is its type. So the type of a task says what
//! its private state comes from: the private state at its index at the start of its round. The cell
//! of the round, which is written once, says which start that was.

ghost use Rattle.std.specs.Prelude.{◌≡◌, ◌≢◌, ◌<◌, ◌≤◌, ◌+◌, ◌-◌, ◌^◌, ℕ, Bool, List, [], IfSome, Some, false, true, slice_get};
ghost use Rattle.std.proofs.Props.{props};
ghost use Rattle.cp_model_machine.specs.PrivateStates.{PrivateState};
ghost use Rattle.cp_private.specs.States.{private_of};
ghost use Rattle.cp_program.specs.View as view;
ghost use Rattle.cp_rounds_handoff.specs.Quiet.{needs_no_kernel};
ghost use Rattle.cp_rounds_handoff.specs.Turned.{AreTimes};
ghost use Rattle.cp_rounds_handoff.specs.Tasks.{AreMade, AreMade-prop, AreTaken, ComesOf, HasRoom, IsCourseOf, IsShort, IsWide, is_some};
ghost use Rattle.cp_rounds_handoff.specs.declared.round_time.RoundTime as declared;

use crate::config::MachineConfig;
use crate::kernel_need::needs_no_kernel;
use crate::open_round::OpenRound;
use crate::round_time::RoundTime;
use crate::turns::turn_in_place;
use cp_base_config::turn::Turn;
use cp_private::private_box::PrivateBox;
use cp_rounds_workers::Sheets;
use std::marker::{Brand, PhantomData};
use std::snapshot::Snapshot;
use std::sync::OnceToken;

/// The private states at the start of a round, for proofs only.
pub type Start = Snapshot<Vec<PrivateBox>>;

/// What is the same in all rounds of a run. The caller that begins the run chooses it.
pub trait Course: Sheets {
    /// Whether a process has no kernel turn to make, whatever the kernel is.
    ghost without_kernel: { PrivateState → Bool };

    /// What a turn makes of the content of a private state, at the time of a round.
    ghost turned: { declared.RoundTime → PrivateState → PrivateState };

    /// The time of a round.
    ghost round_time: { ℕ → declared.RoundTime };

    /// The input of the process at an index.
    ghost input: { ℕ → List ℕ };

    /// The largest number of bytes that a turn writes.
    ghost most: { ℕ };

    /// The name of the cell that holds the start of a round.
    ghost cell: { ℕ → ℕ };
}

impl Course for Brand {
    ghost without_kernel = { λ _. false };

    ghost turned = { λ w o. o };

    ghost round_time = { λ _. record { clock = 0; wakes = false } };

    ghost input = { λ _. [] };

    ghost most = { 0 };

    ghost cell = { λ _. 0 };
}

/// The private turn of a process in a round, made or still to be made, and perhaps those of the
/// rounds after it.
#[derive(Drop)]
pub struct Task<'a, C: Course> {
    round: usize,
    process: usize,
    round_time: RoundTime,
    /// How many turns there are to make at most.
    most: u32,
    /// How many turns are made.
    pub(crate) made: u32,
    private: PrivateBox,
    start: OnceToken<'a, Start>,
    of: PhantomData<C>,
    ghost cell: { start.of ≡ C.cell round },
    ghost time: { round_time ≡ C.round_time round },
    ghost number: { private.number ≡ process },
    ghost comes: { ComesOf (AreMade C.without_kernel C.turned C.round_time round made) (C.input (process - 1))
        start.value.value.items (process - 1) private } by { Prim.hlevel (AreMade-prop, props) },
    ghost short: { IsShort C.most start.value.value.items (process - 1) (is_some made) private },
    ghost room: { HasRoom C.most (is_some made) private },
    ghost wide: { IsWide C.most private },
}

impl<'a, C: Course> Task<'a, C> {
    /// The turn of a process in a round, which is still to be made, with those of the
    /// rounds that are made at once. `start` shows that this is the start of the round.
    pub fn new(
        round: &OpenRound<'a, C>,
        start: &OnceToken<'a, Start>,
        process: usize,
        private: PrivateBox,
    ) -> Task<'a, C>
        requires cell { start.now.of ≡ C.cell round.now.index }
        requires number { private.number ≡ process }
        requires at { slice_get start.now.value.value.items (process - 1) ≡ Some private }
        requires room { HasRoom C.most false private }
    {
        Task {
            round: round.index,
            process,
            round_time: round.round_time,
            most: round.rounds,
            made: 0,
            private,
            start: start.again(),
            of: PhantomData,
        }
    }

    /// The number of the process.
    pub fn process(&self) -> usize
        ensures { result ≡ self.now.process }
    {
        self.process
    }

    /// Whether the turn of the round has been made.
    pub fn is_made(&self) -> bool
        ensures { result ≡ is_some self.now.made }
    {
        self.made > 0
    }

    // Makes the next turn, of a round at this time. Before any but the first one the process is
    // quiet.
    fn make_turn(&mut self, config: &MachineConfig, turn: Turn, round_time: RoundTime)
        requires course { IsCourseOf C.without_kernel C.turned C.input C.most config.now turn.steps }
        requires time { round_time ≡ C.round_time (self.old.round + self.old.made) }
        requires without_kernel { self.old.made ≢ 0 → (input : List ℕ)
            → needs_no_kernel (view.program config.now.program) (private_of self.old.private input)
            ≡ true }
        requires few { self.old.made < 2 ^ 32 - 1 }
        ensures made { self.new.made ≡ self.old.made + 1 }
    {
        let private = self.private.private_mut();
        turn_in_place(config, private, self.process, round_time, turn);
        self.made += 1;
    }

    // Makes the turn of the next round, if there is one to make and the process is quiet. Returns
    // whether it did.
    fn make_next(&mut self, config: &MachineConfig, done: u64, turn: Turn) -> bool
        requires course { IsCourseOf C.without_kernel C.turned C.input C.most config.now turn.steps }
        requires times { AreTimes C.round_time config.now done }
        ensures made { self.old.made ≤ self.new.made }
    {
        if self.made >= self.most || !needs_no_kernel(&config.program, self.private.private()) {
            return false;
        }
        let Some(round_time) = config.round_time_of(done, self.round, self.made) else {
            return false;
        };
        self.make_turn(config, turn, round_time);
        true
    }

    /// Makes the turn, and those of later rounds while the process is quiet, of a run that began
    /// after `done` rounds.
    pub fn make(&mut self, config: &MachineConfig, done: u64, turn: Turn)
        requires course { IsCourseOf C.without_kernel C.turned C.input C.most config.now turn.steps }
        requires times { AreTimes C.round_time config.now done }
        requires first { self.old.made ≡ 0 }
        ensures made { 0 < self.new.made }
    {
        self.make_turn(config, turn, self.round_time);
        for _turn in 1..self.most {
            if !self.make_next(config, done, turn) {
                return;
            }
        }
    }

    /// The private state and the number of turns made, if that is at least 1 and at most
    /// `most`, and they are the turns of this process from this round on.
    pub fn finish(
        self,
        round: &OpenRound<'a, C>,
        process: usize,
        most: u32,
    ) -> Option<(u32, PrivateBox)>
        ensures some { IfSome result (λ r. 0 < r.0) }
        ensures few { IfSome result (λ r. r.0 ≤ most) }
        ensures taken { IfSome result (λ r. AreTaken
            (AreMade C.without_kernel C.turned C.round_time round.now.index r.0) (C.input (process - 1)) C.most
            round.now.start.value.items process r.1) }
    {
        let Some(start) = &round.token else {
            return None;
        };
        if self.made == 0 || self.made > most {
            return None;
        }
        if self.round != round.index || self.process != process {
            return None;
        }
        start.agrees(&self.start);
        Some((self.made, self.private))
    }
}
