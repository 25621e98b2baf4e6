//! A round in any order of events, lawful or not, on the calling thread.

ghost use Rattle.std.specs.Prelude.{◌≡◌, ◌<◌, ◌+◌, ◌-◌, ◌^◌, IfErr, IfOk, length};
ghost use Rattle.cp_model_machine.specs.Replays as plain;
ghost use Rattle.cp_model_machine.specs.Replays.{AreWithin};
ghost use Rattle.cp_base_schedule.specs.Events.{events_of};
ghost use Rattle.cp_rounds.specs.InStates.{MakesReplay};
ghost use Rattle.cp_rounds.specs.MachineOf.{machine_with};
ghost use Rattle.cp_rounds.specs.Views.{KeepsText, machine_of, processes_of};

use crate::closing::close_round;
use crate::copies::woken_copies;
use crate::events::make_events;
use crate::machine::Machine;
use crate::parts::Parts;
use cp_base_config::turn::Turn;
use cp_base_schedule::event::Event;
use cp_model_machine::law;
use cp_rounds_handoff::config::MachineConfig;
use std::alloc::{AllocError, Global};

// What the round after the first `rounds` rounds makes of the parts of a machine, if it
// consists of these events.
fn replayed(
    alloc: Global,
    config: &MachineConfig,
    rounds: u64,
    parts: &Parts,
    events: &[Event],
    turn: Turn,
) -> Result<Parts, AllocError>
    requires count { rounds < 2 ^ 64 - 1 }
    requires within { AreWithin (length parts.now.privates.items) (events_of events.now) }
    ensures made { IfOk result
        (λ next. machine_with config.now (rounds + 1) next.privates.items next.kernel
        ≡ plain.replay turn.steps (events_of events.now)
        (machine_with config.now rounds parts.now.privates.items parts.now.kernel)) }
    ensures count { IfOk result
        (λ next. length next.privates.items ≡ length parts.now.privates.items) }
{
    let round_time = config.round_time(rounds);
    let mut privates = woken_copies(alloc, &parts.privates, round_time.wakes)?;
    let mut kernel = parts.kernel.copy(alloc)?;
    make_events(config, round_time, turn, events, &mut privates, &mut kernel)?;
    close_round(config, &mut privates, &mut kernel);
    Ok(Parts { privates, kernel })
}

impl<'r, 't> Machine<'r, 't> {
    /// Makes one round of these events, in their order, whether it is lawful or not: at first the
    /// processes that wait continue if it is time, and at the end those that were started begin. No
    /// hook is called.
    ///
    /// # Errors
    ///
    /// `AllocError` if memory runs out. The machine is then as it was.
    pub fn replay(&mut self, events: &[Event], turn: Turn) -> Result<(), AllocError>
        requires count { self.old.rounds < 2 ^ 64 - 1 }
        requires numbers { AreWithin (processes_of self.old) (events_of events.now) }
        ensures made { IfOk result (λ _. machine_of self.new ≡ plain.replay turn.steps
            (events_of events.now) (machine_of self.old)) }
        ensures state { IfOk result
            (λ _. MakesReplay turn.steps (events_of events.now) self.old self.new) }
        ensures rounds { IfOk result (λ _. self.new.rounds ≡ self.old.rounds + 1) }
        ensures kept { IfErr result (λ _. self.new ≡ self.old) }
        ensures processes { processes_of self.new ≡ processes_of self.old }
        ensures text { KeepsText self.old self.new }
    {
        law::replays();
        let parts = replayed(
            self.alloc,
            &self.config,
            self.rounds,
            &self.parts,
            events,
            turn,
        )?;
        self.parts = parts;
        self.rounds += 1;
        Ok(())
    }
}
