//! The events of a round, one by one.
//!
//! Just before each event, room is reserved for what it may write: there is no bound on how many
//! events of one process come before its kernel turn.

ghost use Rattle.std.specs.Prelude.{◌≡◌, ◌≤◌, ◌-◌, IfOk, fold, length};
ghost use Rattle.cp_kernel.specs.KernelOf.{IsAmong};
ghost use Rattle.cp_model_machine.specs.Replays as plain;
ghost use Rattle.cp_model_machine.specs.Replays.{AreWithin, process_of};
ghost use Rattle.cp_base_schedule.specs.Events.{event_of, events_of};
ghost use Rattle.cp_program.specs.View as view;
ghost use Rattle.cp_rounds_handoff.specs.Inputs.{input_at};
ghost use Rattle.cp_rounds_handoff.specs.Numbers.{AreNumbered};
ghost use Rattle.cp_rounds.specs.Replayed.{Leads, StepsInto, TurnsInto};

use cp_base_config::turn::Turn;
use cp_base_schedule::event::Event;
use cp_kernel::kernel::Kernel;
use cp_kernel::turns::kernel_turn;
use cp_private::private::Private;
use cp_private::private_box::PrivateBox;
use cp_private::turns::private_turn;
use cp_rounds_handoff::config::MachineConfig;
use cp_rounds_handoff::round_time::RoundTime;
use std::alloc::AllocError;

const ONE_STEP: Turn = Turn { steps: 1 };

// Makes one step of process p, if its next one is private.
fn make_step(
    config: &MachineConfig,
    round_time: RoundTime,
    private: &mut Private,
    p: usize,
) -> Result<(), AllocError>
    ensures { IfOk result (λ _. StepsInto (view.program config.now.program) round_time.clock
        private.old private.new (input_at config.now.inputs.items (p - 1))) }
{
    private.reserve(ONE_STEP)?;
    let input = config.input(p);
    private_turn(&config.program, private, input, round_time.clock, ONE_STEP);
    Ok(())
}

// Makes the kernel turn of process p.
fn make_turn(
    config: &MachineConfig,
    round_time: RoundTime,
    turn: Turn,
    private: &mut Private,
    kernel: &mut Kernel,
    p: usize,
) -> Result<(), AllocError>
    requires number { private.old.number ≡ p }
    requires among { IsAmong kernel.old p }
    ensures { IfOk result (λ _. TurnsInto (view.program config.now.program) round_time.clock
        turn.steps p kernel.old kernel.new private.old private.new
        (input_at config.now.inputs.items (p - 1))) }
{
    private.reserve(turn)?;
    kernel.reserve_askers(1)?;
    kernel.reserve_bytes(p, private.output().len() + 11 * turn.steps() as usize)?;
    let input = config.input(p);
    kernel_turn(
        &config.program,
        kernel,
        private,
        input,
        round_time.clock,
        turn,
    );
    Ok(())
}

// Makes one event of a round at this time.
fn make_event(
    config: &MachineConfig,
    round_time: RoundTime,
    turn: Turn,
    event: Event,
    privates: &mut Vec<PrivateBox>,
    kernel: &mut Kernel,
) -> Result<(), AllocError>
    requires first { 1 ≤ process_of (event_of event) }
    requires last { process_of (event_of event) ≤ length privates.old.items }
    requires numbers { AreNumbered privates.old.items }
    requires stages { length kernel.old.stages.items ≡ length privates.old.items }
    ensures { IfOk result (λ _. Leads config.now round_time
        (λ m. plain.event turn.steps m (event_of event)) privates.old.items privates.new.items
        kernel.old kernel.new) }
{
    match event {
        Event::P(p) => make_step(config, round_time, privates[p - 1].private_mut(), p),
        Event::K(p) => make_turn(
            config,
            round_time,
            turn,
            privates[p - 1].private_mut(),
            kernel,
            p,
        ),
    }
}

/// Makes events of a round at this time, in their order.
///
/// # Errors
///
/// `AllocError` if memory runs out. The events before were then made.
pub fn make_events(
    config: &MachineConfig,
    round_time: RoundTime,
    turn: Turn,
    events: &[Event],
    privates: &mut Vec<PrivateBox>,
    kernel: &mut Kernel,
) -> Result<(), AllocError>
    requires within { AreWithin (length privates.old.items) (events_of events.now) }
    requires numbers { AreNumbered privates.old.items }
    requires stages { length kernel.old.stages.items ≡ length privates.old.items }
    ensures { IfOk result (λ _. Leads config.now round_time
        (λ m. fold (plain.event turn.steps) m (events_of events.now)) privates.old.items
        privates.new.items kernel.old kernel.new) }
{
    for event in events {
        make_event(config, round_time, turn, *event, privates, kernel)?;
    }
    Ok(())
}
