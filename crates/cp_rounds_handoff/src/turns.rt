//! A private turn, made in place.

ghost use Rattle.std.specs.Prelude.{◌≡◌, ◌<◌, ◌≤◌, ◌+◌, ◌-◌, ◌*◌, vec_capacity, vec_len};
ghost use Rattle.cp_private.specs.Rooms.{HasRoomFor};
ghost use Rattle.cp_private.specs.States.{private_of};
ghost use Rattle.cp_program.specs.View as view;
ghost use Rattle.cp_rounds_handoff.specs.Inputs.{input_at};
ghost use Rattle.cp_rounds_handoff.specs.Turned as plain;

use crate::config::MachineConfig;
use crate::round_time::RoundTime;
use cp_base_config::turn::Turn;
use cp_private::private::Private;
use cp_private::turns::private_turn;

/// Makes the private turn of process p in a round. It takes no memory.
pub fn turn_in_place(
    config: &MachineConfig,
    private: &mut Private,
    p: usize,
    round_time: RoundTime,
    turn: Turn,
)
    requires room { HasRoomFor private.old turn.steps }
    ensures turned { let input = input_at config.now.inputs.items (p - 1) in
        private_of private.new input ≡ plain.take_turn (view.program config.now.program)
        turn.steps round_time (private_of private.old input) }
    ensures number { private.new.number ≡ private.old.number }
    ensures length { vec_len private.new.output ≤ vec_len private.old.output + 11 * turn.steps }
    ensures capacity { vec_capacity private.old.output ≤ vec_capacity private.new.output }
{
    if round_time.wakes {
        private.wake();
    }
    let input = config.input(p);
    private_turn(&config.program, private, input, round_time.clock, turn);
}
