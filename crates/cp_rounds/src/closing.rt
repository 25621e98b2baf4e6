//! The end of a round.

ghost use Rattle.cp_rounds.specs.Ends.{RoundEnds};

use cp_kernel::closing::end_round;
use cp_kernel::kernel::Kernel;
use cp_private::private_box::PrivateBox;
use cp_rounds_handoff::config::MachineConfig;

/// Ends a round: the processes that were started in it begin.
pub(crate) fn close_round(
    config: &MachineConfig,
    privates: &mut Vec<PrivateBox>,
    kernel: &mut Kernel,
)
    ensures { RoundEnds config.now privates.old.items kernel.old privates.new.items kernel.new }
{
    end_round(&config.program, kernel, privates);
}
