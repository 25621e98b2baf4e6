//! The state of a process, by its stage and its activity.

ghost use Rattle.std.specs.Prelude.{◌≡◌};
ghost use Rattle.cp_private.specs.States.{activity as activity_view, stage as stage_view};
ghost use Rattle.cp_rounds.specs.ProcessStates.{state_of as state_view};

use cp_inspect::state::ProcState;
use cp_private::kernel_view::SchedulingState;
use cp_private::private::Activity;

/// The state of a process with this stage and this activity.
pub(crate) fn state_of(stage: SchedulingState, activity: Activity) -> ProcState
    ensures { result ≡ state_view (stage_view stage) (activity_view activity) }
{
    match stage {
        SchedulingState::Unstarted => ProcState::Unstarted,
        SchedulingState::Fresh => ProcState::Fresh,
        SchedulingState::Asking(monitor) => ProcState::Asking(monitor),
        SchedulingState::Delayed { monitor, queue } => ProcState::Delayed { monitor, queue },
        SchedulingState::Begun => match activity {
            Activity::NotBegun => ProcState::Unstarted,
            Activity::Running => ProcState::Ready,
            Activity::Waiting => ProcState::Waiting,
            Activity::Ended => ProcState::Ended,
            Activity::Faulted(fault) => ProcState::Faulted(fault),
        },
    }
}
