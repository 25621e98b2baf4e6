//! What a step of the kernel has changed.

use crate::schedule::{Effect, EffectKind};
use cp_kernel::kernel::Kernel;
use cp_private::kernel_view::{Holder, SchedulingState};
use cp_private::private::{Activity, Private};
use cp_search_states::state::SearchState;
use std::alloc::{AllocError, Global};

/// A number of a process, monitor or operation, none of which has more than 32 bits.
pub(crate) fn short(number: usize) -> u32 {
    u32::try_from(number).unwrap_or(u32::MAX)
}

/// Where processes were before a step.
#[derive(Drop)]
pub(crate) struct Before {
    stages: Vec<SchedulingState>,
    /// The holders of gates by monitor, from 1.
    holders: Vec<Holder>,
}

// The process that holds the gate of a monitor.
fn holder_of(kernel: &Kernel, monitor: u32) -> Option<u32> {
    match kernel.holder(monitor) {
        Holder::Process(holder) => Some(holder),
        Holder::Free | Holder::Unset => None,
    }
}

// What has changed for a process by a step of another one or of its own.
fn change(
    kernel: &Kernel,
    old: SchedulingState,
    new: SchedulingState,
    mover: u32,
) -> Option<EffectKind> {
    match (old, new) {
        (SchedulingState::Begun, SchedulingState::Asking(monitor)) => Some(EffectKind::Waits {
            monitor,
            holder: holder_of(kernel, monitor),
        }),
        (SchedulingState::Begun, SchedulingState::Delayed { monitor, queue }) => {
            Some(EffectKind::Delays { monitor, queue })
        }
        (SchedulingState::Asking(monitor), SchedulingState::Begun) => {
            Some(EffectKind::Enters { monitor })
        }
        (SchedulingState::Delayed { .. }, SchedulingState::Begun) => {
            Some(EffectKind::Continued { by: mover })
        }
        _ => None,
    }
}

/// The fault of a process, if it has one.
pub(crate) fn fault_of(private: &Private) -> Option<EffectKind> {
    match private.activity() {
        Activity::Faulted(fault) => Some(EffectKind::Faults {
            fault,
            operation: private.counter(),
        }),
        _ => None,
    }
}

impl Before {
    /// Where the processes of a state are, and who holds the gates of so many monitors.
    pub(crate) fn of(
        alloc: Global,
        state: &SearchState,
        monitors: usize,
    ) -> Result<Before, AllocError> {
        let mut stages = Vec::new(alloc);
        for private in &state.privates {
            stages.push(state.kernel.stage(short(private.private().number())))?;
        }
        let mut holders = Vec::new(alloc);
        for monitor in 1..=short(monitors) {
            holders.push(state.kernel.holder(monitor))?;
        }
        Ok(Before { stages, holders })
    }

    /// The monitor that process `mover` has entered, or asks for, by its step.
    pub(crate) fn called(&self, state: &SearchState, mover: u32) -> Option<u32> {
        if let SchedulingState::Asking(monitor) = state.kernel.stage(mover) {
            return Some(monitor);
        }
        for (index, old) in self.holders.iter().enumerate() {
            let monitor = short(index.saturating_add(1));
            let new = state.kernel.holder(monitor);
            if new != *old && new == Holder::Process(mover) {
                return Some(monitor);
            }
        }
        None
    }

    /// Adds what a step of process `mover` has changed.
    pub(crate) fn push_changes(
        &self,
        state: &SearchState,
        mover: u32,
        effects: &mut Vec<Effect>,
    ) -> Result<(), AllocError> {
        for (old, private) in self.stages.iter().zip(&state.privates) {
            let process = short(private.private().number());
            let new = state.kernel.stage(process);
            if let Some(kind) = change(&state.kernel, *old, new, mover) {
                effects.push(Effect { process, kind })?;
            }
        }
        Ok(())
    }
}

/// Whether a process begins when the round ends.
pub(crate) fn has_fresh(state: &SearchState) -> bool {
    for private in &state.privates {
        let stage = state.kernel.stage(short(private.private().number()));
        if let SchedulingState::Fresh = stage {
            return true;
        }
    }
    false
}
