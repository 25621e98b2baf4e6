//! The calls of a schedule, a line each.

use crate::names::Names;
use cp_inspect::status::fault_number;
use cp_output::page::Page;
use cp_search_schedule::schedule::{Call, Effect, EffectKind};
use std::alloc::AllocError;

// The width of the numbers of calls.
const NUMBER_WIDTH: usize = 4;

/// How many calls of entries a schedule has.
pub(crate) fn count(calls: &[Call]) -> usize {
    let mut count = 0_usize;
    for call in calls {
        if !call.is_init {
            count = count.saturating_add(1);
        }
    }
    count
}

// The process that acts in an effect.
fn doer(effect: Effect) -> u32 {
    match effect.kind {
        EffectKind::Continued { by } => by,
        _ => effect.process,
    }
}

// How many digits a number has.
fn digits(number: usize) -> usize {
    let mut left = number;
    let mut count = 1_usize;
    for _ in 0..20 {
        left /= 10;
        if left == 0 {
            return count;
        }
        count = count.saturating_add(1);
    }
    count
}

impl Names<'_, '_> {
    fn push_queue(&self, page: &mut Page, monitor: u32, queue: u32) -> Result<(), AllocError> {
        page.bytes(self.components.monitor_name(monitor));
        page.text(".");
        page.bytes(&self.queue(queue)?);
        Ok(())
    }

    fn push_effect(&self, page: &mut Page, effect: Effect) -> Result<(), AllocError> {
        match effect.kind {
            EffectKind::Waits { monitor: _, holder } => {
                page.text("waits for ");
                match holder {
                    Some(holder) => page.bytes(self.components.process_name(holder)),
                    None => page.text("its gate"),
                }
            }
            EffectKind::Enters { monitor } => {
                page.text("enters ");
                page.bytes(self.components.monitor_name(monitor));
            }
            EffectKind::Delays { monitor, queue } => {
                page.text("delays in ");
                self.push_queue(page, monitor, queue)?;
            }
            EffectKind::Continued { by: _ } => {
                page.text("continues ");
                page.bytes(self.components.process_name(effect.process));
            }
            EffectKind::Faults { fault, operation } => {
                page.text("has fault ");
                page.number(fault_number(fault) as usize);
                self.push_place(page, operation);
            }
        }
        Ok(())
    }

    // Adds what follows from a call. The name of a process is added if it isn't the process that
    // the words before are about.
    fn push_effects(&self, page: &mut Page, call: &Call) -> Result<(), AllocError> {
        let mut about = call.process;
        for effect in &call.effects {
            let doer = doer(*effect);
            if doer == about {
                page.text(", ");
            } else {
                page.text("; ");
                page.bytes(self.components.process_name(doer));
                page.text(" ");
            }
            about = doer;
            self.push_effect(page, *effect)?;
        }
        Ok(())
    }

    // Adds the line of a call with a number.
    fn push_call(&self, page: &mut Page, number: usize, call: &Call) -> Result<(), AllocError> {
        page.blanks(NUMBER_WIDTH.saturating_sub(digits(number)));
        page.number(number);
        page.text("  ");
        page.bytes(self.components.process_name(call.process));
        page.text(" calls ");
        if let Some(monitor) = call.monitor {
            page.bytes(self.components.monitor_name(monitor));
            page.text(".");
        }
        page.bytes(self.entry(call.operation));
        self.push_place(page, call.operation);
        self.push_effects(page, call)?;
        page.text("\n");
        Ok(())
    }

    /// Adds the calls of a schedule, a line each. Each `init` is left out.
    pub(crate) fn push_calls(&self, page: &mut Page, calls: &[Call]) -> Result<(), AllocError> {
        let mut number = 0_usize;
        for call in calls {
            if !call.is_init {
                number = number.saturating_add(1);
                self.push_call(page, number, call)?;
            }
        }
        Ok(())
    }
}
