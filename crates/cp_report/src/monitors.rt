//! The lines of monitors.

ghost use Rattle.std.specs.Prelude.{◌≡◌, OnOk};
ghost use Rattle.cp_report.specs.Subjects.{ReportsMonitor, ReportsMonitors};

use crate::gates::push_gate_line;
use crate::subject::Subject;
use cp_compile_symbols::small_number;
use cp_inspect::walk::Walk;
use cp_inspect::walk_output::WalkOutput;
use std::alloc::AllocError;

impl<'r, 'm, 't> Subject<'r, 'm, 't> {
    // Reports a monitor by its number: its gate and its variables.
    fn push_monitor(
        self,
        walk: &mut Walk,
        out: &mut Vec<u8>,
        number: u32,
        name: &[u8],
        row: usize,
    ) -> Result<(), AllocError>
        ensures { OnOk result (ReportsMonitor self.entry number name.now row
            out.old.items out.new.items) }
    {
        let askers = self.machine.askers(number);
        push_gate_line(out, name, self.machine.gate(number), askers)?;
        let start = self.machine.program().monitor_start(number as usize);
        let lines = WalkOutput::Lines(self.machine.kernel().all_words());
        walk.component(self.tables, &lines, out, row, start)
    }

    /// Reports all monitors by number.
    pub(crate) fn push_monitors(self, walk: &mut Walk, out: &mut Vec<u8>) -> Result<(), AllocError>
        ensures { OnOk result (ReportsMonitors self.entry out.old.items out.new.items) }
    {
        for (index, monitor) in self.monitors.iter().enumerate() {
            let number = small_number(index + 1)?;
            self.push_monitor(walk, out, number, monitor.name, monitor.of)?;
        }
        Ok(())
    }
}
