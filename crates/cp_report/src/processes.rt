//! The lines of processes.

ghost use Rattle.std.specs.Prelude.{◌≡◌, OnOk, map};
ghost use Rattle.cp_compile_symbols.specs.Representing.{entry};
ghost use Rattle.cp_report.specs.Subjects.{ReportsFront, ReportsInitial, ReportsStatus};
ghost use Rattle.cp_report.specs.Subjects.{ReportsProcess, ReportsProcesses};

use crate::lines::{push_title, push_transcript_line};
use crate::subject::Subject;
use cp_compile_symbols::{Field, small_number};
use cp_inspect::status::push_state;
use cp_inspect::walk::Walk;
use cp_inspect::walk_output::WalkOutput;
use std::alloc::AllocError;

impl<'r, 'm, 't> Subject<'r, 'm, 't> {
    // Adds the status of a process.
    fn push_status(self, walk: &mut Walk, out: &mut Vec<u8>, number: u32) -> Result<(), AllocError>
        ensures { OnOk result (ReportsStatus self.entry number out.old.items out.new.items) }
    {
        let program = self.machine.program();
        let state = self.machine.state(number);
        push_state(walk, self.tables, program, self.monitors, state, out)
    }

    // Adds the two lines before the variables of a process.
    fn push_front(
        self,
        walk: &mut Walk,
        out: &mut Vec<u8>,
        number: u32,
        name: &[u8],
    ) -> Result<(), AllocError>
        ensures { OnOk result (ReportsFront self.entry number name.now out.old.items out.new.items) }
    {
        push_title(out, number, name)?;
        self.push_status(walk, out, number)?;
        out.extend_from_slice(b"\n")?;
        let (kernel, own) = self.machine.transcript(number as usize);
        push_transcript_line(out, kernel, own)
    }

    // Reports a process by its number: its status, its output and its variables.
    fn push_process(
        self,
        walk: &mut Walk,
        out: &mut Vec<u8>,
        number: u32,
        name: &[u8],
        row: usize,
    ) -> Result<(), AllocError>
        ensures { OnOk result (ReportsProcess self.entry number name.now row
            out.old.items out.new.items) }
    {
        let Some(private) = self.machine.private(number as usize) else {
            return Ok(());
        };
        self.push_front(walk, out, number, name)?;
        let lines = WalkOutput::Lines(private.all_words());
        walk.component(self.tables, &lines, out, row, 0)
    }

    /// Reports the initial process, whose number is 1.
    pub(crate) fn push_initial(self, walk: &mut Walk, out: &mut Vec<u8>) -> Result<(), AllocError>
        ensures { OnOk result (ReportsInitial self.entry out.old.items out.new.items) }
    {
        let Some(private) = self.machine.private(1) else {
            return Ok(());
        };
        self.push_front(walk, out, 1, b"initial")?;
        let lines = WalkOutput::Lines(private.all_words());
        walk.initial(self.tables, &lines, out)
    }

    /// Reports the other processes, by number.
    pub(crate) fn push_processes(
        self,
        walk: &mut Walk,
        out: &mut Vec<u8>,
        processes: &[Field],
    ) -> Result<(), AllocError>
        ensures { OnOk result (ReportsProcesses self.entry (map entry processes.now)
            out.old.items out.new.items) }
    {
        for (index, process) in processes.iter().enumerate() {
            let number = small_number(index + 2)?;
            self.push_process(walk, out, number, process.name, process.of)?;
        }
        Ok(())
    }
}
