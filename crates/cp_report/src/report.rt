//! The whole report of a machine.

ghost use Rattle.std.specs.Prelude.{OnOk, IfOk, map};
ghost use Rattle.cp_rounds.specs.Views.{machine_of};
ghost use Rattle.cp_compile_symbols.specs.Representing.{entry};
ghost use Rattle.cp_report.specs.Subjects.{ReportsAll};
ghost use Rattle.cp_report.specs.WholeReports.{IsReport, IsReportWithChains};

use crate::chains::push_chains;
use crate::lines::push_rounds;
use crate::subject::Subject;
use cp_compile_symbols::Field;
use cp_inspect::component_table::ComponentTable;
use cp_inspect::walk::Walk;
use cp_rounds::machine::Machine;
use std::alloc::{AllocError, Global};

impl<'r, 'm, 't> Subject<'r, 'm, 't> {
    // Reports everything. `processes` are all processes except the initial one.
    fn push_all(
        self,
        walk: &mut Walk,
        out: &mut Vec<u8>,
        processes: &[Field],
    ) -> Result<(), AllocError>
        ensures { OnOk result (ReportsAll self.entry (map entry processes.now)
            out.old.items out.new.items) }
    {
        push_rounds(out, self.machine.rounds())?;
        self.push_initial(walk, out)?;
        self.push_processes(walk, out, processes)?;
        self.push_monitors(walk, out)
    }
}

/// The report of a machine, as bytes.
///
/// # Errors
///
/// `AllocError` if memory runs out.
pub fn report(alloc: Global, machine: &Machine) -> Result<Vec<u8>, AllocError>
    ensures { IfOk result
        (λ bytes. IsReport machine.now.tables.now (machine_of machine.now) bytes.items) }
{
    let tables = machine.tables();
    let component_table = ComponentTable::of(alloc, tables)?;
    let subject = Subject {
        tables,
        machine,
        monitors: &component_table.monitors,
    };
    let mut walk = Walk::new(alloc, 0);
    let mut bytes = Vec::new(alloc);
    subject.push_all(&mut walk, &mut bytes, &component_table.processes)?;
    Ok(bytes)
}

/// The report and after it the chains: a line for each process that asks for a gate.
///
/// # Errors
///
/// `AllocError` if memory runs out.
pub fn report_with_chains(alloc: Global, machine: &Machine) -> Result<Vec<u8>, AllocError>
    ensures { IfOk result
        (λ bytes. IsReportWithChains machine.now.tables.now (machine_of machine.now) bytes.items) }
{
    let mut bytes = report(alloc, machine)?;
    push_chains(&mut bytes, machine)?;
    Ok(bytes)
}
