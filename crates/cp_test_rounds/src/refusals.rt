//! The state of a machine after memory or a thread was refused.
//!
//! A program that is too large is always refused. Allocations and thread starts succeed in a plain
//! run. `trials/refusals.py` makes one of them fail, by a library that is loaded before the C
//! library. The last six tests then report it and look at the machine.

use crate::cases::{Case, MachineCase, passes};
use crate::machines::{activity, has_written, inputs_for};
use crate::ways::{Way, is_young};
use cp_base_config::plan::Plan;
use cp_base_config::tick::Tick;
use cp_base_config::turn::Turn;
use cp_base_schedule::reading::read_orders;
use cp_compile_symbols::Tables;
use cp_private::kernel_view::{Holder, SchedulingState};
use cp_private::private::Activity;
use cp_program::operation::Operation;
use cp_program::program;
use cp_program::program::{CodeUnit, Process, Program};
use cp_rounds::gate::Open;
use cp_rounds::machine::{Machine, MemoryAt};
use std::alloc::Global;
use std::io::Print;
use std::sync::Wait;
use std::test::Fail;
use std::thread::Threads;

// A program that ends at once, with `words` words for its process and `shared` shared
// words.
fn ending_program(alloc: Global, words: u32, shared: u32) -> Result<Program, Fail> {
    let mut operations = Vec::new(alloc);
    operations.push(Operation::End)?;
    let origins = vec![in alloc; 0; 1]?;
    let mut units = Vec::new(alloc);
    units.push(CodeUnit {
        start: 0,
        starts: Vec::new(alloc),
        words: 0,
        temps: 0,
        frames: 0,
    })?;
    let mut processes = Vec::new(alloc);
    processes.push(Process {
        body: 0,
        words,
        parameters: 0,
        waiting: 0,
        plan: 0,
    })?;
    let mut plans = Vec::new(alloc);
    plans.push(program::StartPlan {
        starts: Vec::new(alloc),
    })?;
    let monitors = Vec::new(alloc);
    Ok(Program::new(
        operations, origins, units, monitors, processes, plans, shared,
    ))
}

// The machine of a program without input, unless it is refused.
fn machine_unless_refused<'r, 't>(
    alloc: Global,
    program: Program,
    tables: &'r Tables<'t>,
) -> Result<Option<Machine<'r, 't>>, Fail> {
    let tick = Tick::new(1)?;
    let inputs = inputs_for(alloc, &program)?;
    Ok(Machine::new(alloc, program, tables, inputs, tick).ok())
}

// Whether the machine of such a program is refused. The tables are of no use to the program.
pub(crate) fn is_refused(
    alloc: Global,
    words: u32,
    shared: u32,
    tables: &Tables<'_>,
) -> Result<bool, Fail> {
    let program = ending_program(alloc, words, shared)?;
    Ok(machine_unless_refused(alloc, program, tables)?.is_none())
}

#[test]
fn a_machine_has_fewer_than_2_to_the_30_words(rt: HostRuntime) -> Result<(), Fail> {
    for (words, shared, is_refused) in [
        (1, 1, false),
        (1 << 30, 1, true),
        (u32::MAX, 1, true),
        (1, 1 << 30, true),
        (1, u32::MAX, true),
    ] {
        let case: Case<'_, Open> = Case::IsRefused { words, shared };
        let passes = passes(&rt, rt.alloc(), "begin end.", &case)?;
        assert!(rt; passes == is_refused, "{words} words, {shared} shared");
    }
    Ok(())
}

// Process 2 is delayed in round 3. From round 2 on, processes 3 and 4 count the rounds.
const COUNTERS: &str =
    "type m = monitor; var q: queue; procedure entry w; begin delay(q) end; begin end;
    pm = process(a: m); begin a.w end;
    pc = process; var x: integer; begin cycle x := x + 1; display(x) end end;
    var g: m; b: pm; c, d: pc; begin init c, d, g, b(g) end.";

const COUNTED: &[u8] = b"12345678";

// Whether the counters are as the rules say after nine rounds with three steps a turn.
fn have_counted(machine: &Machine) -> Result<bool, Fail> {
    let kernel = machine.kernel();
    let delayed = SchedulingState::Delayed {
        monitor: 1,
        queue: 1,
    };
    Ok(
        machine.rounds() == 9
            && activity(machine, 1)? == Activity::Ended
            && kernel.holder(1) == Holder::Free
            && kernel.stage(2) == delayed
            && kernel.word(1) == 2
            && has_written(machine, 3, COUNTED)
            && has_written(machine, 4, COUNTED)
            && machine.word(4, 1) == 8,
    )
}

// Process 3 is delayed, process 4 asks for the gate, and process 2 resumes process 3, which then
// goes ahead of process 4.
const ASKERS: &str = "type m = monitor; var q: queue;
      procedure entry w; begin delay(q); display(1); display(1) end;
      procedure entry s; begin display(8); display(8); continue(q) end;
      procedure entry t; begin display(4) end;
    begin end;
    ps = process(a: m); var v: integer; begin v := 1; v := 2; v := 3; a.s end;
    pw = process(a: m); begin a.w end;
    pt = process(a: m); begin a.t end;
    var g: m; b: ps; c: pw; d: pt;
    begin init g, b(g), c(g), d(g) end.";

// Whether the askers are as the rules say after five rounds with two steps a turn.
fn have_asked(machine: &Machine) -> Result<bool, Fail> {
    let kernel = machine.kernel();
    Ok(
        machine.rounds() == 5
            && activity(machine, 1)? == Activity::Ended
            && kernel.holder(1) == Holder::Process(3)
            && kernel.askers(1) == [4].as_slice()
            && kernel.stage(3) == SchedulingState::Begun
            && kernel.stage(4) == SchedulingState::Asking(1)
            && kernel.word(1) == 0
            && has_written(machine, 2, b"88")
            && has_written(machine, 3, b"11")
            && has_written(machine, 4, b"")
            && machine.word(2, 2) == 3,
    )
}

// A program, of which a number of rounds are made.
#[derive(Clone, Copy)]
pub(crate) enum Example {
    Counters,
    Askers,
}

impl Example {
    fn text(self) -> &'static str {
        match self {
            Example::Counters => COUNTERS,
            Example::Askers => ASKERS,
        }
    }

    fn rounds(self) -> u32 {
        match self {
            Example::Counters => 9,
            Example::Askers => 5,
        }
    }

    // The steps of a turn.
    fn turn(self) -> u32 {
        match self {
            Example::Counters => 3,
            Example::Askers => 2,
        }
    }

    // Workers and sizes of waves.
    fn ways(self) -> [(u32, u32); 3] {
        match self {
            Example::Counters => [(1, 255), (4, 255), (4, 1)],
            Example::Askers => [(1, 2), (4, 2), (4, 3)],
        }
    }

    // Whether a machine of it is as the rules say after its rounds.
    fn is_made(self, machine: &Machine) -> Result<bool, Fail> {
        match self {
            Example::Counters => have_counted(machine),
            Example::Askers => have_asked(machine),
        }
    }
}

// Makes the rounds of the counters, and fails unless they have counted.
fn count<R: Threads + Wait + Sync>(rt: &R, machine: &mut Machine) -> Result<(), Fail> {
    Way::new(true, 1, 1, 255).make(rt, machine, 9, 3, &Open)?;
    if !have_counted(machine)? {
        return Err("the counters have counted otherwise".into());
    }
    Ok(())
}

// Whether a machine of the counters isn't refused. It then makes its rounds.
pub(crate) fn is_made<R: Threads + Wait + Sync>(
    rt: &R,
    alloc: Global,
    program: Program,
    tables: &Tables<'_>,
) -> Result<bool, Fail> {
    let Some(mut machine) = machine_unless_refused(alloc, program, tables)? else {
        return Ok(false);
    };
    count(rt, &mut machine)?;
    Ok(true)
}

#[test]
fn a_refused_machine_is_made_again(rt: HostRuntime) -> Result<(), Fail> {
    let case: Case<'_, Open> = Case::IsMade;
    if !passes(&rt, rt.alloc(), COUNTERS, &case)? {
        println!(rt; "a machine is refused")?;
        assert!(rt; passes(&rt, rt.alloc(), COUNTERS, &case)?);
    }
    Ok(())
}

// Whether the program of an example passes.
fn example_passes<R: Print + Threads + Wait + Sync>(
    rt: &R,
    alloc: Global,
    example: Example,
    case: MachineCase<'_, Open>,
) -> Result<bool, Fail> {
    passes(rt, alloc, example.text(), &Case::OnMachine(case))
}

// Makes a round, and makes it again if it is refused.
fn make_round<R: Print + Threads + Wait + Sync>(
    rt: &R,
    machine: &mut Machine,
    round: u32,
    plan: &Plan,
) -> Result<(), Fail> {
    is_young(machine)?;
    if machine.round(rt, plan, &Open).is_err() {
        println!(rt; "round {round} is refused")?;
        is_young(machine)?;
        machine.round(rt, plan, &Open)?;
    }
    Ok(())
}

// Makes the rounds of an example one after another. Returns whether the machine is as the rules say,
// as it is only if a refused round left it as it was.
pub(crate) fn make_rounds<R: Print + Threads + Wait + Sync>(
    rt: &R,
    machine: &mut Machine,
    example: Example,
    plan: &Plan,
) -> Result<bool, Fail> {
    for round in 0..example.rounds() {
        make_round(rt, machine, round, plan)?;
    }
    example.is_made(machine)
}

// Fails unless an example passes in each way, made round by round.
fn passes_by_rounds<R: Print + Threads + Wait + Sync>(
    rt: &R,
    alloc: Global,
    example: Example,
) -> Result<(), Fail> {
    for (workers, wave) in example.ways() {
        let plan = Plan::new(example.turn(), workers, 1, wave)?;
        if !example_passes(rt, alloc, example, MachineCase::ByRounds(example, plan))? {
            return Err("rounds are made otherwise".into());
        }
    }
    Ok(())
}

#[test]
fn a_refused_round_leaves_the_machine_as_it_was(rt: HostRuntime) -> Result<(), Fail> {
    passes_by_rounds(&rt, rt.alloc(), Example::Counters)
}

#[test]
fn a_refused_round_leaves_askers_as_they_were(rt: HostRuntime) -> Result<(), Fail> {
    passes_by_rounds(&rt, rt.alloc(), Example::Askers)
}

// Makes the rounds of an example in one run. If it is refused, makes those that it hasn't made.
// Returns whether the machine is as the rules say, as it is only if the rounds before the refused one
// were made, and no others.
pub(crate) fn make_run<R: Print + Threads + Wait + Sync>(
    rt: &R,
    machine: &mut Machine,
    example: Example,
    plan: &Plan,
) -> Result<bool, Fail> {
    is_young(machine)?;
    let rounds = example.rounds();
    if let Err(MemoryAt(round)) = machine.run(rt, rounds, plan, &Open) {
        println!(rt; "round {round} of a run is refused")?;
        let made = round - 1;
        is_young(machine)?;
        machine.run(rt, rounds - made, plan, &Open)?;
    }
    example.is_made(machine)
}

// Fails unless an example passes in each way, made in one run.
fn passes_by_run<R: Print + Threads + Wait + Sync>(
    rt: &R,
    alloc: Global,
    example: Example,
) -> Result<(), Fail> {
    for (workers, wave) in example.ways() {
        let plan = Plan::new(example.turn(), workers, 1, wave)?;
        if !example_passes(rt, alloc, example, MachineCase::ByRun(example, plan))? {
            return Err("a run is made otherwise".into());
        }
    }
    Ok(())
}

#[test]
fn a_refused_run_has_made_the_rounds_before(rt: HostRuntime) -> Result<(), Fail> {
    passes_by_run(&rt, rt.alloc(), Example::Counters)
}

#[test]
fn a_refused_run_of_askers_has_made_the_rounds_before(rt: HostRuntime) -> Result<(), Fail> {
    passes_by_run(&rt, rt.alloc(), Example::Askers)
}

// One of the rounds in the order of one processor, with three steps a turn.
const ROUND: &[u8] = b"P1 P1 P1 P2 P2 P2 P3 P3 P3 P4 P4 P4 K1 K2 K3 K4";

// Replays a round, and replays it again if it is refused.
fn replay_round<R: Print>(
    rt: &R,
    alloc: Global,
    machine: &mut Machine,
    turn: Turn,
) -> Result<(), Fail> {
    is_young(machine)?;
    let Ok(orders) = read_orders(alloc, ROUND, machine.processes()) else {
        return Err("the order can't be read".into());
    };
    let Some(events) = orders.round(0) else {
        return Err("the order has no round".into());
    };
    if machine.replay(events, turn).is_err() {
        println!(rt; "a replay is refused")?;
        is_young(machine)?;
        machine.replay(events, turn)?;
    }
    Ok(())
}

// Replays the rounds of the counters. Returns whether they have counted, as they have only if a
// refused replay left the machine as it was.
pub(crate) fn count_by_replays<R: Print>(
    rt: &R,
    alloc: Global,
    machine: &mut Machine,
    turn: Turn,
) -> Result<bool, Fail> {
    for _round in 0..9 {
        replay_round(rt, alloc, machine, turn)?;
    }
    have_counted(machine)
}

#[test]
fn a_refused_replay_leaves_the_machine_as_it_was(rt: HostRuntime) -> Result<(), Fail> {
    let turn = Turn::new(3)?;
    let case = MachineCase::ByReplays(turn);
    assert!(rt; example_passes(&rt, rt.alloc(), Example::Counters, case)?);
    Ok(())
}
