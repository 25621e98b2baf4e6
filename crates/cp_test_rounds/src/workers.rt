//! Rounds by several threads: which turns are made at the same time, and when the hook is called.

use crate::cases::{Case, MachineCase, passes};
use crate::gates::{
    Counting, CountingKernelTurns, EachWaits, Meeting, PrivateTurnsMeet, WavesMeet,
};
use crate::ways::Way;
use cp_rounds::gate::TurnGate;
use cp_rounds::machine::Machine;
use std::alloc::Global;
use std::io::Print;
use std::sync::Wait;
use std::test::Fail;
use std::thread::Threads;

// From round 4 on all processes have ended, and the hook is still called for each of them.
const TWO: &str = "type p = process; begin display(7) end; var a, b: p; begin init a, b end.";

const FOUR: &str =
    "type p = process; begin display(7) end; var a, b, c, d: p; begin init a, b, c, d end.";

// Two processes that compute forever.
const COUNTERS: &str = "type p = process; var x: integer; begin cycle x := (x + 1) mod 100 end end;
    var a, b: p; begin init a, b end.";

const FOUR_COUNTERS: &str =
    "type p = process; var x: integer; begin cycle x := (x + 1) mod 100 end end;
    var a, b, c, d: p; begin init a, b, c, d end.";

// Rounds of a machine with a hook.
#[derive(Drop)]
pub(crate) struct Rounds<'g, G> {
    way: Way,
    rounds: u32,
    turn: u32,
    gate: &'g G,
}

impl<'g, G: TurnGate> Rounds<'g, G> {
    // Makes the rounds. Returns true.
    pub(crate) fn make<R: Threads + Wait + Sync>(
        &self,
        rt: &R,
        machine: &mut Machine,
    ) -> Result<bool, Fail> {
        self.way
            .make(rt, machine, self.rounds, self.turn, self.gate)?;
        Ok(true)
    }
}

// Makes rounds of the machine of a text.
fn make<R: Print + Threads + Wait + Sync, G: TurnGate>(
    rt: &R,
    alloc: Global,
    text: &str,
    way: Way,
    rounds: u32,
    turn: u32,
    gate: &G,
) -> Result<(), Fail> {
    let rounds = Rounds {
        way,
        rounds,
        turn,
        gate,
    };
    let case = Case::OnMachine(MachineCase::Rounds(rounds));
    passes(rt, alloc, text, &case)?;
    Ok(())
}

#[test]
fn two_private_turns_are_made_at_once(rt: HostRuntime) -> Result<(), Fail> {
    for is_run in [true, false] {
        let gate = PrivateTurnsMeet {
            meeting: Meeting::new(),
            allows_batching: false,
        };
        let way = Way::new(is_run, 2, 1, 255);
        make(&rt, rt.alloc(), TWO, way, 1000, 10, &gate)?;
        assert!(rt; gate.meeting.is_seen_by_both(), "run: {is_run}");
    }
    Ok(())
}

// cpm's own hook allows batching, too: its threads share the turns of processes that compute.
#[test]
fn turns_that_are_batched_are_made_at_once(rt: HostRuntime) -> Result<(), Fail> {
    let gate = PrivateTurnsMeet {
        meeting: Meeting::new(),
        allows_batching: true,
    };
    let way = Way::new(true, 2, 1, 255);
    make(&rt, rt.alloc(), COUNTERS, way, 100, 10_000, &gate)?;
    assert!(rt; gate.meeting.is_seen_by_both());
    Ok(())
}

#[test]
fn no_process_with_batched_turns_is_kept_for_one_worker(rt: HostRuntime) -> Result<(), Fail> {
    let gate = EachWaits::new(true);
    let way = Way::new(true, 2, 1, 255);
    make(&rt, rt.alloc(), FOUR_COUNTERS, way, 100, 10_000, &gate)?;
    assert!(rt; gate.each_has_seen_all());
    Ok(())
}

#[test]
fn a_kernel_turn_is_made_beside_the_next_wave(rt: HostRuntime) -> Result<(), Fail> {
    for is_run in [true, false] {
        let gate = WavesMeet(Meeting::new());
        let way = Way::new(is_run, 2, 1, 1);
        make(&rt, rt.alloc(), TWO, way, 1000, 10, &gate)?;
        assert!(rt; gate.0.is_seen_by_both(), "run: {is_run}");
    }
    Ok(())
}

#[test]
fn no_process_is_kept_for_one_worker(rt: HostRuntime) -> Result<(), Fail> {
    for is_run in [true, false] {
        let gate = EachWaits::new(false);
        let way = Way::new(is_run, 2, 1, 255);
        make(&rt, rt.alloc(), FOUR, way, 1000, 10, &gate)?;
        assert!(rt; gate.each_has_seen_all(), "run: {is_run}");
    }
    Ok(())
}

// The hook is called for turns without a step too: the processes are unstarted in round 1, and
// ended from round 4 on.
#[test]
fn the_gate_is_called_once_for_each_turn(rt: HostRuntime) -> Result<(), Fail> {
    for is_run in [true, false] {
        for wave in [1, 2, 3, 255] {
            let gate = Counting::new();
            let way = Way::new(is_run, 64, 1, wave);
            make(&rt, rt.alloc(), TWO, way, 5, 1, &gate)?;
            assert!(rt;
                gate.calls() == [(0, 0), (5, 5), (5, 5), (5, 5)],
                "run: {is_run}, wave {wave}"
            );
        }
    }
    Ok(())
}

// Private turns are made ahead of their rounds, and each kernel turn is still announced.
#[test]
fn a_gate_hears_of_each_kernel_turn_of_rounds_made_at_once(rt: HostRuntime) -> Result<(), Fail> {
    let gate = CountingKernelTurns(Counting::new());
    make(
        &rt,
        rt.alloc(),
        COUNTERS,
        Way::new(true, 2, 1, 255),
        300,
        100,
        &gate,
    )?;
    assert!(rt; gate.0.calls() == [(0, 0), (0, 300), (0, 300), (0, 300)]);
    Ok(())
}
