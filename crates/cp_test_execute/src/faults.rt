//! Reads and writes that fail at one place after another while two counting processes run, and a
//! writer that takes one byte at a time.

use super::streams::{NOWHERE, Narrow, Slow};
use super::texts::{AFTER_THREE_ROUNDS, COUNTERS, SEVEN};
use cp_base_config::plan::Plan;
use cp_base_config::run::Run;
use cp_base_config::tick::Tick;
use cp_execute::execute::{Job, execute};
use cp_frontend::refusal::Refusal;
use cp_rounds::gate::Open;
use std::alloc::{AllocError, Global};
use std::sync::Wait;
use std::test::Fail;
use std::thread::Threads;

// A run of `rounds` rounds with turns of `turn` steps.
fn job(rounds: u32, turn: u32) -> Result<Job, AllocError> {
    match (Plan::new(turn, 2, 1, 255), Tick::new(1)) {
        (Ok(plan), Ok(tick)) => Ok(Job::Run(Run {
            rounds,
            plan,
            tick,
            chains: false,
        })),
        _ => Err(AllocError),
    }
}

// The places at which the text, the input and the writer fail.
#[derive(Clone, Copy)]
struct Fails {
    text: usize,
    input: usize,
    out: usize,
}

// What `execute` returns and writes, byte by byte.
fn run<H: Threads + Wait + Sync>(
    rt: &H,
    alloc: Global,
    job: &Job,
    fails: Fails,
) -> (Result<(), Refusal>, Vec<u8>) {
    let mut text = Slow::new(COUNTERS, fails.text);
    let mut input = Slow::new(b"ab", fails.input);
    let mut out = Narrow::new(alloc, fails.out, NOWHERE);
    let answer = execute(rt, alloc, &mut text, &mut input, job, &Open, &mut out);
    (answer, out.taken)
}

#[test]
fn a_report_goes_out_byte_by_byte(rt: HostRuntime) -> Result<(), Fail> {
    let fails = Fails {
        text: NOWHERE,
        input: NOWHERE,
        out: NOWHERE,
    };
    let (answer, out) = run(&rt, rt.alloc(), &job(3, 4)?, fails);
    assert!(rt; answer == Ok(()));
    assert!(rt; out.as_slice() == AFTER_THREE_ROUNDS);
    Ok(())
}

#[test]
fn each_read_of_the_text_fails_in_turn(rt: HostRuntime) -> Result<(), Fail> {
    for text in 0..=COUNTERS.len() {
        let fails = Fails {
            text,
            input: NOWHERE,
            out: NOWHERE,
        };
        let (answer, out) = run(&rt, rt.alloc(), &job(3, 4)?, fails);
        assert!(rt; answer == Err(Refusal::Read));
        assert!(rt; out.is_empty());
    }
    Ok(())
}

#[test]
fn each_read_of_the_input_fails_in_turn(rt: HostRuntime) -> Result<(), Fail> {
    for input in 0..=2 {
        let fails = Fails {
            text: NOWHERE,
            input,
            out: NOWHERE,
        };
        let (answer, out) = run(&rt, rt.alloc(), &job(3, 4)?, fails);
        assert!(rt; answer == Err(Refusal::Read));
        assert!(rt; out.is_empty());
    }
    Ok(())
}

#[test]
fn each_write_fails_in_turn(rt: HostRuntime) -> Result<(), Fail> {
    for out in 0..AFTER_THREE_ROUNDS.len() {
        let fails = Fails {
            text: NOWHERE,
            input: NOWHERE,
            out,
        };
        let (answer, written) = run(&rt, rt.alloc(), &job(3, 4)?, fails);
        assert!(rt; answer == Err(Refusal::Write));
        assert!(rt; Some(written.as_slice()) == AFTER_THREE_ROUNDS.get(..out));
    }
    Ok(())
}

#[test]
fn a_writer_that_takes_nine_bytes_has_the_first_line(rt: HostRuntime) -> Result<(), Fail> {
    for (fails_at, full_at) in [(9, NOWHERE), (NOWHERE, 9)] {
        let mut out = Narrow::new(rt.alloc(), fails_at, full_at);
        let (mut text, mut input) = (SEVEN, b"".as_slice());
        let job = job(2, 10)?;
        let answer = execute(
            &rt,
            rt.alloc(),
            &mut text,
            &mut input,
            &job,
            &Open,
            &mut out,
        );
        assert!(rt; answer == Err(Refusal::Write));
        assert!(rt; out.taken.as_slice() == b"rounds 2\n".as_slice());
    }
    Ok(())
}

#[test]
fn a_check_reads_no_input(rt: HostRuntime) {
    let fails = Fails {
        text: NOWHERE,
        input: 0,
        out: NOWHERE,
    };
    let (answer, out) = run(&rt, rt.alloc(), &Job::Check, fails);
    assert!(rt; answer == Ok(()));
    assert!(rt; out.as_slice() == b"accepted\n".as_slice());
}
