//! Reads and writes of a replay that fail at one place after another.

use super::streams::{NOWHERE, Narrow, Slow};
use super::texts::{AFTER_SEVEN, SEVEN};
use cp_base_config::run::Replay;
use cp_base_config::tick::Tick;
use cp_base_config::turn::Turn;
use cp_execute::execute_order::execute_order;
use cp_frontend::refusal::Refusal;
use std::alloc::{AllocError, Global};
use std::test::Fail;

const ORDER: &[u8] = b"K1\nP2 P1 P1";

// The places at which the text, the order and the writer fail.
#[derive(Clone, Copy)]
struct Fails {
    text: usize,
    order: usize,
    out: usize,
}

const NEVER: Fails = Fails {
    text: NOWHERE,
    order: NOWHERE,
    out: NOWHERE,
};

fn replay_slowly(
    alloc: Global,
    fails: Fails,
) -> Result<(Result<(), Refusal>, Vec<u8>), AllocError> {
    let (Ok(turn), Ok(tick)) = (Turn::new(10), Tick::new(1)) else {
        return Err(AllocError);
    };
    let replay = Replay {
        turn,
        tick,
        chains: false,
    };
    let mut text = Slow::new(SEVEN, fails.text);
    let mut order = Slow::new(ORDER, fails.order);
    let mut input = b"".as_slice();
    let mut out = Narrow::new(alloc, fails.out, NOWHERE);
    let answer = execute_order(alloc, &mut text, &mut input, &mut order, &replay, &mut out);
    Ok((answer, out.taken))
}

#[test]
fn reads_and_writes_of_a_replay_fail_in_turn(rt: HostRuntime) -> Result<(), Fail> {
    for text in 0..=SEVEN.len() {
        let (answer, out) = replay_slowly(rt.alloc(), Fails { text, ..NEVER })?;
        assert!(rt; answer == Err(Refusal::Read) && out.is_empty());
    }
    for order in 0..=ORDER.len() {
        let (answer, out) = replay_slowly(rt.alloc(), Fails { order, ..NEVER })?;
        assert!(rt; answer == Err(Refusal::Read) && out.is_empty());
    }
    for at in 0..AFTER_SEVEN.len() {
        let (answer, out) = replay_slowly(rt.alloc(), Fails { out: at, ..NEVER })?;
        assert!(rt; answer == Err(Refusal::Write));
        assert!(rt; Some(out.as_slice()) == AFTER_SEVEN.get(..at));
    }
    let (answer, out) = replay_slowly(rt.alloc(), NEVER)?;
    assert!(rt; answer == Ok(()) && out.as_slice() == AFTER_SEVEN);
    Ok(())
}
