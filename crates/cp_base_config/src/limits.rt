//! The ranges of the numbers of a plan or a clock, which begin at 1, and a number that is out of
//! its range.

/// The most steps in a turn.
pub const MAX_TURN_STEPS: u32 = 10_000;

/// The most workers of a plan.
pub const MAX_WORKERS: u32 = 64;

/// The most processes in a chunk or a wave.
pub const MAX_CHUNK_PROCESSES: u32 = 255;

/// The most rounds between two ticks of the clock.
pub const MAX_TICK_ROUNDS: u32 = 1_000_000;

/// Refusal L1: the field of a plan or a clock whose number is out of its range.
#[derive(Clone, Copy, Debug)]
pub enum L1 {
    Turn,
    Workers,
    Chunk,
    Wave,
    Tick,
}
