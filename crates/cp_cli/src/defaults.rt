//! The numbers that represent options that aren't given.

use crate::numbers::MAX_ROUNDS;
use cp_base_config::limits::MAX_CHUNK_PROCESSES;

/// The rounds of a run.
pub const ROUNDS: u32 = 2;

/// The most rounds that an outcome makes.
pub const LIMIT: u32 = 10_000;

/// The first round that a trace reports.
pub const FROM: u32 = 1;

/// The last round that a trace reports.
pub const TO: u32 = MAX_ROUNDS;

/// The steps of a turn.
pub const TURN: u32 = 100;

/// The workers.
pub const WORKERS: u32 = 2;

/// The processes of a chunk.
pub const CHUNK: u32 = 1;

/// The processes of a wave.
pub const WAVE: u32 = MAX_CHUNK_PROCESSES;

/// The rounds between two ticks of the clock.
pub const TICK: u32 = 1;

/// The most states that a search keeps.
pub const STATES: u32 = 1_000_000;

/// The megabytes that the states of a search may take.
pub const MEMORY: u32 = 2_000;
