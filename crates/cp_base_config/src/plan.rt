//! Plans: how long a turn is, and how a round is divided among workers.

ghost use Rattle.std.specs.Prelude.{◌≡◌, ◌<◌, ◌≤◌, ◌+◌, ◌*◌, ◌/◌, ◌↔◌, ℕ, IfErr, IfOk, IsOk, IsTrue};
ghost use Rattle.cp_base_config.specs.Plans.{AreInRange, ArePart, AreParts, AreThreads, AreWorkers, IsFirstOut, wave_size};

use crate::limits::{L1, MAX_CHUNK_PROCESSES, MAX_WORKERS};
use crate::turn::Turn;

/// How a round is made: a turn has at most `turn` steps, and `workers` workers draw chunks of
/// consecutive processes, wave by wave. Processes at rest are skipped, and don't count, unless the
/// hook has to be called for them.
#[derive(Clone, Copy)]
pub struct Plan {
    pub turn: Turn,
    /// From 1 to 64.
    pub workers: u32,
    /// The processes of a chunk, from 1 to 255.
    pub chunk: u32,
    /// The processes of a wave, from 1 to 255.
    pub wave: u32,
    ghost workers_in_range: { AreWorkers workers },
    ghost chunk_in_range: { ArePart chunk },
    ghost wave_in_range: { ArePart wave },
}

fn is_within(number: u32, most: u32) -> bool
    ensures { IsTrue result ↔ ((1 ≤ number) × (number ≤ most)) }
{
    1 <= number && number <= most
}

// The number of parts of at most `size` items that `all` items have.
fn parts_of(all: usize, size: usize) -> usize
    requires some { 0 < size }
    ensures parts { AreParts result size all }
    ensures most { result ≤ all }
{
    all / size + if all % size == 0 { 0 } else { 1 }
}

impl Plan {
    /// The plan with these numbers.
    ///
    /// # Errors
    ///
    /// `L1` with the first field that is out of range, in the order turn, workers, chunk, wave.
    pub fn new(turn: u32, workers: u32, chunk: u32, wave: u32) -> Result<Plan, L1>
        ensures range { IsOk result ↔ AreInRange turn workers chunk wave }
        ensures turn { IfOk result (λ plan. plan.turn.steps ≡ turn) }
        ensures workers { IfOk result (λ plan. plan.workers ≡ workers) }
        ensures chunk { IfOk result (λ plan. plan.chunk ≡ chunk) }
        ensures wave { IfOk result (λ plan. plan.wave ≡ wave) }
        ensures first { IfErr result (IsFirstOut turn workers chunk wave) }
    {
        let turn = Turn::new(turn)?;
        if !is_within(workers, MAX_WORKERS) {
            return Err(L1::Workers);
        }
        if !is_within(chunk, MAX_CHUNK_PROCESSES) {
            return Err(L1::Chunk);
        }
        if !is_within(wave, MAX_CHUNK_PROCESSES) {
            return Err(L1::Wave);
        }
        Ok(Plan {
            turn,
            workers,
            chunk,
            wave,
        })
    }

    /// The number of waves that a round of `processes` processes has.
    pub fn waves(&self, processes: usize) -> usize
        ensures parts { AreParts result self.now.wave processes }
        ensures most { result ≤ processes }
    {
        parts_of(processes, self.wave as usize)
    }

    /// The number of chunks that the wave at this index has, in a round of `processes` processes.
    pub fn chunks(&self, wave: usize, processes: usize) -> usize
        ensures parts { AreParts result self.now.chunk
            (wave_size self.now.wave wave processes) }
        ensures most { result ≤ MAX_CHUNK_PROCESSES }
        ensures each { (j : ℕ) → j < self.now.wave → wave * self.now.wave + j < processes
            → j / self.now.chunk < result }
    {
        let first = wave.saturating_mul(self.wave as usize);
        let size = processes.saturating_sub(first).min(self.wave as usize);
        parts_of(size, self.chunk as usize)
    }

    /// The number of threads that make the rounds of `processes` processes: at most one for each
    /// chunk of a wave. If there are several waves there is one more, because the calling thread
    /// makes the kernel turns of a wave alongside the next one.
    pub fn threads(&self, processes: usize) -> usize
        ensures count { AreThreads self.now.workers self.now.chunk self.now.wave processes result }
        ensures most { result ≤ self.now.workers }
    {
        let wave = (self.wave as usize).min(processes);
        let chunks = parts_of(wave, self.chunk as usize);
        let beside = if wave < processes { 1 } else { 0 };
        (self.workers as usize).min(chunks + beside)
    }
}
