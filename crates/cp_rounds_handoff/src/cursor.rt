//! The places of a round's turns at the handoff queue, one after another.

use cp_base_config::plan::Plan;

/// A place at the handoff queue: a slot in a chunk. Chunks are numbered through all waves.
#[derive(Clone, Copy)]
pub struct Cursor {
    pub chunk: usize,
    pub slot: usize,
    /// How many places of its wave come before it.
    in_wave: usize,
}

impl Cursor {
    /// The first place.
    pub fn first() -> Cursor {
        Cursor {
            chunk: 0,
            slot: 0,
            in_wave: 0,
        }
    }

    /// Whether it is the first place of a wave.
    pub fn begins_wave(&self) -> bool {
        self.in_wave == 0
    }

    /// The next place.
    #[inline(always)]
    pub fn next(self, plan: &Plan) -> Cursor {
        let in_wave = self.in_wave.wrapping_add(1);
        let slot = self.slot.wrapping_add(1);
        let ends_wave = in_wave == plan.wave as usize;
        let ends_chunk = ends_wave || slot == plan.chunk as usize;
        Cursor {
            chunk: if ends_chunk {
                self.chunk.wrapping_add(1)
            } else {
                self.chunk
            },
            slot: if ends_chunk { 0 } else { slot },
            in_wave: if ends_wave { 0 } else { in_wave },
        }
    }
}
