//! The private state of a process.

ghost use Rattle.std.specs.Prelude.{◌≡◌, ◌≤◌, ◌<◌, ◌^◌, length};

use cp_model::state::Fault;
use cp_program::reach::Memory;
use smallvec::SmallVec;

/// Whether a process runs.
#[derive(Clone, Copy, Debug, PartialEq, Eq)]
pub enum Activity {
    /// The process is unstarted, or was started in the current round.
    NotBegun,
    Running,
    /// The process waits for the clock.
    Waiting,
    Ended,
    Faulted(Fault),
}

/// The number of frames that are within a private state, and take no memory of their own.
pub(crate) const FRAMES_WITHIN: usize = 1;

/// What a call keeps for its caller.
#[derive(Clone, Copy)]
pub(crate) struct Frame {
    /// Not cut to 32 bits, so that a frame takes 32 bytes and is found by a shift.
    pub(crate) base: usize,
    /// The number of the operation at which the caller continues.
    pub(crate) counter: u32,
    pub(crate) temp: u32,
    pub(crate) component: u32,
    /// The temp of the caller that receives the value.
    pub(crate) into: u32,
    /// The monitor that was entered, or 0.
    pub(crate) gate: u32,
    /// The gate that was held before the call, or 0.
    pub(crate) held: u32,
    ghost small: { base < 2 ^ 32 },
}

impl Default for Frame {
    fn default() -> Frame {
        Frame {
            base: 0,
            counter: 0,
            temp: 0,
            component: 0,
            into: 0,
            gate: 0,
            held: 0,
        }
    }
}

/// The private state of a process.
#[derive(Drop)]
pub struct Private {
    /// The number of the process, from 1.
    pub(crate) number: usize,
    pub(crate) activity: Activity,
    /// The number of its next operation.
    pub(crate) counter: u32,
    /// The number of the operation of its last call, `delay` or `wait`, which is the one after
    /// which it waits, if it waits. No step reads it.
    pub(crate) pause: u32,
    /// The innermost gate that the process holds, or 0.
    pub(crate) gate: u32,
    /// The words of its component followed by those of the running activations, and the temps,
    /// which hold the values of calls and the counters of `for`.
    pub(crate) memory: Memory,
    /// Room for all frames. The first `depth` frames are in use.
    pub(crate) frames: SmallVec<Frame, FRAMES_WITHIN>,
    pub(crate) depth: usize,
    /// The number of frames, so that a call needn't test where they are to find it.
    pub(crate) limit: usize,
    /// The output that isn't in the transcript yet.
    pub(crate) output: Vec<u8>,
    /// The number of input bytes that the process has taken.
    pub(crate) consumed: usize,
    ghost facts: { (number < 2 ^ 31) × (length memory.words.items < 2 ^ 30)
        × (length memory.temps.items < 2 ^ 31) × (depth ≤ length frames.items)
        × (limit ≡ length frames.items) },
}
