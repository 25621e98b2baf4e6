//! Private states that are made the same as others, without new memory.

ghost use Rattle.std.specs.Prelude.{◌≡◌, ◌≤◌, ℕ, List, true, length};
ghost use Rattle.cp_private.specs.Sameness.{HasSameRoom};
ghost use Rattle.cp_private.specs.States.{frames_in, private_of};

use crate::private::{Frame, Private};

// Copies the first `depth` frames.
fn assign_frames(frames: &mut [Frame], others: &[Frame], depth: usize)
    requires frames { depth ≤ length frames.old }
    requires others { depth ≤ length others.now }
    ensures same { frames_in depth frames.new ≡ frames_in depth others.now }
    ensures count { length frames.new ≡ length frames.old }
{
    for i in 0..depth {
        frames[i] = others[i];
    }
}

impl Private {
    // Whether both are of the same process, with as much room, and the other one has no output.
    fn has_same_room(&self, other: &Private) -> bool
        ensures { result ≡ true → HasSameRoom self.now other.now }
    {
        self.number == other.number
            && self.memory.words.len() == other.memory.words.len()
            && self.memory.temps.len() == other.memory.temps.len()
            && self.frames.len() == other.frames.len()
            && other.output.len() == 0
    }

    /// Makes the private state the same as another one of its process, which has no output. Returns
    /// whether it is such a one.
    pub fn assign(&mut self, other: &Private) -> bool
        ensures { result ≡ true → (input : List ℕ)
            → private_of self.new input ≡ private_of other.now input }
    {
        if !self.has_same_room(other) {
            return false;
        }
        self.memory.words.copy_from_slice(&other.memory.words);
        self.memory.temps.copy_from_slice(&other.memory.temps);
        assign_frames(&mut self.frames, &other.frames, other.depth);
        self.activity = other.activity;
        self.counter = other.counter;
        self.pause = other.pause;
        self.gate = other.gate;
        self.memory.base = other.memory.base;
        self.memory.temp = other.memory.temp;
        self.memory.component = other.memory.component;
        self.depth = other.depth;
        self.consumed = other.consumed;
        self.output.clear();
        true
    }
}
