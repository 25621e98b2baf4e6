//! Private states with the same content.

ghost use Rattle.std.specs.Prelude.{◌≡◌, ◌≤◌, ℕ, List, true, length};
ghost use Rattle.cp_private.specs.Sameness.{HasSameRegisters, HasSameWords};
ghost use Rattle.cp_private.specs.States.{frame, frames_in, private_of};

use crate::private::{Frame, Private};

fn is_same_frame(one: &Frame, other: &Frame) -> bool
    ensures { result ≡ true → frame one.now ≡ frame other.now }
{
    one.base == other.base
        && one.counter == other.counter
        && one.temp == other.temp
        && one.component == other.component
        && one.into == other.into
        && one.gate == other.gate
        && one.held == other.held
}

// Whether the first `depth` frames are the same.
fn are_same_frames(ones: &[Frame], others: &[Frame], depth: usize) -> bool
    requires ones { depth ≤ length ones.now }
    requires others { depth ≤ length others.now }
    ensures { result ≡ true → frames_in depth ones.now ≡ frames_in depth others.now }
{
    for i in 0..depth {
        if !is_same_frame(&ones[i], &others[i]) {
            return false;
        }
    }
    true
}

fn are_same_words(ones: &[i32], others: &[i32]) -> bool
    ensures { result ≡ true → ones.now ≡ others.now }
{
    ones == others
}

fn are_same_bytes(ones: &[u8], others: &[u8]) -> bool
    ensures { result ≡ true → ones.now ≡ others.now }
{
    ones == others
}

impl Private {
    fn has_same_registers(&self, other: &Private) -> bool
        ensures { result ≡ true → HasSameRegisters self.now other.now }
    {
        self.number == other.number
            && self.activity == other.activity
            && self.counter == other.counter
            && self.gate == other.gate
            && self.memory.base == other.memory.base
            && self.memory.temp == other.memory.temp
            && self.memory.component == other.memory.component
            && self.depth == other.depth
            && self.frames.len() == other.frames.len()
            && self.consumed == other.consumed
    }

    fn has_same_words(&self, other: &Private) -> bool
        ensures { result ≡ true → HasSameWords self.now other.now }
    {
        are_same_words(&self.memory.words, &other.memory.words)
            && are_same_words(&self.memory.temps, &other.memory.temps)
            && are_same_bytes(&self.output, &other.output)
    }

    /// Whether both have the same content. Only the answer `true` is proved to be right.
    pub fn is_same(&self, other: &Private) -> bool
        ensures { result ≡ true → (input : List ℕ)
            → private_of self.now input ≡ private_of other.now input }
    {
        if !self.has_same_registers(other) || !self.has_same_words(other) {
            return false;
        }
        if other.frames.len() < self.depth {
            return false;
        }
        are_same_frames(&self.frames, &other.frames, self.depth)
    }
}
