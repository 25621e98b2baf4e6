//! Kernel turns: the kernel's steps of a process, and the move of its output to its transcript.

ghost use Rattle.std.specs.Prelude.{◌≡◌, ◌≤◌, ◌<◌, ◌+◌, ◌*◌, ℕ, List, [], false, true, length, vec_capacity, vec_len};
ghost use Rattle.cp_private.specs.Rooms.{HasRoomFor, KeepsRoom};
ghost use Rattle.cp_private.specs.States.{activity, private_of};
ghost use Rattle.cp_model_machine.specs.KernelSteps as plain;
ghost use Rattle.cp_program.specs.View as view;
ghost use Rattle.cp_model_machine.specs.PrivateStates.{is_running};
ghost use Rattle.cp_kernel.specs.KernelOf.{HasRoomForAskers, HasRoomForBytes, IsAmong, IsBegun, kernel_of, turning};
ghost use Rattle.cp_kernel.specs.Promises.{MakesKernelTurn};
ghost use Rattle.cp_kernel.specs.Turns.{IsTurned, Moves};

use crate::kernel::Kernel;
use crate::step::{is_due, kernel_step, try_in_registers};
use cp_base_config::turn::Turn;
use cp_model::law::invariant;
use cp_model_machine::law;
use cp_private::private::Private;
use cp_private::turns::FastKernelPath;
use cp_program::program::Program;

// Makes at most `count` steps that take no more than registers, of a process that holds a gate, and
// none after one that leaves it. Returns how many are left.
#[inline(always)]
fn take_fast_steps(program: &Program, kernel: &mut Kernel, private: &mut Private, count: u32) -> u32
    requires running { is_running (activity private.old.activity) ≡ true }
    requires begun { IsBegun kernel.old private.old.number }
    ensures steps { (clock : ℕ) (input : List ℕ)
        → plain.kernel_steps (view.program program.now) clock result
        (turning kernel.new private.new input) ≡ plain.kernel_steps (view.program program.now)
        clock count (turning kernel.old private.old input) }
    ensures few { result ≤ count }
    ensures same { result ≡ count → (input : List ℕ)
        → turning kernel.new private.new input ≡ turning kernel.old private.old input }
    ensures asking { (n : ℕ) → HasRoomForAskers kernel.old n → HasRoomForAskers kernel.new n }
    ensures number { private.new.number ≡ private.old.number }
    ensures output { private.new.output ≡ private.old.output }
    ensures transcripts { kernel.new.transcripts ≡ kernel.old.transcripts }
{
    if !private.holds_gate() {
        return count;
    }
    let mut left = count;
    while left > 0 {
        match try_in_registers(program, kernel, private) {
            FastKernelPath::Made => left -= 1,
            FastKernelPath::Returned(_) => return left - 1,
            FastKernelPath::NotMade => return left,
        }
    }
    left
}

// Makes some of at most `count` steps, of which the next one is due: those that take no more than
// registers, or else one. Returns how many are left.
#[inline(always)]
fn take_some_steps(
    program: &Program,
    kernel: &mut Kernel,
    private: &mut Private,
    input: &[u8],
    clock: u64,
    count: u32,
) -> u32
    requires due { plain.is_due (view.program program.now)
        (turning kernel.old private.old input.now) ≡ true }
    requires among { IsAmong kernel.old private.old.number }
    requires begun { IsBegun kernel.old private.old.number }
    requires asking { HasRoomForAskers kernel.old 1 }
    requires output { HasRoomFor private.old 1 }
    requires some { 0 < count }
    ensures steps { plain.kernel_steps (view.program program.now) clock result
        (turning kernel.new private.new input.now) ≡ plain.kernel_steps
        (view.program program.now) clock count (turning kernel.old private.old input.now) }
    ensures fewer { result < count }
    ensures asking { (n : ℕ) → HasRoomForAskers kernel.old (n + 1) → HasRoomForAskers kernel.new n }
    ensures kept { (n : ℕ) → IsBegun kernel.new private.old.number
        → HasRoomForAskers kernel.old n → HasRoomForAskers kernel.new n }
    ensures number { private.new.number ≡ private.old.number }
    ensures output { KeepsRoom private.old private.new }
    ensures transcripts { kernel.new.transcripts ≡ kernel.old.transcripts }
{
    let left = take_fast_steps(program, kernel, private, count);
    if left < count {
        return left;
    }
    kernel_step(program, kernel, private, input, clock);
    count - 1
}

// Makes at most `count` steps, of which the first one is due, as long as the next one is.
#[inline(never)]
fn take_due_steps(
    program: &Program,
    kernel: &mut Kernel,
    private: &mut Private,
    input: &[u8],
    clock: u64,
    count: u32,
)
    requires due { plain.is_due (view.program program.now)
        (turning kernel.old private.old input.now) ≡ true }
    requires among { IsAmong kernel.old private.old.number }
    requires begun { IsBegun kernel.old private.old.number }
    requires asking { HasRoomForAskers kernel.old 1 }
    requires output { HasRoomFor private.old count }
    ensures steps { turning kernel.new private.new input.now ≡ plain.kernel_steps
        (view.program program.now) clock count (turning kernel.old private.old input.now) }
    ensures asking { (n : ℕ) → HasRoomForAskers kernel.old (n + 1) → HasRoomForAskers kernel.new n }
    ensures transcripts { kernel.new.transcripts ≡ kernel.old.transcripts }
    ensures number { private.new.number ≡ private.old.number }
    ensures length { vec_len private.new.output ≤ vec_len private.old.output + 11 * count }
    ensures capacity { vec_capacity private.old.output ≤ vec_capacity private.new.output }
{
    let mut left = count;
    let mut due = true;
    while left > 0 && due {
        left = take_some_steps(program, kernel, private, input, clock, left);
        due = is_due(program, kernel, private);
    }
}

// Makes at most `count` steps, as long as the next one is due. The first test is inlined, so that
// the turn of a process that can't move costs no call.
#[inline(always)]
fn take_steps(
    program: &Program,
    kernel: &mut Kernel,
    private: &mut Private,
    input: &[u8],
    clock: u64,
    count: u32,
)
    requires among { IsAmong kernel.old private.old.number }
    requires asking { HasRoomForAskers kernel.old 1 }
    requires output { HasRoomFor private.old count }
    ensures steps { turning kernel.new private.new input.now ≡ plain.kernel_steps
        (view.program program.now) clock count (turning kernel.old private.old input.now) }
    ensures asking { (n : ℕ) → HasRoomForAskers kernel.old (n + 1) → HasRoomForAskers kernel.new n }
    ensures transcripts { kernel.new.transcripts ≡ kernel.old.transcripts }
    ensures number { private.new.number ≡ private.old.number }
    ensures length { vec_len private.new.output ≤ vec_len private.old.output + 11 * count }
    ensures capacity { vec_capacity private.old.output ≤ vec_capacity private.new.output }
{
    if is_due(program, kernel, private) {
        take_due_steps(program, kernel, private, input, clock, count);
    }
}

impl Kernel {
    // Appends bytes to the transcript of process p.
    fn append(&mut self, p: usize, bytes: &[u8])
        requires room { HasRoomForBytes self.old p (length bytes.now) }
        ensures kernel { kernel_of self.new ≡ kernel_of self.old }
        ensures gates { self.new.gates ≡ self.old.gates }
        ensures moves { Moves self.old self.new p bytes.now }
        ensures left { (n : ℕ) → HasRoomForBytes self.old p (length bytes.now + n)
            → HasRoomForBytes self.new p n }
    {
        let Some(transcript) = self.transcripts.get_mut(p.saturating_sub(1)) else {
            return;
        };
        let added = transcript.extend_from_slice(bytes);
        prove!(added.is_ok());
    }
}

// Moves what the process wrote to its transcript.
fn move_output(kernel: &mut Kernel, private: &mut Private)
    requires room { HasRoomForBytes kernel.old private.old.number (vec_len private.old.output) }
    ensures kernel { kernel_of kernel.new ≡ kernel_of kernel.old }
    ensures gates { kernel.new.gates ≡ kernel.old.gates }
    ensures private { (input : List ℕ) → private_of private.new input
        ≡ record (private_of private.old input) { output = [] } }
    ensures moves { Moves kernel.old kernel.new private.old.number private.old.output.items }
    ensures left { (n : ℕ)
        → HasRoomForBytes kernel.old private.old.number (vec_len private.old.output + n)
        → HasRoomForBytes kernel.new private.old.number n }
    ensures number { private.new.number ≡ private.old.number }
    ensures empty { vec_len private.new.output ≡ 0 }
    ensures capacity { vec_capacity private.old.output ≤ vec_capacity private.new.output }
{
    if private.output().is_empty() {
        return;
    }
    kernel.append(private.number(), private.output());
    private.clear_output();
}

#[inline(always)]
fn has_nothing_to_do(program: &Program, kernel: &Kernel, private: &Private) -> bool
    ensures due { result ≡ true → (input : List ℕ) → plain.is_due (view.program program.now)
        (turning kernel.now private.now input) ≡ false }
    ensures empty { result ≡ true → private.now.output.items ≡ [] }
{
    private.output().is_empty() && !is_due(program, kernel, private)
}

/// Whether the kernel turn of a process has neither a step to make nor output to move. It
/// then leaves everything as it is.
#[inline(always)]
pub fn has_no_kernel_turn(program: &Program, kernel: &Kernel, private: &Private) -> bool
    ensures turn { result ≡ true → (clock n : ℕ) (input : List ℕ)
        → IsTurned (view.program program.now) clock n kernel.now kernel.now private.now private.now
        input }
    ensures empty { result ≡ true → private.now.output.items ≡ [] }
{
    has_nothing_to_do(program, kernel, private)
}

// Makes the steps of a kernel turn, and moves the output.
#[inline(always)]
fn take_turn(
    program: &Program,
    kernel: &mut Kernel,
    private: &mut Private,
    input: &[u8],
    clock: u64,
    turn: Turn,
)
    requires among { IsAmong kernel.old private.old.number }
    requires asking { HasRoomForAskers kernel.old 1 }
    requires output { HasRoomFor private.old turn.steps }
    requires transcript { HasRoomForBytes kernel.old private.old.number
        (vec_len private.old.output + 11 * turn.steps) }
    ensures turn { IsTurned (view.program program.now) clock turn.steps kernel.old kernel.new
        private.old private.new input.now }
    ensures asking { (n : ℕ) → HasRoomForAskers kernel.old (n + 1) → HasRoomForAskers kernel.new n }
    ensures left { (n : ℕ) → HasRoomForBytes kernel.old private.old.number
        (vec_len private.old.output + 11 * turn.steps + n)
        → HasRoomForBytes kernel.new private.old.number n }
    ensures number { private.new.number ≡ private.old.number }
    ensures empty { vec_len private.new.output ≡ 0 }
    ensures capacity { vec_capacity private.old.output ≤ vec_capacity private.new.output }
{
    take_steps(program, kernel, private, input, clock, turn.steps());
    move_output(kernel, private);
}

/// Makes the kernel turn of a process: at most as many steps as the turn has, as long as the next
/// one is the kernel's. Then the output of the process, including that of its private turn, moves
/// to its transcript. It takes no memory: `reserve_askers` and `reserve_bytes` reserve the room. A
/// step writes at most 11 bytes, and the turn asks for at most one gate. Room for more bytes than
/// that is left in the transcript.
#[inline(always)]
pub fn kernel_turn(
    program: &Program,
    kernel: &mut Kernel,
    private: &mut Private,
    input: &[u8],
    clock: u64,
    turn: Turn,
)
    requires among { IsAmong kernel.old private.old.number }
    requires asking { HasRoomForAskers kernel.old 1 }
    requires output { HasRoomFor private.old turn.steps }
    requires transcript { HasRoomForBytes kernel.old private.old.number
        (vec_len private.old.output + 11 * turn.steps) }
    ensures turn { IsTurned (view.program program.now) clock turn.steps kernel.old kernel.new
        private.old private.new input.now }
    ensures meaning { MakesKernelTurn program.now turn.steps kernel.old private.old kernel.new
        private.new input.now clock }
    ensures asking { (n : ℕ) → HasRoomForAskers kernel.old (n + 1) → HasRoomForAskers kernel.new n }
    ensures left { (n : ℕ) → HasRoomForBytes kernel.old private.old.number
        (vec_len private.old.output + 11 * turn.steps + n)
        → HasRoomForBytes kernel.new private.old.number n }
    ensures number { private.new.number ≡ private.old.number }
    ensures empty { vec_len private.new.output ≡ 0 }
    ensures capacity { vec_capacity private.old.output ≤ vec_capacity private.new.output }
{
    law::kernel_steps();
    law::between_turns();
    invariant();
    take_turn(program, kernel, private, input, clock, turn);
}
