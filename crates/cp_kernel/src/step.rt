//! One step of the kernel: a step inside a monitor, or one that enters or initialises a monitor or
//! starts a process.

ghost use Rattle.std.specs.Prelude.{◌≡◌, ◌≢◌, ◌≤◌, ◌+◌, ◌-◌, ◌*◌, ◌++◌, true, ℕ, List, None, IfSome, length};
ghost use Rattle.cp_private.specs.FastStep.{left_by};
ghost use Rattle.cp_private.specs.Rooms.{HasRoomFor, KeepsRoom};
ghost use Rattle.cp_private.specs.States.{private_of};
ghost use Rattle.cp_private.specs.States.{activity, effect, join};
ghost use Rattle.cp_private.specs.declared.turns.FastKernelPath.TheVariants as fast_kernel_path_case;
ghost use Rattle.cp_model_machine.specs.PrivateStates.{is_running};
ghost use Rattle.cp_model_machine.specs.KernelSteps as plain;
ghost use Rattle.cp_model_machine.specs.Steps.{step_with};
ghost use Rattle.cp_program.specs.View as view;
ghost use Rattle.cp_kernel.specs.Due;
ghost use Rattle.cp_kernel.specs.KernelOf.{HasRoomForAskers, IsAmong, IsBegun, turning};

use crate::kernel::Kernel;
use cp_private::effect::Effect;
use cp_private::kind::{Kind, next_kind};
use cp_private::outside::StepContext;
use cp_private::private::Private;
use cp_private::turns::{FastKernelPath, step, step_in_registers};
use cp_program::program::Program;

fn is_kernel(kind: Kind) -> bool
    ensures { result ≡ Due.is_kernel kind }
{
    matches!(kind, Kind::Kernel)
}

// Whether the next step is the kernel's and may be made.
#[inline(always)]
pub(crate) fn is_due(program: &Program, kernel: &Kernel, private: &Private) -> bool
    ensures due { (input : List ℕ) → result ≡ plain.is_due (view.program program.now)
        (turning kernel.now private.now input) }
    ensures begun { result ≡ true → IsBegun kernel.now private.now.number }
{
    // Few processes get past the first test.
    if !is_kernel(next_kind(program, private)) {
        return false;
    }
    kernel.is_begun(private.number() as u32)
}

// Makes one step of the process, without its effect on the kernel.
fn act(
    program: &Program,
    kernel: &mut Kernel,
    private: &mut Private,
    input: &[u8],
    clock: u64,
) -> Effect
    requires { HasRoomFor private.old 1 }
    ensures step { let x = turning kernel.old private.old input.now in
        (join private.new input.now kernel.new.shared.items, effect result) ≡ step_with
        (view.program program.now) (plain.outside clock x) (plain.join_words x) }
    ensures own { length private.new.memory.words.items ≡ length private.old.memory.words.items }
    ensures number { private.new.number ≡ private.old.number }
    ensures output { KeepsRoom private.old private.new }
    ensures gates { kernel.new.gates ≡ kernel.old.gates }
    ensures stages { kernel.new.stages ≡ kernel.old.stages }
    ensures transcripts { kernel.new.transcripts ≡ kernel.old.transcripts }
{
    let outside = StepContext {
        clock,
        input,
        gates: &kernel.gates,
        stages: &kernel.stages,
    };
    step(program, private, &mut kernel.shared, &outside)
}

// Makes one step that is due.
pub(crate) fn kernel_step(
    program: &Program,
    kernel: &mut Kernel,
    private: &mut Private,
    input: &[u8],
    clock: u64,
)
    requires due { plain.is_due (view.program program.now)
        (turning kernel.old private.old input.now) ≡ true }
    requires among { IsAmong kernel.old private.old.number }
    requires asking { HasRoomForAskers kernel.old 1 }
    requires output { HasRoomFor private.old 1 }
    ensures step { turning kernel.new private.new input.now ≡ plain.kernel_step
        (view.program program.now) clock (turning kernel.old private.old input.now) }
    ensures asking { (n : ℕ) → HasRoomForAskers kernel.old (n + 1) → HasRoomForAskers kernel.new n }
    ensures kept { (n : ℕ) → IsBegun kernel.new private.old.number
        → HasRoomForAskers kernel.old n → HasRoomForAskers kernel.new n }
    ensures number { private.new.number ≡ private.old.number }
    ensures output { KeepsRoom private.old private.new }
    ensures transcripts { kernel.new.transcripts ≡ kernel.old.transcripts }
{
    let own = private.words();
    let p = private.number() as u32;
    let effect = act(program, kernel, private, input, clock);
    kernel.apply(own, p, effect);
}

// Makes one step of a process that holds a gate in registers, without its effect on the kernel.
#[inline(always)]
fn act_in_registers(program: &Program, kernel: &mut Kernel, private: &mut Private) -> FastKernelPath
    requires held { private.old.gate ≢ 0 }
    ensures step { IfSome (left_by result) (λ e. (clock : ℕ) (input : List ℕ)
        → let x = turning kernel.old private.old input in
        (join private.new input kernel.new.shared.items, e) ≡ step_with
        (view.program program.now) (plain.outside clock x) (plain.join_words x)) }
    ensures same { left_by result ≡ None → (input : List ℕ)
        → turning kernel.new private.new input ≡ turning kernel.old private.old input }
    ensures held { result ≡ fast_kernel_path_case.Made → private.new.gate ≡ private.old.gate }
    ensures activity { private.new.activity ≡ private.old.activity }
    ensures own { length private.new.memory.words.items ≡ length private.old.memory.words.items }
    ensures number { private.new.number ≡ private.old.number }
    ensures output { private.new.output ≡ private.old.output }
    ensures gates { kernel.new.gates ≡ kernel.old.gates }
    ensures stages { kernel.new.stages ≡ kernel.old.stages }
    ensures transcripts { kernel.new.transcripts ≡ kernel.old.transcripts }
{
    step_in_registers(program, private, &mut kernel.shared)
}

// Makes one step that is due, of a process that holds a gate, if it takes no more than registers.
#[inline(always)]
pub(crate) fn try_in_registers(
    program: &Program,
    kernel: &mut Kernel,
    private: &mut Private,
) -> FastKernelPath
    requires held { private.old.gate ≢ 0 }
    requires running { is_running (activity private.old.activity) ≡ true }
    requires begun { IsBegun kernel.old private.old.number }
    ensures step { IfSome (left_by result) (λ _. (clock : ℕ) (input : List ℕ)
        → turning kernel.new private.new input ≡ plain.kernel_step (view.program program.now)
        clock (turning kernel.old private.old input)) }
    ensures same { left_by result ≡ None → (input : List ℕ)
        → turning kernel.new private.new input ≡ turning kernel.old private.old input }
    ensures held { result ≡ fast_kernel_path_case.Made → private.new.gate ≡ private.old.gate }
    ensures stages { result ≡ fast_kernel_path_case.Made → kernel.new.stages ≡ kernel.old.stages }
    ensures asking { (n : ℕ) → HasRoomForAskers kernel.old n → HasRoomForAskers kernel.new n }
    ensures activity { private.new.activity ≡ private.old.activity }
    ensures number { private.new.number ≡ private.old.number }
    ensures output { private.new.output ≡ private.old.output }
    ensures transcripts { kernel.new.transcripts ≡ kernel.old.transcripts }
{
    match act_in_registers(program, kernel, private) {
        FastKernelPath::Made => FastKernelPath::Made,
        FastKernelPath::Returned(gate) => {
            kernel.leave(gate);
            FastKernelPath::Returned(gate)
        }
        FastKernelPath::NotMade => FastKernelPath::NotMade,
    }
}
