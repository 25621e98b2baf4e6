//! The end of a round: the processes that were started in it begin.

ghost use Rattle.std.specs.Prelude.{◌≡◌, ℕ, List, false, length, map};
ghost use Rattle.cp_private.specs.declared.private.Private.{Private};
ghost use Rattle.cp_private.specs.States.{private_of, stage as stage_view};
ghost use Rattle.cp_model_machine.specs.Machines as plain;
ghost use Rattle.cp_program.specs.View as view;
ghost use Rattle.cp_kernel.specs.KernelOf.{kernel_of};
ghost use Rattle.cp_kernel.specs.Fresh.{HasNoFresh};
ghost use Rattle.cp_kernel.specs.Promises.{EndsRound};
ghost use Rattle.cp_kernel.specs.Turns.{parts_of};

use crate::kernel::Kernel;
use cp_model_machine::law;
use cp_private::kernel_view::SchedulingState;
use cp_private::private::Private;
use cp_private::private_box::PrivateBox;
use cp_program::program::Program;

// Begins the process if it is fresh.
fn begin(program: &Program, kernel: &Kernel, private: &mut Private)
    ensures begun { (input : List ℕ) → private_of private.new input ≡ plain.begin_one
        (view.program program.now) (kernel_of kernel.now) (private_of private.old input) }
    ensures number { private.new.number ≡ private.old.number }
    ensures output { private.new.output ≡ private.old.output }
{
    match kernel.stage(private.number() as u32) {
        SchedulingState::Fresh => private.begin(program, &kernel.shared),
        _ => {}
    }
}

fn begin_all(program: &Program, kernel: &Kernel, privates: &mut [PrivateBox])
    ensures begun { (inputs : ℕ → List ℕ) → parts_of inputs 1 privates.new ≡ map
        (plain.begin_one (view.program program.now) (kernel_of kernel.now))
        (parts_of inputs 1 privates.old) }
    ensures numbers { map (λ (x : Private). x.number) privates.new
        ≡ map (λ (x : Private). x.number) privates.old }
    ensures outputs { map (λ (x : Private). x.output) privates.new
        ≡ map (λ (x : Private). x.output) privates.old }
{
    for private in privates.iter_mut() {
        begin(program, kernel, private.private_mut());
    }
}

fn next_stage(stage: SchedulingState) -> SchedulingState
    ensures { stage_view result ≡ plain.next_stage (stage_view stage) }
{
    match stage {
        SchedulingState::Fresh => SchedulingState::Begun,
        stage => stage,
    }
}

fn close_stages(stages: &mut [SchedulingState])
    ensures stages { map stage_view stages.new ≡ map plain.next_stage (map stage_view stages.old) }
{
    for stage in stages.iter_mut() {
        *stage = next_stage(*stage);
    }
}

// Whether a process was started in the round.
fn has_fresh(stages: &[SchedulingState]) -> bool
    ensures { result ≡ false → HasNoFresh stages.now }
{
    for stage in stages {
        if matches!(stage, SchedulingState::Fresh) {
            return true;
        }
    }
    false
}

// The end of a round in which a process may have been started, as plain data.
fn close_started(program: &Program, kernel: &mut Kernel, privates: &mut [PrivateBox])
    ensures kernel { let k = kernel_of kernel.old in kernel_of kernel.new
        ≡ record k { stages = map plain.next_stage k.stages } }
    ensures gates { kernel.new.gates ≡ kernel.old.gates }
    ensures transcripts { kernel.new.transcripts ≡ kernel.old.transcripts }
    ensures parts { (inputs : ℕ → List ℕ) → parts_of inputs 1 privates.new ≡ map
        (plain.begin_one (view.program program.now) (kernel_of kernel.old))
        (parts_of inputs 1 privates.old) }
    ensures numbers { map (λ (x : Private). x.number) privates.new
        ≡ map (λ (x : Private). x.number) privates.old }
    ensures outputs { map (λ (x : Private). x.output) privates.new
        ≡ map (λ (x : Private). x.output) privates.old }
{
    if !has_fresh(&kernel.stages) {
        kernel.may_have_fresh = false;
        return;
    }
    begin_all(program, kernel, privates);
    // The next round looks once more.
    kernel.may_have_fresh = true;
    close_stages(&mut kernel.stages);
}

// The end of a round, as plain data. Most rounds start no process, and end with one test.
fn close(program: &Program, kernel: &mut Kernel, privates: &mut [PrivateBox])
    ensures kernel { let k = kernel_of kernel.old in kernel_of kernel.new
        ≡ record k { stages = map plain.next_stage k.stages } }
    ensures gates { kernel.new.gates ≡ kernel.old.gates }
    ensures transcripts { kernel.new.transcripts ≡ kernel.old.transcripts }
    ensures parts { (inputs : ℕ → List ℕ) → parts_of inputs 1 privates.new ≡ map
        (plain.begin_one (view.program program.now) (kernel_of kernel.old))
        (parts_of inputs 1 privates.old) }
    ensures numbers { map (λ (x : Private). x.number) privates.new
        ≡ map (λ (x : Private). x.number) privates.old }
    ensures outputs { map (λ (x : Private). x.output) privates.new
        ≡ map (λ (x : Private). x.output) privates.old }
{
    if !kernel.may_have_fresh {
        return;
    }
    close_started(program, kernel, privates);
}

/// Ends the round: each process that was started in it begins, with the parameters that wait for
/// it. `privates` has the private states of all processes. It takes no memory.
pub fn end_round(program: &Program, kernel: &mut Kernel, privates: &mut [PrivateBox])
    ensures kernel { let k = kernel_of kernel.old in kernel_of kernel.new
        ≡ record k { stages = map plain.next_stage k.stages } }
    ensures gates { kernel.new.gates ≡ kernel.old.gates }
    ensures transcripts { kernel.new.transcripts ≡ kernel.old.transcripts }
    ensures parts { (inputs : ℕ → List ℕ) → parts_of inputs 1 privates.new ≡ map
        (plain.begin_one (view.program program.now) (kernel_of kernel.old))
        (parts_of inputs 1 privates.old) }
    ensures meaning { EndsRound program.now kernel.old privates.old kernel.new privates.new }
    ensures numbers { map (λ (x : Private). x.number) privates.new
        ≡ map (λ (x : Private). x.number) privates.old }
    ensures outputs { map (λ (x : Private). x.output) privates.new
        ≡ map (λ (x : Private). x.output) privates.old }
{
    law::rounds();
    close(program, kernel, privates);
}
