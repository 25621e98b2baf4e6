//! What a step leaves to the kernel: which processes hold gates and ask for them, and which
//! processes are started, delayed and resumed.
//!
//! None of these changes takes memory.

ghost use Rattle.std.specs.Prelude.{◌≡◌, ◌+◌, ◌-◌, ◌∷◌, ◌++◌, [], ℕ, List, MatchOption};
ghost use Rattle.cp_model_program.specs.Layout as layout;
ghost use Rattle.cp_model.specs.States as model;
ghost use Rattle.cp_private.specs.States.{effect as effect_view, holder as holder_view, stage as stage_view};
ghost use Rattle.cp_model_machine.specs.Calling.{gate_effect};
ghost use Rattle.cp_model_machine.specs.KernelSteps as plain;
ghost use Rattle.cp_model_machine.specs.PrivateStates.{Leaves};
ghost use Rattle.cp_kernel.specs.KernelOf.{HasRoomForAskers, IsAmong, IsBegun, kernel_of};

use crate::kernel::Kernel;
use cp_private::effect::Effect;
use cp_private::kernel_view::{Holder, SchedulingState};

// The index of the monitor or process with this number. The number 0 is read as 1.
fn index(number: u32) -> usize
    ensures { result ≡ number - 1 }
{
    (number as usize).saturating_sub(1)
}

fn resumed_stage(stage: SchedulingState) -> SchedulingState
    ensures { stage_view result ≡ plain.resume_stage (stage_view stage) }
{
    match stage {
        SchedulingState::Asking(_) | SchedulingState::Delayed { .. } => SchedulingState::Begun,
        stage => stage,
    }
}

impl Kernel {
    fn set_stage(&mut self, p: u32, stage: SchedulingState)
        ensures step { kernel_of self.new ≡ plain.set_stage p (stage_view stage)
            (kernel_of self.old) }
        ensures gates { self.new.gates ≡ self.old.gates }
        ensures transcripts { self.new.transcripts ≡ self.old.transcripts }
    {
        self.may_have_fresh = self.may_have_fresh || matches!(stage, SchedulingState::Fresh);
        if let Some(place) = self.stages.get_mut(index(p)) {
            *place = stage;
        }
    }

    fn make_ready(&mut self, r: u32)
        ensures step { kernel_of self.new ≡ plain.make_ready r (kernel_of self.old) }
        ensures gates { self.new.gates ≡ self.old.gates }
        ensures transcripts { self.new.transcripts ≡ self.old.transcripts }
    {
        self.set_stage(r, resumed_stage(self.stage(r)));
    }

    // Sets the holder of a gate and removes its askers.
    fn set_gate(&mut self, m: u32, holder: Holder)
        ensures step { kernel_of self.new ≡ plain.set_gate m
            (holder_view holder) [] (kernel_of self.old) }
        ensures room { (n : ℕ) → HasRoomForAskers self.old n → HasRoomForAskers self.new n }
        ensures transcripts { self.new.transcripts ≡ self.old.transcripts }
    {
        if let Some(gate) = self.gates.get_mut(index(m)) {
            gate.holder = holder;
            gate.askers.clear();
        }
    }

    // Gives the gate to process p. The askers stay.
    fn hold(&mut self, m: u32, p: u32)
        ensures step { let k = kernel_of self.old in
            kernel_of self.new ≡ plain.set_gate m (model.HeldBy p) (plain.gate_of k.gates m).askers
            k }
        ensures room { (n : ℕ) → HasRoomForAskers self.old n → HasRoomForAskers self.new n }
        ensures transcripts { self.new.transcripts ≡ self.old.transcripts }
    {
        if m == 0 {
            self.set_gate(m, Holder::Process(p));
            return;
        }
        if let Some(gate) = self.gates.get_mut(index(m)) {
            gate.holder = Holder::Process(p);
        }
    }

    // Gives the gate to the asker that came first, if there is one, and returns that asker.
    fn grant(&mut self, m: u32) -> Option<u32>
        ensures step { let k = kernel_of self.old in MatchOption result
            ((plain.gate_of k.gates m).askers ≡ [] × (kernel_of self.new ≡ k))
            (λ r. (rs : List ℕ) × ((plain.gate_of k.gates m).askers ≡ r ∷ rs)
            × (kernel_of self.new ≡ plain.set_gate m (model.HeldBy r) rs k)) }
        ensures room { (n : ℕ) → HasRoomForAskers self.old n → HasRoomForAskers self.new n }
        ensures transcripts { self.new.transcripts ≡ self.old.transcripts }
    {
        if m == 0 {
            return None;
        }
        let gate = self.gates.get_mut(index(m))?;
        if gate.askers.is_empty() {
            return None;
        }
        let r = gate.askers.remove(0);
        gate.holder = Holder::Process(r);
        Some(r)
    }

    // Gives the gate to the asker that came first, or frees it.
    #[inline(always)]
    fn pass_on(&mut self, m: u32)
        ensures step { kernel_of self.new ≡ plain.pass_on m (kernel_of self.old) }
        ensures room { (n : ℕ) → HasRoomForAskers self.old n → HasRoomForAskers self.new n }
        ensures transcripts { self.new.transcripts ≡ self.old.transcripts }
    {
        match self.grant(m) {
            Some(r) => self.make_ready(r),
            None => self.set_gate(m, Holder::Free),
        }
    }

    /// Passes on the gate that a return has left, if its number isn't 0.
    #[inline(always)]
    pub(crate) fn leave(&mut self, m: u32)
        ensures step { (own p : ℕ) → kernel_of self.new ≡ plain.apply_effect own p
            (gate_effect m Leaves) (kernel_of self.old) }
        ensures room { (n : ℕ) → HasRoomForAskers self.old n → HasRoomForAskers self.new n }
        ensures transcripts { self.new.transcripts ≡ self.old.transcripts }
    {
        if m != 0 {
            self.pass_on(m);
        }
    }

    // Process p asks for the gate, after all other askers.
    fn ask(&mut self, p: u32, m: u32, q: u32)
        requires room { HasRoomForAskers self.old 1 }
        requires held { (plain.gate_of (kernel_of self.old).gates m).holder ≡ model.HeldBy q }
        ensures step { let k = kernel_of self.old in kernel_of self.new ≡ plain.set_gate m
            (model.HeldBy q) ((plain.gate_of k.gates m).askers ++ p ∷ []) k }
        ensures room { (n : ℕ) → HasRoomForAskers self.old (n + 1) → HasRoomForAskers self.new n }
        ensures transcripts { self.new.transcripts ≡ self.old.transcripts }
    {
        if let Some(gate) = self.gates.get_mut(index(m)) {
            let asked = gate.askers.push(p);
            prove!(asked.is_ok());
        }
    }

    // Process p gets the gate, or asks for it.
    fn enter(&mut self, p: u32, m: u32)
        requires { HasRoomForAskers self.old 1 }
        ensures step { let k = kernel_of self.old in kernel_of self.new ≡ plain.enter_gate p m
            (plain.gate_of k.gates m).holder k }
        ensures room { (n : ℕ) → HasRoomForAskers self.old (n + 1) → HasRoomForAskers self.new n }
        ensures kept { IsAmong self.old p → (n : ℕ) → IsBegun self.new p
            → HasRoomForAskers self.old n → HasRoomForAskers self.new n }
        ensures transcripts { self.new.transcripts ≡ self.old.transcripts }
    {
        match self.holder(m) {
            Holder::Process(q) => {
                self.ask(p, m, q);
                self.set_stage(p, SchedulingState::Asking(m));
            }
            Holder::Unset => self.hold(m, p),
            Holder::Free => self.hold(m, p),
        }
    }

    // Resumes the process that waited in a queue, inside the monitor. If there was none, the gate
    // is passed on.
    fn resume(&mut self, m: u32, stood: i32)
        ensures step { kernel_of self.new ≡ plain.resume m (layout.natural stood)
            (kernel_of self.old) }
        ensures room { (n : ℕ) → HasRoomForAskers self.old n → HasRoomForAskers self.new n }
        ensures transcripts { self.new.transcripts ≡ self.old.transcripts }
    {
        if stood <= 0 {
            self.pass_on(m);
            return;
        }
        let r = stood as u32;
        self.hold(m, r);
        self.make_ready(r);
    }

    fn start(&mut self, r: u32)
        ensures step { let k = kernel_of self.old in
            kernel_of self.new ≡ plain.start_process r (plain.stage_of k.stages r) k }
        ensures gates { self.new.gates ≡ self.old.gates }
        ensures transcripts { self.new.transcripts ≡ self.old.transcripts }
    {
        if matches!(self.stage(r), SchedulingState::Unstarted) {
            self.set_stage(r, SchedulingState::Fresh);
        }
    }

    /// Applies the effect of a step of process p, which has `own` words of its own.
    pub(crate) fn apply(&mut self, own: usize, p: u32, effect: Effect)
        requires { HasRoomForAskers self.old 1 }
        ensures step { kernel_of self.new ≡ plain.apply_effect own p (effect_view effect)
            (kernel_of self.old) }
        ensures room { (n : ℕ) → HasRoomForAskers self.old (n + 1) → HasRoomForAskers self.new n }
        ensures kept { IsAmong self.old p → (n : ℕ) → IsBegun self.new p
            → HasRoomForAskers self.old n → HasRoomForAskers self.new n }
        ensures transcripts { self.new.transcripts ≡ self.old.transcripts }
    {
        match effect {
            Effect::None => {}
            Effect::Enters(m) => self.enter(p, m),
            Effect::Leaves(m) => self.pass_on(m),
            Effect::Opens(m) => self.set_gate(m, Holder::Process(p)),
            Effect::Starts(r) => self.start(r),
            Effect::Delays { monitor, queue } => {
                let queue = (queue as usize).saturating_sub(own) as u32;
                self.set_stage(p, SchedulingState::Delayed { monitor, queue });
                self.pass_on(monitor);
            }
            Effect::Continues { monitor, resumed } => self.resume(monitor, resumed),
        }
    }
}
