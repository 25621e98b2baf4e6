//! Chains of askers of a machine.

ghost use Rattle.std.specs.Prelude.{◌≡◌};
ghost use Rattle.cp_model_machine.specs.Chains as plain;
ghost use Rattle.cp_kernel.specs.ChainOf.{processes_left};
ghost use Rattle.cp_rounds.specs.Chains.{ShowsChain};
ghost use Rattle.cp_rounds.specs.Views.{machine_of};

use crate::machine::Machine;
use cp_kernel::chain::Chain;
use cp_model_machine::law;

impl<'r, 't> Machine<'r, 't> {
    /// The asking chain of process p: p, and then, as long as the last process asks for a
    /// gate, the holder of that gate.
    ///
    /// In each state that a machine is in, the chain has no process twice and at most one more than
    /// there are monitors, and its last process asks for no gate.
    pub fn chain(&self, p: u32) -> Chain<'_>
        ensures items { processes_left result ≡ plain.chain (machine_of self.now).kernel p }
        ensures state { ShowsChain self.now p (processes_left result) }
    {
        law::waits();
        self.parts.kernel.chain(p)
    }
}
