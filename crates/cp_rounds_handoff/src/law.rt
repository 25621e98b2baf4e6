//! A law: a caller has it as a fact once it calls the function.

ghost use denote.Param.Send.{IsSync};
ghost use Rattle.cp_rounds_handoff.specs.contracts.config.MachineConfig as config;

/// Threads may share a machine's configuration.
#[inline(always)]
pub fn configs_are_shared()
    ensures { IsSync config.the_row }
{}
