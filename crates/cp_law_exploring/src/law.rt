//! The laws of settling and of expanding, as functions with empty bodies.

ghost use Rattle.cp_law_exploring.specs.Laws.{ClosedIsQuiescent, ExpandedReports, FirstIsClosed, KernelStepIsBefore, LateIsOfKernel, NoneEagerSettles, TurnIsBefore, TurnIsKernelStep};

/// What the steps of a search make of a core.
pub fn settling()
    ensures turn { TurnIsBefore }
    ensures kernel { TurnIsKernelStep }
    ensures step { KernelStepIsBefore }
    ensures late { LateIsOfKernel }
    ensures closed { ClosedIsQuiescent }
    ensures none { NoneEagerSettles }
{}

/// What a list of cores shows if their late steps lead into the list.
pub fn expanding()
    ensures first { FirstIsClosed }
    ensures reports { ExpandedReports }
{}
