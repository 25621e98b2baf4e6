//! The laws of servers, as functions with empty bodies: their contracts are the laws.

ghost use Rattle.cp_law_servers.specs.Laws.{CoreReportsDone, DoneIsSound, DoneIsStill, ExpandedReportsServed, NoOrderIsStuckButServers, WithoutServers};

/// If all are done, nobody can move and nobody has faulted. Without servers, to be done is to have
/// ended.
pub fn states()
    ensures still { DoneIsStill }
    ensures sound { DoneIsSound }
    ensures none { WithoutServers }
{}

/// A core reports whether all are done.
pub fn cores()
    ensures { CoreReportsDone }
{}

/// What a search shows if servers may wait forever.
pub fn searching()
    ensures none_stuck { NoOrderIsStuckButServers }
    ensures reports { ExpandedReportsServed }
{}
