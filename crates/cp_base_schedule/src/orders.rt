//! The events of several rounds, in flat memory.

ghost use Rattle.cp_base_schedule.specs.Parts.{Cover, Cover-prop};

use crate::event::Event;

/// The events of several rounds, one round after the other. The module `rounds` has the calls that
/// read them.
#[derive(Drop)]
pub struct Orders {
    pub(crate) events: Vec<Event>,
    /// For each round, the number of events up to its end.
    pub(crate) ends: Vec<usize>,
    ghost whole: { Cover ends.items events.items } by { Cover-prop ends.items events.items },
}
