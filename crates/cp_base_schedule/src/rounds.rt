//! Reading orders: the number of rounds, and the events of each.

ghost use Rattle.std.specs.Prelude.{◌≡◌, ◌≤◌, length, option_map, slice_get, slice_range};
ghost use Rattle.cp_base_schedule.specs.Events.{events_of};
ghost use Rattle.cp_base_schedule.specs.Parts.{bounds_at};
ghost use Rattle.cp_base_schedule.specs.Rounds.{rounds_of};

use crate::event::Event;
use crate::orders::Orders;

// Where the part at an index begins and ends, if there is one.
fn bounds(ends: &[usize], index: usize) -> Option<(usize, usize)>
    ensures { result ≡ bounds_at 0 ends.now index }
{
    let end = *ends.get(index)?;
    if index == 0 {
        return Some((0, end));
    }
    Some((ends[index - 1], end))
}

// The events between two places.
fn part(events: &[Event], from: usize, end: usize) -> &[Event]
    requires order { from ≤ end }
    requires within { end ≤ length events.now }
    ensures { result.now ≡ slice_range events.now from end }
{
    &events[from..end]
}

impl Orders {
    /// The number of rounds.
    #[tactic(auto, using(crate::proofs::Parts::parts_count))]
    pub fn len(&self) -> usize
        ensures { result ≡ length (rounds_of self.now) }
    {
        self.ends.len()
    }

    /// The events of the round at an index, from 0, if there is one.
    pub fn round(&self, index: usize) -> Option<&[Event]>
        ensures { option_map (λ es. events_of es.now) result
            ≡ slice_get (rounds_of self.now) index }
    {
        let (from, end) = bounds(&self.ends, index)?;
        Some(part(&self.events, from, end))
    }
}
