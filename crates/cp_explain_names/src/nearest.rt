//! The name that is spelled most like another one.

use cp_model::tree::{Fields, Identifier};
use std::alloc::{AllocError, Global};
use strsim::generic_levenshtein;

/// The most names that are compared: more would make an explanation slow.
const MAX_NEARBY_NAMES: usize = 4_000;

/// Of the names that were offered, the one that is spelled most like the wanted one.
#[derive(Drop)]
pub struct Nearest<'t> {
    wanted: &'t [u8],
    found: Option<&'t [u8]>,
    // Only a name with fewer edits than this is like the wanted one.
    edits: usize,
    offered: usize,
}

// One more than the edits by which a name of this length may differ from another one.
fn limit(length: usize) -> usize {
    match length {
        0..=2 => 1,
        3..=5 => 2,
        _ => 3,
    }
}

impl<'t> Nearest<'t> {
    /// Looks for a name like this one.
    pub fn to(wanted: &'t [u8]) -> Nearest<'t> {
        Nearest {
            wanted,
            found: None,
            edits: limit(wanted.len()),
            offered: 0,
        }
    }

    /// The name that was found.
    pub fn found(&self) -> Option<&'t [u8]> {
        self.found
    }

    fn is_near(&self, name: &[u8]) -> bool {
        name.len().abs_diff(self.wanted.len()) < self.edits && name != self.wanted
    }

    /// Offers a name. Fails only if memory runs out.
    pub fn offer(&mut self, alloc: Global, name: &'t [u8]) -> Result<(), AllocError> {
        self.offered = self.offered.saturating_add(1);
        if MAX_NEARBY_NAMES < self.offered || !self.is_near(name) {
            return Ok(());
        }
        let edits = generic_levenshtein(alloc, self.wanted, name)?;
        if edits < self.edits {
            self.edits = edits;
            self.found = Some(name);
        }
        Ok(())
    }

    /// Offers each of these names. Fails only if memory runs out.
    pub fn offer_names(
        &mut self,
        alloc: Global,
        names: &'t [Identifier],
    ) -> Result<(), AllocError> {
        for x in names {
            self.offer(alloc, x.name.as_bytes())?;
        }
        Ok(())
    }

    /// Offers the names that these groups declare. Fails only if memory runs out.
    pub fn offer_groups(&mut self, alloc: Global, groups: &'t [Fields]) -> Result<(), AllocError> {
        for group in groups {
            self.offer_names(alloc, &group.names)?;
        }
        Ok(())
    }
}
