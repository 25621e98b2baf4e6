//! The places of the variables of a component, in the order of a report.
//!
//! A visit of the definition gives a place as its code (`specs/LeafCodes.antt`), which determines
//! the path, the address and the kind of a place (`crate::law`).

ghost use Rattle.std.specs.Prelude.{◌≡◌, [], IfOk, map};
ghost use Rattle.cp_inspect.specs.LeafCodes.{leaf_codes, leaf_visit};
ghost use Rattle.cp_inspect.specs.Lists.{declared_member};
ghost use Rattle.cp_inspect.specs.Walks.{ReportsComponent, ReportsMembers};

use crate::place::{self, Kind, Owner};
use crate::walk::Walk;
use crate::walk_output::WalkOutput;
use cp_compile_symbols::Tables;
use std::alloc::{AllocError, Global};

/// A simple part or a queue of a component.
#[derive(Drop)]
pub struct Leaf {
    /// The text of its path.
    pub path: Vec<u8>,
    /// The address of its word. The first word of the component has the address 0.
    pub at: usize,
    pub kind: Kind,
    /// The number of its type.
    pub of: usize,
}

impl Leaf {
    /// The place in a machine of this part of a process or a monitor.
    pub fn in_owner(&self, owner: Owner) -> place::Place
        ensures owner { result.owner ≡ owner }
        ensures place { result.at ≡ self.now.at }
        ensures kind { result.kind ≡ self.now.kind }
    {
        place::Place {
            owner,
            at: self.at,
            kind: self.kind,
        }
    }
}

/// The places of a component whose type has the number `row`: exactly the parts that the
/// definition's report visits.
///
/// # Errors
///
/// `AllocError` if memory runs out.
pub fn leaves(alloc: Global, tables: &Tables, row: usize) -> Result<Vec<Leaf>, AllocError>
    ensures { IfOk result (λ places.
        ReportsComponent tables.now leaf_visit row 0 [] (leaf_codes places.items)) }
{
    let mut walk = Walk::new(alloc, 0);
    let mut nothing = Vec::new(alloc);
    walk.component(tables, &WalkOutput::Leaves, &mut nothing, row, 0)?;
    Ok(walk.into_leaves())
}

/// The places of the initial process, whose words begin with its mark: exactly the parts that the
/// definition's report visits.
///
/// # Errors
///
/// `AllocError` if memory runs out.
pub fn initial_leaves(alloc: Global, tables: &Tables) -> Result<Vec<Leaf>, AllocError>
    ensures { IfOk result (λ places. ReportsMembers tables.now leaf_visit
        (map declared_member tables.now.initial.variables.items) 1 [] (leaf_codes places.items)) }
{
    let mut walk = Walk::new(alloc, 0);
    let mut nothing = Vec::new(alloc);
    walk.initial(tables, &WalkOutput::Leaves, &mut nothing)?;
    Ok(walk.into_leaves())
}
