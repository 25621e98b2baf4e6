//! What can be after a `.`: the entries of a component's type, or the fields of a record.

use crate::site::{NameRole, Site};
use cp_explain_names::nearest::Nearest;
use cp_explain_names::types::Type;
use cp_model::tree::{Designator, Fields, Identifier, Routine, Selector, Sort, TypeExpression};
use cp_output::page::Page;
use std::alloc::{AllocError, Global};

/// What has members.
#[derive(Clone, Copy)]
pub enum Owner<'t> {
    /// A component, by the name of its type, its sort and its routines.
    Component(&'t Identifier, Sort, &'t [Routine]),
    Record(&'t [Fields]),
}

// Adds a name to a list that begins with `lead`.
fn push_item(page: &mut Page, lead: &str, name: &Identifier) {
    page.text(lead);
    page.name(name);
}

fn push_entries(page: &mut Page, of: &Identifier, routines: &[Routine]) {
    let mut lead = ": ";
    page.text("  The entries of ");
    page.name(of);
    for routine in routines {
        if routine.entry.is_some() {
            push_item(page, lead, &routine.name);
            lead = ", ";
        }
    }
    page.text(if lead == ": " { ": none.\n" } else { ".\n" });
}

fn push_fields(page: &mut Page, groups: &[Fields]) {
    let mut lead = "  The fields of this record: ";
    for group in groups {
        for x in &group.names {
            push_item(page, lead, x);
            lead = ", ";
        }
    }
    page.bytes(b".\n");
}

// The number of the selector that is the name at this place.
fn number_of(selectors: &[Selector], at: usize) -> Option<usize> {
    for number in 0..selectors.len() {
        if let Selector::Field { name, .. } = &selectors[number] {
            if name.at == at {
                return Some(number);
            }
        }
    }
    None
}

impl<'t> Site<'t> {
    fn owner_before(&self, designator: &'t Designator, at: usize) -> Option<Owner<'t>> {
        let number = number_of(&designator.selectors, at)?;
        match self.scope.type_of_front(designator, number)? {
            Type::System(of, system) => Some(Owner::Component(of, system.sort, &system.routines)),
            Type::Structured(_, TypeExpression::Record { groups, .. }) => {
                Some(Owner::Record(groups))
            }
            _ => None,
        }
    }

    /// What the name at the place should be a member of.
    pub fn owner(&self) -> Option<Owner<'t>> {
        match self.name? {
            (x, NameRole::Member(d, _)) => self.owner_before(d, x.at),
            _ => None,
        }
    }

    /// Adds what can be after the `.` before the place.
    pub fn push_members(&self, page: &mut Page) {
        match self.owner() {
            Some(Owner::Component(_, Sort::Process, _)) | None => {}
            Some(Owner::Component(of, _, routines)) => push_entries(page, of, routines),
            Some(Owner::Record(groups)) => push_fields(page, groups),
        }
    }

    /// Offers what can be after the `.` before the place.
    pub fn offer_members(
        &self,
        alloc: Global,
        nearest: &mut Nearest<'t>,
    ) -> Result<(), AllocError> {
        match self.owner() {
            Some(Owner::Component(_, _, routines)) => {
                for routine in routines {
                    if routine.entry.is_some() {
                        nearest.offer(alloc, routine.name.name.as_bytes())?;
                    }
                }
                Ok(())
            }
            Some(Owner::Record(groups)) => nearest.offer_groups(alloc, groups),
            None => Ok(()),
        }
    }
}
