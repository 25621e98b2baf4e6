//! The number of arguments that a call has, and that it should have.

use crate::site::{Call, NameRole, Purpose, Site};
use cp_explain_names::scope::{Declaration, Kind};
use cp_explain_names::standard::{Standard, find_standard};
use cp_model::tree::{Identifier, Parameters, Routine, Sort, System};
use cp_output::page::Page;

/// The number of parameters that these groups declare.
pub fn count(groups: &[Parameters]) -> usize {
    let mut count: usize = 0;
    for group in groups {
        count = count.saturating_add(group.names.len());
    }
    count
}

fn push_names(page: &mut Page, names: &[Identifier]) {
    let mut lead = "";
    for x in names {
        page.text(lead);
        page.bytes(x.name.as_bytes());
        lead = ", ";
    }
}

fn push_parameters(page: &mut Page, groups: &[Parameters]) {
    let mut lead = "(";
    for group in groups {
        page.text(lead);
        page.text(if group.by_reference.is_some() {
            "var "
        } else {
            ""
        });
        push_names(page, &group.names);
        page.bytes(b": ");
        page.bytes(group.of.name.as_bytes());
        lead = "; ";
    }
    page.text(if groups.is_empty() { "" } else { ")" });
}

// Adds the heading of a routine, as its text has it.
fn push_routine(page: &mut Page, routine: &Routine) {
    page.text(match routine.result_type {
        Some(_) => "`function ",
        None => "`procedure ",
    });
    page.text(if routine.entry.is_some() {
        "entry "
    } else {
        ""
    });
    page.bytes(routine.name.name.as_bytes());
    push_parameters(page, &routine.parameters);
    if let Some(of) = &routine.result_type {
        page.bytes(b": ");
        page.bytes(of.name.as_bytes());
    }
    page.bytes(b"`");
}

fn push_system(page: &mut Page, system: &System) {
    page.text(match system.sort {
        Sort::Process => "`process",
        Sort::Monitor => "`monitor",
        Sort::Class => "`class",
    });
    push_parameters(page, &system.parameters);
    page.bytes(b"`");
}

// Adds how many arguments something takes, and how many it was given.
fn push_count(page: &mut Page, name: &Identifier, takes: usize, given: usize) {
    page.bytes(b"  ");
    page.name(name);
    page.text(" takes ");
    page.number(takes);
    page.text(if takes == 1 {
        " argument, not "
    } else {
        " arguments, not "
    });
    page.number(given);
}

// How many arguments a routine takes, if a routine is declared.
fn routine_takes(declared: Declaration<'_>) -> Option<usize> {
    Some(count(&declared.routine?.parameters))
}

impl<'t> Site<'t> {
    // The number of arguments of the call or the `init` whose name is at the place.
    fn arguments(&self) -> Option<usize> {
        let (_, role) = self.name?;
        match role {
            NameRole::Function(count)
            | NameRole::Procedure(count)
            | NameRole::Component(count)
            | NameRole::Member(_, Call::Function(count) | Call::Procedure(count)) => Some(count),
            NameRole::Value => Some(0),
            _ => None,
        }
    }

    // The system type of the component that `init` names at the place.
    fn initialised(&self) -> Option<&'t System> {
        match self.name? {
            (x, NameRole::Component(_)) => self.scope.system_of(x),
            _ => None,
        }
    }

    /// The standard name at the place, unless the text declares it or it is a member.
    pub fn standard(&self) -> Option<Standard> {
        match self.name? {
            (_, NameRole::Member(..)) => None,
            (x, _) if self.declaration().is_none() => find_standard(x.name.as_bytes()),
            _ => None,
        }
    }

    fn push_system_count(&self, page: &mut Page, name: &Identifier, system: &System, given: usize) {
        let takes = count(&system.parameters);
        if takes == given {
            return;
        }
        push_count(page, name, takes, given);
        page.bytes(b": ");
        push_system(page, system);
        page.bytes(b".\n");
    }

    fn push_routine_count(&self, page: &mut Page, declared: Declaration<'_>, given: usize) {
        let Some(routine) = declared.routine else {
            return;
        };
        let takes = count(&routine.parameters);
        if takes == given || !matches!(declared.kind, Kind::Procedure | Kind::Function) {
            return;
        }
        push_count(page, declared.name, takes, given);
        page.bytes(b": ");
        push_routine(page, routine);
        page.bytes(b".\n");
    }

    fn push_standard_count(&self, page: &mut Page, name: &Identifier, given: usize) {
        let Some(standard) = self.standard() else {
            return;
        };
        match standard.count() {
            Some(takes) if takes != given => {
                push_count(page, name, takes, given);
                page.bytes(b".\n");
            }
            _ => {}
        }
    }

    // How many arguments what is at the place takes, if that is known.
    fn takes(&self) -> Option<usize> {
        if let Some(system) = self.initialised() {
            return Some(count(&system.parameters));
        }
        match self.declaration() {
            Some(declared) => routine_takes(declared),
            None => self.standard()?.count(),
        }
    }

    /// Adds to the first line how many arguments what is at the place takes, if it was given
    /// another number.
    pub fn push_numbers(&self, page: &mut Page) {
        match (self.takes(), self.arguments()) {
            (Some(takes), Some(given)) if takes != given => {
                page.text(": it takes ");
                page.number(takes);
                page.text(", not ");
                page.number(given);
            }
            _ => {}
        }
    }

    /// Adds how many arguments what is at the place takes, if it was given another number.
    pub fn push_counts(&self, page: &mut Page) {
        let (Some((x, _)), Some(given)) = (self.name, self.arguments()) else {
            return;
        };
        if let Some(system) = self.initialised() {
            return self.push_system_count(page, x, system, given);
        }
        match self.declaration() {
            Some(declared) => self.push_routine_count(page, declared, given),
            None => self.push_standard_count(page, x, given),
        }
    }

    // The standard routine that takes the argument at the place.
    fn standard_callee(&self) -> Option<Standard> {
        match self.purpose? {
            Purpose::Argument(d, _) if self.callee(d).is_none() && d.selectors.is_empty() => {
                find_standard(d.root.name.as_bytes())
            }
            _ => None,
        }
    }

    /// Adds what a standard routine takes, if its argument is at the place.
    pub fn push_standard_callee(&self, page: &mut Page) {
        if let Some(standard) = self.standard_callee() {
            standard.push(page);
        }
    }
}
