//! What reasons are about, and its names: components, queues and places of the text.

use crate::delays::{Delay, Helpers, wait_of};
use crate::snapshot::{ProcessSnapshot, StatusSnapshot};
use cp_compile_symbols::{Field, Tables, TypeRow};
use cp_inspect::component_table::ComponentTable;
use cp_inspect::state::ProcState;
use cp_model::token::Token;
use cp_model::tree::{Statement, System, Tree};
use cp_outcome_circles::circle::{Link, circle};
use cp_outcome_text::parts::Parts;
use cp_output::page::Page;
use cp_output::position::Position;
use cp_scan::scan;
use std::alloc::{AllocError, Global};

/// A machine that has made its rounds: its text, and where all are in it.
#[derive(Clone, Copy)]
pub struct Source<'r, 't> {
    pub bytes: &'r [u8],
    pub tree: &'t Tree,
    pub tables: &'r Tables<'t>,
    /// Where all are in the machine.
    pub snapshot: &'r StatusSnapshot,
    /// The numbers of the processes that may wait forever.
    pub servers: &'r [u32],
}

/// What the text of a machine says.
#[derive(Drop)]
pub(crate) struct Subject<'r, 't> {
    pub(crate) alloc: Global,
    pub(crate) text: &'r [u8],
    pub(crate) snapshot: &'r StatusSnapshot,
    pub(crate) servers: &'r [u32],
    /// The tokens of the text, if a process has faulted.
    pub(crate) tokens: Vec<Token>,
    pub(crate) component_table: ComponentTable<'t>,
    /// The statements of the initial process that contain no others.
    pub(crate) statements: Vec<&'t Statement>,
    /// For each process by number, its delay, if it is delayed.
    delays: Vec<Option<Delay<'t>>>,
    /// The processes that wait for each other.
    pub(crate) circle: Vec<Link>,
}

// The system type with a number, if it is one.
fn system_type<'t>(tables: &Tables<'t>, number: usize) -> Option<&'t System> {
    match tables.types.row(number) {
        Some(TypeRow::Component { system, .. }) => tables.types.system(*system),
        _ => None,
    }
}

// The system types of these components, in their order.
fn types_of<'t>(
    alloc: Global,
    tables: &Tables<'t>,
    components: &[Field<'t>],
) -> Result<Vec<Option<&'t System>>, AllocError> {
    let mut types = Vec::with_capacity(alloc, components.len())?;
    for component in components {
        types.push(system_type(tables, component.of))?;
    }
    Ok(types)
}

// The tokens of a text, if a process has faulted.
fn tokens_of(
    alloc: Global,
    text: &[u8],
    snapshot: &StatusSnapshot,
) -> Result<Vec<Token>, AllocError> {
    if !snapshot.has_fault() {
        return Ok(Vec::new(alloc));
    }
    match scan(alloc, text) {
        Ok(tokens) => Ok(tokens),
        Err(_) => Err(AllocError),
    }
}

// The type of a monitor by its number, from 1.
fn monitor_type<'t>(types: &[Option<&'t System>], number: u32) -> Option<&'t System> {
    *types.get((number as usize).checked_sub(1)?)?
}

// For each process by number, its delay, if it is delayed. These are the types of the monitors.
fn delays_of<'t>(
    alloc: Global,
    tree: &'t Tree,
    types: &[Option<&'t System>],
    snapshot: &StatusSnapshot,
) -> Result<Vec<Option<Delay<'t>>>, AllocError> {
    let helpers = Helpers::of(alloc, snapshot)?;
    let mut delays = Vec::new(alloc);
    for process in &snapshot.processes {
        delays.push(match process.state {
            ProcState::Delayed { monitor, .. } => match monitor_type(types, monitor) {
                Some(of) => Some(Delay::of(alloc, tree, of, monitor, process, &helpers)?),
                None => None,
            },
            _ => None,
        })?;
    }
    Ok(delays)
}

// The processes that wait for each other.
fn circle_of(
    alloc: Global,
    snapshot: &StatusSnapshot,
    delays: &[Option<Delay<'_>>],
) -> Result<Vec<Link>, AllocError> {
    let mut waits = Vec::new(alloc);
    for (process, delay) in snapshot.processes.iter().zip(delays) {
        waits.push(wait_of(alloc, snapshot, process, delay.as_ref())?)?;
    }
    circle(alloc, &waits)
}

impl<'r, 't> Subject<'r, 't> {
    /// Collects what the reasons are about: the text of a machine. Fails only if memory runs out.
    pub(crate) fn of(alloc: Global, source: Source<'r, 't>) -> Result<Subject<'r, 't>, AllocError> {
        let Source {
            bytes,
            tree,
            tables,
            snapshot,
            servers,
        } = source;
        let component_table = ComponentTable::of(alloc, tables)?;
        let mut parts = Parts::new(alloc);
        parts.add(&tree.body.statements)?;
        let types = types_of(alloc, tables, &component_table.monitors)?;
        let delays = delays_of(alloc, tree, &types, snapshot)?;
        Ok(Subject {
            alloc,
            text: bytes,
            snapshot,
            servers,
            tokens: tokens_of(alloc, bytes, snapshot)?,
            component_table,
            statements: parts.statements,
            circle: circle_of(alloc, snapshot, &delays)?,
            delays,
        })
    }

    /// The delay of a process, if it is delayed.
    pub(crate) fn delay(&self, process: u32) -> Option<&Delay<'t>> {
        self.delays
            .get((process as usize).checked_sub(1)?)?
            .as_ref()
    }

    /// The part of the circle that a process is, and the process of the next part.
    pub(crate) fn link(&self, process: u32) -> Option<(Link, u32)> {
        let index = self.circle.iter().position(|link| link.process == process)?;
        let link = self.circle.get(index)?;
        let next = match self.circle.get(index.saturating_add(1)) {
            Some(next) => next,
            None => self.circle.first()?,
        };
        Some((*link, next.process))
    }

    /// Adds a place of the text.
    pub(crate) fn push_place(&self, page: &mut Page, at: usize) {
        page.position(Position::of(self.text, at));
    }

    /// Adds where in the text the operation comes from at which a process is.
    pub(crate) fn push_origin(&self, page: &mut Page, process: &ProcessSnapshot) {
        if let Some(at) = process.at {
            page.text(" at ");
            self.push_place(page, at);
        }
    }

    /// Adds where in the text a process waits, and the calls that lead there.
    pub(crate) fn push_wait(&self, page: &mut Page, process: &ProcessSnapshot) {
        self.push_origin(page, process);
        self.push_calls(page, process);
    }

    // Adds the places of a call: more than one if it isn't known which.
    fn push_call(&self, page: &mut Page, places: &[usize]) {
        for (index, at) in places.iter().enumerate() {
            if index != 0 {
                page.text(" or ");
            }
            self.push_place(page, *at);
        }
    }

    // Adds the places of the calls that lead to where a process is, outermost first.
    fn push_calls(&self, page: &mut Page, process: &ProcessSnapshot) {
        for (index, places) in process.calls().iter().enumerate() {
            page.text(if index == 0 {
                ", called at "
            } else {
                ", then at "
            });
            self.push_call(page, places);
        }
    }
}
