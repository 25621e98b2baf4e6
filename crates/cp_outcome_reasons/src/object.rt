//! The outcome as a JSON object, for programs.

ghost use Rattle.std.specs.Prelude.{IfOk};
ghost use Rattle.cp_output.specs.Json.{IsJsonLine};

use crate::delays::Delay;
use crate::loops::Loop;
use crate::names::{Source, Subject};
use crate::snapshot::{MonitorSnapshot, ProcessSnapshot};
use crate::states::word_of;
use cp_inspect::state::ProcState;
use cp_inspect::status::fault_number;
use cp_outcome_text::starts::places_of_init;
use cp_outcome_variables::variables::{Variable, Variables};
use cp_output::object::{FORMAT, line};
use cp_output::position::Position;
use cp_private::kernel_view::Holder;
use serde::Serialize;
use std::alloc::{AllocError, Global};

// A place in the text.
#[derive(Drop, Serialize)]
struct PlaceObject {
    line: usize,
    column: usize,
}

// The place of a call, with the others that it may have, if it isn't known which call it was.
#[derive(Drop, Serialize)]
struct CallObject {
    line: usize,
    column: usize,
    #[serde(skip_serializing_if = "Vec::is_empty")]
    or: Vec<PlaceObject>,
}

// A process that can't continue another one any more, and why.
#[derive(Drop, Serialize)]
struct PastObject {
    name: String,
    why: &'static str,
}

// The queue in which a process is delayed, and who could continue it.
#[derive(Drop, Serialize)]
struct DelayObject {
    name: String,
    continued_by: Vec<String>,
    could_continue: Vec<String>,
    could_not: Vec<PastObject>,
}

/// What became of a process.
#[derive(Drop, Serialize)]
pub struct ProcessObject {
    process: u32,
    name: String,
    /// `true` for a server.
    #[serde(skip_serializing_if = "Option::is_none")]
    server: Option<bool>,
    state: &'static str,
    #[serde(skip_serializing_if = "Option::is_none")]
    fault: Option<u64>,
    #[serde(skip_serializing_if = "Option::is_none")]
    monitor: Option<String>,
    #[serde(skip_serializing_if = "Option::is_none")]
    held_by: Option<String>,
    #[serde(skip_serializing_if = "Option::is_none")]
    queue: Option<DelayObject>,
    #[serde(skip_serializing_if = "Option::is_none")]
    at: Option<PlaceObject>,
    called_at: Vec<CallObject>,
    /// Where an `init` would start it, if it isn't started.
    #[serde(skip_serializing_if = "Option::is_none")]
    init_at: Option<Vec<PlaceObject>>,
    transcript: String,
}

// A part of a circle. A process that is still to be started waits in no monitor.
#[derive(Drop, Serialize)]
struct LinkObject {
    process: String,
    #[serde(skip_serializing_if = "Option::is_none")]
    monitor: Option<String>,
}

// Who is at a monitor, and its variables.
#[derive(Drop, Serialize)]
struct MonitorObject<'a> {
    monitor: u32,
    name: String,
    gate: &'static str,
    #[serde(skip_serializing_if = "Option::is_none")]
    held_by: Option<String>,
    variables: &'a [Variable],
}

// A state that came again, and who moved between.
#[derive(Drop, Serialize)]
struct LoopObject {
    first: u64,
    again: u64,
    moves: Vec<String>,
    stays: Vec<String>,
}

// What became of a run.
#[derive(Drop, Serialize)]
struct OutcomeObject<'a> {
    format: u32,
    verdict: &'a str,
    turn: u32,
    round: u64,
    #[serde(skip_serializing_if = "Vec::is_empty")]
    servers: Vec<String>,
    processes: Vec<ProcessObject>,
    circle: Vec<LinkObject>,
    #[serde(rename = "loop", skip_serializing_if = "Option::is_none")]
    found: Option<LoopObject>,
    monitors: Vec<MonitorObject<'a>>,
    /// The variables that were asked for by name.
    #[serde(skip_serializing_if = "Option::is_none")]
    shown: Option<&'a [Variable]>,
}

impl<'t> Subject<'_, 't> {
    fn string(&self, bytes: &[u8]) -> Result<String, AllocError> {
        String::from_utf8_lossy(self.alloc, bytes)
    }

    fn process_string(&self, process: u32) -> Result<String, AllocError> {
        self.string(self.component_table.process_name(process))
    }

    fn monitor_string(&self, monitor: u32) -> Result<String, AllocError> {
        self.string(self.component_table.monitor_name(monitor))
    }

    fn place_object(&self, at: usize) -> PlaceObject {
        let position = Position::of(self.text, at);
        PlaceObject {
            line: position.line,
            column: position.column,
        }
    }

    // The first of these places, with the others.
    fn call_object(&self, places: &[usize]) -> Result<Option<CallObject>, AllocError> {
        let Some((first, others)) = places.split_first() else {
            return Ok(None);
        };
        let mut or = Vec::new(self.alloc);
        for other in others {
            or.push(self.place_object(*other))?;
        }
        let PlaceObject { line, column } = self.place_object(*first);
        Ok(Some(CallObject { line, column, or }))
    }

    // The calls that lead to where a process is, outermost first.
    fn call_objects(&self, process: &ProcessSnapshot) -> Result<Vec<CallObject>, AllocError> {
        let mut calls = Vec::new(self.alloc);
        for places in process.calls() {
            if let Some(call) = self.call_object(places)? {
                calls.push(call)?;
            }
        }
        Ok(calls)
    }

    // The entries that continue a process, as `MONITOR.ENTRY`.
    fn entry_strings(&self, delay: &Delay) -> Result<Vec<String>, AllocError> {
        let mut strings = Vec::new(self.alloc);
        for entry in &delay.entries {
            let mut name = Vec::new(self.alloc);
            name.extend_from_slice(self.component_table.monitor_name(delay.monitor))?;
            name.extend_from_slice(b".")?;
            name.extend_from_slice(entry.name.as_bytes())?;
            strings.push(self.string(&name)?)?;
        }
        Ok(strings)
    }

    fn process_strings(&self, processes: &[u32]) -> Result<Vec<String>, AllocError> {
        let mut strings = Vec::new(self.alloc);
        for process in processes {
            strings.push(self.process_string(*process)?)?;
        }
        Ok(strings)
    }

    // The processes that can't continue one any more, and why.
    fn past_objects(&self, delay: &Delay) -> Result<Vec<PastObject>, AllocError> {
        let mut past = Vec::new(self.alloc);
        for process in &delay.past {
            past.push(PastObject {
                name: self.process_string(*process)?,
                why: self.hindrance(*process).word(),
            })?;
        }
        Ok(past)
    }

    fn delay_object(&self, delay: &Delay) -> Result<DelayObject, AllocError> {
        Ok(DelayObject {
            name: self.string(&delay.queue)?,
            continued_by: self.entry_strings(delay)?,
            could_continue: self.process_strings(&delay.helpers(self.alloc)?)?,
            could_not: self.past_objects(delay)?,
        })
    }

    // The holder of the gate of a monitor, if there is one.
    fn holder_string(&self, monitor: u32) -> Result<Option<String>, AllocError> {
        match self.snapshot.holder_of(monitor) {
            Holder::Process(holder) => Ok(Some(self.process_string(holder)?)),
            Holder::Unset | Holder::Free => Ok(None),
        }
    }

    // Where an `init` would start a process.
    fn init_objects(&self, process: u32) -> Result<Vec<PlaceObject>, AllocError> {
        let name = self.component_table.process_name(process);
        let mut objects = Vec::new(self.alloc);
        for at in &places_of_init(self.alloc, &self.statements, name)? {
            objects.push(self.place_object(*at))?;
        }
        Ok(objects)
    }

    // Adds why a process is where it is.
    fn add_reason(&self, object: &mut ProcessObject, state: ProcState) -> Result<(), AllocError> {
        match state {
            ProcState::Unstarted => object.init_at = Some(self.init_objects(object.process)?),
            ProcState::Faulted(fault) => object.fault = Some(fault_number(fault)),
            ProcState::Asking(monitor) => {
                object.monitor = Some(self.monitor_string(monitor)?);
                object.held_by = self.holder_string(monitor)?;
            }
            ProcState::Delayed { monitor, .. } => {
                object.monitor = Some(self.monitor_string(monitor)?);
                if let Some(delay) = self.delay(object.process) {
                    object.queue = Some(self.delay_object(delay)?);
                }
            }
            _ => {}
        }
        Ok(())
    }

    fn process_object(&self, process: &ProcessSnapshot) -> Result<ProcessObject, AllocError> {
        let mut object = ProcessObject {
            process: process.number,
            name: self.process_string(process.number)?,
            server: if self.is_server(process.number) {
                Some(true)
            } else {
                None
            },
            state: word_of(process.state),
            fault: None,
            monitor: None,
            held_by: None,
            queue: None,
            at: process.at.map(|at| self.place_object(at)),
            called_at: self.call_objects(process)?,
            init_at: None,
            transcript: self.string(&process.transcript)?,
        };
        self.add_reason(&mut object, process.state)?;
        Ok(object)
    }

    // All processes, by number.
    fn process_objects(&self) -> Result<Vec<ProcessObject>, AllocError> {
        let mut all = Vec::new(self.alloc);
        for process in &self.snapshot.processes {
            all.push(self.process_object(process)?)?;
        }
        Ok(all)
    }

    fn circle_objects(&self) -> Result<Vec<LinkObject>, AllocError> {
        let mut links = Vec::new(self.alloc);
        for link in &self.circle {
            links.push(LinkObject {
                process: self.process_string(link.process)?,
                monitor: match link.monitor {
                    0 => None,
                    monitor => Some(self.monitor_string(monitor)?),
                },
            })?;
        }
        Ok(links)
    }

    fn loop_object(&self, found: Option<&Loop>) -> Result<Option<LoopObject>, AllocError> {
        let Some(found) = found else {
            return Ok(None);
        };
        Ok(Some(LoopObject {
            first: found.first,
            again: found.again,
            moves: self.process_strings(&found.moves)?,
            stays: self.process_strings(&found.stays)?,
        }))
    }

    fn monitor_object<'a>(
        &self,
        monitor: &MonitorSnapshot,
        variables: &'a [Variable],
    ) -> Result<MonitorObject<'a>, AllocError> {
        Ok(MonitorObject {
            monitor: monitor.number,
            name: self.monitor_string(monitor.number)?,
            gate: match monitor.holder {
                Holder::Unset => "unset",
                Holder::Free => "free",
                Holder::Process(_) => "held",
            },
            held_by: self.holder_string(monitor.number)?,
            variables,
        })
    }

    // All monitors, by number, each with its variables.
    fn monitor_objects<'a>(
        &self,
        variables: &'a [Vec<Variable>],
    ) -> Result<Vec<MonitorObject<'a>>, AllocError> {
        let mut all = Vec::new(self.alloc);
        for (monitor, own) in self.snapshot.monitors.iter().zip(variables) {
            all.push(self.monitor_object(monitor, own)?)?;
        }
        Ok(all)
    }
}

/// What became of each process of a machine, by number.
///
/// # Errors
///
/// `AllocError` if memory runs out.
pub fn process_objects(
    alloc: Global,
    source: Source<'_, '_>,
) -> Result<Vec<ProcessObject>, AllocError> {
    Subject::of(alloc, source)?.process_objects()
}

// The variables that were asked for by name, if some were.
fn shown_of(shown: &[Variable]) -> Option<&[Variable]> {
    if shown.is_empty() { None } else { Some(shown) }
}

/// The outcome of a machine as a line with a JSON object: the word for its verdict, the steps of a
/// turn, the number of rounds, the servers, each process with its state, its place and why it is
/// there, the circle, a state that came again, the monitors with their variables, and the variables
/// that were asked for.
///
/// # Errors
///
/// `AllocError` if memory runs out.
pub fn object(
    alloc: Global,
    source: Source<'_, '_>,
    verdict: &str,
    turn: u32,
    found: Option<&Loop>,
    variables: &Variables,
) -> Result<Vec<u8>, AllocError>
    ensures { IfOk result (λ bytes. IsJsonLine bytes.items) }
{
    let subject = Subject::of(alloc, source)?;
    let outcome = OutcomeObject {
        format: FORMAT,
        verdict,
        turn,
        round: subject.snapshot.rounds,
        servers: subject.process_strings(subject.servers)?,
        processes: subject.process_objects()?,
        circle: subject.circle_objects()?,
        found: subject.loop_object(found)?,
        monitors: subject.monitor_objects(&variables.monitors)?,
        shown: shown_of(&variables.shown),
    };
    line(alloc, &outcome)
}
