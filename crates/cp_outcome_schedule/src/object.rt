//! What a search has found, as a JSON object, for programs.

ghost use Rattle.std.specs.Prelude.{IfOk};
ghost use Rattle.cp_output.specs.Json.{IsJsonLine};

use crate::findings::{Finding, Findings, Found, Subject};
use crate::names::Names;
use cp_inspect::status::fault_number;
use cp_outcome_reasons::names::Source;
use cp_outcome_reasons::object::{ProcessObject, process_objects};
use cp_output::object::{FORMAT, line};
use cp_search::notes::Stop;
use cp_search_schedule::schedule::{Call, Effect, EffectKind};
use serde::Serialize;
use std::alloc::{AllocError, Global};

// What a process does or meets.
#[derive(Drop, Serialize)]
struct EffectObject {
    process: u32,
    name: String,
    effect: &'static str,
    #[serde(skip_serializing_if = "Option::is_none")]
    monitor: Option<String>,
    #[serde(skip_serializing_if = "Option::is_none")]
    queue: Option<String>,
    /// The process that is waited for or that continues this one.
    #[serde(skip_serializing_if = "Option::is_none")]
    by: Option<String>,
    #[serde(skip_serializing_if = "Option::is_none")]
    fault: Option<u64>,
}

// A call.
#[derive(Drop, Serialize)]
struct CallObject {
    process: u32,
    name: String,
    #[serde(skip_serializing_if = "Option::is_none")]
    monitor: Option<String>,
    entry: String,
    #[serde(skip_serializing_if = "Option::is_none")]
    line: Option<usize>,
    #[serde(skip_serializing_if = "Option::is_none")]
    column: Option<usize>,
    effects: Vec<EffectObject>,
}

// A schedule, and where it leads. Each `init` of a monitor is only counted.
#[derive(Drop, Serialize)]
struct ScheduleObject {
    inits: usize,
    calls: Vec<CallObject>,
    processes: Vec<ProcessObject>,
    order: String,
}

// What a search has found.
#[derive(Drop, Serialize)]
struct SearchObject {
    format: u32,
    verdict: &'static str,
    #[serde(skip_serializing_if = "Vec::is_empty")]
    servers: Vec<String>,
    fault: Option<ScheduleObject>,
    stuck: Option<ScheduleObject>,
    ended: bool,
    states: usize,
    transitions: u64,
    #[serde(skip_serializing_if = "Option::is_none")]
    stopped: Option<&'static str>,
    #[serde(skip_serializing_if = "Option::is_none")]
    process: Option<usize>,
}

fn word_of(stop: Stop) -> &'static str {
    match stop {
        Stop::Clock => "clock",
        Stop::States => "states",
        Stop::Memory => "memory",
        Stop::Forever(_) => "forever",
        Stop::Defect => "defect",
    }
}

// Why not all is known.
fn stopped_by(findings: &Findings) -> Option<&'static str> {
    match findings.stop {
        Some(stop) => Some(word_of(stop)),
        None if findings.has_long() => Some("length"),
        None => None,
    }
}

impl Names<'_, '_> {
    fn string(&self, bytes: &[u8]) -> Result<String, AllocError> {
        String::from_utf8_lossy(self.alloc, bytes)
    }

    fn process_string(&self, process: u32) -> Result<String, AllocError> {
        self.string(self.components.process_name(process))
    }

    fn monitor_string(&self, monitor: u32) -> Result<Option<String>, AllocError> {
        Ok(Some(self.string(self.components.monitor_name(monitor))?))
    }

    fn effect_object(&self, effect: Effect) -> Result<EffectObject, AllocError> {
        let mut object = EffectObject {
            process: effect.process,
            name: self.process_string(effect.process)?,
            effect: "enters",
            monitor: None,
            queue: None,
            by: None,
            fault: None,
        };
        match effect.kind {
            EffectKind::Waits { monitor, holder } => {
                object.effect = "waits";
                object.monitor = self.monitor_string(monitor)?;
                if let Some(holder) = holder {
                    object.by = Some(self.process_string(holder)?);
                }
            }
            EffectKind::Enters { monitor } => object.monitor = self.monitor_string(monitor)?,
            EffectKind::Delays { monitor, queue } => {
                object.effect = "delays";
                object.monitor = self.monitor_string(monitor)?;
                object.queue = Some(self.string(&self.queue(queue)?)?);
            }
            EffectKind::Continued { by } => {
                object.effect = "continued";
                object.by = Some(self.process_string(by)?);
            }
            EffectKind::Faults { fault, .. } => {
                object.effect = "fault";
                object.fault = Some(fault_number(fault));
            }
        }
        Ok(object)
    }

    fn call_object(&self, call: &Call) -> Result<CallObject, AllocError> {
        let position = self.position(call.operation);
        let mut effects = Vec::new(self.alloc);
        for effect in &call.effects {
            effects.push(self.effect_object(*effect)?)?;
        }
        Ok(CallObject {
            process: call.process,
            name: self.process_string(call.process)?,
            monitor: match call.monitor {
                Some(monitor) => self.monitor_string(monitor)?,
                None => None,
            },
            entry: self.string(self.entry(call.operation))?,
            line: position.map(|position| position.line),
            column: position.map(|position| position.column),
            effects,
        })
    }

    fn schedule_object(&self, found: &Found) -> Result<ScheduleObject, AllocError> {
        let mut calls = Vec::new(self.alloc);
        for call in &found.schedule.calls {
            if !call.is_init {
                calls.push(self.call_object(call)?)?;
            }
        }
        let source = Source {
            bytes: self.subject.bytes,
            tree: self.subject.tree,
            tables: self.subject.tables,
            snapshot: &found.snapshot,
            servers: self.subject.servers,
        };
        Ok(ScheduleObject {
            inits: found.schedule.calls.len().saturating_sub(calls.len()),
            calls,
            processes: process_objects(self.alloc, source)?,
            order: self.string(&found.schedule.order)?,
        })
    }

    fn server_strings(&self) -> Result<Vec<String>, AllocError> {
        let mut strings = Vec::new(self.alloc);
        for server in self.subject.servers {
            strings.push(self.process_string(*server)?)?;
        }
        Ok(strings)
    }

    fn finding_object(&self, finding: &Finding) -> Result<Option<ScheduleObject>, AllocError> {
        match finding {
            Finding::Schedule(found) => Ok(Some(self.schedule_object(found)?)),
            _ => Ok(None),
        }
    }
}

/// What a search has found, as a line with a JSON object.
///
/// # Errors
///
/// `AllocError` if memory runs out.
pub fn object(
    alloc: Global,
    subject: Subject<'_, '_>,
    findings: &Findings,
    verdict: &'static str,
) -> Result<Vec<u8>, AllocError>
    ensures { IfOk result (λ bytes. IsJsonLine bytes.items) }
{
    let names = Names::of(alloc, subject)?;
    let object = SearchObject {
        format: FORMAT,
        verdict,
        servers: names.server_strings()?,
        fault: names.finding_object(&findings.fault)?,
        stuck: names.finding_object(&findings.stuck)?,
        ended: findings.has_ended,
        states: findings.states,
        transitions: findings.transitions,
        stopped: stopped_by(findings),
        process: match findings.stop {
            Some(Stop::Forever(process)) => Some(process),
            _ => None,
        },
    };
    line(alloc, &object)
}
