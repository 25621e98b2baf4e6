//! Following a machine round by round, and reporting it in a form.

ghost use Rattle.std.specs.Prelude.{◌≡◌, IfOk, OnOk};
ghost use Rattle.cp_trace.specs.Reporting.{Adds};

use crate::grid::Grid;
use crate::lines::push_round;
use crate::objects::push_objects;
use crate::svg::Picture;
use crate::timeline::Timeline;
use crate::topic::Topic;
use crate::trace::Trace;
use cp_base_config::trace::TraceForm;
use cp_inspect::inspect::Inspect;
use std::alloc::{AllocError, Global};

/// Follows a machine and reports it. What it has seen takes memory that doesn't grow with the
/// rounds.
#[derive(Drop)]
pub enum Tracer<'t> {
    Lines(Trace<'t>),
    Json(Trace<'t>),
    Timeline(Timeline<'t>),
    Svg(Picture<'t>),
}

impl<'t> Tracer<'t> {
    ghost use Rattle.cp_trace.specs.Tracers.{Begins, Ends, ReportsRound, form_of};

    /// A tracer that follows a machine from what it is now, and reports it in this form. The
    /// machine runs the program of the topic's text, and has made the rounds before those that are
    /// reported.
    ///
    /// # Errors
    ///
    /// `AllocError` if memory runs out.
    pub fn of<M: Inspect>(
        alloc: Global,
        form: TraceForm,
        topic: Topic<'_, 't>,
        machine: &M,
    ) -> Result<Tracer<'t>, AllocError>
        ensures { IfOk result (λ tracer. form_of tracer ≡ form) }
    {
        Ok(match form {
            TraceForm::Lines => Tracer::Lines(Trace::of(alloc, topic, machine)?),
            TraceForm::Json => Tracer::Json(Trace::of(alloc, topic, machine)?),
            TraceForm::Timeline => Tracer::Timeline(Timeline::of(Grid::of(alloc, topic)?)),
            TraceForm::Svg => {
                let rounds = topic.rounds;
                Tracer::Svg(Picture::of(Grid::of(alloc, topic)?, rounds))
            }
        })
    }

    /// Adds what comes before all rounds.
    ///
    /// # Errors
    ///
    /// `AllocError` if memory runs out.
    pub fn begin(&self, out: &mut Vec<u8>) -> Result<(), AllocError>
        ensures { OnOk result (Adds (Begins (form_of self.now)) out.old.items out.new.items) }
    {
        match self {
            Tracer::Svg(picture) => picture.begin(out),
            _ => Ok(()),
        }
    }

    /// Sees the machine after so many rounds, and adds what is reported at once.
    ///
    /// # Errors
    ///
    /// `AllocError` if memory runs out. The tracer is then of no further use.
    pub fn follow<M: Inspect>(
        &mut self,
        rounds: u64,
        machine: &M,
        out: &mut Vec<u8>,
    ) -> Result<(), AllocError>
        ensures added { OnOk result (Adds (ReportsRound (form_of self.old) rounds)
            out.old.items out.new.items) }
        ensures form { OnOk result (form_of self.new ≡ form_of self.old) }
    {
        match self {
            Tracer::Lines(trace) => {
                push_round(trace.alloc, rounds, &trace.changes(machine)?, out)
            }
            Tracer::Json(trace) => {
                push_objects(trace.alloc, rounds, &trace.changes(machine)?, out)
            }
            Tracer::Timeline(timeline) => timeline.follow(machine, out),
            Tracer::Svg(picture) => picture.follow(machine, out),
        }
    }

    /// Adds what comes after all rounds.
    ///
    /// # Errors
    ///
    /// `AllocError` if memory runs out.
    pub fn finish(&self, out: &mut Vec<u8>) -> Result<(), AllocError>
        ensures { OnOk result (Adds (Ends (form_of self.now)) out.old.items out.new.items) }
    {
        match self {
            Tracer::Lines(_) | Tracer::Json(_) => Ok(()),
            Tracer::Timeline(timeline) => timeline.finish(out),
            Tracer::Svg(picture) => picture.finish(out),
        }
    }
}
