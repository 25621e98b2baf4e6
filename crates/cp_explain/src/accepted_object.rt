//! The object of a text that is accepted: the notes on it, and its access graph
//! (`specs/Values.antt`).

ghost use Rattle.std.specs.Prelude.{IfOk};
ghost use Rattle.cp_explain.specs.Objects.{IsAcceptedLine};
ghost use Rattle.cp_explain.specs.Values.{accepted_value, note_value};
ghost use Rattle.cp_output.specs.Json.{IsJsonLine};
ghost use Rattle.serde_json.specs.Events.{SendsValue};

use crate::fields::write_field;
use crate::graph_object::GraphObject;
use cp_base_config::explaining::Form;
use cp_base_names::Key;
use cp_explain_notes::{NoteText, notes};
use cp_explain_rights::graph::graph;
use cp_model::tree::Tree;
use cp_output::object::{FORMAT, line};
use serde::{Described, Serialize, Serializer};
use std::alloc::{AllocError, Global};

/// What is doomed in an accepted text.
#[derive(Drop)]
pub(crate) struct NoteObject {
    line: usize,
    column: usize,
    offset: usize,
    message: String,
    advice: String,
}

/// A text that is accepted.
#[derive(Drop)]
pub(crate) struct AcceptedObject {
    file: String,
    notes: Vec<NoteObject>,
    graph: GraphObject,
}

impl Described for NoteObject {
    ghost writes = { λ note. SendsValue (note_value note) };
}

impl Serialize for NoteObject {
    fn serialize<S: Serializer>(&self, out: &mut S) -> Result<(), S::Error> {
        out.begin_map(Some(5))?;
        write_field(out, "line", &self.line)?;
        write_field(out, "column", &self.column)?;
        write_field(out, "offset", &self.offset)?;
        write_field(out, "message", &self.message)?;
        write_field(out, "advice", &self.advice)?;
        out.end_map()
    }
}

impl Described for AcceptedObject {
    ghost writes = { λ o. SendsValue (accepted_value o) };
}

impl Serialize for AcceptedObject {
    fn serialize<S: Serializer>(&self, out: &mut S) -> Result<(), S::Error> {
        out.begin_map(Some(5))?;
        write_field(out, "format", &FORMAT)?;
        write_field(out, "accepted", &true)?;
        write_field(out, "file", &self.file)?;
        write_field(out, "notes", &self.notes)?;
        write_field(out, "graph", &self.graph)?;
        out.end_map()
    }
}

fn note_object(alloc: Global, note: &NoteText) -> Result<NoteObject, AllocError> {
    Ok(NoteObject {
        line: note.position.line,
        column: note.position.column,
        offset: note.at,
        message: String::from_utf8_lossy(alloc, &note.head)?,
        advice: String::from_utf8_lossy(alloc, &note.advice)?,
    })
}

// The notes on an accepted text.
fn note_objects(
    alloc: Global,
    key: Key,
    text: &[u8],
    tree: &Tree,
) -> Result<Vec<NoteObject>, AllocError> {
    let mut all = Vec::new(alloc);
    for note in &notes(alloc, key, text, tree)? {
        all.push(note_object(alloc, note)?)?;
    }
    Ok(all)
}

impl AcceptedObject {
    /// The object of an accepted text. Fails only if memory runs out.
    pub(crate) fn of(
        alloc: Global,
        key: Key,
        file: &[u8],
        text: &[u8],
        tree: &Tree,
    ) -> Result<AcceptedObject, AllocError> {
        let lines = graph(alloc, key, tree, Form::Lines)?.finish()?;
        Ok(AcceptedObject {
            file: String::from_utf8_lossy(alloc, file)?,
            notes: note_objects(alloc, key, text, tree)?,
            graph: GraphObject::of(alloc, &lines)?,
        })
    }

    /// The line of the object. Fails only if memory runs out.
    pub(crate) fn line(&self, alloc: Global) -> Result<Vec<u8>, AllocError>
        ensures form { IfOk result (λ page. IsJsonLine page.items) }
        ensures value { IfOk result (λ page. IsAcceptedLine page.items) }
    {
        line(alloc, self)
    }
}
