//! The access graph of an accepted text, for programs, taken from its lines
//! (`specs/Values.antt`).

ghost use Rattle.cp_explain.specs.Values.{component_value, graph_value, rights_value};
ghost use Rattle.serde_json.specs.Events.{SendsValue};

use crate::fields::{count_fields, write_field, write_some};
use crate::parts::{items, lines};
use serde::{Described, Serialize, Serializer};
use std::alloc::{AllocError, Global};

/// A component of an accepted text.
#[derive(Drop)]
pub struct ComponentObject {
    sort: String,
    name: String,
    of: Option<String>,
}

/// The components to which one has rights.
#[derive(Drop)]
pub struct RightsObject {
    from: String,
    to: Vec<String>,
}

/// The access graph of an accepted text.
#[derive(Drop)]
pub struct GraphObject {
    components: Vec<ComponentObject>,
    rights: Vec<RightsObject>,
}

impl Described for ComponentObject {
    ghost writes = { λ component. SendsValue (component_value component) };
}

impl Serialize for ComponentObject {
    fn serialize<S: Serializer>(&self, out: &mut S) -> Result<(), S::Error> {
        out.begin_map(Some(count_fields(2, &self.of)))?;
        write_field(out, "sort", &self.sort)?;
        write_field(out, "name", &self.name)?;
        write_some(out, "type", &self.of)?;
        out.end_map()
    }
}

impl Described for RightsObject {
    ghost writes = { λ rights. SendsValue (rights_value rights) };
}

impl Serialize for RightsObject {
    fn serialize<S: Serializer>(&self, out: &mut S) -> Result<(), S::Error> {
        out.begin_map(Some(2))?;
        write_field(out, "from", &self.from)?;
        write_field(out, "to", &self.to)?;
        out.end_map()
    }
}

impl Described for GraphObject {
    ghost writes = { λ graph. SendsValue (graph_value graph) };
}

impl Serialize for GraphObject {
    fn serialize<S: Serializer>(&self, out: &mut S) -> Result<(), S::Error> {
        out.begin_map(Some(2))?;
        write_field(out, "components", &self.components)?;
        write_field(out, "rights", &self.rights)?;
        out.end_map()
    }
}

// The place of these two bytes.
fn find_pair(line: &[u8], first: u8, second: u8) -> Option<usize> {
    for i in 0..line.len() {
        if matches!(&line[i..], [a, b, ..] if *a == first && *b == second) {
            return Some(i);
        }
    }
    None
}

// The bytes before a place and those after the two bytes there.
fn split(line: &[u8], at: usize) -> (&[u8], &[u8]) {
    let at = at.min(line.len());
    let rest = at.saturating_add(2).min(line.len());
    (&line[..at], &line[rest..])
}

fn text(alloc: Global, bytes: &[u8]) -> Result<String, AllocError> {
    String::from_utf8_lossy(alloc, bytes)
}

// A line without the blanks at its start.
fn unindented(line: &[u8]) -> &[u8] {
    for i in 0..line.len() {
        if line[i] != b' ' {
            return &line[i..];
        }
    }
    b""
}

// A line such as `monitor g: m`.
fn component(alloc: Global, line: &[u8]) -> Result<Option<ComponentObject>, AllocError> {
    let line = unindented(line);
    let Some(end) = line.iter().position(|byte| *byte == b' ') else {
        return Ok(None);
    };
    let end = end.min(line.len());
    let (sort, rest) = (&line[..end], unindented(&line[end..]));
    let (name, of) = match find_pair(rest, b':', b' ') {
        Some(at) => {
            let (name, of) = split(rest, at);
            (name, Some(text(alloc, of)?))
        }
        None => (rest, None),
    };
    Ok(Some(ComponentObject {
        sort: text(alloc, sort)?,
        name: text(alloc, name)?,
        of,
    }))
}

// A line such as `p -> g, h`.
fn rights(alloc: Global, from: &[u8], list: &[u8]) -> Result<RightsObject, AllocError> {
    let mut to = Vec::new(alloc);
    for name in &items(alloc, list)? {
        to.push(text(alloc, unindented(name))?)?;
    }
    Ok(RightsObject {
        from: text(alloc, from)?,
        to,
    })
}

impl GraphObject {
    /// The graph of these lines. Fails only if memory runs out.
    pub fn of(alloc: Global, page: &[u8]) -> Result<GraphObject, AllocError> {
        let mut graph = GraphObject {
            components: Vec::new(alloc),
            rights: Vec::new(alloc),
        };
        for line in lines(alloc, page)?.iter().skip(1) {
            graph.add(alloc, line)?;
        }
        Ok(graph)
    }

    fn add(&mut self, alloc: Global, line: &[u8]) -> Result<(), AllocError> {
        match find_pair(line, b'-', b'>') {
            Some(at) => {
                let (from, list) = split(line, at.saturating_sub(1));
                let (_, list) = split(list, 0);
                self.rights.push(rights(alloc, from, list)?)?;
            }
            None => {
                if let Some(component) = component(alloc, line)? {
                    self.components.push(component)?;
                }
            }
        }
        Ok(())
    }
}
