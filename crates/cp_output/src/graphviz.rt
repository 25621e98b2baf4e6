//! Graphs for Graphviz: the names of nodes, and arrows from one to another.

use crate::page::Page;

/// Adds the name of a node, which has neither a `"` nor a `\`.
pub fn push_node(page: &mut Page, name: &[u8]) {
    page.bytes(b"\"");
    page.bytes(name);
    page.bytes(b"\"");
}

/// Adds an arrow, up to its attributes or the `;` after it.
pub fn push_arrow(page: &mut Page, from: &[u8], to: &[u8]) {
    page.bytes(b"  ");
    push_node(page, from);
    page.bytes(b" -> ");
    push_node(page, to);
}
