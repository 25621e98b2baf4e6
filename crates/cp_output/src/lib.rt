//! What cpm shows: pages of text, and forms that programs read.
//!
//! - `page`: text that grows. `message`: messages on a page. `excerpt`: the line of a place with a
//!   caret under it. `position`: the line and the column of a place.
//! - `object`: a JSON object on one line (`specs/Json.antt`).
//! - `graphviz`: graphs for Graphviz: the names of nodes, and arrows.
//!
//! The position of a place is proved (`specs/Positions.antt`); how a line is shown is tested.
#![tactic(auto)]

mod excerpt;
mod glyph;
pub mod graphviz;
pub mod law;
pub mod message;
pub mod object;
pub mod page;
pub mod position;
