//! What cpm shows people on a terminal: its lines in colours.
//!
//! - `colours`: when lines are coloured.
//! - `lines`: which parts of a line have which style.
//! - `painted`: a text with the sequences that a terminal shows as styles.
//! - `painter`: a writer that paints what it is given.
//!
//! Proved: a painted text is the text with such sequences inserted (`specs/Painting.antt`). Which
//! parts have which style is tested.
#![tactic(auto)]

pub mod colours;
mod lines;
pub mod painted;
pub mod painter;
pub mod style;
