//! Elements of a picture: rectangles and texts. All lengths are in pixels.

use std::alloc::AllocError;
use std::fmt::{Display, Write};

/// A rectangle: its top left corner, its width and its height.
#[derive(Clone, Copy)]
pub(crate) struct Area {
    pub(crate) x: usize,
    pub(crate) y: usize,
    pub(crate) width: usize,
    pub(crate) height: usize,
}

/// Adds the beginning of a rectangle. What is in it comes next, and `</rect>` ends it.
pub(crate) fn begin_rectangle(
    page: &mut String,
    class: &str,
    area: Area,
) -> Result<(), AllocError> {
    let Area {
        x,
        y,
        width,
        height,
    } = area;
    write!(
        page,
        "<rect class=\"{class}\" x=\"{x}\" y=\"{y}\" width=\"{width}\" height=\"{height}\">"
    )
}

/// Adds a rectangle with nothing in it.
pub(crate) fn push_rectangle(page: &mut String, class: &str, area: Area) -> Result<(), AllocError> {
    begin_rectangle(page, class, area)?;
    page.push_str("</rect>\n")
}

/// Adds a text whose foot is at `y`. None of its characters has a meaning in a picture.
pub(crate) fn push_text<T: Display + Copy>(
    page: &mut String,
    class: &str,
    x: usize,
    y: usize,
    text: T,
) -> Result<(), AllocError> {
    writeln!(
        page,
        "<text class=\"{class}\" x=\"{x}\" y=\"{y}\">{text}</text>"
    )
}
