//! How a part of a line is shown.

ghost use Rattle.std.specs.Prelude.{◌≡◌};
ghost use Rattle.cp_cli_terminal.specs.Painting.{sequence_of};

/// How a part of a line is shown.
#[derive(Clone, Copy)]
pub enum Style {
    /// As the terminal shows text.
    Plain,
    /// Bold: a place.
    Place,
    /// Bold and red: what is wrong.
    Wrong,
    /// Yellow: a note, or a run that has not come to its end.
    Doubtful,
    /// Green: what is right.
    Right,
    /// Dim: a line of the source.
    Source,
}

impl Style {
    /// The sequence that begins a part with this style, and ends the style before it.
    pub fn sequence(self) -> &'static [u8]
        ensures { result.now ≡ sequence_of self }
    {
        match self {
            Style::Plain => b"\x1b[0m",
            Style::Place => b"\x1b[0;1m",
            Style::Wrong => b"\x1b[0;1;31m",
            Style::Doubtful => b"\x1b[0;33m",
            Style::Right => b"\x1b[0;32m",
            Style::Source => b"\x1b[0;2m",
        }
    }
}
