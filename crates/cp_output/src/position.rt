//! The line and the column of a place (`specs/Positions.antt`).

ghost use Rattle.std.specs.Prelude.{◌≡◌, suc};
ghost use Rattle.cp_output.specs.Positions.{column_at, column_from, line_at, line_feeds};

/// The line and the column of a place, both counted from 1. A line ends with a line feed, and each
/// byte takes one column.
#[derive(Clone, Copy)]
pub struct Position {
    pub line: usize,
    pub column: usize,
}

impl Position {
    // The position after these bytes.
    fn after(front: &[u8]) -> Position
        ensures line { result.line ≡ suc (line_feeds front.now) }
        ensures column { result.column ≡ column_from 1 front.now }
    {
        let mut position = Position { line: 1, column: 1 };
        for byte in front {
            if *byte == b'\n' {
                position.line += 1;
                position.column = 1;
            } else {
                position.column += 1;
            }
        }
        position
    }

    /// The position of the byte `at`, counted from 0, or of the end of the text if it is shorter.
    pub fn of(text: &[u8], at: usize) -> Position
        ensures line { result.line ≡ line_at text.now at }
        ensures column { result.column ≡ column_at text.now at }
    {
        Position::after(&text[..at.min(text.len())])
    }
}
