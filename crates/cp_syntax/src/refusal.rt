//! Why tokens have no tree.

/// Why `parse` returns no tree. A place is the offset of a byte in the text, from 0.
#[derive(Clone, Copy)]
pub enum SyntaxError {
    /// Y1: no text has the token at this place after the tokens before it, however deep it is
    /// nested.
    Unexpected { at: usize },
    /// Y2: the text ends here, but isn't complete.
    Unfinished { at: usize },
    /// Y3: the token at this place opens one level more than a text may have.
    TooDeep { at: usize },
    /// Memory was refused. This says nothing about the tokens.
    Memory,
}
