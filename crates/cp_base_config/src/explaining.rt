//! The parameters of explanations.

/// How much is reported of a refused text.
#[derive(Clone, Copy)]
pub enum Extent {
    /// The first refusal.
    First,
    /// All violations, in short. For a text without a tree: the first refusal, and what the
    /// language of the book has and this one doesn't.
    All,
}

/// How an access graph is written.
#[derive(Clone, Copy)]
pub enum Form {
    /// As lines for people.
    Lines,
    /// As a graph for Graphviz.
    Dot,
}

/// What `explain` writes about a text.
#[derive(Clone, Copy)]
pub enum Explaining {
    /// The access graph of an accepted text in this form, or the first refusal.
    First(Form),
    /// `--all`: the access graph of an accepted text, or all violations in short.
    All,
    /// `--json`: the notes on an accepted text, or its violations, as an object.
    Object(Extent),
}
