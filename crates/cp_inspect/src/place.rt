//! The places of variables, and their values.

ghost use Rattle.std.specs.Prelude.{◌≡◌};
ghost use Rattle.cp_inspect.specs.Values.{value_in};

/// Whose variable it is: a process or a monitor, by its number from 1.
#[derive(Clone, Copy, PartialEq, Eq)]
pub enum Owner {
    Process(u32),
    Monitor(u32),
}

/// What a word holds.
#[derive(Clone, Copy)]
pub enum Kind {
    /// The ordinal of a simple variable.
    Simple,
    /// The process that is in a queue.
    Queue,
}

/// The place of a simple variable or a queue: the address of its word among those of its owner,
/// whose first word has the address 0.
#[derive(Clone, Copy)]
pub struct Place {
    pub owner: Owner,
    pub at: usize,
    pub kind: Kind,
}

/// The value of a variable: the ordinal of a simple one, or who is in a queue.
#[derive(Clone, Copy, PartialEq, Eq)]
pub enum Value {
    Ordinal(i32),
    Queue(Option<u32>),
}

impl Value {
    /// The value that a word of this kind holds.
    pub fn of(kind: Kind, word: i32) -> Value
        ensures { result ≡ value_in kind word }
    {
        match kind {
            Kind::Simple => Value::Ordinal(word),
            Kind::Queue if word > 0 => Value::Queue(Some(word as u32)),
            Kind::Queue => Value::Queue(None),
        }
    }
}
