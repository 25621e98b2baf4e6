//! The names that are visible everywhere: what each represents, and what it means.

use cp_output::page::Page;

/// A type that no text declares.
#[derive(Clone, Copy)]
pub enum StandardType {
    Integer,
    Boolean,
    Char,
    Queue,
}

impl StandardType {
    /// The name of the type.
    pub fn name(self) -> &'static [u8] {
        match self {
            StandardType::Integer => b"integer",
            StandardType::Boolean => b"boolean",
            StandardType::Char => b"char",
            StandardType::Queue => b"queue",
        }
    }

    /// The type with this name.
    pub fn named(name: &[u8]) -> Option<StandardType> {
        for of in [
            StandardType::Integer,
            StandardType::Boolean,
            StandardType::Char,
            StandardType::Queue,
        ] {
            if of.name() == name {
                return Some(of);
            }
        }
        None
    }
}

/// What a standard name represents.
#[derive(Clone, Copy)]
pub enum StandardKind {
    Type,
    Constant,
    /// A routine takes this number of arguments.
    Function(usize),
    Procedure(usize),
}

/// A standard name: what it represents, how a routine is called, and what it means.
#[derive(Clone, Copy)]
pub struct Standard {
    pub name: &'static str,
    pub kind: StandardKind,
    pub heading: &'static str,
    pub meaning: &'static str,
}

/// The standard names.
pub const STANDARD: [Standard; 18] = [
    Standard {
        name: "integer",
        kind: StandardKind::Type,
        heading: "",
        meaning: "the numbers from -32768 to 32767",
    },
    Standard {
        name: "boolean",
        kind: StandardKind::Type,
        heading: "",
        meaning: "`false` and `true`",
    },
    Standard {
        name: "char",
        kind: StandardKind::Type,
        heading: "",
        meaning: "the 128 characters of ASCII",
    },
    Standard {
        name: "queue",
        kind: StandardKind::Type,
        heading: "",
        meaning: "a place in a monitor where one process can wait",
    },
    Standard {
        name: "false",
        kind: StandardKind::Constant,
        heading: "",
        meaning: "the Boolean that a condition has if it doesn't hold",
    },
    Standard {
        name: "true",
        kind: StandardKind::Constant,
        heading: "",
        meaning: "the Boolean that a condition has if it holds",
    },
    Standard {
        name: "abs",
        kind: StandardKind::Function(1),
        heading: "abs(n: integer): integer",
        meaning: "`n` without its sign",
    },
    Standard {
        name: "succ",
        kind: StandardKind::Function(1),
        heading: "succ(x)",
        meaning: "the value after `x`, which is simple",
    },
    Standard {
        name: "pred",
        kind: StandardKind::Function(1),
        heading: "pred(x)",
        meaning: "the value before `x`, which is simple",
    },
    Standard {
        name: "ord",
        kind: StandardKind::Function(1),
        heading: "ord(x): integer",
        meaning: "the number of `x`, which is simple",
    },
    Standard {
        name: "chr",
        kind: StandardKind::Function(1),
        heading: "chr(n: integer): char",
        meaning: "the character with the number `n`",
    },
    Standard {
        name: "empty",
        kind: StandardKind::Function(1),
        heading: "empty(q: queue): boolean",
        meaning: "whether no process waits in `q`",
    },
    Standard {
        name: "realtime",
        kind: StandardKind::Function(0),
        heading: "realtime: integer",
        meaning: "the ticks of the clock so far",
    },
    Standard {
        name: "delay",
        kind: StandardKind::Procedure(1),
        heading: "delay(q: queue)",
        meaning: "the process waits in `q`, and leaves the monitor meanwhile",
    },
    Standard {
        name: "continue",
        kind: StandardKind::Procedure(1),
        heading: "continue(q: queue)",
        meaning: "the entry routine returns, and the process in `q` continues",
    },
    Standard {
        name: "display",
        kind: StandardKind::Procedure(1),
        heading: "display(x)",
        meaning: "writes `x`, which is simple",
    },
    Standard {
        name: "accept",
        kind: StandardKind::Procedure(1),
        heading: "accept(var c: char)",
        meaning: "reads the next character of the input into `c`",
    },
    Standard {
        name: "wait",
        kind: StandardKind::Procedure(0),
        heading: "wait",
        meaning: "the process waits for the next tick of the clock",
    },
];

/// The standard name that is spelled like this.
pub fn find_standard(name: &[u8]) -> Option<Standard> {
    for standard in STANDARD.as_slice() {
        if standard.name.as_bytes() == name {
            return Some(*standard);
        }
    }
    None
}

/// The type of the value of a standard name.
pub fn standard_value(name: &[u8]) -> Option<StandardType> {
    match name {
        b"false" | b"true" | b"empty" => Some(StandardType::Boolean),
        b"abs" | b"ord" | b"realtime" => Some(StandardType::Integer),
        b"chr" => Some(StandardType::Char),
        _ => None,
    }
}

impl Standard {
    // What it represents, in words.
    fn kind_words(&self) -> &'static str {
        match self.kind {
            StandardKind::Type => "type",
            StandardKind::Constant => "constant",
            StandardKind::Function(_) => "function",
            StandardKind::Procedure(_) => "procedure",
        }
    }

    /// The number of arguments, if this is a routine.
    pub fn count(&self) -> Option<usize> {
        match self.kind {
            StandardKind::Function(count) | StandardKind::Procedure(count) => Some(count),
            _ => None,
        }
    }

    // Adds the heading of a routine.
    fn push_heading(&self, page: &mut Page) {
        page.bytes(b"`");
        page.text(self.kind_words());
        page.bytes(b" ");
        page.text(self.heading);
        page.bytes(b"`");
    }

    /// Adds a line that says that this name is a standard one, and what it means.
    pub fn push(&self, page: &mut Page) {
        page.bytes(b"  ");
        page.quoted(self.name.as_bytes());
        page.text(" is a standard ");
        page.text(self.kind_words());
        page.bytes(b": ");
        if self.count().is_some() {
            self.push_heading(page);
            page.bytes(b", ");
        }
        page.text(self.meaning);
        page.bytes(b".\n");
    }
}
