//! What is known at a place of a body, on whichever way it is reached.

/// Whether a way leads to a place.
#[derive(Clone, Copy)]
pub enum Reach {
    Open,
    /// None does.
    Closed,
    /// None does, and a note says so already.
    Reported,
}

/// What is known at a place.
#[derive(Clone, Copy)]
pub struct Flow {
    pub(crate) reach: Reach,
    /// Whether each way to the place sets the result of the function.
    pub(crate) has_result: bool,
}

impl Flow {
    /// The start of a body.
    pub const START: Flow = Flow {
        reach: Reach::Open,
        has_result: false,
    };

    /// A place to which no way leads.
    pub const NOWHERE: Flow = Flow {
        reach: Reach::Closed,
        has_result: true,
    };

    pub fn is_open(self) -> bool {
        self.reach == Reach::Open
    }

    /// What is known where two ways meet.
    pub fn or(self, other: Flow) -> Flow {
        match (self.is_open(), other.is_open()) {
            (true, true) => Flow {
                reach: Reach::Open,
                has_result: self.has_result && other.has_result,
            },
            (true, false) => self,
            _ => other,
        }
    }
}

/// How often a statement runs, as far as constants show.
#[derive(Clone, Copy)]
pub enum Times {
    Never,
    Once,
    /// More than once.
    Often,
    /// Without end.
    Always,
    Unknown,
}
