//! The words of notes. `$` and `%` represent the names that a note is about.

use crate::note::NoteKind;
use cp_model::tree::Sort;
use cp_output::message::Message;

const NEVER_STARTED: Message = Message {
    head: "`$` is never started",
    advice: "A process runs only once an `init` of it in the last body of the text has run.",
};

const NEVER_INITIALISED: Message = Message {
    head: "`$` is never initialised",
    advice: "Each call of it is fault 6. `init` it, in the body of what declares it, before it is called.",
};

const INITIALISED_TWICE: Message = Message {
    head: "`$` is initialised already",
    advice: "A second `init` is fault 7. To set its variables again, call an entry procedure that does it.",
};

const INITIALISED_IN_EACH_ROUND: Message = Message {
    head: "`$` is initialised in each round of this loop",
    advice: "The second time, that is fault 7. Move the `init` before the loop.",
};

const NEVER_CONTINUED: Message = Message {
    head: "`$` is never continued",
    advice: "A process that is delayed in it waits forever. `continue` it where what is waited for comes true.",
};

const TWO_IN_ONE_QUEUE: Message = Message {
    head: "calls of two processes, `$` and `%`, lead to this `delay`",
    advice: "If one comes while the other is in the queue, that is fault 5. Give each a queue of its own.",
};

const NEVER_RUNS: Message = Message {
    head: "this statement never runs",
    advice: "What comes before it never ends, or returns from the routine at once, as `continue` does.",
};

const OUT_OF_RANGE: Message = Message {
    head: "`$` can't hold this value",
    advice: "It is outside the range of the type: that is fault 1.",
};

const OUT_OF_BOUNDS: Message = Message {
    head: "`$` has no element with this index",
    advice: "It is outside the bounds: that is fault 2.",
};

const ZERO_DIVISOR: Message = Message {
    head: "this divisor is zero",
    advice: "A division by zero is fault 4.",
};

const NO_CHARACTER: Message = Message {
    head: "no character has this number",
    advice: "`chr` of what is outside 0 to 127 is fault 1.",
};

const NO_RESULT: Message = Message {
    head: "`$` never sets its result",
    advice: "A call that comes to its end is fault 9. Assign to `$` in its body.",
};

const RESULT_UNDER_CONDITIONS: Message = Message {
    head: "`$` sets its result only under conditions",
    advice: "A call for which none of them holds is fault 9. Assign to `$` first of all, or on every way.",
};

const RETURNS_EARLY: Message = Message {
    head: "`continue` returns from `$` here, perhaps without a result",
    advice: "A call that has set none by then is fault 9. Assign to `$` before the `continue`.",
};

const KEEPS_GATE: Message = Message {
    head: "a process that is delayed in `$` keeps the gate of this monitor",
    advice: "Nobody else comes into this monitor as long as it waits: who is to continue it must get there another way.",
};

const COUNTER_SET: Message = Message {
    head: "`$` is set inside its own `for`, which counts on all the same",
    advice: "The loop keeps its own count, and sets `$` again in each round. To change the count, write a `while`.",
};

/// The words of what a note says.
pub fn message(note_kind: NoteKind) -> Message {
    match note_kind {
        NoteKind::NeverInitialised(Sort::Process) => NEVER_STARTED,
        NoteKind::NeverInitialised(_) => NEVER_INITIALISED,
        NoteKind::InitialisedTwice => INITIALISED_TWICE,
        NoteKind::InitialisedInEachRound => INITIALISED_IN_EACH_ROUND,
        NoteKind::NeverContinued => NEVER_CONTINUED,
        NoteKind::TwoInOneQueue => TWO_IN_ONE_QUEUE,
        NoteKind::NeverRuns => NEVER_RUNS,
        NoteKind::OutOfRange => OUT_OF_RANGE,
        NoteKind::OutOfBounds => OUT_OF_BOUNDS,
        NoteKind::ZeroDivisor => ZERO_DIVISOR,
        NoteKind::NoCharacter => NO_CHARACTER,
        NoteKind::NoResult => NO_RESULT,
        NoteKind::ResultUnderConditions => RESULT_UNDER_CONDITIONS,
        NoteKind::ReturnsEarly => RETURNS_EARLY,
        NoteKind::KeepsGate => KEEPS_GATE,
        NoteKind::CounterSet => COUNTER_SET,
    }
}
