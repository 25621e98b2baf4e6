//! The arguments of commands: how each is given, and what help says about it.

use clap::{Arg, ArgAction};
use std::alloc::{AllocError, Global};

// How an argument is given.
#[derive(Clone, Copy)]
enum Form {
    // By its place. It is required.
    Place,
    // By its name and a value of this kind.
    Value(&'static str),
    // By its name and a value, which is required.
    Required(&'static str),
    // By its name and a value, any number of times.
    Repeated(&'static str),
    // By its name alone.
    Flag,
}

/// An argument of a command.
#[derive(Clone, Copy)]
pub(crate) struct Argument {
    name: &'static str,
    form: Form,
    about: &'static str,
    // The arguments that can't be given with it.
    without: &'static [&'static str],
}

pub(crate) const TEXT: Argument = Argument {
    name: "FILE",
    form: Form::Place,
    about: "the text; - for standard input",
    without: &[],
};

pub(crate) const TEXT_OR_RULE: Argument = Argument {
    name: "FILE",
    form: Form::Place,
    about: "the text, - for standard input, or a rule or fault such as C4 or F3",
    without: &[],
};

pub(crate) const SHELL: Argument = Argument {
    name: "SHELL",
    form: Form::Place,
    about: "the shell: bash, zsh or fish",
    without: &[],
};

pub(crate) const ORDER: Argument = Argument {
    name: "ORDER",
    form: Form::Place,
    about: "the order: the events of each round, a line a round; - for standard input",
    without: &[],
};

pub(crate) const ROUNDS: Argument = Argument {
    name: "rounds",
    form: Form::Required("N"),
    about: "how many rounds to run, up to 1000000",
    without: &[],
};

pub(crate) const LIMIT: Argument = Argument {
    name: "limit",
    form: Form::Value("N"),
    about: "the largest number of rounds, up to 1000000 (default 10000)",
    without: &[],
};

pub(crate) const FROM: Argument = Argument {
    name: "from",
    form: Form::Value("A"),
    about: "the first round that is reported, from 1 (default 1)",
    without: &[],
};

pub(crate) const TO: Argument = Argument {
    name: "to",
    form: Form::Value("B"),
    about: "the last round that is reported, from 1 (default the last)",
    without: &[],
};

pub(crate) const ONLY: Argument = Argument {
    name: "only",
    form: Form::Value("NAME,.."),
    about: "the processes and monitors that are reported (default all)",
    without: &[],
};

pub(crate) const TURN: Argument = Argument {
    name: "turn",
    form: Form::Value("N"),
    about: "steps in a turn, 1 to 10000 (default 100)",
    without: &[],
};

pub(crate) const WORKERS: Argument = Argument {
    name: "workers",
    form: Form::Value("N"),
    about: "threads that make private turns, 1 to 64 (default 2)",
    without: &[],
};

pub(crate) const CHUNK: Argument = Argument {
    name: "chunk",
    form: Form::Value("N"),
    about: "least number of processes that a worker takes at once, 1 to 255 (default 1)",
    without: &[],
};

pub(crate) const WAVE: Argument = Argument {
    name: "wave",
    form: Form::Value("N"),
    about: "processes in a wave, 1 to 255 (default 255)",
    without: &[],
};

pub(crate) const TICK: Argument = Argument {
    name: "tick",
    form: Form::Value("N"),
    about: "rounds between two ticks of the clock, 1 to 1000000 (default 1)",
    without: &[],
};

pub(crate) const INPUT: Argument = Argument {
    name: "input",
    form: Form::Value("FILE"),
    about: "the inputs of the processes, with byte 28 between them; - for standard input",
    without: &["in"],
};

pub(crate) const IN: Argument = Argument {
    name: "in",
    form: Form::Repeated("NAME=FILE"),
    about: "the input of the process NAME, for each process that has one; - for standard input",
    without: &[],
};

pub(crate) const SERVERS: Argument = Argument {
    name: "servers",
    form: Form::Value("NAME,.."),
    about: "the processes that may wait in a queue forever (default none)",
    without: &[],
};

pub(crate) const CHAINS: Argument = Argument {
    name: "chains",
    form: Form::Flag,
    about: "adds who waits for whom: a line for each process that asks for a gate",
    without: &[],
};

pub(crate) const PROGRESS: Argument = Argument {
    name: "progress",
    form: Form::Flag,
    about: "shows the current round on standard error, once a second",
    without: &[],
};

pub(crate) const SEARCH_PROGRESS: Argument = Argument {
    name: "progress",
    form: Form::Flag,
    about: "shows how many states have been seen on standard error, once a second",
    without: &[],
};

pub(crate) const STATES: Argument = Argument {
    name: "states",
    form: Form::Value("N"),
    about: "the largest number of states to keep, 1 to 10000000 (default 1000000)",
    without: &[],
};

pub(crate) const MEMORY: Argument = Argument {
    name: "memory",
    form: Form::Value("MB"),
    about: "the megabytes that states may take, 1 to 1000000 (default 2000)",
    without: &[],
};

pub(crate) const SEARCH_WORKERS: Argument = Argument {
    name: "workers",
    form: Form::Value("N"),
    about: "threads that search, 1 to 64 (default 2)",
    without: &[],
};

pub(crate) const SAVE: Argument = Argument {
    name: "save",
    form: Form::Value("NAME"),
    about: "writes the schedules that are found to NAME.stuck and NAME.fault, for 'cpm replay'",
    without: &[],
};

pub(crate) const SEARCH_JSON: Argument = Argument {
    name: "json",
    form: Form::Flag,
    about: "writes what was found as a JSON object",
    without: &[],
};

pub(crate) const EXPLAIN_DOT: Argument = Argument {
    name: "dot",
    form: Form::Flag,
    about: "writes the access graph of an accepted text for Graphviz",
    without: &[],
};

pub(crate) const EXPLAIN_JSON: Argument = Argument {
    name: "json",
    form: Form::Flag,
    about: "writes the violations of a text, or the notes on it and its access graph, as a JSON object",
    without: &["dot"],
};

pub(crate) const ALL: Argument = Argument {
    name: "all",
    form: Form::Flag,
    about: "reports all violations or syntax errors of a text, each in short",
    without: &["dot"],
};

pub(crate) const OUT: Argument = Argument {
    name: "out",
    form: Form::Value("NAME,.."),
    about: "writes what these processes, or all, have displayed, in place of the verdict",
    without: &["dot", "json"],
};

pub(crate) const SHOW: Argument = Argument {
    name: "show",
    form: Form::Repeated("NAME,.."),
    about: "adds the values of variables such as m.balance, or of all that a monitor or process has",
    without: &["out"],
};

pub(crate) const OUTCOME_DOT: Argument = Argument {
    name: "dot",
    form: Form::Flag,
    about: "writes who waits for whom, for Graphviz, in place of the verdict",
    without: &["json"],
};

pub(crate) const OUTCOME_JSON: Argument = Argument {
    name: "json",
    form: Form::Flag,
    about: "writes the verdict and all processes as a JSON object",
    without: &[],
};

pub(crate) const TRACE_JSON: Argument = Argument {
    name: "json",
    form: Form::Flag,
    about: "writes each change as a JSON object on a line",
    without: &["timeline", "svg"],
};

pub(crate) const TIMELINE: Argument = Argument {
    name: "timeline",
    form: Form::Flag,
    about: "writes a row for each process and monitor, a character a round, in place of changes",
    without: &["svg"],
};

pub(crate) const SVG: Argument = Argument {
    name: "svg",
    form: Form::Flag,
    about: "writes the same as a picture",
    without: &[],
};

pub(crate) const COLOR: Argument = Argument {
    name: "color",
    form: Form::Value("WHEN"),
    about: "colours in what is written for people: auto, always or never (default auto, on a terminal)",
    without: &[],
};

impl Argument {
    pub(crate) fn name(&self) -> &'static str {
        self.name
    }

    pub(crate) fn about(&self) -> &'static str {
        self.about
    }

    /// Whether it is given by its place.
    pub(crate) fn is_placed(&self) -> bool {
        matches!(self.form, Form::Place)
    }

    /// Whether it can be given several times.
    pub(crate) fn is_repeated(&self) -> bool {
        matches!(self.form, Form::Repeated(_))
    }

    /// What its value is called, if it has one beside its name.
    pub(crate) fn value(&self) -> Option<&'static str> {
        match self.form {
            Form::Value(value) | Form::Required(value) | Form::Repeated(value) => Some(value),
            Form::Place | Form::Flag => None,
        }
    }

    pub(crate) fn has_name(&self, name: &str) -> bool {
        self.name == name
    }

    // The argument as it is given, without its conflicts.
    fn given<'a>(&self, alloc: Global) -> Arg<'a> {
        let argument = Arg::new(alloc, self.name).help(self.about);
        match self.form {
            Form::Place => argument.required(true),
            Form::Value(value) => argument
                .long(self.name)
                .value_name(value)
                .allow_negative_numbers(true),
            Form::Required(value) => argument
                .long(self.name)
                .value_name(value)
                .allow_negative_numbers(true)
                .required(true),
            Form::Repeated(value) => argument
                .long(self.name)
                .value_name(value)
                .action(ArgAction::Append),
            Form::Flag => argument.long(self.name).action(ArgAction::SetTrue),
        }
    }

    /// The argument for clap.
    ///
    /// # Errors
    ///
    /// `AllocError` if memory runs out.
    pub(crate) fn argument<'a>(&self, alloc: Global) -> Result<Arg<'a>, AllocError> {
        let mut argument = self.given(alloc);
        for other in self.without {
            argument = argument.conflicts_with(*other)?;
        }
        Ok(argument)
    }
}
