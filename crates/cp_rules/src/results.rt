//! The results of functions, and the word `entry`.

ghost use Rattle.std.specs.Prelude.{◌≡◌};
ghost use Rattle.cp_model.specs.RulesDeclarations as d;
ghost use Rattle.cp_rules.specs.Checking.{Judges, reporting};
ghost use Rattle.cp_rules.specs.Routines.{JudgesResult, result_judged, returns_of_result, result_words};

use crate::checker::{Checker, Judged};
use cp_model::rules::{Part, Returns, Rule};
use cp_model::tree::{Identifier, Sort};

/// The part that the body of a routine is, depending on the word `entry`.
pub fn part(entry: Option<usize>) -> Part
    ensures { result ≡ d.part_of entry }
{
    match entry {
        None => Part::Routine,
        Some(_) => Part::EntryRoutine,
    }
}

/// What a routine returns, given the judgement of its result type.
pub fn returns(answer: Option<Judged<usize>>) -> Returns
    ensures { result ≡ returns_of_result answer }
{
    match answer {
        None => Returns::Nothing,
        Some(Ok(t)) => Returns::Value(t),
        Some(Err(violation)) => Returns::Broken(violation),
    }
}

/// The number of words that a result takes in an activation.
pub fn words(answer: Option<Judged<usize>>) -> usize
    ensures { result ≡ result_words answer }
{
    match answer {
        None => 0,
        Some(_) => 1,
    }
}

impl<'t> Checker<'t> {
    /// C5: the word `entry` is used in a process type or in the initial process.
    pub fn judge_entry(&mut self, sort: Sort, entry: Option<usize>)
        ensures { self.new ≡ reporting self.old (d.c5_entry sort entry) }
    {
        if let Some(at) = entry {
            self.unless(!sort.is_process(), Rule::C5, at);
        }
    }

    // C8: a result has queues. C11: a result isn't simple.
    fn result(&mut self, at: usize, t: usize) -> Judged<usize>
        ensures { Judges self.old self.new result (d.c8_c11_result self.old.env at t) }
    {
        let is_without_queues = !self.environment.has_queues(t);
        let is_simple = self.environment.is_simple(t);
        match (is_without_queues, is_simple) {
            (true, true) => Ok(t),
            (true, false) => self.breaks(Rule::C11, at),
            (false, true) => self.breaks(Rule::C8, at),
            (false, false) => {
                let first = self.breaks(Rule::C8, at);
                self.unless(false, Rule::C11, at);
                first
            }
        }
    }

    fn result_of_name(&mut self, name: &Identifier) -> Judged<usize>
        ensures { Judges self.old self.new result (result_judged self.old.env name.now) }
    {
        let t = self.named_type(name)?;
        self.result(name.at, t)
    }

    /// Judges the result type of a function.
    pub fn result_type(&mut self, name: &Option<Identifier>) -> Option<Judged<usize>>
        ensures { JudgesResult self.old self.new result (d.result_type self.old.env name.now) }
    {
        match name {
            None => None,
            Some(x) => Some(self.result_of_name(x)),
        }
    }
}
