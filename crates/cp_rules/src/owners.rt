//! Owners: the processes and monitors that variables of the initial process declare.

ghost use Rattle.std.specs.Prelude.{◌≡◌, suc, nat_eq};
ghost use Rattle.cp_model.specs.RulesEnvironment as r;
ghost use Rattle.cp_model.specs.RulesDeclarations as d;
ghost use Rattle.cp_rules.specs.Checking.{after};
ghost use Rattle.cp_rules.specs.Declaring.{counted_owner, owners_of_type};

use crate::checker::{Checker, Judged};
use crate::words::is_within;
use cp_model::rules::{Position, Rule, Structure, SystemRow};
use cp_model::tree::{Identifier, Sort};

// The largest number of processes, counting the initial one, and of monitors.
const MAX_COMPONENTS: usize = 255;

// Whether one more is one too many.
fn is_full(count: usize) -> bool
    ensures { result ≡ nat_eq (suc count) d.one_too_many }
{
    count == MAX_COMPONENTS
}

// One more, counted up to one too many.
fn one_more(count: usize) -> usize
    ensures { result ≡ d.one_more count }
{
    if count < MAX_COMPONENTS {
        count + 1
    } else {
        MAX_COMPONENTS + 1
    }
}

impl<'t> Checker<'t> {
    // Counts an owner. C13: it is process 256 or monitor 256, or has too many words.
    fn owner(&mut self, name: &Identifier, y: SystemRow)
        ensures { self.new ≡ after self.old (counted_owner self.old.env y name.now) }
    {
        match y.sort {
            Sort::Process => {
                let count = self.environment.process_count();
                self.unless(!is_full(count) && is_within(y.words), Rule::C13, name.at);
                self.environment.count_processes(one_more(count));
            }
            Sort::Monitor => {
                let count = self.environment.monitor_count();
                self.unless(!is_full(count) && is_within(y.words), Rule::C13, name.at);
                self.environment.count_monitors(one_more(count));
            }
            Sort::Class => {}
        }
    }

    fn owners_of(&mut self, names: &[Identifier], y: SystemRow)
        ensures { self.new ≡ after self.old (d.owners_of self.old.env y names.now) }
    {
        for x in names {
            self.owner(x, y);
        }
    }

    /// Counts the processes or monitors that these variables are, if the initial process declares
    /// them. C13: one is too many, or has too many words.
    pub fn owners(&mut self, position: Position, of: Judged<usize>, names: &[Identifier])
        ensures { self.new ≡ after self.old (owners_of_type self.old.env position of names.now) }
    {
        if let (Position::InitialVariable, Ok(t)) = (position, of) {
            if let Structure::System(y) = self.environment.structure(t) {
                let row = self.environment.system_row(y);
                self.owners_of(names, row);
            }
        }
    }
}
