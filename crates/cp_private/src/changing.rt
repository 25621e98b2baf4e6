//! Changes of the words and temps of a private state.

ghost use Rattle.std.specs.Prelude.{◌≡◌, ◌<◌, ◌^◌, ℕ, ℤ, List};
ghost use Rattle.cp_model_program.specs.Starts.{block, paste, carry_out};
ghost use Rattle.cp_private.specs.Keeping.{ChangesOnlyWords, IsAddressable, KeepsOwn};
ghost use Rattle.cp_private.specs.States.{Represents, join};
ghost use Rattle.cp_model_machine.specs.PrivateStates as plain;
ghost use Rattle.cp_program.specs.Reaches.{cap_place};
ghost use Rattle.cp_program.specs.View as view;
ghost use Rattle.cp_program.specs.View.{plans_of};

use crate::private::Private;
use crate::{plans, words};
use cp_program::program::{Program, StartPiece};

impl Private {
    /// Writes the word at an address, which may be capped to the largest `usize`.
    #[inline(always)]
    pub(crate) fn set_word(&mut self, shared: &mut [i32], at: usize, n: i32)
        requires { IsAddressable shared.old }
        ensures step { (input : List ℕ) (place : ℕ) → cap_place place ≡ at
            → join self.new input shared.new ≡ plain.set_word (join self.old input shared.old)
            place n }
        ensures kept { ChangesOnlyWords self.old shared.old self.new shared.new }
        ensures represents { Represents self.old self.new }
    {
        words::write(&mut self.memory.words, shared, at, n);
    }

    /// Writes the temp at a place. Writes nothing if there is no such temp.
    pub(crate) fn set_temp(&mut self, at: usize, n: i32)
        ensures step { (input : List ℕ) (shared : List ℤ)
            → join self.new input shared ≡ plain.set_temp
            (join self.old input shared) at n }
        ensures kept { KeepsOwn self.old self.new }
        ensures represents { Represents self.old self.new }
    {
        if at < self.memory.temps.len() {
            self.memory.temps[at] = n;
        }
    }

    /// Copies `count` words. The addresses may be capped to the largest `usize`.
    pub(crate) fn move_words(&mut self, shared: &mut [i32], to: usize, from: usize, count: usize)
        requires { IsAddressable shared.old }
        ensures step { (input : List ℕ) (i j : ℕ) → cap_place i ≡ to → cap_place j ≡ from
            → let o = join self.old input shared.old in join self.new input shared.new
            ≡ record o { words = paste i (block o.words j count) o.words } }
        ensures kept { ChangesOnlyWords self.old shared.old self.new shared.new }
        ensures represents { Represents self.old self.new }
    {
        words::copy(&mut self.memory.words, shared, to, from, count);
    }

    /// Makes words start by a plan of these pieces, whose parts have plans of the program. The plan
    /// counts from address `base`. The plan of a function without variables marks only its result.
    #[inline(always)]
    pub(crate) fn start_words(
        &mut self,
        shared: &mut [i32],
        base: usize,
        program: &Program,
        pieces: &[StartPiece],
    )
        requires shared { IsAddressable shared.old }
        requires base { base < 2 ^ 33 }
        ensures step { (input : List ℕ)
            → let o = join self.old input shared.old in join self.new input shared.new
            ≡ record o {
              words = carry_out base (view.plan_of (plans_of program.now) pieces.now)
                  o.words;
            } }
        ensures kept { ChangesOnlyWords self.old shared.old self.new shared.new }
    {
        match pieces {
            [] => {}
            [
                StartPiece::Fill {
                    at,
                    count: 1,
                    value,
                },
            ] => {
                words::write(&mut self.memory.words, shared, base + *at as usize, *value);
            }
            _ => plans::start(&mut self.memory.words, shared, base, program, pieces),
        }
    }
}
