//! How the words of components start.

ghost use Rattle.std.specs.Prelude.{◌≡◌, ◌<◌, ◌^◌, length};
ghost use Rattle.cp_model_program.specs.Starts.{carry_out};
ghost use Rattle.cp_program.specs.View.{plan_at, plans_of};

use crate::plans;
use cp_program::program::Program;

/// Makes words start by the plan of the program with this number. The plan counts from address
/// `base`.
pub fn start_words(all: &mut [i32], base: usize, program: &Program, plan: u32)
    requires words { length all.old < 2 ^ 32 }
    requires base { base < 2 ^ 33 }
    ensures words { all.new ≡ carry_out base (plan_at (plans_of program.now) plan) all.old }
    ensures length { length all.new ≡ length all.old }
{
    plans::start_by(&mut [], all, base, program, plan);
}
