//! What a position means: a law about `specs/Positions.antt`.

ghost use Rattle.std.specs.Prelude.{ℕ, List};
ghost use Rattle.cp_output.specs.Positions.{Counts, column_at, line_at};

/// A place in line `line` and column `column` has `line - 1` whole lines before it, and then
/// `column - 1` bytes of its own line. This function has no body: a caller has the law as a fact
/// once it calls the function.
pub fn positions_count()
    ensures { (text : List ℕ) (at : ℕ) → Counts text at (line_at text at) (column_at text at) }
{}
