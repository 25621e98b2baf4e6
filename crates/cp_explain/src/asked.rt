//! What is asked about a text: an explanation in one of its forms (`specs/Asked.antt`).

ghost use Rattle.std.specs.Prelude.{◌≡◌, IfErr, IfOk, Option};
ghost use Rattle.std.specs.Io.KnownBytes.{Keeps};
ghost use Rattle.cp_explain.specs.Asked.{WroteAs, WrotePartAs};
ghost use Rattle.cp_explain.specs.Explained.{IsOfText};
ghost use Rattle.cp_frontend.specs.KnownRefusals.{IsBeforeWriting, IsFault};
ghost use Rattle.cp_frontend.specs.declared.refusal.Refusal.{Refusal};
ghost use Rattle.cp_frontend.specs.declared.refusal.Refusal.TheVariants as refusal;

use crate::explain::{draw_text, explain_all_text, explain_text};
use crate::object::explain_object;
use cp_base_config::explaining::{Explaining, Form};
use cp_frontend::refusal::Refusal;
use std::alloc::Global;
use std::io::{Read, Write};

/// Explains the text of a reader in the form that is asked for, and returns why it is refused,
/// unless it is accepted. If a graph for Graphviz is asked for, an explanation in its place goes to
/// `errors`.
///
/// # Errors
///
/// I1 if a read fails, M if memory runs out, and I2 if a write fails. After I1 and M nothing has
/// been written.
pub fn explain_as<R: Read, W: Write, E: Write>(
    alloc: Global,
    file: &[u8],
    text: &mut R,
    what: Explaining,
    out: &mut W,
    errors: &mut E,
) -> Result<Option<Refusal>, Refusal>
    ensures about { IfOk result IsOfText }
    ensures explains { IfOk result
        (λ e. WroteAs what file.now (R.remaining text.old) e (W.contents out.old)
        (W.contents out.new) (E.contents errors.old) (E.contents errors.new)) }
    ensures unwritten { IfErr result
        (λ e. IsBeforeWriting e
        → Keeps (W.contents out.old) (W.contents out.new)
        × Keeps (E.contents errors.old) (E.contents errors.new)) }
    ensures part { IfErr result
        (λ e. e ≡ refusal.Write
        → (why : Option Refusal)
        × WrotePartAs what file.now (R.remaining text.old) why (W.contents out.old)
        (W.contents out.new) (E.contents errors.old) (E.contents errors.new)) }
    ensures fault { IfErr result IsFault }
{
    match what {
        Explaining::First(Form::Dot) => draw_text(alloc, file, text, out, errors),
        Explaining::First(Form::Lines) => explain_text(alloc, file, text, Form::Lines, out),
        Explaining::All => explain_all_text(alloc, file, text, out),
        Explaining::Object(extent) => explain_object(alloc, file, text, extent, out),
    }
}
