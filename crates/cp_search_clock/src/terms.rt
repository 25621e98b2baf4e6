//! Terms and place expressions that don't read the clock. Only the answer that one doesn't read it
//! is proved to be right.

ghost use Rattle.std.specs.Prelude.{◌≡◌, true, map};
ghost use Rattle.cp_law_cores.specs.Clocks as plain;
ghost use Rattle.cp_program.specs.View as view;
ghost use Rattle.cp_search_clock.specs.Chains.{applications_are_timeless, application_is_timeless, indices_are_timeless};

use cp_program::term::{Application, Index, Operand, PlaceExpression, Term};

#[cycle(clock)]
fn operand_is_timeless(x: &Operand) -> bool
    ensures { result ≡ true → plain.term_is_timeless (view.operand x.now) ≡ true }
{
    match x {
        Operand::Element(_) => true,
        Operand::Item(s) => place_expression_is_timeless(s),
        Operand::Nested(t) => term_is_timeless(t),
        Operand::Not(t) => term_is_timeless(t),
        Operand::Negative(t) => term_is_timeless(t),
        Operand::Standard(_, t) => term_is_timeless(t),
        Operand::Empty(s) => place_expression_is_timeless(s),
        Operand::Realtime => false,
        Operand::Number(_) => true,
        Operand::Local(_) => true,
        Operand::Member(_) => true,
        Operand::Made(_) => true,
        Operand::Through { .. } => true,
    }
}

#[cycle(clock)]
fn application_is_timeless(x: &Application) -> bool
    ensures { result ≡ true → application_is_timeless (view.application x.now) ≡ true }
{
    match x {
        Application::WithOperand(_, right) => operand_is_timeless(right),
        Application::AddNumber(_) => true,
        Application::SubtractNumber(_) => true,
        Application::MultiplyNumber(_) => true,
        Application::DivideNumber(_) => true,
        Application::ModuloNumber(_) => true,
        Application::AddLocal(_) => true,
        Application::AddMember(_) => true,
        Application::SubtractLocal(_) => true,
        Application::SubtractMember(_) => true,
        Application::MultiplyLocal(_) => true,
        Application::MultiplyMember(_) => true,
        Application::WithNumber(_, _) => true,
        Application::WithLocal(_, _) => true,
        Application::WithMember(_, _) => true,
        Application::WithMade(_, _) => true,
        Application::LocalMinus(_) => true,
        Application::MemberMinus(_) => true,
        Application::LocalBefore(_, _) => true,
        Application::MemberBefore(_, _) => true,
    }
}

#[cycle(clock)]
fn chain_is_timeless(rest: &[Application]) -> bool
    ensures { result ≡ true → applications_are_timeless (map view.application rest.now) ≡ true }
{
    for x in rest {
        if !application_is_timeless(x) {
            return false;
        }
    }
    true
}

/// Whether a term doesn't read the clock.
#[cycle(clock)]
pub(crate) fn term_is_timeless(t: &Term) -> bool
    ensures { result ≡ true → plain.term_is_timeless (view.term t.now) ≡ true }
{
    if !operand_is_timeless(&t.first) {
        return false;
    }
    chain_is_timeless(&t.rest)
}

#[cycle(clock)]
fn index_is_timeless(i: &Index) -> bool
    ensures { result ≡ true → plain.term_is_timeless (view.index i.now).value ≡ true }
{
    match i {
        Index::Near(_) => true,
        Index::Far { value, .. } => term_is_timeless(value),
    }
}

#[cycle(clock)]
fn path_is_timeless(indices: &[Index]) -> bool
    ensures { result ≡ true → indices_are_timeless (map view.index indices.now) ≡ true }
{
    for i in indices {
        if !index_is_timeless(i) {
            return false;
        }
    }
    true
}

/// Whether a place expression doesn't read the clock.
#[cycle(clock)]
pub(crate) fn place_expression_is_timeless(s: &PlaceExpression) -> bool
    ensures { result ≡ true → plain.place_expression_is_timeless (view.place_expression s.now) ≡ true }
{
    path_is_timeless(&s.indices)
}
