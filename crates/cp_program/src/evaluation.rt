//! Evaluates terms and computes the places of place expressions, over words.
//!
//! Words have 32 bits, which the ordinals of long enumerations and addresses need. The results of
//! arithmetic are within -32768..32767.

ghost use Rattle.std.specs.Prelude.{◌≡◌, ℕ, ◌+◌, ◌*◌, ◌<◌, ◌^◌, ◌++◌, Ok, length, map};
ghost use Rattle.cp_model_program.specs.Layout as layout;
ghost use Rattle.cp_model_program.specs.Starts as starts;
ghost use Rattle.cp_model_program.specs.Terms as terms;
ghost use Rattle.cp_model_machine.specs.Values as values;
ghost use Rattle.cp_program.specs.Reaches.{apply_operation, cap_place, capped_result, chain_value, elements_place, index_offset, view_of};
ghost use Rattle.cp_program.specs.View as view;

use crate::arithmetic::{apply, in_range, standard, truth};
use crate::memory::{natural, word};
use crate::reach::Reach;
use crate::term::{Application, Index, Operand, PlaceExpression, Root, Term};
use cp_model::ordinals::LAST_INTEGER;
use cp_model::state::Fault;
use cp_model::tree::Operator;

impl<'a> Reach<'a> {
    // The word at a place, or 0 if there is no such word. A place that is too large may be given as
    // the greatest `usize`.
    #[inline(always)]
    pub(crate) fn word(&self, at: usize) -> i32
        ensures word { result
            ≡ starts.word (self.now.memory.now.words.items ++ self.now.shared.now) at }
        ensures capped { (place : ℕ) → cap_place place ≡ at
            → result ≡ starts.word (self.now.memory.now.words.items ++ self.now.shared.now) place }
    {
        match self.memory.words.get(at) {
            Some(n) => *n,
            None => word(self.shared, at.saturating_sub(self.memory.words.len())),
        }
    }

    #[inline(always)]
    fn local(&self, at: u32) -> usize
        ensures place { result ≡ values.root_place (view_of self.now) (terms.Local at) }
        ensures small { result < 2 ^ 33 }
    {
        self.memory.local(at)
    }

    #[inline(always)]
    fn member(&self, at: u32) -> usize
        ensures place { result ≡ values.root_place (view_of self.now) (terms.Member at) }
        ensures small { result < 2 ^ 33 }
    {
        self.memory.member(at)
    }

    // A word of the activation.
    #[inline(always)]
    pub(crate) fn local_word(&self, at: u32) -> i32
        ensures { values.value_of (view_of self.now) (view.local at) ≡ Ok result }
    {
        self.word(self.local(at))
    }

    // A word of the component.
    #[inline(always)]
    pub(crate) fn member_word(&self, at: u32) -> i32
        ensures { values.value_of (view_of self.now) (view.member at) ≡ Ok result }
    {
        self.word(self.member(at))
    }

    // The temp with this number, counted from the first temp of the running activation.
    #[inline(always)]
    fn temp(&self, temp: u32) -> i32
        ensures { result ≡ starts.word self.now.memory.now.temps.items
            (self.now.memory.now.temp + temp) }
    {
        self.memory.made(temp)
    }

    fn through(&self, parameter: u32, plus: u32) -> usize
        ensures place { result ≡ values.root_place (view_of self.now)
            (terms.Through parameter plus) }
        ensures small { result < 2 ^ 33 }
    {
        natural(self.word(self.local(parameter))) + plus as usize
    }

    /// The place where a variable begins.
    pub fn root_place(&self, root: Root) -> usize
        ensures place { result ≡ values.root_place (view_of self.now) (view.root root) }
        ensures small { result < 2 ^ 33 }
    {
        match root {
            Root::Local(at) => self.local(at),
            Root::Member(at) => self.member(at),
            Root::Through { parameter, plus } => self.through(parameter, plus),
        }
    }

    // The number of ticks since the start. Faults if it is no integer.
    fn realtime(&self) -> Result<i32, Fault>
        ensures { result ≡ values.value_of (view_of self.now) terms.Realtime }
    {
        if self.clock <= LAST_INTEGER as u64 {
            Ok(self.clock as i32)
        } else {
            Err(Fault::Overflow)
        }
    }
}

impl Operand {
    // The value of an operand that the inlined functions don't evaluate. Most of these are values
    // of calls and elements, so those are matched first.
    #[cycle(value)]
    #[inline(never)]
    fn deep_value(&self, reach: &Reach) -> Result<i32, Fault>
        ensures { result ≡ values.value_of (view_of reach.now) (view.operand self.now) }
    {
        match self {
            Operand::Made(temp) => Ok(reach.temp(*temp)),
            Operand::Element(e) => e.word(reach),
            Operand::Item(s) => s.word(reach),
            _ => self.deeper_value(reach),
        }
    }

    #[cycle(value)]
    #[inline(never)]
    fn deeper_value(&self, reach: &Reach) -> Result<i32, Fault>
        ensures { result ≡ values.value_of (view_of reach.now) (view.operand self.now) }
    {
        match self {
            Operand::Element(e) => e.word(reach),
            Operand::Item(s) => s.word(reach),
            Operand::Nested(t) => t.value(reach),
            Operand::Not(t) => Ok(truth(t.value(reach)? == 0)),
            Operand::Negative(t) => in_range(-i64::from(t.value(reach)?)),
            Operand::Standard(function, t) => standard(*function, t.value(reach)?),
            Operand::Empty(s) => Ok(truth(reach.word(s.place(reach)?) <= 0)),
            Operand::Through { parameter, plus } => Ok(reach.word(reach.through(
                *parameter, *plus,
            ))),
            Operand::Realtime => reach.realtime(),
            Operand::Number(n) => Ok(*n),
            Operand::Made(temp) => Ok(reach.temp(*temp)),
            Operand::Local(at) => Ok(reach.word(reach.local(*at))),
            Operand::Member(at) => Ok(reach.word(reach.member(*at))),
        }
    }

    /// Evaluates an operand. Numbers and words of variables are matched first, since they are the
    /// most common.
    #[cycle(value)]
    #[inline(always)]
    pub fn value(&self, reach: &Reach) -> Result<i32, Fault>
        ensures { result ≡ values.value_of (view_of reach.now) (view.operand self.now) }
    {
        match self {
            Operand::Number(n) => Ok(*n),
            Operand::Local(at) => Ok(reach.word(reach.local(*at))),
            Operand::Member(at) => Ok(reach.word(reach.member(*at))),
            _ => self.nested_value(reach),
        }
    }

    #[cycle(value)]
    #[inline(always)]
    fn nested_value(&self, reach: &Reach) -> Result<i32, Fault>
        ensures { result ≡ values.value_of (view_of reach.now) (view.operand self.now) }
    {
        match self {
            Operand::Nested(t) => t.value(reach),
            _ => self.deep_value(reach),
        }
    }
}

impl Application {
    // The value of the operator, if its left operand has the value `left`.
    #[cycle(value)]
    #[inline(always)]
    fn value_after(&self, left: i32, reach: &Reach) -> Result<i32, Fault>
        ensures { result ≡ apply_operation (view_of reach.now) left (view.application self.now) }
    {
        match self {
            Application::AddNumber(n) => apply(Operator::Add, left, *n),
            Application::SubtractNumber(n) => apply(Operator::Subtract, left, *n),
            Application::MultiplyNumber(n) => apply(Operator::Multiply, left, *n),
            Application::DivideNumber(divisor) => apply(Operator::Divide, left, divisor.number()),
            Application::ModuloNumber(divisor) => apply(Operator::Modulo, left, divisor.number()),
            Application::AddLocal(at) => apply(Operator::Add, left, reach.local_word(*at)),
            Application::AddMember(at) => apply(Operator::Add, left, reach.member_word(*at)),
            Application::SubtractLocal(at) => apply(
                Operator::Subtract,
                left,
                reach.local_word(*at),
            ),
            Application::SubtractMember(at) => {
                apply(Operator::Subtract, left, reach.member_word(*at))
            }
            Application::MultiplyLocal(at) => apply(
                Operator::Multiply,
                left,
                reach.local_word(*at),
            ),
            Application::MultiplyMember(at) => {
                apply(Operator::Multiply, left, reach.member_word(*at))
            }
            Application::WithNumber(operator, n) => apply(*operator, left, *n),
            Application::WithLocal(operator, at) => apply(*operator, left, reach.local_word(*at)),
            Application::WithMember(operator, at) => apply(*operator, left, reach.member_word(*at)),
            Application::WithMade(operator, temp) => apply(*operator, left, reach.temp(*temp)),
            Application::LocalMinus(at) => apply(Operator::Subtract, reach.local_word(*at), left),
            Application::MemberMinus(at) => {
                apply(Operator::Subtract, reach.member_word(*at), left)
            }
            Application::LocalBefore(operator, at) => apply(*operator, reach.local_word(*at), left),
            Application::MemberBefore(operator, at) => {
                apply(*operator, reach.member_word(*at), left)
            }
            Application::WithOperand(operator, operand) => {
                let right = operand.value(reach)?;
                apply(*operator, left, right)
            }
        }
    }
}

// The value of a chain whose first operands have the value `first`.
#[cycle(value)]
#[inline(always)]
fn value_of_chain(first: i32, rest: &[Application], reach: &Reach) -> Result<i32, Fault>
    ensures { result ≡ chain_value (view_of reach.now) first (map view.application rest.now) }
{
    let mut n = first;
    for x in rest {
        n = x.value_after(n, reach)?;
    }
    Ok(n)
}

impl Term {
    /// Evaluates a term.
    ///
    /// # Errors
    ///
    /// The first fault that occurs from left to right.
    #[cycle(value)]
    pub fn value(&self, reach: &Reach) -> Result<i32, Fault>
        ensures { result ≡ values.value_of (view_of reach.now) (view.term self.now) }
    {
        self.value_here(reach)
    }

    /// Evaluates a term, as `value` does. It is inlined, so operands that are numbers or words need
    /// no call. Use it for the most common operations.
    ///
    /// # Errors
    ///
    /// The first fault that occurs from left to right.
    #[cycle(value)]
    #[inline(always)]
    pub fn value_here(&self, reach: &Reach) -> Result<i32, Fault>
        ensures { result ≡ values.value_of (view_of reach.now) (view.term self.now) }
    {
        let first = self.first.value(reach)?;
        value_of_chain(first, &self.rest, reach)
    }
}

impl Index {
    // The distance in words of the part that the index selects.
    #[cycle(value)]
    #[inline(always)]
    fn offset(&self, reach: &Reach) -> Result<usize, Fault>
        ensures { result ≡ index_offset (view_of reach.now) (view.index self.now) }
    {
        match self {
            Index::Near(i) => i.offset(reach),
            Index::Far { part, value } => {
                let n = value.value_here(reach)?;
                part.offset(n)
            }
        }
    }
}

// The place to which the indices lead, starting from the place `from`.
#[cycle(value)]
fn place_of_element(from: usize, indices: &[Index], reach: &Reach) -> Result<usize, Fault>
    ensures { result ≡ capped_result
        (elements_place (view_of reach.now) from (map view.index indices.now)) }
{
    let mut at = from;
    for i in indices {
        at = at.saturating_add(i.offset(reach)?);
    }
    Ok(at)
}

impl PlaceExpression {
    /// The place of a variable or of a part of one. A place that is too large is returned as the
    /// greatest `usize`.
    ///
    /// # Errors
    ///
    /// The first fault that occurs from left to right.
    #[cycle(value)]
    #[inline(always)]
    pub fn place(&self, reach: &Reach) -> Result<usize, Fault>
        ensures { result ≡ capped_result
            (values.place_of (view_of reach.now) (view.place_expression self.now)) }
    {
        let from = reach.root_place(self.root);
        if self.indices.is_empty() {
            return Ok(from);
        }
        place_of_element(from, &self.indices, reach)
    }

    // The word at the place of the place expression.
    #[cycle(value)]
    #[inline(never)]
    fn word(&self, reach: &Reach) -> Result<i32, Fault>
        ensures { result ≡ values.value_of (view_of reach.now) (terms.Item (view.place_expression self.now)) }
    {
        Ok(reach.word(self.place(reach)?))
    }
}
