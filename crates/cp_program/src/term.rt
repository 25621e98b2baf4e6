//! Expressions and places of variables, over words.
//!
//! A term is a chain: a first operand, followed by operators with their right operands, which group
//! to the left. An operand that is itself a term is boxed, while numbers, words and temps are
//! stored inline.

ghost use Rattle.std.specs.Prelude.{◌≡◌, ◌++◌, ◌∷◌, [], IfOk, IfSome, OnOk};
ghost use Rattle.cp_model_program.specs.Terms as plain;
ghost use Rattle.cp_model_program.specs.TermsFor.{move_place_expression, move_root};
ghost use Rattle.cp_model.specs.Erase.{operator_of};
ghost use Rattle.cp_program.specs.View as view;

use crate::bounds::Bounds;
use crate::divisor::Divisor;
use crate::element::{Element, ElementPart, NearIndex};
use cp_model::tree::Operator;
use std::alloc::{AllocError, Global};

/// The place where a variable begins.
#[derive(Clone, Copy)]
pub enum Root {
    /// The word at this offset from the first word of the running activation.
    Local(u32),
    /// The word at this offset from the first word of the running component.
    Member(u32),
    /// The word `plus` words after the one to which the reference in word `parameter` of the
    /// activation points.
    Through { parameter: u32, plus: u32 },
}

/// A standard function of one simple value. `Shift` represents `succ` and `pred`, within the bounds
/// of a base type.
#[derive(Clone, Copy)]
pub enum Function {
    Abs,
    Ord,
    Chr,
    Shift { by: i32, low: i32, high: i32 },
}

/// An operand of a term.
#[cycle(terms)]
#[derive(Drop)]
pub enum Operand {
    Number(i32),
    /// A word of the activation.
    Local(u32),
    /// A word of the component.
    Member(u32),
    /// The value of a call, in the temp with this number.
    Made(u32),
    /// The word `plus` words after the one to which the reference in word `parameter` of the
    /// activation points.
    Through { parameter: u32, plus: u32 },
    /// The word of an element whose place needs no loop.
    Element(Box<Element>),
    /// The word at any other place.
    Item(Box<PlaceExpression>),
    Nested(Box<Term>),
    Not(Box<Term>),
    Negative(Box<Term>),
    Standard(Function, Box<Term>),
    /// Whether a queue is empty.
    Empty(Box<PlaceExpression>),
    Realtime,
}

/// An operator with one of its operands, which is the right one but for the last four cases; the
/// other operand is the chain before it. The commonest have cases of their own, so that one match
/// finds operator and operand.
#[cycle(terms)]
#[derive(Drop)]
pub enum Application {
    AddNumber(i32),
    SubtractNumber(i32),
    MultiplyNumber(i32),
    DivideNumber(Divisor),
    ModuloNumber(Divisor),
    AddLocal(u32),
    AddMember(u32),
    SubtractLocal(u32),
    SubtractMember(u32),
    MultiplyLocal(u32),
    MultiplyMember(u32),
    WithNumber(Operator, i32),
    /// A word of the activation as the right operand.
    WithLocal(Operator, u32),
    /// A word of the component as the right operand.
    WithMember(Operator, u32),
    /// The value of a call as the right operand.
    WithMade(Operator, u32),
    WithOperand(Operator, Operand),
    /// A word of the activation minus the chain so far.
    LocalMinus(u32),
    /// A word of the component minus the chain so far.
    MemberMinus(u32),
    /// A word of the activation as the left operand, and the chain so far as the right one.
    LocalBefore(Operator, u32),
    /// A word of the component as the left operand, and the chain so far as the right one.
    MemberBefore(Operator, u32),
}

/// An index: the element of an array that it selects, or a part of that element.
#[cycle(terms)]
#[derive(Drop)]
pub enum Index {
    /// A word, or a word and a number.
    Near(NearIndex),
    /// Any other value.
    Far { part: ElementPart, value: Term },
}

/// The place of a variable or of a part of one.
#[cycle(terms)]
#[derive(Drop)]
pub struct PlaceExpression {
    pub root: Root,
    pub indices: Vec<Index>,
}

/// An expression.
#[cycle(terms)]
pub struct Term {
    pub first: Operand,
    pub rest: Vec<Application>,
}

// A derived `Drop` would make proofs slower (docs/CI.md).
impl Drop for Term {
    #[cycle(terms)]
    fn drop(self) {
        let Term { first: _, rest: _ } = self;
    }
}

// Adds an item. The first one takes room only for itself, since most lists have no other.
fn push_exactly<X: Drop>(list: &mut Vec<X>, item: X) -> Result<(), AllocError>
    ensures { OnOk result (list.new.items ≡ list.old.items ++ item ∷ []) }
{
    if list.is_empty() {
        list.reserve_exact(1)?;
    }
    list.push(item)?;
    Ok(())
}

impl Root {
    /// The root `words` words further on, if its offset fits in 32 bits.
    pub fn advance(self, words: u32) -> Option<Root>
        ensures { IfSome result (λ r. view.root r ≡ move_root words (view.root self)) }
    {
        match self {
            Root::Local(at) => Some(Root::Local(at.checked_add(words)?)),
            Root::Member(at) => Some(Root::Member(at.checked_add(words)?)),
            Root::Through { parameter, plus } => Some(Root::Through {
                parameter,
                plus: plus.checked_add(words)?,
            }),
        }
    }
}

impl PlaceExpression {
    /// The place expression of a whole variable.
    pub fn variable(alloc: Global, root: Root) -> PlaceExpression
        ensures { view.place_expression result ≡ plain.Rooted (view.root root) }
    {
        PlaceExpression {
            root,
            indices: Vec::new(alloc),
        }
    }

    /// The place expression of an element of this place expression.
    pub fn element(
        self,
        low: i32,
        high: i32,
        size: u32,
        value: Term,
    ) -> Result<PlaceExpression, AllocError>
        ensures { IfOk result (λ s. view.place_expression s ≡ plain.Element
            (view.place_expression self) low high size 0 (view.term value)) }
    {
        let PlaceExpression { root, mut indices } = self;
        let part = ElementPart {
            bounds: Bounds { low, high },
            size,
            plus: 0,
        };
        push_exactly(&mut indices, Index::new(part, value))?;
        Ok(PlaceExpression { root, indices })
    }

    /// The place expression `words` words further on, if its offset fits in 32 bits.
    pub fn advance(self, words: u32) -> Option<PlaceExpression>
        ensures { IfSome result (λ s. view.place_expression s ≡ move_place_expression words (view.place_expression self)) }
    {
        let PlaceExpression { root, mut indices } = self;
        if indices.is_empty() {
            return Some(PlaceExpression {
                root: root.advance(words)?,
                indices,
            });
        }
        let last = indices.len() - 1;
        indices[last].advance(words)?;
        Some(PlaceExpression { root, indices })
    }
}

impl Term {
    // A term that consists of one operand.
    fn lone(alloc: Global, first: Operand) -> Term
        ensures { view.term result ≡ view.operand first }
    {
        Term {
            first,
            rest: Vec::new(alloc),
        }
    }

    /// A number.
    pub fn number(alloc: Global, n: i32) -> Term
        ensures { view.term result ≡ plain.Number n }
    {
        Term::lone(alloc, Operand::Number(n))
    }

    /// The value of a call, in the temp with this number.
    pub fn temp(alloc: Global, temp: u32) -> Term
        ensures { view.term result ≡ plain.Made temp }
    {
        Term::lone(alloc, Operand::Made(temp))
    }

    /// The standard function `realtime`, which reads the clock.
    pub fn realtime(alloc: Global) -> Term
        ensures { view.term result ≡ plain.Realtime }
    {
        Term::lone(alloc, Operand::Realtime)
    }

    /// The first word of a variable.
    pub fn variable(alloc: Global, root: Root) -> Term
        ensures { view.term result ≡ plain.Item (plain.Rooted (view.root root)) }
    {
        let operand = match root {
            Root::Local(at) => Operand::Local(at),
            Root::Member(at) => Operand::Member(at),
            Root::Through { parameter, plus } => Operand::Through { parameter, plus },
        };
        Term::lone(alloc, operand)
    }

    /// The word at a place.
    pub fn item(alloc: Global, place_expression: PlaceExpression) -> Result<Term, AllocError>
        ensures { IfOk result (λ t. view.term t ≡ plain.Item (view.place_expression place_expression)) }
    {
        if place_expression.indices.is_empty() {
            return Ok(Term::variable(alloc, place_expression.root));
        }
        let operand = match place_expression.as_element() {
            Some(element) => Operand::Element(Box::new(alloc, element)?),
            None => Operand::Item(Box::new(alloc, place_expression)?),
        };
        Ok(Term::lone(alloc, operand))
    }

    /// Whether a queue is empty.
    pub fn empty(alloc: Global, queue: PlaceExpression) -> Result<Term, AllocError>
        ensures { IfOk result (λ t. view.term t ≡ plain.Empty (view.place_expression queue)) }
    {
        Ok(Term::lone(alloc, Operand::Empty(Box::new(alloc, queue)?)))
    }

    /// The negation of a Boolean term.
    pub fn not(self, alloc: Global) -> Result<Term, AllocError>
        ensures { IfOk result (λ t. view.term t ≡ plain.Not (view.term self)) }
    {
        Ok(Term::lone(alloc, Operand::Not(Box::new(alloc, self)?)))
    }

    /// The term with its sign changed.
    pub fn negative(self, alloc: Global) -> Result<Term, AllocError>
        ensures { IfOk result (λ t. view.term t ≡ plain.Negative (view.term self)) }
    {
        Ok(Term::lone(alloc, Operand::Negative(Box::new(alloc, self)?)))
    }

    /// A standard function applied to the term.
    pub fn standard(self, alloc: Global, function: Function) -> Result<Term, AllocError>
        ensures { IfOk result
            (λ t. view.term t ≡ plain.Standard (view.function function) (view.term self)) }
    {
        let argument = Box::new(alloc, self)?;
        Ok(Term::lone(alloc, Operand::Standard(function, argument)))
    }

    // The term as an operand. A term that is just one operand needs no box.
    fn into_operand(self, alloc: Global) -> Result<Operand, AllocError>
        ensures { IfOk result (λ x. view.operand x ≡ view.term self) }
    {
        let Term { first, rest } = self;
        if rest.is_empty() {
            return Ok(first);
        }
        let term = Term { first, rest };
        Ok(Operand::Nested(Box::new(alloc, term)?))
    }

    // The operator before a chain, if this term is a word.
    fn before_chain(&self, operator: Operator) -> Option<Application>
        ensures { (e : plain.Term) → IfSome result (λ x. view.applied_to e (view.application x)
            ≡ plain.Binary (operator_of operator) (view.term self.now) e) }
    {
        if !self.rest.is_empty() {
            return None;
        }
        match self.first {
            Operand::Local(at) => Some(Application::after_local(operator, at)),
            Operand::Member(at) => Some(Application::after_member(operator, at)),
            _ => None,
        }
    }

    // The term with one more application.
    fn applied(self, application: Application) -> Result<Term, AllocError>
        ensures { IfOk result (λ t. view.term t ≡ view.applied_to (view.term self)
            (view.application application)) }
    {
        let Term { first, mut rest } = self;
        push_exactly(&mut rest, application)?;
        Ok(Term { first, rest })
    }

    /// A binary operator, with this term on its left.
    pub fn binary(self, alloc: Global, operator: Operator, right: Term) -> Result<Term, AllocError>
        ensures { IfOk result
            (λ t. view.term t ≡ plain.Binary (operator_of operator) (view.term self)
            (view.term right)) }
    {
        if !right.rest.is_empty() {
            if let Some(application) = self.before_chain(operator) {
                return right.applied(application);
            }
        }
        let operand = right.into_operand(alloc)?;
        self.applied(Application::new(operator, operand))
    }
}
