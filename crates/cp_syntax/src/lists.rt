//! Items one after another, with or without symbols between them.

ghost use Rattle.std.specs.Prelude.{◌≡◌, ◌++◌, ◌∷◌, map, [], Bool, IfOk, OnOk, Option};
ghost use Rattle.cp_model.specs.Tokens.{Kind};
ghost use Rattle.cp_model_grammar.specs.Reading.{kind_at, Reader, Gives};
ghost use Rattle.cp_model_grammar.specs.Reading as reading;

use crate::tokens::{Read, after, sees};
use cp_model::token::{Symbol, Token};
use std::alloc::{AllocError, Global};
use std::mem::size_of_val;

// When a block of this size is freed, the C library joins all blocks that were freed before it, and
// a tree has up to half a million. Blocks of twice this size are at first mapped one by one, and
// freeing such a block joins nothing.
const MAX_JOINED_BYTES: usize = 64 * 1024;

/// A part of the syntax tree that occurs in lists, and how the rules `R` read it.
pub trait Node<R>: Drop {
    /// The plain data that represents it in the grammar.
    ghost Plain: { Type 0 };

    ghost view: { Self → Plain };

    /// What the rules must know of the reader that they were given.
    ghost is_readable: { R → Type 0 };

    ghost reader: { R → Reader Plain };

    fn read(rules: R, tokens: &[Token]) -> Read<'_, Self>
        requires { is_readable rules }
        ensures { Gives view result (reader rules tokens.now) };
}

/// A part of the syntax tree that is read as long as the next token begins one.
pub trait Item<R>: Node<R> {
    ghost begins: { Option Kind → Bool };

    fn begins(tokens: &[Token]) -> bool
        ensures { result ≡ begins (kind_at tokens.now) };
}

// Makes room in a full list that would otherwise become a block of `MAX_JOINED_BYTES` to twice as
// many bytes. It gets room for four times as many items, not for twice as many.
#[cold]
#[inline(never)]
fn widen<X: Drop>(list: &mut Vec<X>) -> Result<(), AllocError>
    ensures { list.new.items ≡ list.old.items }
{
    let bytes = size_of_val(list.as_slice());
    if bytes >= MAX_JOINED_BYTES / 2 && bytes < MAX_JOINED_BYTES {
        list.reserve(list.len().saturating_mul(3))?;
    }
    Ok(())
}

// Appends an item. A list is never a block of `MAX_JOINED_BYTES` to twice as many bytes.
#[inline(always)]
fn append<X: Drop>(list: &mut Vec<X>, item: X) -> Result<(), AllocError>
    ensures { OnOk result (list.new.items ≡ list.old.items ++ item ∷ []) }
{
    if list.len() == list.capacity() {
        widen(list)?;
    }
    list.push(item)?;
    Ok(())
}

/// Reads items as long as the next token begins one, after those in `found`.
pub fn read_while<X: Item<R>, R: Copy>(
    found: Vec<X>,
    rules: R,
    tokens: &[Token],
) -> Read<'_, Vec<X>>
    requires { X.is_readable rules }
    ensures { Gives (λ v. map X.view v.items) result
        (reading.repeat_while X.begins (X.reader rules) (map X.view found.items) tokens.now) }
{
    let mut found = found;
    let mut rest = tokens;
    for _turn in 0..tokens.len() {
        if !X::begins(rest) {
            return Ok((found, rest));
        }
        let (x, left) = X::read(rules, rest)?;
        append(&mut found, x)?;
        rest = left;
    }
    Ok((found, rest))
}

/// A list of one item. Most lists have no more, so it has room only for that one.
pub fn lone<X: Drop>(alloc: Global, item: X) -> Result<Vec<X>, AllocError>
    ensures { IfOk result (λ list. list.items ≡ item ∷ []) }
{
    let mut list = Vec::with_capacity(alloc, 1)?;
    list.push(item)?;
    Ok(list)
}

/// Reads items as long as the next token begins one.
pub fn repeated<X: Item<R>, R: Copy>(alloc: Global, rules: R, tokens: &[Token]) -> Read<'_, Vec<X>>
    requires { X.is_readable rules }
    ensures { Gives (λ v. map X.view v.items) result
        (reading.repeat_while X.begins (X.reader rules) [] tokens.now) }
{
    let room = if X::begins(tokens) { 1 } else { 0 };
    read_while(Vec::with_capacity(alloc, room)?, rules, tokens)
}

/// Reads one item, and more as long as the next token begins one.
#[tactic(auto, unfolding(cp_model_grammar::specs::Reading::repeat))]
pub fn one_or_more<X: Item<R>, R: Copy>(
    alloc: Global,
    rules: R,
    tokens: &[Token],
) -> Read<'_, Vec<X>>
    requires { X.is_readable rules }
    ensures { Gives (λ v. map X.view v.items) result
        (reading.one_or_more X.begins (X.reader rules) tokens.now) }
{
    let (first, rest) = X::read(rules, tokens)?;
    read_while(lone(alloc, first)?, rules, rest)
}

/// Reads one or more items, with this symbol between them.
pub fn separated<X: Node<R>, R: Copy>(
    alloc: Global,
    rules: R,
    symbol: Symbol,
    tokens: &[Token],
) -> Read<'_, Vec<X>>
    requires { X.is_readable rules }
    ensures { Gives (λ v. map X.view v.items) result
        (reading.separated_by symbol (X.reader rules) tokens.now) }
{
    let (first, rest) = X::read(rules, tokens)?;
    let mut found = lone(alloc, first)?;
    let mut rest = rest;
    for _turn in 0..rest.len() {
        if !sees(rest, symbol) {
            return Ok((found, rest));
        }
        let (x, left) = X::read(rules, after(rest))?;
        append(&mut found, x)?;
        rest = left;
    }
    Ok((found, rest))
}
