//! What is open at a place.

use crate::expected::Expected;
use crate::front::{Front, is_name, is_symbol};
use cp_model::token::{Kind, Symbol};

// Whether a symbol opens what an `end` or an `until` closes.
fn opens(symbol: Symbol) -> bool {
    matches!(
        symbol,
        Symbol::Begin | Symbol::Case | Symbol::Cycle | Symbol::Record | Symbol::Repeat
    )
}

/// A word that opened what is still open, and its place.
#[derive(Clone, Copy)]
pub struct Opened {
    pub(crate) word: Symbol,
    pub(crate) at: usize,
}

impl<'t> Front<'t> {
    /// The word that opened the innermost construct that is open at the place.
    pub fn opened(&self) -> Option<Opened> {
        let mut closed: usize = 0;
        for token in self.tokens.iter().take(self.index).rev() {
            match token.kind() {
                Kind::Symbol(Symbol::End | Symbol::Until) => closed = closed.saturating_add(1),
                Kind::Symbol(symbol) if opens(*symbol) => {
                    if closed == 0 {
                        return Some(Opened {
                            word: *symbol,
                            at: token.place(),
                        });
                    }
                    closed -= 1;
                }
                _ => {}
            }
        }
        None
    }

    /// The word that opened the innermost construct that is open at the place.
    pub fn innermost(&self) -> Option<Symbol> {
        Some(self.opened()?.word)
    }

    /// Whether, of these two symbols, the first follows the place more closely.
    pub fn comes_sooner(&self, wanted: Symbol, ends: &[Symbol]) -> bool {
        for token in self.tokens.iter().skip(self.index) {
            if let Kind::Symbol(symbol) = token.kind() {
                if *symbol == wanted {
                    return true;
                }
                if ends.contains(symbol) {
                    return false;
                }
            }
        }
        false
    }

    /// Whether the `=` at the place defines a component.
    pub fn begins_component(&self) -> bool {
        matches!(
            self.after(1),
            Some(Kind::Symbol(Symbol::Process | Symbol::Monitor | Symbol::Class))
        )
    }

    /// The word at the place, if it begins a component and a name follows.
    pub fn component_word(&self) -> Option<Symbol> {
        match (self.after(0), is_name(self.after(1))) {
            (Some(Kind::Symbol(symbol)), true) => match symbol {
                Symbol::Process | Symbol::Monitor | Symbol::Class => Some(*symbol),
                _ => None,
            },
            _ => None,
        }
    }

    /// Whether the place follows a label of a `case`.
    pub fn is_after_label(&self, expected: &Expected) -> bool {
        expected.has(Symbol::Colon) && self.innermost() == Some(Symbol::Case)
    }

    /// Whether the name before the place is that of a type.
    pub fn is_type_name(&self) -> bool {
        matches!(
            self.before(2),
            Some(Kind::Symbol(Symbol::Colon | Symbol::Equal | Symbol::Of))
        )
    }

    /// Whether the place follows the type of a variable.
    pub fn is_after_variable(&self, expected: &Expected) -> bool {
        expected.has(Symbol::Semicolon)
            && !expected.has_statement()
            && is_symbol(self.before(2), Symbol::Colon)
    }

    /// Whether, of these two symbols, the place follows the first more closely.
    pub fn follows_sooner(&self, wanted: Symbol, ends: &[Symbol]) -> bool {
        for count in 1..=self.index {
            if let Some(Kind::Symbol(symbol)) = self.before(count) {
                if *symbol == wanted {
                    return true;
                }
                if ends.contains(symbol) {
                    return false;
                }
            }
        }
        false
    }

    /// Whether the place is inside a system type.
    pub fn is_in_component(&self) -> bool {
        let mut place = Place {
            is_component: false,
            is_routine: false,
            is_body: false,
            depth: 0,
        };
        for token in self.tokens.iter().take(self.index) {
            if let Kind::Symbol(symbol) = token.kind() {
                place.pass(*symbol);
            }
        }
        place.is_component
    }
}

// Where a place is: in a system type, in a routine, and inside how many words that need an `end`.
#[derive(Clone, Copy)]
struct Place {
    is_component: bool,
    is_routine: bool,
    is_body: bool,
    depth: usize,
}

impl Place {
    fn pass(&mut self, symbol: Symbol) {
        match symbol {
            Symbol::Process | Symbol::Monitor | Symbol::Class => self.is_component = true,
            Symbol::Procedure | Symbol::Function => self.is_routine = true,
            Symbol::Begin | Symbol::Case | Symbol::Cycle | Symbol::Record => {
                if self.depth == 0 {
                    self.is_body = symbol == Symbol::Begin;
                }
                self.depth = self.depth.saturating_add(1);
            }
            Symbol::End => self.close(),
            _ => {}
        }
    }

    // Passes an `end`. That of a body ends its routine, or else its system type.
    fn close(&mut self) {
        self.depth = self.depth.saturating_sub(1);
        if self.depth == 0 && self.is_body {
            if self.is_routine {
                self.is_routine = false;
            } else {
                self.is_component = false;
            }
        }
    }
}
