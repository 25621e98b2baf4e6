//! Finds what is at a place of a text, by walking over its tree.

use crate::site::{Mark, NameRole, Operand, Pair, Purpose, Site};
use cp_explain_names::scope::Scope;
use cp_model::tree::{Expression, Identifier, Tree};

/// Walks over a tree, and records what is at one place of it.
#[derive(Drop)]
pub struct Finder<'t> {
    pub(crate) at: usize,
    pub(crate) scope: Scope<'t>,
    pub(crate) site: Site<'t>,
}

impl<'t> Finder<'t> {
    /// A finder for the token at a place.
    pub fn new(tree: &'t Tree, at: usize) -> Finder<'t> {
        let scope = Scope {
            tree,
            system: None,
            routine: None,
        };
        Finder {
            at,
            scope,
            site: Site {
                scope,
                name: None,
                purpose: None,
                mark: None,
                expression: None,
                pair: None,
                operand: None,
                is_compared: false,
                number: None,
            },
        }
    }

    pub(crate) fn name(&mut self, name: &'t Identifier, role: NameRole<'t>) {
        if name.at == self.at {
            self.site.scope = self.scope;
            self.site.name = Some((name, role));
        }
    }

    pub(crate) fn mark(&mut self, at: usize, mark: Mark) {
        if at == self.at && self.site.mark.is_none() {
            self.site.scope = self.scope;
            self.site.mark = Some(mark);
        }
    }

    // Of the expressions that begin at the place, the outermost one says what is wanted there.
    pub(crate) fn purpose(&mut self, at: usize, expression: &'t Expression, purpose: Purpose<'t>) {
        if at == self.at && self.site.purpose.is_none() {
            self.site.scope = self.scope;
            self.site.purpose = Some(purpose);
            self.site.expression = Some(expression);
        }
    }

    pub(crate) fn operand(&mut self, at: usize, operand: Operand<'t>) {
        if at == self.at {
            self.site.scope = self.scope;
            self.site.operand = Some(operand);
        }
    }

    pub(crate) fn pair(&mut self, at: usize, pair: Pair<'t>) {
        if at == self.at {
            self.site.scope = self.scope;
            self.site.pair = Some(pair);
        }
    }
}
