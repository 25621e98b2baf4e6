//! The diagnosis of a broken rule: the message, the line with a caret, the advice, and what else
//! helps: the types that don't agree, the arguments that a call takes, what a name may have meant,
//! and where it is declared.

use crate::finder::Finder;
use crate::messages as m;
use crate::site::{NameRole, Site};
use cp_base_names::Key;
use cp_explain_names::components::{Components, Systems};
use cp_explain_names::scope::{Declaration, Kind};
use cp_model::rules::{Rule, Violation};
use cp_model::tree::{Identifier, Sort, Tree};
use cp_output::message::{About, Message};
use cp_output::page::Page;
use cp_output::position::Position;
use std::alloc::{AllocError, Global};

fn kind_words(kind: Kind) -> &'static str {
    match kind {
        Kind::Constant => "a constant",
        Kind::EnumerationValue => "a value of an enumeration",
        Kind::Type => "a type",
        Kind::SystemType(Sort::Process) => "a process type",
        Kind::SystemType(Sort::Monitor) => "a monitor type",
        Kind::SystemType(Sort::Class) => "a class type",
        Kind::Variable => "a variable",
        Kind::ValueParameter => "a value parameter",
        Kind::VarParameter => "a `var` parameter",
        Kind::Procedure => "a procedure",
        Kind::Function => "a function",
    }
}

// Adds where the name at the place is declared.
fn push_declaration(page: &mut Page, text: &[u8], at: usize, declared: Declaration<'_>) {
    page.bytes(b"  ");
    page.name(declared.name);
    page.text(" is declared as ");
    page.text(kind_words(declared.kind));
    page.text(if at < declared.name.at {
        " only at "
    } else {
        " at "
    });
    page.position(Position::of(text, declared.name.at));
    page.text(if at < declared.name.at {
        ", after this place.\n"
    } else {
        ".\n"
    });
}

// Adds where the initial process declares a name that isn't visible at the place.
fn push_hidden(page: &mut Page, text: &[u8], declared: Declaration<'_>) {
    page.bytes(b"  ");
    page.name(declared.name);
    page.text(" is declared by the initial process at ");
    page.position(Position::of(text, declared.name.at));
    page.text(".\n");
}

// The sort and the number of the component that a name declares.
fn number(
    alloc: Global,
    key: Key,
    tree: &Tree,
    found: Option<&Identifier>,
) -> Result<Option<(Sort, usize)>, AllocError> {
    let Some(found) = found else {
        return Ok(None);
    };
    let systems = Systems::of(alloc, key, tree)?;
    let components = Components::of(alloc, &systems, &[], &tree.variables)?;
    Ok(match components.find(found) {
        Some(component) => Some((component.sort, component.number)),
        None => None,
    })
}

fn letters<'t>(found: Option<&'t Identifier>) -> Option<&'t [u8]> {
    Some(found?.name.as_bytes())
}

impl<'t> Site<'t> {
    // Adds where the name at the place is declared, or what it means as a standard name.
    fn push_declared(&self, page: &mut Page, text: &[u8], at: usize) {
        match (
            self.declaration(),
            self.hidden_declaration(),
            self.standard(),
        ) {
            (Some(declared), _, _) => push_declaration(page, text, at, declared),
            (None, Some(declared), _) => push_hidden(page, text, declared),
            (None, None, Some(standard)) => standard.push(page),
            _ => {}
        }
    }

    // Whether the name at the place represents nothing that the text declares.
    fn is_unknown(&self) -> bool {
        match self.name {
            Some((_, NameRole::Declared(_))) | None => false,
            _ => self.declaration().is_none() && self.hidden_declaration().is_none(),
        }
    }

    // Adds the first line: what is wrong, what a name that isn't declared means, and how many
    // arguments a call takes.
    fn push_head(
        &self,
        alloc: Global,
        page: &mut Page,
        text: &[u8],
        rule: Rule,
        head: &str,
    ) -> Result<(), AllocError> {
        page.template(head, self.about());
        if rule == Rule::C1 && self.is_unknown() {
            self.push_meant(alloc, page, text)?;
        }
        if head == m::ARGUMENTS.head || head == m::INIT_ARGUMENTS.head {
            self.push_numbers(page);
        }
        Ok(())
    }

    // Adds what helps with a name that isn't declared, or that is no entry.
    fn push_names(&self, page: &mut Page, rule: Rule) {
        if matches!(rule, Rule::C1 | Rule::C5) {
            self.push_members(page);
        }
    }

    // Adds what helps with types and numbers of arguments.
    fn push_agreement(&self, page: &mut Page, rule: Rule) {
        if !matches!(rule, Rule::C2 | Rule::C10 | Rule::C12) {
            return;
        }
        self.push_types(page);
        self.push_counts(page);
        if rule == Rule::C2 {
            self.push_standard_callee(page);
        }
    }
}

// What is at the place of a violation.
fn site_of<'t>(
    alloc: Global,
    key: Key,
    tree: &'t Tree,
    violation: Violation,
) -> Result<Site<'t>, AllocError> {
    let Violation { rule, at } = violation;
    let mut site = Finder::find(tree, at);
    if rule == Rule::C13 {
        site.number = number(alloc, key, tree, site.identifier())?;
    }
    Ok(site)
}

impl<'t> Site<'t> {
    fn about(&self) -> About<'t> {
        About {
            name: letters(self.identifier()),
            other: letters(self.other()),
        }
    }

    // Adds what is known of this place: types, numbers of arguments, names and declarations.
    fn push_facts(&self, page: &mut Page, text: &[u8], violation: Violation) {
        self.push_agreement(page, violation.rule);
        self.push_names(page, violation.rule);
        self.push_declared(page, text, violation.at);
    }
}

/// Explains a broken rule, after the heading. The key is that of the text's names. Fails only if
/// memory runs out.
pub fn of_violation(
    alloc: Global,
    key: Key,
    text: &[u8],
    tree: &Tree,
    violation: Violation,
) -> Result<Vec<u8>, AllocError> {
    let Violation { rule, at } = violation;
    let site = site_of(alloc, key, tree, violation)?;
    let Message { head, advice } = site.message(rule);
    let mut page = Page::new(alloc);
    site.push_head(alloc, &mut page, text, rule, head)?;
    page.place_and_advice(text, at, advice, site.about());
    page.bytes(b"\n");
    site.push_facts(&mut page, text, violation);
    page.hint("C", rule.number());
    page.finish()
}

/// Explains a broken rule in short, after the heading: without advice and without the hint. The key
/// is that of the text's names. Fails only if memory runs out.
pub fn of_violation_in_short(
    alloc: Global,
    key: Key,
    text: &[u8],
    tree: &Tree,
    violation: Violation,
) -> Result<Vec<u8>, AllocError> {
    let Violation { rule, at } = violation;
    let site = site_of(alloc, key, tree, violation)?;
    let mut page = Page::new(alloc);
    site.push_head(alloc, &mut page, text, rule, site.message(rule).head)?;
    page.place(text, at);
    site.push_facts(&mut page, text, violation);
    page.finish()
}
