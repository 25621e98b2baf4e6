//! What is meant by a name that isn't declared: an entry of a component in reach, a name of another
//! language, or a name that is spelled like it and fits there.

use crate::site::{NameRole, Site};
use cp_explain_habits::meaning_of;
use cp_explain_names::nearest::Nearest;
use cp_explain_names::visible::{Fit, NO_NAME};
use cp_model::tree::Identifier;
use cp_output::page::Page;
use std::alloc::{AllocError, Global};

/// A call of more bytes than this is reported by its name.
const MAX_CALL_BYTES: usize = 60;

// What names may have a role.
fn names_for(role: NameRole<'_>) -> Fit {
    match role {
        NameRole::Type(_) => Fit {
            types: true,
            ..NO_NAME
        },
        NameRole::Constant => Fit {
            constants: true,
            ..NO_NAME
        },
        NameRole::Value => Fit {
            constants: true,
            variables: true,
            functions: true,
            ..NO_NAME
        },
        NameRole::Function(_) => Fit {
            functions: true,
            ..NO_NAME
        },
        NameRole::Procedure(_) => Fit {
            procedures: true,
            ..NO_NAME
        },
        NameRole::Target | NameRole::Root(_) | NameRole::Counter | NameRole::Component(_) => {
            Fit {
                variables: true,
                ..NO_NAME
            }
        }
        NameRole::Declared(_) | NameRole::Member(..) => NO_NAME,
    }
}

fn is_letter(byte: u8) -> bool {
    byte.is_ascii_alphanumeric() || byte == b'_'
}

// The call that begins these bytes, in one line: a name, and its arguments in parentheses.
fn call_of(bytes: &[u8]) -> Option<&[u8]> {
    let mut depth: usize = 0;
    let mut in_character = false;
    for i in 0..bytes.len().min(MAX_CALL_BYTES) {
        match bytes[i] {
            b'\'' => in_character = !in_character,
            b'\n' => return None,
            _ if in_character => {}
            b'(' => depth = depth.saturating_add(1),
            b')' if depth == 1 => return Some(&bytes[..=i]),
            b')' if 1 < depth => depth -= 1,
            byte if depth == 0 && !is_letter(byte) => return Some(&bytes[..i]),
            _ => {}
        }
    }
    None
}

// The bytes of a text from a place on.
fn rest_of(text: &[u8], at: usize) -> &[u8] {
    &text[at.min(text.len())..]
}

impl<'t> Site<'t> {
    fn offer_all(&self, alloc: Global, nearest: &mut Nearest<'t>) -> Result<(), AllocError> {
        match self.name {
            Some((_, NameRole::Member(..))) => self.offer_members(alloc, nearest),
            Some((_, role)) => nearest.offer_visible(alloc, self.scope, names_for(role)),
            None => Ok(()),
        }
    }

    // The component in reach whose entry the name at the place may be.
    fn component_meant(&self) -> Option<&'t Identifier> {
        match self.name? {
            (x, NameRole::Value | NameRole::Function(_) | NameRole::Procedure(_)) => {
                self.scope.component_with_entry(x.name.as_bytes())
            }
            _ => None,
        }
    }

    // Adds the call of an entry of a component, as it is meant.
    fn push_entry(&self, page: &mut Page, text: &[u8], component: &Identifier, name: &Identifier) {
        page.text(": did you mean `");
        page.bytes(component.name.as_bytes());
        page.bytes(b".");
        page.bytes(match call_of(rest_of(text, name.at)) {
            Some(call) => call,
            None => name.name.as_bytes(),
        });
        page.text("`?");
    }

    fn push_nearest(
        &self,
        alloc: Global,
        page: &mut Page,
        name: &'t [u8],
    ) -> Result<(), AllocError> {
        let mut nearest = Nearest::to(name);
        self.offer_all(alloc, &mut nearest)?;
        if let Some(found) = nearest.found() {
            page.text(": did you mean ");
            page.quoted(found);
            page.bytes(b"?");
        }
        Ok(())
    }

    /// Adds to the first line what is meant by the name at the place, which isn't declared there.
    pub fn push_meant(
        &self,
        alloc: Global,
        page: &mut Page,
        text: &[u8],
    ) -> Result<(), AllocError> {
        let Some((x, role)) = self.name else {
            return Ok(());
        };
        if let Some(component) = self.component_meant() {
            self.push_entry(page, text, component, x);
            return Ok(());
        }
        let is_member = matches!(role, NameRole::Member(..));
        match meaning_of(x.name.as_bytes()) {
            Some(reported) if !is_member => {
                page.bytes(b": ");
                page.text(reported);
                Ok(())
            }
            _ => self.push_nearest(alloc, page, x.name.as_bytes()),
        }
    }
}
