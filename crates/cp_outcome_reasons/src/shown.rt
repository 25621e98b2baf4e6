//! The variables that were asked for by name: lines of text, and a note in a graph.

use cp_inspect::text::push_all_escaped;
use cp_outcome_variables::value::VariableValue;
use cp_outcome_variables::variables::Variable;
use cp_output::page::Page;
use std::alloc::{AllocError, Global};

/// What lines of variables are part of.
#[derive(Clone, Copy)]
pub(crate) enum Setting {
    Text,
    /// A label for Graphviz.
    Label,
}

impl Setting {
    // The end of a line. Those of a label are at the left.
    fn line_end(self) -> &'static str {
        match self {
            Setting::Text => "\n",
            Setting::Label => "\\l",
        }
    }

    // Adds a byte. One that means something else in a label has a backslash before it.
    fn push_byte(self, page: &mut Page, byte: u8) {
        if let (Setting::Label, b'\\' | b'"') = (self, byte) {
            page.text("\\");
        }
        page.bytes(&[byte]);
    }

    // Adds a character between apostrophes, or its hexadecimal digits if it can't be printed.
    fn push_character(
        self,
        alloc: Global,
        page: &mut Page,
        character: char,
    ) -> Result<(), AllocError> {
        let mut escaped = Vec::new(alloc);
        if let Ok(byte) = u8::try_from(u32::from(character)) {
            push_all_escaped(&mut escaped, &[byte])?;
        }
        page.text("'");
        for byte in &escaped {
            self.push_byte(page, *byte);
        }
        page.text("'");
        Ok(())
    }

    // Adds a value as traces have it.
    fn push_value(
        self,
        alloc: Global,
        page: &mut Page,
        value: &VariableValue,
    ) -> Result<(), AllocError> {
        match value {
            VariableValue::Integer(number) => push_integer(page, *number),
            VariableValue::Boolean(true) => page.text("true"),
            VariableValue::Boolean(false) => page.text("false"),
            VariableValue::Character(character) => {
                self.push_character(alloc, page, *character)?;
            }
            VariableValue::Name(name) => page.bytes(name.as_bytes()),
            VariableValue::Empty => page.text("-"),
        }
        Ok(())
    }
}

fn push_integer(page: &mut Page, number: i32) {
    if number < 0 {
        page.text("-");
    }
    page.number(number.unsigned_abs() as usize);
}

/// Adds a line for each variable, with its value. Fails only if memory runs out.
pub(crate) fn push_shown(
    alloc: Global,
    page: &mut Page,
    shown: &[Variable],
    setting: Setting,
) -> Result<(), AllocError> {
    for variable in shown {
        page.bytes(variable.path.as_bytes());
        page.text(" = ");
        setting.push_value(alloc, page, &variable.value)?;
        page.text(setting.line_end());
    }
    Ok(())
}
