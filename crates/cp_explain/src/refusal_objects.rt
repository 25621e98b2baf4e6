//! Objects of texts that are refused, with their violations (`specs/Values.antt`).

ghost use Rattle.std.specs.Prelude.{◌≡◌, IfOk, OnOk, string_bytes};
ghost use Rattle.cp_explain.specs.Explained.{code_of};
ghost use Rattle.cp_explain.specs.Objects.{IsViolationOf};
ghost use Rattle.cp_explain.specs.Values.{WritesMark, line_of, refusal_value, violation_value};
ghost use Rattle.cp_output.specs.Json.{IsJsonLine};
ghost use Rattle.serde_json.specs.Events.{SendsValue};

use crate::explain::{place, push_code};
use crate::fields::{count_fields, write_field, write_some};
use crate::parts::Parts;
use crate::token_end::token_end;
use cp_frontend::refusal::Refusal;
use cp_output::object::{FORMAT, line};
use cp_output::position::Position;
use serde::{Described, Serialize, Serializer};
use std::alloc::{AllocError, Global};

/// Why a text is refused: a violation or a syntax error.
#[derive(Drop)]
pub(crate) struct ViolationObject {
    rule: String,
    line: usize,
    column: usize,
    offset: usize,
    end_line: usize,
    end_column: usize,
    message: String,
    advice: String,
    hints: Vec<String>,
    expected: Vec<String>,
}

/// The field that says that a text is refused.
#[derive(Clone, Copy)]
pub(crate) enum Mark {
    /// `"accepted":false`, of `explain`.
    Accepted,
    /// `"verdict":"refused"`, of a command that runs a text.
    Verdict,
}

/// A text that is refused.
#[derive(Drop)]
pub(crate) struct RefusalObject {
    mark: Mark,
    file: String,
    violations: Vec<ViolationObject>,
    // How many more violations there are.
    untold: Option<usize>,
}

impl Described for ViolationObject {
    ghost writes = { λ v. SendsValue (violation_value v) };
}

impl Serialize for ViolationObject {
    fn serialize<S: Serializer>(&self, out: &mut S) -> Result<(), S::Error> {
        out.begin_map(Some(10))?;
        write_field(out, "rule", &self.rule)?;
        write_field(out, "line", &self.line)?;
        write_field(out, "column", &self.column)?;
        write_field(out, "offset", &self.offset)?;
        write_field(out, "endLine", &self.end_line)?;
        write_field(out, "endColumn", &self.end_column)?;
        write_field(out, "message", &self.message)?;
        write_field(out, "advice", &self.advice)?;
        write_field(out, "hints", &self.hints)?;
        write_field(out, "expected", &self.expected)?;
        out.end_map()
    }
}

impl Mark {
    fn write<S: Serializer>(self, out: &mut S) -> Result<(), S::Error>
        ensures { OnOk result (WritesMark self (S.written out.old) (S.written out.new)) }
    {
        match self {
            Mark::Accepted => write_field(out, "accepted", &false),
            Mark::Verdict => write_field(out, "verdict", &"refused"),
        }
    }
}

impl Described for RefusalObject {
    ghost writes = { λ o. SendsValue (refusal_value o) };
}

impl Serialize for RefusalObject {
    fn serialize<S: Serializer>(&self, out: &mut S) -> Result<(), S::Error> {
        out.begin_map(Some(count_fields(4, &self.untold)))?;
        write_field(out, "format", &FORMAT)?;
        self.mark.write(out)?;
        write_field(out, "file", &self.file)?;
        write_field(out, "violations", &self.violations)?;
        write_some(out, "untold", &self.untold)?;
        out.end_map()
    }
}

fn strings(alloc: Global, list: &[&[u8]]) -> Result<Vec<String>, AllocError> {
    let mut all = Vec::new(alloc);
    for bytes in list {
        all.push(String::from_utf8_lossy(alloc, bytes)?)?;
    }
    Ok(all)
}

// The letter and the number of a refusal.
fn rule_of(alloc: Global, refusal: &Refusal) -> Result<String, AllocError>
    ensures { IfOk result (λ rule. string_bytes rule ≡ code_of refusal.now) }
{
    let mut rule = Vec::new(alloc);
    push_code(&mut rule, refusal)?;
    String::from_utf8_lossy(alloc, &rule)
}

impl ViolationObject {
    /// A violation, with the words of its page. Fails only if memory runs out.
    pub(crate) fn of(
        alloc: Global,
        text: &[u8],
        refusal: &Refusal,
        page: &[u8],
    ) -> Result<ViolationObject, AllocError>
        ensures { IfOk result (IsViolationOf text.now refusal.now) }
    {
        let offset = place(refusal);
        let position = Position::of(text, offset);
        let end = Position::of(text, token_end(text, offset));
        let parts = Parts::of(alloc, page)?;
        Ok(ViolationObject {
            rule: rule_of(alloc, refusal)?,
            line: position.line,
            column: position.column,
            offset,
            end_line: end.line,
            end_column: end.column,
            message: String::from_utf8_lossy(alloc, parts.message)?,
            advice: String::from_utf8_lossy(alloc, parts.advice)?,
            hints: strings(alloc, &parts.hints)?,
            expected: strings(alloc, &parts.expected)?,
        })
    }
}

impl RefusalObject {
    /// A text with so many violations, of which these are shown. Fails only if memory runs out.
    pub(crate) fn of(
        alloc: Global,
        mark: Mark,
        file: &[u8],
        violations: Vec<ViolationObject>,
        count: usize,
    ) -> Result<RefusalObject, AllocError>
        ensures mark { IfOk result (λ o. o.mark ≡ mark) }
        ensures violations { IfOk result (λ o. o.violations.items ≡ violations.items) }
    {
        let untold = count.saturating_sub(violations.len());
        Ok(RefusalObject {
            mark,
            file: String::from_utf8_lossy(alloc, file)?,
            violations,
            untold: if untold == 0 { None } else { Some(untold) },
        })
    }

    /// The line of the object. Fails only if memory runs out.
    pub(crate) fn line(&self, alloc: Global) -> Result<Vec<u8>, AllocError>
        ensures form { IfOk result (λ page. IsJsonLine page.items) }
        ensures value { IfOk result (λ page. page.items ≡ line_of (refusal_value self.now)) }
    {
        line(alloc, self)
    }
}
