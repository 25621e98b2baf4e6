//! The simple parts and queues of a variable, one after another, with their paths and the addresses
//! of their words.
//!
//! A chain of named types may be very long, so the variables around a part are kept on a stack.
//! Parts are in the order in which they are visited, so the address of the next word only grows.

ghost use Rattle.std.specs.Prelude.{◌≡◌, ◌+◌, ◌+ℤ◌, ◌++◌, ◌∷◌, ◌<◌, ◌^◌, pos, [], Some, OnOk, IfOk, codes, length, map, take};
ghost use Rattle.std.specs.Borrow.{Bor};
ghost use Rattle.cp_model.specs.Decimal.{decimal};
ghost use Rattle.cp_model.specs.Erase as erase;
ghost use Rattle.cp_model.specs.Locations.{Path};
ghost use Rattle.cp_model.specs.Report.{path_text};
ghost use Rattle.cp_model.specs.Types.{GlobalScope};
ghost use Rattle.cp_model.specs.View as view;
ghost use Rattle.cp_model.specs.declared.tree.System.{System};
ghost use Rattle.cp_compile_symbols.specs.Representing.{ScopeRepresents, entry, row_at, system_at};
ghost use Rattle.cp_compile_symbols.specs.declared.types.TypeRow.TheVariants as row_case;
ghost use Rattle.cp_inspect.specs.LeafCodes.{leaf_codes, place_code};
ghost use Rattle.cp_inspect.specs.Sinks.{FillsSinks};
ghost use Rattle.cp_inspect.specs.WalkOutputs.{kept_visit, report_leaf};
ghost use Rattle.cp_inspect.specs.Walks.{Continues, Enters, Finishes, Visits, cursor as cursor_of, members_in};

use crate::heads::class_head;
use crate::leaves::Leaf;
use crate::place::Kind;
use crate::walk_output::WalkOutput;
use cp_base_digits::decimal::push_integer;
use cp_compile_symbols::{Field, Tables, TypeRow, count_between};
use std::alloc::{AllocError, Global};

/// More parts than any report that fits in memory can have.
const MAX_VISITS: u64 = 1 << 48;

/// A record, component or array, by the number of its type, with some of its parts visited.
#[derive(Clone, Copy)]
pub(crate) struct Cursor {
    pub(crate) row: usize,
    /// How many of its parts have been visited.
    pub(crate) next: usize,
    /// The length of the text of its path.
    pub(crate) path: usize,
}

/// A walk over the variables of one component.
#[derive(Drop)]
pub struct Walk {
    /// What is left of the variables around the part, with the innermost last.
    pub(crate) stack: Vec<Cursor>,
    /// The text of the path of the part that is visited. It may be followed by text of another
    /// path.
    pub(crate) path: Vec<u8>,
    /// The address of the next word.
    pub(crate) at: usize,
    /// The places that were visited to be kept.
    pub(crate) leaves: Vec<Leaf>,
}

// The index of an element of an array.
fn index_at(low: i32, next: usize) -> i64
    requires { next < 2 ^ 62 }
    ensures { result ≡ low +ℤ pos next }
{
    i64::from(low) + next as i64
}

impl Walk {
    /// The places that were kept.
    pub(crate) fn into_leaves(self) -> Vec<Leaf>
        ensures { result ≡ self.leaves }
    {
        let Walk {
            stack: _,
            path: _,
            at: _,
            leaves,
        } = self;
        leaves
    }

    /// A walk that begins at an address.
    pub fn new(alloc: Global, at: usize) -> Walk
        ensures place { result.at ≡ at }
        ensures leaves { result.leaves.items ≡ [] }
    {
        Walk {
            stack: Vec::new(alloc),
            path: Vec::new(alloc),
            at,
            leaves: Vec::new(alloc),
        }
    }

    // Skips `count` words.
    fn pass(&mut self, count: usize) -> Result<(), AllocError>
        ensures place { OnOk result (self.new.at ≡ self.old.at + count) }
        ensures stack { self.new.stack ≡ self.old.stack }
        ensures path { self.new.path ≡ self.old.path }
        ensures leaves { self.new.leaves ≡ self.old.leaves }
    {
        self.at = self.at.checked_add(count).ok_or(AllocError)?;
        Ok(())
    }

    // Puts the variable whose path is in the buffer on the stack, so that its parts come next.
    fn open(&mut self, row: usize) -> Result<(), AllocError>
        ensures stack { OnOk result (self.new.stack.items ≡ self.old.stack.items ++
            cursor_of row 0 (length self.old.path.items) ∷ []) }
        ensures path { self.new.path ≡ self.old.path }
        ensures place { self.new.at ≡ self.old.at }
        ensures leaves { self.new.leaves ≡ self.old.leaves }
    {
        let path = self.path.len();
        self.stack.push(Cursor { row, next: 0, path })?;
        Ok(())
    }

    // Keeps the place of a part whose type has the number `row`.
    fn push_leaf(&mut self, kind: Kind, row: usize) -> Result<(), AllocError>
        ensures kept { OnOk result (leaf_codes self.new.leaves.items
            ≡ leaf_codes self.old.leaves.items
            ++ place_code kind self.old.path.items self.old.at) }
        ensures stack { self.new.stack ≡ self.old.stack }
        ensures path { self.new.path ≡ self.old.path }
        ensures place { self.new.at ≡ self.old.at }
    {
        self.leaves.push(Leaf {
            path: self.path.clone()?,
            at: self.at,
            kind,
            of: row,
        })?;
        Ok(())
    }

    // Keeps the place of a part, if places are asked for.
    fn keep(&mut self, walk_output: &WalkOutput, kind: Kind, row: usize) -> Result<(), AllocError>
        ensures kept { OnOk result ((p : Path) → path_text p ≡ self.old.path.items
            → leaf_codes self.new.leaves.items ≡ leaf_codes self.old.leaves.items
            ++ report_leaf (kept_visit walk_output.now) kind p self.old.at) }
        ensures stack { self.new.stack ≡ self.old.stack }
        ensures path { self.new.path ≡ self.old.path }
        ensures place { self.new.at ≡ self.old.at }
    {
        match walk_output {
            WalkOutput::Lines(_) => Ok(()),
            WalkOutput::PathOf(_) => Ok(()),
            WalkOutput::Leaves => self.push_leaf(kind, row),
        }
    }

    // Reports a simple part or a queue, which has one word, and keeps its place if places are
    // asked for. The number of its type is `row`.
    fn report(
        &mut self,
        walk_output: &WalkOutput,
        out: &mut Vec<u8>,
        kind: Kind,
        row: usize,
    ) -> Result<(), AllocError>
        ensures reported { OnOk result ((p : Path) → path_text p ≡ self.old.path.items
            → FillsSinks walk_output.now self.old self.new out.old.items out.new.items
            (λ v before after. after ≡ before ++ report_leaf v kind p self.old.at)) }
        ensures place { OnOk result (self.new.at ≡ self.old.at + 1) }
        ensures stack { self.new.stack ≡ self.old.stack }
        ensures path { self.new.path ≡ self.old.path }
    {
        self.keep(walk_output, kind, row)?;
        walk_output.report(out, kind, &self.path, self.at)?;
        self.pass(1)
    }

    // Reports the variable whose path is in the buffer, if it is simple or a queue. The parts of
    // any other variable come next.
    fn enter(
        &mut self,
        tables: &Tables,
        walk_output: &WalkOutput,
        out: &mut Vec<u8>,
        row: usize,
    ) -> Result<(), AllocError>
        ensures { OnOk result (
            FillsSinks walk_output.now self.old self.new out.old.items out.new.items
            (λ v before after. Enters tables.now v row self.old self.new before after)) }
    {
        match tables.types.row(row) {
            Some(TypeRow::Simple(_)) => self.report(walk_output, out, Kind::Simple, row),
            Some(TypeRow::Queue) => self.report(walk_output, out, Kind::Queue, row),
            Some(TypeRow::Array { .. }) => self.open(row),
            Some(TypeRow::Record(_)) => self.open(row),
            Some(TypeRow::Component { system, .. }) => match class_head(tables, *system)? {
                Some(head) => {
                    self.pass(head)?;
                    self.open(row)
                }
                None => Ok(()),
            },
            Some(TypeRow::Unknown) => Ok(()),
            None => Ok(()),
        }
    }

    // Changes the path to that of a member of the variable.
    fn name_member(&mut self, cursor: Cursor, name: &[u8]) -> Result<(), AllocError>
        ensures path { OnOk result (self.new.path.items
            ≡ take cursor.path self.old.path.items ++ (codes "." ++ name.now)) }
        ensures stack { self.new.stack ≡ self.old.stack }
        ensures place { self.new.at ≡ self.old.at }
        ensures leaves { self.new.leaves ≡ self.old.leaves }
    {
        self.path.truncate(cursor.path);
        self.path.extend_from_slice(b".")?;
        self.path.extend_from_slice(name)
    }

    // Changes the path to that of an element of the variable.
    fn name_element(&mut self, cursor: Cursor, index: i64) -> Result<(), AllocError>
        ensures path { OnOk result (self.new.path.items ≡ take cursor.path self.old.path.items ++
            (codes "[" ++ (decimal index ++ codes "]"))) }
        ensures stack { self.new.stack ≡ self.old.stack }
        ensures place { self.new.at ≡ self.old.at }
        ensures leaves { self.new.leaves ≡ self.old.leaves }
    {
        self.path.truncate(cursor.path);
        self.path.extend_from_slice(b"[")?;
        push_integer(&mut self.path, index)?;
        self.path.extend_from_slice(b"]")
    }

    // Leaves the parts of the variable after the next one for later.
    fn leave_rest(&mut self, cursor: Cursor) -> Result<(), AllocError>
        requires { cursor.next < 2 ^ 63 }
        ensures stack { OnOk result (self.new.stack.items ≡ self.old.stack.items ++
            cursor_of cursor.row (cursor.next + 1) cursor.path ∷ []) }
        ensures path { self.new.path ≡ self.old.path }
        ensures place { self.new.at ≡ self.old.at }
        ensures leaves { self.new.leaves ≡ self.old.leaves }
    {
        self.stack.push(Cursor {
            next: cursor.next + 1,
            ..cursor
        })?;
        Ok(())
    }

    // Enters the next member of a record or component, if one is left.
    fn member(
        &mut self,
        tables: &Tables,
        walk_output: &WalkOutput,
        out: &mut Vec<u8>,
        cursor: Cursor,
        members: &[Field],
    ) -> Result<(), AllocError>
        requires { members_in (row_at tables.now.types cursor.row)
            ≡ Some (map entry members.now) }
        ensures { OnOk result (
            FillsSinks walk_output.now self.old self.new out.old.items out.new.items
            (λ v before after. Continues tables.now v cursor self.old self.new before after)) }
    {
        let Some(member) = members.get(cursor.next) else {
            return Ok(());
        };
        self.name_member(cursor, member.name)?;
        self.leave_rest(cursor)?;
        self.enter(tables, walk_output, out, member.of)
    }

    // Enters the next element of an array, if one is left.
    fn element(
        &mut self,
        tables: &Tables,
        walk_output: &WalkOutput,
        out: &mut Vec<u8>,
        cursor: Cursor,
        low: i32,
        high: i32,
        element: usize,
    ) -> Result<(), AllocError>
        requires { row_at tables.now.types cursor.row ≡ Some (row_case.Array low high element) }
        ensures { OnOk result (
            FillsSinks walk_output.now self.old self.new out.old.items out.new.items
            (λ v before after. Continues tables.now v cursor self.old self.new before after)) }
    {
        if count_between(low, high) <= cursor.next {
            return Ok(());
        }
        self.name_element(cursor, index_at(low, cursor.next))?;
        self.leave_rest(cursor)?;
        self.enter(tables, walk_output, out, element)
    }

    // Enters the next part of a variable that was taken from the stack, if one is left.
    fn go_on(
        &mut self,
        tables: &Tables,
        walk_output: &WalkOutput,
        out: &mut Vec<u8>,
        cursor: Cursor,
    ) -> Result<(), AllocError>
        ensures { OnOk result (
            FillsSinks walk_output.now self.old self.new out.old.items out.new.items
            (λ v before after. Continues tables.now v cursor self.old self.new before after)) }
    {
        match tables.types.row(cursor.row) {
            Some(TypeRow::Record(fields)) => self.member(tables, walk_output, out, cursor, fields),
            Some(TypeRow::Component { members, .. }) => {
                self.member(tables, walk_output, out, cursor, members)
            }
            Some(TypeRow::Array { low, high, element }) => {
                self.element(tables, walk_output, out, cursor, *low, *high, *element)
            }
            Some(TypeRow::Simple(_)) => Ok(()),
            Some(TypeRow::Queue) => Ok(()),
            Some(TypeRow::Unknown) => Ok(()),
            None => Ok(()),
        }
    }

    // Walks over everything that is left.
    fn finish(
        &mut self,
        tables: &Tables,
        walk_output: &WalkOutput,
        out: &mut Vec<u8>,
    ) -> Result<(), AllocError>
        ensures { OnOk result (
            FillsSinks walk_output.now self.old self.new out.old.items out.new.items
            (λ v before after. Finishes tables.now v self.old self.new before after)) }
    {
        for _visit in 0..MAX_VISITS {
            let Some(cursor) = self.stack.pop() else {
                return Ok(());
            };
            self.go_on(tables, walk_output, out, cursor)?;
        }
        Err(AllocError)
    }

    /// Reports all parts of a variable with this name and type, which is at the next address.
    ///
    /// # Errors
    ///
    /// `AllocError` if memory runs out.
    pub fn variable(
        &mut self,
        tables: &Tables,
        walk_output: &WalkOutput,
        out: &mut Vec<u8>,
        name: &[u8],
        row: usize,
    ) -> Result<(), AllocError>
        ensures { OnOk result (
            FillsSinks walk_output.now self.old self.new out.old.items out.new.items
            (λ v before after. Visits tables.now v name.now row self.old.at
            self.new.at before after)) }
    {
        self.stack.clear();
        self.path.clear();
        self.path.extend_from_slice(name)?;
        self.enter(tables, walk_output, out, row)?;
        self.finish(tables, walk_output, out)
    }
}
