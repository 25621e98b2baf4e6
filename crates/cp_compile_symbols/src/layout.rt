//! The size in words of a variable of each type, and where the members of records and classes are.

ghost use Rattle.std.specs.Prelude.{◌≡◌, ◌∷◌, ◌≤◌, ◌<◌, ◌+◌, ◌*◌, [], ℕ, IfOk, OnOk, length, map, option_map, slice_get};
ghost use Rattle.cp_model.specs.Declarations.{is_component};
ghost use Rattle.cp_model.specs.Types.{GlobalScope, ResolvedType};
ghost use Rattle.cp_law_typing.specs.Words.{words};
ghost use Rattle.cp_model_program.specs.Layout as code;
ghost use Rattle.cp_model.specs.Locations.{ByName};
ghost use Rattle.cp_compile_symbols.specs.Layouts.{AreLaid, Counts, EachIsLaid, LaysComponent, LaysOut, LaysRow, PartIs, rights_among, rights_of};
ghost use Rattle.cp_compile_symbols.specs.Representing.{ScopeRepresents, Represents, entry, name_type};

use crate::counts::count_between;
use crate::names::{Names, add_first};
use crate::types::{Field, TypeRow, Types};
use cp_base_names::{Key, NameTable};
use cp_model::tree::{Parameters, Sort, System};
use std::alloc::{AllocError, Global};

/// A part of a variable: its offset in words from the first word of the variable, and its type. The
/// offset is `None` if it is too large.
#[derive(Clone, Copy)]
pub struct Part {
    pub at: Option<u32>,
    pub of: usize,
}

/// The size of a type in words, or `None` if it is too large, and the members of a record or class.
#[derive(Drop)]
pub struct Layout<'t> {
    pub words: Option<u32>,
    pub parts: NameTable<'t, Part>,
}

/// The layouts of types, by type number.
#[derive(Drop)]
pub struct Layouts<'t> {
    pub(crate) alloc: Global,
    pub(crate) key: Key,
    pub(crate) rows: Vec<Layout<'t>>,
}

/// The sum of two sizes, or `None` if it is too large.
pub fn sum(found: Option<u32>, other: Option<u32>) -> Option<u32>
    ensures { (m n : ℕ) → Counts found m → Counts other n → Counts result (m + n) }
{
    found?.checked_add(other?)
}

/// Whether a size has room, which is so unless it is too large.
pub fn has_room(words: Option<u32>) -> bool
    ensures { (n : ℕ) → Counts words n → result ≡ code.has_room n }
{
    match words {
        Some(_) => true,
        None => false,
    }
}

// The product of `n` and a number that has no room.
fn times(n: u32) -> Option<u32>
    ensures { (m : ℕ) → code.most_words < m → Counts result (n * m) }
{
    if n == 0 { Some(0) } else { None }
}

// The product of two sizes, or `None` if it is too large.
fn product(count: Option<u32>, words: Option<u32>) -> Option<u32>
    ensures { (m n : ℕ) → Counts count m → Counts words n → Counts result (m * n) }
{
    match (count, words) {
        (Some(count), Some(words)) => count.checked_mul(words),
        (Some(count), None) => times(count),
        (None, Some(words)) => times(words),
        (None, None) => None,
    }
}

// Converts a number to a size, or returns `None` if it is too large.
fn as_count(n: usize) -> Option<u32>
    ensures { Counts result n }
{
    if n > 0xffff_ffff {
        return None;
    }
    Some(n as u32)
}

impl<'t> Types<'t> {
    /// Whether `name` names a type of components.
    pub fn names_component(&self, names: &Names<'t>, name: &[u8]) -> bool
        ensures { (g : GlobalScope) → ScopeRepresents names.now self.now g → result ≡ is_component
            (name_type name.now g) }
    {
        match names.types.find(name) {
            Some(n) => self.is_component(n),
            None => false,
        }
    }

    // The number of parameters in a group that are rights to components.
    fn rights_among(&self, names: &Names<'t>, group: &Parameters) -> Option<u32>
        ensures { (g : GlobalScope) → ScopeRepresents names.now self.now g → Counts result
            (rights_among g group.now) }
    {
        if self.names_component(names, group.of.name.as_bytes()) {
            as_count(group.names.len())
        } else {
            Some(0)
        }
    }

    /// The number of parameters in these groups that are rights to components.
    pub fn rights(&self, names: &Names<'t>, groups: &[Parameters]) -> Option<u32>
        ensures { (g : GlobalScope) → ScopeRepresents names.now self.now g → Counts result
            (rights_of g groups.now) }
    {
        let mut count = Some(0);
        for group in groups {
            count = sum(count, self.rights_among(names, group));
        }
        count
    }
}

impl<'t> Layouts<'t> {
    /// Creates an empty table of layouts.
    pub fn new(alloc: Global, key: Key) -> Layouts<'t>
        ensures { result.rows.items ≡ [] }
    {
        Layouts {
            alloc,
            key,
            rows: Vec::new(alloc),
        }
    }

    /// The layout of a type, or `None` if it isn't laid out yet.
    pub fn layout(&self, number: usize) -> Option<&Layout<'t>>
        ensures { option_map (λ l. l.now) result ≡ slice_get self.now.rows.items number }
    {
        self.rows.get(number)
    }

    /// The size in words of a variable of the type, or `None` if it is too large.
    ///
    /// # Errors
    ///
    /// `AllocError` if the type isn't laid out yet. The parts of a type are laid out before it.
    pub fn words(&self, number: usize) -> Result<Option<u32>, AllocError>
        ensures { IfOk result (λ size. (g : GlobalScope) (types : Types) (t : ResolvedType)
            → AreLaid g types self.now.rows.items → Represents types number t → Counts size
            (words g t)) }
    {
        match self.layout(number) {
            Some(layout) => Ok(layout.words),
            None => Err(AllocError),
        }
    }

    /// Where a member of a record or class is in a variable of the type, or `None` if the type
    /// has no member of that name.
    pub fn part(&self, number: usize, name: &[u8]) -> Option<Part>
        ensures { (g : GlobalScope) (types : Types) (t : ResolvedType)
            → EachIsLaid g types self.now.rows.items → Represents types number t
            → PartIs types result (code.part g t (ByName name.now ∷ [])) }
    {
        self.layout(number)?.parts.find(name)
    }

    fn bare(&self, words: Option<u32>) -> Layout<'t>
        ensures words { result.words ≡ words }
        ensures parts { result.parts ≡ [] }
    {
        Layout {
            words,
            parts: NameTable::new(self.alloc, self.key),
        }
    }

    /// Lays out these members one after another. The first one is `head` words from the first
    /// word.
    pub fn members(
        &self,
        members: &[Field<'t>],
        head: Option<u32>,
    ) -> Result<Layout<'t>, AllocError>
        ensures { IfOk result (λ l. LaysOut self.now.rows.items (map entry members.now) head l) }
    {
        let mut layout = self.bare(head);
        for member in members {
            let part = Part {
                at: layout.words,
                of: member.of,
            };
            add_first(&mut layout.parts, member.name, part)?;
            let size = self.words(member.of)?;
            layout.words = sum(layout.words, size);
        }
        Ok(layout)
    }

    // The layout of a component. A class component is in its variable, with its members. A
    // process or a monitor is elsewhere, so its variable takes no words.
    fn component(
        &self,
        names: &Names<'t>,
        types: &Types<'t>,
        system: &System,
        members: &[Field<'t>],
    ) -> Result<Layout<'t>, AllocError>
        ensures { IfOk result (λ l. LaysComponent names.now types.now self.now.rows.items system.now
            (map entry members.now) l) }
    {
        match system.sort {
            Sort::Class => {
                let head = sum(Some(1), types.rights(names, &system.parameters));
                self.members(members, head)
            }
            _ => Ok(self.bare(Some(0))),
        }
    }

    // The layout of a type whose parts have been laid out already.
    fn row(
        &self,
        names: &Names<'t>,
        types: &Types<'t>,
        row: &TypeRow<'t>,
    ) -> Result<Layout<'t>, AllocError>
        ensures { IfOk result (λ l. LaysRow names.now types.now self.now.rows.items row.now l) }
    {
        match row {
            TypeRow::Simple(_) => Ok(self.bare(Some(1))),
            TypeRow::Array { low, high, element } => {
                let size = self.words(*element)?;
                let words = product(as_count(count_between(*low, *high)), size);
                Ok(self.bare(words))
            }
            TypeRow::Record(fields) => self.members(fields, Some(0)),
            TypeRow::Queue => Ok(self.bare(Some(1))),
            TypeRow::Component { system, members } => match types.system(*system) {
                Some(system) => self.component(names, types, system, members),
                // Each component type has its system type.
                None => Ok(self.bare(Some(0))),
            },
            TypeRow::Unknown => Ok(self.bare(Some(0))),
        }
    }

    /// Adds the layouts of all types that have none yet.
    pub fn extend(&mut self, names: &Names<'t>, types: &Types<'t>) -> Result<(), AllocError>
        ensures laid { OnOk result ((g : GlobalScope) → ScopeRepresents names.now types.now g
            → AreLaid g types.now self.old.rows.items → AreLaid g types.now self.new.rows.items) }
        ensures complete { OnOk result (length types.now.rows.items ≤ length self.new.rows.items) }
    {
        for number in self.rows.len()..types.rows.len() {
            let layout = self.row(names, types, &types.rows[number])?;
            self.rows.push(layout)?;
        }
        Ok(())
    }
}
