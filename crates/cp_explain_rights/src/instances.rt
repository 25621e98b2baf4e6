//! The components of a program, each an instance of its type's blueprint, and their rights.
//!
//! Instances are in a list: first the initial process, then the parts of each in turn. So an
//! instance gets its rights before they are handed on to its own parts.

use crate::blueprint::{Blueprint, Blueprints, Origin, Part, Right};
use cp_base_names::Key;
use cp_model::tree::{Identifier, Sort, Tree};
use std::alloc::{AllocError, Global};

// The most instances that are made: enough for all processes and monitors, unless many classes come
// before them.
const MAX_INSTANCES: usize = 2_000;

// The depth to which classes are made inside classes.
const MAX_LEVELS: usize = 16;

// The most rights that are made and looked at.
const MAX_RIGHTS: usize = 100_000;

/// A component of a program.
#[derive(Drop)]
pub(crate) struct Instance<'t> {
    /// The names of the components that hold it, and its own, with `.` between them. The name of
    /// the initial process is before no other.
    pub(crate) path: Vec<u8>,
    /// The name of its type. The initial process has none.
    pub(crate) of: Option<&'t Identifier>,
    pub(crate) sort: Sort,
    /// How many components hold it. The initial process doesn't count.
    pub(crate) level: usize,
    // How many bytes of the path are before its own part, below the outermost component.
    outside: usize,
    blueprint: usize,
    // Its parts, as a range of instances.
    parts: (usize, usize),
    // Its rights, as a range of all rights.
    rights: (usize, usize),
}

// A right to an instance that was handed over for this parameter.
#[derive(Clone, Copy)]
struct Handed {
    parameter: usize,
    to: usize,
}

impl<'t> Instance<'t> {
    /// Its path within the outermost component that holds it, or its name.
    pub fn inner_path(&self) -> &[u8] {
        match self.path.get(self.outside..) {
            Some(path) => path,
            None => &self.path,
        }
    }

    /// Whether it declares components of its own.
    pub fn has_parts(&self) -> bool {
        self.parts.0 < self.parts.1
    }
}

/// The components of a program, the first of which is the initial process, and their rights.
#[derive(Drop)]
pub(crate) struct Instances<'t> {
    alloc: Global,
    all: Vec<Instance<'t>>,
    rights: Vec<Handed>,
    // How many rights may still be looked at.
    left: usize,
    is_whole: bool,
}

impl<'t> Instances<'t> {
    /// Makes the components of a tree's program. Fails only if memory runs out.
    pub fn of(alloc: Global, key: Key, tree: &'t Tree) -> Result<Instances<'t>, AllocError> {
        let blueprints = Blueprints::of(alloc, key, tree)?;
        let mut instances = Instances {
            alloc,
            all: Vec::new(alloc),
            rights: Vec::new(alloc),
            left: MAX_RIGHTS,
            is_whole: true,
        };
        instances.add_initial(blueprints.initial())?;
        for index in 0..MAX_INSTANCES {
            instances.expand(index, &blueprints)?;
        }
        Ok(instances)
    }

    /// The instance with this index, if there is one.
    pub fn get(&self, index: usize) -> Option<&Instance<'t>> {
        self.all.get(index)
    }

    /// Whether all components and rights of the program are here.
    pub fn is_whole(&self) -> bool {
        self.is_whole
    }

    /// The indices of all instances but the initial process, each before its parts. Fails only if
    /// memory runs out.
    pub fn in_order(&self) -> Result<Vec<usize>, AllocError> {
        let mut order = Vec::new(self.alloc);
        let mut next = Vec::new(self.alloc);
        self.push_parts(0, &mut next)?;
        for _ in &self.all {
            if let Some(index) = next.pop() {
                order.push(index)?;
                self.push_parts(index, &mut next)?;
            }
        }
        Ok(order)
    }

    /// The instances to which an instance has a right, in the order of their declarations, each
    /// once. Fails only if memory runs out.
    pub fn rights_of(&self, instance: &Instance<'t>) -> Result<Vec<usize>, AllocError> {
        let mut to = Vec::new(self.alloc);
        for index in instance.rights.0..instance.rights.1 {
            if let Some(right) = self.rights.get(index) {
                to.push(right.to)?;
            }
        }
        to.sort()?;
        to.dedup();
        Ok(to)
    }

    // Puts the parts of an instance on a stack, the first one on top.
    fn push_parts(&self, index: usize, next: &mut Vec<usize>) -> Result<(), AllocError> {
        let Some(instance) = self.all.get(index) else {
            return Ok(());
        };
        let (first, end) = instance.parts;
        for part in (first..end).rev() {
            next.push(part)?;
        }
        Ok(())
    }

    fn add_initial(&mut self, blueprint: usize) -> Result<(), AllocError> {
        self.all.push(Instance {
            path: Vec::new(self.alloc),
            of: None,
            sort: Sort::Process,
            level: 0,
            outside: 0,
            blueprint,
            parts: (0, 0),
            rights: (0, 0),
        })?;
        Ok(())
    }

    // Makes the parts of an instance, and hands them their rights.
    fn expand(&mut self, index: usize, blueprints: &Blueprints<'t>) -> Result<(), AllocError> {
        let Some(instance) = self.all.get(index) else {
            return Ok(());
        };
        let (blueprint, level) = (instance.blueprint, instance.level);
        let Some(blueprint) = blueprints.get(blueprint) else {
            return Ok(());
        };
        let first = self.all.len();
        self.add_parts(index, level, blueprint)?;
        self.hand_over(index, first, &blueprint.rights)
    }

    fn add_parts(
        &mut self,
        index: usize,
        level: usize,
        blueprint: &Blueprint<'t>,
    ) -> Result<(), AllocError> {
        let first = self.all.len();
        for part in &blueprint.parts {
            if MAX_INSTANCES <= self.all.len() || MAX_LEVELS <= level {
                self.is_whole = false;
                break;
            }
            self.add_part(index, part)?;
        }
        let end = self.all.len();
        if let Some(instance) = self.all.get_mut(index) {
            instance.parts = (first, end);
        }
        Ok(())
    }

    // How many components hold the parts of an instance, and how many bytes of their paths are
    // before what is below the outermost one.
    fn depth_of_parts(&self, index: usize) -> (usize, usize) {
        match self.all.get(index) {
            Some(instance) if index != 0 => {
                if instance.level == 0 {
                    (1, instance.path.len().saturating_add(1))
                } else {
                    (instance.level.saturating_add(1), instance.outside)
                }
            }
            _ => (0, 0),
        }
    }

    fn add_part(&mut self, index: usize, part: &Part<'t>) -> Result<(), AllocError> {
        let path = self.path(index, part.name)?;
        let (level, outside) = self.depth_of_parts(index);
        self.all.push(Instance {
            path,
            of: Some(part.of),
            sort: part.sort,
            level,
            outside,
            blueprint: part.blueprint,
            parts: (0, 0),
            rights: (0, 0),
        })?;
        Ok(())
    }

    // The path of the part with this name.
    fn path(&self, index: usize, name: &Identifier) -> Result<Vec<u8>, AllocError> {
        let mut path = Vec::new(self.alloc);
        if let Some(instance) = self.all.get(index) {
            if index != 0 {
                path.extend_from_slice(&instance.path)?;
                path.push(b'.')?;
            }
        }
        path.extend_from_slice(name.name.as_bytes())?;
        Ok(path)
    }

    // Hands over what the body of an instance hands to its parts, which begin at `first`.
    fn hand_over(
        &mut self,
        index: usize,
        first: usize,
        rights: &[Right],
    ) -> Result<(), AllocError> {
        for right in rights {
            let to = first.saturating_add(right.to);
            match right.from {
                Origin::Part(from) => {
                    self.give(to, right.parameter, first.saturating_add(from))?;
                }
                Origin::Parameter(from) => self.pass_on(index, from, to, right.parameter)?,
            }
        }
        Ok(())
    }

    // Gives to an instance what another one has by a parameter.
    fn pass_on(
        &mut self,
        index: usize,
        from: usize,
        to: usize,
        parameter: usize,
    ) -> Result<(), AllocError> {
        let Some(instance) = self.all.get(index) else {
            return Ok(());
        };
        let (start, end) = instance.rights;
        for at in start..end {
            match self.rights.get(at).copied() {
                Some(right) if right.parameter == from => self.give(to, parameter, right.to)?,
                _ => self.left = self.left.saturating_sub(1),
            }
        }
        Ok(())
    }

    // Gives an instance the right to another one.
    fn give(&mut self, index: usize, parameter: usize, to: usize) -> Result<(), AllocError> {
        if self.left == 0 || self.all.len() <= to {
            self.is_whole = false;
            return Ok(());
        }
        self.left -= 1;
        let start = self.rights.len();
        let Some(instance) = self.all.get_mut(index) else {
            self.is_whole = false;
            return Ok(());
        };
        if instance.rights.0 == instance.rights.1 {
            instance.rights.0 = start;
        }
        instance.rights.1 = start.saturating_add(1);
        self.rights.push(Handed { parameter, to })?;
        Ok(())
    }
}
