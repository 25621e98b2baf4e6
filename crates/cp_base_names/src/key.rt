//! The key of the hashes of a text's names.
//!
//! Whoever writes a text can compute the hashes of its names. The key is a digest of all names that
//! the text declares. So other names that would collide have another key, and no one can choose the
//! key before the names. No clause mentions the key: it decides how long a search takes, and no
//! answer.

ghost use Rattle.std.specs.Hash as fed;
ghost use Rattle.std.specs.Hash.DefaultHasher as sip;
ghost use Rattle.std.specs.List.{fold};

use cp_model::tree::{
    Defined, Fields, Identifier, Parameters, Routine, Section, Tree, TypeExpression,
};
use md5::{Digest, Md5};
use std::hash::{BuildHasher, DefaultHasher, Hasher};

/// The key, which is hashed before each name. It is one word, since each table holds it.
#[derive(Clone, Copy)]
pub struct Key {
    word: u64,
}

impl BuildHasher for Key {
    type Hasher = DefaultHasher;

    ghost build_hasher = { λ k. fold sip.write sip.initial (fed.u64 k.word) };

    #[inline(always)]
    fn build_hasher(&self) -> DefaultHasher {
        let mut hasher = DefaultHasher::new();
        hasher.write_u64(self.word);
        hasher
    }
}

fn add(digest: &mut Md5, name: &Identifier) {
    digest.update(name.name.as_bytes());
    digest.update(b" ".as_slice());
}

fn add_all(digest: &mut Md5, names: &[Identifier]) {
    for name in names {
        add(digest, name);
    }
}

fn add_written(digest: &mut Md5, of: &TypeExpression) {
    match of {
        TypeExpression::Named(_) | TypeExpression::Subrange(_) => {}
        TypeExpression::Array {
            indices,
            element,
            ..
        } => {
            for index in indices.as_slice() {
                // Most index types declare nothing, and there may be very many.
                if !matches!(
                    index,
                    TypeExpression::Named(_) | TypeExpression::Subrange(_)
                ) {
                    add_written(digest, index);
                }
            }
            add_written(digest, element);
        }
        TypeExpression::Record { groups, .. } => {
            for group in groups.as_slice() {
                add_all(digest, &group.names);
                add_written(digest, &group.of);
            }
        }
    }
}

fn add_fields(digest: &mut Md5, groups: &[Fields]) {
    for group in groups {
        add_all(digest, &group.names);
        add_written(digest, &group.of);
    }
}

fn add_parameters(digest: &mut Md5, groups: &[Parameters]) {
    for group in groups {
        add_all(digest, &group.names);
    }
}

fn add_routines(digest: &mut Md5, routines: &[Routine]) {
    for routine in routines {
        add(digest, &routine.name);
        add_parameters(digest, &routine.parameters);
        add_fields(digest, &routine.variables);
    }
}

fn add_defined(digest: &mut Md5, defined: &Defined) {
    match defined {
        Defined::Written(of) => add_written(digest, of),
        Defined::Enumeration(values) => add_all(digest, values),
        Defined::System(system) => {
            add_parameters(digest, &system.parameters);
            add_fields(digest, &system.variables);
            add_routines(digest, &system.routines);
        }
    }
}

fn add_section(digest: &mut Md5, section: &Section) {
    match section {
        Section::Constants(definitions) => {
            for definition in definitions {
                add(digest, &definition.name);
            }
        }
        Section::Types(definitions) => {
            for definition in definitions {
                add(digest, &definition.name);
                add_defined(digest, &definition.defined);
            }
        }
    }
}

impl Key {
    /// The key of a text with this tree.
    pub fn of(tree: &Tree) -> Key {
        let mut digest = Md5::new();
        for section in &tree.sections {
            add_section(&mut digest, section);
        }
        add_fields(&mut digest, &tree.variables);
        add_routines(&mut digest, &tree.routines);
        let [a, b, c, d, e, f, g, h, ..] = digest.finalize();
        Key {
            word: u64::from_le_bytes([a, b, c, d, e, f, g, h]),
        }
    }
}
