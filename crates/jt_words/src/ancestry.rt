//! The ancestors of a task: `D:F,D:F` and so on.

ghost use Rattle.std.specs.Prelude.{Some, ◌≡◌, ◌&&◌, [], IfOk, length, map, nat_le, option_map};
ghost use Rattle.jt_words.specs.Values as spec;

use crate::fields::fields_of;
use crate::number::small_number;
use std::alloc::{AllocError, Global};
use std::marker::Model;

/// The most draws and forks of an ancestor, and of all ancestors together.
const MOST_STEPS: u32 = 1_000_000;

/// The most ancestors of a task.
const MOST_ANCESTORS: usize = 48;

/// What an ancestor of a task had done before the fork that leads on to the task.
#[derive(Clone, Copy, PartialEq, Eq, Debug)]
pub struct Ancestor {
    /// How many draws it had made.
    pub draws: u32,
    /// How many forks it had made.
    pub forks: u32,
}

/// The ancestors of a task from the main task on, none of the main task itself. Contracts see the
/// list.
#[derive(Debug, Drop)]
pub struct Ancestry {
    ancestors: Vec<Ancestor>,
}

impl Model for Ancestry {
    ghost use Rattle.std.specs.Prelude.{List};
    ghost use Rattle.jt_words.specs.declared.ancestry.Ancestor.{Ancestor};

    ghost Value = { List Ancestor };

    ghost view = { λ a. a.ancestors.items };
}

impl Ancestry {
    /// The ancestors, the main task first.
    pub fn ancestors(&self) -> &[Ancestor]
        ensures { result.now ≡ self.now }
    {
        self.ancestors.as_slice()
    }
}

/// Both numbers, where both are there.
fn ancestor_with(draws: Option<u32>, forks: Option<u32>) -> Option<Ancestor>
    ensures { result ≡ spec.ancestor_with draws forks }
{
    match (draws, forks) {
        (Some(draws), Some(forks)) => Some(Ancestor { draws, forks }),
        _ => None,
    }
}

/// The ancestor that two texts are.
fn ancestor_in(fields: &[&[u8]]) -> Option<Ancestor>
    ensures { result ≡ spec.ancestor_in (map (λ f. f.now) fields.now) }
{
    match fields {
        [draws, forks] => ancestor_with(
            small_number(draws, 0, MOST_STEPS),
            small_number(forks, 0, MOST_STEPS),
        ),
        _ => None,
    }
}

/// The ancestor that a text is.
fn ancestor_named(alloc: Global, text: &[u8]) -> Result<Option<Ancestor>, AllocError>
    ensures { IfOk result (λ r. r ≡ spec.ancestor_named text.now) }
{
    let fields = fields_of(alloc, text, b':')?;
    Ok(ancestor_in(fields.as_slice()))
}

/// The ancestors that the texts are.
fn ancestors_in(alloc: Global, fields: &[&[u8]]) -> Result<Option<Vec<Ancestor>>, AllocError>
    ensures { IfOk result (λ r. option_map (λ v. v.items) r ≡ spec.each spec.ancestor_named (map (λ f. f.now) fields.now)) }
{
    let mut ancestors = Vec::new(alloc);
    for field in fields {
        match ancestor_named(alloc, field)? {
            None => return Ok(None),
            Some(ancestor) => ancestors.push(ancestor)?,
        }
    }
    Ok(Some(ancestors))
}

/// Whether there are at most 48 ancestors, whose draws and forks are 1,000,000 together at most.
fn is_short(ancestors: &[Ancestor]) -> bool
    ensures { result ≡ (nat_le (length ancestors.now) 48 && nat_le (spec.total ancestors.now) 1000000) }
{
    if ancestors.len() > MOST_ANCESTORS {
        return false;
    }
    let mut total = 0;
    for ancestor in ancestors {
        if ancestor.draws > MOST_STEPS || ancestor.forks > MOST_STEPS {
            return false;
        }
        total += ancestor.draws + ancestor.forks;
    }
    total <= MOST_STEPS
}

/// The ancestors, where they are short.
fn short(ancestors: Vec<Ancestor>) -> Option<Ancestry>
    ensures { result ≡ spec.short (Some ancestors.items) }
{
    if is_short(ancestors.as_slice()) {
        Some(Ancestry { ancestors })
    } else {
        None
    }
}

/// The ancestors that are given, or none where none are.
pub(crate) fn ancestry_or_none(
    alloc: Global,
    given: Option<&str>,
) -> Result<Option<Ancestry>, AllocError>
    ensures { IfOk result (λ r. r ≡ spec.or_default [] spec.ancestry_named (option_map (λ s. s.now) given.entry)) }
{
    match given {
        None => Ok(Some(Ancestry {
            ancestors: Vec::new(alloc),
        })),
        Some(text) => {
            let fields = fields_of(alloc, text.as_bytes(), b',')?;
            match ancestors_in(alloc, fields.as_slice())? {
                None => Ok(None),
                Some(ancestors) => Ok(short(ancestors)),
            }
        }
    }
}
