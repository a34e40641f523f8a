//! Fork paths, the names of tasks.

ghost use Rattle.std.specs.Prelude.{◌≡◌, ◌<◌, ◌≤◌, ◌++◌, ◌∷◌, [], ◌↔◌, length, slice_index_or, nat_eq, Some, IfOk, IsOk, refl};
ghost use Rattle.std.specs.Ordering.{nat_cmp};
ghost use Rattle.std.specs.Cmp.{on_equiv, on_total, on_po, on_per, partial_equiv_from_equiv};
ghost use Rattle.std.specs.Cmp.Lexicographic.{pointwise, slice_cmp, nat_list_eq_equiv, nat_list_cmp_total, texts_po, texts_ties};
ghost use Rattle.jt_base.specs.Names.{shard_of, most_indexes};

use arrayvec::ArrayVec;
use std::cmp::Ordering;
use std::hash::{Hash, Hasher};
use std::marker::Model;
use thiserror::Error;

/// The most indexes of a path.
pub const MOST_INDEXES: usize = 48;

/// The number of shards over which tasks and objects are spread.
pub const SHARDS: u32 = 16;

/// A task's fork path: for each spawn that leads from the main task to this one, its number among
/// its maker's spawns, counted from 0. At most 48 indexes; the main task's path is empty.
#[derive(Debug, Drop)]
pub struct Path {
    indexes: ArrayVec<u32, MOST_INDEXES>,
}

/// The path has 48 indexes already.
#[derive(Clone, Copy, PartialEq, Eq, Debug, Drop, Error)]
#[error("a path has at most 48 indexes")]
pub struct PathFull;

impl Model for Path {
    ghost use Rattle.std.specs.Prelude.{ℕ, List, ◌≤◌, length};

    ghost Value = { List ℕ };

    ghost view = { λ p. p.indexes.items };

    ghost invariant = { λ p. length p.indexes.items ≤ 48 };
}

impl Path {
    /// The main task's path, which is empty.
    pub fn main() -> Path
        ensures { result ≡ [] }
    {
        Path {
            indexes: ArrayVec::new(),
        }
    }

    /// The path of the `k`-th task that this path's task spawns, counted from 0. `PathFull`
    /// exactly where this path has 48 indexes.
    pub fn child(&self, k: u32) -> Result<Path, PathFull>
        ensures path { IfOk result (λ p. p ≡ self.now ++ k ∷ []) }
        ensures room { IsOk result ↔ (length self.now < most_indexes) }
    {
        let mut child = self.copy();
        match child.indexes.try_push(k) {
            Ok(()) => Ok(child),
            Err(_) => Err(PathFull),
        }
    }

    /// The number of indexes, at most 48: the fork depth of the task.
    pub fn len(&self) -> usize
        ensures len { result ≡ length self.now }
        ensures most { result ≤ most_indexes }
    {
        self.indexes.len()
    }

    /// Whether this is the main task's path.
    pub fn is_main(&self) -> bool
        ensures { result ≡ nat_eq (length self.now) 0 }
    {
        self.indexes.len() == 0
    }

    /// The index at `i`, counted from 0.
    pub fn at(&self, i: usize) -> u32
        requires { i < length self.now }
        ensures { result ≡ slice_index_or self.now i result }
    {
        self.indexes[i]
    }

    /// The indexes, from the main task's spawn on.
    pub fn indexes(&self) -> &[u32]
        ensures { result.now ≡ self.now }
    {
        self.indexes.as_slice()
    }

    /// An equal path. It takes no memory.
    pub fn copy(&self) -> Path
        ensures { result ≡ self.now }
    {
        let mut indexes = ArrayVec::new();
        match indexes.try_extend_from_slice(self.indexes.as_slice()) {
            Ok(()) => Path { indexes },
            Err(_) => unreachable!(),
        }
    }

    /// The shard that keeps this task's completion, below 16: the sum of the indexes modulo 16.
    pub fn shard(&self) -> u32
        ensures { result ≡ shard_of self.now }
    {
        let indexes: &[u32] = self.indexes.as_slice();
        let sum: u64 = indexes.iter().map(|index| *index as u64).sum();
        (sum % SHARDS as u64) as u32
    }
}

impl PartialEq for Path {
    ghost eq = { λ p q. pointwise nat_eq p q };

    ghost laws = { partial_equiv_from_equiv nat_list_eq_equiv };

    fn eq(&self, other: &Self) -> bool {
        self.indexes() == other.indexes()
    }
}

impl Eq for Path {
    ghost laws = { nat_list_eq_equiv };
}

impl PartialOrd for Path {
    ghost partial_cmp = { λ p q. Some (slice_cmp nat_cmp p q) };

    ghost laws = { texts_po };

    fn partial_cmp(&self, other: &Self) -> Option<Ordering> {
        Some(self.cmp(other))
    }
}

impl Ord for Path {
    ghost cmp = { λ p q. slice_cmp nat_cmp p q };

    ghost total = { nat_list_cmp_total };

    ghost matches_partial_cmp = { λ p q. refl };

    ghost matches_eq = { λ p q. texts_ties p q };

    fn cmp(&self, other: &Self) -> Ordering {
        self.indexes().cmp(&other.indexes())
    }
}

impl Hash for Path {
    ghost use Rattle.std.specs.Hash as fed;
    ghost use Rattle.std.specs.Hash.{items_Alike, same_Alike};
    ghost use Rattle.std.proofs.lemmas.Bool.Decides.{Decides-eqb};

    ghost hash_input = { λ p. fed.slice fed.u32 p };

    ghost respects_eq = { (items_Alike (same_Alike fed.u32 Decides-eqb)).fed };

    fn hash<H: Hasher>(&self, state: &mut H) {
        self.indexes().hash(state);
    }
}
