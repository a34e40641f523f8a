//! Names of objects.

ghost use Rattle.std.specs.Prelude.{◌≡◌, ◌+◌, ◌%◌, ◌++◌, ◌∷◌, []};
ghost use Rattle.jt_base.specs.Names.{shard_of};

use crate::path::{Path, SHARDS};

/// An object's name: the path of the task that made it, and how many objects that task had made
/// before.
#[derive(PartialEq, Eq, PartialOrd, Ord, Hash, Debug, Drop)]
pub struct Name {
    pub path: Path,
    pub number: u32,
}

impl Name {
    /// The shard that keeps the object, below 16: the sum of the path's indexes and the number,
    /// modulo 16.
    pub fn shard(&self) -> u32
        ensures { result ≡ shard_of (self.now.path ++ self.now.number ∷ []) }
    {
        (self.path.shard() + self.number % SHARDS) % SHARDS
    }

    /// An equal name. It takes no memory.
    pub fn copy(&self) -> Name
        ensures { result ≡ self.now }
    {
        Name {
            path: self.path.copy(),
            number: self.number,
        }
    }
}
