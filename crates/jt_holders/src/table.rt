//! For each name the depths of the open lists that have it.

ghost use Rattle.std.specs.Prelude.{◌≡◌, ◌∷◌, [], reverse, OnOk, OnErr};
ghost use Rattle.jt_holders.specs.Holding.{first_within};
ghost use Rattle.jt_names.specs.Names.{Name};
ghost use Rattle.jt_holders.specs.Table.{depths_in, pushed, taken};

use indexmap::IndexMap;
use jt_syntax::Identifier;
use sqlite_items::Items;
use std::alloc::{AllocError, Global};

/// For each name that some list had, the depths of the open lists that have it, the outermost one first.
#[derive(Drop)]
pub(crate) struct Table {
    alloc: Global,
    pub(crate) depths: IndexMap<Vec<u8>, Items<usize>>,
}

/// The last of the depths that is at most this one, 0 where there is none.
pub(crate) fn last_within(depths: &[usize], depth: usize) -> usize
    ensures { result ≡ first_within depth (reverse depths.now) }
{
    match depths.split_last() {
        None => 0,
        Some((last, rest)) => {
            if *last <= depth {
                *last
            } else {
                last_within(rest, depth)
            }
        }
    }
}

impl Table {
    /// A table with no names.
    pub(crate) fn new(alloc: Global) -> Table
        ensures { (x : Name) → depths_in result.depths.entries x ≡ [] }
    {
        Table {
            alloc,
            depths: IndexMap::new(alloc),
        }
    }

    /// The depths of the open lists that have the name, the outermost one first.
    pub(crate) fn depths_of(&self, name: &[u8]) -> &[usize]
        ensures { reverse result.now ≡ depths_in self.now.depths.entries name.now }
    {
        match self.depths.get(name) {
            None => &[],
            Some(depths) => depths.as_slice(),
        }
    }

    /// Adds a depth to those of the name.
    fn put(&mut self, identifier: &Identifier, depth: usize) -> Result<(), AllocError>
        ensures ok { OnOk result ((x : Name) → depths_in self.new.depths.entries x ≡ pushed (identifier.now ∷ []) depth (depths_in self.old.depths.entries x) x) }
        ensures err { OnErr result ((x : Name) → depths_in self.new.depths.entries x ≡ depths_in self.old.depths.entries x) }
    {
        let key = Vec::from_slice(self.alloc, identifier.name.as_slice())?;
        let depths = self.depths.entry(key)?.or_insert(Items::new(self.alloc));
        depths.push(depth)
    }

    /// Takes the innermost depth from those of the name.
    fn take(&mut self, identifier: &Identifier)
        ensures { (x : Name) → depths_in self.new.depths.entries x ≡ taken (identifier.now ∷ []) (depths_in self.old.depths.entries x) x }
    {
        if let Some(depths) = self.depths.get_mut(identifier.name.as_slice()) {
            depths.pop();
        }
    }

    /// Takes the innermost depth of each of the names.
    pub(crate) fn take_all(&mut self, identifiers: &[Identifier])
        ensures { (x : Name) → depths_in self.new.depths.entries x ≡ taken identifiers.now (depths_in self.old.depths.entries x) x }
    {
        for identifier in identifiers {
            self.take(identifier);
        }
    }

    /// Adds a depth to those of each of the names.
    ///
    /// # Errors
    ///
    /// Where memory is wanting. The depths are then as they were.
    pub(crate) fn put_all(
        &mut self,
        identifiers: &[Identifier],
        depth: usize,
    ) -> Result<(), AllocError>
        ensures ok { OnOk result ((x : Name) → depths_in self.new.depths.entries x ≡ pushed identifiers.now depth (depths_in self.old.depths.entries x) x) }
        ensures err { OnErr result ((x : Name) → depths_in self.new.depths.entries x ≡ depths_in self.old.depths.entries x) }
    {
        for (index, identifier) in identifiers.iter().enumerate() {
            if let Err(error) = self.put(identifier, depth) {
                self.take_all(&identifiers[..index]);
                return Err(error);
            }
        }
        Ok(())
    }
}
