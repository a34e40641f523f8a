//! Where names stand first.

ghost use Rattle.std.specs.Prelude.{◌≡◌, Some, None, if◌then◌else◌, OnOk, OnErr};
ghost use Rattle.std.specs.Option.{option_or};
ghost use Rattle.jt_syntax.specs.Bytes.{same_bytes};
ghost use Rattle.jt_names.specs.Lookup.{found};
ghost use Rattle.jt_names.specs.Names.{Name};

use indexmap::IndexMap;
use std::alloc::{AllocError, Global};

/// Of each name that stands in a list, how many others stand before the first that is the same. It is
/// found in the same time however many names there are.
#[derive(Drop)]
pub struct Firsts {
    alloc: Global,
    pub places: IndexMap<Vec<u8>, usize>,
}

impl Firsts {
    /// No names.
    pub fn new(alloc: Global) -> Firsts
        ensures { (x : Name) → found result.places.entries x ≡ None }
    {
        Firsts {
            alloc,
            places: IndexMap::new(alloc),
        }
    }

    /// How many names stand before the first that is this one.
    pub fn get(&self, name: &[u8]) -> Option<usize>
        ensures { result ≡ found self.now.places.entries name.now }
    {
        self.places.get(name).copied()
    }

    /// Adds a name with so many others before it.
    ///
    /// # Errors
    ///
    /// Where memory is wanting. The names are then as they were.
    pub fn add(&mut self, name: &[u8], place: usize) -> Result<(), AllocError>
        ensures ok { OnOk result ((x : Name) → found self.new.places.entries x ≡ option_or (found self.old.places.entries x) (if same_bytes name.now x then Some place else None)) }
        ensures err { OnErr result (self.new.places.entries ≡ self.old.places.entries) }
    {
        let key = Vec::from_slice(self.alloc, name)?;
        self.places.entry(key)?.or_insert(place);
        Ok(())
    }
}
