//! Which of the lists of names that are open have a name.

ghost use Rattle.std.specs.Prelude.{◌≡◌, [], ◌∷◌, drop, length, IfOk, OnOk, OnErr};
ghost use Rattle.jt_holders.specs.Holding as spec;

use crate::table::{Table, last_within};
use jt_names::Names;
use jt_syntax::Identifier;
use sqlite_items::Items;
use std::alloc::{AllocError, Global};
use std::marker::Model;

/// Lists of names that are open, one within the other. Contracts see them, the innermost one first. The
/// innermost list that has a name is found in the same time however many lists and names there are. A
/// list goes by its depth: the outermost one has the depth 1.
#[derive(Drop)]
pub struct Holders {
    alloc: Global,
    /// The outermost list first.
    lists: Items<Items<Identifier>>,
    table: Table,
}

impl Model for Holders {
    ghost use Rattle.std.specs.Prelude.{List, reverse};
    ghost use Rattle.jt_syntax.specs.declared.script.Identifier.{Identifier};
    ghost use Rattle.jt_holders.specs.Table.{IsTableOf};

    ghost Value = { List (List Identifier) };

    ghost view = { λ h. reverse h.lists };

    ghost invariant = { λ h. IsTableOf (reverse h.lists) h.table.depths.entries };
}

impl Holders {
    /// No lists.
    pub fn new(alloc: Global) -> Holders
        ensures { result ≡ [] }
    {
        Holders {
            alloc,
            lists: Items::new(alloc),
            table: Table::new(alloc),
        }
    }

    /// How many lists are open.
    pub fn len(&self) -> usize
        ensures { result ≡ length self.now }
    {
        self.lists.len()
    }

    /// The depth of the innermost list that has the name, 0 where none has it.
    #[tactic(auto, using(crate::proofs::HolderLaws::all_within))]
    pub fn innermost(&self, name: &[u8]) -> usize
        ensures { result ≡ spec.innermost self.now name.now }
    {
        self.innermost_within(self.len(), name)
    }

    /// The depth of the innermost of the outermost `depth` lists that has the name, 0 where none of
    /// them has it. The time grows with the lists further in that have the name.
    #[tactic(auto, using(crate::proofs::HolderLaws::within_told))]
    pub fn innermost_within(&self, depth: usize, name: &[u8]) -> usize
        ensures { result ≡ spec.innermost_within depth self.now name.now }
    {
        last_within(self.table.depths_of(name), depth)
    }

    /// Opens a list within the others.
    ///
    /// # Errors
    ///
    /// Where memory is wanting. The lists are then as they were.
    pub fn enter(&mut self, names: &Names) -> Result<(), AllocError>
        ensures ok { OnOk result (self.new ≡ names.now ∷ self.old) }
        ensures err { OnErr result (self.new ≡ self.old) }
    {
        self.lists.push(copied_all(self.alloc, names.as_slice())?)?;
        let depth = self.lists.len();
        if let Err(error) = self.table.put_all(names.as_slice(), depth) {
            self.lists.pop();
            return Err(error);
        }
        Ok(())
    }

    /// Closes the innermost list, if one is open.
    pub fn leave(&mut self)
        ensures { self.new ≡ drop 1 self.old }
    {
        if let Some(list) = self.lists.pop() {
            self.table.take_all(list.as_slice());
        }
    }
}

/// The same names at the same places.
fn copied_all(alloc: Global, names: &[Identifier]) -> Result<Items<Identifier>, AllocError>
    ensures { IfOk result (λ list. list ≡ names.now) }
{
    let mut list = Items::new(alloc);
    for name in names {
        list.push(name.copied(alloc)?)?;
    }
    Ok(list)
}
