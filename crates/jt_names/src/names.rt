//! Names with the places where they first stand.

ghost use Rattle.std.specs.Prelude.{◌≡◌, [], length, OnOk, OnErr};
ghost use Rattle.jt_names.specs.Names as spec;

use crate::firsts::Firsts;
use jt_syntax::Identifier;
use sqlite_items::Items;
use std::alloc::{AllocError, Global};
use std::marker::Model;

/// Names in the order in which they were added, each once, with the place where it then stood.
/// Contracts see the list of them. A name is found in the same time however many there are.
#[derive(Drop)]
pub struct Names {
    list: Items<Identifier>,
    firsts: Firsts,
}

impl Model for Names {
    ghost use Rattle.std.specs.Prelude.{List};
    ghost use Rattle.jt_syntax.specs.declared.script.Identifier.{Identifier};
    ghost use Rattle.jt_names.specs.Lookup.{AreFirstsOf};

    ghost Value = { List Identifier };

    ghost view = { λ n. n.list };

    ghost invariant = { λ n. AreFirstsOf n.firsts.places.entries n.list };
}

impl Names {
    /// No names.
    pub fn new(alloc: Global) -> Names
        ensures { result ≡ [] }
    {
        Names {
            list: Items::new(alloc),
            firsts: Firsts::new(alloc),
        }
    }

    /// The names in order, with their places.
    pub fn as_slice(&self) -> &[Identifier]
        ensures { result.now ≡ self.now }
    {
        self.list.as_slice()
    }

    /// How many names there are.
    pub fn len(&self) -> usize
        ensures { result ≡ length self.now }
    {
        self.list.len()
    }

    /// Whether the name is among them.
    #[tactic(auto, using(crate::proofs::Lookup::has_index))]
    pub fn has(&self, name: &[u8]) -> bool
        ensures { result ≡ spec.member self.now name.now }
    {
        self.index(name).is_some()
    }

    /// How many names stand before this one, if it is among them.
    pub fn index(&self, name: &[u8]) -> Option<usize>
        ensures { result ≡ spec.index self.now name.now }
    {
        self.firsts.get(name)
    }

    /// Where this name stood when it was added.
    pub fn place_of(&self, name: &[u8]) -> Option<u32>
        ensures { result ≡ spec.place_of self.now name.now }
    {
        Some(self.list.get(self.index(name)?)?.at)
    }

    /// Adds the name, where it is not among them.
    ///
    /// # Errors
    ///
    /// Where memory is wanting. The names are then as they were.
    pub fn add(&mut self, alloc: Global, identifier: &Identifier) -> Result<(), AllocError>
        ensures ok { OnOk result (self.new ≡ spec.add self.old identifier.now) }
        ensures err { OnErr result (self.new ≡ self.old) }
    {
        let name = identifier.name.as_slice();
        if self.has(name) {
            return Ok(());
        }
        let index = self.list.len();
        self.list.push(identifier.copied(alloc)?)?;
        if let Err(error) = self.firsts.add(name, index) {
            self.list.pop();
            return Err(error);
        }
        Ok(())
    }

    /// Adds each of these names, where it is not among them.
    ///
    /// # Errors
    ///
    /// Where memory is wanting.
    pub fn add_all(&mut self, alloc: Global, identifiers: &[Identifier]) -> Result<(), AllocError>
        ensures { OnOk result (self.new ≡ spec.add_all self.old identifiers.now) }
    {
        for identifier in identifiers {
            self.add(alloc, identifier)?;
        }
        Ok(())
    }
}

/// Whether the name is `nothing`.
pub fn is_nothing(name: &[u8]) -> bool
    ensures { result ≡ spec.is_nothing name.now }
{
    name == b"nothing".as_slice()
}
