//! The functions of a script with their names.

ghost use Rattle.std.specs.Prelude.{◌≡◌, [], ◌∷◌, ◌++◌, length, OnOk, OnErr};
ghost use Rattle.std.specs.Option.{option_copied};
ghost use Rattle.jt_names.specs.Tops as spec;

use jt_names::{Firsts, Signature};
use jt_syntax::Identifier;
use sqlite_items::Items;
use std::alloc::{AllocError, Global};
use std::marker::Model;

/// The functions of a script in order, also those that have the name of an earlier one. Contracts see
/// the list of them. A function is found by its name in the same time however many there are.
#[derive(Drop)]
pub struct Functions {
    list: Items<Signature>,
    firsts: Firsts,
}

impl Model for Functions {
    ghost use Rattle.std.specs.Prelude.{List};
    ghost use Rattle.jt_names.specs.declared.functions.Signature.{Signature};
    ghost use Rattle.jt_names.specs.Lookup.{AreFirstsOf, names_of};

    ghost Value = { List Signature };

    ghost view = { λ f. f.list };

    ghost invariant = { λ f. AreFirstsOf f.firsts.places.entries (names_of f.list) };
}

impl Functions {
    /// No functions.
    pub(crate) fn new(alloc: Global) -> Functions
        ensures { result ≡ [] }
    {
        Functions {
            list: Items::new(alloc),
            firsts: Firsts::new(alloc),
        }
    }

    /// How many functions there are.
    pub fn len(&self) -> usize
        ensures { result ≡ length self.now }
    {
        self.list.len()
    }

    /// How many functions stand before the first of this name.
    pub fn index(&self, name: &[u8]) -> Option<usize>
        ensures { result ≡ spec.function_index self.now name.now }
    {
        self.firsts.get(name)
    }

    /// The first function of this name.
    pub fn get(&self, name: &[u8]) -> Option<&Signature>
        ensures { option_copied result ≡ spec.signature_of self.now name.now }
    {
        self.list.get(self.index(name)?)
    }

    /// Where the name of that function stands.
    pub fn place_of(&self, name: &[u8]) -> Option<u32>
        ensures { result ≡ spec.function_place (spec.signature_of self.now name.now) }
    {
        Some(self.get(name)?.name.at)
    }

    /// Puts the function of this name with so many parameters behind them.
    ///
    /// # Errors
    ///
    /// Where memory is wanting. The functions are then as they were.
    pub(crate) fn push(
        &mut self,
        alloc: Global,
        name: &Identifier,
        parameters: usize,
    ) -> Result<(), AllocError>
        ensures ok { OnOk result (self.new ≡ self.old ++ record { name = name.now; parameters = parameters } ∷ []) }
        ensures err { OnErr result (self.new ≡ self.old) }
    {
        let index = self.list.len();
        let function = Signature {
            name: name.copied(alloc)?,
            parameters,
        };
        self.list.push(function)?;
        if let Err(error) = self.firsts.add(name.name.as_slice(), index) {
            self.list.pop();
            return Err(error);
        }
        Ok(())
    }
}
