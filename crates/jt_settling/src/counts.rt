//! How often names were assigned.

ghost use Rattle.std.specs.Prelude.{◌≡◌, ◌++◌, map, drop, [], OnOk};
ghost use Rattle.jt_syntax.specs.declared.script.Identifier.{Identifier as Item};
ghost use Rattle.jt_names.specs.Names.{add_where};
ghost use Rattle.jt_settling.specs.Counting as spec;

use indexmap::IndexMap;
use jt_names::Names;
use jt_syntax::Identifier;
use sqlite_items::Items;
use std::alloc::{AllocError, Global};
use std::marker::Model;

/// How often each name was assigned; 255 stands for more, too. Contracts see the names with their
/// numbers.
#[derive(Drop)]
pub(crate) struct Counts {
    alloc: Global,
    numbers: IndexMap<Vec<u8>, u8>,
}

impl Model for Counts {
    ghost use Rattle.std.specs.Prelude.{ℕ, List, map};
    ghost use Rattle.jt_names.specs.Names.{Name};

    ghost Value = { List (Name × ℕ) };

    ghost view = { λ c. map (λ e. (e.0.items, e.1)) c.numbers.entries };
}

impl Counts {
    /// No name was assigned.
    pub(crate) fn new(alloc: Global) -> Counts
        ensures { result ≡ [] }
    {
        Counts {
            alloc,
            numbers: IndexMap::new(alloc),
        }
    }

    /// How often the name was assigned.
    #[tactic(auto, using(crate::proofs::Numbers::number_found))]
    fn get(&self, name: &[u8]) -> u8
        ensures { result ≡ spec.number self.now name.now }
    {
        self.numbers.get(name).copied().unwrap_or(0)
    }

    /// From now on the name was assigned so often.
    fn set(&mut self, name: &Identifier, number: u8) -> Result<(), AllocError>
        ensures { OnOk result (self.new ≡ spec.with_number self.old name.now number) }
    {
        let key = Vec::from_slice(self.alloc, name.name.as_slice())?;
        self.numbers.insert(key, number)?;
        Ok(())
    }

    /// One more assignment to the name.
    pub(crate) fn count(&mut self, name: &Identifier) -> Result<(), AllocError>
        ensures { OnOk result (self.new ≡ spec.counted self.old name.now) }
    {
        let number = self.get(name.name.as_slice());
        self.set(name, number.saturating_add(1))
    }

    /// Adds how often each of these was assigned.
    pub(crate) fn add_numbers(
        &self,
        numbers: &mut Items<u8>,
        names: &[Identifier],
    ) -> Result<(), AllocError>
        ensures { OnOk result (numbers.new ≡ numbers.old ++ map (λ (i : Item). spec.number self.now i.name) names.now) }
    {
        for name in names {
            numbers.push(self.get(name.name.as_slice()))?;
        }
        Ok(())
    }

    /// From now on each of these was assigned as often as these numbers say, and never where there is no
    /// number.
    pub(crate) fn restore(&mut self, names: &[Identifier], numbers: &[u8]) -> Result<(), AllocError>
        ensures { OnOk result (self.new ≡ spec.restored self.old names.now numbers.now) }
    {
        for (index, name) in names.iter().enumerate() {
            self.set(name, number_at(numbers, index))?;
        }
        Ok(())
    }

    /// Adds those of the names that were assigned more than once.
    pub(crate) fn add_again(
        &self,
        again: &mut Names,
        names: &[Identifier],
    ) -> Result<(), AllocError>
        ensures { OnOk result (again.new ≡ add_where (spec.is_again self.now) again.old names.now) }
    {
        for name in names {
            if self.get(name.name.as_slice()) > 1 {
                again.add(self.alloc, name)?;
            }
        }
        Ok(())
    }
}

/// The number behind so many others, 0 where there is none.
fn number_at(numbers: &[u8], index: usize) -> u8
    ensures { result ≡ spec.first_number (drop index numbers.now) }
{
    numbers.get(index).copied().unwrap_or(0)
}
