//! Variables by number: what a task's body captures stands first, and a loop's variables stand behind
//! those of the scopes round it.

ghost use Rattle.std.specs.Prelude.{◌≡◌};
ghost use Rattle.jt_places.specs.Kept.{capture_in, slot_in};
ghost use Rattle.jt_scopes.specs.Slots as spec;
ghost use Rattle.jt_scopes.specs.Tests.{outer};

use crate::chain::Chain;

impl<'a> Chain<'a> {
    /// The slot of the variable of the nearest scope that has the name, in the same function, task's
    /// body or script.
    pub fn local(&self, name: &[u8]) -> Option<usize>
        ensures { result ≡ spec.local self.now name.now }
    {
        let holder = self.holders.innermost(name);
        if holder < self.standing().begin {
            None
        } else {
            self.slot_at(holder, name)
        }
    }

    /// The slot of the variable of this name that the innermost of the outermost `depth` scopes has.
    fn slot_at(&self, depth: usize, name: &[u8]) -> Option<usize>
        ensures { result ≡ slot_in (outer depth self.now) name.now }
    {
        match self.at(depth) {
            None => None,
            Some(place) => place.slot(name),
        }
    }

    /// The slot of what the innermost function's or task's body captured under the name.
    pub fn captured(&self, name: &[u8]) -> Option<usize>
        ensures { result ≡ spec.captured self.now name.now }
    {
        self.capture_at(self.standing().begin, name)
    }

    /// The slot of what the innermost of the outermost `depth` scopes captured under the name.
    fn capture_at(&self, depth: usize, name: &[u8]) -> Option<usize>
        ensures { result ≡ capture_in (outer depth self.now) name.now }
    {
        match self.at(depth) {
            None => None,
            Some(place) => place.scope.captures.index(name),
        }
    }
}
