//! A scope of a chain.

ghost use Rattle.std.specs.Prelude.{◌≡◌, ◌+◌, length, Option, None};
ghost use Rattle.jt_names.specs.Names.{index};
ghost use Rattle.jt_scopes.specs.Slots.{behind};

use crate::standing::Standing;
use jt_scopes::Scope;

/// A scope of a chain, with what is kept of the scopes up to it.
#[derive(Clone, Copy)]
pub(crate) struct Place<'a> {
    pub scope: &'a Scope,
    /// The slot of its first variable.
    pub first: usize,
    pub standing: Standing,
}

impl<'a> Place<'a> {
    /// The slot of the scope's variable of this name, if it has one.
    pub(crate) fn slot(self, name: &[u8]) -> Option<usize>
        requires { self.standing.room ≡ self.first + length self.scope.now.names }
        ensures { result ≡ behind self.entry.first (index self.entry.scope.now.names name.now) None }
    {
        let _room = self.standing.room;
        match self.scope.names.index(name) {
            None => None,
            Some(index) => Some(self.first + index),
        }
    }
}
