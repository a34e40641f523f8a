//! The scopes round a place.

ghost use Rattle.std.specs.Prelude.{◌≡◌, [], ◌∷◌, drop, length, option_map, IfOk, MatchOption, OnOk, OnErr};
ghost use Rattle.jt_scopes.specs.Awaited as awaited;
ghost use Rattle.jt_scopes.specs.Slots as slots;
ghost use Rattle.jt_places.specs.Standings.{standing_of};
ghost use Rattle.jt_scopes.specs.Tests as spec;

use crate::place::Place;
use crate::standing::Standing;
use jt_holders::Holders;
use jt_scopes::Scope;
use sqlite_items::Items;
use std::alloc::{AllocError, Global};
use std::marker::Model;

/// The scopes round a place. Contracts see them, the innermost one first. A scope's depth is how many
/// scopes there are up to it: the outermost one has the depth 1. What is asked of all scopes takes the
/// same time however many scopes and names there are, but for `crosses`.
#[derive(Drop)]
pub struct Chain<'a> {
    /// The outermost scope first.
    pub(crate) places: Items<Place<'a>>,
    /// The names that each of them has.
    pub(crate) holders: Holders,
}

impl<'a> Model for Chain<'a> {
    ghost use Rattle.std.specs.Prelude.{List, reverse};
    ghost use Rattle.jt_scopes.specs.declared.scope.Scope.{Scope};
    ghost use Rattle.jt_places.specs.Kept.{scopes_in, IsChain};

    ghost Value = { List Scope };

    ghost view = { λ c. scopes_in (reverse c.places) };

    ghost invariant = { λ c. IsChain (reverse c.places) c.holders };
}

impl<'a> Chain<'a> {
    ghost use Rattle.jt_places.specs.Kept.{KeepsScopes};

    /// No scopes.
    pub fn new(alloc: Global) -> Self
        ensures { result ≡ [] }
    {
        Chain {
            places: Items::new(alloc),
            holders: Holders::new(alloc),
        }
    }

    /// A scope begins within the others.
    ///
    /// # Errors
    ///
    /// Where memory is wanting, also for more variables than a `usize` counts. The scopes are then as
    /// they were.
    pub fn enter(&mut self, scope: &'a Scope) -> Result<(), AllocError>
        ensures ok { OnOk result (self.new ≡ scope.now ∷ self.old) }
        ensures err { OnErr result (self.new ≡ self.old) }
    {
        let place = self.place_of(scope)?;
        self.holders.enter(&scope.names)?;
        match self.places.push(place) {
            Ok(()) => Ok(()),
            Err(error) => {
                self.holders.leave();
                Err(error)
            }
        }
    }

    /// The innermost scope ends, if there is one.
    pub fn leave(&mut self)
        ensures { self.new ≡ drop 1 self.old }
    {
        if self.places.pop().is_some() {
            self.holders.leave();
        }
    }

    /// How many scopes there are.
    pub fn depth(&self) -> usize
        ensures { result ≡ length self.now }
    {
        self.places.len()
    }

    /// The innermost of the outermost `depth` scopes.
    pub(crate) fn at(&self, depth: usize) -> Option<Place<'a>>
        ensures { MatchOption result (spec.outer depth self.now ≡ []) (λ p. KeepsScopes p (spec.outer depth self.now)) }
    {
        let depth = depth.min(self.places.len());
        match depth.checked_sub(1) {
            None => None,
            Some(index) => match self.places.get(index) {
                None => None,
                Some(place) => Some(*place),
            },
        }
    }

    /// What is kept of the outermost `depth` scopes.
    pub(crate) fn standing_at(&self, depth: usize) -> Standing
        ensures { result ≡ standing_of (spec.outer depth self.now) }
    {
        match self.at(depth) {
            None => Standing::outside(),
            Some(place) => place.standing,
        }
    }

    /// What is kept of all scopes.
    pub(crate) fn standing(&self) -> Standing
        ensures { result ≡ standing_of self.now }
    {
        self.standing_at(self.places.len())
    }

    /// A scope that begins within the others.
    fn place_of(&self, scope: &'a Scope) -> Result<Place<'a>, AllocError>
        ensures { IfOk result (λ p. KeepsScopes p (scope.now ∷ self.now)) }
    {
        let depth = self.places.len().checked_add(1).ok_or(AllocError)?;
        let first = self.first(scope);
        let room = first.checked_add(scope.names.len()).ok_or(AllocError)?;
        let standing = self.standing().within(scope.kind, depth, room);
        Ok(Place {
            scope,
            first,
            standing,
        })
    }

    /// The slot of a scope's first variable, where the scope begins within these.
    pub fn first(&self, scope: &Scope) -> usize
        ensures { result ≡ slots.first scope.now self.now }
    {
        if scope.is_inner() {
            self.standing().room
        } else {
            scope.captures.len()
        }
    }

    /// Whether the place is in the script's own scope.
    pub fn in_script(&self) -> bool
        ensures { result ≡ spec.in_script self.now }
    {
        self.standing().in_script
    }

    /// Whether a loop is the innermost scope.
    pub fn in_loop(&self) -> bool
        ensures { result ≡ spec.in_loop self.now }
    {
        self.standing().in_loop
    }

    /// Whether the place is in a function or a task's body, and in no `@sync` nearer.
    pub fn in_function(&self) -> bool
        ensures { result ≡ spec.in_function self.now }
    {
        self.standing().in_function
    }

    /// Whether an `@sync` waits for a task that is made there.
    pub fn is_awaited(&self) -> bool
        ensures { result ≡ awaited.is_awaited self.now }
    {
        self.standing().is_awaited
    }

    /// Whether an `@sync` stands round the place in the same function or script, also outside a task's
    /// body.
    pub fn is_synced(&self) -> bool
        ensures { result ≡ awaited.is_synced self.now }
    {
        self.standing().is_synced
    }

    /// How many scopes stand round the innermost task's body of the same function or script, if the
    /// place is in one.
    pub fn outside(&self) -> Option<usize>
        ensures { option_map (λ d. spec.outer d self.now) result ≡ spec.outside self.now }
    {
        let standing = self.standing();
        if standing.task == standing.begin {
            standing.task.checked_sub(1)
        } else {
            None
        }
    }
}
