//! Where the walk over a script stands.

ghost use Rattle.std.specs.Prelude.{◌≡◌, [], IfOk, OnOk, map};
ghost use Rattle.jt_bound.specs.Made.{made};
ghost use Rattle.jt_bound.specs.States as spec;
ghost use Rattle.jt_bind.specs.Walks.{state};
ghost use Rattle.jt_program.specs.View.{plan_of, body_plan};

use crate::task::{add_body, making_of, making_of_nothing};
use jt_bound::Making;
use jt_nodes::{Allocated, Node, spawn};
use jt_places::Chain;
use jt_program::Body;
use jt_scopes::Scope;
use sqlite_items::Items;
use std::alloc::Global;
use std::mem::replace;

/// Where the walk over a script stands.
#[derive(Drop)]
pub(crate) struct Walk<'a> {
    /// The scopes round the place.
    pub chain: Chain<'a>,
    /// The scopes that are still to begin, in the order in which they do.
    pub coming: &'a [Scope],
    /// The bodies of the tasks before the place.
    pub bodies: Items<Body>,
}

impl<'a> Walk<'a> {
    /// The begin of a script that has these scopes.
    pub(crate) fn new(alloc: Global, scopes: &'a [Scope]) -> Walk<'a>
        ensures { state result ≡ spec.standing [] scopes.now [] }
    {
        Walk {
            chain: Chain::new(alloc),
            coming: scopes,
            bodies: Items::new(alloc),
        }
    }

    /// The next scope begins.
    pub(crate) fn enter(&mut self) -> Allocated<()>
        ensures { OnOk result (state self.new ≡ spec.entered (state self.old)) }
    {
        match self.coming {
            [] => Ok(()),
            [scope, coming @ ..] => {
                self.chain.enter(scope)?;
                self.coming = coming;
                Ok(())
            }
        }
    }

    /// The innermost scope ends.
    pub(crate) fn leave(&mut self)
        ensures { state self.new ≡ spec.left (state self.old) }
    {
        self.chain.leave();
    }

    /// How many variables the scope has that begins next.
    pub(crate) fn count(&self) -> usize
        ensures { result ≡ spec.count (state self.now) }
    {
        match self.coming {
            [] => 0,
            [scope, ..] => scope.names.len(),
        }
    }

    /// The slot of its first variable.
    pub(crate) fn start(&self) -> usize
        ensures { result ≡ spec.start (state self.now) }
    {
        match self.coming {
            [] => 0,
            [scope, ..] => self.chain.first(scope),
        }
    }

    /// What is known of a task whose body has it.
    pub(crate) fn making(&self, alloc: Global) -> Allocated<Making>
        ensures { IfOk result (λ m. m ≡ spec.making (state self.now)) }
    {
        match self.coming {
            [] => Ok(making_of_nothing(alloc, &self.chain)),
            [scope, ..] => making_of(alloc, &self.chain, scope),
        }
    }

    /// A task with this body is made, and its body goes behind the others.
    pub(crate) fn fork(&mut self, alloc: Global, making: Making, code: Node) -> Allocated
        ensures { IfOk result (λ p. spec.forked making (made (plan_of code) (state self.old)) ≡ made (plan_of p) (state self.new)) }
    {
        let Making {
            variables,
            captured,
            is_awaited,
            is_synced,
        } = making;
        let body = add_body(alloc, &mut self.bodies, variables, is_synced, code)?;
        spawn(alloc, body, captured, is_awaited)
    }

    /// Gives the bodies of all tasks so far away.
    pub(crate) fn take_bodies(&mut self, alloc: Global) -> Items<Body>
        ensures { map body_plan result ≡ (state self.old).bodies }
    {
        replace(&mut self.bodies, Items::new(alloc))
    }
}
