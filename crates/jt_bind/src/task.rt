//! The making of tasks: what a body's scope and the scopes round it say of it.

ghost use Rattle.std.specs.Prelude.{◌≡◌, ◌+◌, ◌++◌, ◌∷◌, [], suc, length, map, IfOk, OnOk};
ghost use Rattle.jt_bound.specs.Making as spec;
ghost use Rattle.jt_bound.specs.Slots as slots;
ghost use Rattle.jt_bound.specs.States as states;
ghost use Rattle.jt_lowered.specs.Nodes.{body_of};
ghost use Rattle.jt_program.specs.View.{plan_of, body_plan};

use crate::target::slot_of;
use jt_bound::Making;
use jt_nodes::{Allocated, Node, push_body, sync};
use jt_places::Chain;
use jt_program::Body;
use jt_scopes::Scope;
use jt_syntax::Identifier;
use sqlite_items::Items;
use std::alloc::{AllocError, Global};

/// Where the maker of a task has what the task takes.
fn slots_of(alloc: Global, chain: &Chain<'_>, names: &[Identifier]) -> Allocated<Items<usize>>
    ensures { IfOk result (λ p. p ≡ slots.slots_of chain.now names.now) }
{
    let mut slots = Items::new(alloc);
    for identifier in names {
        slots.push(slot_of(chain, identifier.name.as_slice()))?;
    }
    Ok(slots)
}

/// `a + b`. More variables than memory has bytes are want of memory.
fn plus(a: usize, b: usize) -> Allocated<usize>
    ensures { IfOk result (λ n. n ≡ a + b) }
{
    a.checked_add(b).ok_or(AllocError)
}

/// That of a task whose body has this scope, where the task is made in these scopes.
pub(crate) fn making_of(alloc: Global, chain: &Chain<'_>, scope: &Scope) -> Allocated<Making>
    ensures { IfOk result (λ m. m ≡ spec.making_of scope.now chain.now) }
{
    let variables = plus(scope.captures.len(), scope.names.len())?;
    let captured = slots_of(alloc, chain, scope.captures.as_slice())?;
    Ok(Making {
        variables,
        captured,
        is_awaited: chain.is_awaited(),
        is_synced: chain.is_synced(),
    })
}

/// That of a task whose body has a scope with no names.
pub(crate) fn making_of_nothing(alloc: Global, chain: &Chain<'_>) -> Making
    ensures { result ≡ spec.making_of (states.next_of []) chain.now }
{
    Making {
        variables: 0,
        captured: Items::new(alloc),
        is_awaited: chain.is_awaited(),
        is_synced: chain.is_synced(),
    }
}

/// The number of a task's body behind so many others: the main task's is 0. More bodies than a `u32`
/// counts are want of memory.
fn body_number(earlier: usize) -> Allocated<u32>
    ensures { IfOk result (λ n. n ≡ suc earlier) }
{
    match u32::try_from(earlier) {
        Ok(number) => number.checked_add(1).ok_or(AllocError),
        Err(_) => Err(AllocError),
    }
}

/// What a task does, where its body is this.
fn task_code(alloc: Global, is_synced: bool, code: Node) -> Allocated
    ensures { IfOk result (λ p. plan_of p ≡ spec.synced is_synced (plan_of code)) }
{
    if is_synced {
        sync(alloc, code)
    } else {
        Ok(code)
    }
}

/// Puts a task's body behind the others, and gives its number.
pub(crate) fn add_body(
    alloc: Global,
    bodies: &mut Items<Body>,
    variables: usize,
    is_synced: bool,
    code: Node,
) -> Allocated<u32>
    ensures number { IfOk result (λ n. n ≡ suc (length bodies.old)) }
    ensures bodies { OnOk result (map body_plan bodies.new ≡ map body_plan bodies.old ++ body_of variables (spec.synced is_synced (plan_of code)) ∷ []) }
{
    let number = body_number(bodies.len())?;
    let code = task_code(alloc, is_synced, code)?;
    push_body(bodies, variables, code)?;
    Ok(number)
}
