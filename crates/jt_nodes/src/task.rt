//! Tasks and their bodies.

ghost use Rattle.std.specs.Prelude.{◌≡◌, ◌++◌, ◌∷◌, [], map, IfOk, OnOk};
ghost use Rattle.jt_lowered.specs.Nodes.{body_of};
ghost use Rattle.jt_program.specs.Plan as plan;
ghost use Rattle.jt_program.specs.View.{plan_of, body_plan};

use crate::nodes::{Allocated, Node};
use jt_program::{Body, Code, Fork};
use sqlite_items::{Boxed, Items};
use std::alloc::Global;

/// Puts a body behind the others.
#[tactic(auto, using(jt_lowered::proofs::Pushed::map_pushed))]
pub fn push_body(bodies: &mut Items<Body>, variables: usize, code: Node) -> Allocated<()>
    ensures { OnOk result (map body_plan bodies.new ≡ map body_plan bodies.old ++ body_of variables (plan_of code) ∷ []) }
{
    bodies.push(Body {
        variables,
        code: code.into_inner(),
    })
}

/// The making of a task.
pub fn spawn(alloc: Global, body: u32, captured: Items<usize>, is_awaited: bool) -> Allocated
    ensures { IfOk result (λ p. plan_of p ≡ plan.spawn body captured is_awaited) }
{
    let fork = Fork {
        body,
        captured,
        is_awaited,
    };
    Boxed::new(alloc, Code::Spawn(fork))
}
