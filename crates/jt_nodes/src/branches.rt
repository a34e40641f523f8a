//! Branches.

ghost use Rattle.std.specs.Prelude.{◌≡◌, IfOk, map};
ghost use Rattle.jt_program.specs.Plan as plan;
ghost use Rattle.jt_program.specs.View.{plan_of, choices_of, arm_plan};

use crate::lists::push_arm;
use crate::nodes::{Allocated, Node};
use jt_program::{Arm, Code};
use sqlite_items::{Boxed, Items};
use std::alloc::Global;

/// The arms of a branch whose first one has this condition and this body, with more arms behind it.
#[tactic(auto, using(jt_lowered::proofs::Pushed::arms_joined))]
fn arms_of(alloc: Global, condition: Node, body: Node, more: Items<Arm>) -> Allocated<Items<Arm>>
    ensures { IfOk result (λ arms. choices_of (map arm_plan arms) ≡ plan.choice (plan_of condition) (plan_of body) (choices_of (map arm_plan more))) }
{
    let mut arms = Items::new(alloc);
    push_arm(&mut arms, condition, body)?;
    arms.append(more)?;
    Ok(arms)
}

/// A branch whose first arm has this condition and this body, with more arms behind it.
pub fn if_else(
    alloc: Global,
    condition: Node,
    body: Node,
    more: Items<Arm>,
    otherwise: Node,
) -> Allocated
    ensures { IfOk result (λ p. plan_of p ≡ plan.branch (plan.choice (plan_of condition) (plan_of body) (choices_of (map arm_plan more))) (plan_of otherwise)) }
{
    let arms = arms_of(alloc, condition, body, more)?;
    Boxed::new(alloc, Code::Branch(arms, otherwise))
}

/// A branch of two ways.
pub fn conditional(alloc: Global, condition: Node, value: Node, otherwise: Node) -> Allocated
    ensures { IfOk result (λ p. plan_of p ≡ plan.branch (plan.choice (plan_of condition) (plan_of value) plan.no_choices) (plan_of otherwise)) }
{
    if_else(alloc, condition, value, Items::new(alloc), otherwise)
}
