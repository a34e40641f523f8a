//! Loops.

ghost use Rattle.std.specs.Prelude.{◌≡◌, IfOk};
ghost use Rattle.jt_lowered.specs.Loops.{while_of, for_of};
ghost use Rattle.jt_nodes.specs.Views.{turn_plan};
ghost use Rattle.jt_program.specs.View.{plan_of};

use crate::nodes::{Allocated, Node};
use jt_program::Code;
use sqlite_items::Boxed;
use std::alloc::Global;

/// A loop's body, with the slot of the first of its own variables and how many it has.
#[derive(Drop)]
pub struct Turn {
    pub start: usize,
    pub count: usize,
    pub body: Node,
}

pub fn while_loop(alloc: Global, condition: Node, turn: Turn) -> Allocated
    ensures { IfOk result (λ p. plan_of p ≡ while_of (plan_of condition) (turn_plan turn)) }
{
    let Turn { start, count, body } = turn;
    Boxed::new(alloc, Code::While(start, count, condition, body))
}

pub fn for_loop(alloc: Global, first: Node, last: Node, turn: Turn) -> Allocated
    ensures { IfOk result (λ p. plan_of p ≡ for_of (plan_of first) (plan_of last) (turn_plan turn)) }
{
    let Turn { start, count, body } = turn;
    Boxed::new(alloc, Code::For(start, count, first, last, body))
}
