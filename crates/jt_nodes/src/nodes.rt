//! Nodes that are one constructor over their parts.

ghost use Rattle.std.specs.Prelude.{◌≡◌, IfOk, map};
ghost use Rattle.jt_lowered.specs.Lowered.{operated};
ghost use Rattle.jt_program.specs.Plan as plan;
ghost use Rattle.jt_program.specs.View.{plan_of, plans, pieces_of, piece_plan};

use crate::lists::push_operand;
use jt_program::{Callee, Code, Literal, Piece};
use jt_syntax::{ArithmeticOperator, UnaryOperator};
use sqlite_items::{Boxed, Items};
use std::alloc::{AllocError, Global};

/// A part of a program.
pub type Node = Boxed<Code>;

/// What was made, unless memory was wanting.
pub type Allocated<T = Node> = Result<T, AllocError>;

pub fn literal(alloc: Global, literal: Literal) -> Allocated
    ensures { IfOk result (λ p. plan_of p ≡ plan.literal literal) }
{
    Boxed::new(alloc, Code::Literal(literal))
}

pub fn define(alloc: Global, constant: usize, value: Node) -> Allocated
    ensures { IfOk result (λ p. plan_of p ≡ plan.define constant (plan_of value)) }
{
    Boxed::new(alloc, Code::Define(constant, value))
}

pub fn unary(alloc: Global, operator: UnaryOperator, operand: Node) -> Allocated
    ensures { IfOk result (λ p. plan_of p ≡ plan.unary operator (plan_of operand)) }
{
    Boxed::new(alloc, Code::Unary(operator, operand))
}

/// An operation with one operand behind the first.
pub fn operation_of_two(
    alloc: Global,
    first: Node,
    operator: ArithmeticOperator,
    second: Node,
) -> Allocated
    ensures { IfOk result (λ p. plan_of p ≡ operated (plan_of first) operator (plan_of second)) }
{
    let mut operands = Items::new(alloc);
    push_operand(&mut operands, operator, second)?;
    Boxed::new(alloc, Code::Operation(first, operands))
}

pub fn block(alloc: Global, parts: Items<Code>) -> Allocated
    ensures { IfOk result (λ p. plan_of p ≡ plan.block (plans parts)) }
{
    Boxed::new(alloc, Code::Block(parts))
}

pub fn call(alloc: Global, callee: Callee, arguments: Items<Code>) -> Allocated
    ensures { IfOk result (λ p. plan_of p ≡ plan.call callee (plans arguments)) }
{
    Boxed::new(alloc, Code::Call(callee, arguments))
}

pub fn print(alloc: Global, pieces: Items<Piece>) -> Allocated
    ensures { IfOk result (λ p. plan_of p ≡ plan.print (pieces_of (map piece_plan pieces))) }
{
    Boxed::new(alloc, Code::Print(pieces))
}

pub fn error(alloc: Global, text: &[u8]) -> Allocated
    ensures { IfOk result (λ p. plan_of p ≡ plan.error text.now) }
{
    let text = Items::from_slice(alloc, text)?;
    Boxed::new(alloc, Code::Error(text))
}

pub fn return_value(alloc: Global, value: Node) -> Allocated
    ensures { IfOk result (λ p. plan_of p ≡ plan.return (plan_of value)) }
{
    Boxed::new(alloc, Code::Return(value))
}

pub fn break_loop(alloc: Global) -> Allocated
    ensures { IfOk result (λ p. plan_of p ≡ plan.break) }
{
    Boxed::new(alloc, Code::Break)
}

pub fn continue_loop(alloc: Global) -> Allocated
    ensures { IfOk result (λ p. plan_of p ≡ plan.continue) }
{
    Boxed::new(alloc, Code::Continue)
}

pub fn sync(alloc: Global, part: Node) -> Allocated
    ensures { IfOk result (λ p. plan_of p ≡ plan.sync (plan_of part)) }
{
    Boxed::new(alloc, Code::Sync(part))
}
