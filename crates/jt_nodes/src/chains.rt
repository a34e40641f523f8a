//! Chains of operators of one class.

ghost use Rattle.std.specs.Prelude.{◌≡◌, IfOk, OnOk};
ghost use Rattle.jt_lowered.specs.Chains as spec;
ghost use Rattle.jt_nodes.specs.Views.{operands_plan};
ghost use Rattle.jt_program.specs.View.{plan_of};

use crate::lists::{push, push_operand};
use crate::lowered::{comparison_operator, operation_operator};
use crate::nodes::{Allocated, Node};
use jt_program::Code;
use jt_syntax::{ArithmeticOperator, BinaryOperator, Class, ComparisonOperator, Connective};
use sqlite_items::{Boxed, Items};
use std::alloc::Global;

/// The operands of a chain behind its first one, as a program holds those of its class.
#[derive(Drop)]
pub enum Operands {
    Connection(Connective, Items<Code>),
    Comparison(Items<(ComparisonOperator, Code)>),
    Operation(Items<(ArithmeticOperator, Code)>),
}

impl Operands {
    /// None yet, of a chain of this class.
    pub fn new(alloc: Global, class: Class) -> Operands
        ensures { operands_plan result ≡ spec.none_of class }
    {
        match class {
            Class::Or => Operands::Connection(Connective::Or, Items::new(alloc)),
            Class::And => Operands::Connection(Connective::And, Items::new(alloc)),
            Class::Comparison => Operands::Comparison(Items::new(alloc)),
            Class::Sum | Class::Product | Class::Shift => Operands::Operation(Items::new(alloc)),
        }
    }

    /// Puts one more operand behind the others, with the operator between.
    pub fn push(&mut self, operator: BinaryOperator, operand: Node) -> Allocated<()>
        ensures { OnOk result (operands_plan self.new ≡ spec.one_more (operands_plan self.old) operator (plan_of operand)) }
    {
        match self {
            Operands::Connection(_, operands) => push(operands, operand),
            Operands::Comparison(operands) => {
                push_operand(operands, comparison_operator(operator), operand)
            }
            Operands::Operation(operands) => {
                push_operand(operands, operation_operator(operator), operand)
            }
        }
    }

    /// The chain that has this operand before them.
    pub fn into_chain(self, alloc: Global, first: Node) -> Allocated
        ensures { IfOk result (λ p. plan_of p ≡ spec.chain_of (operands_plan self) (plan_of first)) }
    {
        match self {
            Operands::Connection(connective, operands) => {
                Boxed::new(alloc, Code::Connection(connective, first, operands))
            }
            Operands::Comparison(operands) => Boxed::new(alloc, Code::Comparison(first, operands)),
            Operands::Operation(operands) => Boxed::new(alloc, Code::Operation(first, operands)),
        }
    }
}

/// A guard: its operands, and its jump as the last one.
pub fn guard(
    alloc: Global,
    connective: Connective,
    first: Node,
    operands: Operands,
    last: Node,
) -> Allocated
    ensures { IfOk result (λ p. plan_of p ≡ spec.guard_of connective (operands_plan operands) (plan_of last) (plan_of first)) }
{
    let mut operands = operands;
    operands.push(BinaryOperator::Connective(connective), last)?;
    operands.into_chain(alloc, first)
}
