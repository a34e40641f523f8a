//! What literals, operators and calls of a script are in a program.

ghost use Rattle.std.specs.Prelude.{◌≡◌, IfOk};
ghost use Rattle.jt_lowered.specs.Lowered as spec;
ghost use Rattle.jt_program.specs.Plan as plan;
ghost use Rattle.jt_program.specs.View.{plan_of};

use crate::nodes::{Allocated, Node, literal, operation_of_two};
use jt_functions::Function;
use jt_lowered::Target;
use jt_num::wrap_word;
use jt_program::{BuiltIn, Callee, Code, Literal};
use jt_signatures::Functions;
use jt_syntax::{ArithmeticOperator, AssignmentOperator, BinaryOperator, ComparisonOperator};
use sqlite_items::Boxed;
use std::alloc::Global;

pub fn number(alloc: Global, n: u64) -> Allocated
    ensures { IfOk result (λ p. plan_of p ≡ spec.number_literal n) }
{
    literal(alloc, Literal::Int(wrap_word(n)))
}

pub fn nothing(alloc: Global) -> Allocated
    ensures { IfOk result (λ p. plan_of p ≡ spec.nothing_literal) }
{
    literal(alloc, Literal::Nothing)
}

/// The use of a name.
pub fn written(alloc: Global, target: Target) -> Allocated
    ensures { IfOk result (λ p. plan_of p ≡ spec.written target) }
{
    match target {
        Target::Slot(slot) => Boxed::new(alloc, Code::Variable(slot)),
        Target::Constant(number) => Boxed::new(alloc, Code::Constant(number)),
        Target::Nothing => nothing(alloc),
    }
}

/// The operator of an operation: in a chain of one of the classes from `+` on all are arithmetic.
pub(crate) fn operation_operator(operator: BinaryOperator) -> ArithmeticOperator
    ensures { result ≡ spec.operation_of operator }
{
    match operator {
        BinaryOperator::Arithmetic(operator) => operator,
        BinaryOperator::Comparison(_) | BinaryOperator::Connective(_) => ArithmeticOperator::Add,
    }
}

/// The operator of a comparison: in a chain of comparisons all are such.
pub(crate) fn comparison_operator(operator: BinaryOperator) -> ComparisonOperator
    ensures { result ≡ spec.comparison_of operator }
{
    match operator {
        BinaryOperator::Comparison(operator) => operator,
        BinaryOperator::Arithmetic(_) | BinaryOperator::Connective(_) => ComparisonOperator::Equal,
    }
}

/// What an assignment writes, where the name has this meaning and the expression this value.
fn updated(alloc: Global, operator: AssignmentOperator, old: Target, value: Node) -> Allocated
    ensures { IfOk result (λ p. plan_of p ≡ spec.updated operator (spec.written old) (plan_of value)) }
{
    match operator {
        AssignmentOperator::Plain => Ok(value),
        AssignmentOperator::Plus => combined(alloc, old, ArithmeticOperator::Add, value),
        AssignmentOperator::Minus => combined(alloc, old, ArithmeticOperator::Subtract, value),
        AssignmentOperator::Times => combined(alloc, old, ArithmeticOperator::Multiply, value),
        AssignmentOperator::Divide => combined(alloc, old, ArithmeticOperator::Divide, value),
        AssignmentOperator::Remainder => combined(alloc, old, ArithmeticOperator::Remainder, value),
    }
}

fn combined(alloc: Global, old: Target, operator: ArithmeticOperator, value: Node) -> Allocated
    ensures { IfOk result (λ p. plan_of p ≡ spec.operated (spec.written old) operator (plan_of value)) }
{
    let old = written(alloc, old)?;
    operation_of_two(alloc, old, operator, value)
}

/// An assignment to the variable in the slot, where the name has this meaning.
pub fn assignment(
    alloc: Global,
    slot: usize,
    operator: AssignmentOperator,
    old: Target,
    value: Node,
) -> Allocated
    ensures { IfOk result (λ p. plan_of p ≡ plan.assign slot (spec.updated operator (spec.written old) (plan_of value))) }
{
    let value = updated(alloc, operator, old, value)?;
    Boxed::new(alloc, Code::Assign(slot, value))
}

/// The functions of the language that a program calls.
fn built_in(function: Function) -> Option<BuiltIn>
    ensures { result ≡ spec.built_in_of function }
{
    match function {
        Function::Div => Some(BuiltIn::Div),
        Function::Rem => Some(BuiltIn::Rem),
        Function::Mod => Some(BuiltIn::Mod),
        Function::Fetch => Some(BuiltIn::Fetch),
        Function::Wait => Some(BuiltIn::Wait),
        Function::Yield => Some(BuiltIn::Yield),
        Function::Close | Function::IsOpen | Function::IsReady | Function::Take => None,
        Function::Notify | Function::Reset | Function::Lock | Function::Unlock => None,
        Function::Acquire | Function::Release | Function::Put | Function::AtomicAdd => None,
        Function::AtomicSub | Function::AtomicXchg | Function::AtomicCas => None,
        Function::Condition | Function::ReentrantLock | Function::Semaphore => None,
        Function::Event => None,
    }
}

/// What a call of this name calls: a function of the language before one of the script.
pub fn callee(functions: &Functions, name: &[u8]) -> Callee
    ensures { result ≡ spec.callee_of functions.now name.now }
{
    match Function::named(name).and_then(built_in) {
        Some(function) => Callee::BuiltIn(function),
        None => Callee::Function(functions.index(name).unwrap_or(functions.len())),
    }
}
