//! What is left to do once a part has ended.

use crate::line::Line;
use crate::small::{SmallFault, SmallValue};
use jt_base::Path;
use jt_program::{Arm, Callee, Code, Piece};
use jt_syntax::{ArithmeticOperator, ComparisonOperator, Connective, UnaryOperator};
use sqlite_items::{Boxed, Items};

/// A loop whose turns go on. Its own variables are in the slots from the first number on, as many as
/// the second says.
#[derive(Clone, Copy)]
pub enum Loop<'p> {
    /// A condition and a body.
    While(usize, usize, &'p Code, &'p Code),
    /// A body, the number of this turn and the last one.
    Range(usize, usize, &'p Code, i64, i64),
}

/// How a part ended: with a value, or with the value of the open call.
#[derive(Clone, Copy)]
pub enum Exit {
    Value,
    Return,
}

/// The waits at the end of an `@sync`: the tasks in the order of their making, the place of the first
/// that is not waited for yet, the fault of the first that failed, and how the part ended, with which
/// value.
#[derive(Drop)]
pub struct Waits {
    pub paths: Items<Path>,
    pub next: usize,
    pub fault: Option<SmallFault>,
    pub exit: Exit,
    pub value: SmallValue,
}

/// What is left to do once a part has ended.
#[derive(Drop)]
pub enum Frame<'p> {
    Assign(usize),
    Define(usize),
    Unary(UnaryOperator),
    /// The operands behind the first one.
    Operands(&'p [(ArithmeticOperator, Code)]),
    /// An operator, the value so far, and the operands behind the one that is evaluated.
    Operand(ArithmeticOperator, SmallValue, &'p [(ArithmeticOperator, Code)]),
    /// The comparisons behind the first operand.
    Comparisons(&'p [(ComparisonOperator, Code)]),
    /// A comparison, its first operand, and the comparisons behind it.
    Compared(ComparisonOperator, SmallValue, &'p [(ComparisonOperator, Code)]),
    /// The operands that are left.
    Connection(Connective, &'p [Code]),
    /// The body of the arm whose condition is evaluated, the other arms, and what is done where none
    /// holds.
    Choice(&'p Code, &'p [Arm], &'p Code),
    /// What stands behind in a block.
    Rest(&'p [Code]),
    /// A loop whose condition is evaluated: its own variables as in `Loop`, condition and body.
    Condition(usize, usize, &'p Code, &'p Code),
    /// A loop over numbers whose lower bound is evaluated: the upper one, and its body.
    Low(usize, usize, &'p Code, &'p Code),
    /// A loop over numbers whose upper bound is evaluated: the lower one, and its body.
    High(usize, usize, SmallValue, &'p Code),
    /// A loop whose body runs.
    Loop(Loop<'p>),
    /// The arguments that are left, and the values of those before the one that is evaluated.
    Arguments(Callee, &'p [Code], Items<SmallValue>),
    /// The items that are left, and the text of those before the one that is evaluated.
    Pieces(&'p [Piece], Line),
    /// A call: the caller's variables, and how many calls were open.
    Call(Items<Option<SmallValue>>, u32),
    /// The part of an `@sync`: the tasks for which the one round it waits.
    Sync(Items<Path>),
    /// A wait at the end of an `@sync`, and what follows it.
    Waiting(Boxed<Waits>),
    Return,
}
