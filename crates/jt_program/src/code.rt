//! What a task does, as a tree in which variables, constants and functions stand by number.

use jt_syntax::{ArithmeticOperator, ComparisonOperator, Connective, UnaryOperator};
use sqlite_items::{Boxed, Items};

/// A value that is written in a script.
#[derive(Clone, Copy, Debug, PartialEq, Eq)]
pub enum Literal {
    Int(i64),
    Flag(bool),
    Nothing,
}

/// A function of the language.
#[derive(Clone, Copy, Debug, PartialEq, Eq)]
pub enum BuiltIn {
    /// `div`
    Div,
    /// `rem`
    Rem,
    /// `mod`
    Mod,
    /// `fetch` of a task: waits for its end and gives its value.
    Fetch,
    /// `wait` for a task: waits for its end.
    Wait,
    /// `yield`: lets other tasks run.
    Yield,
}

/// What is called.
#[derive(Clone, Copy, Debug, PartialEq, Eq)]
pub enum Callee {
    /// A function of the script, by its number from 0 on.
    Function(usize),
    BuiltIn(BuiltIn),
}

/// The making of a task.
#[derive(Drop)]
pub struct Fork {
    /// The number of the task's body, from 1 on.
    pub body: u32,
    /// The slots of the variables whose values the task takes from its maker.
    pub captured: Items<usize>,
    /// Whether the `@sync` round it waits for the task.
    pub is_awaited: bool,
}

/// A part of what a task does.
#[cycle(code)]
#[derive(Drop)]
pub enum Code {
    Literal(Literal),
    /// The variable in this slot of the open call.
    Variable(usize),
    /// The constant of this number.
    Constant(usize),
    /// Assigns to the variable in this slot.
    Assign(usize, Boxed<Code>),
    /// Gives the constant of this number its value.
    Define(usize, Boxed<Code>),
    Unary(UnaryOperator, Boxed<Code>),
    /// Operators one after another, each on the value so far and its operand.
    Operation(Boxed<Code>, Items<(ArithmeticOperator, Code)>),
    /// Comparisons of neighbours, up to the first that doesn't hold.
    Comparison(Boxed<Code>, Items<(ComparisonOperator, Code)>),
    /// Operands up to the first that decides.
    Connection(Connective, Boxed<Code>, Items<Code>),
    /// The body of the first arm whose condition holds, else the last part.
    Branch(Items<Arm>, Boxed<Code>),
    /// One after another; the value is that of the last.
    Block(Items<Code>),
    /// A loop while a condition holds. Its own variables are in the slots from the first number on,
    /// as many as the second says, and are new in each turn.
    While(usize, usize, Boxed<Code>, Boxed<Code>),
    /// A loop over the whole numbers between two bounds, with its own variables as in `While`; the
    /// first of them has the number.
    For(usize, usize, Boxed<Code>, Boxed<Code>, Boxed<Code>),
    Call(Callee, Items<Code>),
    /// Prints its pieces in a row.
    Print(Items<Piece>),
    /// Fails with this text.
    Error(Items<u8>),
    /// Makes a task and gives its handle.
    Spawn(Fork),
    /// Does a part, and then waits for the awaited tasks that were made in it, in the order of their
    /// making. Fails with the first of them that failed; its value is that of the part.
    Sync(Boxed<Code>),
    Return(Boxed<Code>),
    Break,
    Continue,
}

/// An arm of a branch.
#[cycle(code)]
#[derive(Drop)]
pub struct Arm {
    pub condition: Code,
    pub body: Code,
}

/// What `println` prints.
#[cycle(code)]
#[derive(Drop)]
pub enum Piece {
    Value(Code),
    Text(Items<u8>),
}
