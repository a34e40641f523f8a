//! A script, its statements and its expressions.

ghost use Rattle.std.specs.Prelude.{◌≡◌, IfOk};

use crate::operator::{AssignmentOperator, BinaryOperator, Class, Connective, UnaryOperator};
use sqlite_items::{Boxed, Items};
use std::alloc::{AllocError, Global};

/// A name where it stands in a script.
#[derive(Debug, Drop)]
pub struct Identifier {
    /// Its ASCII bytes, without a prefix such as `Threads.`.
    pub name: Items<u8>,
    /// Where its token begins, in bytes from the text's beginning.
    pub at: u32,
}

impl Identifier {
    /// The same name at the same place.
    ///
    /// # Errors
    ///
    /// Where memory is wanting.
    pub fn copied(&self, alloc: Global) -> Result<Identifier, AllocError>
        ensures { IfOk result (λ i. i ≡ self.now) }
    {
        Ok(Identifier {
            name: Items::from_slice(alloc, self.name.as_slice())?,
            at: self.at,
        })
    }
}

/// The pool that a task is spawned for, by its word.
#[derive(Clone, Copy, Debug, PartialEq, Eq)]
pub enum PoolName {
    Default,
    Interactive,
}

/// How the iterations of an `@threads` loop are given to tasks, by its word.
#[derive(Clone, Copy, Debug, PartialEq, Eq)]
pub enum Schedule {
    Static,
    Dynamic,
}

/// An expression.
#[cycle(ast)]
#[derive(Drop)]
pub enum Expr {
    /// A whole number from 0 to 9223372036854775807.
    Number(u64),
    /// `true` or `false`
    Truth(bool),
    Name(Identifier),
    /// `$name`, with the place of the `$`.
    Interpolation(u32, Identifier),
    /// An expression in parentheses.
    Group(Boxed<Expr>),
    /// A call of a function by its name, with its arguments.
    Call(Identifier, Items<Boxed<Expr>>),
    /// `println(item, ..)`
    Println(Items<Item>),
    /// `error("text")`
    Error(Items<u8>),
    /// `Channel{Int64}()`, or with a capacity in the parentheses.
    Channel(Option<Boxed<Expr>>),
    /// `Atomic{Int64}(value)`
    Atomic(Boxed<Expr>),
    /// `typemin(Int64)`
    Least,
    /// `typemax(Int64)`
    Greatest,
    /// `rand(Int64)`
    Random,
    /// `rand(first:last)`
    RandomIn(Boxed<Expr>, Boxed<Expr>),
    /// `notify(condition, all = true)`, or with `;` for the comma, or with `false`.
    Notify(Boxed<Expr>, bool),
    /// `name[]`
    Read(Identifier),
    /// `base ^ exponent`
    Power(Boxed<Expr>, Boxed<Expr>),
    Unary(UnaryOperator, Boxed<Expr>),
    /// A first operand, and the others in the order of the text, each behind its operator, all of
    /// which are of this class.
    Chain(Class, Boxed<Expr>, Items<(BinaryOperator, Boxed<Expr>)>),
    /// `condition ? value : otherwise`
    Conditional(Boxed<Expr>, Boxed<Expr>, Boxed<Expr>),
    /// `begin .. end`
    Block(Items<Stmt>),
    /// `if condition .. elseif condition .. else .. end`: the first arm, those behind `elseif`, and
    /// what stands behind `else`, if there is one.
    If(Boxed<Expr>, Items<Stmt>, Items<Arm>, Option<Items<Stmt>>),
    /// `while condition .. end`
    While(Boxed<Expr>, Items<Stmt>),
    /// `for name in first:last .. end`
    ForRange(Identifier, Boxed<Expr>, Boxed<Expr>, Items<Stmt>),
    /// `for name in channel .. end`
    ForEach(Identifier, Boxed<Expr>, Items<Stmt>),
    /// `@spawn` with the place of its word, the pool if one is named, and the task's body.
    Spawn(u32, Option<PoolName>, Boxed<Expr>),
    /// `@async` with the place of its word, and the task's body.
    Async(u32, Boxed<Expr>),
    /// `@sync` with what it waits for.
    Sync(Boxed<Expr>),
    /// `@threads` with the place of its word, the schedule if one is named, and its loop
    /// `for name in first:last .. end`.
    Threads(u32, Option<Schedule>, Identifier, Boxed<Expr>, Boxed<Expr>, Items<Stmt>),
}

/// What `println` prints.
#[cycle(ast)]
#[derive(Drop)]
pub enum Item {
    /// An expression, whose value is printed.
    Value(Boxed<Expr>),
    /// A string's bytes, with each escape replaced by what it stands for.
    Text(Items<u8>),
}

/// A condition behind `elseif`, and what is done where it holds.
#[cycle(ast)]
#[derive(Drop)]
pub struct Arm {
    pub condition: Boxed<Expr>,
    pub body: Items<Stmt>,
}

/// A statement that goes elsewhere, with the place of its word.
#[cycle(ast)]
#[derive(Drop)]
pub enum Jump {
    /// `return`, with its value if one is written.
    Return(u32, Option<Boxed<Expr>>),
    Break(u32),
    Continue(u32),
}

/// A statement.
#[cycle(ast)]
#[derive(Drop)]
pub enum Stmt {
    /// `name = value`, or with another assignment operator.
    Assign(Identifier, AssignmentOperator, Boxed<Expr>),
    /// `name[] = value`
    Store(Identifier, Boxed<Expr>),
    Jump(Jump),
    /// A first operand, and the others each behind this operator, and behind them the operator and a
    /// jump.
    Guard(Connective, Boxed<Expr>, Items<(BinaryOperator, Boxed<Expr>)>, Jump),
    /// An expression, whose value is the statement's.
    Expression(Boxed<Expr>),
}

/// What stands between two separators of a script.
#[derive(Drop)]
pub enum TopForm {
    /// `using Base.Threads`
    Using,
    /// `const name = value`
    Constant(Identifier, Boxed<Expr>),
    /// `function name(parameter, ..) .. end`
    Function(Identifier, Items<Identifier>, Items<Stmt>),
    /// `name(parameter, ..) = value`
    ShortFunction(Identifier, Items<Identifier>, Boxed<Expr>),
    Stmt(Stmt),
}

/// A statement, function or constant of a script, and where its first token begins, in bytes from
/// the text's beginning.
#[derive(Drop)]
pub struct Top {
    pub at: u32,
    pub form: TopForm,
}

/// A script, made by the parser alone.
#[derive(Drop)]
pub struct Script {
    pub tops: Items<Top>,
}
