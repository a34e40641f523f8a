//! What stands in a script as far as names go: scopes within scopes, and in each what is used,
//! assigned, called and left there, in the order of the text.

use jt_syntax::Identifier;
use sqlite_items::Items;

/// What a scope belongs to.
#[derive(Clone, Copy, Debug, PartialEq, Eq)]
pub enum ScopeKind {
    Script,
    Function,
    Loop,
    /// The body of an `@spawn` or `@async`.
    Task,
    /// What an `@sync` waits for, which has no variables.
    Sync,
}

/// One thing that stands in a script, as far as names go.
#[cycle(mark)]
#[derive(Drop)]
pub enum Mark {
    /// The use of a name.
    Use(Identifier),
    /// `$name`, with the place of the `$`.
    Interpolation(u32, Identifier),
    /// An assignment to a name. One with an operator has a `Use` before it.
    Assignment(Identifier),
    /// A call of a function with so many arguments.
    Call(Identifier, usize),
    /// `println`
    Print,
    /// A macro word that opens no scope today.
    Macro,
    /// `break` or `continue`, with its place.
    LoopJump(u32),
    /// `return`, with its place.
    Return(u32),
    /// A scope.
    Scope(ScopeMark),
}

/// A scope, and what stands in it.
#[cycle(mark)]
#[derive(Drop)]
pub struct ScopeMark {
    pub kind: ScopeKind,
    /// Where the macro word of a task's body stands, in bytes from the text's beginning, and 0 for
    /// the others.
    pub at: u32,
    /// The parameters of a function, or the variable of a `for`.
    pub variables: Items<Identifier>,
    pub body: Items<Mark>,
}
