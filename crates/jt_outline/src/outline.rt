//! The outline of a script.

use crate::mark::Mark;
use jt_syntax::Identifier;
use sqlite_items::Items;

/// A function of the script, and what stands in its body.
#[derive(Drop)]
pub struct FunctionMark {
    pub name: Identifier,
    pub parameters: Items<Identifier>,
    pub body: Items<Mark>,
}

/// What the main task does.
#[derive(Drop)]
pub enum Part {
    /// A constant, with the place of `const` and what stands in its expression.
    Constant(u32, Identifier, Items<Mark>),
    /// A statement, and what stands in it.
    Statement(Items<Mark>),
}

/// What stands in a script as far as names go, in the order of the text.
#[derive(Drop)]
pub struct Outline {
    pub functions: Items<FunctionMark>,
    pub parts: Items<Part>,
}
