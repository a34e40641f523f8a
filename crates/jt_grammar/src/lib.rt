//! The grammar of scripts, apart from the code that reads them: which lists of tokens spell a
//! tree, which newlines are dropped, what a reader takes from the front of a list, and the laws
//! between these. There is no code but the names that definitions and code share.
#![tactic(auto)]

use jt_syntax::Identifier;
use sqlite_items::Items;

/// How much of the grammar of expressions is read at a place.
#[derive(Clone, Copy, Debug, PartialEq, Eq)]
pub enum Level {
    /// The operand of a unary operator, or the exponent of a power.
    Operand,
    /// A sum, as a bound of a range.
    Sum,
    /// What may stand before a `?`, or behind `if`: all but blocks and macros.
    Condition,
    /// A `for` loop over a range of numbers.
    Loop,
    /// Any expression.
    Whole,
}

/// What opens a bracket or a block, by what closes it.
#[derive(Clone, Copy, Debug, PartialEq, Eq)]
pub enum Opener {
    /// `(`, which `)` closes.
    Parenthesis,
    /// `[`, which `]` closes.
    Square,
    /// `{`, which `}` closes.
    Curly,
    /// The first word of a block, as `while`, which `end` closes.
    Block,
}

/// What an expression is on the left of an assignment operator. It stands here, and not beside the
/// code that makes it, because the definition of what is read names it.
#[derive(Drop)]
pub enum Target {
    Variable(Identifier),
    /// `name[]`
    Element(Identifier),
    /// `name(parameter, ..)`
    Function(Identifier, Items<Identifier>),
    Other,
}
