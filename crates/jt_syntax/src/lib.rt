//! Tokens and trees of scripts, as the lexer and the parser make them and all that comes behind
//! them walks them.
#![tactic(auto)]

mod operator;
mod script;
mod token;

pub use operator::{
    ArithmeticOperator, AssignmentOperator, BinaryOperator, Class, ComparisonOperator, Connective,
    UnaryOperator,
};
pub use script::{
    Arm, Expr, Identifier, Item, Jump, PoolName, Schedule, Script, Stmt, Top, TopForm,
};
pub use token::{Sign, Token, TokenKind};
