//! Expressions that are no block and no macro: names, calls, operands, chains of operators and
//! choices with `?`, over what reads inside one more opener.
#![tactic(auto)]

mod call;
mod chain;
mod condition;
mod guard;
mod notified;
mod operand;
mod primary;
mod rules;

pub use chain::joined;
pub use guard::Guarded;
pub use rules::{Nested, Rules};
