//! Expressions and statements of all forms: blocks, loops, macros, jumps and assignments, read with
//! no more openers open than may be.
#![tactic(auto)]

mod block;
mod levels;
mod loops;
mod phrases;
mod read;
mod readers;
mod statements;
mod task;

pub use read::{statement, tail, whole};
