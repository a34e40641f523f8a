//! The nodes of a program, each made of parts that are made already.
#![tactic(auto)]

mod branches;
mod chains;
mod lists;
mod loops;
mod lowered;
mod nodes;
mod task;

pub use branches::{conditional, if_else};
pub use chains::{Operands, guard};
pub use lists::{push, push_arm, push_text, push_value};
pub use loops::{Turn, for_loop, while_loop};
pub use lowered::{assignment, callee, nothing, number, written};
pub use nodes::{
    Allocated, Node, block, break_loop, call, continue_loop, define, error, literal,
    operation_of_two, print, return_value, sync, unary,
};
pub use task::{push_body, spawn};
