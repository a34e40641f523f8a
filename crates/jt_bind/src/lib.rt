//! Scripts to programs: variables, constants, functions and task bodies get their numbers.
#![tactic(auto)]

mod binder;
mod program;
mod target;
mod task;
mod walk;

pub use program::bind;
