//! The evaluator of one task, which stops at each operation and after so many turns, and goes on.
#![tactic(auto)]

mod eval;
mod evaluator;
mod fork;
mod frame;
mod give;
mod line;
mod mode;
mod print;
mod read;
mod row;
mod run;
mod small;
mod sync;
mod task;
mod turn;
mod unwind;
mod value;
mod variables;

pub use task::{Advance, TaskRun};
