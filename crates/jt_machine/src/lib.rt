//! Whole histories on one thread: a run from its beginning or from its middle on, and the lines of a history.
#![tactic(auto)]

mod ending;
mod machine;
mod printed;
mod progress;
mod ready;
mod run;
mod setting;
mod state;

pub use machine::Machine;
pub use printed::lines;
pub use run::{End, Run, run_on_one_worker, run_plain};
