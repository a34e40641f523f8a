//! The commands of the program, from bytes to bytes: words and a source in, lines, a note and a status
//! out.
#![tactic(auto)]

mod answer;
mod command;
mod fault;
mod note;
mod program;
mod reading;
mod report;
mod run;
mod stop;
mod tool;
mod writing;

pub use report::{Refusal, Report, Status};
pub use tool::{plain_tool, run_tool, tell};
