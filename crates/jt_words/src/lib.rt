//! The words of the command line: `command_named` reads the command that they ask for, or nothing
//! exactly where they are no command. The first word is the command's, and `clap` reads its options
//! (`parser.rt`); the values of options are read by files of their own.
#![tactic(auto)]

mod ancestry;
mod command;
mod fields;
mod laws;
mod number;
mod parser;
mod seeds;
mod sizes;
mod words;

pub use ancestry::{Ancestor, Ancestry};
pub use command::{Command, DrawsOptions, GenOptions, RunOptions};
pub use laws::{commands_are_within_limits, words_are_one_command};
pub use words::command_named;
