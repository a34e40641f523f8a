//! The generated workload of a size: its script, in which as many producers as the size says put numbers
//! into a channel and count them in an atomic, and one task sums them up (`script.rt`), and the line
//! with which its summary begins (`summary.rt`).
//!
//! What is proved is the text alone, not that it is a script.
#![tactic(auto)]

mod adding;
mod script;
mod summary;

pub use script::generated_script;
pub use summary::size_line;
