//! The random stream of a task, after Julia's task-local generators (Julia 1.10 manual, "Random
//! Numbers"): xoshiro256++ by Blackman and Vigna, with a fifth word by which a task that is spawned
//! gets a stream of its own, and its parent's stream stays as it was.
//!
//! A fork mixes its constants in a way of this repository's own.
#![tactic(auto)]

mod stream;
mod words;

pub use stream::{EmptyRange, TaskRng};
