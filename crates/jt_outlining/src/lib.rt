//! The walk over the trees of a script that makes its outline.
#![tactic(auto)]

mod put;
mod tops;
mod walk;

pub use tops::outline_of;
