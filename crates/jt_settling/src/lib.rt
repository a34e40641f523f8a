//! The pass over an outline that settles the scopes of its script.
#![tactic(auto)]

mod counts;
mod direct;
mod settling;

pub use settling::settle;
