//! Lists of names that are found by name at once.
#![tactic(auto)]

mod firsts;
mod functions;
mod names;

pub use firsts::Firsts;
pub use functions::Signature;
pub use names::{Names, is_nothing};
