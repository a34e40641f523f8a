//! The scopes round a place, and what names mean there.
#![tactic(auto)]

mod chain;
mod laws;
mod names;
mod place;
mod slots;
mod standing;

pub use chain::Chain;
pub use laws::{names_have_the_slots_of_their_variables, variables_have_slots_of_their_own};
pub use names::is_before;
