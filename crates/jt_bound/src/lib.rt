//! What binding makes of a script: its program, and where a walk that makes it stands.
#![tactic(auto)]

mod making;

pub use making::Making;
