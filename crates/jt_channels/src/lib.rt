//! Channels and atomic numbers: each call answers by the law of the object's entries, and leaves
//! the state that the longer list of entries leaves.
#![tactic(auto)]

mod atomic;
mod channel;

pub use atomic::Cell64;
pub use channel::Chan;
