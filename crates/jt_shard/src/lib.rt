//! A shard: the objects of one of the sixteen shards with their entries, and the jobs that wait for
//! them, of whatever kind these are.
#![tactic(auto)]

mod applied;
mod boxed;
mod changing;
mod laws;
mod line;
mod noting;
mod post;
mod posts;
mod shard;
mod spare;

pub use applied::Applied;
pub use laws::job_laws;
pub use shard::Shard;
