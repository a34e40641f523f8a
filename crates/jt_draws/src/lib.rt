//! The text that `draws` writes: the first draws of a task's random stream, which its fork path and
//! the seed words fix. `stream.rt` goes along the fork path, and `lines.rt` draws and writes.
#![tactic(auto)]

mod lines;
mod stream;

pub use lines::draws;
