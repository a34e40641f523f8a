//! The vocabulary of the runtime: names of tasks and objects, values, operations, replies and
//! entries of a history, and the traits by which the program meets the outside.
#![tactic(auto)]

mod entry;
mod gate;
mod job;
mod limits;
mod memory;
mod memory_sink;
mod memory_source;
mod name;
mod object;
mod operation;
mod path;
mod picks;
mod run;
mod sink;
mod source;
mod standard;
mod text;
mod value;

pub use entry::{Ask, Entry, Note};
pub use gate::{Gate, OpenGate};
pub use job::Job;
pub use limits::{DEFAULT_LIMITS, MOST_CALLS, MOST_OPEN, MOST_SCRIPT};
pub use memory::OutOfMemory;
pub use memory_sink::MemorySink;
pub use memory_source::MemorySource;
pub use name::Name;
pub use object::Object;
pub use operation::{Fault, How, Op, Reply};
pub use path::{Path, PathFull, SHARDS};
pub use picks::Picks;
pub use run::{Limits, Pool, Seeds, Sizes};
pub use sink::{Sink, WriteFailed};
pub use source::{ReadFailed, Source};
pub use standard::{StdSink, StdSource};
pub use text::Text;
pub use value::{Kind, Value};
