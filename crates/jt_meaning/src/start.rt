//! What a task is started with.

ghost use Rattle.std.specs.Prelude.{◌≡◌, IfOk};
ghost use Rattle.jt_meaning.specs.Next.{main_start};

use jt_base::{How, OutOfMemory, Seeds, Value};
use sqlite_items::Items;
use std::alloc::Global;

/// A task's start.
#[derive(Drop)]
pub struct Start {
    /// The number of the task's body: 0 for the main task.
    pub code: u32,
    /// The values that its body takes from its maker.
    pub captured: Items<Value>,
    /// The values of the program's constants; none for the main task, which gives them theirs.
    pub constants: Items<Value>,
    /// Whether the task may begin a `@threads :static` loop: the main task, and a task that it makes by
    /// `@async`.
    pub home: bool,
    /// The five words of the task's random stream.
    pub stream: [u64; 5],
    /// How it is made.
    pub how: How,
}

/// Equal values, in the same order.
fn copied(alloc: Global, values: &[Value]) -> Result<Items<Value>, OutOfMemory>
    ensures { IfOk result (λ vs. vs ≡ values.now) }
{
    let mut copies = Items::new(alloc);
    for value in values {
        copies.push(value.copy())?;
    }
    Ok(copies)
}

impl Start {
    /// The main task's start: its stream is the seed words.
    ///
    /// # Errors
    ///
    /// Where memory is wanting.
    pub fn main(alloc: Global, seeds: &Seeds) -> Result<Start, OutOfMemory>
        ensures { IfOk result (λ s. s ≡ main_start seeds.now) }
    {
        Ok(Start {
            code: 0,
            captured: Items::new(alloc),
            constants: Items::new(alloc),
            home: true,
            stream: seeds.words,
            how: How::Default,
        })
    }

    /// An equal start.
    ///
    /// # Errors
    ///
    /// Where memory is wanting.
    pub fn copy(&self, alloc: Global) -> Result<Start, OutOfMemory>
        ensures { IfOk result (λ s. s ≡ self.now) }
    {
        Ok(Start {
            code: self.code,
            captured: copied(alloc, self.captured.as_slice())?,
            constants: copied(alloc, self.constants.as_slice())?,
            home: self.home,
            stream: self.stream,
            how: self.how,
        })
    }
}
