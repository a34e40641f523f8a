//! A control stack that does what a tree does.

ghost use Rattle.std.specs.Prelude.{◌≡◌, ◌++◌, ◌-◌, [], IfOk, List, None, Some, length, map, replicate};
ghost use Rattle.jt_base.specs.declared.operation.Reply.{Reply};
ghost use Rattle.jt_program.specs.View.{program_plan};
ghost use Rattle.jt_meaning.specs.Meaning.{beginning};
ghost use Rattle.jt_step.specs.Stack.{state_of};

use crate::frame::Frame;
use crate::small::SmallValue;
use crate::variables::variables_of;
use jt_base::{OutOfMemory, Path};
use jt_meaning::Start;
use jt_program::Program;
use sqlite_items::Items;
use std::alloc::Global;

/// The stack, the task's path, the variables of the open call, the constants, the turns that are left,
/// how many calls are open, how many tasks it has made, those for which the innermost `@sync` waits, and
/// the words of its random stream.
#[derive(Drop)]
pub struct Evaluator<'p> {
    pub frames: Vec<Frame<'p>>,
    pub path: Path,
    pub variables: Items<Option<SmallValue>>,
    pub constants: Items<Option<SmallValue>>,
    pub turns: u64,
    pub open_calls: u32,
    pub spawned: u32,
    pub awaited: Items<Path>,
    pub stream: [u64; 5],
}

impl<'p> Evaluator<'p> {
    /// An evaluator at the beginning of a body with so many variables.
    pub(crate) fn new(
        alloc: Global,
        program: &Program,
        variables: usize,
        start: &Start,
        path: &Path,
        turns: u64,
    ) -> Result<Evaluator<'p>, OutOfMemory>
        ensures frames { IfOk result (λ m. m.frames.items ≡ []) }
        ensures variables { IfOk result (λ m. m.variables ≡ map Some start.now.captured ++ replicate (variables - length start.now.captured) None) }
        ensures state { IfOk result (λ m. (rs : List Reply) → record (state_of m rs) { variables = [] } ≡ beginning (program_plan program.now) turns path.now start.now rs) }
    {
        let constants = variables_of(alloc, program.constants, start.constants.as_slice())?;
        let variables = variables_of(alloc, variables, start.captured.as_slice())?;
        Ok(Evaluator {
            frames: Vec::new(alloc),
            path: path.copy(),
            variables,
            constants,
            turns,
            open_calls: 0,
            spawned: 0,
            awaited: Items::new(alloc),
            stream: start.stream,
        })
    }
}
