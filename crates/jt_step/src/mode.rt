//! What an evaluator is at.

ghost use Rattle.std.specs.Prelude.{◌≡◌, IfOk};
ghost use Rattle.jt_step.specs.Task.{mode_tells};
ghost use Rattle.jt_step.specs.Tasks.{said};

use crate::frame::Loop;
use crate::small::{SmallFault, SmallValue};
use crate::task::Advance;
use jt_base::{Op, OutOfMemory};
use jt_meaning::Start;
use jt_program::Code;
use sqlite_items::{Boxed, Items};
use std::alloc::Global;

/// What an evaluator is at.
#[derive(Drop)]
pub enum Mode<'p> {
    /// Before the beginning of this body.
    Begins(&'p Code),
    Eval(&'p Code),
    Gave(SmallValue),
    Returned(SmallValue),
    Broke,
    Continued,
    Faulted(SmallFault),
    /// Before a call of the function of this number.
    Enter(usize, Items<SmallValue>),
    /// Before a turn of a loop.
    Again(Loop<'p>),
    /// An operation waits for its reply; a spawn with the child's start.
    Waits(Boxed<Op>, Option<Boxed<Start>>),
    Ending(SmallValue),
    Failing(SmallFault),
    Over,
    /// A reply was none that its operation can have.
    Unfit,
}

impl Mode<'_> {
    /// What an advance that stops here tells.
    pub fn advance(&self, alloc: Global) -> Result<Advance, OutOfMemory>
        ensures { IfOk result (λ a. said a ≡ mode_tells self.now) }
    {
        match self {
            Mode::Begins(_) => Ok(Advance::Needs(Op::Begin)),
            Mode::Waits(op, None) => Ok(Advance::Needs(op.get().copy(alloc)?)),
            Mode::Waits(op, Some(start)) => Ok(Advance::Spawns(
                op.get().copy(alloc)?,
                start.get().copy(alloc)?,
            )),
            Mode::Ending(v) => Ok(Advance::Needs(Op::End(v.value()))),
            Mode::Failing(fault) => Ok(Advance::Needs(Op::Fail(fault.fault(alloc)?))),
            Mode::Over => Ok(Advance::Over),
            _ => Ok(Advance::More),
        }
    }
}
