//! How a job's slice goes on.

ghost use Rattle.std.specs.Prelude.{◌≡◌, IfOk};
ghost use Rattle.jt_machine.specs.Operations.{follows_of};

use crate::run::End;
use jt_base::{Op, OutOfMemory, Path};
use jt_step::TaskRun;
use std::alloc::Global;

/// What comes of one step of a job's slice.
#[derive(Drop)]
pub(crate) enum Progress<'p> {
    /// The job goes on.
    GoesOn(TaskRun<'p>),
    /// The job's slice is over: it waits for an operation or for its next slice, or its task is over.
    Left,
    /// The run has ended.
    Ended(End),
}

/// What follows the reply to an operation.
#[derive(Drop)]
pub(crate) enum Follows<'p> {
    /// The run ends.
    Ends(End),
    /// The task is over.
    Over,
    /// The job waits for its next slice.
    Yields,
    /// The job goes on.
    GoesOn,
    /// The job goes on, and the task that it made is ready.
    Makes(TaskRun<'p>),
}

/// What follows the reply to an operation that makes no task.
pub(crate) fn what_follows<'p>(
    alloc: Global,
    path: &Path,
    op: &Op,
) -> Result<Follows<'p>, OutOfMemory>
    ensures { IfOk result (λ f. f ≡ follows_of path.now op.now) }
{
    match op {
        Op::End(_) => {
            if path.is_main() {
                Ok(Follows::Ends(End::Ok))
            } else {
                Ok(Follows::Over)
            }
        }
        Op::Fail(fault) => {
            if path.is_main() {
                let fault = fault.copy(alloc)?;
                Ok(Follows::Ends(End::MainFailed(fault)))
            } else {
                Ok(Follows::Over)
            }
        }
        Op::Yield => Ok(Follows::Yields),
        _ => Ok(Follows::GoesOn),
    }
}
