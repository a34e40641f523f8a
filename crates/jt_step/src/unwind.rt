//! How the end of a part goes outwards, where it is no value.

ghost use Rattle.std.specs.Prelude.{IfOk};
ghost use Rattle.jt_program.specs.Plan.{ProgramPlan};
ghost use Rattle.jt_meaning.specs.State.{Returned, Broke, Continued, Faulted};
ghost use Rattle.jt_step.specs.Stack.{Follows, Hands};

use crate::evaluator::Evaluator;
use crate::frame::{Exit, Frame};
use crate::mode::Mode;
use crate::small::{Cause, Form, SmallFault, SmallValue};
use jt_base::OutOfMemory;
use std::alloc::Global;

impl<'p> Evaluator<'p> {
    /// The open call has this value.
    pub(crate) fn return_value(
        &mut self,
        alloc: Global,
        v: SmallValue,
    ) -> Result<Mode<'p>, OutOfMemory>
        ensures { IfOk result (λ m. (program : ProgramPlan) → Follows program self.old (Mode.Returned v) self.new m) }
    {
        match self.frames.pop() {
            None => Ok(Mode::Ending(v)),
            Some(frame) => {
                let mode = self.return_value_to(alloc, frame, v)?;
                Ok(mode)
            }
        }
    }

    fn return_value_to(
        &mut self,
        alloc: Global,
        frame: Frame<'p>,
        v: SmallValue,
    ) -> Result<Mode<'p>, OutOfMemory>
        ensures { IfOk result (λ m. (program : ProgramPlan) → Hands program self.old frame.entry (Returned v) self.new m) }
    {
        match frame {
            Frame::Call(variables, open_calls) => {
                self.variables = variables;
                self.open_calls = open_calls;
                Ok(Mode::Gave(v))
            }
            Frame::Sync(outer) => {
                let mode = self.end_sync(alloc, outer, Exit::Return, v)?;
                Ok(mode)
            }
            _ => Ok(Mode::Returned(v)),
        }
    }

    /// The innermost loop is left.
    pub(crate) fn leave_loop(&mut self) -> Mode<'p>
        ensures { (program : ProgramPlan) → Follows program self.old Mode.Broke self.new result }
    {
        match self.frames.pop() {
            None => Mode::Failing(SmallFault {
                cause: Cause::Method,
            }),
            Some(frame) => self.leave_loop_to(frame),
        }
    }

    fn leave_loop_to(&mut self, frame: Frame<'p>) -> Mode<'p>
        ensures { (program : ProgramPlan) → Hands program self.old frame.entry Broke self.new result }
    {
        match frame {
            Frame::Sync(outer) => {
                self.awaited = outer;
                Mode::Broke
            }
            Frame::Call(_, _) => Mode::Faulted(SmallFault {
                cause: Cause::Method,
            }),
            Frame::Loop(_) => Mode::Gave(SmallValue {
                form: Form::Nothing,
            }),
            _ => Mode::Broke,
        }
    }

    /// The innermost loop goes on to its next turn.
    pub(crate) fn next_turn(&mut self, alloc: Global) -> Result<Mode<'p>, OutOfMemory>
        ensures { IfOk result (λ m. (program : ProgramPlan) → Follows program self.old Mode.Continued self.new m) }
    {
        match self.frames.pop() {
            None => Ok(Mode::Failing(SmallFault {
                cause: Cause::Method,
            })),
            Some(frame) => {
                let mode = self.next_turn_to(alloc, frame)?;
                Ok(mode)
            }
        }
    }

    fn next_turn_to(&mut self, alloc: Global, frame: Frame<'p>) -> Result<Mode<'p>, OutOfMemory>
        ensures { IfOk result (λ m. (program : ProgramPlan) → Hands program self.old frame.entry Continued self.new m) }
    {
        match frame {
            Frame::Call(_, _) => Ok(Mode::Faulted(SmallFault {
                cause: Cause::Method,
            })),
            Frame::Loop(turns) => {
                let mode = self.go_on(alloc, turns)?;
                Ok(mode)
            }
            Frame::Sync(outer) => {
                self.awaited = outer;
                Ok(Mode::Continued)
            }
            _ => Ok(Mode::Continued),
        }
    }

    /// A part failed.
    pub(crate) fn fail(&mut self, alloc: Global, fault: SmallFault) -> Result<Mode<'p>, OutOfMemory>
        ensures { IfOk result (λ m. (program : ProgramPlan) → Follows program self.old (Mode.Faulted fault) self.new m) }
    {
        match self.frames.pop() {
            None => Ok(Mode::Failing(fault)),
            Some(frame) => {
                let mode = self.fail_to(alloc, frame, fault)?;
                Ok(mode)
            }
        }
    }

    fn fail_to(
        &mut self,
        alloc: Global,
        frame: Frame<'p>,
        fault: SmallFault,
    ) -> Result<Mode<'p>, OutOfMemory>
        ensures { IfOk result (λ m. (program : ProgramPlan) → Hands program self.old frame.entry (Faulted fault) self.new m) }
    {
        match frame {
            Frame::Waiting(waits) => {
                let mode = self.next_wait(alloc, waits.into_inner().failed(fault))?;
                Ok(mode)
            }
            _ => Ok(Mode::Faulted(fault)),
        }
    }
}
