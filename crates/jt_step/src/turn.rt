//! Moves up to the next turn, and the turns themselves.

ghost use Rattle.std.specs.Prelude.{◌≡◌, ◌<◌, true, false, IfOk, slice_get};
ghost use Rattle.jt_program.specs.Plan.{ProgramPlan};
ghost use Rattle.jt_program.specs.View.{program_plan};
ghost use Rattle.jt_step.specs.Stack.{Follows, TakesTurn, Settles, rests, begins, refusal};

use crate::evaluator::Evaluator;
use crate::frame::{Frame, Loop};
use crate::mode::Mode;
use crate::small::{Cause, Form, SmallFault, SmallValue};
use crate::variables::{arguments_of, assign, renew};
use jt_base::{MOST_CALLS, OutOfMemory};
use jt_program::Program;
use sqlite_items::at;
use std::alloc::Global;
use std::mem::replace;

impl<'p> Evaluator<'p> {
    /// Whether nothing moves but by a reply or by a turn.
    fn rests(&self, program: &Program, mode: &Mode<'p>) -> bool
        ensures { result ≡ rests (program_plan program.now) self.now mode.now }
    {
        match mode {
            Mode::Begins(_) => true,
            Mode::Waits(_, _) => true,
            Mode::Ending(_) => true,
            Mode::Failing(_) => true,
            Mode::Over => true,
            Mode::Unfit => true,
            _ => self.begins(program, mode),
        }
    }

    /// Whether a turn begins next.
    pub(crate) fn begins(&self, program: &Program, mode: &Mode<'p>) -> bool
        ensures { result ≡ begins (program_plan program.now) self.now mode.now }
    {
        match mode {
            Mode::Enter(f, _) => match at(program.functions.as_slice(), *f) {
                None => false,
                Some(_) => self.turns > 0 && self.open_calls < MOST_CALLS,
            },
            Mode::Again(_) => self.turns > 0,
            _ => false,
        }
    }

    /// Why a call of this function can't begin.
    fn refusal(&self, program: &Program, f: usize) -> SmallFault
        ensures { result ≡ refusal (slice_get (program_plan program.now).functions f) self.now.turns }
    {
        match at(program.functions.as_slice(), f) {
            None => SmallFault {
                cause: Cause::Method,
            },
            Some(_) => {
                if self.turns == 0 {
                    SmallFault {
                        cause: Cause::TurnLimit,
                    }
                } else {
                    SmallFault {
                        cause: Cause::StackLimit,
                    }
                }
            }
        }
    }

    /// One move that begins no turn.
    fn step(
        &mut self,
        alloc: Global,
        program: &'p Program,
        mode: Mode<'p>,
    ) -> Result<Mode<'p>, OutOfMemory>
        requires { rests (program_plan program.now) self.old mode ≡ false }
        ensures { IfOk result (λ m. Follows (program_plan program.now) self.old mode.entry self.new m) }
    {
        match mode {
            Mode::Eval(e) => {
                let mode = self.eval(alloc, program, e)?;
                Ok(mode)
            }
            Mode::Gave(v) => {
                let mode = self.give(alloc, v)?;
                Ok(mode)
            }
            Mode::Returned(v) => Ok(self.return_value(alloc, v)?),
            Mode::Broke => Ok(self.leave_loop()),
            Mode::Continued => {
                let mode = self.next_turn(alloc)?;
                Ok(mode)
            }
            Mode::Faulted(fault) => Ok(self.fail(alloc, fault)?),
            Mode::Enter(f, _vs) => Ok(Mode::Faulted(self.refusal(program, f))),
            Mode::Again(_) => Ok(Mode::Faulted(SmallFault {
                cause: Cause::TurnLimit,
            })),
            _ => unreachable!(),
        }
    }

    /// Begins a turn.
    pub(crate) fn begin(
        &mut self,
        alloc: Global,
        program: &'p Program,
        mode: Mode<'p>,
    ) -> Result<Mode<'p>, OutOfMemory>
        requires { begins (program_plan program.now) self.old mode ≡ true }
        ensures { IfOk result (λ m. TakesTurn (program_plan program.now) self.old mode.entry self.new m) }
    {
        match mode {
            Mode::Enter(f, vs) => match at(program.functions.as_slice(), f) {
                None => unreachable!(),
                Some(body) => {
                    let variables = arguments_of(alloc, body.variables, vs.as_slice())?;
                    let caller = replace(&mut self.variables, variables);
                    self.frames.push(Frame::Call(caller, self.open_calls))?;
                    self.open_calls += 1;
                    self.turns -= 1;
                    Ok(Mode::Eval(&body.code))
                }
            },
            Mode::Again(turns) => {
                let mode = self.again(turns)?;
                Ok(mode)
            }
            _ => unreachable!(),
        }
    }

    /// Begins a turn of a loop.
    fn again(&mut self, turns: Loop<'p>) -> Result<Mode<'p>, OutOfMemory>
        requires { 0 < self.old.turns }
        ensures { IfOk result (λ m. (program : ProgramPlan) → TakesTurn program self.old (Mode.Again turns.entry) self.new m) }
    {
        match turns {
            Loop::While(first, count, _condition, body) => {
                renew(&mut self.variables, first, count)?;
                self.frames.push(Frame::Loop(turns))?;
                self.turns -= 1;
                Ok(Mode::Eval(body))
            }
            Loop::Range(first, count, body, i, _last) => {
                renew(&mut self.variables, first, count)?;
                assign(
                    &mut self.variables,
                    first,
                    SmallValue { form: Form::Int(i) },
                );
                self.frames.push(Frame::Loop(turns))?;
                self.turns -= 1;
                Ok(Mode::Eval(body))
            }
        }
    }

    /// Moves up to the next turn or operation.
    pub(crate) fn settle(
        &mut self,
        alloc: Global,
        program: &'p Program,
        mode: Mode<'p>,
    ) -> Result<Mode<'p>, OutOfMemory>
        ensures { IfOk result (λ m. Settles (program_plan program.now) self.old mode.entry self.new m) }
    {
        let mut mode = mode;
        'moves: while !self.rests(program, &mode) {
            mode = self.step(alloc, program, mode)?;
        }
        Ok(mode)
    }
}
