//! How an evaluator goes on with the value of a part.

ghost use Rattle.std.specs.Prelude.{◌≡◌, ◌<◌, ◌+◌, ◌+ℤ◌, pos, int_lt, List, IfOk};
ghost use Rattle.jt_base.specs.declared.operation.Reply.{Reply};
ghost use Rattle.jt_program.specs.Plan.{ProgramPlan};
ghost use Rattle.jt_meaning.specs.Meaning.{go};
ghost use Rattle.jt_step.specs.Moves.{bounds_mode, range_mode, turn_mode};
ghost use Rattle.jt_step.specs.Stack.{Follows, Hands, at, frames_weight, later_of, loop_weight, resume, state_of, work};
ghost use Rattle.jt_meaning.specs.State.{Gave};

use crate::evaluator::Evaluator;
use crate::frame::{Exit, Frame, Loop};
use crate::mode::Mode;
use crate::row::valued;
use crate::small::{Cause, Form, SmallFault, SmallValue};
use crate::value::{apply_unary, compare, operate};
use crate::variables::assign;
use jt_base::OutOfMemory;
use jt_program::{Arm, Code};
use jt_syntax::{ArithmeticOperator, ComparisonOperator};
use std::alloc::Global;

impl<'p> Evaluator<'p> {
    /// A part gave a value.
    pub(crate) fn give(&mut self, alloc: Global, v: SmallValue) -> Result<Mode<'p>, OutOfMemory>
        ensures { IfOk result (λ m. (program : ProgramPlan) → Follows program self.old (Mode.Gave v) self.new m) }
    {
        match self.frames.pop() {
            None => Ok(Mode::Ending(v)),
            Some(frame) => Ok(self.give_to(alloc, frame, v)?),
        }
    }

    /// A part gave a value to this frame.
    pub(crate) fn give_to(
        &mut self,
        alloc: Global,
        frame: Frame<'p>,
        v: SmallValue,
    ) -> Result<Mode<'p>, OutOfMemory>
        ensures { IfOk result (λ m. (program : ProgramPlan) → Hands program self.old frame.entry (Gave v) self.new m) }
    {
        match frame {
            Frame::Assign(slot) => {
                assign(&mut self.variables, slot, v.copy(alloc)?);
                Ok(Mode::Gave(v))
            }
            Frame::Define(number) => {
                assign(&mut self.constants, number, v.copy(alloc)?);
                Ok(Mode::Gave(v))
            }
            Frame::Unary(operator) => Ok(valued(apply_unary(operator, &v))),
            Frame::Operands(es) => Ok(self.next_operand(alloc, v, es)?),
            Frame::Operand(operator, w, es) => Ok(self.give_operand(alloc, operator, w, v, es)?),
            Frame::Comparisons(es) => Ok(self.next_comparison(alloc, v, es)?),
            Frame::Compared(operator, w, es) => Ok(self.give_compared(alloc, operator, w, v, es)?),
            Frame::Connection(connective, es) => Ok(self.next_connected(alloc, connective, v, es)?),
            Frame::Choice(e, arms, otherwise) => Ok(self.give_condition(
                alloc, v, e, arms, otherwise,
            )?),
            Frame::Rest(es) => Ok(self.next_part(alloc, v, es)?),
            Frame::Condition(first, count, condition, body) => Ok(turn_of(
                v,
                Loop::While(first, count, condition, body),
            )),
            Frame::Low(first, count, high, body) => Ok(self.begin_with(
                Frame::High(first, count, v, body),
                high,
            )?),
            Frame::High(first, count, low, body) => Ok(turns_between(first, count, body, low, v)),
            Frame::Loop(l) => Ok(self.go_on(alloc, l)?),
            Frame::Arguments(callee, es, mut vs) => {
                vs.push(v)?;
                Ok(self.next_argument(alloc, callee, vs, es)?)
            }
            Frame::Pieces(pieces, mut line) => {
                line.push_value(&v)?;
                Ok(self.next_piece(alloc, pieces, line)?)
            }
            Frame::Call(variables, open_calls) => {
                self.variables = variables;
                self.open_calls = open_calls;
                Ok(Mode::Gave(v))
            }
            Frame::Sync(outer) => Ok(self.end_sync(alloc, outer, Exit::Value, v)?),
            Frame::Waiting(waits) => Ok(self.next_wait(alloc, waits.into_inner())?),
            Frame::Return => Ok(Mode::Returned(v)),
        }
    }

    /// Both operands of an operator have their values.
    fn give_operand(
        &mut self,
        alloc: Global,
        operator: ArithmeticOperator,
        v: SmallValue,
        w: SmallValue,
        es: &'p [(ArithmeticOperator, Code)],
    ) -> Result<Mode<'p>, OutOfMemory>
        ensures { IfOk result (λ m. (program : ProgramPlan) → Hands program self.old (Frame.Operand operator v es.entry) (Gave w) self.new m) }
    {
        match operate(operator, &v, &w) {
            Ok(value) => Ok(self.next_operand(alloc, value, es)?),
            Err(fault) => Ok(Mode::Faulted(fault)),
        }
    }

    /// Both operands of a comparison have their values.
    fn give_compared(
        &mut self,
        alloc: Global,
        operator: ComparisonOperator,
        v: SmallValue,
        w: SmallValue,
        es: &'p [(ComparisonOperator, Code)],
    ) -> Result<Mode<'p>, OutOfMemory>
        ensures { IfOk result (λ m. (program : ProgramPlan) → Hands program self.old (Frame.Compared operator v es.entry) (Gave w) self.new m) }
    {
        match compare(operator, &v, &w) {
            Some(true) => Ok(self.next_comparison(alloc, w, es)?),
            Some(false) => Ok(Mode::Gave(SmallValue {
                form: Form::Flag(false),
            })),
            None => Ok(Mode::Faulted(SmallFault {
                cause: Cause::Method,
            })),
        }
    }

    /// The condition of an arm has its value.
    fn give_condition(
        &mut self,
        alloc: Global,
        v: SmallValue,
        e: &'p Code,
        arms: &'p [Arm],
        otherwise: &'p Code,
    ) -> Result<Mode<'p>, OutOfMemory>
        ensures { IfOk result (λ m. (program : ProgramPlan) → Hands program self.old (Frame.Choice e.entry arms.entry otherwise.entry) (Gave v) self.new m) }
    {
        match v.form {
            Form::Flag(holds) => {
                if holds {
                    Ok(Mode::Eval(e))
                } else {
                    Ok(self.next_arm(alloc, arms, otherwise)?)
                }
            }
            _ => Ok(Mode::Faulted(SmallFault {
                cause: Cause::Method,
            })),
        }
    }

    /// Goes on with a loop whose body has ended. A condition that is read at once is tested at once.
    pub(crate) fn go_on(&mut self, alloc: Global, l: Loop<'p>) -> Result<Mode<'p>, OutOfMemory>
        ensures same { IfOk result (λ m. (program : ProgramPlan) (rs : List Reply) → at program self.new m rs ≡ resume program self.old.frames.items (go program (later_of l.entry) (state_of self.old rs))) }
        ensures less { IfOk result (λ m. work self.new m < 1 + loop_weight l.entry + frames_weight self.old.frames.items) }
        ensures turns { IfOk result (λ m. self.new.turns ≡ self.old.turns) }
    {
        match l {
            Loop::While(first, count, condition, body) => match self.read(alloc, condition)? {
                Some(v) => Ok(turn_of(v, l)),
                None => {
                    self.frames
                        .push(Frame::Condition(first, count, condition, body))?;
                    Ok(Mode::Eval(condition))
                }
            },
            Loop::Range(first, count, body, i, last) => Ok(next_number(
                first, count, body, i, last,
            )),
        }
    }
}

/// Before a turn of a loop, or at its end, by its condition.
fn turn_of<'p>(v: SmallValue, l: Loop<'p>) -> Mode<'p>
    ensures { result ≡ turn_mode v l.entry }
{
    match v.form {
        Form::Flag(true) => Mode::Again(l),
        Form::Flag(false) => Mode::Gave(SmallValue {
            form: Form::Nothing,
        }),
        _ => Mode::Faulted(SmallFault {
            cause: Cause::Method,
        }),
    }
}

/// Before the first turn of a loop between two numbers, or at its end where there is none.
fn turns_between<'p>(
    first: usize,
    count: usize,
    body: &'p Code,
    low: SmallValue,
    high: SmallValue,
) -> Mode<'p>
    ensures { result ≡ bounds_mode first count body.entry low high }
{
    match (&low.form, &high.form) {
        (Form::Int(low), Form::Int(high)) => {
            if *low <= *high {
                Mode::Again(Loop::Range(first, count, body, *low, *high))
            } else {
                Mode::Gave(SmallValue {
                    form: Form::Nothing,
                })
            }
        }
        _ => Mode::Faulted(SmallFault {
            cause: Cause::Method,
        }),
    }
}

/// Before the turn that follows this one of a loop over numbers, or at its end. `last` may be the
/// largest number.
fn next_number<'p>(first: usize, count: usize, body: &'p Code, i: i64, last: i64) -> Mode<'p>
    ensures { result ≡ range_mode (int_lt i last) (Loop.Range first count body.entry (i +ℤ pos 1) last) }
{
    if i < last {
        Mode::Again(Loop::Range(first, count, body, i + 1, last))
    } else {
        Mode::Gave(SmallValue {
            form: Form::Nothing,
        })
    }
}
