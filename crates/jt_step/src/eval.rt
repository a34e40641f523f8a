//! How an evaluator begins a part.

ghost use Rattle.std.specs.Prelude.{◌≡◌, ◌+◌, IfOk, slice_get};
ghost use Rattle.jt_program.specs.Plan.{ProgramPlan};
ghost use Rattle.jt_program.specs.View.{plan_of, program_plan};
ghost use Rattle.jt_step.specs.Moves.{Does, known_mode};
ghost use Rattle.jt_meaning.specs.State.{State};
ghost use Rattle.jt_step.specs.Stack.{Follows, after, does, frame_weight, weight};

use crate::evaluator::Evaluator;
use crate::frame::Frame;
use crate::line::Line;
use crate::mode::Mode;
use crate::small::{Cause, Form, SmallFault, SmallValue};
use crate::value::{error_fault, literal_value};
use jt_base::OutOfMemory;
use jt_program::{Code, Program};
use sqlite_items::{Items, at};
use std::alloc::Global;

impl<'p> Evaluator<'p> {
    /// Begins a part.
    pub(crate) fn eval(
        &mut self,
        alloc: Global,
        program: &'p Program,
        e: &'p Code,
    ) -> Result<Mode<'p>, OutOfMemory>
        ensures { IfOk result (λ m. Follows (program_plan program.now) self.old (Mode.Eval e.entry) self.new m) }
    {
        match e {
            Code::Literal(literal) => Ok(Mode::Gave(literal_value(*literal))),
            Code::Variable(slot) => Ok(known(alloc, self.variables.as_slice(), *slot)?),
            Code::Constant(number) => Ok(known(alloc, self.constants.as_slice(), *number)?),
            Code::Assign(slot, e) => Ok(self.begin_or_give(alloc, Frame::Assign(*slot), e.get())?),
            Code::Define(number, e) => Ok(self.begin_or_give(
                alloc,
                Frame::Define(*number),
                e.get(),
            )?),
            Code::Unary(operator, e) => Ok(self.begin_or_give(
                alloc,
                Frame::Unary(*operator),
                e.get(),
            )?),
            Code::Operation(e, es) => Ok(self.begin_or_give(
                alloc,
                Frame::Operands(es.as_slice()),
                e.get(),
            )?),
            Code::Comparison(e, es) => Ok(self.begin_or_give(
                alloc,
                Frame::Comparisons(es.as_slice()),
                e.get(),
            )?),
            Code::Connection(connective, e, es) => Ok(self.begin_or_give(
                alloc,
                Frame::Connection(*connective, es.as_slice()),
                e.get(),
            )?),
            Code::Branch(arms, otherwise) => Ok(self.next_arm(
                alloc,
                arms.as_slice(),
                otherwise.get(),
            )?),
            Code::Block(es) => Ok(self.next_part(
                alloc,
                SmallValue {
                    form: Form::Nothing,
                },
                es.as_slice(),
            )?),
            Code::While(first, count, condition, body) => Ok(self.begin_or_give(
                alloc,
                Frame::Condition(*first, *count, condition.get(), body.get()),
                condition.get(),
            )?),
            Code::For(first, count, low, high, body) => Ok(self.begin_or_give(
                alloc,
                Frame::Low(*first, *count, high.get(), body.get()),
                low.get(),
            )?),
            Code::Call(callee, es) => Ok(self.next_argument(
                alloc,
                *callee,
                Items::new(alloc),
                es.as_slice(),
            )?),
            Code::Print(pieces) => Ok(self.next_piece(alloc, pieces.as_slice(), Line::new(alloc))?),
            Code::Error(text) => Ok(Mode::Faulted(error_fault(alloc, text.as_slice())?)),
            Code::Spawn(task) => Ok(self.fork(alloc, program, task)?),
            Code::Sync(e) => Ok(self.begin_sync(alloc, e.get())?),
            Code::Return(e) => Ok(self.begin_or_give(alloc, Frame::Return, e.get())?),
            Code::Break => Ok(Mode::Broke),
            Code::Continue => Ok(Mode::Continued),
        }
    }

    /// Begins a part whose end this frame has.
    pub(crate) fn begin_with(
        &mut self,
        frame: Frame<'p>,
        e: &'p Code,
    ) -> Result<Mode<'p>, OutOfMemory>
        ensures { IfOk result (λ m. (program : ProgramPlan) → Does program self.old (λ (s : State). after program frame.entry (does program (plan_of e.entry.now) s)) (weight (plan_of e.entry.now) + frame_weight frame.entry + 1) self.new m) }
    {
        self.frames.push(frame)?;
        Ok(Mode::Eval(e))
    }

    /// Begins a part whose end this frame has. A value that is read at once is given to the frame.
    fn begin_or_give(
        &mut self,
        alloc: Global,
        frame: Frame<'p>,
        e: &'p Code,
    ) -> Result<Mode<'p>, OutOfMemory>
        ensures { IfOk result (λ m. (program : ProgramPlan) → Does program self.old (λ (s : State). after program frame.entry (does program (plan_of e.entry.now) s)) (weight (plan_of e.entry.now) + frame_weight frame.entry + 1) self.new m) }
    {
        match self.read(alloc, e)? {
            Some(v) => Ok(self.give_to(alloc, frame, v)?),
            None => Ok(self.begin_with(frame, e)?),
        }
    }
}

/// What stands in this slot.
fn known<'p>(
    alloc: Global,
    slots: &[Option<SmallValue>],
    slot: usize,
) -> Result<Mode<'p>, OutOfMemory>
    ensures { IfOk result (λ m. m ≡ known_mode (slice_get slots.now slot)) }
{
    match at(slots, slot) {
        Some(Some(value)) => Ok(Mode::Gave(value.copy(alloc)?)),
        _ => Ok(Mode::Faulted(SmallFault {
            cause: Cause::Undefined,
        })),
    }
}
