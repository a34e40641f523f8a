//! An evaluator that goes on with the replies of its operations.

ghost use Rattle.std.specs.Prelude.{◌≡◌, ◌≤◌, true, IfOk, length};
ghost use Rattle.jt_base.specs.declared.operation.Reply.TheVariants as reply;
ghost use Rattle.jt_program.specs.View.{program_plan};
ghost use Rattle.jt_meaning.specs.State.{given};
ghost use Rattle.jt_step.specs.Stack.{RunsOn, waits, taken, over_by, given_mode};

use crate::evaluator::Evaluator;
use crate::mode::Mode;
use crate::small::{Form, SmallFault, SmallValue};
use jt_base::{Note, Op, OutOfMemory, Reply};
use jt_program::Program;
use std::alloc::Global;

impl<'p> Evaluator<'p> {
    /// Goes on with the replies of the notes from the number `used` on, by at most so many turns. The
    /// mode at the end, and how many notes were used up to it.
    pub(crate) fn run_on(
        &mut self,
        alloc: Global,
        program: &'p Program,
        log: &[Note],
        used: usize,
        mode: Mode<'p>,
        turns: u32,
    ) -> Result<(Mode<'p>, usize), OutOfMemory>
        requires { used ≤ length log.now }
        ensures { IfOk result (λ r. RunsOn (program_plan program.now) log.now turns self.old used mode.entry self.new r.1 r.0) }
    {
        let mut mode = mode;
        let mut used = used;
        let mut taken = 0;
        'moves: loop {
            mode = self.settle(alloc, program, mode)?;
            if self.begins(program, &mode) {
                if taken == turns {
                    return Ok((mode, used));
                }
                taken += 1;
                mode = self.begin(alloc, program, mode)?;
            } else {
                if used == log.len() || !waits(&mode) {
                    return Ok((mode, used));
                }
                mode = answer(alloc, mode, &log[used].reply)?;
                used += 1;
            }
        }
    }
}

/// Whether an operation waits for its reply.
fn waits(mode: &Mode) -> bool
    ensures { result ≡ waits mode.now }
{
    match mode {
        Mode::Begins(_) => true,
        Mode::Waits(_, _) => true,
        Mode::Ending(_) => true,
        Mode::Failing(_) => true,
        _ => false,
    }
}

/// Gives a reply to the operation that waits.
fn answer<'p>(alloc: Global, mode: Mode<'p>, reply: &Reply) -> Result<Mode<'p>, OutOfMemory>
    requires { waits mode ≡ true }
    ensures { IfOk result (λ m. m ≡ taken mode.entry reply.now) }
{
    match mode {
        Mode::Begins(e) => match reply {
            Reply::Ok => Ok(Mode::Eval(e)),
            _ => Ok(Mode::Unfit),
        },
        Mode::Waits(op, _start) => given(alloc, op.get(), reply),
        Mode::Ending(_v) => Ok(over(reply)),
        Mode::Failing(_fault) => Ok(over(reply)),
        _ => unreachable!(),
    }
}

/// What an operation gives by its reply.
fn given<'p>(alloc: Global, op: &Op, reply: &Reply) -> Result<Mode<'p>, OutOfMemory>
    ensures { IfOk result (λ m. m ≡ given_mode (given op.now reply.now)) }
{
    match reply {
        Reply::Ok => given_ok(alloc, op),
        Reply::Val(value) => match op {
            Op::Fetch(_) => Ok(Mode::Gave(SmallValue::of(alloc, value)?)),
            _ => Ok(Mode::Unfit),
        },
        Reply::Failed => match op {
            Op::Fetch(path) | Op::Wait(path) => {
                Ok(Mode::Faulted(SmallFault::task_failed(alloc, path)?))
            }
            _ => Ok(Mode::Unfit),
        },
        _ => Ok(Mode::Unfit),
    }
}

/// What an operation gives that is done.
fn given_ok<'p>(alloc: Global, op: &Op) -> Result<Mode<'p>, OutOfMemory>
    ensures { IfOk result (λ m. m ≡ given_mode (given op.now reply.Ok)) }
{
    match op {
        Op::Begin | Op::End(_) | Op::Fail(_) => Ok(Mode::Gave(SmallValue {
            form: Form::Nothing,
        })),
        Op::Print(_) | Op::Wait(_) | Op::Yield => Ok(Mode::Gave(SmallValue {
            form: Form::Nothing,
        })),
        Op::Spawn(path, _) => Ok(Mode::Gave(SmallValue::task(alloc, path)?)),
        _ => Ok(Mode::Unfit),
    }
}

/// The end of the task.
fn over<'p>(reply: &Reply) -> Mode<'p>
    ensures { result ≡ over_by reply.now }
{
    match reply {
        Reply::Ok => Mode::Over,
        _ => Mode::Unfit,
    }
}
