//! How an evaluator makes tasks and acts on them.

ghost use Rattle.std.specs.Prelude.{◌≡◌, [], IfOk, None, slice_get};
ghost use Rattle.jt_program.specs.Plan.{ProgramPlan};
ghost use Rattle.jt_program.specs.View.{program_plan};
ghost use Rattle.jt_meaning.specs.Meaning as meaning;
ghost use Rattle.jt_step.specs.Moves.{Does, built_in_mode};

use crate::evaluator::Evaluator;
use crate::mode::Mode;
use crate::row::valued;
use crate::small::{Cause, Form, SmallFault, SmallValue};
use crate::value::apply;
use jt_base::{How, Op, OutOfMemory, Path, Value};
use jt_meaning::Start;
use jt_program::{BuiltIn, Fork, Program};
use sqlite_items::{Boxed, Items, at};
use std::alloc::Global;

/// An operation that waits for its reply.
pub(crate) fn waits<'p>(alloc: Global, op: Op) -> Result<Mode<'p>, OutOfMemory>
    ensures { IfOk result (λ m. m ≡ Mode.Waits op None) }
{
    Ok(Mode::Waits(Boxed::new(alloc, op)?, None))
}

/// A call of a function of the language: an operation on a task, or a value.
pub(crate) fn call_built_in<'p>(
    alloc: Global,
    function: BuiltIn,
    arguments: &[SmallValue],
) -> Result<Mode<'p>, OutOfMemory>
    ensures { IfOk result (λ m. m ≡ built_in_mode function arguments.now) }
{
    match (function, arguments) {
        (BuiltIn::Fetch, [task]) => match &task.form {
            Form::Task(path) => {
                let mode = waits(alloc, Op::Fetch(path.get().copy()))?;
                Ok(mode)
            }
            _ => Ok(Mode::Faulted(SmallFault {
                cause: Cause::Method,
            })),
        },
        (BuiltIn::Wait, [task]) => match &task.form {
            Form::Task(path) => {
                let mode = waits(alloc, Op::Wait(path.get().copy()))?;
                Ok(mode)
            }
            _ => Ok(Mode::Faulted(SmallFault {
                cause: Cause::Method,
            })),
        },
        (BuiltIn::Yield, []) => {
            let mode = waits(alloc, Op::Yield)?;
            Ok(mode)
        }
        _ => Ok(valued(apply(function, arguments))),
    }
}

/// The values in these slots; nothing where one of them has none.
fn values_taken(
    alloc: Global,
    variables: &[Option<SmallValue>],
    slots: &[usize],
) -> Result<Option<Items<Value>>, OutOfMemory>
    ensures { IfOk result (λ vs. vs ≡ meaning.values_taken [] variables.now slots.now) }
{
    let mut values = Items::new(alloc);
    for slot in slots {
        match at(variables, *slot) {
            Some(Some(value)) => values.push(value.value())?,
            _ => return Ok(None),
        }
    }
    Ok(Some(values))
}

/// The values of all constants; nothing where one of them has none.
fn values_known(
    alloc: Global,
    constants: &[Option<SmallValue>],
) -> Result<Option<Items<Value>>, OutOfMemory>
    ensures { IfOk result (λ vs. vs ≡ meaning.values_known [] constants.now) }
{
    let mut values = Items::new(alloc);
    for constant in constants {
        match constant {
            Some(value) => values.push(value.value())?,
            None => return Ok(None),
        }
    }
    Ok(Some(values))
}

impl<'p> Evaluator<'p> {
    /// The start of a task that is made here; nothing where what it takes has no value.
    fn child_start(&self, alloc: Global, task: &Fork) -> Result<Option<Start>, OutOfMemory>
        ensures { IfOk result (λ start. start ≡ meaning.child_start task.now.body self.now.stream (meaning.values_taken [] self.now.variables task.now.captured) (meaning.values_known [] self.now.constants)) }
    {
        let captured = values_taken(alloc, self.variables.as_slice(), task.captured.as_slice())?;
        let constants = values_known(alloc, self.constants.as_slice())?;
        match (captured, constants) {
            (Some(captured), Some(constants)) => Ok(Some(Start {
                code: task.body,
                captured,
                constants,
                home: false,
                stream: self.stream,
                how: How::Default,
            })),
            _ => Ok(None),
        }
    }

    /// Makes a task: its path and its start are fixed here, and it is made once the spawn is answered.
    pub(crate) fn fork(
        &mut self,
        alloc: Global,
        program: &'p Program,
        task: &'p Fork,
    ) -> Result<Mode<'p>, OutOfMemory>
        ensures { IfOk result (λ m. Does (program_plan program.now) self.old (meaning.fork (slice_get (program_plan program.now).tasks task.now.body) task.now.body task.now.captured task.now.is_awaited) 2 self.new m) }
    {
        match at(program.tasks.as_slice(), task.body as usize) {
            None => Ok(Mode::Faulted(SmallFault {
                cause: Cause::Method,
            })),
            Some(_) => match self.path.child(self.spawned) {
                Err(_) => Ok(Mode::Faulted(SmallFault {
                    cause: Cause::ForkTooDeep,
                })),
                Ok(path) => {
                    let mode = self.fork_with(alloc, path, task)?;
                    Ok(mode)
                }
            },
        }
    }

    /// Makes the task of this path. A task has fewer than 2^32 children, since each spawn has a stamp of
    /// its own: where their count ended, want of memory would be answered.
    fn fork_with(&mut self, alloc: Global, path: Path, task: &Fork) -> Result<Mode<'p>, OutOfMemory>
        ensures { IfOk result (λ m. (program : ProgramPlan) → Does program self.old (meaning.fork_with path task.now.is_awaited (meaning.child_start task.now.body self.old.stream (meaning.values_taken [] self.old.variables task.now.captured) (meaning.values_known [] self.old.constants))) 2 self.new m) }
    {
        match self.child_start(alloc, task)? {
            None => Ok(Mode::Faulted(SmallFault {
                cause: Cause::Undefined,
            })),
            Some(start) => {
                let op = Boxed::new(alloc, Op::Spawn(path.copy(), start.how))?;
                let start = Boxed::new(alloc, start)?;
                let spawned = self.spawned.checked_add(1).ok_or(OutOfMemory)?;
                if task.is_awaited {
                    self.awaited.push(path)?;
                }
                self.spawned = spawned;
                Ok(Mode::Waits(op, Some(start)))
            }
        }
    }
}
