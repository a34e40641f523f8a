//! How an evaluator waits for the tasks that were made in an `@sync`.

ghost use Rattle.std.specs.Prelude.{◌≡◌, ◌+◌, [], IfOk, None, Some, drop};
ghost use Rattle.jt_program.specs.Plan.{ProgramPlan};
ghost use Rattle.jt_program.specs.View.{plan_of};
ghost use Rattle.jt_meaning.specs.Meaning.{awaiting, first_fault, synced, unless_failed, wait_all};
ghost use Rattle.jt_step.specs.Moves.{Does, left_mode};
ghost use Rattle.jt_step.specs.Stack.{does, exits, weight};
ghost use Rattle.jt_meaning.specs.State.{State};

use crate::evaluator::Evaluator;
use crate::frame::{Exit, Frame, Waits};
use crate::mode::Mode;
use crate::small::{SmallFault, SmallValue};
use jt_base::{Op, OutOfMemory, Path};
use jt_program::Code;
use sqlite_items::{Boxed, Items, at};
use std::alloc::Global;
use std::mem::replace;

impl Waits {
    /// The same waits, of which one has failed: the first fault counts.
    pub(crate) fn failed(self, fault: SmallFault) -> Waits
        ensures { result ≡ record self { fault = first_fault self.fault fault } }
    {
        Waits {
            paths: self.paths,
            next: self.next,
            fault: Some(earlier(self.fault, fault)),
            exit: self.exit,
            value: self.value,
        }
    }
}

/// The first of two faults, where there is one before.
fn earlier(first: Option<SmallFault>, fault: SmallFault) -> SmallFault
    ensures { Some result ≡ first_fault first fault }
{
    match first {
        None => fault,
        Some(first) => first,
    }
}

/// How the part of an `@sync` ends once its tasks were waited for.
fn left<'p>(exit: Exit, value: SmallValue, fault: Option<SmallFault>) -> Mode<'p>
    ensures { result ≡ left_mode exit value fault }
{
    match fault {
        Some(fault) => Mode::Faulted(fault),
        None => match exit {
            Exit::Value => Mode::Gave(value),
            Exit::Return => Mode::Returned(value),
        },
    }
}

impl<'p> Evaluator<'p> {
    /// Begins the part of an `@sync`.
    pub(crate) fn begin_sync(&mut self, alloc: Global, e: &'p Code) -> Result<Mode<'p>, OutOfMemory>
        ensures { IfOk result (λ m. (program : ProgramPlan) → Does program self.old (λ (s : State). synced s.awaited (does program (plan_of e.entry.now) (awaiting [] s))) (weight (plan_of e.entry.now) + 4) self.new m) }
    {
        let outer = replace(&mut self.awaited, Items::new(alloc));
        self.frames.push(Frame::Sync(outer))?;
        Ok(Mode::Eval(e))
    }

    /// The part of an `@sync` has ended so: waits for the tasks that were made in it.
    pub(crate) fn end_sync(
        &mut self,
        alloc: Global,
        outer: Items<Path>,
        exit: Exit,
        value: SmallValue,
    ) -> Result<Mode<'p>, OutOfMemory>
        ensures { IfOk result (λ m. (program : ProgramPlan) → Does program self.old (λ (s : State). synced outer (exits exit value s)) 3 self.new m) }
    {
        let paths = replace(&mut self.awaited, outer);
        let mode = self.next_wait(
            alloc,
            Waits {
                paths,
                next: 0,
                fault: None,
                exit,
                value,
            },
        )?;
        Ok(mode)
    }

    /// Waits for the next of the tasks that are left.
    pub(crate) fn next_wait(&mut self, alloc: Global, waits: Waits) -> Result<Mode<'p>, OutOfMemory>
        ensures { IfOk result (λ m. (program : ProgramPlan) → Does program self.old (wait_all (drop waits.next waits.paths) waits.fault (unless_failed (exits waits.exit waits.value))) 2 self.new m) }
    {
        match at(waits.paths.as_slice(), waits.next) {
            None => Ok(left(waits.exit, waits.value, waits.fault)),
            Some(path) => {
                let op = Op::Wait(path.copy());
                let waits = Waits {
                    paths: waits.paths,
                    next: waits.next + 1,
                    fault: waits.fault,
                    exit: waits.exit,
                    value: waits.value,
                };
                self.frames.push(Frame::Waiting(Boxed::new(alloc, waits)?))?;
                let mode = crate::fork::waits(alloc, op)?;
                Ok(mode)
            }
        }
    }
}
