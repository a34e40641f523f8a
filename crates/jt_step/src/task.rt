//! A task that runs, stopped between its operations.

ghost use Rattle.std.specs.Prelude.{◌≡◌, ◌<◌, length, true, false, IfOk, OnErr, IsErr};
ghost use Rattle.jt_program.specs.View.{program_plan};
ghost use Rattle.jt_base.specs.declared.run.Pool.{Pool};
ghost use Rattle.jt_base.specs.declared.run.Sizes.{Sizes};
ghost use Rattle.jt_step.specs.Tasks.{Advances, AsksWell, GoesOn, new_task, seat_at};

use crate::evaluator::Evaluator;
use crate::mode::Mode;
use jt_base::{How, Job, Limits, Note, Op, OutOfMemory, Path, Pool, Reply, Sizes};
use jt_meaning::Start;
use jt_program::Program;
use std::alloc::Global;
use std::marker::Model;
use std::mem::replace;

/// What a task comes to.
#[derive(Drop)]
pub enum Advance {
    /// All the turns were taken, and a further one begins before the next operation.
    More,
    /// It needs this operation, and waits for its reply.
    Needs(Op),
    /// It needs this spawn, and waits for its reply: the child's start.
    Spawns(Op, Start),
    /// It has ended or failed.
    Over,
}

/// What is known of a task that runs.
#[derive(Drop)]
pub struct TaskState<'p> {
    program: &'p Program,
    sizes: Sizes,
    limits: Limits,
    path: Path,
    start: Start,
    pool: Pool,
    /// The worker to which it is bound.
    bound: Option<u32>,
    log: Vec<Note>,
    /// How many notes the evaluator has had.
    used: usize,
    evaluator: Evaluator<'p>,
    mode: Mode<'p>,
    /// Whether memory was refused in an advance.
    failed: bool,
    alloc: Global,
}

/// A task that runs, with the notes of its operations so far. It is one word, so that it is moved at
/// no cost.
#[derive(Drop)]
pub struct TaskRun<'p> {
    state: Box<TaskState<'p>>,
}

impl<'p> Model for TaskRun<'p> {
    ghost use Rattle.jt_step.specs.Codes.{Label, coded_program};
    ghost use Rattle.jt_step.specs.Task.{IsCurrent, seen};
    ghost use Rattle.jt_step.specs.Tasks.{Task};
    ghost use Rattle.std.specs.Coded.{Coded, codes};

    ghost Value = { Task };

    ghost coded = { let c : Coded Label = Prim.hlevel codes in Prim.hlevel (codes, coded_program c) };

    ghost view = { λ t. seen t.state.value };

    ghost invariant = { λ t. IsCurrent t.state.value };
}

/// The pool of a task that is made in this way, where `parent` is the pool of its maker.
fn pool_of(path: &Path, how: How, sizes: Sizes, parent: Pool) -> Pool
    ensures { result ≡ (seat_at sizes path.now how parent).pool }
{
    if path.is_main() {
        return Pool::Default;
    }
    match how {
        How::Default | How::Chunk(_) => Pool::Default,
        How::Interactive => {
            if sizes.interactive == 0 {
                Pool::Default
            } else {
                Pool::Interactive
            }
        }
        How::Async => parent,
    }
}

/// The worker to which a task is bound at its beginning.
fn bound_of(path: &Path, how: How) -> Option<u32>
    ensures { (sizes : Sizes) (parent : Pool) → result ≡ (seat_at sizes path.now how parent).bound }
{
    if path.is_main() {
        return Some(0);
    }
    match how {
        How::Chunk(number) => Some(number),
        _ => None,
    }
}

impl<'p> TaskRun<'p> {
    /// A task at its beginning, with no notes. `parent` is the pool of the task that makes it, and
    /// `Default` for the main task.
    ///
    /// # Errors
    ///
    /// Where memory is wanting.
    pub fn start(
        alloc: Global,
        program: &'p Program,
        start: Start,
        path: Path,
        sizes: Sizes,
        limits: &Limits,
        parent: Pool,
    ) -> Result<TaskRun<'p>, OutOfMemory>
        requires body { start.code < length program.now.tasks }
        ensures { IfOk result (λ t. t ≡ new_task (record { program = program_plan program.now; sizes = sizes; limits = limits.now }) path start parent) }
    {
        let body = &program.tasks.as_slice()[start.code as usize];
        let evaluator = Evaluator::new(
            alloc,
            program,
            body.variables,
            &start,
            &path,
            limits.turns,
        )?;
        let pool = pool_of(&path, start.how, sizes, parent);
        let bound = bound_of(&path, start.how);
        let state = TaskState {
            program,
            sizes,
            limits: *limits,
            path,
            start,
            pool,
            bound,
            log: Vec::new(alloc),
            used: 0,
            evaluator,
            mode: Mode::Begins(&body.code),
            failed: false,
            alloc,
        };
        Ok(TaskRun {
            state: Box::new(alloc, state)?,
        })
    }

    /// Goes on by at most so many turns, up to the operation that the task needs after its notes: the
    /// same again while it has no reply. `OutOfMemory` where memory is refused: the task is given up, and
    /// each later call answers the same.
    pub fn advance(&mut self, turns: u32) -> Result<Advance, OutOfMemory>
        ensures ok { IfOk result (λ a. Advances self.old turns a self.new) }
        ensures goes_on { IfOk result (λ a. GoesOn self.new a) }
        ensures asks_well { IfOk result (λ a. AsksWell self.new a) }
        ensures err { OnErr result (self.new.failed ≡ true) }
        ensures kept { OnErr result (self.new ≡ record self.old { taken = self.new.taken; failed = true }) }
        ensures stuck { self.old.failed ≡ true → IsErr result }
    {
        let state = &mut *self.state;
        if state.failed {
            return Err(OutOfMemory);
        }
        state.failed = true;
        let mode = replace(&mut state.mode, Mode::Over);
        let (mode, used) = state.evaluator.run_on(
            state.alloc,
            state.program,
            state.log.as_slice(),
            state.used,
            mode,
            turns,
        )?;
        let advance = mode.advance(state.alloc)?;
        state.used = used;
        state.mode = mode;
        state.failed = false;
        Ok(advance)
    }
}

impl<'p> Job for TaskRun<'p> {
    ghost use Rattle.jt_step.specs.Laws.{first_operation, needs_no_spawn, spawns_next_child};
    ghost use Rattle.jt_meaning.specs.Run.{Run};
    ghost use Rattle.jt_meaning.specs.Next.{next_operation};
    ghost use Rattle.jt_step.specs.Tasks.{Task, told_of};

    type Start = Start;

    ghost Run = { Run };

    ghost run = { λ (t : Task). t.run };

    ghost told = { told_of };

    ghost room = { λ (t : Task). t.room };

    ghost next = { next_operation };

    fn path(&self) -> &Path {
        &self.state.path
    }

    fn pool(&self) -> Pool {
        self.state.pool
    }

    fn bound(&self) -> Option<u32> {
        self.state.bound
    }

    fn priority(&self) -> u16 {
        64 - self.state.path.len() as u16
    }

    fn last_stamp(&self) -> u32 {
        match self.state.log.last() {
            None => 0,
            Some(note) => note.stamp,
        }
    }

    fn reserve_note(&mut self) -> Result<(), OutOfMemory> {
        self.state.log.try_reserve(1)?;
        Ok(())
    }

    fn note(&mut self, stamp: u32, reply: Reply) {
        match self.state.log.push(Note { stamp, reply }) {
            Ok(()) => {}
            Err(_) => unreachable!(),
        }
    }

    fn bind(&mut self, worker: u32) {
        self.state.bound = Some(worker);
    }

    ghost begins = { λ r path start n. first_operation r path start n };

    ghost no_spawn = { λ r path start rs op. needs_no_spawn r path start rs op };

    ghost names = { λ r path start rs op t. spawns_next_child r path start rs op t };
}
