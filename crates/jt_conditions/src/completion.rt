//! A task's completion.

ghost use Rattle.std.specs.Prelude.{◌≡◌, false, ℕ, List, [], Some};
ghost use Rattle.jt_base.specs.declared.entry.Ask.TheVariants.{NotYet};
ghost use Rattle.jt_base.specs.declared.operation.How.{How};
ghost use Rattle.jt_base.specs.declared.operation.Op.TheVariants.{Spawn};
ghost use Rattle.jt_base.specs.declared.object.Object.{Object};
ghost use Rattle.jt_base.specs.Objects.{object_of};
ghost use Rattle.jt_base.specs.declared.object.Object.TheVariants.{Task};
ghost use Rattle.jt_laws.specs.Objects.{Allowed, Asked, MadeBy};
ghost use Rattle.jt_conditions.specs.Answers.{is_done};
ghost use Rattle.jt_conditions.specs.Completions.{completion_left_by};
ghost use Rattle.jt_conditions.specs.CompletionSteps.{is_completion_op, begin_answer, begun, running_answer, finished, fetch_answer, wait_answer};

use jt_base::{Ask, Op, Reply, Value};

/// How far a task has come, which others ask by fetching its result or waiting for its end (Julia
/// manual, "Asynchronous Programming").
#[derive(PartialEq, Eq, Debug, Drop)]
pub enum Completion {
    /// It is made and has not begun.
    Spawned,
    Running,
    /// It ended with this value.
    Ended(Value),
    Failed,
}

impl Completion {
    /// The completion of a task that has not begun: that of a spawned task after its Spawn, and
    /// that of the main task before its Begin.
    pub fn new() -> Completion
        ensures spawned { (path : List ℕ) (how : How) → MadeBy Completion (completion_left_by path) (Spawn path how) result }
        ensures main { completion_left_by [] [] ≡ Some result }
    {
        Completion::Spawned
    }

    /// Answers an operation on the task: its own Begin, Yield, End and Fail, and the Fetch and Wait
    /// of others. `NotYet` exactly where the task's law allows no reply, so also at a second Begin,
    /// and at an End, Fail or Yield before the Begin or after the End or Fail, and at every other
    /// operation, which changes nothing.
    pub fn ask(&mut self, op: &Op) -> Ask
        ensures law { (path task : List ℕ) → object_of task op.now ≡ Task path → Asked Completion (completion_left_by path) task op.now self.old result self.new }
        ensures others { is_completion_op op.now ≡ false → (result ≡ NotYet) × (self.new ≡ self.old) }
    {
        match op {
            Op::Begin => self.begin(),
            Op::Yield => self.pause(),
            Op::End(value) => self.finish(Completion::Ended(value.copy())),
            Op::Fail(_) => self.finish(Completion::Failed),
            Op::Fetch(_) => self.result(),
            Op::Wait(_) => self.outcome(),
            _ => Ask::NotYet,
        }
    }

    /// Whether `ask` would answer this operation with a reply now.
    pub fn allows(&self, op: &Op) -> bool
        ensures law { (path task : List ℕ) → object_of task op.now ≡ Task path → Allowed Completion (completion_left_by path) task op.now self.now result }
        ensures others { is_completion_op op.now ≡ false → result ≡ false }
    {
        match op {
            Op::Begin => self.is_spawned(),
            Op::Yield | Op::End(_) | Op::Fail(_) => self.is_running(),
            Op::Fetch(_) | Op::Wait(_) => self.is_over(),
            _ => false,
        }
    }

    /// Whether the task has not begun.
    fn is_spawned(&self) -> bool
        ensures { result ≡ is_done (begin_answer self.now) }
    {
        matches!(self, Completion::Spawned)
    }

    /// Whether the task has begun and is not over.
    fn is_running(&self) -> bool
        ensures { result ≡ is_done (running_answer self.now) }
    {
        matches!(self, Completion::Running)
    }

    /// Whether the task ended or failed.
    fn is_over(&self) -> bool
        ensures { result ≡ is_done (wait_answer self.now) }
    {
        matches!(self, Completion::Ended(_) | Completion::Failed)
    }

    /// Begins the task, once.
    fn begin(&mut self) -> Ask
        ensures answer { result ≡ begin_answer self.old }
        ensures after { self.new ≡ begun self.old }
    {
        match self {
            Completion::Spawned => {
                *self = Completion::Running;
                Ask::Done(Reply::Ok)
            }
            _ => Ask::NotYet,
        }
    }

    /// Ends a running task.
    fn finish(&mut self, outcome: Completion) -> Ask
        ensures answer { result ≡ running_answer self.old }
        ensures after { self.new ≡ finished outcome self.old }
    {
        match self {
            Completion::Running => {
                *self = outcome;
                Ask::Done(Reply::Ok)
            }
            _ => Ask::NotYet,
        }
    }

    /// Lets other tasks run, while the task is running.
    fn pause(&self) -> Ask
        ensures { result ≡ running_answer self.now }
    {
        match self {
            Completion::Running => Ask::Done(Reply::Ok),
            _ => Ask::NotYet,
        }
    }

    /// The value of a task that ended.
    fn result(&self) -> Ask
        ensures { result ≡ fetch_answer self.now }
    {
        match self {
            Completion::Ended(value) => Ask::Done(Reply::Val(value.copy())),
            Completion::Failed => Ask::Done(Reply::Failed),
            _ => Ask::NotYet,
        }
    }

    /// Whether a task that is over ended or failed.
    fn outcome(&self) -> Ask
        ensures { result ≡ wait_answer self.now }
    {
        match self {
            Completion::Ended(_) => Ask::Done(Reply::Ok),
            Completion::Failed => Ask::Done(Reply::Failed),
            _ => Ask::NotYet,
        }
    }
}
