//! The objects of operations.

ghost use Rattle.std.specs.Prelude.{◌≡◌};
ghost use Rattle.jt_base.specs.Objects.{object_of, shard_of_object};

use crate::name::Name;
use crate::operation::Op;
use crate::path::Path;

/// What an operation acts on: the printer, a task's completion, or an object with a name.
#[derive(PartialEq, Eq, PartialOrd, Ord, Hash, Debug, Drop)]
pub enum Object {
    /// The one printer of the run.
    Printer,
    /// The completion of the task of this path.
    Task(Path),
    /// The channel, atomic number, event, condition, lock or semaphore of this name.
    Named(Name),
}

impl Object {
    /// The object of an operation of this task. It takes no memory.
    pub fn of(task: &Path, op: &Op) -> Object
        ensures { result ≡ object_of task.now op.now }
    {
        match op {
            Op::Begin | Op::End(_) | Op::Fail(_) | Op::Yield => Object::Task(task.copy()),
            Op::Spawn(path, _) | Op::Fetch(path) | Op::Wait(path) => Object::Task(path.copy()),
            Op::Print(_) => Object::Printer,
            Op::NewChannel(name, _)
            | Op::NewAtomic(name, _)
            | Op::NewEvent(name, _)
            | Op::NewCondition(name)
            | Op::NewLock(name)
            | Op::NewSemaphore(name, _)
            | Op::Put(name, _)
            | Op::Offer(name, _)
            | Op::Landed(name, _)
            | Op::Take(name)
            | Op::Next(name)
            | Op::Close(name)
            | Op::IsOpen(name)
            | Op::IsReady(name)
            | Op::Notify(name)
            | Op::Reset(name)
            | Op::EWait(name)
            | Op::Lock(name)
            | Op::Unlock(name)
            | Op::CWait(name)
            | Op::CBack(name)
            | Op::CNotify(name, _)
            | Op::Acquire(name)
            | Op::Release(name)
            | Op::AGet(name)
            | Op::ASet(name, _)
            | Op::AAdd(name, _)
            | Op::ASub(name, _)
            | Op::AXchg(name, _)
            | Op::ACas(name, _, _) => Object::Named(name.copy()),
        }
    }

    /// The shard that keeps the object: 0 to 15, and 0 for the printer.
    pub fn shard(&self) -> u32
        ensures { result ≡ shard_of_object self.now }
    {
        match self {
            Object::Printer => 0,
            Object::Task(path) => path.shard(),
            Object::Named(name) => name.shard(),
        }
    }

    /// An equal object. It takes no memory.
    pub fn copy(&self) -> Object
        ensures { result ≡ self.now }
    {
        match self {
            Object::Printer => Object::Printer,
            Object::Task(path) => Object::Task(path.copy()),
            Object::Named(name) => Object::Named(name.copy()),
        }
    }
}
