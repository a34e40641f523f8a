//! The operations by which a task acts on tasks and objects, and what they reply.

ghost use Rattle.std.specs.Prelude.{◌≡◌, IfOk};

use crate::memory::OutOfMemory;
use crate::name::Name;
use crate::path::Path;
use crate::text::Text;
use crate::value::Value;
use std::alloc::Global;

/// How a task is made.
#[derive(Clone, Copy, PartialEq, Eq, Debug)]
pub enum How {
    /// By `@spawn`: any default worker may run it.
    Default,
    /// By `@spawn :interactive`: any interactive worker may run it, or any default worker where
    /// there is no interactive one.
    Interactive,
    /// By `@async`: it is bound to the worker of its spawn.
    Async,
    /// By a `@threads :static` loop: it is the chunk of this number, bound to the worker of the
    /// same number.
    Chunk(u32),
}

/// Why a task fails.
#[derive(PartialEq, Eq, Debug, Drop)]
pub enum Fault {
    /// A division by zero, or of the least number by -1.
    Divide,
    /// An argument outside the function's domain.
    Domain,
    /// A random number from an empty range.
    EmptyRange,
    /// A value of a kind that the operation doesn't take.
    Method,
    /// A use of a variable before its assignment.
    Undefined,
    /// More turns than the limit.
    TurnLimit,
    /// More open calls than the limit.
    StackLimit,
    /// A spawn by a task whose path is full.
    ForkTooDeep,
    /// An operation on a closed channel.
    ChannelClosed,
    /// An unlock, wait or notify without the lock being held.
    NotLocked,
    /// An unlock, wait or notify while another task holds the lock.
    NotOwner,
    /// A release of a semaphore that isn't held.
    ReleaseFree,
    /// A wait for a task that failed.
    TaskFailed(Path),
    /// A `@threads :static` loop outside of the main task.
    StaticNested,
    /// A call of `error` with this text.
    Error(Text),
}

impl Fault {
    /// An equal fault. Only a text takes memory.
    pub fn copy(&self, alloc: Global) -> Result<Fault, OutOfMemory>
        ensures { IfOk result (λ fault. fault ≡ self.now) }
    {
        match self {
            Fault::Divide => Ok(Fault::Divide),
            Fault::Domain => Ok(Fault::Domain),
            Fault::EmptyRange => Ok(Fault::EmptyRange),
            Fault::Method => Ok(Fault::Method),
            Fault::Undefined => Ok(Fault::Undefined),
            Fault::TurnLimit => Ok(Fault::TurnLimit),
            Fault::StackLimit => Ok(Fault::StackLimit),
            Fault::ForkTooDeep => Ok(Fault::ForkTooDeep),
            Fault::ChannelClosed => Ok(Fault::ChannelClosed),
            Fault::NotLocked => Ok(Fault::NotLocked),
            Fault::NotOwner => Ok(Fault::NotOwner),
            Fault::ReleaseFree => Ok(Fault::ReleaseFree),
            Fault::TaskFailed(path) => Ok(Fault::TaskFailed(path.copy())),
            Fault::StaticNested => Ok(Fault::StaticNested),
            Fault::Error(text) => Ok(Fault::Error(text.copy(alloc)?)),
        }
    }
}

/// An operation of a task on its own completion, another task, the printer or an object.
#[derive(PartialEq, Eq, Debug, Drop)]
pub enum Op {
    /// The task begins.
    Begin,
    /// The task ends with a value.
    End(Value),
    /// The task fails.
    Fail(Fault),
    /// A task of this path is made.
    Spawn(Path, How),
    /// Waits for the task's end and replies its value.
    Fetch(Path),
    /// Waits for the task's end.
    Wait(Path),
    /// Lets other tasks run.
    Yield,
    /// Prints a line.
    Print(Text),
    /// Makes a channel of this capacity, unbuffered where it is 0.
    NewChannel(Name, u32),
    /// Makes an atomic number with this value.
    NewAtomic(Name, i64),
    /// Makes an event; whether each wait resets it.
    NewEvent(Name, bool),
    NewCondition(Name),
    NewLock(Name),
    /// Makes a semaphore of this count.
    NewSemaphore(Name, u64),
    /// Puts an item into a buffered channel.
    Put(Name, i64),
    /// Offers an item to the takers of an unbuffered channel; replies the offer's number.
    Offer(Name, i64),
    /// Waits until this many items of an unbuffered channel were taken.
    Landed(Name, u64),
    /// Takes the oldest item left.
    Take(Name),
    /// Takes the oldest item left, or replies that there is no further one.
    Next(Name),
    /// Closes the channel.
    Close(Name),
    IsOpen(Name),
    IsReady(Name),
    /// Sets the event.
    Notify(Name),
    /// Resets the event.
    Reset(Name),
    /// Waits until the event is set.
    EWait(Name),
    Lock(Name),
    Unlock(Name),
    /// Gives up the condition's lock and joins its waiting list.
    CWait(Name),
    /// Takes the condition's lock back after being notified.
    CBack(Name),
    /// Wakes the oldest waiting task, or all of them where the flag is true.
    CNotify(Name, bool),
    Acquire(Name),
    Release(Name),
    /// Reads the atomic number.
    AGet(Name),
    /// Writes the atomic number.
    ASet(Name, i64),
    /// Adds to the atomic number.
    AAdd(Name, i64),
    /// Subtracts from the atomic number.
    ASub(Name, i64),
    /// Exchanges the atomic number.
    AXchg(Name, i64),
    /// Replaces the atomic number by the last argument where it equals the one before.
    ACas(Name, i64, i64),
}

impl Op {
    /// An equal operation. Only a text takes memory.
    pub fn copy(&self, alloc: Global) -> Result<Op, OutOfMemory>
        ensures { IfOk result (λ op. op ≡ self.now) }
    {
        match self {
            Op::Begin => Ok(Op::Begin),
            Op::End(value) => Ok(Op::End(value.copy())),
            Op::Fail(fault) => Ok(Op::Fail(fault.copy(alloc)?)),
            Op::Spawn(path, how) => Ok(Op::Spawn(path.copy(), *how)),
            Op::Fetch(path) => Ok(Op::Fetch(path.copy())),
            Op::Wait(path) => Ok(Op::Wait(path.copy())),
            Op::Yield => Ok(Op::Yield),
            Op::Print(text) => Ok(Op::Print(text.copy(alloc)?)),
            Op::NewChannel(name, capacity) => Ok(Op::NewChannel(name.copy(), *capacity)),
            Op::NewAtomic(name, number) => Ok(Op::NewAtomic(name.copy(), *number)),
            Op::NewEvent(name, resets) => Ok(Op::NewEvent(name.copy(), *resets)),
            Op::NewCondition(name) => Ok(Op::NewCondition(name.copy())),
            Op::NewLock(name) => Ok(Op::NewLock(name.copy())),
            Op::NewSemaphore(name, count) => Ok(Op::NewSemaphore(name.copy(), *count)),
            Op::Put(name, item) => Ok(Op::Put(name.copy(), *item)),
            Op::Offer(name, item) => Ok(Op::Offer(name.copy(), *item)),
            Op::Landed(name, count) => Ok(Op::Landed(name.copy(), *count)),
            Op::Take(name) => Ok(Op::Take(name.copy())),
            Op::Next(name) => Ok(Op::Next(name.copy())),
            Op::Close(name) => Ok(Op::Close(name.copy())),
            Op::IsOpen(name) => Ok(Op::IsOpen(name.copy())),
            Op::IsReady(name) => Ok(Op::IsReady(name.copy())),
            Op::Notify(name) => Ok(Op::Notify(name.copy())),
            Op::Reset(name) => Ok(Op::Reset(name.copy())),
            Op::EWait(name) => Ok(Op::EWait(name.copy())),
            Op::Lock(name) => Ok(Op::Lock(name.copy())),
            Op::Unlock(name) => Ok(Op::Unlock(name.copy())),
            Op::CWait(name) => Ok(Op::CWait(name.copy())),
            Op::CBack(name) => Ok(Op::CBack(name.copy())),
            Op::CNotify(name, all) => Ok(Op::CNotify(name.copy(), *all)),
            Op::Acquire(name) => Ok(Op::Acquire(name.copy())),
            Op::Release(name) => Ok(Op::Release(name.copy())),
            Op::AGet(name) => Ok(Op::AGet(name.copy())),
            Op::ASet(name, number) => Ok(Op::ASet(name.copy(), *number)),
            Op::AAdd(name, number) => Ok(Op::AAdd(name.copy(), *number)),
            Op::ASub(name, number) => Ok(Op::ASub(name.copy(), *number)),
            Op::AXchg(name, number) => Ok(Op::AXchg(name.copy(), *number)),
            Op::ACas(name, expected, new) => Ok(Op::ACas(name.copy(), *expected, *new)),
        }
    }
}

/// What an operation replies.
#[derive(PartialEq, Eq, Debug, Drop)]
pub enum Reply {
    Ok,
    /// An item, a number, a count or an old value.
    Int(i64),
    Flag(bool),
    /// The value of a task that ended: the reply of a fetch alone.
    Val(Value),
    /// The task that was waited for failed.
    Failed,
    /// The channel is closed.
    Closed,
    /// The channel is closed and has no item left.
    NoItem,
    /// The lock is free.
    NotLocked,
    /// Another task holds the lock.
    NotOwner,
    /// The semaphore isn't held.
    NotHeld,
}

impl Reply {
    /// An equal reply. It takes no memory.
    pub fn copy(&self) -> Reply
        ensures { result ≡ self.now }
    {
        match self {
            Reply::Ok => Reply::Ok,
            Reply::Int(number) => Reply::Int(*number),
            Reply::Flag(flag) => Reply::Flag(*flag),
            Reply::Val(value) => Reply::Val(value.copy()),
            Reply::Failed => Reply::Failed,
            Reply::Closed => Reply::Closed,
            Reply::NoItem => Reply::NoItem,
            Reply::NotLocked => Reply::NotLocked,
            Reply::NotOwner => Reply::NotOwner,
            Reply::NotHeld => Reply::NotHeld,
        }
    }
}
