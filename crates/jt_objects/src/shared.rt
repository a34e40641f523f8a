//! The state of one shared object.

ghost use Rattle.std.specs.Prelude.{◌≡◌, ℕ, List, [], Some, true, false, IfSome, IfNone, OnOk};
ghost use Rattle.jt_base.specs.declared.entry.Ask.TheVariants as asked;
ghost use Rattle.jt_base.specs.declared.operation.Op.{Op as OpOf};
ghost use Rattle.jt_base.specs.Objects.{object_of};
ghost use Rattle.jt_laws.specs.Objects.{Allowed, Asked, MadeBy};
ghost use Rattle.jt_objects.specs.States.{ObjectState, OfPrinter, OfTask, Unmade, OfAtomic, makes_object, named_left_by, left_by};
ghost use Rattle.jt_objects.specs.Needs.{state_of, HasObjectRoom, IsWithin};

use jt_base::{Ask, Object, Op, OutOfMemory, Path, Reply};
use jt_channels::{Cell64, Chan};
use jt_conditions::{Completion, CondLock, Event, Lock, Sema};
use std::alloc::Global;

/// The state of one object that tasks share.
#[derive(Drop)]
pub enum Shared {
    /// The printer, which has none.
    Printer,
    /// A task's completion. None before the task's Spawn.
    Task(Option<Completion>),
    /// A named object that isn't made yet.
    Unmade,
    Channel(Chan),
    Atomic(Cell64),
    Event(Event),
    Condition(CondLock),
    Lock(Lock),
    Semaphore(Sema),
}

impl Shared {
    /// The state of an object without entries. It takes no memory.
    pub fn empty(object: &Object) -> Shared
        ensures { left_by object.now [] ≡ Some (state_of result) }
    {
        match object {
            Object::Printer => Shared::Printer,
            Object::Task(path) if path.is_main() => Shared::Task(Some(Completion::new())),
            Object::Task(_) => Shared::Task(None),
            Object::Named(_) => Shared::Unmade,
        }
    }

    /// Makes room for what the operation leaves in the object: an item of a channel, or a task that
    /// waits on a condition. After `OutOfMemory` the object is as before.
    pub fn reserve(&mut self, op: &Op) -> Result<(), OutOfMemory>
        ensures state { state_of self.new ≡ state_of self.old }
        ensures kept { (earlier : OpOf) → HasObjectRoom self.old earlier → HasObjectRoom self.new earlier }
        ensures room { OnOk result (HasObjectRoom self.new op.now) }
    {
        match (self, op) {
            (Shared::Channel(channel), Op::Put(_, _) | Op::Offer(_, _)) => channel.reserve(),
            (Shared::Condition(condition), Op::CWait(_)) => condition.reserve(),
            _ => Ok(()),
        }
    }

    /// Answers a task's operation on this object. `NotYet` exactly where the law of objects allows
    /// no reply, so also at every operation on an object that isn't made yet but the one that makes
    /// it, at a second one of these, and at operations on another kind of object: the object is then
    /// as it was. It takes no memory.
    pub fn ask(&mut self, alloc: Global, task: &Path, op: &Op) -> Ask
        requires reserved { HasObjectRoom self.old op.now }
        requires small { IsWithin (state_of self.old) task.now op.now }
        ensures law { Asked ObjectState (left_by (object_of task.now op.now)) task.now op.now (state_of self.old) result (state_of self.new) }
        ensures not_yet { result ≡ asked.NotYet → self.new ≡ self.old }
    {
        match self {
            Shared::Printer => print(op),
            Shared::Task(completion) => ask_task(completion, op),
            Shared::Unmade => make(self, alloc, op),
            Shared::Channel(channel) => channel.ask(op),
            Shared::Atomic(atomic) => ask_atomic(atomic, op),
            Shared::Event(event) => event.ask(op),
            Shared::Condition(condition) => condition.ask(task, op),
            Shared::Lock(lock) => lock.ask(task, op),
            Shared::Semaphore(semaphore) => semaphore.ask(op),
        }
    }

    /// Whether `ask` would answer a task's operation `Done` now.
    pub fn allows(&self, task: &Path, op: &Op) -> bool
        ensures { Allowed ObjectState (left_by (object_of task.now op.now)) task.now op.now (state_of self.now) result }
    {
        match self {
            Shared::Printer => matches!(op, Op::Print(_)),
            Shared::Task(completion) => allows_task(completion, op),
            Shared::Unmade => makes_object(op),
            Shared::Channel(channel) => channel.allows(op),
            Shared::Atomic(atomic) => atomic.allows(op),
            Shared::Event(event) => event.allows(op),
            Shared::Condition(condition) => condition.allows(task, op),
            Shared::Lock(lock) => lock.allows(task, op),
            Shared::Semaphore(semaphore) => semaphore.allows(op),
        }
    }
}

/// Answers an operation on the printer: a print is always allowed.
fn print(op: &Op) -> Ask
    ensures { (task : List ℕ) → Asked ObjectState (left_by (object_of task op.now)) task op.now OfPrinter result OfPrinter }
{
    match op {
        Op::Print(_) => Ask::Done(Reply::Ok),
        _ => Ask::NotYet,
    }
}

/// Answers an operation on a task. A Spawn makes a task that isn't there, and nothing else is
/// allowed then.
fn ask_task(completion: &mut Option<Completion>, op: &Op) -> Ask
    ensures law { (task : List ℕ) → Asked ObjectState (left_by (object_of task op.now)) task op.now (OfTask completion.old) result (OfTask completion.new) }
    ensures not_yet { result ≡ asked.NotYet → completion.new ≡ completion.old }
{
    match completion {
        Some(completion) => completion.ask(op),
        None => match op {
            Op::Spawn(_, _) => {
                *completion = Some(Completion::new());
                Ask::Done(Reply::Ok)
            }
            _ => Ask::NotYet,
        },
    }
}

/// Whether an operation on a task is allowed.
fn allows_task(completion: &Option<Completion>, op: &Op) -> bool
    ensures { (task : List ℕ) → Allowed ObjectState (left_by (object_of task op.now)) task op.now (OfTask completion.now) result }
{
    match completion {
        Some(completion) => completion.allows(op),
        None => matches!(op, Op::Spawn(_, _)),
    }
}

/// Answers an operation on an atomic number.
fn ask_atomic(atomic: &mut Cell64, op: &Op) -> Ask
    ensures law { (task : List ℕ) → Asked ObjectState (left_by (object_of task op.now)) task op.now (OfAtomic atomic.old) result (OfAtomic atomic.new) }
    ensures not_yet { result ≡ asked.NotYet → atomic.new ≡ atomic.old }
{
    if !atomic.allows(op) {
        return Ask::NotYet;
    }
    atomic.ask(op)
}

/// Makes a named object that isn't made yet. No other operation is allowed then.
fn make(object: &mut Shared, alloc: Global, op: &Op) -> Ask
    requires { state_of object.old ≡ Unmade }
    ensures law { (task : List ℕ) → Asked ObjectState (left_by (object_of task op.now)) task op.now Unmade result (state_of object.new) }
    ensures not_yet { result ≡ asked.NotYet → object.new ≡ object.old }
{
    match made(alloc, op) {
        Some(new) => {
            *object = new;
            Ask::Done(Reply::Ok)
        }
        None => Ask::NotYet,
    }
}

/// The object that an operation makes, if it makes one.
fn made(alloc: Global, op: &Op) -> Option<Shared>
    ensures new { IfSome result (λ object. MadeBy ObjectState named_left_by op.now (state_of object)) }
    ensures makes { IfSome result (λ object. makes_object op.now ≡ true) }
    ensures none { IfNone result (makes_object op.now ≡ false) }
{
    match op {
        Op::NewChannel(_, capacity) => Some(Shared::Channel(Chan::new(alloc, *capacity))),
        Op::NewAtomic(_, number) => Some(Shared::Atomic(Cell64::new(*number))),
        Op::NewEvent(_, auto) => Some(Shared::Event(Event::new(*auto))),
        Op::NewCondition(_) => Some(Shared::Condition(CondLock::new(alloc))),
        Op::NewLock(_) => Some(Shared::Lock(Lock::new())),
        Op::NewSemaphore(_, count) => Some(Shared::Semaphore(Sema::new(*count))),
        _ => None,
    }
}

/// Whether an operation makes a named object.
fn makes_object(op: &Op) -> bool
    ensures { result ≡ makes_object op.now }
{
    matches!(
        op,
        Op::NewChannel(_, _)
            | Op::NewAtomic(_, _)
            | Op::NewEvent(_, _)
            | Op::NewCondition(_)
            | Op::NewLock(_)
            | Op::NewSemaphore(_, _)
    )
}
