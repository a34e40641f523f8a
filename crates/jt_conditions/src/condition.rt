//! Conditions.

ghost use Rattle.std.specs.Prelude.{◌≡◌, ◌^◌, ◌<◌, ◌≤◌, ℕ, List, true, false, OnOk};
ghost use Rattle.jt_base.specs.declared.entry.Ask.TheVariants.{Done, NotYet};
ghost use Rattle.jt_base.specs.declared.name.Name.{Name};
ghost use Rattle.jt_base.specs.declared.operation.Op.TheVariants.{NewCondition, Lock as Locks, CWait};
ghost use Rattle.jt_base.specs.declared.operation.Reply.TheVariants as reply;
ghost use Rattle.jt_base.specs.declared.object.Object.{Object};
ghost use Rattle.jt_base.specs.Objects.{object_of};
ghost use Rattle.jt_base.specs.declared.object.Object.TheVariants.{Named};
ghost use Rattle.jt_laws.specs.Objects.{Allowed, Asked, MadeBy};
ghost use Rattle.jt_conditions.specs.Locks.{level_in, reply_to};
ghost use Rattle.jt_conditions.specs.Conditions.{Condition, condition_left_by, is_condition_op, after_wait, how_many, woken, notify_answer, after_notify, returning, back_answer, after_back};

use crate::absence::{Absence, Absences};
use crate::lock::Lock;
use crate::waiting_list::WaitingList;
use jt_base::{Ask, Op, OutOfMemory, Path, Reply};
use std::alloc::Global;
use std::marker::Model;

/// A condition: a lock with a list of tasks that gave it up and wait to be notified (Julia manual,
/// `Threads.Condition`). Contracts see who holds the lock, who waits, and what the tasks that are
/// not back gave up; and for how many waits memory is reserved.
#[derive(Debug, Drop)]
pub struct CondLock {
    lock: Lock,
    /// The tasks that wait, the oldest first.
    waiting: WaitingList,
    /// Those tasks and the ones that were notified, until they are back.
    absent: Absences,
}

impl Model for CondLock {
    ghost use Rattle.std.specs.Prelude.{min};
    ghost use Rattle.jt_laws.specs.Objects.{WithRoom};
    ghost use Rattle.jt_conditions.specs.Absences.{with_room_code};
    ghost use Rattle.jt_conditions.specs.Conditions.{Condition, condition_code};

    ghost Value = { WithRoom Condition };

    ghost coded = { with_room_code condition_code };

    ghost view = { λ c. record { state = record { holder = c.lock; waiting = c.waiting.state; absent = c.absent.state }; room = min c.waiting.room c.absent.room } };
}

impl CondLock {
    /// A condition with a free lock, for which no task waits. It takes no memory yet.
    pub fn new(alloc: Global) -> CondLock
        ensures made { (name : Name) → MadeBy Condition condition_left_by (NewCondition name) result.state }
    {
        CondLock {
            lock: Lock::new(),
            waiting: WaitingList::new(alloc),
            absent: Absences::new(alloc),
        }
    }

    /// Makes room for one CWait. `OutOfMemory` also where 2^32 tasks wait, or where 2^32 waits were
    /// made since all tasks were back. After it the condition is as before.
    pub fn reserve(&mut self) -> Result<(), OutOfMemory>
        ensures state { self.new.state ≡ self.old.state }
        ensures kept { self.old.room ≤ self.new.room }
        ensures room { OnOk result (0 < self.new.room) }
    {
        self.absent.reserve()?;
        self.waiting.reserve()?;
        Ok(())
    }

    /// Answers a task's Lock, Unlock, CWait, CBack or CNotify of this condition. `NotYet` exactly
    /// where the law of objects allows no reply, at a Lock while another task holds the lock and at
    /// a CBack before the task was notified or while the lock is held, and at every other operation:
    /// the condition is then as it was. An Unlock, CWait or CNotify by a task that doesn't hold the
    /// lock changes nothing and is told so.
    pub fn ask(&mut self, task: &Path, op: &Op) -> Ask
        requires levels { (name : Name) → op.now ≡ Locks name → level_in self.old.state.holder task.now < 2 ^ 32 }
        requires reserved { (name : Name) → op.now ≡ CWait name → 0 < self.old.room }
        ensures law { (name : Name) → object_of task.now op.now ≡ Named name → Asked Condition condition_left_by task.now op.now self.old.state result self.new.state }
        ensures not_yet { result ≡ NotYet → self.new ≡ self.old }
        ensures others { is_condition_op op.now ≡ false → result ≡ NotYet }
    {
        match op {
            Op::Lock(_) => self.lock.lock(task),
            Op::Unlock(_) => self.lock.unlock(task),
            Op::CWait(_) => self.wait(task),
            Op::CBack(_) => self.back(task),
            Op::CNotify(_, all) => self.notify(task, *all),
            _ => Ask::NotYet,
        }
    }

    /// Whether `ask` would answer a task's operation with a reply now.
    pub fn allows(&self, task: &Path, op: &Op) -> bool
        ensures law { (name : Name) → object_of task.now op.now ≡ Named name → Allowed Condition condition_left_by task.now op.now self.now.state result }
        ensures others { is_condition_op op.now ≡ false → result ≡ false }
    {
        match op {
            Op::Lock(_) => self.lock.is_free_to(task),
            Op::CBack(_) => self.returning(task).is_some(),
            Op::Unlock(_) | Op::CWait(_) | Op::CNotify(_, _) => true,
            _ => false,
        }
    }

    /// Gives the lock up, and joins the waiting list.
    fn wait(&mut self, task: &Path) -> Ask
        requires reserved { 0 < self.old.room }
        ensures answer { result ≡ Done (reply_to self.old.state.holder task.now reply.Ok) }
        ensures after { self.new.state ≡ after_wait self.old.state task.now }
    {
        let level = match self.lock.level_of(task) {
            Ok(level) => level,
            Err(reply) => return Ask::Done(reply),
        };
        self.absent.wait(task, level);
        self.waiting.join(task.copy());
        self.lock.release();
        Ask::Done(Reply::Ok)
    }

    /// What is kept of a task that may take the lock back: it was notified, and the lock is free.
    fn returning(&self, task: &Path) -> Option<Absence>
        ensures { result ≡ returning self.now.state task.now }
    {
        if !self.lock.is_free() {
            return None;
        }
        match self.absent.get(task) {
            Some(absence) if absence.notified > 0 => Some(absence),
            _ => None,
        }
    }

    /// Takes the lock back after being notified.
    fn back(&mut self, task: &Path) -> Ask
        ensures answer { result ≡ back_answer self.old.state task.now }
        ensures after { self.new.state ≡ after_back self.old.state task.now }
        ensures not_yet { result ≡ NotYet → self.new ≡ self.old }
    {
        let Some(absence) = self.returning(task) else {
            return Ask::NotYet;
        };
        self.absent.one_less_wait(task, absence);
        self.lock.hold(task, absence.level);
        Ask::Done(Reply::Ok)
    }

    /// Takes the oldest task from the waiting list, or all of them.
    fn notify(&mut self, task: &Path, all: bool) -> Ask
        ensures answer { result ≡ notify_answer self.old.state task.now all }
        ensures after { self.new.state ≡ after_notify self.old.state task.now all }
    {
        if let Err(reply) = self.lock.level_of(task) {
            return Ask::Done(reply);
        }
        let count = if all {
            self.notify_all()
        } else {
            self.notify_one()
        };
        Ask::Done(Reply::Int(count as i64))
    }

    /// Takes all tasks from the waiting list, and gives their number.
    fn notify_all(&mut self) -> usize
        ensures count { result ≡ how_many true self.old.state.waiting }
        ensures most { result ≤ 2 ^ 32 }
        ensures after { self.new.state ≡ woken true self.old.state }
    {
        let count = self.waiting.len();
        self.absent.notify_all();
        self.waiting.leave(count);
        count
    }

    /// Takes the oldest task from the waiting list, if there is one, and gives the number of tasks
    /// taken.
    fn notify_one(&mut self) -> usize
        ensures count { result ≡ how_many false self.old.state.waiting }
        ensures most { result ≤ 1 }
        ensures after { self.new.state ≡ woken false self.old.state }
    {
        match self.waiting.first() {
            Some(task) => self.absent.notify(task),
            None => return 0,
        }
        self.waiting.leave(1);
        1
    }
}

impl CondLock {
    /// How many times a task holds the condition's lock: 0 where it doesn't, also while it waits.
    pub fn level(&self, task: &Path) -> u64
        ensures { result ≡ level_in self.now.state.holder task.now }
    {
        self.lock.level(task)
    }
}
