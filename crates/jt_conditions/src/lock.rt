//! Locks.

ghost use Rattle.std.specs.Prelude.{◌≡◌, ◌^◌, ◌<◌, ℕ, List, Option, Some, None, false, is_none};
ghost use Rattle.jt_base.specs.declared.entry.Ask.TheVariants.{Done, NotYet};
ghost use Rattle.jt_base.specs.declared.name.Name.{Name};
ghost use Rattle.jt_base.specs.declared.operation.Op.TheVariants.{NewLock, Lock as Locks};
ghost use Rattle.jt_base.specs.declared.operation.Reply.TheVariants as reply;
ghost use Rattle.jt_base.specs.declared.object.Object.{Object};
ghost use Rattle.jt_base.specs.Objects.{object_of};
ghost use Rattle.jt_laws.specs.Entries.{same_path};
ghost use Rattle.jt_base.specs.declared.object.Object.TheVariants.{Named};
ghost use Rattle.jt_laws.specs.Objects.{Allowed, Asked, MadeBy};
ghost use Rattle.jt_conditions.specs.Answers.{is_done};
ghost use Rattle.jt_conditions.specs.Locks.{Holder, is_lock_op, lock_left_by, level_in, lock_answer, after_lock, reply_to, after_unlock, holding};

use jt_base::{Ask, Op, Path, Reply};
use std::marker::Model;

/// The task that holds a lock.
#[derive(Debug, Drop)]
struct Hold {
    task: Path,
    /// How often the task took the lock and did not give it back, at least 1.
    level: u64,
}

impl Hold {
    fn is_of(&self, task: &Path) -> bool
        ensures { result ≡ same_path self.now.task task.now }
    {
        self.task == *task
    }
}

/// A lock that its task may take more than once, and then has to give back as often (Julia manual,
/// `ReentrantLock`). Contracts see which task holds it, and how often.
#[derive(Debug, Drop)]
pub struct Lock {
    hold: Option<Hold>,
}

impl Model for Lock {
    ghost use Rattle.std.specs.Prelude.{Option, option_map};
    ghost use Rattle.jt_conditions.specs.Locks.{Holder};

    ghost Value = { Option Holder };

    ghost view = { λ l. option_map (λ h. record { task = h.task; level = h.level }) l.hold };
}

impl Lock {
    /// A free lock.
    pub fn new() -> Lock
        ensures made { (name : Name) → MadeBy (Option Holder) lock_left_by (NewLock name) result }
        ensures free { result ≡ None }
    {
        Lock { hold: None }
    }

    /// Answers a task's Lock or Unlock of this lock. `NotYet` exactly where the law of objects
    /// allows no reply, at a Lock while another task holds the lock, and at every other operation:
    /// the lock is then as it was. An Unlock of a lock that is free, or that another task holds,
    /// changes nothing and is told so.
    pub fn ask(&mut self, task: &Path, op: &Op) -> Ask
        requires levels { (name : Name) → op.now ≡ Locks name → level_in self.old task.now < 2 ^ 32 }
        ensures law { (name : Name) → object_of task.now op.now ≡ Named name → Asked (Option Holder) lock_left_by task.now op.now self.old result self.new }
        ensures others { is_lock_op op.now ≡ false → (result ≡ NotYet) × (self.new ≡ self.old) }
    {
        match op {
            Op::Lock(_) => self.lock(task),
            Op::Unlock(_) => self.unlock(task),
            _ => Ask::NotYet,
        }
    }

    /// Whether `ask` would answer a task's operation with a reply now.
    pub fn allows(&self, task: &Path, op: &Op) -> bool
        ensures law { (name : Name) → object_of task.now op.now ≡ Named name → Allowed (Option Holder) lock_left_by task.now op.now self.now result }
        ensures others { is_lock_op op.now ≡ false → result ≡ false }
    {
        match op {
            Op::Lock(_) => self.is_free_to(task),
            Op::Unlock(_) => true,
            _ => false,
        }
    }

    /// Whether no other task holds the lock.
    pub(crate) fn is_free_to(&self, task: &Path) -> bool
        ensures { result ≡ is_done (lock_answer self.now task.now) }
    {
        match &self.hold {
            None => true,
            Some(hold) => hold.is_of(task),
        }
    }

    /// Takes the lock once more.
    pub(crate) fn lock(&mut self, task: &Path) -> Ask
        requires { level_in self.old task.now < 2 ^ 32 }
        ensures answer { result ≡ lock_answer self.old task.now }
        ensures after { self.new ≡ after_lock self.old task.now }
    {
        match &mut self.hold {
            None => {
                self.hold = Some(Hold {
                    task: task.copy(),
                    level: 1,
                });
                Ask::Done(Reply::Ok)
            }
            Some(hold) if hold.is_of(task) => {
                hold.level += 1;
                Ask::Done(Reply::Ok)
            }
            Some(_) => Ask::NotYet,
        }
    }

    /// Gives the lock back once.
    pub(crate) fn unlock(&mut self, task: &Path) -> Ask
        ensures answer { result ≡ Done (reply_to self.old task.now reply.Ok) }
        ensures after { self.new ≡ after_unlock self.old task.now }
    {
        match &mut self.hold {
            None => Ask::Done(Reply::NotLocked),
            Some(hold) if !hold.is_of(task) => Ask::Done(Reply::NotOwner),
            Some(hold) if hold.level > 1 => {
                hold.level -= 1;
                Ask::Done(Reply::Ok)
            }
            Some(_) => {
                self.hold = None;
                Ask::Done(Reply::Ok)
            }
        }
    }

    /// The level of a task that holds the lock, or the reply to one that doesn't.
    pub(crate) fn level_of(&self, task: &Path) -> Result<u64, Reply>
        ensures { result ≡ holding self.now task.now }
    {
        match &self.hold {
            None => Err(Reply::NotLocked),
            Some(hold) if hold.is_of(task) => Ok(hold.level),
            Some(_) => Err(Reply::NotOwner),
        }
    }

    pub(crate) fn is_free(&self) -> bool
        ensures { result ≡ is_none self.now }
    {
        self.hold.is_none()
    }

    /// Gives all levels up.
    pub(crate) fn release(&mut self)
        ensures { self.new ≡ None }
    {
        self.hold = None;
    }

    /// Gives the lock to a task, at this level.
    pub(crate) fn hold(&mut self, task: &Path, level: u64)
        ensures { self.new ≡ Some (record { task = task.now; level = level }) }
    {
        self.hold = Some(Hold {
            task: task.copy(),
            level,
        });
    }

    /// How many times a task holds the lock: 0 where it doesn't.
    pub fn level(&self, task: &Path) -> u64
        ensures { result ≡ level_in self.now task.now }
    {
        match &self.hold {
            Some(hold) if hold.is_of(task) => hold.level,
            _ => 0,
        }
    }
}
