//! Semaphores.

ghost use Rattle.std.specs.Prelude.{◌≡◌, false, ℕ, List};
ghost use Rattle.jt_base.specs.declared.entry.Ask.TheVariants.{NotYet};
ghost use Rattle.jt_base.specs.declared.name.Name.{Name};
ghost use Rattle.jt_base.specs.declared.operation.Op.TheVariants.{NewSemaphore};
ghost use Rattle.jt_base.specs.declared.object.Object.{Object};
ghost use Rattle.jt_base.specs.Objects.{object_of};
ghost use Rattle.jt_base.specs.declared.object.Object.TheVariants.{Named};
ghost use Rattle.jt_laws.specs.Objects.{Allowed, Asked, MadeBy};
ghost use Rattle.jt_conditions.specs.Semaphores.{Semaphore, semaphore_left_by, is_semaphore_op, acquire_answer, after_acquire, release_answer, after_release};

use jt_base::{Ask, Op, Reply};
use std::marker::Model;

/// A counting semaphore, which is held at most as often at a time as its count (Julia manual,
/// `Base.Semaphore`).
#[derive(Debug, Drop)]
pub struct Sema {
    count: u64,
    held: u64,
}

impl Model for Sema {
    ghost use Rattle.jt_conditions.specs.Semaphores.{Semaphore};

    ghost Value = { Semaphore };

    ghost view = { λ s. record { count = s.count; held = s.held } };
}

impl Sema {
    /// A semaphore that can be held `n` times at a time, and isn't held.
    pub fn new(n: u64) -> Sema
        ensures { (name : Name) → MadeBy Semaphore semaphore_left_by (NewSemaphore name n) result }
    {
        Sema { count: n, held: 0 }
    }

    /// Answers an Acquire or a Release of this semaphore. `NotYet` exactly where the law of objects
    /// allows no reply, at an Acquire while the semaphore is held as often as its count, and at
    /// every other operation: the semaphore is then as it was. A Release of a semaphore that isn't
    /// held changes nothing and is told so.
    pub fn ask(&mut self, op: &Op) -> Ask
        ensures law { (task : List ℕ) (name : Name) → object_of task op.now ≡ Named name → Asked Semaphore semaphore_left_by task op.now self.old result self.new }
        ensures others { is_semaphore_op op.now ≡ false → (result ≡ NotYet) × (self.new ≡ self.old) }
    {
        match op {
            Op::Acquire(_) => self.acquire(),
            Op::Release(_) => self.release(),
            _ => Ask::NotYet,
        }
    }

    /// Whether `ask` would answer this operation with a reply now.
    pub fn allows(&self, op: &Op) -> bool
        ensures law { (task : List ℕ) (name : Name) → object_of task op.now ≡ Named name → Allowed Semaphore semaphore_left_by task op.now self.now result }
        ensures others { is_semaphore_op op.now ≡ false → result ≡ false }
    {
        match op {
            Op::Acquire(_) => self.held < self.count,
            Op::Release(_) => true,
            _ => false,
        }
    }

    fn acquire(&mut self) -> Ask
        ensures answer { result ≡ acquire_answer self.old }
        ensures after { self.new ≡ after_acquire self.old }
    {
        if self.held >= self.count {
            return Ask::NotYet;
        }
        self.held += 1;
        Ask::Done(Reply::Ok)
    }

    fn release(&mut self) -> Ask
        ensures answer { result ≡ release_answer self.old }
        ensures after { self.new ≡ after_release self.old }
    {
        if self.held == 0 {
            return Ask::Done(Reply::NotHeld);
        }
        self.held -= 1;
        Ask::Done(Reply::Ok)
    }
}
