//! Atomic numbers.

ghost use Rattle.std.specs.Prelude.{◌≡◌, ℕ, ℤ, List, true};
ghost use Rattle.jt_base.specs.declared.operation.Op.TheVariants as op;
ghost use Rattle.jt_base.specs.declared.name.Name.{Name};
ghost use Rattle.jt_base.specs.declared.object.Object.TheVariants.{Named};
ghost use Rattle.jt_base.specs.Objects.{object_of};
ghost use Rattle.jt_laws.specs.Atomics.{atomic_left_by, is_atomic_op};
ghost use Rattle.jt_laws.specs.Objects.{Allowed, Asked, MadeBy};
ghost use Rattle.jt_channels.specs.Values.{value_after, value_reply_at};

use jt_base::{Ask, Op, Reply};
use jt_num::{add, sub};
use std::marker::Model;

/// An atomic `Int64` (Julia manual, "Atomic Operations"): each operation reads and changes it in
/// one step. Contracts see the number.
#[derive(Debug, Drop)]
pub struct Cell64 {
    value: i64,
}

impl Model for Cell64 {
    ghost use Rattle.std.specs.Prelude.{ℤ};

    ghost Value = { ℤ };

    ghost view = { λ c. c.value };
}

impl Cell64 {
    /// An atomic number with this value.
    pub fn new(v: i64) -> Cell64
        ensures made { (name : Name) → MadeBy ℤ atomic_left_by (op.NewAtomic name v) result }
        ensures value { result ≡ v }
    {
        Cell64 { value: v }
    }

    /// Answers one of the operations on atomics. Each replies the value before, but a set replies
    /// `ok`; sums and differences wrap modulo 2^64. No operation waits.
    #[tactic(auto, using(crate::proofs::Value::asked_by))]
    pub fn ask(&mut self, op: &Op) -> Ask
        requires { is_atomic_op op.now ≡ true }
        ensures law { (task : List ℕ) → Asked ℤ atomic_left_by task op.now self.old result self.new }
        ensures reply { result ≡ Ask.Done (value_reply_at op.now self.old) }
        ensures value { self.new ≡ value_after op.now self.old }
    {
        match op {
            Op::AGet(_) => self.replace(self.value),
            Op::ASet(_, v) => {
                self.value = *v;
                Ask::Done(Reply::Ok)
            }
            Op::AAdd(_, v) => self.replace(add(self.value, *v)),
            Op::ASub(_, v) => self.replace(sub(self.value, *v)),
            Op::AXchg(_, v) => self.replace(*v),
            Op::ACas(_, expected, v) if self.value == *expected => self.replace(*v),
            Op::ACas(_, _, _) => self.replace(self.value),
            _ => unreachable!(),
        }
    }

    /// Whether this operation is allowed: each of those on atomics, and no other.
    pub fn allows(&self, op: &Op) -> bool
        ensures law { (task : List ℕ) (name : Name) → object_of task op.now ≡ Named name → Allowed ℤ atomic_left_by task op.now self.now result }
        ensures operations { result ≡ is_atomic_op op.now }
    {
        matches!(
            op,
            Op::AGet(_)
                | Op::ASet(_, _)
                | Op::AAdd(_, _)
                | Op::ASub(_, _)
                | Op::AXchg(_, _)
                | Op::ACas(_, _, _)
        )
    }

    // Writes a value, and replies the one before.
    fn replace(&mut self, value: i64) -> Ask
        ensures reply { result ≡ Ask.Done (Reply.Int self.old) }
        ensures value { self.new ≡ value }
    {
        let old = self.value;
        self.value = value;
        Ask::Done(Reply::Int(old))
    }
}
