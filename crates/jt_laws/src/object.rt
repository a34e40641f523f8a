//! Laws of all objects.

ghost use Rattle.std.specs.Prelude.{◌≡◌, ◌++◌, ℕ, List, [], ◌∷◌, Some, true};
ghost use Rattle.jt_base.specs.declared.entry.Entry.{Entry};
ghost use Rattle.jt_base.specs.declared.operation.Op.{Op};
ghost use Rattle.jt_base.specs.declared.operation.Reply.{Reply};
ghost use Rattle.jt_laws.specs.Objects.{IsLawful, reply_after};
ghost use Rattle.jt_laws.specs.Replies.{can_reply};

/// The reply that an operation is allowed is one that the operation can have.
pub fn reply_is_possible()
    ensures { (own : List Entry) (task : List ℕ) (op : Op) (r : Reply) → reply_after own task op ≡ Some r → can_reply op r ≡ true }
{}

/// A lawful list with one more allowed entry is lawful.
pub fn longer_is_lawful()
    ensures { (own : List Entry) (e : Entry) → IsLawful own → reply_after own e.task e.op ≡ Some e.reply → IsLawful (own ++ e ∷ []) }
{}
