//! Laws of locks and conditions, which hold of every lawful list of their entries.

ghost use Rattle.std.specs.Prelude.{◌≡◌, ◌++◌, ◌∷◌, [], ℕ, List, pos, Bool};
ghost use Rattle.jt_base.specs.declared.entry.Entry.{Entry};
ghost use Rattle.jt_base.specs.declared.name.Name.{Name};
ghost use Rattle.jt_base.specs.declared.operation.Op.TheVariants.{CNotify};
ghost use Rattle.jt_base.specs.declared.operation.Reply.TheVariants as reply;
ghost use Rattle.jt_laws.specs.LockLaws.{OneHolds, LevelsAddUp, WakesOldest, EndsWithReturn, StartsWith, Stays, AddsUpSince, LastStart};
ghost use Rattle.jt_laws.specs.Locks.{level};
ghost use Rattle.jt_laws.specs.Objects.{IsLawful};

/// At most one task holds a lock.
pub fn one_task_holds_lock()
    ensures { (own : List Entry) → IsLawful own → OneHolds own }
{}

/// A task that never waited holds a lock as often as it took it and has not given it back.
pub fn levels_add_up()
    ensures { (own : List Entry) → IsLawful own → LevelsAddUp own }
{}

/// Right after a wait a task doesn't hold the lock, and once it is back it holds it as often as
/// before its last wait. In each list a task has a last wait or return, or none, and since then its
/// level changed by its locks and unlocks alone: so levels add up for every task.
pub fn levels_add_up_over_waits()
    ensures returned { (path : List ℕ) (own : List Entry) (had : ℕ) → EndsWithReturn path own had → level path own ≡ had }
    ensures adds_up { (path : List ℕ) (past since : List Entry) (had : ℕ) → IsLawful (past ++ since) → StartsWith path past had → Stays path since → AddsUpSince path past since had }
    ensures every_list { (path : List ℕ) (own : List Entry) → IsLawful own → LastStart path own }
{}

/// A notify wakes the oldest tasks that wait: it takes as many from the front of the waiting list
/// as it replies, all of them or at most one, and each of these is notified then.
pub fn notify_wakes_oldest()
    ensures { (own : List Entry) (notify : Entry) (name : Name) (all : Bool) (n : ℕ) → IsLawful (own ++ notify ∷ []) → notify.op ≡ CNotify name all → notify.reply ≡ reply.Int (pos n) → WakesOldest own notify all n }
{}
