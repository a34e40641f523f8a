//! How large the numbers of a lock's or a condition's state can be.

ghost use Rattle.std.specs.Prelude.{◌≡◌, ◌≤◌, ℕ, List, length, Option, Some};
ghost use Rattle.jt_base.specs.declared.entry.Entry.{Entry};
ghost use Rattle.jt_laws.specs.Objects.{IsLawful};
ghost use Rattle.jt_conditions.specs.Locks.{Holder, lock_left_by, level_in};
ghost use Rattle.jt_conditions.specs.Conditions.{Condition, condition_left_by, waits_in};

/// A task's level of a lock is at most the number of the lock's entries.
pub fn lock_level_within_entries()
    ensures { (own : List Entry) (holder : Option Holder) (task : List ℕ) → IsLawful own → lock_left_by own ≡ Some holder → level_in holder task ≤ length own }
{}

/// A task's level of a condition, and the number of its waits from which it is not back, are each
/// at most the number of the condition's entries.
pub fn condition_counts_within_entries()
    ensures level { (own : List Entry) (condition : Condition) (task : List ℕ) → IsLawful own → condition_left_by own ≡ Some condition → level_in condition.holder task ≤ length own }
    ensures waits { (own : List Entry) (condition : Condition) (task : List ℕ) → IsLawful own → condition_left_by own ≡ Some condition → waits_in condition.absent task ≤ length own }
{}
