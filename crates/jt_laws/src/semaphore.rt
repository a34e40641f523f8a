//! Laws of semaphores, which hold of every lawful list of a semaphore's entries.

ghost use Rattle.std.specs.Prelude.{◌≡◌, ◌≤◌, ℕ, List, Some};
ghost use Rattle.jt_base.specs.declared.entry.Entry.{Entry};
ghost use Rattle.jt_laws.specs.Objects.{IsLawful};
ghost use Rattle.jt_laws.specs.Semaphores.{count_of, held_of};

/// A semaphore is never held more often than its count.
pub fn semaphore_within_count()
    ensures { (own : List Entry) (count : ℕ) → IsLawful own → count_of own ≡ Some count → held_of own ≤ count }
{}
