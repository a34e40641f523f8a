//! Laws of tasks, which hold of every lawful list of a task's entries.

ghost use Rattle.std.specs.Prelude.{◌≡◌, ℕ, List, Some};
ghost use Rattle.jt_base.specs.declared.entry.Entry.{Entry};
ghost use Rattle.jt_base.specs.declared.operation.Op.TheVariants.{Fetch};
ghost use Rattle.jt_base.specs.declared.operation.Reply.{Reply};
ghost use Rattle.jt_laws.specs.Objects.{IsLawful, reply_after};
ghost use Rattle.jt_laws.specs.TaskLaws.{BeginsAndEndsOnce, HasResult};

/// A task begins at most once, and ends or fails at most once, and not without a Begin.
pub fn task_begins_and_ends_once()
    ensures { (own : List Entry) → IsLawful own → BeginsAndEndsOnce own }
{}

/// A fetch replies the result of its task: the value with which the task ended, or that it failed.
pub fn fetch_replies_result()
    ensures { (own : List Entry) (task path : List ℕ) (r : Reply) → reply_after own task (Fetch path) ≡ Some r → HasResult own r }
{}
