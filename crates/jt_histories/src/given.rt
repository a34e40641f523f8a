//! Laws of a given history: each of its entries is made by the job of its task, so that the run
//! reaches it.

ghost use Rattle.std.specs.Prelude.{List, [], ◌∷◌, ◌++◌, get_or, replicate};
ghost use Rattle.std.specs.List.Sorted.{IsPermutation};
ghost use Rattle.jt_base.specs.declared.entry.Entry.{Entry};
ghost use Rattle.jt_base.specs.Jobs.{Held};
ghost use Rattle.jt_laws.specs.Entries.{shard};
ghost use Rattle.jt_laws.specs.Histories.{World, IsLegalHistory};
ghost use Rattle.jt_histories.specs.Kept.{Laws};
ghost use Rattle.jt_histories.specs.Merges.{IsMerge};
ghost use Rattle.jt_histories.specs.Jobs.{Makes, Holds, main_job};
ghost use Rattle.jt_histories.specs.Rest.{EndsIt};
ghost use Rattle.jt_histories.specs.Made.{with_entry, Made};

/// The next entry of a legal history, after logs whose merge are the entries before it: one of the
/// jobs makes it, and with it the logs' merge is the history with this entry. This is the converse
/// of `entry_keeps`. `S` is the type of the tasks' starts.
pub fn legal_is_made<S>()
    ensures { (world : World S) → EndsIt S world → (h : List Entry) (e : Entry) (logs : List (List Entry)) (jobs : List (Held S)) → IsLegalHistory S world (h ++ e ∷ []) → Holds S world logs jobs → IsMerge logs h → (j : Held S) × (others : List (Held S)) × IsPermutation jobs (j ∷ others) × Makes S world (get_or logs (shard e) []) j e × IsMerge (with_entry logs e) (h ++ e ∷ []) }
{}

/// Each legal history is reached: from sixteen empty logs and main's job its entries are made one
/// after another, in its own order, and it is the merge of the logs that they leave.
pub fn legal_is_reached<S>()
    ensures { (world : World S) → Laws S world → EndsIt S world → (h : List Entry) → IsLegalHistory S world h → (logs : List (List Entry)) × (left : List (Held S)) × Made S world (replicate 16 []) (main_job S world ∷ []) h logs left × IsMerge logs h }
{}
