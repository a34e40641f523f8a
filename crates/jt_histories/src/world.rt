//! Laws of a run's shard logs and jobs: at the beginning they hold, each entry of a job keeps them,
//! and what holds is a legal history.

ghost use Rattle.std.specs.Prelude.{◌≡◌, ◌<◌, ℕ, List, [], ◌∷◌, ◌++◌, get_or, set, replicate};
ghost use Rattle.std.specs.List.Sorted.{IsPermutation};
ghost use Rattle.jt_base.specs.Names.{shards};
ghost use Rattle.jt_base.specs.declared.entry.Entry.{Entry};
ghost use Rattle.jt_laws.specs.Entries.{shard};
ghost use Rattle.jt_laws.specs.Histories.{World, IsLegalHistory};
ghost use Rattle.jt_laws.specs.Lines.{cut_at_main_end};
ghost use Rattle.jt_histories.specs.Kept.{Laws};
ghost use Rattle.jt_histories.specs.Merges.{IsMerge, AreLogs};
ghost use Rattle.jt_base.specs.Jobs.{Held};
ghost use Rattle.jt_histories.specs.Jobs.{Has, Makes, Holds, main_job, left_after, coming};
ghost use Rattle.jt_histories.specs.Made.{with_entry};
ghost use Rattle.jt_histories.specs.Rest.{AtRest, EndsIt, AllStuck, AtLimit, MeetsLimit};
ghost use Rattle.jt_histories.specs.Turns.{Turns};

/// Sixteen empty logs and main's job hold. `S` is the type of the tasks' starts.
pub fn start_holds<S>()
    ensures { (world : World S) → Holds S world (replicate 16 []) (main_job S world ∷ []) }
{}

/// Where the logs of a run and its jobs hold, one of its jobs makes an entry that the log of the
/// entry's shard allows, and the entry comes at the end of this log, they hold again: whatever the
/// other logs have, also entries with greater stamps.
pub fn entry_keeps<S>()
    ensures { (world : World S) → Laws S world → (logs : List (List Entry)) (j : Held S) (rest : List (Held S)) (e : Entry) → Holds S world logs (j ∷ rest) → Makes S world (get_or logs (shard e) []) j e → Holds S world (with_entry logs e) (left_after S world j e (coming S world j) ++ rest) }
{}

/// The order of the jobs doesn't matter.
pub fn moved_keeps<S>()
    ensures { (world : World S) (logs : List (List Entry)) (jobs moved : List (Held S)) → IsPermutation jobs moved → Holds S world logs jobs → Holds S world logs moved }
{}

/// One shard is open while the others go on: the turns that its own jobs make there may all be
/// added at its shut.
pub fn shut_keeps<S>()
    ensures { (world : World S) → Laws S world → (k : ℕ) → k < shards → (logs : List (List Entry)) (log more : List Entry) (mine left rest : List (Held S)) → get_or logs k [] ≡ log → Holds S world logs (mine ++ rest) → Turns S world k log mine more left → Holds S world (set logs k (log ++ more)) (left ++ rest) }
{}

/// One turn more at the end of those of an open shard.
pub fn turns_grow<S>()
    ensures { (world : World S) (k : ℕ) (log more : List Entry) (mine mid : List (Held S)) (j : Held S) (others : List (Held S)) (e : Entry) → Turns S world k log mine more mid → IsPermutation mid (j ∷ others) → shard e ≡ k → Makes S world (log ++ more) j e → Turns S world k log mine (more ++ e ∷ []) (left_after S world j e (coming S world j) ++ others) }
{}

/// The logs that hold may be merged, and their merge is a legal history, also cut at main's end.
pub fn merge_is_legal<S>()
    ensures logs { (world : World S) (logs : List (List Entry)) (jobs : List (Held S)) → Holds S world logs jobs → AreLogs logs }
    ensures history { (world : World S) (logs : List (List Entry)) (jobs : List (Held S)) (h : List Entry) → Holds S world logs jobs → IsMerge logs h → IsLegalHistory S world h × IsLegalHistory S world (cut_at_main_end h) }
{}

/// Where each job waits for what the log of its shard doesn't allow, no task of the history can
/// move.
pub fn stuck_is_rest<S>()
    ensures { (world : World S) → EndsIt S world → (logs : List (List Entry)) (jobs : List (Held S)) (h : List Entry) → Holds S world logs jobs → AllStuck S world logs jobs → IsMerge logs h → AtRest S world h }
{}

/// A limit on stamps that the next entry of one job meets is met by the history.
pub fn limit_is_met<S>()
    ensures { (world : World S) (logs : List (List Entry)) (jobs : List (Held S)) (h : List Entry) (j : Held S) (e : Entry) → Holds S world logs jobs → Has S j jobs → AtLimit S world (get_or logs (shard e) []) j e → IsMerge logs h → MeetsLimit S world h }
{}
