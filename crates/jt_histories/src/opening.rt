//! Laws of an opening of several shards: jobs make entries one after another, each at whatever shard,
//! and the logs tell which jobs are left.

ghost use Rattle.std.specs.Prelude.{◌≡◌, ℕ, List, [], ◌∷◌, ◌++◌, get_or, length};
ghost use Rattle.std.specs.List.Sorted.{IsPermutation};
ghost use Rattle.jt_base.specs.Names.{shards};
ghost use Rattle.jt_base.specs.declared.entry.Entry.{Entry};
ghost use Rattle.jt_base.specs.Jobs.{Held};
ghost use Rattle.jt_laws.specs.Entries.{shard, of_shard, Ordered};
ghost use Rattle.jt_laws.specs.Histories.{World};
ghost use Rattle.jt_histories.specs.Kept.{Laws};
ghost use Rattle.jt_histories.specs.Merges.{IsMerge};
ghost use Rattle.jt_histories.specs.Jobs.{OnePath, Makes, Holds, left_after, coming};
ghost use Rattle.jt_histories.specs.Made.{with_entry, Made, Amid};

/// Entries that some of the jobs make one after another keep what holds. `S` is the type of the
/// tasks' starts.
pub fn made_keeps<S>()
    ensures { (world : World S) → Laws S world → (logs logs' : List (List Entry)) (mine left rest : List (Held S)) (entries : List Entry) → Holds S world logs (mine ++ rest) → Made S world logs mine entries logs' left → Holds S world logs' (left ++ rest) }
{}

/// Each shard's log goes on behind what it was, by the entries of this shard.
pub fn made_grows<S>()
    ensures { (world : World S) (logs logs' : List (List Entry)) (mine left : List (Held S)) (entries : List Entry) → length logs ≡ shards → Made S world logs mine entries logs' left → (length logs' ≡ shards) × ((k : ℕ) → get_or logs' k [] ≡ get_or logs k [] ++ of_shard k entries) }
{}

/// Where the entries go on behind the merge of the logs, in the order of stamp, then shard, the whole
/// is the merge of the logs that they leave.
pub fn merge_grows<S>()
    ensures { (world : World S) (logs logs' : List (List Entry)) (mine left : List (Held S)) (h entries : List Entry) → length logs ≡ shards → Made S world logs mine entries logs' left → IsMerge logs h → Ordered (h ++ entries) → IsMerge logs' (h ++ entries) }
{}

/// An opening begins with its logs as they are, and with its jobs divided between the open shards
/// and the hand.
pub fn amid_begins<S>()
    ensures { (world : World S) (logs : List (List Entry)) (mine inside hand : List (Held S)) → IsPermutation mine (inside ++ hand) → Amid S world logs mine logs inside hand }
{}

/// Amid an opening jobs move between the open shards and the hand: one is parked, woken or taken.
pub fn amid_moves<S>()
    ensures { (world : World S) (logs logs' : List (List Entry)) (mine inside hand inside' hand' : List (Held S)) → Amid S world logs mine logs' inside hand → IsPermutation (inside ++ hand) (inside' ++ hand') → Amid S world logs mine logs' inside' hand' }
{}

/// Amid an opening a job of the hand makes an entry, and what this leaves of it is in the hand.
pub fn amid_enters<S>()
    ensures { (world : World S) (logs logs' : List (List Entry)) (mine inside hand others : List (Held S)) (j : Held S) (e : Entry) → Amid S world logs mine logs' inside hand → IsPermutation hand (j ∷ others) → Makes S world (get_or logs' (shard e) []) j e → Amid S world logs mine (with_entry logs' e) inside (left_after S world j e (coming S world j) ++ others) }
{}

/// The logs tell the jobs: whatever jobs belong to the same logs, they are the same in some order.
pub fn jobs_are_one<S>()
    ensures { (world : World S) (logs : List (List Entry)) (jobs jobs' : List (Held S)) → Holds S world logs jobs → Holds S world logs jobs' → IsPermutation jobs jobs' }
{}

/// Of two lists of jobs of different tasks, what is the same before them may go.
pub fn cancel_front<S>()
    ensures { (front back back' : List (Held S)) → OnePath S (front ++ back) → IsPermutation (front ++ back) (front ++ back') → IsPermutation back back' }
{}
