//! Laws of the order of entries: the order in which they are made doesn't matter.

ghost use Rattle.std.specs.Prelude.{◌≡◌, ◌++◌, ℕ, List, []};
ghost use Rattle.jt_base.specs.declared.entry.Entry.{Entry};
ghost use Rattle.jt_laws.specs.Entries.{of_shard, Ordered};
ghost use Rattle.jt_laws.specs.Histories.{World, IsLegalRun, StampedFrom, IsLegalHistory};
ghost use Rattle.jt_histories.specs.Kept.{Kept, Same, Laws};

/// Entries that were made one after another in any order, each stamped by those before it, are a
/// legal history in the order of stamp, then shard. `S` is the type of the tasks' starts.
pub fn merge_law<S>()
    ensures { (world : World S) → Laws S world → (made merged : List Entry) → IsLegalRun S world made → StampedFrom S world [] made → Ordered merged → ((k : ℕ) → of_shard k merged ≡ of_shard k made) → IsLegalHistory S world merged }
{}

/// A stamped run is legal by the entries of each task and of each shard alone, whatever their
/// order.
pub fn locality_law<S>()
    ensures { (world : World S) → Laws S world → (h g : List Entry) → Same h g → IsLegalRun S world h → StampedFrom S world [] h → IsLegalRun S world g × StampedFrom S world [] g }
{}

/// A list of entries is a stamped legal run exactly where each entry fits and is stamped by those
/// with smaller stamps, and the stamps of each task and each shard rise.
pub fn legal_by_stamps<S>()
    ensures kept { (world : World S) → (h : List Entry) → IsLegalRun S world h → StampedFrom S world [] h → Kept S world h }
    ensures made { (world : World S) → Laws S world → (h : List Entry) → Kept S world h → IsLegalRun S world h × StampedFrom S world [] h }
{}

/// The front of a legal history is one.
pub fn front_is_legal<S>()
    ensures { (world : World S) → (front back : List Entry) → IsLegalHistory S world (front ++ back) → IsLegalHistory S world front }
{}
