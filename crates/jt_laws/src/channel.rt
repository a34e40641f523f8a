//! Laws of channels, which hold of every lawful list of a channel's entries.

ghost use Rattle.std.specs.Prelude.{◌≡◌, ◌+◌, ◌≤◌, ◌++◌, ℕ, ℤ, List, ◌∷◌, length, true, Some};
ghost use Rattle.jt_base.specs.declared.entry.Entry.{Entry};
ghost use Rattle.jt_base.specs.declared.name.Name.{Name};
ghost use Rattle.jt_laws.specs.Channels.{Channel, is_closed, channel_left_by};
ghost use Rattle.jt_laws.specs.ChannelLaws.{FirstInFirstOut, ClosedForGood, Offered, WasTaken};
ghost use Rattle.jt_laws.specs.Objects.{IsLawful};

/// The items that came out of a channel are the first of those that went in, in the same order.
pub fn channel_first_in_first_out()
    ensures { (own : List Entry) → IsLawful own → FirstInFirstOut own }
{}

/// A closed channel stays closed: no item goes in after the close, and what still comes out is
/// what was left, in order and each item once.
pub fn channel_closed_for_good()
    ensures { (own more : List Entry) → IsLawful (own ++ more) → is_closed own ≡ true → ClosedForGood own more }
{}

/// An unbuffered put has landed only after its take: where the number of an offer has landed, the
/// item that came out under this number is the one that was offered.
pub fn landed_after_take()
    ensures { (before after : List Entry) (offer : Entry) (task : List ℕ) (name : Name) (v : ℤ) (number : ℕ) → Offered before after offer task name v number → WasTaken (before ++ offer ∷ after) number v }
{}

/// A channel has no more numbered offers and items left than entries. So a limit on the number of
/// its entries bounds the number of its next offer.
pub fn channel_offers_are_entries()
    ensures { (own : List Entry) (s : Channel) → IsLawful own → channel_left_by own ≡ Some s → s.taken + length s.items ≤ length own }
{}
