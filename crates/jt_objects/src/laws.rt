//! Laws of the states of objects.

ghost use Rattle.std.specs.Prelude.{◌≡◌, ◌<◌, ◌^◌, ℕ, List, length, Some, true, IsSome};
ghost use Rattle.jt_base.specs.declared.entry.Entry.{Entry};
ghost use Rattle.jt_base.specs.declared.object.Object.{Object};
ghost use Rattle.jt_base.specs.declared.operation.Op.{Op};
ghost use Rattle.jt_laws.specs.Objects.{IsLawful};
ghost use Rattle.jt_objects.specs.States.{ObjectState, are_of, left_by};
ghost use Rattle.jt_objects.specs.Needs.{IsWithin};

/// Each lawful list of an object's entries leaves a state.
pub fn lawful_entries_leave_a_state()
    ensures { (o : Object) (own : List Entry) → IsLawful own → are_of o own ≡ true → IsSome (left_by o own) }
{}

/// After fewer than 2^32 entries of an object, the number that an operation raises is as small as
/// `Shared::ask` asks for.
pub fn few_entries_are_within()
    ensures { (o : Object) (own : List Entry) (s : ObjectState) (task : List ℕ) (op : Op) → IsLawful own → left_by o own ≡ Some s → length own < 2 ^ 32 → IsWithin s task op }
{}
