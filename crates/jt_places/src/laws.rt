//! What holds of the variables at every place. No function here does anything: each one's contract is a
//! law.

ghost use Rattle.std.specs.Prelude.{◌≡◌, ◌<◌, List, option_map};
ghost use Rattle.jt_names.specs.Names.{Name};
ghost use Rattle.jt_scopes.specs.declared.scope.Scope.{Scope};
ghost use Rattle.jt_scopes.specs.Slots as slots;
ghost use Rattle.jt_places.specs.Variables.{Variable, HasVariable, IsThere, place, either, local_of, captured_of, means};

/// Each variable at a place has a slot below the room, and two variables have two slots, also where one
/// hides the other.
pub fn variables_have_slots_of_their_own()
    ensures below { (c : List Scope) (v : Variable) → HasVariable c v → place c v < slots.room c }
    ensures apart { (c : List Scope) (v w : Variable) → HasVariable c v → HasVariable c w → place c v ≡ place c w → v ≡ w }
{}

/// The slot that stands for a name is that of the variable that the name means: for an assignment, for
/// `$x`, and for a use.
pub fn names_have_the_slots_of_their_variables()
    ensures assigned { (c : List Scope) (x : Name) → IsThere c (local_of c x) × (slots.local c x ≡ option_map (place c) (local_of c x)) }
    ensures interpolated { (c : List Scope) (x : Name) → IsThere c (captured_of c x) × (slots.captured c x ≡ option_map (place c) (captured_of c x)) }
    ensures used { (c : List Scope) (x : Name) → IsThere c (means c x) × (either (slots.local c x) (slots.captured c x) ≡ option_map (place c) (means c x)) }
{}
