//! What holds of each script that breaks no rule. No function here does anything: its contract is a law.

ghost use Rattle.std.specs.Prelude.{List};
ghost use Rattle.jt_rules.specs.Meant.{NamesAreMeant};
ghost use Rattle.jt_naming.specs.Scripts.{BreaksNone};
ghost use Rattle.jt_syntax.specs.Tree.{TopTree};

/// In a script that breaks no rule each name that is used is one of a variable with a slot, of a
/// constant, or `nothing`, also behind a `$`; and what a task's body captures has a slot where the body
/// stands.
pub fn names_are_meant()
    ensures { (ts : List TopTree) → BreaksNone ts → NamesAreMeant ts }
{}
