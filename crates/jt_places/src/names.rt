//! Tests of a name at a place. Those that take a depth speak of the outermost so many scopes, and their
//! time grows with the scopes further in that have the name.

ghost use Rattle.std.specs.Prelude.{◌≡◌, nat_lt, nat_le, ◌&&◌};
ghost use Rattle.jt_scopes.specs.Scopes.{known};
ghost use Rattle.jt_places.specs.Kept.{assigns_once, begins_global, crossed};
ghost use Rattle.jt_scopes.specs.Tests as spec;

use crate::chain::Chain;
use jt_scopes::Scope;

impl<'a> Chain<'a> {
    /// Whether some scope has the name.
    pub fn is_known(&self, depth: usize, name: &[u8]) -> bool
        ensures { result ≡ known (spec.outer depth self.now) name.now }
    {
        0 < self.holders.innermost_within(depth, name)
    }

    /// Whether a function is left on the way out to the name.
    pub fn leaves_function(&self, depth: usize, name: &[u8]) -> bool
        ensures { result ≡ spec.leaves_function (spec.outer depth self.now) name.now }
    {
        let holder = self.holders.innermost_within(depth, name);
        is_left(holder, self.standing_at(depth).function)
    }

    /// Whether a task's body is left on the way out to the name that isn't assigned once and for all
    /// before the body's macro word. The time grows with the tasks' bodies that are left.
    pub fn crosses(&self, depth: usize, name: &[u8]) -> bool
        ensures { result ≡ spec.crosses (spec.outer depth self.now) name.now }
    {
        let holder = self.holders.innermost_within(depth, name);
        match self.at(holder) {
            None => false,
            Some(place) => self.is_crossed(depth, holder, place.scope, name),
        }
    }

    /// Whether a task's body deeper than `holder` isn't behind the one assignment of the name in this
    /// scope.
    fn is_crossed(&self, depth: usize, holder: usize, scope: &Scope, name: &[u8]) -> bool
        ensures { result ≡ crossed (spec.outer depth self.now) holder scope.now name.now }
    {
        let task = self.standing_at(depth).task;
        if task <= holder {
            return false;
        }
        match self.at(task) {
            None => false,
            Some(place) => {
                !assigns_once(scope, name, place.scope.at)
                    || self.is_crossed(task - 1, holder, scope, name)
            }
        }
    }

    /// Whether the place is in a task's body, and a scope round the body has the name in the same
    /// function or script.
    pub fn is_assigned_out(&self, name: &[u8]) -> bool
        ensures { result ≡ spec.assigned_out self.now name.now }
    {
        let standing = self.standing();
        let outside = standing.task.saturating_sub(1);
        let holder = self.holders.innermost_within(outside, name);
        is_outside(holder, standing.function, standing.task)
    }

    /// Whether the place is in a loop of the script, whose own scope has the name.
    pub fn is_ambiguous(&self, name: &[u8]) -> bool
        ensures { result ≡ spec.ambiguous self.now name.now }
    {
        let standing = self.standing();
        standing.repeats && self.is_global(standing.begin, name)
    }

    /// Whether the innermost of the outermost `depth` scopes is the script's own and has the name.
    fn is_global(&self, depth: usize, name: &[u8]) -> bool
        ensures { result ≡ begins_global (spec.outer depth self.now) name.now }
    {
        match self.at(depth) {
            None => false,
            Some(place) => place.scope.is_script() && place.scope.has(name),
        }
    }
}

/// Whether there is a scope that has the name, at the depth `holder`, and a function within it.
fn is_left(holder: usize, function: usize) -> bool
    ensures { result ≡ (nat_lt 0 holder && nat_lt holder function) }
{
    0 < holder && holder < function
}

/// Whether there is a scope that has the name, at the depth `holder`, in the function that the task's
/// body is in.
fn is_outside(holder: usize, function: usize, task: usize) -> bool
    ensures { result ≡ (nat_lt 0 holder && (nat_le function holder && nat_lt function task)) }
{
    0 < holder && (function <= holder && function < task)
}

/// Whether the scope assigns the name once, and that before this place.
fn assigns_once(scope: &Scope, name: &[u8], at: u32) -> bool
    ensures { result ≡ assigns_once scope.now name.now at }
{
    !scope.again.has(name) && is_before(scope.names.place_of(name), at)
}

/// Whether the first of a name stands before this place.
pub fn is_before(first: Option<u32>, at: u32) -> bool
    ensures { result ≡ spec.before first at }
{
    match first {
        None => false,
        Some(first) => first < at,
    }
}
