//! The jobs in an object's line.

ghost use Rattle.std.specs.Prelude.{◌<◌, length, take, IfSome, IfNone, MatchBool};
ghost use Rattle.std.specs.List.{All, HoldsAt};
ghost use Rattle.jt_shard.specs.Asking.{Allows, Refuses};

use crate::spare::Placed;
use jt_base::{Job, Op};
use jt_objects::Shared;
use std::collections::VecDeque;

/// Whether an object would answer a waiting job's operation now.
fn allows<J: Job>(state: &Shared, waiting: &(J, Op)) -> bool
    ensures { MatchBool result (Allows state.now (J.told waiting.now.0).path waiting.now.1) (Refuses state.now (J.told waiting.now.0).path waiting.now.1) }
{
    state.allows(waiting.0.path(), &waiting.1)
}

/// The place of the first job in a line whose operation is allowed.
pub(crate) fn first_allowed<J: Job>(
    state: &Shared,
    waiting: &VecDeque<Placed<(J, Op)>>,
) -> Option<usize>
    ensures some { IfSome result (λ i. (i < length waiting.now.items) × (All (λ w. Refuses state.now (J.told w.0).path w.1) (take i waiting.now.items) × HoldsAt (λ w. Allows state.now (J.told w.0).path w.1) waiting.now.items i)) }
    ensures none { IfNone result (All (λ w. Refuses state.now (J.told w.0).path w.1) waiting.now.items) }
{
    for i in 0..waiting.len() {
        if allows(state, waiting[i].get()) {
            return Some(i);
        }
    }
    None
}
