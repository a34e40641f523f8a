//! Which entries may let a waiting job go on.

ghost use Rattle.std.specs.Prelude.{◌≡◌, false};
ghost use Rattle.jt_shard.specs.Changing.{changes, KeepsRefusals};
ghost use Rattle.jt_shard.specs.Posts.{touched_by};

use jt_base::Op;

/// Whether an operation, where it is allowed, may change the state of its object. Those that only
/// look, wait for a task or an offer, yield or print don't.
fn changes(op: &Op) -> bool
    ensures is { result ≡ changes op.now }
    ensures refusals { result ≡ false → KeepsRefusals op.now }
{
    !matches!(
        op,
        Op::Fetch(_)
            | Op::Wait(_)
            | Op::Yield
            | Op::Print(_)
            | Op::Landed(_, _)
            | Op::IsOpen(_)
            | Op::IsReady(_)
            | Op::AGet(_)
    )
}

/// The index of an object, where its waiting jobs may be allowed after an entry of this operation on
/// it.
pub(crate) fn touched(index: usize, op: &Op) -> Option<usize>
    ensures { result ≡ touched_by index op.now }
{
    if changes(op) { Some(index) } else { None }
}
