//! What a shard keeps of one object.

ghost use Rattle.std.specs.Prelude.{◌≡◌, IfOk, OnOk};
ghost use Rattle.jt_objects.specs.Needs.{state_of};
ghost use Rattle.jt_shard.specs.Asking.{HasAnyRoom};
ghost use Rattle.jt_shard.specs.Posts.{IsReserved, IsNewPost, KeepsPost};

use crate::boxed::Boxed;
use crate::spare::Placed;
use jt_base::{Object, Op, OutOfMemory};
use jt_objects::Shared;
use std::alloc::Global;
use std::collections::VecDeque;

/// An object's state, and the jobs that wait for the object.
#[derive(Drop)]
pub(crate) struct Post<J> {
    pub(crate) state: Shared,
    /// The jobs with their operations, the one that waits longest first.
    pub(crate) waiting: VecDeque<Placed<(J, Op)>>,
}

impl<J> Post<J> {
    /// That of an object without entries. It takes no memory.
    fn new(alloc: Global, object: &Object) -> Post<J>
        ensures { IsNewPost object.now result }
    {
        Post {
            state: Shared::empty(object),
            waiting: VecDeque::new(alloc),
        }
    }

    /// The jobs that wait, with their operations.
    pub(crate) fn into_waiting(self) -> VecDeque<Placed<(J, Op)>>
    where
        J: Drop,
        ensures { result ≡ self.waiting }
    {
        let Post { waiting, .. } = self;
        waiting
    }
}

/// Makes room in an object for whatever operation comes next: a channel for one item, a condition for
/// one task that waits on it. After `OutOfMemory` the object is as it was.
fn reserve_state(state: &mut Shared) -> Result<(), OutOfMemory>
    ensures state { state_of state.new ≡ state_of state.old }
    ensures kept { HasAnyRoom state.old → HasAnyRoom state.new }
    ensures room { OnOk result (HasAnyRoom state.new) }
{
    match state {
        Shared::Channel(channel) => channel.reserve(),
        Shared::Condition(condition) => condition.reserve(),
        _ => Ok(()),
    }
}

/// Makes room for one job more, and for whatever operation comes next. After `OutOfMemory` the post
/// is as before.
pub(crate) fn reserve_post<J: Drop>(post: &mut Post<J>) -> Result<(), OutOfMemory>
    ensures reserved { OnOk result (IsReserved post.new) }
    ensures kept { KeepsPost post.old post.new }
{
    post.waiting.reserve(1)?;
    reserve_state(&mut post.state)
}

/// The post of an object without entries, with such room.
pub(crate) fn new_post<J: Drop>(
    alloc: Global,
    object: &Object,
) -> Result<Boxed<Post<J>>, OutOfMemory>
    ensures new { IfOk result (λ post. IsNewPost object.now post) }
    ensures reserved { IfOk result (λ post. IsReserved post) }
{
    let mut post = Boxed::new(alloc, Post::new(alloc, object))?;
    reserve_post(post.get_mut())?;
    Ok(post)
}
