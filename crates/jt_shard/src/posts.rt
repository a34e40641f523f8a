//! The objects of a shard, by name.

ghost use Rattle.std.specs.Prelude.{◌≡◌, ◌<◌, ◌≤◌, ◌+◌, ◌++◌, Some, map, length, slice_get, vec_len, MatchBool, IfOk, OnOk, OnErr};
ghost use Rattle.std.specs.Map.{keys_of, values_of};
ghost use Rattle.std.specs.Vec.{vec_capacity};
ghost use Rattle.jt_objects.specs.Needs.{state_of, IsWithin};
ghost use Rattle.jt_shard.specs.declared.post.Post.{Post as PostOf};
ghost use Rattle.jt_base.specs.declared.object.Object.{Object};
ghost use Rattle.jt_shard.specs.Asking.{Allows, Refuses};
ghost use Rattle.jt_shard.specs.Posts.{post_at, object_at, AreDistinct, IsReserved, HasReservedPost, KeepsPosts, waiting_in, AsksPost, LeavesPost, LeavesAt, JoinsPost};

use crate::boxed::Boxed;
use crate::line::first_allowed;
use crate::post::{Post, new_post, reserve_post};
use crate::spare::Placed;
use indexmap::IndexMap;
use jt_base::{Ask, Job, Object, Op, OutOfMemory, Path};
use std::alloc::Global;
use std::collections::VecDeque;

/// The posts of the objects for which room was made, in the order in which it was first made.
pub(crate) type Posts<J> = IndexMap<Object, Boxed<Post<J>>>;

/// Makes room at an object for one more job and for whatever operation comes next, makes the
/// object's post where there is none, and gives its index. After `OutOfMemory` each post is as
/// before.
pub(crate) fn reserve_at<J: Drop>(
    alloc: Global,
    posts: &mut Posts<J>,
    object: Object,
) -> Result<usize, OutOfMemory>
    ensures index { IfOk result (λ index. object_at posts.new.entries (Some index) ≡ Some object) }
    ensures reserved { OnOk result (HasReservedPost posts.new.entries object) }
    ensures kept { KeepsPosts posts.old.entries posts.new.entries }
    ensures err { OnErr result (keys_of posts.new.entries ≡ keys_of posts.old.entries) }
{
    if let Some(index) = posts.get_index_of(&object) {
        reserve_post(posts[index].get_mut())?;
        return Ok(index);
    }
    let post = new_post(alloc, &object)?;
    let index = posts.len();
    posts.insert(object, post)?;
    Ok(index)
}

/// Whether a task's operation is allowed at the object of an index.
pub(crate) fn is_allowed<J: Drop>(posts: &Posts<J>, index: usize, task: &Path, op: &Op) -> bool
    requires there { index < length posts.now.entries }
    requires distinct { AreDistinct posts.now.entries }
    ensures { (o : Object) (post : PostOf J) → object_at posts.now.entries (Some index) ≡ Some o → post_at posts.now.entries o ≡ Some post → MatchBool result (Allows post.state task.now op.now) (Refuses post.state task.now op.now) }
{
    posts[index].get().state.allows(task, op)
}

/// Asks the object of an index a task's operation: it answers by its law. It takes no memory.
pub(crate) fn ask<J: Drop>(
    posts: &mut Posts<J>,
    alloc: Global,
    index: usize,
    task: &Path,
    op: &Op,
) -> Ask
    requires there { index < length posts.old.entries }
    requires distinct { AreDistinct posts.old.entries }
    requires reserved { (post : PostOf J) → slice_get (values_of posts.old.entries) index ≡ Some post → IsReserved post }
    requires small { (post : PostOf J) → slice_get (values_of posts.old.entries) index ≡ Some post → IsWithin (state_of post.state) task.now op.now }
    ensures { (o : Object) → object_at posts.old.entries (Some index) ≡ Some o → AsksPost posts.old.entries o task.now op.now result posts.new.entries }
{
    posts[index].get_mut().state.ask(alloc, task, op)
}

/// A job joins the end of the line of an index's object, which has room for it.
pub(crate) fn join<J: Drop>(posts: &mut Posts<J>, index: usize, waiting: Placed<(J, Op)>)
    requires there { index < length posts.old.entries }
    requires distinct { AreDistinct posts.old.entries }
    requires reserved { (post : PostOf J) → slice_get (values_of posts.old.entries) index ≡ Some post → IsReserved post }
    ensures { (o : Object) → object_at posts.old.entries (Some index) ≡ Some o → JoinsPost posts.old.entries o waiting posts.new.entries }
{
    posts[index].get_mut().waiting.push_back_reserved(waiting);
}

/// The first job of a line whose operation is allowed leaves it.
fn leave_post<J: Job>(post: &mut Post<J>) -> Option<(J, Op)>
    ensures { LeavesPost J.told post.old result post.new }
{
    let i = first_allowed(&post.state, &post.waiting)?;
    let woken = post.waiting.remove(i)?;
    Some(woken.into_inner())
}

/// The first job of the line of an index's object whose operation is allowed leaves it.
pub(crate) fn leave<J: Job>(posts: &mut Posts<J>, index: usize) -> Option<(J, Op)>
    ensures { LeavesAt J.told posts.old.entries (object_at posts.old.entries (Some index)) result posts.new.entries }
{
    if index >= posts.len() {
        return None;
    }
    leave_post(posts[index].get_mut())
}

/// The jobs of a line, after those that were released before.
fn released_line<J: Drop>(line: VecDeque<Placed<(J, Op)>>, jobs: Vec<J>) -> Vec<J>
    requires room { vec_len jobs + length line.items ≤ vec_capacity jobs }
    ensures items { result.items ≡ jobs.items ++ map (λ w. w.0) line.items }
    ensures capacity { vec_capacity result ≡ vec_capacity jobs }
{
    let mut line = line;
    let mut jobs = jobs;
    while let Some(waiting) = line.pop_front() {
        let (job, _) = waiting.into_inner();
        jobs.push_reserved(job);
    }
    jobs
}

/// The waiting jobs of all posts, object by object.
pub(crate) fn released<J: Drop>(posts: Posts<J>, jobs: Vec<J>) -> Vec<J>
    requires room { vec_len jobs + length (waiting_in posts.entries) ≤ vec_capacity jobs }
    ensures items { result.items ≡ jobs.items ++ map (λ w. w.0) (waiting_in posts.entries) }
{
    let mut jobs = jobs;
    for (_, post) in posts {
        jobs = released_line(post.into_inner().into_waiting(), jobs);
    }
    jobs
}
