//! The objects of one shard, with their entries and the jobs that wait for them.

ghost use Rattle.std.specs.Prelude.{◌≡◌, length, map, OnOk, OnErr};
ghost use Rattle.jt_base.specs.Objects.{shard_of_object};
ghost use Rattle.jt_shard.specs.Shards.{empty_shard, object_for, MustWait, IsSettled, HasRoom};
ghost use Rattle.jt_shard.specs.Calls.{Applies, Parks, WakesNext};

use crate::applied::Applied;
use crate::changing::touched;
use crate::noting::{note, stamp_after};
use crate::posts::{Posts, ask, is_allowed, join, leave, released, reserve_at};
use crate::spare::{Spare, reserve_spare};
use indexmap::IndexMap;
use jt_base::{Ask, Entry, Job, Object, Op, OutOfMemory};
use std::alloc::Global;
use std::marker::Model;

/// The objects of one shard by name, their entries, and the jobs that wait for them, each with its
/// operation.
#[derive(Drop)]
pub struct Shard<J: Job> {
    number: u32,
    /// The greatest stamp that an entry may have.
    events: u32,
    alloc: Global,
    log: Vec<Entry>,
    posts: Posts<J>,
    /// The index of the only object whose waiting jobs may be allowed.
    touched: Option<usize>,
    /// The index of the object for whose next operation there is room.
    reserved: Option<usize>,
    /// How many jobs wait.
    count: usize,
    /// Room in which all waiting jobs can be given back.
    jobs: Vec<J>,
    /// Where the next job that waits is kept, with its operation.
    spare: Option<Spare<(J, Op)>>,
}

impl<J: Job> Model for Shard<J> {
    ghost use Rattle.jt_shard.specs.Shards.{ShardState};
    ghost use Rattle.jt_shard.specs.Posts.{object_at, waiting_in, HasMemoryIf, IsCounted, IsStamped, ArePosts};

    ghost Value = { ShardState J };

    ghost view = { λ s. record { number = s.number; events = s.events; log = s.log.items; waiting = waiting_in s.posts.entries; reserved = object_at s.posts.entries s.reserved } };

    ghost invariant = { λ s. ArePosts J.told s.log.items (object_at s.posts.entries s.touched) s.posts.entries × (IsCounted s.posts.entries s.count s.jobs × (HasMemoryIf s.log s.jobs s.spare s.posts.entries (object_at s.posts.entries s.reserved) × IsStamped s.log.items)) };
}

impl<J: Job> Shard<J> {
    /// A shard without entries, for which nobody waits. It takes no memory yet.
    pub fn new(alloc: Global, number: u32, events: u32) -> Shard<J>
        ensures empty { result ≡ empty_shard number events }
        ensures settled { IsSettled J.told result }
    {
        Shard {
            number,
            events,
            alloc,
            log: Vec::new(alloc),
            posts: IndexMap::new(alloc),
            touched: None,
            reserved: None,
            count: 0,
            jobs: Vec::new(alloc),
            spare: None,
        }
    }

    /// The entries, the oldest first.
    pub fn log(&self) -> &[Entry]
        ensures { result.now ≡ self.now.log }
    {
        self.log.as_slice()
    }

    /// How many jobs wait.
    pub fn waiting(&self) -> usize
        ensures { result ≡ length self.now.waiting }
    {
        self.count
    }

    /// Makes room in the shard and in the job for one entry of this operation, or for the job to
    /// wait for it. The room stands until an entry is made, a job is parked or a job is woken. After
    /// `OutOfMemory` the shard is as it was.
    pub fn reserve(&mut self, job: &mut J, op: &Op) -> Result<(), OutOfMemory>
        ensures room { OnOk result (HasRoom J.told J.room self.new job.new op.now) }
        ensures kept { self.new ≡ record self.old { reserved = self.new.reserved } }
        ensures err { OnErr result (self.new ≡ self.old) }
        ensures told { J.told job.new ≡ J.told job.old }
        ensures run { J.run job.new ≡ J.run job.old }
    {
        job.reserve_note()?;
        let object = Object::of(job.path(), op);
        let Some(count) = self.count.checked_add(1) else {
            return Err(OutOfMemory);
        };
        self.jobs.reserve(count)?;
        self.log.reserve(1)?;
        reserve_spare(self.alloc, &mut self.spare)?;
        let index = reserve_at(self.alloc, &mut self.posts, object)?;
        self.reserved = Some(index);
        Ok(())
    }

    /// Applies a job's operation, for which there is room, where it is allowed: its entry has the
    /// stamp after those of the job and of the shard, and the job notes it, bound to the worker at a
    /// spawn by `@async`. Otherwise the operation is given back, and nothing changes. It takes no
    /// memory.
    pub fn apply(&mut self, job: &mut J, op: Op, worker: u32) -> Applied
        requires here { shard_of_object (object_for J.told job.old op) ≡ self.old.number }
        requires settled { IsSettled J.told self.old }
        requires room { HasRoom J.told J.room self.old job.old op }
        ensures applies { Applies J.told self.old job.old op worker result self.new job.new }
        ensures run { J.run job.new ≡ J.run job.old }
    {
        let Some(index) = self.reserved else {
            unreachable!();
        };
        let Some(stamp) = stamp_after(job.last_stamp(), self.log.as_slice(), self.events) else {
            if is_allowed::<J>(&self.posts, index, job.path(), &op) {
                return Applied::StampLimit(op);
            }
            return Applied::NotYet(op);
        };
        let reply = match ask::<J>(&mut self.posts, self.alloc, index, job.path(), &op) {
            Ask::NotYet => return Applied::NotYet(op),
            Ask::Done(reply) => reply,
        };
        note(job, stamp, reply.copy(), &op, worker);
        self.touched = touched(index, &op);
        self.reserved = None;
        self.log.push_reserved(Entry {
            stamp,
            worker,
            task: job.path().copy(),
            op,
            reply: reply.copy(),
        });
        Applied::Done(reply)
    }

    /// A job whose operation isn't allowed now, and for which there is room, joins the end of the
    /// line at its object. It takes no memory.
    pub fn park(&mut self, job: J, op: Op)
        requires here { shard_of_object (object_for J.told job op) ≡ self.old.number }
        requires not_allowed { MustWait J.told self.old.log (job, op) }
        requires room { HasRoom J.told J.room self.old job op }
        ensures parks { Parks J.told self.old job op self.new }
        ensures settled { IsSettled J.told self.old → IsSettled J.told self.new }
    {
        let Some(spare) = self.spare.take() else {
            unreachable!();
        };
        let Some(index) = self.reserved.take() else {
            unreachable!();
        };
        join(&mut self.posts, index, spare.fill((job, op)));
        self.count += 1;
    }

    /// A waiting job whose operation is allowed, the one that waits longest, with the operation. All
    /// such jobs wait for the object of the last entry. None exactly where the shard is settled.
    pub fn next_woken(&mut self) -> Option<(J, Op)>
        ensures { WakesNext J.told self.old result self.new }
    {
        let Some(index) = self.touched else {
            return None;
        };
        let woken = leave(&mut self.posts, index);
        if woken.is_some() {
            self.count -= 1;
            self.reserved = None;
        } else {
            self.touched = None;
        }
        woken
    }

    /// The entries, the oldest first, and the jobs that wait. It takes no memory.
    pub fn into_parts(self) -> (Vec<Entry>, Vec<J>)
        ensures log { result.0.items ≡ self.log }
        ensures jobs { result.1.items ≡ map (λ w. w.0) self.waiting }
    {
        let Shard {
            log,
            posts,
            jobs,
            ..
        } = self;
        (log, released(posts, jobs))
    }
}
