//! The slices of a run on one thread.

ghost use Rattle.std.specs.Prelude.{◌≡◌, ◌<◌, ◌≤◌, List, [], ◌∷◌, true, length, MatchOption, IfOk, OnOk};
ghost use Rattle.std.specs.List.Sorted.{IsPermutation};
ghost use Rattle.jt_base.specs.declared.entry.Entry.{Entry as EntryOf};
ghost use Rattle.jt_base.specs.Coming.{is_spawn};
ghost use Rattle.jt_histories.specs.Kept.{made_path};
ghost use Rattle.jt_histories.specs.Merges.{AreLogs, IsMerge};
ghost use Rattle.jt_laws.specs.Lines.{cut_at_main_end};
ghost use Rattle.jt_step.specs.Tasks.{new_task};
ghost use Rattle.jt_machine.specs.Machines.{run_of, first_shards, logs_of, main_end_in, end_by, Resumes, Runs, AreSettled, SettledBut, Ended, Grows};
ghost use Rattle.jt_machine.specs.Runs.{worker_of};
ghost use Rattle.jt_machine.specs.Advancing.{CarriesOn, Serves, Leaves};
ghost use Rattle.jt_machine.specs.Operations.{Asks, Replied, Followed, WakesAll};

use crate::ending::end_in;
use crate::progress::{Follows, Progress, what_follows};
use crate::ready::Ready;
use crate::run::End;
use crate::setting::Setting;
use jt_base::{Entry, Job, Object, Op, OutOfMemory, Path, Picks, Pool, SHARDS, Sizes};
use jt_histories::{cut_at_main_end, merge};
use jt_meaning::Start;
use jt_shard::{Applied, Shard};
use jt_step::{Advance, TaskRun};
use std::alloc::Global;

/// The shards with the jobs that wait, and the jobs that don't.
#[derive(Drop)]
pub(crate) struct State<'p> {
    /// The k-th has the number k.
    pub shards: Vec<Shard<TaskRun<'p>>>,
    /// In the order in which they became ready.
    pub ready: Ready<'p>,
}

/// Sixteen shards without entries.
pub(crate) fn empty_shards<'p>(
    alloc: Global,
    events: u32,
) -> Result<Vec<Shard<TaskRun<'p>>>, OutOfMemory>
    ensures { IfOk result (λ shards. shards.items ≡ first_shards 16 events) }
{
    let mut shards = Vec::new(alloc);
    for number in 0..SHARDS {
        shards.push(Shard::new(alloc, number, events))?;
    }
    Ok(shards)
}

impl<'p> State<'p> {
    /// Goes on until the run ends; it has ended where main has.
    ///
    /// # Errors
    ///
    /// Where memory is wanting.
    pub(crate) fn go_on(&mut self, setting: &Setting<'p>, picks: Picks) -> Result<End, OutOfMemory>
        requires worker { 1 ≤ setting.now.sizes.default }
        requires resumes { Resumes (run_of setting.now) setting.now.seeds self.old.shards.items self.old.ready }
        ensures ended { IfOk result (λ end. Ended (run_of setting.now) setting.now.seeds self.new.shards.items end) }
        ensures grows { IfOk result (λ end. Grows (run_of setting.now) setting.now.seeds self.old.shards.items self.new.shards.items) }
    {
        match self.main_end(setting.alloc)? {
            Some(end) => Ok(end),
            None => self.run(setting, picks),
        }
    }

    /// What the run has come to where main has ended, by the log of shard 0.
    fn main_end(&self, alloc: Global) -> Result<Option<End>, OutOfMemory>
        requires { length self.now.shards.items ≡ 16 }
        ensures { IfOk result (λ end. end ≡ end_by (main_end_in (logs_of self.now.shards.items))) }
    {
        end_in(alloc, self.shards[0].log())
    }

    /// Runs the jobs that are ready, slice by slice, until the run ends.
    ///
    /// # Errors
    ///
    /// Where memory is wanting.
    fn run(&mut self, setting: &Setting<'p>, picks: Picks) -> Result<End, OutOfMemory>
        requires runs { Runs (run_of setting.now) setting.now.seeds self.old.shards.items self.old.ready }
        requires settled { AreSettled self.old.shards.items }
        ensures ended { IfOk result (λ end. Ended (run_of setting.now) setting.now.seeds self.new.shards.items end) }
        ensures grows { IfOk result (λ end. Grows (run_of setting.now) setting.now.seeds self.old.shards.items self.new.shards.items) }
    {
        let mut picks = picks;
        'slices: loop {
            let Some(job) = self.pick(&mut picks) else {
                return Ok(End::Deadlock);
            };
            if let Some(end) = self.slice(setting, job)? {
                return Ok(end);
            }
        }
    }

    /// Takes one of the jobs that are ready, as the next word of the picks says. None where none is
    /// ready.
    fn pick(&mut self, picks: &mut Picks) -> Option<TaskRun<'p>>
        ensures shards { self.new.shards ≡ self.old.shards }
        ensures ready { MatchOption result ((self.old.ready ≡ []) × (self.new.ready ≡ [])) (λ job. IsPermutation self.old.ready (job ∷ self.new.ready)) }
    {
        let number = self.ready.len();
        if number == 0 {
            return None;
        }
        let most = u32::try_from(number).unwrap_or(u32::MAX);
        let picked = picks.below(most) as usize;
        Some(self.ready.take(picked))
    }

    /// A job's slice: it goes on until it waits, yields, or its task is over. What the run comes to,
    /// where it ends.
    fn slice(&mut self, setting: &Setting<'p>, job: TaskRun<'p>) -> Result<Option<End>, OutOfMemory>
        requires runs { Runs (run_of setting.now) setting.now.seeds self.old.shards.items (job ∷ self.old.ready) }
        requires settled { AreSettled self.old.shards.items }
        ensures { IfOk result (λ end. MatchOption end (Leaves (run_of setting.now) setting.now.seeds self.old.shards.items self.old.ready job.entry self.new.shards.items self.new.ready (length self.new.ready)) (λ e. Ended (run_of setting.now) setting.now.seeds self.new.shards.items e × Grows (run_of setting.now) setting.now.seeds self.old.shards.items self.new.shards.items)) }
    {
        let mut job = job;
        'progress: loop {
            match self.carry_on(setting, job)? {
                Progress::GoesOn(same) => job = same,
                Progress::Left => return Ok(None),
                Progress::Ended(end) => return Ok(Some(end)),
            }
        }
    }

    /// A job goes on up to its next operation, or by as many turns as one advance can take.
    fn carry_on(
        &mut self,
        setting: &Setting<'p>,
        job: TaskRun<'p>,
    ) -> Result<Progress<'p>, OutOfMemory>
        requires runs { Runs (run_of setting.now) setting.now.seeds self.old.shards.items (job ∷ self.old.ready) }
        requires settled { AreSettled self.old.shards.items }
        ensures { IfOk result (λ progress. CarriesOn (run_of setting.now) setting.now.seeds self.old.shards.items self.old.ready job.entry progress self.new.shards.items self.new.ready) }
    {
        let mut job = job;
        match job.advance(u32::MAX)? {
            Advance::More => Ok(Progress::GoesOn(job)),
            Advance::Needs(op) => {
                let follows = what_follows(setting.alloc, job.path(), &op)?;
                self.serve(setting, job, op, follows)
            }
            Advance::Spawns(op, start) => {
                let child = child(setting, &job, &op, start)?;
                self.serve(setting, job, op, Follows::Makes(child))
            }
            Advance::Over => unreachable!(),
        }
    }

    /// Asks the shard of a job's operation: the job waits there where the operation isn't allowed.
    fn serve(
        &mut self,
        setting: &Setting<'p>,
        job: TaskRun<'p>,
        op: Op,
        follows: Follows<'p>,
    ) -> Result<Progress<'p>, OutOfMemory>
        requires runs { Runs (run_of setting.now) setting.now.seeds self.old.shards.items (job ∷ self.old.ready) }
        requires settled { AreSettled self.old.shards.items }
        requires asks { Asks (run_of setting.now) job op follows }
        ensures { IfOk result (λ progress. Serves (run_of setting.now) setting.now.seeds self.old.shards.items self.old.ready job.entry progress self.new.shards.items self.new.ready) }
    {
        let mut job = job;
        let worker = worker_for(&job, setting.sizes);
        let k = Object::of(job.path(), &op).shard() as usize;
        self.shards[k].reserve(&mut job, &op)?;
        match self.shards[k].apply(&mut job, op, worker) {
            Applied::Done(_) => self.follow(setting, k, job, follows),
            Applied::NotYet(op) => {
                self.shards[k].park(job, op);
                Ok(Progress::Left)
            }
            Applied::StampLimit(_) => Ok(Progress::Ended(End::EventLimit)),
        }
    }

    /// An operation of a job has its reply: the jobs that it wakes become ready, and the job goes on
    /// as it has to.
    fn follow(
        &mut self,
        setting: &Setting<'p>,
        k: usize,
        job: TaskRun<'p>,
        follows: Follows<'p>,
    ) -> Result<Progress<'p>, OutOfMemory>
        requires there { k < length self.old.shards.items }
        requires replied { Replied (run_of setting.now) setting.now.seeds self.old.shards.items self.old.ready job follows }
        requires settled { SettledBut k self.old.shards.items }
        ensures { IfOk result (λ progress. Followed (run_of setting.now) setting.now.seeds self.old.shards.items self.old.ready job.entry follows.entry progress self.new.shards.items self.new.ready) }
    {
        self.wake(k)?;
        match follows {
            Follows::Ends(end) => Ok(Progress::Ended(end)),
            Follows::Over => Ok(Progress::Left),
            Follows::Yields => {
                self.ready.push(job)?;
                Ok(Progress::Left)
            }
            Follows::GoesOn => Ok(Progress::GoesOn(job)),
            Follows::Makes(child) => {
                self.ready.push(child)?;
                Ok(Progress::GoesOn(job))
            }
        }
    }

    /// The waiting jobs of a shard whose operations are allowed become ready.
    fn wake(&mut self, k: usize) -> Result<(), OutOfMemory>
        requires { k < length self.old.shards.items }
        ensures { OnOk result (WakesAll k self.old.shards.items self.old.ready self.new.shards.items self.new.ready) }
    {
        while let Some((woken, op)) = self.shards[k].next_woken() {
            // the job tells it again
            drop(op);
            self.ready.push(woken)?;
        }
        Ok(())
    }

    /// The entries of all shards in the order of stamp, then shard, up to and with main's end.
    pub(crate) fn into_history(self, alloc: Global) -> Result<Vec<Entry>, OutOfMemory>
        requires { AreLogs (logs_of self.shards.items) }
        ensures { IfOk result (λ h. (all : List EntryOf) × IsMerge (logs_of self.entry.shards.items) all × (h.items ≡ cut_at_main_end all)) }
    {
        let State { shards, ready: _ } = self;
        let mut logs = Vec::new(alloc);
        for shard in shards {
            let (log, _jobs) = shard.into_parts();
            logs.push(log)?;
        }
        let history = merge(alloc, logs)?;
        Ok(cut_at_main_end(history))
    }
}

/// The worker that makes a job's entries: the one to which it is bound, else the first of its pool.
fn worker_for<'p>(job: &TaskRun<'p>, sizes: Sizes) -> u32
    ensures { result ≡ worker_of sizes job.now.seat }
{
    match job.bound() {
        Some(worker) => worker,
        None => match job.pool() {
            Pool::Default => 0,
            Pool::Interactive => sizes.default,
        },
    }
}

/// The task that a job's spawn makes.
fn child<'p>(
    setting: &Setting<'p>,
    job: &TaskRun<'p>,
    op: &Op,
    start: Start,
) -> Result<TaskRun<'p>, OutOfMemory>
    requires spawn { is_spawn op.now ≡ true }
    requires body { start.code < length setting.now.program.now.tasks }
    ensures { IfOk result (λ child. child ≡ new_task (run_of setting.now) (made_path op.now) start job.now.seat.pool) }
{
    match op {
        Op::Spawn(path, _) => TaskRun::start(
            setting.alloc,
            setting.program,
            start,
            path.copy(),
            setting.sizes,
            &setting.limits,
            job.pool(),
        ),
        _ => unreachable!(),
    }
}
