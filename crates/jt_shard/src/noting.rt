//! A job's entry: its stamp, and what the job notes of it.

ghost use Rattle.std.specs.Prelude.{◌≡◌, ◌<◌, ◌≤◌, ◌+◌, ◌^◌, max, MatchOption};
ghost use Rattle.jt_base.specs.declared.entry.Entry.{Entry as EntryOf};
ghost use Rattle.jt_laws.specs.Seats.{seat_after};
ghost use Rattle.jt_histories.specs.Jobs.{last_entry, noted_job};

use jt_base::{Entry, How, Job, Op, Reply};

/// The stamp of the last entry, 0 where there is none.
fn last_stamp(log: &[Entry]) -> u32
    ensures { result ≡ last_entry log.now }
{
    match log.last() {
        Some(entry) => entry.stamp,
        None => 0,
    }
}

/// The stamp after that of a job and those of a log; none beyond the limit.
pub(crate) fn stamp_after(last: u32, log: &[Entry], events: u32) -> Option<u32>
    ensures { MatchOption result (events < max last (last_entry log.now) + 1) (λ stamp. (stamp ≡ max last (last_entry log.now) + 1) × (stamp ≤ events) × (stamp < 2 ^ 32)) }
{
    let before = last.max(last_stamp(log));
    if before < events {
        Some(before + 1)
    } else {
        None
    }
}

/// Notes an entry of a job, and binds it to the worker at a spawn by `@async`.
pub(crate) fn note<J: Job>(job: &mut J, stamp: u32, reply: Reply, op: &Op, worker: u32)
    requires room { 0 < J.room job.old }
    ensures told { (e : EntryOf) → e.stamp ≡ stamp → e.reply ≡ reply → J.told job.new ≡ noted_job J.Start (J.told job.old) (seat_after (J.told job.old).seat op.now worker) e }
    ensures run { J.run job.new ≡ J.run job.old }
{
    job.note(stamp, reply);
    if let Op::Spawn(_, How::Async) = op {
        job.bind(worker);
    }
}
