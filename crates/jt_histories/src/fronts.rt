//! The fronts of logs that are merged.

ghost use Rattle.std.specs.Prelude.{◌≡◌, ℕ, [], None, map, drop, get_or, slice_get, IfOk, MatchOption};
ghost use Rattle.jt_histories.specs.Merges.{items_of};
ghost use Rattle.jt_histories.specs.Fronts.{first_stamp, IsFirst, Takes};

use jt_base::{Entry, OutOfMemory};
use std::alloc::Global;
use std::collections::VecDeque;
use std::marker::Model;

/// What is left of logs.
#[derive(Drop)]
pub(crate) struct Fronts {
    /// The stamps of the logs' first entries, beside one another, since all are read at each take.
    stamps: Vec<Option<u32>>,
    logs: Vec<VecDeque<Entry>>,
}

impl Model for Fronts {
    ghost use Rattle.std.specs.Prelude.{◌≡◌, List, map};
    ghost use Rattle.std.specs.VecDeque.{deque_items};
    ghost use Rattle.jt_base.specs.declared.entry.Entry.{Entry as EntryOf};
    ghost use Rattle.jt_histories.specs.Fronts.{first_stamp};

    ghost Value = { List (List EntryOf) };

    ghost view = { λ f. map deque_items f.logs.items };

    ghost invariant = { λ f. f.stamps.items ≡ map first_stamp (map deque_items f.logs.items) };
}

fn stamp_of_first(log: &VecDeque<Entry>) -> Option<u32>
    ensures { result ≡ first_stamp log.now.items }
{
    log.front().map(|entry| entry.stamp)
}

/// Where the smallest stamp stands, of equal ones the first. None where there is no stamp.
fn earliest(stamps: &[Option<u32>]) -> Option<usize>
    ensures { MatchOption result ((k : ℕ) → get_or stamps.now k None ≡ None) (λ at. IsFirst stamps.now at) }
{
    let mut earliest = None;
    for (at, stamp) in stamps.iter().enumerate() {
        let Some(stamp) = *stamp else {
            continue;
        };
        match earliest {
            Some((_, least)) if least <= stamp => {}
            _ => earliest = Some((at, stamp)),
        }
    }
    let (at, _) = earliest?;
    Some(at)
}

/// Takes the log's first entry. Where a power of two of entries is left, the room of those that were
/// taken is given back. All this together moves fewer than twice as many entries as the log had. The
/// log stays as it is where there is no memory for that.
fn take_first(log: &mut VecDeque<Entry>) -> Option<Entry>
    ensures first { result ≡ slice_get log.old.items 0 }
    ensures rest { log.new.items ≡ drop 1 log.old.items }
{
    let first = log.pop_front();
    if log.len().is_power_of_two() {
        log.shrink_to_fit();
    }
    first
}

impl Fronts {
    /// All of these logs. It moves no entry.
    pub(crate) fn new(alloc: Global, logs: Vec<Vec<Entry>>) -> Result<Fronts, OutOfMemory>
        ensures { IfOk result (λ fronts. fronts ≡ map items_of logs.items) }
    {
        let mut stamps = Vec::with_capacity(alloc, logs.len())?;
        let mut left = Vec::with_capacity(alloc, logs.len())?;
        for log in logs {
            let log = VecDeque::from_vec(log);
            stamps.push(stamp_of_first(&log))?;
            left.push(log)?;
        }
        Ok(Fronts { stamps, logs: left })
    }

    /// Takes the first entry with the smallest stamp, of equal ones that of the first log. None
    /// where nothing is left.
    pub(crate) fn take(&mut self) -> Option<Entry>
        ensures { MatchOption result ((k : ℕ) → get_or self.old k [] ≡ []) (λ entry. Takes self.old entry self.new) }
    {
        let Some(at) = earliest(&self.stamps) else {
            return None;
        };
        let entry = take_first(&mut self.logs[at]);
        self.stamps[at] = stamp_of_first(&self.logs[at]);
        entry
    }
}
