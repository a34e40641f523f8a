//! The merge of the shards' logs into one history.

ghost use Rattle.std.specs.Prelude.{◌≡◌, ◌-◌, ◌^◌, map, min, IfOk, IfSome};
ghost use Rattle.jt_histories.specs.Merges.{AreLogs, IsMerge, items_of};
ghost use Rattle.jt_histories.specs.Fronts.{IsOnlyFilled, count_of};

use crate::fronts::Fronts;
use jt_base::{Entry, OutOfMemory};
use std::alloc::Global;

/// The number of the only log with entries. None where none or several have some.
fn only_filled(logs: &[Vec<Entry>]) -> Option<usize>
    ensures { IfSome result (λ k. IsOnlyFilled (map items_of logs.now) k) }
{
    let mut filled = None;
    for (k, log) in logs.iter().enumerate() {
        if log.is_empty() {
            continue;
        }
        if filled.is_some() {
            return None;
        }
        filled = Some(k);
    }
    filled
}

/// How many entries the logs have together, at most the greatest `usize`.
fn count(logs: &[Vec<Entry>]) -> usize
    ensures { result ≡ min (count_of (map items_of logs.now)) (2 ^ 64 - 1) }
{
    let mut count: usize = 0;
    for log in logs {
        count = count.saturating_add(log.len());
    }
    count
}

/// The entries of all logs in the order of stamp, then shard. The k-th log is that of shard k.
/// Takes memory for as many entries as the logs have, and none where only one log has some.
pub fn merge(alloc: Global, logs: Vec<Vec<Entry>>) -> Result<Vec<Entry>, OutOfMemory>
    requires { AreLogs (map items_of logs.items) }
    ensures { IfOk result (λ h. IsMerge (map items_of logs.items) h.items) }
{
    let mut logs = logs;
    if let Some(k) = only_filled(&logs) {
        return Ok(logs.swap_remove(k));
    }
    let mut history = Vec::with_capacity(alloc, count(&logs))?;
    let mut fronts = Fronts::new(alloc, logs)?;
    while let Some(entry) = fronts.take() {
        history.push(entry)?;
    }
    Ok(history)
}
