//! How workers, seats and queues are numbered, and which queue serves whom.
ghost use Rattle.std.specs.Prelude.{◌≡◌, ◌≤◌, [], ◌∷◌, ◌++◌, length};
ghost use Rattle.jt_sleep_core.specs.Limits.{AreSizes};
ghost use Rattle.jt_sleep_core.specs.Numbering.{workers, heaps, line_of, stop_queue, IsWorker, IsQueue, served, own_queues};

use crate::numbers::Numbers;
use jt_base::Sizes;

/// How many workers both pools have: the default pool's have the first numbers. The caller's seat has the number after
/// the last worker's.
pub fn worker_count(sizes: Sizes) -> u32
    requires { AreSizes sizes }
    ensures { result ≡ workers sizes }
{
    sizes.default + sizes.interactive
}

/// How many heaps both pools have, two for each worker: the default pool's have the first numbers.
pub fn heap_count(sizes: Sizes) -> u32
    requires { AreSizes sizes }
    ensures { result ≡ heaps sizes }
{
    2 * worker_count(sizes)
}

/// The number of a worker's line. The lines follow the heaps.
pub fn worker_line(sizes: Sizes, worker: u32) -> u32
    requires sizes { AreSizes sizes }
    requires worker { IsWorker sizes worker }
    ensures { result ≡ line_of sizes worker }
{
    heap_count(sizes) + worker
}

/// The number of the stop queue, the last one.
pub fn last_queue(sizes: Sizes) -> u32
    requires { AreSizes sizes }
    ensures { result ≡ stop_queue sizes }
{
    3 * worker_count(sizes)
}

/// The workers that a queue serves, in order: a heap serves the workers of its pool, a line its own worker, and the
/// stop queue every worker.
pub fn workers_served(sizes: Sizes, queue: u32) -> Numbers
    requires sizes { AreSizes sizes }
    requires queue { IsQueue sizes queue }
    ensures { result ≡ served sizes queue }
{
    let heaps = heap_count(sizes);
    let last = last_queue(sizes);
    let mut found = Numbers::new();
    if queue < 2 * sizes.default {
        found.push_range(0, sizes.default);
    } else if queue < heaps {
        found.push_range(sizes.default, worker_count(sizes));
    } else if queue < last {
        found.push(queue - heaps);
    } else {
        found.push_range(0, worker_count(sizes));
    }
    found
}

/// A worker's own queues, in order: the heaps of its pool, its line and the stop queue.
pub fn worker_queues(sizes: Sizes, worker: u32) -> Numbers
    requires sizes { AreSizes sizes }
    requires worker { IsWorker sizes worker }
    ensures { result ≡ own_queues sizes worker }
{
    let mut queues = pool_heaps(sizes, worker);
    queues.push(worker_line(sizes, worker));
    queues.push(last_queue(sizes));
    queues
}

/// The heaps of a worker's pool, in order.
fn pool_heaps(sizes: Sizes, worker: u32) -> Numbers
    requires sizes { AreSizes sizes }
    requires worker { IsWorker sizes worker }
    ensures queues { result ++ line_of sizes worker ∷ stop_queue sizes ∷ [] ≡ own_queues sizes worker }
    ensures few { length result ≤ 128 }
{
    let mut heaps = Numbers::new();
    if worker < sizes.default {
        heaps.push_range(0, 2 * sizes.default);
    } else {
        heaps.push_range(2 * sizes.default, heap_count(sizes));
    }
    heaps
}
