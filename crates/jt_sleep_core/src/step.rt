//! The steps of the protocol.
ghost use Rattle.std.specs.Prelude.{◌≡◌, ◌↔◌, IsTrue};
ghost use Rattle.jt_sleep_core.specs.Limits.{AreSizes};

use crate::numbering::{heap_count, last_queue, worker_count};
use jt_base::Sizes;

/// One atomic step on a word. The first number is the seat that makes it.
#[derive(Clone, Copy, PartialEq, Eq, Debug)]
pub enum Step {
    /// A seat raises a queue's count, and begins a pass over the workers that the queue serves.
    Raise(u32, u32),
    /// A seat lowers a queue's count.
    Lower(u32, u32),
    /// A seat in a pass reads a worker's sleep word.
    Look(u32, u32),
    /// A seat in a pass clears a worker's sleep word, if it is still set.
    Wake(u32, u32),
    /// A seat sets the token of the worker that it woke.
    Post(u32, u32),
    /// A worker sets its own sleep word.
    Declare(u32),
    /// A worker whose sleep word was set reads the count of one of its queues.
    Check(u32, u32),
    /// A worker that found all its queues empty takes its token.
    TakeToken(u32),
    /// A worker clears its own sleep word.
    Retreat(u32),
    /// A worker that found all its queues empty sets its own token.
    SelfPost(u32),
}

impl Step {
    ghost use Rattle.jt_sleep_core.specs.Steps.{seat_of, IsInRange};

    /// Who makes the step.
    pub fn seat(self) -> u32
        ensures { result ≡ seat_of self }
    {
        match self {
            Step::Raise(seat, _)
            | Step::Lower(seat, _)
            | Step::Look(seat, _)
            | Step::Wake(seat, _)
            | Step::Post(seat, _)
            | Step::Declare(seat)
            | Step::Check(seat, _)
            | Step::TakeToken(seat)
            | Step::Retreat(seat)
            | Step::SelfPost(seat) => seat,
        }
    }

    /// Whether there are such a seat, queue and worker. The caller's seat never sleeps, the stop
    /// word is never lowered, and a line's count is lowered by its own worker alone.
    pub fn is_in_range(self, sizes: Sizes) -> bool
        requires { AreSizes sizes }
        ensures { IsTrue result ↔ IsInRange sizes self }
    {
        let workers = worker_count(sizes);
        match self {
            Step::Raise(seat, queue) => seat <= workers && queue <= last_queue(sizes),
            Step::Lower(seat, queue) => {
                let heaps = heap_count(sizes);
                seat <= workers
                    && queue < last_queue(sizes)
                    && (queue < heaps || queue == heaps + seat)
            }
            Step::Look(seat, worker) | Step::Wake(seat, worker) | Step::Post(seat, worker) => {
                seat <= workers && worker < workers
            }
            Step::Check(worker, queue) => worker < workers && queue <= last_queue(sizes),
            Step::Declare(worker)
            | Step::TakeToken(worker)
            | Step::Retreat(worker)
            | Step::SelfPost(worker) => worker < workers,
        }
    }
}
