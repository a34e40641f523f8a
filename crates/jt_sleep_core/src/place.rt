//! How far a seat is in the protocol.
ghost use Rattle.std.specs.Prelude.{◌≡◌, ◌↔◌, IsTrue};
ghost use Rattle.jt_sleep_core.specs.Limits.{AreSizes};

use crate::numbering::{worker_queues, workers_served};
use crate::numbers::Numbers;
use crate::step::Step;
use jt_base::Sizes;
use std::mem;

/// Where a seat stands between its steps.
#[derive(Drop, Debug, PartialEq, Eq)]
pub enum Place {
    /// In no pass, and not about to sleep.
    Free,
    /// In a pass for a queue: the workers still to look at, and the one that was seen asleep.
    Passing(u32, Numbers, Option<u32>),
    /// In a pass for a queue: the workers still to look at, and the one among them that was woken
    /// and whose token isn't set yet.
    Posting(u32, Numbers, u32),
    /// The own sleep word was set: the own queues that are still to check.
    Declared(Numbers),
    /// A check found a count, or a token was taken.
    Found,
    /// Each own queue was found empty after the sleep word was set.
    Past,
}

impl Place {
    ghost use Rattle.jt_sleep_core.specs.Steps.{IsInRange, IsPermitted, passing, declared, looked, woken, posted, checked, place_after};

    /// Whether a seat in this place may make the step.
    pub fn permits(&self, step: Step) -> bool
        ensures { IsTrue result ↔ IsPermitted step self.now }
    {
        match (step, self) {
            (Step::Raise(..) | Step::Lower(..) | Step::Declare(_), Place::Free) => true,
            (Step::Look(_, worker), Place::Passing(_, left, None)) => left.begins_with(worker),
            (Step::Wake(_, worker), Place::Passing(_, _, Some(seen))) => worker == *seen,
            (Step::Post(_, worker), Place::Posting(_, _, woken)) => worker == *woken,
            (Step::Check(_, queue), Place::Declared(left)) => left.begins_with(queue),
            (Step::TakeToken(_) | Step::SelfPost(_), Place::Past) => true,
            (Step::Retreat(_), Place::Found) => true,
            _ => false,
        }
    }

    /// Moves on by a step that found this word.
    pub(crate) fn advance(&mut self, sizes: Sizes, step: Step, found: u64)
        requires sizes { AreSizes sizes }
        requires in_range { IsInRange sizes step }
        ensures { self.new ≡ place_after sizes step found self.old }
    {
        let place = mem::replace(self, Place::Free);
        *self = place.after(sizes, step, found);
    }

    /// The place after a step that found this word.
    fn after(self, sizes: Sizes, step: Step, found: u64) -> Place
        requires sizes { AreSizes sizes }
        requires in_range { IsInRange sizes step }
        ensures { result ≡ place_after sizes step found self }
    {
        match step {
            Step::Raise(_, queue) => Place::passing(queue, workers_served(sizes, queue)),
            Step::Look(_, worker) => self.looked(worker, found),
            Step::Wake(_, worker) => self.woken(worker, found),
            Step::Post(_, worker) => self.posted(worker),
            Step::Declare(worker) => Place::Declared(worker_queues(sizes, worker)),
            Step::Check(_, queue) => self.checked(queue, found),
            Step::TakeToken(_) if found != 0 => Place::Found,
            Step::Lower(..) | Step::TakeToken(_) | Step::SelfPost(_) => self,
            Step::Retreat(_) => Place::Free,
        }
    }

    /// A pass with these workers left, which has ended if there is none.
    fn passing(queue: u32, left: Numbers) -> Place
        ensures { result ≡ passing queue left }
    {
        if left.is_empty() {
            Place::Free
        } else {
            Place::Passing(queue, left, None)
        }
    }

    /// Before the checks of these queues, or past them all if there is none.
    fn declared(left: Numbers) -> Place
        ensures { result ≡ declared left }
    {
        if left.is_empty() {
            Place::Past
        } else {
            Place::Declared(left)
        }
    }

    /// A look found this sleep word.
    fn looked(self, worker: u32, found: u64) -> Place
        ensures { result ≡ looked worker found self }
    {
        match self {
            Place::Passing(queue, mut left, _) if found == 0 => {
                left.strike(worker);
                Place::passing(queue, left)
            }
            Place::Passing(queue, left, _) => Place::Passing(queue, left, Some(worker)),
            place => place,
        }
    }

    /// A try to clear a worker's sleep word found this word.
    fn woken(self, worker: u32, found: u64) -> Place
        ensures { result ≡ woken worker found self }
    {
        match self {
            Place::Passing(queue, mut left, _) if found == 0 => {
                left.strike(worker);
                Place::passing(queue, left)
            }
            Place::Passing(queue, left, _) => Place::Posting(queue, left, worker),
            place => place,
        }
    }

    /// The worker's token was set.
    fn posted(self, worker: u32) -> Place
        ensures { result ≡ posted worker self }
    {
        match self {
            Place::Posting(queue, mut left, _) => {
                left.strike(worker);
                Place::passing(queue, left)
            }
            place => place,
        }
    }

    /// A check of the queue found this count.
    fn checked(self, queue: u32, found: u64) -> Place
        ensures { result ≡ checked queue found self }
    {
        match self {
            Place::Declared(mut left) if found == 0 => {
                left.strike(queue);
                Place::declared(left)
            }
            Place::Declared(_) => Place::Found,
            place => place,
        }
    }
}
