//! The words and the places.
ghost use Rattle.std.specs.Prelude.{◌≡◌, ◌↔◌, IfOk, IsTrue, replicate, slice_set};
ghost use Rattle.jt_sleep_core.specs.Limits.{AreSizes};

use crate::numbering::{last_queue, worker_count};
use crate::place::Place;
use crate::step::Step;
use jt_base::{OutOfMemory, Sizes};
use std::alloc::Global;
use std::marker::Model;

/// The words that the seats share, and each seat's place.
#[derive(Drop)]
pub(crate) struct State {
    sizes: Sizes,
    counts: Vec<u32>,
    sleeps: Vec<bool>,
    tokens: Vec<bool>,
    places: Vec<Place>,
}

impl Model for State {
    ghost use Rattle.jt_sleep_core.specs.State.{SleepState, IsSized};

    ghost Value = { SleepState };

    ghost view = { λ s. record { sizes = s.sizes; counts = s.counts.items; sleeps = s.sleeps.items; tokens = s.tokens.items; places = s.places.items } };

    ghost invariant = { λ s. IsSized (record { sizes = s.sizes; counts = s.counts.items; sleeps = s.sleeps.items; tokens = s.tokens.items; places = s.places.items }) };
}

impl State {
    ghost use Rattle.jt_sleep_core.specs.Numbering.{IsWorker, IsSeat, IsQueue};
    ghost use Rattle.jt_sleep_core.specs.State.{count_at, sleep_at, token_at, place_at};
    ghost use Rattle.jt_sleep_core.specs.Steps.{IsInRange, IsAllowed, CountPermits, found_by, written, step_of, seat_of, place_after};
    ghost use Rattle.jt_sleep_core.specs.Runs.{opening};

    /// All words 0, and each seat free.
    pub(crate) fn new(alloc: Global, sizes: Sizes) -> Result<State, OutOfMemory>
        requires { AreSizes sizes }
        ensures { IfOk result (λ s. s ≡ opening sizes) }
    {
        let workers = worker_count(sizes) as usize;
        let queues = last_queue(sizes) as usize + 1;
        Ok(State {
            sizes,
            counts: vec![in alloc; 0; queues]?,
            sleeps: vec![in alloc; false; workers]?,
            tokens: vec![in alloc; false; workers]?,
            places: free_places(alloc, workers + 1)?,
        })
    }

    pub(crate) fn count(&self, queue: u32) -> u32
        requires { IsQueue self.now.sizes queue }
        ensures { result ≡ count_at self.now queue }
    {
        self.counts[queue as usize]
    }

    pub(crate) fn sleeping(&self, worker: u32) -> bool
        requires { IsWorker self.now.sizes worker }
        ensures { result ≡ sleep_at self.now worker }
    {
        self.sleeps[worker as usize]
    }

    pub(crate) fn token(&self, worker: u32) -> bool
        requires { IsWorker self.now.sizes worker }
        ensures { result ≡ token_at self.now worker }
    {
        self.tokens[worker as usize]
    }

    pub(crate) fn place(&self, seat: u32) -> &Place
        requires { IsSeat self.now.sizes seat }
        ensures { result.now ≡ place_at self.now seat }
    {
        &self.places[seat as usize]
    }

    /// Whether the step may be made now.
    pub(crate) fn allows(&self, step: Step) -> bool
        ensures { IsTrue result ↔ IsAllowed self.now step }
    {
        step.is_in_range(self.sizes)
            && self.place(step.seat()).permits(step)
            && self.count_permits(step)
    }

    /// Whether the count that the step changes lets it do so.
    fn count_permits(&self, step: Step) -> bool
        requires { IsInRange self.now.sizes step }
        ensures { IsTrue result ↔ CountPermits self.now step }
    {
        match step {
            Step::Raise(_, queue) => self.count(queue) < u32::MAX,
            Step::Lower(_, queue) => self.count(queue) > 0,
            _ => true,
        }
    }

    /// Makes a step that is allowed, and gives the word that it found, or 0 where it only stored.
    pub(crate) fn make(&mut self, step: Step) -> u64
        requires { IsAllowed self.old step }
        ensures state { self.new ≡ (step_of self.old step).state }
        ensures word { result ≡ (step_of self.old step).gives }
    {
        let found = self.found_by(step);
        self.write(step);
        self.move_seat(step, found);
        found
    }

    /// The word that the step finds, or 0 where it only stores.
    fn found_by(&self, step: Step) -> u64
        requires { IsInRange self.now.sizes step }
        ensures { result ≡ found_by self.now step }
    {
        match step {
            Step::Raise(_, queue) | Step::Lower(_, queue) | Step::Check(_, queue) => u64::from(
                self.count(queue),
            ),
            Step::Look(_, worker) | Step::Wake(_, worker) | Step::Retreat(worker) => u64::from(
                self.sleeping(worker),
            ),
            Step::TakeToken(worker) => u64::from(self.token(worker)),
            Step::Post(..) | Step::Declare(_) | Step::SelfPost(_) => 0,
        }
    }

    /// Writes the word that the step changes.
    fn write(&mut self, step: Step)
        requires range { IsInRange self.old.sizes step }
        requires count { CountPermits self.old step }
        ensures { self.new ≡ written self.old step }
    {
        match step {
            Step::Raise(_, queue) if queue == last_queue(self.sizes) =>
                self.counts[queue as usize] = 1,
            Step::Raise(_, queue) => self.counts[queue as usize] += 1,
            Step::Lower(_, queue) => self.counts[queue as usize] -= 1,
            Step::Look(..) | Step::Check(..) => {}
            Step::Wake(_, worker) | Step::Retreat(worker) => self.sleeps[worker as usize] = false,
            Step::Declare(worker) => self.sleeps[worker as usize] = true,
            Step::TakeToken(worker) => self.tokens[worker as usize] = false,
            Step::Post(_, worker) | Step::SelfPost(worker) => self.tokens[worker as usize] = true,
        }
    }

    /// Moves the step's seat on from its place.
    fn move_seat(&mut self, step: Step, found: u64)
        requires { IsInRange self.old.sizes step }
        ensures { self.new ≡ record self.old { places = slice_set self.old.places (seat_of step) (place_after self.old.sizes step found (place_at self.old (seat_of step))) } }
    {
        let seat = step.seat() as usize;
        let sizes = self.sizes;
        self.places[seat].advance(sizes, step, found);
    }
}

/// Each of `count` seats is free.
fn free_places(alloc: Global, count: usize) -> Result<Vec<Place>, OutOfMemory>
    ensures { IfOk result (λ places. places.items ≡ replicate count Place.Free) }
{
    let mut places = Vec::with_capacity(alloc, count)?;
    for _ in 0..count {
        places.push(Place::Free)?;
    }
    Ok(places)
}
