//! The core: a state, and the steps that it allows.
ghost use Rattle.std.specs.Prelude.{◌≡◌, ◌↔◌, IsOk, IfOk, OnOk, OnErr};
ghost use Rattle.jt_sleep_core.specs.Limits.{AreSizes};

use crate::place::Place;
use crate::state::State;
use crate::step::Step;
use jt_base::{OutOfMemory, Sizes};
use std::alloc::Global;
use std::marker::Model;
use thiserror::Error;

/// The step isn't allowed where it was asked for, and nothing was done.
#[derive(Clone, Copy, PartialEq, Eq, Debug, Error)]
#[error("the step is not allowed")]
pub struct NotAllowed;

/// The protocol by which workers fall asleep beside queues and are woken, as a machine that makes
/// one atomic step at a time. Clauses see its state: the sizes, the counts of the queues, the sleep
/// and token words of the workers, and the place of each seat.
///
/// A worker that wants to sleep sets its sleep word first and looks at its queues afterwards. Who
/// raises a queue's count looks afterwards at the sleep words of the workers that the queue serves.
/// Of two such seats at least one sees what the other did, so no worker sleeps on beside a queue
/// that isn't empty and that nobody is about to tell it of.
#[derive(Drop)]
pub struct Core {
    state: State,
}

impl Model for Core {
    ghost use Rattle.jt_sleep_core.specs.State.{SleepState, IsSized};
    ghost use Rattle.jt_sleep_core.specs.Sound.{IsSleepSound};

    ghost Value = { SleepState };

    ghost view = { λ c. c.state };

    ghost invariant = { λ c. IsSized c.state × IsSleepSound c.state };
}

impl Core {
    ghost use Rattle.jt_sleep_core.specs.Numbering.{IsWorker, IsSeat, IsQueue};
    ghost use Rattle.jt_sleep_core.specs.State.{count_at, sleep_at, token_at, place_at};
    ghost use Rattle.jt_sleep_core.specs.Steps.{IsAllowed, step_of};
    ghost use Rattle.jt_sleep_core.specs.Runs.{opening};
    ghost use Rattle.jt_sleep_core.specs.Sound.{IsSleepSound, NoLostWakeUp};

    /// The core at the opening: all words are 0, and each seat is free.
    pub fn new(alloc: Global, sizes: Sizes) -> Result<Core, OutOfMemory>
        requires { AreSizes sizes }
        ensures opening { IfOk result (λ core. core ≡ opening sizes) }
        ensures sound { IfOk result IsSleepSound }
        ensures no_lost_wake_up { IfOk result NoLostWakeUp }
    {
        Ok(Core {
            state: State::new(alloc, sizes)?,
        })
    }

    /// Makes one step, and gives the word that it found, or 0 where it only stores. A step that
    /// isn't allowed is refused and changes nothing.
    pub fn apply(&mut self, step: Step) -> Result<u64, NotAllowed>
        ensures allowed { IsOk result ↔ IsAllowed self.old step }
        ensures word { IfOk result (λ word. word ≡ (step_of self.old step).gives) }
        ensures effect { OnOk result (self.new ≡ (step_of self.old step).state) }
        ensures unchanged { OnErr result (self.new ≡ self.old) }

        ensures sizes { self.new.sizes ≡ self.old.sizes }
        ensures sound { IsSleepSound self.new }
        ensures no_lost_wake_up { NoLostWakeUp self.new }
    {
        if !self.state.allows(step) {
            return Err(NotAllowed);
        }
        Ok(self.state.make(step))
    }

    /// A queue's count. That of the stop queue is the stop word.
    pub fn count(&self, queue: u32) -> u64
        requires { IsQueue self.now.sizes queue }
        ensures { result ≡ count_at self.now queue }
    {
        u64::from(self.state.count(queue))
    }

    /// Whether a worker's sleep word is 1.
    pub fn sleeping(&self, worker: u32) -> bool
        requires { IsWorker self.now.sizes worker }
        ensures { result ≡ sleep_at self.now worker }
    {
        self.state.sleeping(worker)
    }

    /// Whether a worker's token word is 1.
    pub fn token(&self, worker: u32) -> bool
        requires { IsWorker self.now.sizes worker }
        ensures { result ≡ token_at self.now worker }
    {
        self.state.token(worker)
    }

    /// How far a seat is.
    pub fn place(&self, seat: u32) -> &Place
        requires { IsSeat self.now.sizes seat }
        ensures { result.now ≡ place_at self.now seat }
    {
        self.state.place(seat)
    }
}
