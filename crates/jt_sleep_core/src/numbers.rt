//! A short list of numbers.
ghost use Rattle.std.specs.Prelude.{◌≡◌, ◌+◌, ◌-◌, ◌<◌, ◌≤◌, ◌↔◌, [], ◌∷◌, ◌++◌, length, position, ◌==◌, IsTrue};
ghost use Rattle.std.specs.List.{range_with_len};
ghost use Rattle.jt_sleep_core.specs.Steps.{BeginsWith, without};

use arrayvec::ArrayVec;
use std::marker::Model;

/// A list of at most 130 numbers of queues or workers, in the value itself. The longest one has the queues of a
/// worker in a pool of 64: 128 heaps, its line and the stop queue.
#[derive(Drop, Debug, PartialEq, Eq)]
pub struct Numbers {
    items: ArrayVec<u32, 130>,
}

impl Model for Numbers {
    ghost use Rattle.std.specs.Prelude.{ℕ, List};

    ghost Value = { List ℕ };

    ghost view = { λ numbers. numbers.items.items };

    ghost inverse = { λ items. record { items = record { items = items } } };
}

impl Numbers {
    /// The list without an element.
    pub(crate) fn new() -> Numbers
        ensures { result ≡ [] }
    {
        Numbers {
            items: ArrayVec::new(),
        }
    }

    /// The numbers, in order.
    pub fn as_slice(&self) -> &[u32]
        ensures { result.now ≡ self.now }
    {
        self.items.as_slice()
    }

    /// Whether there is no number in the list.
    pub fn is_empty(&self) -> bool
        ensures { IsTrue result ↔ (self.now ≡ []) }
    {
        self.items.is_empty()
    }

    /// Whether the list begins with the number.
    pub(crate) fn begins_with(&self, number: u32) -> bool
        ensures { IsTrue result ↔ BeginsWith number self.now }
    {
        match self.as_slice() {
            [] => false,
            [first, ..] => number == *first,
        }
    }

    /// Adds a number at the end.
    pub(crate) fn push(&mut self, number: u32)
        requires { length self.old < 130 }
        ensures { self.new ≡ self.old ++ number ∷ [] }
    {
        self.items.push(number);
    }

    /// Adds the numbers from `start` on, up to and without `end`, at the end.
    pub(crate) fn push_range(&mut self, start: u32, end: u32)
        requires ordered { start ≤ end }
        requires room { length self.old + (end - start) ≤ 130 }
        ensures { self.new ≡ self.old ++ range_with_len start (end - start) }
    {
        for number in start..end {
            self.push(number);
        }
    }

    /// Takes out the first element that is this number, if there is one.
    pub(crate) fn strike(&mut self, number: u32)
        ensures { self.new ≡ without number self.old }
    {
        if let Some(at) = first_place(self.items.as_slice(), number) {
            self.items.remove(at);
        }
    }
}

/// Where the number stands first.
fn first_place(numbers: &[u32], number: u32) -> Option<usize>
    ensures { result ≡ position (λ listed. listed == number) numbers.now }
{
    numbers.iter().position(|listed| *listed == number)
}
