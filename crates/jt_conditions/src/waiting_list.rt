//! The waiting list of a condition.

ghost use Rattle.std.specs.Prelude.{◌≡◌, ◌<◌, ◌≤◌, ◌^◌, ◌++◌, [], ◌∷◌, length, drop, take, slice_get, option_map, OnOk};

use jt_base::{OutOfMemory, Path};
use std::alloc::Global;
use std::collections::VecDeque;
use std::marker::Model;

/// The most tasks that wait at a time.
const MOST_WAITING: usize = 1 << 32;

/// The tasks that wait, the oldest first. A task that leaves keeps its place in memory until a later
/// one joins, so that any number of tasks leave in the time of one.
#[derive(Debug, Drop)]
pub(crate) struct WaitingList {
    tasks: VecDeque<Path>,
    /// How many of the first of these tasks wait no more.
    gone: usize,
}

impl Model for WaitingList {
    ghost use Rattle.std.specs.Prelude.{◌≤◌, ◌-◌, ◌^◌, ℕ, List, length, drop, min};
    ghost use Rattle.std.specs.Coded.{coded_list, coded_ℕ};
    ghost use Rattle.std.specs.VecDeque.{deque_len, deque_capacity};
    ghost use Rattle.jt_laws.specs.Objects.{WithRoom};
    ghost use Rattle.jt_conditions.specs.Absences.{with_room_code};

    ghost Value = { WithRoom (List (List ℕ)) };

    ghost coded = { with_room_code (coded_list (coded_list coded_ℕ)) };

    ghost view = { λ w. record { state = drop w.gone w.tasks.items; room = min (deque_capacity w.tasks - deque_len w.tasks) (2 ^ 32 - length (drop w.gone w.tasks.items)) } };

    ghost invariant = { λ w. (w.gone ≤ length w.tasks.items) × (length (drop w.gone w.tasks.items) ≤ 2 ^ 32) };
}

impl WaitingList {
    /// No task waits. It takes no memory yet.
    pub(crate) fn new(alloc: Global) -> WaitingList
        ensures { result.state ≡ [] }
    {
        WaitingList {
            tasks: VecDeque::new(alloc),
            gone: 0,
        }
    }

    /// How many tasks wait, at most 4,294,967,296.
    pub(crate) fn len(&self) -> usize
        ensures len { result ≡ length self.now.state }
        ensures most { result ≤ 2 ^ 32 }
    {
        self.tasks.len() - self.gone
    }

    /// Makes room for one more task.
    pub(crate) fn reserve(&mut self) -> Result<(), OutOfMemory>
        ensures state { self.new.state ≡ self.old.state }
        ensures kept { self.old.room ≤ self.new.room }
        ensures room { OnOk result (0 < self.new.room) }
    {
        if self.len() >= MOST_WAITING {
            return Err(OutOfMemory);
        }
        self.tasks.reserve(1)?;
        Ok(())
    }

    /// The task joins the end.
    pub(crate) fn join(&mut self, task: Path)
        requires { 0 < self.old.room }
        ensures { self.new.state ≡ self.old.state ++ task ∷ [] }
    {
        self.forget();
        self.tasks.push_back_reserved(task);
    }

    /// The task that waits longest.
    pub(crate) fn first(&self) -> Option<&Path>
        ensures { option_map (λ p. p.now) result ≡ slice_get self.now.state 0 }
    {
        self.tasks.get(self.gone)
    }

    /// So many of the oldest tasks wait no more.
    pub(crate) fn leave(&mut self, count: usize)
        requires { count ≤ length self.old.state }
        ensures { self.new.state ≡ drop count self.old.state }
    {
        self.gone += count;
    }

    /// Drops a task that waits no more, if there is one.
    fn forget(&mut self)
        ensures state { self.new.state ≡ self.old.state }
        ensures room { self.old.room ≤ self.new.room }
    {
        if self.gone > 0 {
            self.gone -= 1;
            self.tasks.pop_front();
        }
    }
}
