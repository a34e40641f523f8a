//! The tasks that gave a condition's lock up and are not back, by path. To notify all of them at once
//! takes no longer than to notify one: the waits are numbered, and a number says up to which of them
//! all were notified.

ghost use Rattle.std.specs.Prelude.{◌≡◌, ◌<◌, ◌≤◌, ◌+◌, ◌^◌, ℕ, List, Some, None, OnOk, cond, nat_eq};
ghost use Rattle.std.specs.Cmp.Lexicographic.{pointwise};
ghost use Rattle.std.specs.FinMap as map;
ghost use Rattle.indexmap.specs.IndexMap.{spare};
ghost use Rattle.jt_conditions.specs.Absences.{kept_at};

use indexmap::IndexMap;
use jt_base::{OutOfMemory, Path};
use std::alloc::Global;
use std::marker::Model;

/// What is kept of a task that waits on a condition, or was notified and is not back.
#[derive(Clone, Copy, PartialEq, Eq, Debug)]
pub struct Absence {
    /// The level that the task gave up at its last wait.
    pub level: u64,
    /// From how many of its waits the task is not back.
    pub waits: u64,
    /// How many of these waits were notified.
    pub notified: u64,
}

impl Absence {
    ghost use Rattle.jt_conditions.specs.Conditions.{one_more_wait, notified_once};
    ghost use Rattle.jt_conditions.specs.Absences.{wholly_notified};

    /// That of a task that waits once more, and gave up this level.
    pub(crate) fn one_more_wait(before: Option<Absence>, level: u64) -> Absence
        requires { (one_more_wait before level).waits < 2 ^ 64 }
        ensures { result ≡ one_more_wait before level }
    {
        match before {
            None => Absence {
                level,
                waits: 1,
                notified: 0,
            },
            Some(before) => Absence {
                level,
                waits: before.waits + 1,
                notified: before.notified,
            },
        }
    }

    /// That of a task of which all waits were notified.
    fn wholly_notified(self) -> Absence
        ensures { result ≡ wholly_notified self }
    {
        Absence {
            notified: self.waits,
            ..self
        }
    }

    /// That of a task of which one more wait is notified.
    fn notified_once(self) -> Absence
        ensures { result ≡ notified_once self }
    {
        if self.notified < self.waits {
            Absence {
                notified: self.notified + 1,
                ..self
            }
        } else {
            self
        }
    }
}

/// An absence as it is stored.
#[derive(Clone, Copy, Debug)]
struct Kept {
    absence: Absence,
    /// The number of the task's last wait, from 1 on, of those made since no task was away.
    last: u64,
}

impl Kept {
    ghost use Rattle.jt_conditions.specs.Absences.{seen};

    /// The absence, where all waits up to this number were notified at once.
    fn seen(self, woken: u64) -> Absence
        ensures { result ≡ seen woken self }
    {
        if self.last <= woken {
            self.absence.wholly_notified()
        } else {
            self.absence
        }
    }
}

/// The most waits that are made before no task is away again.
const MOST_WAITS: u64 = 1 << 32;

/// The tasks that are away, with room that is reserved beforehand.
#[derive(Debug, Drop)]
pub(crate) struct Absences {
    tasks: IndexMap<Path, Kept>,
    /// How many waits were made since no task was away.
    made: u64,
    /// Up to which of these waits all were notified at once.
    woken: u64,
}

impl Model for Absences {
    ghost use Rattle.std.specs.Prelude.{◌≤◌, ◌-◌, ◌^◌, min, ℕ, List, IfSome};
    ghost use Rattle.indexmap.specs.IndexMap.{spare};
    ghost use Rattle.jt_laws.specs.Objects.{WithRoom};
    ghost use Rattle.jt_conditions.specs.Absences.{AbsentTasks, absent_code, with_room_code, kept_at, away, Numbered};

    ghost Value = { WithRoom AbsentTasks };

    ghost coded = { with_room_code absent_code };

    ghost view = { λ a. record { state = away a.woken a.tasks.entries; room = min (spare a.tasks) (2 ^ 32 - a.made) } };

    ghost invariant = { λ a. (a.woken ≤ a.made) × ((a.made ≤ 2 ^ 32) × ((q : List ℕ) → IfSome (kept_at a.tasks.entries q) (Numbered a.made))) };
}

impl Absences {
    ghost use Rattle.jt_conditions.specs.Conditions.{one_more_wait, with_notified, all_notified, one_less_wait};

    /// No task is away. It takes no memory yet.
    pub(crate) fn new(alloc: Global) -> Absences
        ensures { result.state ≡ map.empty }
    {
        Absences {
            tasks: IndexMap::new(alloc),
            made: 0,
            woken: 0,
        }
    }

    /// Makes room for one more wait.
    pub(crate) fn reserve(&mut self) -> Result<(), OutOfMemory>
        ensures state { self.new.state ≡ self.old.state }
        ensures kept { self.old.room ≤ self.new.room }
        ensures room { OnOk result (0 < self.new.room) }
    {
        if self.made >= MOST_WAITS {
            return Err(OutOfMemory);
        }
        self.tasks.reserve(1)?;
        Ok(())
    }

    /// What is kept of this task.
    pub(crate) fn get(&self, task: &Path) -> Option<Absence>
        ensures { result ≡ map.get self.now.state task.now }
    {
        match find(&self.tasks, task) {
            Some(kept) => Some(kept.seen(self.woken)),
            None => None,
        }
    }

    /// Keeps one more wait of the task, which gave up this level.
    pub(crate) fn wait(&mut self, task: &Path, level: u64)
        requires { 0 < self.old.room }
        ensures { self.new.state ≡ map.insert self.old.state task.now (one_more_wait (map.get self.old.state task.now) level) }
    {
        let absence = Absence::one_more_wait(self.get(task), level);
        self.made += 1;
        let last = self.made;
        put(&mut self.tasks, task, Kept { absence, last });
    }

    /// Notifies one wait of the task.
    pub(crate) fn notify(&mut self, task: &Path)
        ensures { self.new.state ≡ with_notified self.old.state task.now }
    {
        if let Some(kept) = find(&self.tasks, task) {
            let absence = kept.seen(self.woken).notified_once();
            put(&mut self.tasks, task, Kept { absence, ..kept });
        }
    }

    /// Notifies all waits.
    pub(crate) fn notify_all(&mut self)
        ensures { self.new.state ≡ all_notified self.old.state }
    {
        self.woken = self.made;
    }

    /// Takes away one notified wait of the task, of which this is kept.
    pub(crate) fn one_less_wait(&mut self, task: &Path, absence: Absence)
        requires kept { map.get self.old.state task.now ≡ Some absence }
        requires notified { 0 < absence.notified }
        ensures { self.new.state ≡ one_less_wait self.old.state task.now absence }
    {
        if absence.waits <= 1 {
            self.remove(task);
            return;
        }
        if let Some(kept) = find(&self.tasks, task) {
            let absence = Absence {
                level: absence.level,
                waits: absence.waits - 1,
                notified: absence.notified - 1,
            };
            put(&mut self.tasks, task, Kept { absence, ..kept });
        }
    }

    /// Keeps nothing of the task any more.
    fn remove(&mut self, task: &Path)
        ensures { self.new.state ≡ map.remove self.old.state task.now }
    {
        self.tasks.swap_remove(task);
        if self.tasks.is_empty() {
            self.made = 0;
            self.woken = 0;
        }
    }
}

/// What is stored of the task.
fn find(tasks: &IndexMap<Path, Kept>, task: &Path) -> Option<Kept>
    ensures { result ≡ kept_at tasks.now.entries task.now }
{
    tasks.get(task).copied()
}

/// Stores this of the task. Only a task of which nothing was stored needs room.
fn put(tasks: &mut IndexMap<Path, Kept>, task: &Path, kept: Kept)
    requires { kept_at tasks.old.entries task.now ≡ None → 0 < spare tasks.old }
    ensures { (q : List ℕ) → kept_at tasks.new.entries q ≡ cond (pointwise nat_eq task.now q) (Some kept) (kept_at tasks.old.entries q) }
{
    match tasks.insert(task.copy(), kept) {
        Ok(_) => {}
        Err(_) => unreachable!(),
    }
}
