//! The one-thread machine: a run amid its entries.

ghost use Rattle.std.specs.Prelude.{◌≡◌, ◌≤◌, IfOk};
ghost use Rattle.jt_program.specs.View.{program_plan};
ghost use Rattle.jt_machine.specs.Machines.{logs_of, Resumes};
ghost use Rattle.jt_machine.specs.Runs.{IsRun, GoesOnFrom};

use crate::ready::Ready;
use crate::run::Run;
use crate::setting::Setting;
use crate::state::State;
use jt_base::{Limits, OutOfMemory, Picks, Seeds, Sizes};
use jt_program::Program;
use jt_shard::Shard;
use jt_step::TaskRun;
use std::alloc::Global;
use std::marker::Model;

/// A run that goes on by itself on one thread: its sixteen shards with the jobs that wait, and the jobs
/// that are ready.
#[derive(Drop)]
pub struct Machine<'p> {
    setting: Setting<'p>,
    state: State<'p>,
}

impl<'p> Model for Machine<'p> {
    ghost use Rattle.std.specs.Prelude.{◌≤◌};
    ghost use Rattle.std.specs.Coded.{Coded, codes};
    ghost use Rattle.jt_step.specs.Codes.{Label, coded_program};
    ghost use Rattle.jt_machine.specs.Machines.{RunState, run_of, Resumes};

    ghost Value = { RunState };

    ghost coded = { let c : Coded Label = Prim.hlevel codes in Prim.hlevel (codes, coded_program c) };

    ghost view = { λ m. record { run = run_of m.setting; seeds = m.setting.seeds; shards = m.state.shards.items; ready = m.state.ready } };

    ghost invariant = { λ m. (1 ≤ m.setting.sizes.default) × Resumes (run_of m.setting) m.setting.seeds m.state.shards.items m.state.ready };
}

impl<'p> Machine<'p> {
    /// The machine in the middle of a run, or at its beginning: sixteen shards, the i-th with the number i
    /// and each settled, and the jobs that are ready, in their order.
    ///
    /// # Errors
    ///
    /// Where memory is wanting. Today it takes none.
    pub fn adopt(
        alloc: Global,
        program: &'p Program,
        shards: Vec<Shard<TaskRun<'p>>>,
        ready: Vec<TaskRun<'p>>,
        seeds: &Seeds,
        sizes: Sizes,
        limits: &Limits,
    ) -> Result<Machine<'p>, OutOfMemory>
        requires worker { 1 ≤ sizes.default }
        requires resumes { Resumes (record { program = program_plan program.now; sizes = sizes; limits = limits.now }) seeds.now shards.items ready.items }
        ensures { IfOk result (λ m. m ≡ record { run = record { program = program_plan program.now; sizes = sizes; limits = limits.now }; seeds = seeds.now; shards = shards.entry.items; ready = ready.entry.items }) }
    {
        let ready = Ready::from_jobs(ready);
        let setting = Setting {
            alloc,
            program,
            seeds: *seeds,
            sizes,
            limits: *limits,
        };
        let state = State { shards, ready };
        Ok(Machine { setting, state })
    }

    /// Goes on until main has ended or failed, no task can go on, or the limit on stamps is met. Which of
    /// the jobs that are ready is next is said by the picks. Each entry is made by the worker to which its
    /// task is bound, or by the first of its task's pool.
    ///
    /// # Errors
    ///
    /// Where memory is wanting.
    pub fn run(self, picks: Picks) -> Result<Run, OutOfMemory>
        ensures run { IfOk result (λ run. IsRun self.entry.run self.entry.seeds run.history.items run.end) }
        ensures goes_on { IfOk result (λ run. GoesOnFrom self.entry.run self.entry.seeds (logs_of self.entry.shards) run.history.items) }
    {
        let Machine { setting, mut state } = self;
        let end = state.go_on(&setting, picks)?;
        let history = state.into_history(setting.alloc)?;
        Ok(Run { history, end })
    }
}
