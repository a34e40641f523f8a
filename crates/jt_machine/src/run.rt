//! The run of a program by one worker.

ghost use Rattle.std.specs.Prelude.{◌≡◌, ◌<◌, ◌≤◌, length, IfOk};
ghost use Rattle.jt_program.specs.View.{program_plan};
ghost use Rattle.jt_meaning.specs.declared.start.Start.{Start as StartOf};
ghost use Rattle.jt_machine.specs.Runs.{world_of, IsRun, AllByWorkers, one_worker};

use crate::machine::Machine;
use crate::state::empty_shards;
use jt_base::{Entry, Fault, Limits, OutOfMemory, Path, Picks, Pool, Seeds, Sizes};
use jt_meaning::Start;
use jt_program::Program;
use jt_step::TaskRun;
use std::alloc::Global;

/// Why a run ends.
#[derive(PartialEq, Eq, Debug, Drop)]
pub enum End {
    /// The main task has ended.
    Ok,
    /// The main task has failed.
    MainFailed(Fault),
    /// The main task hasn't ended, and each task that hasn't ended waits for what isn't allowed.
    Deadlock,
    /// The main task hasn't ended, and a further entry would have a stamp beyond the limit.
    EventLimit,
}

/// A run that has ended.
#[derive(Drop)]
pub struct Run {
    pub history: Vec<Entry>,
    pub end: End,
}

/// Runs a program on one worker until its main task has ended or failed, no task can go on, or the
/// limit on stamps is met. Which of the tasks that can go on is next is said by the picks.
///
/// # Errors
///
/// Where memory is wanting.
pub fn run_plain(
    alloc: Global,
    program: &Program,
    seeds: &Seeds,
    picks: Picks,
    limits: &Limits,
) -> Result<Run, OutOfMemory>
    requires main { 0 < length program.now.tasks }
    ensures run { IfOk result (λ run. IsRun (record { program = program_plan program.now; sizes = one_worker; limits = limits.now }) seeds.now run.history.items run.end) }
    ensures workers { IfOk result (λ run. AllByWorkers StartOf (world_of (record { program = program_plan program.now; sizes = one_worker; limits = limits.now }) seeds.now) run.history.items) }
{
    let sizes = Sizes {
        default: 1,
        interactive: 0,
    };
    run_on_one_worker(alloc, program, seeds, sizes, picks, limits)
}

/// The same where there are more workers: an entry of a task that is bound to a worker is made by this
/// one, and an entry of another task by the first worker of its pool.
///
/// # Errors
///
/// Where memory is wanting.
pub fn run_on_one_worker(
    alloc: Global,
    program: &Program,
    seeds: &Seeds,
    sizes: Sizes,
    picks: Picks,
    limits: &Limits,
) -> Result<Run, OutOfMemory>
    requires main { 0 < length program.now.tasks }
    requires worker { 1 ≤ sizes.default }
    ensures run { IfOk result (λ run. IsRun (record { program = program_plan program.now; sizes = sizes; limits = limits.now }) seeds.now run.history.items run.end) }
    ensures workers { IfOk result (λ run. AllByWorkers StartOf (world_of (record { program = program_plan program.now; sizes = sizes; limits = limits.now }) seeds.now) run.history.items) }
{
    let shards = empty_shards(alloc, limits.events)?;
    let start = Start::main(alloc, seeds)?;
    let main = TaskRun::start(
        alloc,
        program,
        start,
        Path::main(),
        sizes,
        limits,
        Pool::Default,
    )?;
    let mut ready = Vec::new(alloc);
    ready.push(main)?;
    let machine = Machine::adopt(alloc, program, shards, ready, seeds, sizes, limits)?;
    machine.run(picks)
}
