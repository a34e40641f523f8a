//! What holds over all runs. No function here does anything: each one's contract is a law.
ghost use Rattle.std.specs.Prelude.{◌↔◌, ℕ, List, Contains};
ghost use Rattle.jt_sleep_core.specs.Limits.{AreSizes};
ghost use Rattle.jt_base.specs.declared.run.Sizes.{Sizes};
ghost use Rattle.jt_sleep_core.specs.declared.step.Step.{Step};
ghost use Rattle.jt_sleep_core.specs.Numbering.{IsWorker, IsQueue, served, own_queues};
ghost use Rattle.jt_sleep_core.specs.State.{SleepState, IsSized};
ghost use Rattle.jt_sleep_core.specs.Steps.{IsAllowed, step_of};
ghost use Rattle.jt_sleep_core.specs.Runs.{opening, Leads};
ghost use Rattle.jt_sleep_core.specs.Sound.{IsSleepSound, NoLostWakeUp};

/// Whatever steps are made from the opening, each allowed where it is made, the state is sound.
pub fn every_run_is_sound()
    ensures { (sizes : Sizes) (steps : List Step) (state : SleepState) → AreSizes sizes → Leads steps (opening sizes) state → IsSleepSound state }
{}

/// Whatever steps are made from the opening, each allowed where it is made, no wake-up is lost:
/// where a queue isn't empty and no pass for it has a worker to look at, no worker that the queue
/// serves sleeps.
pub fn no_run_loses_a_wake_up()
    ensures { (sizes : Sizes) (steps : List Step) (state : SleepState) → AreSizes sizes → Leads steps (opening sizes) state → NoLostWakeUp state }
{}

/// One allowed step leads from a sound state to a sound one, wherever that state came from.
pub fn every_step_keeps_soundness()
    ensures { (state : SleepState) (step : Step) → IsSized state → IsSleepSound state → IsAllowed state step → IsSleepSound (step_of state step).state }
{}

/// A worker's own queues are those that serve it.
pub fn own_queues_serve()
    ensures { (sizes : Sizes) (queue worker : ℕ) → IsQueue sizes queue → IsWorker sizes worker → (Contains (served sizes queue) worker ↔ Contains (own_queues sizes worker) queue) }
{}
