//! What each kind of job gives for the laws of histories.

ghost use Rattle.std.specs.Prelude.{ℕ};
ghost use Rattle.jt_base.specs.declared.run.Sizes.{Sizes as SizesOf};
ghost use Rattle.jt_histories.specs.Kept.{Laws};

use jt_base::Job;

/// A run of any kind of job is a world whose tasks begin with Begin, and spawn each child under its
/// own path and number.
pub fn job_laws<J: Job>()
    ensures { (run : J.Run) (main : J.Start) (sizes : SizesOf) (events : ℕ) → Laws J.Start (record { next = J.next run; main = main; sizes = sizes; events = events }) }
{}
