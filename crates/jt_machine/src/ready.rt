//! The jobs that are ready.

ghost use Rattle.std.specs.Prelude.{◌≡◌, ◌<◌, ◌++◌, [], ◌∷◌, length, OnOk};
ghost use Rattle.std.specs.List.Sorted.{IsPermutation};

use jt_base::OutOfMemory;
use jt_step::TaskRun;
use std::collections::VecDeque;
use std::marker::Model;

/// The jobs that are ready, in the order in which they became ready. Where one is taken out, the jobs
/// on the shorter side of its place move up.
#[derive(Drop)]
pub(crate) struct Ready<'p> {
    jobs: VecDeque<TaskRun<'p>>,
}

impl<'p> Model for Ready<'p> {
    ghost use Rattle.std.specs.Prelude.{List};
    ghost use Rattle.std.specs.Coded.{Coded, codes, coded_list};
    ghost use Rattle.jt_step.specs.Codes.{Label, coded_program};
    ghost use Rattle.jt_step.specs.Tasks.{Task};

    ghost Value = { List Task };

    ghost coded = { let c : Coded Label = Prim.hlevel codes in Prim.hlevel (codes, coded_program c) };

    ghost view = { λ r. r.jobs.items };
}

impl<'p> Ready<'p> {
    /// These jobs, in the same order.
    pub(crate) fn from_jobs(jobs: Vec<TaskRun<'p>>) -> Ready<'p>
        ensures { result ≡ jobs.entry.items }
    {
        Ready {
            jobs: VecDeque::from(jobs),
        }
    }

    /// How many jobs are ready.
    pub(crate) fn len(&self) -> usize
        ensures { result ≡ length self.now }
    {
        self.jobs.len()
    }

    /// A job joins the others at the end.
    pub(crate) fn push(&mut self, job: TaskRun<'p>) -> Result<(), OutOfMemory>
        ensures { OnOk result (self.new ≡ self.old ++ job.entry ∷ []) }
    {
        self.jobs.push_back(job)?;
        Ok(())
    }

    /// Takes out the job at this place.
    pub(crate) fn take(&mut self, place: usize) -> TaskRun<'p>
        requires { place < length self.old }
        ensures { IsPermutation self.old (result ∷ self.new) }
    {
        match self.jobs.remove(place) {
            Some(job) => job,
            None => unreachable!(),
        }
    }
}
