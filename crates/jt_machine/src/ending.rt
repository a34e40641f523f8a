//! Main's end among entries.

ghost use Rattle.std.specs.Prelude.{◌≡◌, [], ◌∷◌, IfOk};
ghost use Rattle.jt_laws.specs.Lines.{main_end};
ghost use Rattle.jt_machine.specs.Machines.{end_by};

use crate::run::End;
use jt_base::{Entry, Op, OutOfMemory};
use std::alloc::Global;

/// What the run comes to where this entry ends the main task; none otherwise.
fn end_at(alloc: Global, entry: &Entry) -> Result<Option<End>, OutOfMemory>
    ensures { IfOk result (λ end. end ≡ end_by (main_end (entry.now ∷ []))) }
{
    if !entry.task.is_main() {
        return Ok(None);
    }
    match &entry.op {
        Op::End(_) => Ok(Some(End::Ok)),
        Op::Fail(fault) => {
            let fault = fault.copy(alloc)?;
            Ok(Some(End::MainFailed(fault)))
        }
        _ => Ok(None),
    }
}

/// What the run comes to by main's end among these entries; none where there is none.
pub(crate) fn end_in(alloc: Global, log: &[Entry]) -> Result<Option<End>, OutOfMemory>
    ensures { IfOk result (λ end. end ≡ end_by (main_end log.now)) }
{
    for entry in log {
        if let Some(end) = end_at(alloc, entry)? {
            return Ok(Some(end));
        }
    }
    Ok(None)
}
