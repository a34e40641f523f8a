//! What a body assigns directly.

ghost use Rattle.std.specs.Prelude.{◌≡◌, [], map, OnOk};
ghost use Rattle.jt_outline.specs.Marks as tree;
ghost use Rattle.jt_outline.specs.View.{mark_view, mark_views, part_view};
ghost use Rattle.jt_scopes.specs.Bodies as spec;
ghost use Rattle.jt_settling.specs.Parts.{part_marks};

use jt_names::Names;
use jt_outline::{Mark, Part, ScopeKind};
use std::alloc::{AllocError, Global};

/// Adds the names that are assigned directly in a body: not in a loop and not in a task's body.
#[cycle(direct)]
#[tactic(auto, using(crate::proofs::DirectMarks::direct_mark))]
pub(crate) fn direct(alloc: Global, names: &mut Names, marks: &[Mark]) -> Result<(), AllocError>
    ensures { OnOk result (names.new ≡ spec.direct names.old (mark_views marks.now)) }
{
    for mark in marks {
        direct_mark(alloc, names, mark)?;
    }
    Ok(())
}

#[cycle(direct)]
fn direct_mark(alloc: Global, names: &mut Names, mark: &Mark) -> Result<(), AllocError>
    ensures { OnOk result (names.new ≡ spec.direct names.old (tree.mark (mark_view mark.now) tree.no_marks)) }
{
    match mark {
        Mark::Assignment(name) => names.add(alloc, name),
        Mark::Scope(scope) => match scope.kind {
            ScopeKind::Sync => direct(alloc, names, scope.body.as_slice()),
            ScopeKind::Loop | ScopeKind::Task | ScopeKind::Function | ScopeKind::Script => Ok(()),
        },
        Mark::Use(_) | Mark::Interpolation(..) | Mark::Call(..) | Mark::Print => Ok(()),
        Mark::Macro | Mark::LoopJump(_) | Mark::Return(_) => Ok(()),
    }
}

/// What stands in a part of the main task.
pub(crate) fn marks_of(part: &Part) -> &[Mark]
    ensures { mark_views result.now ≡ part_marks (part_view part.now) }
{
    match part {
        Part::Constant(_, _, marks) | Part::Statement(marks) => marks.as_slice(),
    }
}

/// Adds the names that the main task assigns directly.
#[tactic(auto, using(crate::proofs::DirectMarks::direct_part))]
pub(crate) fn add_script_names(
    alloc: Global,
    names: &mut Names,
    parts: &[Part],
) -> Result<(), AllocError>
    ensures { OnOk result (names.new ≡ spec.direct_parts names.old (map part_view parts.now)) }
{
    for part in parts {
        direct(alloc, names, marks_of(part))?;
    }
    Ok(())
}
