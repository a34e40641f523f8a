//! Whole scripts to programs.

ghost use Rattle.std.specs.Prelude.{◌≡◌, [], IfOk, IfErr};
ghost use Rattle.jt_bound.specs.Programs.{program_of};
ghost use Rattle.jt_outline.specs.Outlines as outlines;
ghost use Rattle.jt_outline.specs.View.{outline_view};
ghost use Rattle.jt_program.specs.View.{program_plan};
ghost use Rattle.jt_naming.specs.Refusals.{RefusesNames};
ghost use Rattle.jt_naming.specs.Scripts.{BreaksNone};
ghost use Rattle.jt_names.specs.Tops.{constants_of, signatures_of};
ghost use Rattle.jt_rules.specs.Walk.{Judges};
ghost use Rattle.jt_scopes.specs.Scopes.{scopes_of};
ghost use Rattle.jt_syntax.specs.View as trees;

use jt_bind::bind;
use jt_naming::{NameError, refusal};
use jt_outline::Outline;
use jt_outlining::outline_of;
use jt_program::Program;
use jt_rules::{Checked, check};
use jt_scopes::Scope;
use jt_settling::settle;
use jt_syntax::Script;
use std::alloc::Global;

/// The program of a script with these scopes, where this is what looking at its names gave.
#[tactic(auto, using(jt_naming::proofs::Refusals::refused))]
fn program_by(
    alloc: Global,
    script: &Script,
    scopes: &[Scope],
    checked: &Checked,
) -> Result<Program, NameError>
    requires scopes { scopes.now ≡ scopes_of (outlines.outline_of (trees.script_view script.now)) }
    requires broken { Judges (trees.script_view script.now) checked.now.broken }
    requires constants { checked.now.constants ≡ constants_of [] (trees.script_view script.now) }
    requires functions { checked.now.functions ≡ signatures_of [] (trees.script_view script.now) }
    ensures found { IfOk result (λ p. BreaksNone (trees.script_view script.now) × (program_plan p ≡ program_of (trees.script_view script.now))) }
    ensures refused { IfErr result (RefusesNames (trees.script_view script.now)) }
{
    match checked.broken {
        Some(broken) => Err(refusal(broken)),
        None => {
            let program = bind(
                alloc,
                script,
                scopes,
                &checked.constants,
                &checked.functions,
            )?;
            Ok(program)
        }
    }
}

/// The program of a script with this outline and these scopes.
fn resolve_in(
    alloc: Global,
    script: &Script,
    outline: &Outline,
    scopes: &[Scope],
) -> Result<Program, NameError>
    requires outline { outline_view outline.now ≡ outlines.outline_of (trees.script_view script.now) }
    requires scopes { scopes.now ≡ scopes_of (outline_view outline.now) }
    ensures found { IfOk result (λ p. BreaksNone (trees.script_view script.now) × (program_plan p ≡ program_of (trees.script_view script.now))) }
    ensures refused { IfErr result (RefusesNames (trees.script_view script.now)) }
{
    let checked = check(alloc, script, outline, scopes)?;
    let program = program_by(alloc, script, scopes, &checked);
    drop(checked);
    program
}

/// The program of a script whose names are in order.
///
/// Otherwise the error says which rule of names is broken, and where: the one at the smallest place.
/// `OutOfMemory` comes where memory runs out.
pub fn resolve(alloc: Global, script: &Script) -> Result<Program, NameError>
    ensures found { IfOk result (λ p. BreaksNone (trees.script_view script.now) × (program_plan p ≡ program_of (trees.script_view script.now))) }
    ensures refused { IfErr result (RefusesNames (trees.script_view script.now)) }
{
    let outline = outline_of(alloc, script)?;
    let scopes = settle(alloc, &outline)?;
    resolve_in(alloc, script, &outline, scopes.as_slice())
}
