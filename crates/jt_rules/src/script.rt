//! A whole script.

ghost use Rattle.std.specs.Prelude.{◌≡◌, [], IfOk};
ghost use Rattle.jt_names.specs.Tops.{constants_of, signatures_of};
ghost use Rattle.jt_outline.specs.Outlines.{outline_of};
ghost use Rattle.jt_outline.specs.View.{outline_view};
ghost use Rattle.jt_rules.specs.Walk as spec;
ghost use Rattle.jt_scopes.specs.Scopes.{scopes_of};
ghost use Rattle.jt_syntax.specs.View.{script_view};

use crate::context::Context;
use crate::found::Found;
use crate::walk::Walk;
use jt_names::Names;
use jt_naming::Broken;
use jt_outline::Outline;
use jt_places::Chain;
use jt_scopes::Scope;
use jt_signatures::{Functions, constants_of, signatures_of};
use jt_syntax::Script;
use std::alloc::{AllocError, Global};

/// What looking at the names of a script gives.
#[derive(Drop)]
pub struct Checked {
    /// The rule of names that it breaks: of those that it breaks, the one at the smallest place, and
    /// at one place the one that comes first among the rules. `None` where it breaks none.
    pub broken: Option<Broken>,
    /// Its constants, each name once.
    pub constants: Names,
    /// Its functions in the order of the script.
    pub functions: Functions,
}

/// The rule that a script breaks, whose own scope is this one, with those that begin later.
fn broken(
    alloc: Global,
    context: &Context,
    script: &Scope,
    ahead: &[Scope],
    outline: &Outline,
) -> Result<Option<Broken>, AllocError>
    ensures { IfOk result (λ o. o ≡ (spec.checked_script context.now script.now ahead.now (outline_view outline.now)).found.least) }
{
    let mut walk = Walk {
        alloc,
        chain: Chain::new(alloc),
        ahead,
        found: Found {
            least: None,
            called: false,
        },
    };
    let least = walk.walk_script(context, script, outline);
    drop(walk);
    least
}

/// The constants and functions of a script, and the rule of names that it breaks, by its outline and
/// all its scopes.
///
/// # Errors
///
/// Where memory is wanting.
pub fn check(
    alloc: Global,
    script: &Script,
    outline: &Outline,
    scopes: &[Scope],
) -> Result<Checked, AllocError>
    requires outline { outline_view outline.now ≡ outline_of (script_view script.now) }
    requires scopes { scopes.now ≡ scopes_of (outline_view outline.now) }
    ensures broken { IfOk result (λ c. spec.Judges (script_view script.now) c.broken) }
    ensures constants { IfOk result (λ c. c.constants ≡ constants_of [] (script_view script.now)) }
    ensures functions { IfOk result (λ c. c.functions ≡ signatures_of [] (script_view script.now)) }
{
    match scopes.split_first() {
        None => unreachable!(),
        Some((own, ahead)) => {
            let tops = script.tops.as_slice();
            let constants = constants_of(alloc, tops)?;
            let functions = signatures_of(alloc, tops)?;
            let context = Context {
                constants: &constants,
                functions: &functions,
                variables: &own.names,
            };
            let broken = broken(alloc, &context, own, ahead, outline)?;
            Ok(Checked {
                broken,
                constants,
                functions,
            })
        }
    }
}
