//! What a script as a whole has: its constants and its functions.

ghost use Rattle.std.specs.Prelude.{◌≡◌, [], IfOk};
ghost use Rattle.jt_names.specs.Tops as spec;
ghost use Rattle.jt_syntax.specs.View.{top_views};

use crate::functions::Functions;
use jt_names::Names;
use jt_syntax::{Top, TopForm};
use std::alloc::{AllocError, Global};

/// The constants of a script, each name once.
///
/// # Errors
///
/// Where memory is wanting.
pub fn constants_of(alloc: Global, tops: &[Top]) -> Result<Names, AllocError>
    ensures { IfOk result (λ names. names ≡ spec.constants_of [] (top_views tops.now)) }
{
    let mut names = Names::new(alloc);
    for top in tops {
        if let TopForm::Constant(name, _) = &top.form {
            names.add(alloc, name)?;
        }
    }
    Ok(names)
}

/// The functions of a script in order.
///
/// # Errors
///
/// Where memory is wanting.
pub fn signatures_of(alloc: Global, tops: &[Top]) -> Result<Functions, AllocError>
    ensures { IfOk result (λ functions. functions ≡ spec.signatures_of [] (top_views tops.now)) }
{
    let mut functions = Functions::new(alloc);
    for top in tops {
        if let TopForm::Function(name, parameters, _)
        | TopForm::ShortFunction(name, parameters, _) = &top.form
        {
            functions.push(alloc, name, parameters.len())?;
        }
    }
    Ok(functions)
}
