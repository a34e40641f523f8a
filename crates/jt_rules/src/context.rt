//! What the rules ask of a script as a whole.

ghost use Rattle.std.specs.Prelude.{◌≡◌, ◌||◌};
ghost use Rattle.jt_names.specs.Names.{is_nothing, place_of};
ghost use Rattle.jt_scopes.specs.Tests.{before};

use jt_names::{Names, is_nothing};
use jt_places::is_before;
use jt_signatures::Functions;
use jt_syntax::Identifier;
use std::marker::Model;

/// What the rules ask of a script as a whole: its constants, its functions in order, and what its own
/// scope assigns.
#[derive(Drop)]
pub(crate) struct Context<'a> {
    pub constants: &'a Names,
    pub functions: &'a Functions,
    pub variables: &'a Names,
}

impl<'a> Model for Context<'a> {
    ghost use Rattle.jt_naming.specs.Rules as rules;

    ghost Value = { rules.Context };

    ghost view = { λ x. record { constants = x.constants.now; functions = x.functions.now; variables = x.variables.now } };
}

/// Whether the name is that of a constant which stands before this place, or `nothing`.
pub(crate) fn is_constant_before(context: &Context, name: &Identifier) -> bool
    ensures { result ≡ (is_nothing name.now.name || before (place_of context.now.constants name.now.name) name.now.at) }
{
    let bytes = name.name.as_slice();
    is_nothing(bytes) || is_before(context.constants.place_of(bytes), name.at)
}

/// Whether a constant or a variable of the script has the name before this place, or it is `nothing`.
pub(crate) fn is_defined_before(context: &Context, name: &Identifier) -> bool
    ensures { result ≡ (is_nothing name.now.name || (before (place_of context.now.constants name.now.name) name.now.at || before (place_of context.now.variables name.now.name) name.now.at)) }
{
    is_constant_before(context, name)
        || is_before(context.variables.place_of(name.name.as_slice()), name.at)
}
