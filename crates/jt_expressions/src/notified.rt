//! Which calls are of `notify`.

ghost use Rattle.std.specs.Prelude.{◌≡◌, codes, option_map};
ghost use Rattle.std.specs.Option.{is_some};
ghost use Rattle.jt_grammar.specs.Reader as spec;
ghost use Rattle.jt_syntax.specs.View.{view, views};
ghost use Rattle.jt_cursor.specs.Names.{name_of, is_called};

use jt_cursor::{is_spelled, name_of};
use jt_syntax::{Expr, Identifier};
use sqlite_items::{Boxed, Items};

fn is_all(expr: &Expr) -> bool
    ensures { result ≡ is_called (codes "all") (name_of (view expr.now)) }
{
    match name_of(expr) {
        Some(name) => is_spelled(name.name.as_slice(), b"all"),
        None => false,
    }
}

fn is_notified_alone(name: &Identifier, arguments: &[Boxed<Expr>]) -> bool
    ensures { result ≡ is_some (spec.notified_alone name.now (views arguments.now)) }
{
    if arguments.len() != 1 {
        return false;
    }
    is_spelled(name.name.as_slice(), b"notify")
}

fn is_notified_with_all(name: &Identifier, arguments: &[Boxed<Expr>]) -> bool
    ensures { result ≡ is_some (spec.notified_with_all name.now (views arguments.now)) }
{
    if arguments.len() != 2 {
        return false;
    }
    if !is_all(arguments[1].get()) {
        return false;
    }
    is_spelled(name.name.as_slice(), b"notify")
}

/// What is notified, where a call of this name so far has that as its one argument.
pub(crate) fn notified_alone(
    name: &Identifier,
    mut arguments: Items<Boxed<Expr>>,
) -> Option<Boxed<Expr>>
    ensures { option_map view result ≡ spec.notified_alone name.now (views arguments) }
{
    if !is_notified_alone(name, arguments.as_slice()) {
        return None;
    }
    Some(arguments.remove(0))
}

/// What is notified, where a call of this name so far has that and the name `all` as its
/// arguments.
pub(crate) fn notified_with_all(
    name: &Identifier,
    mut arguments: Items<Boxed<Expr>>,
) -> Option<Boxed<Expr>>
    ensures { option_map view result ≡ spec.notified_with_all name.now (views arguments) }
{
    if !is_notified_with_all(name, arguments.as_slice()) {
        return None;
    }
    Some(arguments.remove(0))
}
