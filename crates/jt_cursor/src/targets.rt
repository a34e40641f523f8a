//! What an expression is on the left of an assignment operator, and whether it is a name or a sum.

ghost use Rattle.std.specs.Prelude.{◌≡◌, nat_lt, IfOk};
ghost use Rattle.std.specs.Option.{option_copied};
ghost use Rattle.jt_grammar.specs.Grammar.{class_level, level};
ghost use Rattle.jt_grammar.specs.Reader as spec;
ghost use Rattle.jt_syntax.specs.View.{view, views, stmt_view};
ghost use Rattle.jt_cursor.specs.Names.{name_of};

use jt_grammar::Target;
use jt_syntax::{Class, Expr, Identifier, Stmt};
use sqlite_items::{Boxed, Items};
use std::alloc::{AllocError, Global};

fn copied(alloc: Global, word: &Identifier) -> Result<Identifier, AllocError>
    ensures { IfOk result (λ i. i ≡ word.now) }
{
    Ok(Identifier {
        name: Items::from_slice(alloc, word.name.as_slice())?,
        at: word.at,
    })
}

/// The name that the expression is, if it is one.
pub fn name_of(expr: &Expr) -> Option<&Identifier>
    ensures { option_copied result ≡ name_of (view expr.now) }
{
    match expr {
        Expr::Name(name) => Some(name),
        Expr::Number(_) | Expr::Truth(_) | Expr::Interpolation(..) | Expr::Group(_) => None,
        Expr::Call(..) | Expr::Println(_) | Expr::Error(_) | Expr::Channel(_) => None,
        Expr::Atomic(_) | Expr::Least | Expr::Greatest | Expr::Random => None,
        Expr::RandomIn(..) | Expr::Notify(..) | Expr::Read(_) | Expr::Power(..) => None,
        Expr::Unary(..) | Expr::Chain(..) | Expr::Conditional(..) => None,
        Expr::Block(_) | Expr::If(..) | Expr::While(..) | Expr::ForRange(..) => None,
        Expr::ForEach(..) | Expr::Spawn(..) | Expr::Async(..) | Expr::Sync(_) => None,
        Expr::Threads(..) => None,
    }
}

/// The names that the expressions are, if they are names.
fn parameters(
    alloc: Global,
    exprs: &Items<Boxed<Expr>>,
) -> Result<Option<Items<Identifier>>, AllocError>
    ensures { IfOk result (λ names. names ≡ spec.parameters (views exprs.now)) }
{
    let mut found = Items::new(alloc);
    for expr in exprs.as_slice() {
        let Some(name) = name_of(expr.get()) else {
            return Ok(None);
        };
        found.push(copied(alloc, name)?)?;
    }
    Ok(Some(found))
}

/// What a call is, where an assignment operator follows.
fn call_target(
    alloc: Global,
    name: &Identifier,
    exprs: &Items<Boxed<Expr>>,
) -> Result<Target, AllocError>
    ensures { IfOk result (λ t. t ≡ spec.function_of name.now (spec.parameters (views exprs.now))) }
{
    match parameters(alloc, exprs)? {
        Some(names) => Ok(Target::Function(copied(alloc, name)?, names)),
        None => Ok(Target::Other),
    }
}

/// What the expression is, where an assignment operator follows.
pub fn target(alloc: Global, expr: &Expr) -> Result<Target, AllocError>
    ensures { IfOk result (λ t. t ≡ spec.target (view expr.now)) }
{
    match expr {
        Expr::Name(name) => Ok(Target::Variable(copied(alloc, name)?)),
        Expr::Read(name) => Ok(Target::Element(copied(alloc, name)?)),
        Expr::Call(name, exprs) => call_target(alloc, name, exprs),
        Expr::Number(_) | Expr::Truth(_) | Expr::Interpolation(..) => Ok(Target::Other),
        Expr::Group(_) | Expr::Println(_) | Expr::Error(_) => Ok(Target::Other),
        Expr::Channel(_) | Expr::Atomic(_) | Expr::Least => Ok(Target::Other),
        Expr::Greatest | Expr::Random | Expr::RandomIn(..) => Ok(Target::Other),
        Expr::Notify(..) | Expr::Power(..) | Expr::Unary(..) => Ok(Target::Other),
        Expr::Chain(..) | Expr::Conditional(..) | Expr::Block(_) | Expr::If(..) => Ok(
            Target::Other,
        ),
        Expr::While(..) | Expr::ForRange(..) | Expr::ForEach(..) => Ok(Target::Other),
        Expr::Spawn(..) | Expr::Async(..) | Expr::Sync(_) => Ok(Target::Other),
        Expr::Threads(..) => Ok(Target::Other),
    }
}

/// What the statement is, where an assignment operator follows.
pub fn step_target(alloc: Global, stmt: &Stmt) -> Result<Target, AllocError>
    ensures { IfOk result (λ t. t ≡ spec.step_target (stmt_view stmt.now)) }
{
    match stmt {
        Stmt::Expression(expr) => target(alloc, expr.get()),
        Stmt::Assign(..) => Ok(Target::Other),
        Stmt::Store(..) => Ok(Target::Other),
        Stmt::Jump(_) => Ok(Target::Other),
        Stmt::Guard(..) => Ok(Target::Other),
    }
}

/// Whether chains of the class are sums, or hold together more tightly than one.
fn is_sum_class(class: Class) -> bool
    ensures { result ≡ nat_lt 5 (class_level class) }
{
    matches!(class, Class::Sum | Class::Product | Class::Shift)
}

/// Whether the expression is a sum, or holds together more tightly than one.
pub fn is_sum(expr: &Expr) -> bool
    ensures { result ≡ nat_lt 5 (level (view expr.now)) }
{
    match expr {
        Expr::Number(_) | Expr::Truth(_) | Expr::Name(_) | Expr::Interpolation(..) => true,
        Expr::Group(_) | Expr::Call(..) | Expr::Println(_) | Expr::Error(_) => true,
        Expr::Channel(_) | Expr::Atomic(_) | Expr::Least | Expr::Greatest => true,
        Expr::Random | Expr::RandomIn(..) | Expr::Notify(..) | Expr::Read(_) => true,
        Expr::Power(..) | Expr::Unary(..) => true,
        Expr::Chain(class, ..) => is_sum_class(*class),
        Expr::Conditional(..)
        | Expr::Block(_)
        | Expr::If(..)
        | Expr::While(..)
        | Expr::ForRange(..) => false,
        Expr::ForEach(..) | Expr::Spawn(..) | Expr::Async(..) | Expr::Sync(_) => false,
        Expr::Threads(..) => false,
    }
}
