//! The outline of a script, made from its trees.

ghost use Rattle.std.specs.Prelude.{◌≡◌, ◌∷◌, ◌++◌, List, map, IfOk, OnOk};
ghost use Rattle.jt_outline.specs.Marks as tree;
ghost use Rattle.jt_outline.specs.Outlines as spec;
ghost use Rattle.jt_outline.specs.View.{mark_views, function_view, part_view, outline_view};
ghost use Rattle.jt_syntax.specs.Tree.{TopTree};
ghost use Rattle.jt_syntax.specs.View.{view, stmt_view, stmt_views, top_view, script_view};

use crate::walk::Walk;
use jt_outline::{FunctionMark, Mark, Outline, Part};
use jt_syntax::{Expr, Identifier, Script, Stmt, Top, TopForm};
use sqlite_items::Items;
use std::alloc::{AllocError, Global};

/// What stands in an expression.
fn expression_marks(alloc: Global, expression: &Expr) -> Result<Items<Mark>, AllocError>
    ensures { IfOk result (λ marks. mark_views marks ≡ spec.marks (view expression.now) tree.no_marks) }
{
    let mut walk = Walk::new(alloc);
    walk.expression(expression)?;
    Ok(walk.marks)
}

/// What stands in statements in a row.
fn body_marks(alloc: Global, body: &[Stmt]) -> Result<Items<Mark>, AllocError>
    ensures { IfOk result (λ marks. mark_views marks ≡ spec.marks_steps (stmt_views body.now) tree.no_marks) }
{
    let mut walk = Walk::new(alloc);
    walk.statements(body)?;
    Ok(walk.marks)
}

fn copies(alloc: Global, names: &[Identifier]) -> Result<Items<Identifier>, AllocError>
    ensures { IfOk result (λ copies. copies ≡ names.now) }
{
    let mut copies = Items::new(alloc);
    for name in names {
        copies.push(name.copied(alloc)?)?;
    }
    Ok(copies)
}

#[tactic(auto, using(crate::proofs::Behind::functions_push))]
fn put_function(
    alloc: Global,
    functions: &mut Items<FunctionMark>,
    name: &Identifier,
    parameters: &[Identifier],
    body: Items<Mark>,
) -> Result<(), AllocError>
    ensures { (rest : List tree.FunctionTree) → OnOk result (map function_view functions.new ++ rest ≡ map function_view functions.old ++ record { name = name.now; parameters = parameters.now; body = mark_views body } ∷ rest) }
{
    let name = name.copied(alloc)?;
    let parameters = copies(alloc, parameters)?;
    functions.push(FunctionMark {
        name,
        parameters,
        body,
    })
}

#[tactic(auto, using(crate::proofs::Behind::parts_push))]
fn put_constant(
    alloc: Global,
    parts: &mut Items<Part>,
    at: u32,
    name: &Identifier,
    value: &Expr,
) -> Result<(), AllocError>
    ensures { (rest : List tree.PartTree) → OnOk result (map part_view parts.new ++ rest ≡ map part_view parts.old ++ tree.constant at name.now (spec.marks (view value.now) tree.no_marks) ∷ rest) }
{
    let name = name.copied(alloc)?;
    let marks = expression_marks(alloc, value)?;
    parts.push(Part::Constant(at, name, marks))
}

#[tactic(auto, using(crate::proofs::Behind::parts_push))]
fn put_statement(alloc: Global, parts: &mut Items<Part>, statement: &Stmt) -> Result<(), AllocError>
    ensures { (rest : List tree.PartTree) → OnOk result (map part_view parts.new ++ rest ≡ map part_view parts.old ++ tree.statement (spec.marks_step (stmt_view statement.now) tree.no_marks) ∷ rest) }
{
    let mut walk = Walk::new(alloc);
    walk.statement(statement)?;
    parts.push(Part::Statement(walk.marks))
}

/// Puts a form of the script behind those that stand.
fn put_form(alloc: Global, outline: &mut Outline, top: &Top) -> Result<(), AllocError>
    ensures functions { (tops : List TopTree) → OnOk result (map function_view outline.new.functions ++ spec.functions_of tops ≡ map function_view outline.old.functions ++ spec.functions_of (top_view top.now ∷ tops)) }
    ensures parts { (tops : List TopTree) → OnOk result (map part_view outline.new.parts ++ spec.parts_of tops ≡ map part_view outline.old.parts ++ spec.parts_of (top_view top.now ∷ tops)) }
{
    let Outline { functions, parts } = outline;
    match &top.form {
        TopForm::Using => Ok(()),
        TopForm::Constant(name, value) => put_constant(alloc, parts, top.at, name, value.get()),
        TopForm::Function(name, parameters, body) => {
            let body = body_marks(alloc, body.as_slice())?;
            put_function(alloc, functions, name, parameters.as_slice(), body)
        }
        TopForm::ShortFunction(name, parameters, value) => {
            let body = expression_marks(alloc, value.get())?;
            put_function(alloc, functions, name, parameters.as_slice(), body)
        }
        TopForm::Stmt(statement) => put_statement(alloc, parts, statement),
    }
}

/// The outline of a script: its functions, and what its main task does, with what stands in each.
///
/// # Errors
///
/// Where memory is wanting.
pub fn outline_of(alloc: Global, script: &Script) -> Result<Outline, AllocError>
    ensures { IfOk result (λ o. outline_view o ≡ spec.outline_of (script_view script.now)) }
{
    let mut outline = Outline {
        functions: Items::new(alloc),
        parts: Items::new(alloc),
    };
    for top in script.tops.as_slice() {
        put_form(alloc, &mut outline, top)?;
    }
    Ok(outline)
}
