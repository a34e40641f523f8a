//! Whole scripts to programs.

ghost use Rattle.std.specs.Prelude.{◌≡◌, ◌∷◌, [], List, OnOk, IfOk, map};
ghost use Rattle.jt_bound.specs.Behind.{behind};
ghost use Rattle.jt_bound.specs.Made.{made, with};
ghost use Rattle.jt_bound.specs.Programs as spec;
ghost use Rattle.jt_bound.specs.WalkedPrograms as walked;
ghost use Rattle.jt_bind.specs.Walks.{numbers, state};
ghost use Rattle.jt_names.specs.Tops as tops;
ghost use Rattle.jt_outline.specs.Outlines.{outline_of};
ghost use Rattle.jt_program.specs.Plan as plan;
ghost use Rattle.jt_program.specs.View.{plan_of, body_plan, program_plan};
ghost use Rattle.jt_scopes.specs.Scopes.{scopes_of};
ghost use Rattle.jt_syntax.specs.Tree.{TopTree};
ghost use Rattle.jt_syntax.specs.View as trees;

use crate::binder::Binder;
use crate::walk::Walk;
use jt_names::Names;
use jt_nodes::{Allocated, block, define, nothing, push, push_body};
use jt_program::{Body, Code, Program};
use jt_scopes::Scope;
use jt_signatures::Functions;
use jt_syntax::{Expr, Identifier, Script, Top, TopForm};
use sqlite_items::Items;
use std::alloc::{AllocError, Global};

/// The number of a constant, 0 where there is none of the name.
fn constant_number(constants: &Names, name: &Identifier) -> usize
    ensures { result ≡ spec.constant_number constants.now name.now }
{
    constants.index(name.name.as_slice()).unwrap_or(0)
}

impl Binder<'_> {
    /// Adds the function that a form of the script makes, if it makes one.
    fn add_function(
        &self,
        walk: &mut Walk<'_>,
        functions: &mut Items<Body>,
        top: &Top,
    ) -> Allocated<()>
        ensures { OnOk result ((tops : List TopTree) → with (behind spec.one_more (map body_plan functions.new)) (walked.walked_functions (numbers self.now) (state walk.new) tops) ≡ with (behind spec.one_more (map body_plan functions.old)) (walked.walked_functions (numbers self.now) (state walk.old) (trees.top_view top.now ∷ tops))) }
    {
        let variables = walk.count();
        match &top.form {
            TopForm::Function(_, _, body) => {
                let code = self.within(walk, body.as_slice())?;
                push_body(functions, variables, code)
            }
            TopForm::ShortFunction(_, _, value) => {
                let code = self.inside(walk, value.get())?;
                push_body(functions, variables, code)
            }
            TopForm::Using | TopForm::Constant(_, _) | TopForm::Stmt(_) => Ok(()),
        }
    }

    /// The functions in the order of the script.
    fn functions(&self, walk: &mut Walk<'_>, tops: &[Top]) -> Allocated<Items<Body>>
        ensures { IfOk result (λ p. walked.walked_functions (numbers self.now) (state walk.old) (trees.top_views tops.now) ≡ made (map body_plan p) (state walk.new)) }
    {
        let mut functions = Items::new(self.alloc);
        for top in tops {
            self.add_function(walk, &mut functions, top)?;
        }
        Ok(functions)
    }

    /// The definition of a constant.
    fn definition(&self, walk: &mut Walk<'_>, name: &Identifier, value: &Expr) -> Allocated
        ensures { IfOk result (λ p. walked.walked_definition (numbers self.now) (state walk.old) name.now (trees.view value.now) ≡ made (plan_of p) (state walk.new)) }
    {
        let number = constant_number(self.constants, name);
        let value = self.expression(walk, value)?;
        define(self.alloc, number, value)
    }

    /// Adds what the main task does for a form of the script.
    fn add_part(&self, walk: &mut Walk<'_>, parts: &mut Items<Code>, top: &Top) -> Allocated<()>
        ensures { OnOk result ((tops : List TopTree) → with (behind plan.plan (map plan_of parts.new)) (walked.walked_main (numbers self.now) (state walk.new) tops) ≡ with (behind plan.plan (map plan_of parts.old)) (walked.walked_main (numbers self.now) (state walk.old) (trees.top_view top.now ∷ tops))) }
    {
        match &top.form {
            TopForm::Constant(name, value) => {
                let code = self.definition(walk, name, value.get())?;
                push(parts, code)
            }
            TopForm::Stmt(statement) => {
                let code = self.statement(walk, statement)?;
                push(parts, code)
            }
            TopForm::Using | TopForm::Function(_, _, _) | TopForm::ShortFunction(_, _, _) => Ok(()),
        }
    }

    /// What the main task does.
    fn main(&self, walk: &mut Walk<'_>, tops: &[Top]) -> Allocated
        ensures { IfOk result (λ p. with plan.block (walked.walked_main (numbers self.now) (state walk.old) (trees.top_views tops.now)) ≡ made (plan_of p) (state walk.new)) }
    {
        let mut parts = Items::new(self.alloc);
        for top in tops {
            self.add_part(walk, &mut parts, top)?;
        }
        let last = nothing(self.alloc)?;
        push(&mut parts, last)?;
        block(self.alloc, parts)
    }

    /// The main task's body with so many variables, and the others behind it.
    fn tasks(&self, walk: &mut Walk<'_>, variables: usize, tops: &[Top]) -> Allocated<Items<Body>>
        ensures { IfOk result (λ p. map body_plan p ≡ walked.tasks_of variables (walked.walked_main (numbers self.now) (state walk.old) (trees.top_views tops.now))) }
    {
        let main = self.main(walk, tops)?;
        let mut tasks = Items::new(self.alloc);
        push_body(&mut tasks, variables, main)?;
        tasks.append(walk.take_bodies(self.alloc))?;
        Ok(tasks)
    }

    /// The program, where the script's own scope begins next.
    fn program(&self, walk: &mut Walk<'_>, tops: &[Top]) -> Allocated<Program>
        ensures { IfOk result (λ p. program_plan p ≡ walked.walked_program (numbers self.now) (state walk.old) (trees.top_views tops.now)) }
    {
        let variables = walk.count();
        walk.enter()?;
        let functions = self.functions(walk, tops)?;
        let tasks = self.tasks(walk, variables, tops)?;
        Ok(Program {
            constants: self.constants.len(),
            functions,
            tasks,
        })
    }
}

/// The program of a script that has these scopes, in the order in which they begin, these constants
/// and these functions.
///
/// # Errors
///
/// Where memory is wanting.
#[tactic(auto, using(jt_bound::proofs::Whole::program_tied))]
pub fn bind(
    alloc: Global,
    script: &Script,
    scopes: &[Scope],
    constants: &Names,
    functions: &Functions,
) -> Result<Program, AllocError>
    requires scopes { scopes.now ≡ scopes_of (outline_of (trees.script_view script.now)) }
    requires constants { constants.now ≡ tops.constants_of [] (trees.script_view script.now) }
    requires functions { functions.now ≡ tops.signatures_of [] (trees.script_view script.now) }
    ensures { IfOk result (λ p. program_plan p ≡ spec.program_of (trees.script_view script.now)) }
{
    let binder = Binder {
        alloc,
        constants,
        functions,
    };
    let mut walk = Walk::new(alloc, scopes);
    let program = binder.program(&mut walk, script.tops.as_slice());
    drop(walk);
    program
}
