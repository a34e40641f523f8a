//! The walk that gives variables, constants and functions their numbers.
//!
//! Each function leaves the walk behind what it goes through: in the same scopes, with the bodies of
//! the tasks that are made there behind those before.

ghost use Rattle.std.specs.Prelude.{◌≡◌, IfOk, OnOk, map, option_copied};
ghost use Rattle.jt_bound.specs.Behind.{with_last, last_view};
ghost use Rattle.jt_bound.specs.Bound.{piece_of};
ghost use Rattle.jt_bound.specs.Made.{made, with, both, three};
ghost use Rattle.jt_bound.specs.States as states;
ghost use Rattle.jt_bound.specs.Walked as spec;
ghost use Rattle.jt_bind.specs.Walks.{numbers, state};
ghost use Rattle.jt_lowered.specs.Chains as chains;
ghost use Rattle.jt_lowered.specs.Loops.{while_of, for_of};
ghost use Rattle.jt_nodes.specs.Views.{operands_plan, turn_plan};
ghost use Rattle.jt_program.specs.Plan as plan;
ghost use Rattle.jt_program.specs.View.{plan_of, choices_of, arm_plan, piece_plan};
ghost use Rattle.jt_syntax.specs.Tree as tree;
ghost use Rattle.jt_syntax.specs.View.{view, views, item_view, item_views, term_view, terms_of, arm_view, arms_of, jump_view, stmt_view, stmt_views};

use crate::target::{interpolated, slot_of, target_of};
use crate::walk::Walk;
use jt_names::Names;
use jt_nodes::{
    Allocated, Operands, Turn, assignment, block, break_loop, call, callee, conditional,
    continue_loop, error, for_loop, guard, if_else, literal, nothing, number, operation_of_two,
    print, push, push_arm, push_text, push_value, return_value, sync, unary, while_loop, written,
};
use jt_program::{Arm, Literal, Piece};
use jt_signatures::Functions;
use jt_syntax::{
    ArithmeticOperator, BinaryOperator, Class, Connective, Expr, Identifier, Item, Jump, Stmt,
};
use sqlite_items::{Boxed, Items};
use std::alloc::Global;

/// An operator and the operand behind it.
type Term = (BinaryOperator, Boxed<Expr>);

/// What names go by beside the scopes round them.
#[derive(Drop)]
pub(crate) struct Binder<'s> {
    pub alloc: Global,
    pub constants: &'s Names,
    pub functions: &'s Functions,
}

impl Binder<'_> {
    /// A block in the scope that begins next.
    #[cycle(bind)]
    pub(crate) fn within(&self, walk: &mut Walk<'_>, body: &[Stmt]) -> Allocated
        ensures { IfOk result (λ p. states.within (with plan.block (spec.walked_steps (numbers self.now) (states.entered (state walk.old)) (stmt_views body.now))) ≡ made (plan_of p) (state walk.new)) }
    {
        walk.enter()?;
        let code = self.block(walk, body)?;
        walk.leave();
        Ok(code)
    }

    /// An expression in the scope that begins next.
    #[cycle(bind)]
    pub(crate) fn inside(&self, walk: &mut Walk<'_>, value: &Expr) -> Allocated
        ensures { IfOk result (λ p. states.within (spec.walked (numbers self.now) (states.entered (state walk.old)) (view value.now)) ≡ made (plan_of p) (state walk.new)) }
    {
        walk.enter()?;
        let code = self.expression(walk, value)?;
        walk.leave();
        Ok(code)
    }

    /// The making of a task with this body.
    #[cycle(bind)]
    fn task(&self, walk: &mut Walk<'_>, body: &Expr) -> Allocated
        ensures { IfOk result (λ p. states.tasked (state walk.old) (spec.walked (numbers self.now) (states.entered (state walk.old)) (view body.now)) ≡ made (plan_of p) (state walk.new)) }
    {
        let making = walk.making(self.alloc)?;
        let code = self.inside(walk, body)?;
        walk.fork(self.alloc, making, code)
    }

    /// The body of a loop.
    #[cycle(bind)]
    fn turn(&self, walk: &mut Walk<'_>, body: &[Stmt]) -> Allocated<Turn>
        ensures { IfOk result (λ t. states.turned (state walk.old) (with plan.block (spec.walked_steps (numbers self.now) (states.entered (state walk.old)) (stmt_views body.now))) ≡ made (turn_plan t) (state walk.new)) }
    {
        let start = walk.start();
        let count = walk.count();
        let body = self.within(walk, body)?;
        Ok(Turn { start, count, body })
    }

    #[cycle(bind)]
    pub(crate) fn statement(&self, walk: &mut Walk<'_>, statement: &Stmt) -> Allocated
        ensures { IfOk result (λ p. spec.walked_step (numbers self.now) (state walk.old) (stmt_view statement.now) ≡ made (plan_of p) (state walk.new)) }
    {
        match statement {
            Stmt::Assign(name, operator, value) => {
                let slot = slot_of(&walk.chain, name.name.as_slice());
                let old = target_of(self.constants, &walk.chain, name.name.as_slice());
                let value = self.expression(walk, value.get())?;
                assignment(self.alloc, slot, *operator, old, value)
            }
            Stmt::Store(_, _) => nothing(self.alloc),
            Stmt::Jump(jump) => self.jump(walk, jump),
            Stmt::Guard(connective, first, terms, jump) => {
                self.guard(walk, *connective, first.get(), terms.as_slice(), jump)
            }
            Stmt::Expression(value) => self.expression(walk, value.get()),
        }
    }

    #[cycle(bind)]
    fn guard(
        &self,
        walk: &mut Walk<'_>,
        connective: Connective,
        first: &Expr,
        terms: &[Term],
        jump: &Jump,
    ) -> Allocated
        ensures { IfOk result (λ p. spec.walked_step (numbers self.now) (state walk.old) (tree.guard connective (view first.now) (terms_of (map term_view terms.now)) (jump_view jump.now)) ≡ made (plan_of p) (state walk.new)) }
    {
        let first = self.expression(walk, first)?;
        let operands = self.operands(walk, connective.class(), terms)?;
        let last = self.jump(walk, jump)?;
        guard(self.alloc, connective, first, operands, last)
    }

    #[cycle(bind)]
    fn jump(&self, walk: &mut Walk<'_>, jump: &Jump) -> Allocated
        ensures { IfOk result (λ p. spec.walked_leap (numbers self.now) (state walk.old) (jump_view jump.now) ≡ made (plan_of p) (state walk.new)) }
    {
        match jump {
            Jump::Return(_, None) => {
                let value = nothing(self.alloc)?;
                return_value(self.alloc, value)
            }
            Jump::Return(_, Some(value)) => {
                let value = self.expression(walk, value.get())?;
                return_value(self.alloc, value)
            }
            Jump::Break(_) => break_loop(self.alloc),
            Jump::Continue(_) => continue_loop(self.alloc),
        }
    }

    #[cycle(bind)]
    pub(crate) fn expression(&self, walk: &mut Walk<'_>, expression: &Expr) -> Allocated
        ensures { IfOk result (λ p. spec.walked (numbers self.now) (state walk.old) (view expression.now) ≡ made (plan_of p) (state walk.new)) }
    {
        match expression {
            Expr::Number(n) => number(self.alloc, *n),
            Expr::Truth(flag) => literal(self.alloc, Literal::Flag(*flag)),
            Expr::Name(name) => self.name(walk, name),
            Expr::Interpolation(_, name) => self.interpolation(walk, name),
            Expr::Group(inner) => self.expression(walk, inner.get()),
            Expr::Call(function, arguments) => self.call(walk, function, arguments.as_slice()),
            Expr::Println(items) => self.print(walk, items.as_slice()),
            Expr::Error(text) => error(self.alloc, text.as_slice()),
            Expr::Least => literal(self.alloc, Literal::Int(i64::MIN)),
            Expr::Greatest => literal(self.alloc, Literal::Int(i64::MAX)),
            Expr::Power(base, exponent) => self.power(walk, base.get(), exponent.get()),
            Expr::Unary(operator, operand) => {
                let operand = self.expression(walk, operand.get())?;
                unary(self.alloc, *operator, operand)
            }
            Expr::Chain(class, first, terms) => {
                self.chain(walk, *class, first.get(), terms.as_slice())
            }
            Expr::Conditional(test, value, otherwise) => {
                self.conditional(walk, test.get(), value.get(), otherwise.get())
            }
            Expr::Block(body) => self.block(walk, body.as_slice()),
            Expr::If(test, body, arms, None) => {
                self.branch(walk, test.get(), body.as_slice(), arms.as_slice(), None)
            }
            Expr::If(test, body, arms, Some(last)) => {
                let last = Some(last.as_slice());
                self.branch(walk, test.get(), body.as_slice(), arms.as_slice(), last)
            }
            Expr::While(test, body) => self.while_loop(walk, test.get(), body.as_slice()),
            Expr::ForRange(_, low, high, body) => {
                self.for_loop(walk, low.get(), high.get(), body.as_slice())
            }
            Expr::Spawn(_, _, body) | Expr::Async(_, body) => self.task(walk, body.get()),
            Expr::Sync(part) => {
                let part = self.inside(walk, part.get())?;
                sync(self.alloc, part)
            }
            Expr::Channel(_)
            | Expr::Atomic(_)
            | Expr::Random
            | Expr::RandomIn(_, _)
            | Expr::Notify(_, _)
            | Expr::Read(_)
            | Expr::ForEach(_, _, _)
            | Expr::Threads(_, _, _, _, _, _) => nothing(self.alloc),
        }
    }

    /// A use of a name.
    fn name(&self, walk: &Walk<'_>, name: &Identifier) -> Allocated
        ensures { IfOk result (λ p. spec.walked (numbers self.now) (state walk.now) (tree.name name.now) ≡ made (plan_of p) (state walk.now)) }
    {
        let target = target_of(self.constants, &walk.chain, name.name.as_slice());
        written(self.alloc, target)
    }

    /// `$name`
    fn interpolation(&self, walk: &Walk<'_>, name: &Identifier) -> Allocated
        ensures { IfOk result (λ p. spec.walked (numbers self.now) (state walk.now) (tree.interpolation 0 name.now) ≡ made (plan_of p) (state walk.now)) }
    {
        let target = interpolated(self.constants, &walk.chain, name.name.as_slice());
        written(self.alloc, target)
    }

    #[cycle(bind)]
    fn call(
        &self,
        walk: &mut Walk<'_>,
        function: &Identifier,
        arguments: &[Boxed<Expr>],
    ) -> Allocated
        ensures { IfOk result (λ p. spec.walked (numbers self.now) (state walk.old) (tree.call function.now (views arguments.now)) ≡ made (plan_of p) (state walk.new)) }
    {
        let callee = callee(self.functions, function.name.as_slice());
        let mut codes = Items::new(self.alloc);
        for argument in arguments {
            let code = self.expression(walk, argument.get())?;
            push(&mut codes, code)?;
        }
        call(self.alloc, callee, codes)
    }

    #[cycle(bind)]
    fn print(&self, walk: &mut Walk<'_>, items: &[Item]) -> Allocated
        ensures { IfOk result (λ p. spec.walked (numbers self.now) (state walk.old) (tree.println (item_views items.now)) ≡ made (plan_of p) (state walk.new)) }
    {
        let mut pieces = Items::new(self.alloc);
        for item in items {
            self.piece(walk, &mut pieces, item)?;
        }
        print(self.alloc, pieces)
    }

    #[cycle(bind)]
    fn power(&self, walk: &mut Walk<'_>, base: &Expr, exponent: &Expr) -> Allocated
        ensures { IfOk result (λ p. spec.walked (numbers self.now) (state walk.old) (tree.power (view base.now) (view exponent.now)) ≡ made (plan_of p) (state walk.new)) }
    {
        let base = self.expression(walk, base)?;
        let exponent = self.expression(walk, exponent)?;
        operation_of_two(self.alloc, base, ArithmeticOperator::Power, exponent)
    }

    /// A chain of operators of one class.
    #[cycle(bind)]
    fn chain(&self, walk: &mut Walk<'_>, class: Class, first: &Expr, terms: &[Term]) -> Allocated
        ensures { IfOk result (λ p. spec.walked (numbers self.now) (state walk.old) (tree.chain class (view first.now) (terms_of (map term_view terms.now))) ≡ made (plan_of p) (state walk.new)) }
    {
        let first = self.expression(walk, first)?;
        let operands = self.operands(walk, class, terms)?;
        operands.into_chain(self.alloc, first)
    }

    /// The operands of a chain of this class behind its first one.
    #[cycle(bind)]
    fn operands(&self, walk: &mut Walk<'_>, class: Class, terms: &[Term]) -> Allocated<Operands>
        ensures { IfOk result (λ p. with (chains.all_more (chains.none_of class)) (spec.walked_terms (numbers self.now) (state walk.old) (terms_of (map term_view terms.now))) ≡ made (operands_plan p) (state walk.new)) }
    {
        let mut operands = Operands::new(self.alloc, class);
        for term in terms {
            let operand = self.expression(walk, term.1.get())?;
            operands.push(term.0, operand)?;
        }
        Ok(operands)
    }

    #[cycle(bind)]
    fn conditional(
        &self,
        walk: &mut Walk<'_>,
        test: &Expr,
        value: &Expr,
        otherwise: &Expr,
    ) -> Allocated
        ensures { IfOk result (λ p. spec.walked (numbers self.now) (state walk.old) (tree.conditional (view test.now) (view value.now) (view otherwise.now)) ≡ made (plan_of p) (state walk.new)) }
    {
        let test = self.expression(walk, test)?;
        let value = self.expression(walk, value)?;
        let otherwise = self.expression(walk, otherwise)?;
        conditional(self.alloc, test, value, otherwise)
    }

    #[cycle(bind)]
    pub(crate) fn block(&self, walk: &mut Walk<'_>, body: &[Stmt]) -> Allocated
        ensures { IfOk result (λ p. with plan.block (spec.walked_steps (numbers self.now) (state walk.old) (stmt_views body.now)) ≡ made (plan_of p) (state walk.new)) }
    {
        let mut codes = Items::new(self.alloc);
        for statement in body {
            let code = self.statement(walk, statement)?;
            push(&mut codes, code)?;
        }
        block(self.alloc, codes)
    }

    #[cycle(bind)]
    fn branch(
        &self,
        walk: &mut Walk<'_>,
        test: &Expr,
        body: &[Stmt],
        arms: &[jt_syntax::Arm],
        last: Option<&[Stmt]>,
    ) -> Allocated
        ensures { IfOk result (λ p. spec.walked (numbers self.now) (state walk.old) (tree.branches (view test.now) (stmt_views body.now) (arms_of (map arm_view arms.now) (last_view (option_copied last.entry)))) ≡ made (plan_of p) (state walk.new)) }
    {
        let test = self.expression(walk, test)?;
        let body = self.block(walk, body)?;
        let more = self.arms(walk, arms)?;
        let last = self.otherwise(walk, last)?;
        if_else(self.alloc, test, body, more, last)
    }

    /// What stands behind `else`, and `nothing` where there is none.
    #[cycle(bind)]
    fn otherwise(&self, walk: &mut Walk<'_>, last: Option<&[Stmt]>) -> Allocated
        ensures { IfOk result (λ p. spec.walked_otherwise (numbers self.now) (state walk.old) (last_view (option_copied last.entry)) ≡ made (plan_of p) (state walk.new)) }
    {
        match last {
            None => nothing(self.alloc),
            Some(body) => self.block(walk, body),
        }
    }

    #[cycle(bind)]
    fn while_loop(&self, walk: &mut Walk<'_>, test: &Expr, body: &[Stmt]) -> Allocated
        ensures { IfOk result (λ p. both while_of (spec.walked (numbers self.now) (state walk.old) (view test.now)) (λ s. states.turned s (with plan.block (spec.walked_steps (numbers self.now) (states.entered s) (stmt_views body.now)))) ≡ made (plan_of p) (state walk.new)) }
    {
        let test = self.expression(walk, test)?;
        let turn = self.turn(walk, body)?;
        while_loop(self.alloc, test, turn)
    }

    #[cycle(bind)]
    fn for_loop(&self, walk: &mut Walk<'_>, low: &Expr, high: &Expr, body: &[Stmt]) -> Allocated
        ensures { IfOk result (λ p. three for_of (spec.walked (numbers self.now) (state walk.old) (view low.now)) (λ s. spec.walked (numbers self.now) s (view high.now)) (λ s. states.turned s (with plan.block (spec.walked_steps (numbers self.now) (states.entered s) (stmt_views body.now)))) ≡ made (plan_of p) (state walk.new)) }
    {
        let low = self.expression(walk, low)?;
        let high = self.expression(walk, high)?;
        let turn = self.turn(walk, body)?;
        for_loop(self.alloc, low, high, turn)
    }

    /// Puts one more piece behind the others.
    #[cycle(bind)]
    fn piece(&self, walk: &mut Walk<'_>, pieces: &mut Items<Piece>, item: &Item) -> Allocated<()>
        ensures { OnOk result (with (λ p. with_last (map piece_plan pieces.old) (piece_of (item_view item.now) p)) (spec.walked (numbers self.now) (state walk.old) (item_view item.now)) ≡ made (map piece_plan pieces.new) (state walk.new)) }
    {
        match item {
            Item::Value(value) => {
                let code = self.expression(walk, value.get())?;
                push_value(pieces, code)
            }
            Item::Text(text) => push_text(self.alloc, pieces, text.as_slice()),
        }
    }

    /// The arms behind `elseif`. What stands behind `else` is none of them.
    #[cycle(bind)]
    fn arms(&self, walk: &mut Walk<'_>, arms: &[jt_syntax::Arm]) -> Allocated<Items<Arm>>
        ensures { IfOk result (λ p. spec.walked_arms (numbers self.now) (state walk.old) (arms_of (map arm_view arms.now) tree.no_arms) ≡ made (choices_of (map arm_plan p)) (state walk.new)) }
    {
        let mut choices = Items::new(self.alloc);
        for arm in arms {
            let condition = self.expression(walk, arm.condition.get())?;
            let body = self.block(walk, arm.body.as_slice())?;
            push_arm(&mut choices, condition, body)?;
        }
        Ok(choices)
    }
}
