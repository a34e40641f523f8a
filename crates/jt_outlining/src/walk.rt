//! The walk over trees. Each method puts what stands in a tree behind what stands before it.

ghost use Rattle.std.specs.Prelude.{◌≡◌, [], ◌∷◌, map, IfOk};
ghost use Rattle.jt_outline.specs.Marks as tree;
ghost use Rattle.jt_outline.specs.Outlines as spec;
ghost use Rattle.jt_outlining.specs.Puts.{Puts, PutsArms};
ghost use Rattle.jt_syntax.specs.Tree as trees;
ghost use Rattle.jt_syntax.specs.View.{view, views, item_view, item_views, term_view, terms_of, arm_view, arms_of, jump_view, stmt_view, stmt_views};

use jt_outline::{Mark, ScopeKind};
use jt_syntax::{Arm, BinaryOperator, Expr, Identifier, Item, Jump, Stmt};
use sqlite_items::{Boxed, Items};
use std::alloc::{AllocError, Global};

/// What stands in a scope before the place that the walk has come to.
#[derive(Drop)]
pub(crate) struct Walk {
    pub(crate) alloc: Global,
    pub(crate) marks: Items<Mark>,
}

#[tactic(auto, using(crate::proofs::Behind::count_views))]
fn count(expressions: &[Boxed<Expr>]) -> usize
    ensures { result ≡ spec.count (views expressions.now) }
{
    expressions.len()
}

/// The variable of a `for`.
fn variable(alloc: Global, name: &Identifier) -> Result<Items<Identifier>, AllocError>
    ensures { IfOk result (λ names. names ≡ name.now ∷ []) }
{
    let name = name.copied(alloc)?;
    let mut names = Items::new(alloc);
    names.push(name)?;
    Ok(names)
}

impl Walk {
    /// A walk at the beginning of a scope.
    pub(crate) fn new(alloc: Global) -> Walk
        ensures { result.marks ≡ [] }
    {
        Walk {
            alloc,
            marks: Items::new(alloc),
        }
    }

    #[cycle(walk)]
    pub(crate) fn expression(&mut self, expression: &Expr) -> Result<(), AllocError>
        ensures { Puts result self.old self.new (spec.marks (view expression.now)) }
    {
        match expression {
            Expr::Number(_) | Expr::Truth(_) | Expr::Error(_) | Expr::Channel(_) => Ok(()),
            Expr::Atomic(_) | Expr::Least | Expr::Greatest | Expr::Random => Ok(()),
            Expr::RandomIn(..) | Expr::Notify(..) | Expr::Read(_) | Expr::ForEach(..) => Ok(()),
            Expr::Threads(..) => self.put(Mark::Macro),
            Expr::Name(name) => self.put_use(name),
            Expr::Interpolation(at, name) => self.put_interpolation(*at, name),
            Expr::Call(name, arguments) => self.call(name, arguments.as_slice()),
            Expr::Println(items) => self.println(items.as_slice()),
            Expr::Group(inner) | Expr::Unary(_, inner) => self.expression(inner.get()),
            Expr::Power(base, exponent) => self.two(base.get(), exponent.get()),
            Expr::Chain(_, first, terms) => self.chain(first.get(), terms.as_slice()),
            Expr::Conditional(condition, value, otherwise) => {
                self.two(condition.get(), value.get())?;
                self.expression(otherwise.get())
            }
            Expr::Block(body) => self.statements(body.as_slice()),
            Expr::If(condition, body, arms, None) => {
                self.branches(condition.get(), body.as_slice(), arms.as_slice())
            }
            Expr::If(condition, body, arms, Some(last)) => {
                self.branches(condition.get(), body.as_slice(), arms.as_slice())?;
                self.statements(last.as_slice())
            }
            Expr::While(condition, body) => {
                self.expression(condition.get())?;
                self.loop_scope(Items::new(self.alloc), body.as_slice())
            }
            Expr::ForRange(name, first, last, body) => {
                self.two(first.get(), last.get())?;
                self.for_scope(name, body.as_slice())
            }
            Expr::Spawn(at, _, body) | Expr::Async(at, body) => {
                self.inside(ScopeKind::Task, *at, body.get())
            }
            Expr::Sync(body) => self.inside(ScopeKind::Sync, 0, body.get()),
        }
    }

    #[cycle(walk)]
    fn call(&mut self, name: &Identifier, arguments: &[Boxed<Expr>]) -> Result<(), AllocError>
        ensures { Puts result self.old self.new (spec.marks (trees.call name.now (views arguments.now))) }
    {
        self.put_call(name, count(arguments))?;
        for argument in arguments {
            self.expression(argument.get())?;
        }
        Ok(())
    }

    #[cycle(walk)]
    fn println(&mut self, items: &[Item]) -> Result<(), AllocError>
        ensures { Puts result self.old self.new (spec.marks (trees.println (item_views items.now))) }
    {
        self.put(Mark::Print)?;
        for item in items {
            self.item(item)?;
        }
        Ok(())
    }

    #[cycle(walk)]
    fn item(&mut self, item: &Item) -> Result<(), AllocError>
        ensures { Puts result self.old self.new (spec.marks (item_view item.now)) }
    {
        match item {
            Item::Value(value) => self.expression(value.get()),
            Item::Text(_) => Ok(()),
        }
    }

    #[cycle(walk)]
    fn two(&mut self, first: &Expr, second: &Expr) -> Result<(), AllocError>
        ensures { Puts result self.old self.new (λ r. spec.marks (view first.now) (spec.marks (view second.now) r)) }
    {
        self.expression(first)?;
        self.expression(second)
    }

    /// A first operand, and those behind it.
    #[cycle(walk)]
    fn chain(
        &mut self,
        first: &Expr,
        terms: &[(BinaryOperator, Boxed<Expr>)],
    ) -> Result<(), AllocError>
        ensures { Puts result self.old self.new (λ r. spec.marks (view first.now) (spec.marks_terms (terms_of (map term_view terms.now)) r)) }
    {
        self.expression(first)?;
        for (_, term) in terms {
            self.expression(term.get())?;
        }
        Ok(())
    }

    /// The arms of an `if`. What stands behind `else` may follow.
    #[cycle(walk)]
    fn branches(&mut self, condition: &Expr, body: &[Stmt], arms: &[Arm]) -> Result<(), AllocError>
        ensures { PutsArms result self.old self.new (λ last. spec.marks (trees.branches (view condition.now) (stmt_views body.now) (arms_of (map arm_view arms.now) last))) }
    {
        self.arm(condition, body)?;
        for arm in arms {
            self.arm(arm.condition.get(), arm.body.as_slice())?;
        }
        Ok(())
    }

    /// A condition, and what is done where it holds.
    #[cycle(walk)]
    fn arm(&mut self, condition: &Expr, body: &[Stmt]) -> Result<(), AllocError>
        ensures { Puts result self.old self.new (λ r. spec.marks (view condition.now) (spec.marks_steps (stmt_views body.now) r)) }
    {
        self.expression(condition)?;
        self.statements(body)
    }

    /// The scope of a loop with this variable, if it has one.
    #[cycle(walk)]
    fn loop_scope(&mut self, variables: Items<Identifier>, body: &[Stmt]) -> Result<(), AllocError>
        ensures { Puts result self.old self.new (tree.mark (tree.scope ScopeKind.Loop 0 variables (spec.marks_steps (stmt_views body.now) tree.no_marks))) }
    {
        let mut inner = Walk::new(self.alloc);
        inner.statements(body)?;
        self.put_scope(ScopeKind::Loop, 0, variables, inner)
    }

    /// The scope of a `for`.
    #[cycle(walk)]
    fn for_scope(&mut self, name: &Identifier, body: &[Stmt]) -> Result<(), AllocError>
        ensures { Puts result self.old self.new (tree.mark (tree.scope ScopeKind.Loop 0 (name.now ∷ []) (spec.marks_steps (stmt_views body.now) tree.no_marks))) }
    {
        let variable = variable(self.alloc, name)?;
        self.loop_scope(variable, body)
    }

    /// The scope of a task or of an `@sync`.
    #[cycle(walk)]
    fn inside(&mut self, kind: ScopeKind, at: u32, body: &Expr) -> Result<(), AllocError>
        ensures { Puts result self.old self.new (tree.mark (tree.scope kind at [] (spec.marks (view body.now) tree.no_marks))) }
    {
        let mut inner = Walk::new(self.alloc);
        inner.expression(body)?;
        self.put_scope(kind, at, Items::new(self.alloc), inner)
    }

    #[cycle(walk)]
    fn jump(&mut self, jump: &Jump) -> Result<(), AllocError>
        ensures { Puts result self.old self.new (spec.marks_leap (jump_view jump.now)) }
    {
        match jump {
            Jump::Return(at, None) => self.put(Mark::Return(*at)),
            Jump::Return(at, Some(value)) => {
                self.put(Mark::Return(*at))?;
                self.expression(value.get())
            }
            Jump::Break(at) | Jump::Continue(at) => self.put(Mark::LoopJump(*at)),
        }
    }

    #[cycle(walk)]
    pub(crate) fn statement(&mut self, statement: &Stmt) -> Result<(), AllocError>
        ensures { Puts result self.old self.new (spec.marks_step (stmt_view statement.now)) }
    {
        match statement {
            Stmt::Assign(name, operator, value) => {
                self.put_assignment(*operator, name)?;
                self.expression(value.get())
            }
            Stmt::Store(..) => Ok(()),
            Stmt::Jump(jump) => self.jump(jump),
            Stmt::Guard(_, first, terms, jump) => {
                self.chain(first.get(), terms.as_slice())?;
                self.jump(jump)
            }
            Stmt::Expression(value) => self.expression(value.get()),
        }
    }

    #[cycle(walk)]
    pub(crate) fn statements(&mut self, body: &[Stmt]) -> Result<(), AllocError>
        ensures { Puts result self.old self.new (spec.marks_steps (stmt_views body.now)) }
    {
        for statement in body {
            self.statement(statement)?;
        }
        Ok(())
    }
}
