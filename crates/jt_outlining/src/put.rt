//! One mark more, behind those that stand.

ghost use Rattle.std.specs.Prelude.{◌≡◌};
ghost use Rattle.jt_outline.specs.Marks as tree;
ghost use Rattle.jt_outline.specs.Outlines as spec;
ghost use Rattle.jt_outlining.specs.Puts.{Puts};
ghost use Rattle.jt_outline.specs.View.{mark_view, mark_views};

use crate::walk::Walk;
use jt_outline::{Mark, ScopeKind, ScopeMark};
use jt_syntax::{AssignmentOperator, Identifier};
use sqlite_items::Items;
use std::alloc::AllocError;

impl Walk {
    #[tactic(auto, using(crate::proofs::Behind::before_push))]
    pub(crate) fn put(&mut self, mark: Mark) -> Result<(), AllocError>
        ensures { (one : tree.MarkTree) → mark_view mark ≡ one → Puts result self.old self.new (tree.mark one) }
    {
        self.marks.push(mark)
    }

    pub(crate) fn put_use(&mut self, name: &Identifier) -> Result<(), AllocError>
        ensures { Puts result self.old self.new (tree.mark (tree.use_of name.now)) }
    {
        let name = name.copied(self.alloc)?;
        self.put(Mark::Use(name))
    }

    pub(crate) fn put_interpolation(&mut self, at: u32, name: &Identifier) -> Result<(), AllocError>
        ensures { Puts result self.old self.new (tree.mark (tree.interpolation at name.now)) }
    {
        let name = name.copied(self.alloc)?;
        self.put(Mark::Interpolation(at, name))
    }

    fn put_target(&mut self, name: &Identifier) -> Result<(), AllocError>
        ensures { Puts result self.old self.new (tree.mark (tree.assignment name.now)) }
    {
        let name = name.copied(self.alloc)?;
        self.put(Mark::Assignment(name))
    }

    /// An assignment, behind a use of its name where it is by an operator.
    pub(crate) fn put_assignment(
        &mut self,
        operator: AssignmentOperator,
        name: &Identifier,
    ) -> Result<(), AllocError>
        ensures { Puts result self.old self.new (spec.assigned operator name.now) }
    {
        if operator != AssignmentOperator::Plain {
            self.put_use(name)?;
        }
        self.put_target(name)
    }

    /// The call of a function with so many arguments.
    pub(crate) fn put_call(&mut self, name: &Identifier, count: usize) -> Result<(), AllocError>
        ensures { Puts result self.old self.new (tree.mark (tree.call name.now count)) }
    {
        let name = name.copied(self.alloc)?;
        self.put(Mark::Call(name, count))
    }

    /// A scope in which the marks of another walk stand.
    pub(crate) fn put_scope(
        &mut self,
        kind: ScopeKind,
        at: u32,
        variables: Items<Identifier>,
        inner: Walk,
    ) -> Result<(), AllocError>
        ensures { Puts result self.old self.new (tree.mark (tree.scope kind at variables (mark_views inner.marks))) }
    {
        let body = inner.marks;
        self.put(Mark::Scope(ScopeMark {
            kind,
            at,
            variables,
            body,
        }))
    }
}
