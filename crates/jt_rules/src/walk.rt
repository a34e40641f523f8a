//! The walk that looks for broken rules.

ghost use Rattle.std.specs.Prelude.{◌≡◌, false, map, OnOk, IfOk};
ghost use Rattle.jt_outline.specs.View.{mark_view, mark_views, function_view, part_view, outline_view};
ghost use Rattle.jt_rules.specs.Walk as spec;
ghost use Rattle.jt_rules.specs.Walk.{stand};

use crate::context::Context;
use crate::found::Found;
use jt_naming::Broken;
use jt_outline::{FunctionMark, Mark, Outline, Part};
use jt_places::Chain;
use jt_scopes::Scope;
use jt_syntax::Identifier;
use std::alloc::{AllocError, Global};

/// Where the walk stands: the scopes round it, those that begin later, and what was found.
#[derive(Drop)]
pub(crate) struct Walk<'a> {
    pub alloc: Global,
    pub chain: Chain<'a>,
    pub ahead: &'a [Scope],
    pub found: Found,
}

impl<'a> Walk<'a> {
    /// Looks at what stands in the next scope. Where there is none it looks at nothing.
    #[cycle(walk)]
    fn walk_within(&mut self, context: &Context, marks: &[Mark]) -> Result<(), AllocError>
        ensures { OnOk result (stand self.new ≡ spec.within context.now (stand self.old) (mark_views marks.now)) }
    {
        match self.ahead.split_first() {
            None => Ok(()),
            Some((scope, ahead)) => {
                self.ahead = ahead;
                self.chain.enter(scope)?;
                self.walk_all(context, marks)?;
                self.chain.leave();
                Ok(())
            }
        }
    }

    #[cycle(walk)]
    fn walk(&mut self, context: &Context, mark: &Mark) -> Result<(), AllocError>
        ensures { OnOk result (stand self.new ≡ spec.checked context.now (stand self.old) (mark_view mark.now)) }
    {
        match mark {
            Mark::Scope(scope) => {
                self.found = self.found.opened(scope.kind);
                self.walk_within(context, scope.body.as_slice())
            }
            Mark::Use(name) => {
                self.found = self.found.with_use(context, &self.chain, name);
                Ok(())
            }
            Mark::Interpolation(at, name) => {
                self.found = self
                    .found
                    .with_interpolation(context, &self.chain, *at, name);
                Ok(())
            }
            Mark::Assignment(name) => {
                self.found = self.found.with_assignment(context, &self.chain, name);
                Ok(())
            }
            Mark::Call(name, count) => {
                self.found = self.found.with_call(context, name, *count);
                Ok(())
            }
            Mark::Print | Mark::Macro => {
                self.found.called = true;
                Ok(())
            }
            Mark::LoopJump(at) => {
                self.found = self.found.with_jump(*at, self.chain.in_loop());
                Ok(())
            }
            Mark::Return(at) => {
                self.found = self.found.with_jump(*at, self.chain.in_function());
                Ok(())
            }
        }
    }

    #[cycle(walk)]
    fn walk_all(&mut self, context: &Context, marks: &[Mark]) -> Result<(), AllocError>
        ensures { OnOk result (stand self.new ≡ spec.checked_all context.now (stand self.old) (mark_views marks.now)) }
    {
        for mark in marks {
            self.walk(context, mark)?;
        }
        Ok(())
    }

    fn walk_function(
        &mut self,
        context: &Context,
        function: &FunctionMark,
    ) -> Result<(), AllocError>
        ensures { OnOk result (stand self.new ≡ spec.checked_function context.now (stand self.old) (function_view function.now)) }
    {
        let found = self.found.with_function(context, &function.name);
        self.found = found.with_parameters(self.alloc, function.parameters.as_slice())?;
        self.walk_within(context, function.body.as_slice())
    }

    fn walk_functions(
        &mut self,
        context: &Context,
        functions: &[FunctionMark],
    ) -> Result<(), AllocError>
        ensures { OnOk result (stand self.new ≡ spec.checked_functions context.now (stand self.old) (map function_view functions.now)) }
    {
        for function in functions {
            self.walk_function(context, function)?;
        }
        Ok(())
    }

    /// Looks at a constant, where `const` stands at this place. `late`: a statement stood before.
    fn walk_constant(
        &mut self,
        context: &Context,
        late: bool,
        at: u32,
        name: &Identifier,
        marks: &[Mark],
    ) -> Result<(), AllocError>
        ensures { OnOk result (stand self.new ≡ spec.with_constant context.now late at name.now (spec.checked_all context.now (spec.finds (stand self.old) (spec.cleared self.old.found)) (mark_views marks.now))) }
    {
        self.found.called = false;
        self.walk_all(context, marks)?;
        let is_misplaced = late || self.found.called;
        self.found = self.found.with_constant(context, name, at, is_misplaced);
        Ok(())
    }

    fn walk_part(&mut self, context: &Context, late: bool, part: &Part) -> Result<(), AllocError>
        ensures { OnOk result (stand self.new ≡ spec.checked_part context.now late (stand self.old) (part_view part.now)) }
    {
        match part {
            Part::Constant(at, name, marks) => {
                self.walk_constant(context, late, *at, name, marks.as_slice())
            }
            Part::Statement(marks) => self.walk_all(context, marks.as_slice()),
        }
    }

    fn walk_parts(&mut self, context: &Context, parts: &[Part]) -> Result<(), AllocError>
        ensures { OnOk result (stand self.new ≡ spec.checked_parts context.now false (stand self.old) (map part_view parts.now)) }
    {
        let mut late = false;
        for part in parts {
            self.walk_part(context, late, part)?;
            late = late || matches!(part, Part::Statement(_));
        }
        Ok(())
    }

    /// Looks at a whole script, whose own scope is this one.
    pub(crate) fn walk_script(
        &mut self,
        context: &Context,
        script: &'a Scope,
        outline: &Outline,
    ) -> Result<Option<Broken>, AllocError>
        ensures { IfOk result (λ o. o ≡ (spec.checked_outline context.now (spec.inside script.now (stand self.old)) (outline_view outline.now)).found.least) }
    {
        self.chain.enter(script)?;
        self.walk_functions(context, outline.functions.as_slice())?;
        self.walk_parts(context, outline.parts.as_slice())?;
        Ok(self.found.least)
    }
}
