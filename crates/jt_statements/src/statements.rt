//! Statements.

ghost use Rattle.std.specs.Prelude.{◌≡◌};
ghost use Rattle.jt_grammar.specs.Reader as spec;
ghost use Rattle.jt_syntax.specs.View.{view, jump_view, stmt_view};
ghost use Rattle.jt_grammar.specs.declared.Target.TheVariants as targets;
ghost use Rattle.jt_expressions.specs.Chains.{terms_view};
ghost use Rattle.jt_expressions.specs.Guards.{guarded_view, jumped};
ghost use Rattle.jt_cursor.specs.Kinds.{kind_view};
ghost use Rattle.jt_expressions.specs.Nested.{nested};
ghost use Rattle.jt_cursor.specs.Parses.{Parses};
ghost use Rattle.jt_statements.specs.Statements.{
  element_assigned,
  jump_step,
  return_value,
  variable_assigned,
  whole_step,
};

use crate::phrases::Phrases;
use jt_cursor::{Cursor, Failure, Kind, ends, is_separator, target};
use jt_expressions::{Guarded, Nested, joined};
use jt_grammar::Target;
use jt_syntax::{
    AssignmentOperator, BinaryOperator, Class, Connective, Expr, Identifier, Jump, Sign, Stmt,
};
use sqlite_items::{Boxed, Items};

fn assignment_of(kind: Kind<'_>) -> Option<AssignmentOperator>
    ensures { result ≡ spec.assignment_of (kind_view kind.entry) }
{
    match kind {
        Kind::Sign(Sign::Assign) => Some(AssignmentOperator::Plain),
        Kind::Sign(Sign::PlusAssign) => Some(AssignmentOperator::Plus),
        Kind::Sign(Sign::MinusAssign) => Some(AssignmentOperator::Minus),
        Kind::Sign(Sign::StarAssign) => Some(AssignmentOperator::Times),
        Kind::Sign(Sign::DivideAssign) => Some(AssignmentOperator::Divide),
        Kind::Sign(Sign::PercentAssign) => Some(AssignmentOperator::Remainder),
        Kind::Sign(_) => None,
        Kind::Number(_) | Kind::Name(_) | Kind::Text(_) => None,
    }
}

impl<N: Nested> Phrases<N> {
    fn return_value(&self, tokens: &mut Cursor<'_>, at: u32) -> Result<Jump, Failure>
        requires { N.nests self.now.rules.nested self.now.rules.turns self.now.rules.depth }
        ensures { Parses jump_view (nested return_value self.now.rules.turns self.now.rules.depth at tokens.old) result tokens.new }
    {
        Ok(Jump::Return(at, Some(self.whole(tokens)?)))
    }

    fn returned(&self, tokens: &mut Cursor<'_>) -> Result<Jump, Failure>
        requires { N.nests self.now.rules.nested self.now.rules.turns self.now.rules.depth }
        ensures { Parses jump_view (nested spec.returned self.now.rules.turns self.now.rules.depth tokens.old) result tokens.new }
    {
        let word = tokens.skip()?;
        if ends(tokens.kind()) {
            return Ok(Jump::Return(word.at, None));
        }
        if is_separator(tokens.kind()) {
            return Ok(Jump::Return(word.at, None));
        }
        self.return_value(tokens, word.at)
    }

    /// A jump.
    #[tactic(auto, unfolding(jt_grammar::specs::Reader::leap))]
    fn leap(&self, tokens: &mut Cursor<'_>) -> Result<Jump, Failure>
        requires { N.nests self.now.rules.nested self.now.rules.turns self.now.rules.depth }
        ensures { Parses jump_view (nested spec.leap self.now.rules.turns self.now.rules.depth tokens.old) result tokens.new }
    {
        match tokens.kind() {
            Kind::Sign(Sign::Return) => self.returned(tokens),
            Kind::Sign(Sign::Break) => Ok(Jump::Break(tokens.skip()?.at)),
            Kind::Sign(Sign::Continue) => Ok(Jump::Continue(tokens.skip()?.at)),
            Kind::Sign(_) => Err(tokens.refuse()),
            Kind::Number(_) | Kind::Name(_) | Kind::Text(_) => Err(tokens.refuse()),
        }
    }

    fn variable_assigned(
        &self,
        tokens: &mut Cursor<'_>,
        name: Identifier,
        operator: AssignmentOperator,
    ) -> Result<Stmt, Failure>
        requires { N.nests self.now.rules.nested self.now.rules.turns self.now.rules.depth }
        ensures { Parses stmt_view (nested variable_assigned self.now.rules.turns self.now.rules.depth name operator tokens.old) result tokens.new }
    {
        tokens.skip()?;
        Ok(Stmt::Assign(name, operator, self.whole(tokens)?))
    }

    fn element_assigned(&self, tokens: &mut Cursor<'_>, name: Identifier) -> Result<Stmt, Failure>
        requires { N.nests self.now.rules.nested self.now.rules.turns self.now.rules.depth }
        ensures { Parses stmt_view (nested element_assigned self.now.rules.turns self.now.rules.depth name tokens.old) result tokens.new }
    {
        tokens.skip()?;
        Ok(Stmt::Store(name, self.whole(tokens)?))
    }

    fn stored(
        &self,
        tokens: &mut Cursor<'_>,
        expr: Boxed<Expr>,
        operator: AssignmentOperator,
        name: Identifier,
    ) -> Result<Stmt, Failure>
        requires { N.nests self.now.rules.nested self.now.rules.turns self.now.rules.depth }
        ensures { Parses stmt_view (nested spec.assigned_to self.now.rules.turns self.now.rules.depth (view expr) operator (targets.Element name) tokens.old) result tokens.new }
    {
        match operator {
            AssignmentOperator::Plain => self.element_assigned(tokens, name),
            AssignmentOperator::Plus => Ok(Stmt::Expression(expr)),
            AssignmentOperator::Minus => Ok(Stmt::Expression(expr)),
            AssignmentOperator::Times => Ok(Stmt::Expression(expr)),
            AssignmentOperator::Divide => Ok(Stmt::Expression(expr)),
            AssignmentOperator::Remainder => Ok(Stmt::Expression(expr)),
        }
    }

    fn assigned_to(
        &self,
        tokens: &mut Cursor<'_>,
        expr: Boxed<Expr>,
        operator: AssignmentOperator,
        target: Target,
    ) -> Result<Stmt, Failure>
        requires { N.nests self.now.rules.nested self.now.rules.turns self.now.rules.depth }
        ensures { Parses stmt_view (nested spec.assigned_to self.now.rules.turns self.now.rules.depth (view expr) operator target tokens.old) result tokens.new }
    {
        match target {
            Target::Variable(name) => self.variable_assigned(tokens, name, operator),
            Target::Element(name) => self.stored(tokens, expr, operator, name),
            Target::Function(_, _) => Ok(Stmt::Expression(expr)),
            Target::Other => Ok(Stmt::Expression(expr)),
        }
    }

    /// Behind what may be the left side of an assignment.
    fn assigned(&self, tokens: &mut Cursor<'_>, expr: Boxed<Expr>) -> Result<Stmt, Failure>
        requires { N.nests self.now.rules.nested self.now.rules.turns self.now.rules.depth }
        ensures { Parses stmt_view (nested spec.assigned self.now.rules.turns self.now.rules.depth (view expr) tokens.old) result tokens.new }
    {
        let Some(operator) = assignment_of(tokens.kind()) else {
            return Ok(Stmt::Expression(expr));
        };
        let target = target(self.rules.alloc, expr.get())?;
        self.assigned_to(tokens, expr, operator, target)
    }

    /// The jump behind operands of `&&` or `||`.
    fn jumped(
        &self,
        tokens: &mut Cursor<'_>,
        connective: Connective,
        first: Boxed<Expr>,
        operands: Items<(BinaryOperator, Boxed<Expr>)>,
    ) -> Result<Stmt, Failure>
        requires { N.nests self.now.rules.nested self.now.rules.turns self.now.rules.depth }
        ensures { Parses stmt_view (nested jumped self.now.rules.turns self.now.rules.depth connective (view first) (terms_view operands) tokens.old) result tokens.new }
    {
        let jump = self.leap(tokens)?;
        Ok(Stmt::Guard(connective, first, operands, jump))
    }

    fn or_guarded(
        &self,
        tokens: &mut Cursor<'_>,
        first: Boxed<Expr>,
        more: Guarded,
    ) -> Result<Stmt, Failure>
        requires { N.nests self.now.rules.nested self.now.rules.turns self.now.rules.depth }
        ensures { Parses stmt_view (nested spec.or_guarded self.now.rules.turns self.now.rules.depth (view first) (guarded_view more) tokens.old) result tokens.new }
    {
        let Guarded { operands, jumps } = more;
        if jumps {
            return self.jumped(tokens, Connective::Or, first, operands);
        }
        let chain = joined(self.rules.alloc, Class::Or, first, operands)?;
        let expr = self.rules.chosen(tokens, chain)?;
        self.assigned(tokens, expr)
    }

    fn and_guarded(
        &self,
        tokens: &mut Cursor<'_>,
        first: Boxed<Expr>,
        more: Guarded,
    ) -> Result<Stmt, Failure>
        requires { N.nests self.now.rules.nested self.now.rules.turns self.now.rules.depth }
        ensures { Parses stmt_view (nested spec.and_guarded self.now.rules.turns self.now.rules.depth (view first) (guarded_view more) tokens.old) result tokens.new }
    {
        let Guarded { operands, jumps } = more;
        if jumps {
            return self.jumped(tokens, Connective::And, first, operands);
        }
        let chain = joined(self.rules.alloc, Class::And, first, operands)?;
        let others = self.rules.guarded(tokens, Connective::Or)?;
        self.or_guarded(tokens, chain, others)
    }

    fn plain_step(&self, tokens: &mut Cursor<'_>) -> Result<Stmt, Failure>
        requires { N.nests self.now.rules.nested self.now.rules.turns self.now.rules.depth }
        ensures { Parses stmt_view (nested spec.plain_step self.now.rules.turns self.now.rules.depth tokens.old) result tokens.new }
    {
        let first = self.rules.chain(tokens, Class::Comparison)?;
        let more = self.rules.guarded(tokens, Connective::And)?;
        self.and_guarded(tokens, first, more)
    }

    fn jump_step(&self, tokens: &mut Cursor<'_>) -> Result<Stmt, Failure>
        requires { N.nests self.now.rules.nested self.now.rules.turns self.now.rules.depth }
        ensures { Parses stmt_view (nested jump_step self.now.rules.turns self.now.rules.depth tokens.old) result tokens.new }
    {
        Ok(Stmt::Jump(self.leap(tokens)?))
    }

    fn whole_step(&self, tokens: &mut Cursor<'_>) -> Result<Stmt, Failure>
        requires { N.nests self.now.rules.nested self.now.rules.turns self.now.rules.depth }
        ensures { Parses stmt_view (nested whole_step self.now.rules.turns self.now.rules.depth tokens.old) result tokens.new }
    {
        Ok(Stmt::Expression(self.whole(tokens)?))
    }

    /// A statement.
    #[tactic(auto, unfolding(jt_grammar::specs::Reader::stepped))]
    pub(crate) fn stepped(&self, tokens: &mut Cursor<'_>) -> Result<Stmt, Failure>
        requires { N.nests self.now.rules.nested self.now.rules.turns self.now.rules.depth }
        ensures { Parses stmt_view (nested spec.stepped self.now.rules.turns self.now.rules.depth tokens.old) result tokens.new }
    {
        match tokens.kind() {
            Kind::Sign(Sign::Return | Sign::Break | Sign::Continue) => self.jump_step(tokens),
            Kind::Sign(Sign::Begin | Sign::If | Sign::While | Sign::For) => {
                self.whole_step(tokens)
            }
            Kind::Sign(Sign::Spawn | Sign::Async | Sign::Sync | Sign::Threads) => {
                self.whole_step(tokens)
            }
            Kind::Sign(_) => self.plain_step(tokens),
            Kind::Number(_) | Kind::Name(_) | Kind::Text(_) => self.plain_step(tokens),
        }
    }
}
