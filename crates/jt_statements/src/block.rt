//! Blocks.

ghost use Rattle.std.specs.Prelude.{[]};
ghost use Rattle.jt_grammar.specs.Reader as spec;
ghost use Rattle.jt_syntax.specs.Tree as tree;
ghost use Rattle.jt_syntax.specs.View.{view, arm_view, stmt_views};
ghost use Rattle.jt_statements.specs.Arms.{arm_read, branches_read, last_read, last_view, others_view};
ghost use Rattle.jt_expressions.specs.Nested.{nested};
ghost use Rattle.jt_cursor.specs.Parses.{Parses};

use crate::phrases::Phrases;
use jt_cursor::{Cursor, Failure, ends};
use jt_expressions::Nested;
use jt_grammar::Level;
use jt_syntax::{Arm, Expr, Sign, Stmt};
use sqlite_items::{Boxed, Items};

/// The arms of an `if` behind its first one.
#[derive(Drop)]
pub(crate) struct Others {
    /// Those behind `elseif`.
    pub(crate) arms: Items<Arm>,
    /// What stands behind `else`.
    pub(crate) last: Option<Items<Stmt>>,
}

impl<N: Nested> Phrases<N> {
    /// Statements up to a token that ends their list, from behind the first separators on.
    fn statements(&self, tokens: &mut Cursor<'_>) -> Result<Items<Stmt>, Failure>
        requires { N.nests self.now.rules.nested self.now.rules.turns self.now.rules.depth }
        ensures { Parses stmt_views (spec.list_from self.now.rules.turns (spec.read_step self.now.rules.turns self.now.rules.depth) tree.no_steps tree.step self.now.rules.turns [] tokens.old) result tokens.new }
    {
        let mut found = Items::new(self.rules.alloc);
        for _turn in 0..self.rules.turns {
            if ends(tokens.kind()) {
                return Ok(found);
            }
            found.push(self.rules.inner_step(tokens)?)?;
            let apart = tokens.gap(self.rules.turns)?;
            if !apart {
                return Ok(found);
            }
        }
        Err(Failure::Spent)
    }

    #[tactic(auto, using(jt_cursor::proofs::Lists::list_start))]
    pub(crate) fn body(&self, tokens: &mut Cursor<'_>) -> Result<Items<Stmt>, Failure>
        requires { N.nests self.now.rules.nested self.now.rules.turns self.now.rules.depth }
        ensures { Parses stmt_views (nested spec.body self.now.rules.turns self.now.rules.depth tokens.old) result tokens.new }
    {
        tokens.gap(self.rules.turns)?;
        self.statements(tokens)
    }

    #[tactic(auto, using(jt_cursor::proofs::Lists::list_start))]
    pub(crate) fn tail(&self, tokens: &mut Cursor<'_>) -> Result<Items<Stmt>, Failure>
        requires { N.nests self.now.rules.nested self.now.rules.turns self.now.rules.depth }
        ensures { Parses stmt_views (nested spec.tail self.now.rules.turns self.now.rules.depth tokens.old) result tokens.new }
    {
        let apart = tokens.gap(self.rules.turns)?;
        if !apart {
            return Ok(Items::new(self.rules.alloc));
        }
        self.statements(tokens)
    }

    pub(crate) fn blocked(&self, tokens: &mut Cursor<'_>) -> Result<Boxed<Expr>, Failure>
        requires { N.nests self.now.rules.nested self.now.rules.turns self.now.rules.depth }
        ensures { Parses view (nested spec.blocked self.now.rules.turns self.now.rules.depth tokens.old) result tokens.new }
    {
        tokens.opening(self.rules.depth, Sign::Begin)?;
        let body = self.body(tokens)?;
        tokens.expect(Sign::End)?;
        Ok(Boxed::new(self.rules.alloc, Expr::Block(body))?)
    }

    fn last_arm(&self, tokens: &mut Cursor<'_>) -> Result<Option<Items<Stmt>>, Failure>
        requires { N.nests self.now.rules.nested self.now.rules.turns self.now.rules.depth }
        ensures { Parses last_view (nested last_read self.now.rules.turns self.now.rules.depth tokens.old) result tokens.new }
    {
        if !tokens.sees(Sign::Else) {
            return Ok(None);
        }
        tokens.skip()?;
        Ok(Some(self.body(tokens)?))
    }

    fn arms_from(&self, tokens: &mut Cursor<'_>) -> Result<Others, Failure>
        requires { N.nests self.now.rules.nested self.now.rules.turns self.now.rules.depth }
        ensures { Parses others_view (nested spec.arms_from self.now.rules.turns self.now.rules.depth self.now.rules.turns [] tokens.old) result tokens.new }
    {
        let mut arms = Items::new(self.rules.alloc);
        for _turn in 0..self.rules.turns {
            if !tokens.sees(Sign::ElseIf) {
                let last = self.last_arm(tokens)?;
                return Ok(Others { arms, last });
            }
            tokens.skip()?;
            arms.push(self.arm(tokens)?)?;
        }
        Err(Failure::Spent)
    }

    fn arm(&self, tokens: &mut Cursor<'_>) -> Result<Arm, Failure>
        requires { N.nests self.now.rules.nested self.now.rules.turns self.now.rules.depth }
        ensures { Parses arm_view (nested arm_read self.now.rules.turns self.now.rules.depth tokens.old) result tokens.new }
    {
        let condition = self.rules.inner(tokens, Level::Condition)?;
        let body = self.tail(tokens)?;
        Ok(Arm { condition, body })
    }

    #[tactic(auto, using(crate::proofs::Arms::arms_start))]
    pub(crate) fn arms(&self, tokens: &mut Cursor<'_>) -> Result<Others, Failure>
        requires { N.nests self.now.rules.nested self.now.rules.turns self.now.rules.depth }
        ensures { Parses others_view (nested spec.arms self.now.rules.turns self.now.rules.depth self.now.rules.turns tokens.old) result tokens.new }
    {
        self.arms_from(tokens)
    }

    /// Behind the first arm of an `if`.
    fn branches(
        &self,
        tokens: &mut Cursor<'_>,
        condition: Boxed<Expr>,
        body: Items<Stmt>,
    ) -> Result<Boxed<Expr>, Failure>
        requires { N.nests self.now.rules.nested self.now.rules.turns self.now.rules.depth }
        ensures { Parses view (nested branches_read self.now.rules.turns self.now.rules.depth (view condition) (stmt_views body) tokens.old) result tokens.new }
    {
        let others = self.arms(tokens)?;
        tokens.expect(Sign::End)?;
        let Others { arms, last } = others;
        Ok(Boxed::new(self.rules.alloc, Expr::If(condition, body, arms, last))?)
    }

    pub(crate) fn branched(&self, tokens: &mut Cursor<'_>) -> Result<Boxed<Expr>, Failure>
        requires { N.nests self.now.rules.nested self.now.rules.turns self.now.rules.depth }
        ensures { Parses view (nested spec.branched self.now.rules.turns self.now.rules.depth tokens.old) result tokens.new }
    {
        tokens.opening(self.rules.depth, Sign::If)?;
        let condition = self.rules.inner(tokens, Level::Condition)?;
        let body = self.tail(tokens)?;
        self.branches(tokens, condition, body)
    }

    pub(crate) fn repeated(&self, tokens: &mut Cursor<'_>) -> Result<Boxed<Expr>, Failure>
        requires { N.nests self.now.rules.nested self.now.rules.turns self.now.rules.depth }
        ensures { Parses view (nested spec.repeated self.now.rules.turns self.now.rules.depth tokens.old) result tokens.new }
    {
        tokens.opening(self.rules.depth, Sign::While)?;
        let condition = self.rules.inner(tokens, Level::Condition)?;
        let body = self.tail(tokens)?;
        tokens.expect(Sign::End)?;
        Ok(Boxed::new(self.rules.alloc, Expr::While(condition, body))?)
    }
}
