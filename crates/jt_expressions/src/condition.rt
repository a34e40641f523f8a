//! Conditions: all expressions but blocks and macros.

ghost use Rattle.jt_grammar.specs.Reader as spec;
ghost use Rattle.jt_syntax.specs.View.{view};
ghost use Rattle.jt_expressions.specs.Nested.{nested};
ghost use Rattle.jt_cursor.specs.Parses.{Parses};

use crate::rules::{Nested, Rules};
use jt_cursor::{Cursor, Failure};
use jt_grammar::Level;
use jt_syntax::{Class, Expr, Sign};
use sqlite_items::Boxed;

impl<N: Nested> Rules<N> {
    /// Behind what may be the condition of a `?`.
    pub fn chosen(
        &self,
        tokens: &mut Cursor<'_>,
        first: Boxed<Expr>,
    ) -> Result<Boxed<Expr>, Failure>
        requires { N.nests self.now.nested self.now.turns self.now.depth }
        ensures { Parses view (nested spec.chosen self.now.turns self.now.depth (view first) tokens.old) result tokens.new }
    {
        if !tokens.sees(Sign::Question) {
            return Ok(first);
        }
        tokens.enter(self.depth)?;
        tokens.skip()?;
        let value = self.inner(tokens, Level::Condition)?;
        tokens.expect(Sign::Colon)?;
        let otherwise = self.inner(tokens, Level::Condition)?;
        Ok(Boxed::new(self.alloc, Expr::Conditional(first, value, otherwise))?)
    }

    /// An expression that is no block and no macro.
    #[tactic(auto, unfolding(jt_grammar::specs::Reader::condition))]
    pub fn condition(&self, tokens: &mut Cursor<'_>) -> Result<Boxed<Expr>, Failure>
        requires { N.nests self.now.nested self.now.turns self.now.depth }
        ensures { Parses view (nested spec.condition self.now.turns self.now.depth tokens.old) result tokens.new }
    {
        let first = self.chain(tokens, Class::Or)?;
        self.chosen(tokens, first)
    }
}
