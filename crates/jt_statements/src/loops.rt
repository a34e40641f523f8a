//! Loops with `for`.

ghost use Rattle.jt_grammar.specs.Reader as spec;
ghost use Rattle.jt_syntax.specs.View.{view};
ghost use Rattle.jt_syntax.specs.declared.token.Sign.TheVariants as sign;
ghost use Rattle.jt_expressions.specs.Nested.{nested};
ghost use Rattle.jt_cursor.specs.Parses.{Parses, same};
ghost use Rattle.jt_cursor.specs.Tokens.{now};

use crate::phrases::Phrases;
use jt_cursor::{Cursor, Failure, is_sum};
use jt_expressions::Nested;
use jt_grammar::Level;
use jt_syntax::{Expr, Identifier, Sign, Token};
use sqlite_items::Boxed;

fn in_or_assign<'a>(tokens: &mut Cursor<'a>) -> Result<&'a Token, Failure>
    ensures { Parses now (spec.on sign.In spec.skip (spec.expect sign.Assign) tokens.old) result tokens.new }
{
    if tokens.sees(Sign::In) {
        tokens.skip()
    } else {
        tokens.expect(Sign::Assign)
    }
}

impl<N: Nested> Phrases<N> {
    fn loop_header(&self, tokens: &mut Cursor<'_>) -> Result<Identifier, Failure>
        ensures { Parses same (nested spec.loop_header self.now.rules.turns self.now.rules.depth tokens.old) result tokens.new }
    {
        tokens.opening(self.rules.depth, Sign::For)?;
        let name = tokens.word(self.rules.alloc)?;
        in_or_assign(tokens)?;
        Ok(name)
    }

    fn each_looped(
        &self,
        tokens: &mut Cursor<'_>,
        name: Identifier,
        channel: Boxed<Expr>,
    ) -> Result<Boxed<Expr>, Failure>
        requires { N.nests self.now.rules.nested self.now.rules.turns self.now.rules.depth }
        ensures { Parses view (nested spec.each_looped self.now.rules.turns self.now.rules.depth name (view channel) tokens.old) result tokens.new }
    {
        let body = self.tail(tokens)?;
        tokens.expect(Sign::End)?;
        Ok(Boxed::new(self.rules.alloc, Expr::ForEach(name, channel, body))?)
    }

    fn range_looped(
        &self,
        tokens: &mut Cursor<'_>,
        name: Identifier,
        first: Boxed<Expr>,
    ) -> Result<Boxed<Expr>, Failure>
        requires { N.nests self.now.rules.nested self.now.rules.turns self.now.rules.depth }
        ensures { Parses view (nested spec.range_looped self.now.rules.turns self.now.rules.depth name (view first) tokens.old) result tokens.new }
    {
        tokens.expect(Sign::Colon)?;
        let last = self.rules.inner(tokens, Level::Sum)?;
        let body = self.tail(tokens)?;
        tokens.expect(Sign::End)?;
        Ok(Boxed::new(self.rules.alloc, Expr::ForRange(name, first, last, body))?)
    }

    #[tactic(auto, unfolding(jt_grammar::specs::Reader::is_sum))]
    fn looped_over(
        &self,
        tokens: &mut Cursor<'_>,
        name: Identifier,
        first: Boxed<Expr>,
    ) -> Result<Boxed<Expr>, Failure>
        requires { N.nests self.now.rules.nested self.now.rules.turns self.now.rules.depth }
        ensures { Parses view (nested spec.looped_over self.now.rules.turns self.now.rules.depth name (view first) tokens.old) result tokens.new }
    {
        if !tokens.sees(Sign::Colon) {
            return self.each_looped(tokens, name, first);
        }
        if !is_sum(first.get()) {
            return self.each_looped(tokens, name, first);
        }
        self.range_looped(tokens, name, first)
    }

    /// A loop over a range or a channel.
    pub(crate) fn looped(&self, tokens: &mut Cursor<'_>) -> Result<Boxed<Expr>, Failure>
        requires { N.nests self.now.rules.nested self.now.rules.turns self.now.rules.depth }
        ensures { Parses view (nested spec.looped self.now.rules.turns self.now.rules.depth tokens.old) result tokens.new }
    {
        let name = self.loop_header(tokens)?;
        let first = self.rules.inner(tokens, Level::Condition)?;
        self.looped_over(tokens, name, first)
    }

    /// A loop over a range.
    #[tactic(auto, unfolding(jt_grammar::specs::Reader::range_loop))]
    pub(crate) fn range_loop(&self, tokens: &mut Cursor<'_>) -> Result<Boxed<Expr>, Failure>
        requires { N.nests self.now.rules.nested self.now.rules.turns self.now.rules.depth }
        ensures { Parses view (nested spec.range_loop self.now.rules.turns self.now.rules.depth tokens.old) result tokens.new }
    {
        let name = self.loop_header(tokens)?;
        let first = self.rules.inner(tokens, Level::Sum)?;
        self.range_looped(tokens, name, first)
    }
}
