//! What begins with a name.

ghost use Rattle.jt_syntax.specs.View.{views};
ghost use Rattle.jt_grammar.specs.Reader as spec;
ghost use Rattle.jt_syntax.specs.View.{view};
ghost use Rattle.jt_expressions.specs.Nested.{nested};
ghost use Rattle.jt_cursor.specs.Parses.{Parses};

use crate::notified::{notified_alone, notified_with_all};
use crate::rules::{Nested, Rules};
use jt_cursor::{Cursor, Failure, comma_list};
use jt_grammar::Level;
use jt_syntax::{Expr, Identifier, Sign};
use sqlite_items::{Boxed, Items};

impl<N: Nested> Rules<N> {
    fn arguments(&self, tokens: &mut Cursor<'_>) -> Result<Items<Boxed<Expr>>, Failure>
        requires { N.nests self.now.nested self.now.turns self.now.depth }
        ensures { Parses views (nested spec.arguments self.now.turns self.now.depth tokens.old) result tokens.new }
    {
        comma_list(
            self.alloc,
            tokens,
            self.turns,
            &|tokens: &mut Cursor<'_>| self.inner(tokens, Level::Whole),
        )
    }

    /// Behind the name `all` in a call of `notify`.
    fn notify_all(
        &self,
        tokens: &mut Cursor<'_>,
        condition: Boxed<Expr>,
    ) -> Result<Boxed<Expr>, Failure>
        ensures { Parses view (nested spec.notify_all self.now.turns self.now.depth (view condition) tokens.old) result tokens.new }
    {
        tokens.expect(Sign::Assign)?;
        let all = tokens.truth()?;
        tokens.expect(Sign::Close)?;
        Ok(Boxed::new(self.alloc, Expr::Notify(condition, all))?)
    }

    /// Behind arguments before a `=`.
    fn with_all(
        &self,
        tokens: &mut Cursor<'_>,
        name: &Identifier,
        arguments: Items<Boxed<Expr>>,
    ) -> Result<Boxed<Expr>, Failure>
        ensures { Parses view (nested spec.with_all self.now.turns self.now.depth (spec.notified_with_all name.now (views arguments)) tokens.old) result tokens.new }
    {
        match notified_with_all(name, arguments) {
            Some(condition) => self.notify_all(tokens, condition),
            None => Err(tokens.refuse()),
        }
    }

    /// Behind arguments before a `;`.
    fn alone(
        &self,
        tokens: &mut Cursor<'_>,
        name: &Identifier,
        arguments: Items<Boxed<Expr>>,
    ) -> Result<Boxed<Expr>, Failure>
        ensures { Parses view (nested spec.alone self.now.turns self.now.depth (spec.notified_alone name.now (views arguments)) tokens.old) result tokens.new }
    {
        match notified_alone(name, arguments) {
            Some(condition) => {
                tokens.skip()?;
                tokens.letters(b"all")?;
                self.notify_all(tokens, condition)
            }
            None => Err(tokens.refuse()),
        }
    }

    /// Behind the arguments of a call.
    fn call_ended(
        &self,
        tokens: &mut Cursor<'_>,
        name: Identifier,
        arguments: Items<Boxed<Expr>>,
    ) -> Result<Boxed<Expr>, Failure>
        ensures { Parses view (nested spec.call_ended self.now.turns self.now.depth name (views arguments) tokens.old) result tokens.new }
    {
        if tokens.sees(Sign::Close) {
            tokens.skip()?;
            return Ok(Boxed::new(self.alloc, Expr::Call(name, arguments))?);
        }
        if tokens.sees(Sign::Assign) {
            return self.with_all(tokens, &name, arguments);
        }
        if tokens.sees(Sign::Semicolon) {
            return self.alone(tokens, &name, arguments);
        }
        Err(tokens.refuse())
    }

    fn called(&self, tokens: &mut Cursor<'_>, name: Identifier) -> Result<Boxed<Expr>, Failure>
        requires { N.nests self.now.nested self.now.turns self.now.depth }
        ensures { Parses view (nested spec.called self.now.turns self.now.depth name tokens.old) result tokens.new }
    {
        tokens.opening(self.depth, Sign::Open)?;
        let arguments = self.arguments(tokens)?;
        self.call_ended(tokens, name, arguments)
    }

    fn element(&self, tokens: &mut Cursor<'_>, name: Identifier) -> Result<Boxed<Expr>, Failure>
        ensures { Parses view (nested spec.element self.now.turns self.now.depth name tokens.old) result tokens.new }
    {
        tokens.opening(self.depth, Sign::OpenSquare)?;
        tokens.expect(Sign::CloseSquare)?;
        Ok(Boxed::new(self.alloc, Expr::Read(name))?)
    }

    /// A name, a call or the value of an atomic.
    pub(crate) fn named(&self, tokens: &mut Cursor<'_>) -> Result<Boxed<Expr>, Failure>
        requires { N.nests self.now.nested self.now.turns self.now.depth }
        ensures { Parses view (nested spec.named self.now.turns self.now.depth tokens.old) result tokens.new }
    {
        let name = tokens.word(self.alloc)?;
        if tokens.sees(Sign::Open) {
            return self.called(tokens, name);
        }
        if tokens.sees(Sign::OpenSquare) {
            return self.element(tokens, name);
        }
        Ok(Boxed::new(self.alloc, Expr::Name(name))?)
    }
}
