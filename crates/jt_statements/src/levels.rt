//! How much of an expression is read at a place.

ghost use Rattle.jt_grammar.specs.Reader as spec;
ghost use Rattle.jt_syntax.specs.View.{view};
ghost use Rattle.jt_expressions.specs.Nested.{nested};
ghost use Rattle.jt_cursor.specs.Parses.{Parses};

use crate::phrases::Phrases;
use jt_cursor::{Cursor, Failure, Kind};
use jt_expressions::Nested;
use jt_grammar::Level;
use jt_syntax::{Class, Expr, Sign};
use sqlite_items::Boxed;

impl<N: Nested> Phrases<N> {
    /// Any expression.
    #[tactic(auto, unfolding(jt_grammar::specs::Reader::whole))]
    pub(crate) fn whole(&self, tokens: &mut Cursor<'_>) -> Result<Boxed<Expr>, Failure>
        requires { N.nests self.now.rules.nested self.now.rules.turns self.now.rules.depth }
        ensures { Parses view (nested spec.whole self.now.rules.turns self.now.rules.depth tokens.old) result tokens.new }
    {
        match tokens.kind() {
            Kind::Sign(Sign::Begin) => self.blocked(tokens),
            Kind::Sign(Sign::If) => self.branched(tokens),
            Kind::Sign(Sign::While) => self.repeated(tokens),
            Kind::Sign(Sign::For) => self.looped(tokens),
            Kind::Sign(Sign::Spawn) => self.spawned(tokens),
            Kind::Sign(Sign::Async) => self.async_spawned(tokens),
            Kind::Sign(Sign::Sync) => self.awaited(tokens),
            Kind::Sign(Sign::Threads) => self.threaded(tokens),
            Kind::Sign(_) => self.rules.condition(tokens),
            Kind::Number(_) | Kind::Name(_) | Kind::Text(_) => self.rules.condition(tokens),
        }
    }

    /// As much of an expression as the level says.
    pub(crate) fn rule(&self, tokens: &mut Cursor<'_>, level: Level) -> Result<Boxed<Expr>, Failure>
        requires { N.nests self.now.rules.nested self.now.rules.turns self.now.rules.depth }
        ensures { Parses view (nested spec.rule self.now.rules.turns self.now.rules.depth level tokens.old) result tokens.new }
    {
        match level {
            Level::Operand => self.rules.operand(tokens),
            Level::Sum => self.rules.chain(tokens, Class::Sum),
            Level::Condition => self.rules.condition(tokens),
            Level::Loop => self.range_loop(tokens),
            Level::Whole => self.whole(tokens),
        }
    }
}
