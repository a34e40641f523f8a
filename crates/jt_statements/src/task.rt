//! Macros, which make tasks or wait for them.

ghost use Rattle.std.specs.Prelude.{◌≡◌, option_map};
ghost use Rattle.jt_grammar.specs.Reader as spec;
ghost use Rattle.jt_syntax.specs.View.{view};
ghost use Rattle.jt_expressions.specs.Nested.{nested};
ghost use Rattle.jt_cursor.specs.Parses.{Parses, same};
ghost use Rattle.jt_statements.specs.Ranges.{range_parts, range_view};

use crate::phrases::Phrases;
use jt_cursor::{Cursor, Failure, Kind, is_spelled};
use jt_expressions::Nested;
use jt_grammar::Level;
use jt_syntax::{Expr, Identifier, PoolName, Schedule, Sign, Stmt};
use sqlite_items::{Boxed, Items};

/// A loop over a range.
#[derive(Drop)]
struct RangeLoop {
    name: Identifier,
    first: Boxed<Expr>,
    last: Boxed<Expr>,
    body: Items<Stmt>,
}

/// The loop over a range that the expression is, if it is one.
fn range_loop_of(expr: Boxed<Expr>) -> Option<RangeLoop>
    ensures { option_map range_view result ≡ range_parts (view expr) }
{
    match expr.into_inner() {
        Expr::ForRange(name, first, last, body) => Some(RangeLoop {
            name,
            first,
            last,
            body,
        }),
        Expr::Number(_)
        | Expr::Truth(_)
        | Expr::Name(_)
        | Expr::Interpolation(..)
        | Expr::Group(_)
        | Expr::Call(..)
        | Expr::Println(_)
        | Expr::Error(_)
        | Expr::Channel(_)
        | Expr::Atomic(_)
        | Expr::Least
        | Expr::Greatest
        | Expr::Random
        | Expr::RandomIn(..)
        | Expr::Notify(..)
        | Expr::Read(_)
        | Expr::Power(..)
        | Expr::Unary(..)
        | Expr::Chain(..)
        | Expr::Conditional(..)
        | Expr::Block(_)
        | Expr::If(..)
        | Expr::While(..)
        | Expr::ForEach(..)
        | Expr::Spawn(..)
        | Expr::Async(..)
        | Expr::Sync(_)
        | Expr::Threads(..) => None,
    }
}

impl<N: Nested> Phrases<N> {
    fn pool_named(&self, tokens: &mut Cursor<'_>, name: &[u8]) -> Result<Option<PoolName>, Failure>
        ensures { Parses same (nested spec.pool_named self.now.rules.turns self.now.rules.depth name.now tokens.old) result tokens.new }
    {
        if is_spelled(name, b"default") {
            tokens.skip()?;
            return Ok(Some(PoolName::Default));
        }
        if is_spelled(name, b"interactive") {
            tokens.skip()?;
            return Ok(Some(PoolName::Interactive));
        }
        Err(tokens.refuse())
    }

    #[tactic(auto, unfolding(jt_grammar::specs::Reader::pool))]
    fn pool(&self, tokens: &mut Cursor<'_>) -> Result<Option<PoolName>, Failure>
        ensures { Parses same (nested spec.pool self.now.rules.turns self.now.rules.depth tokens.old) result tokens.new }
    {
        if !tokens.sees(Sign::Colon) {
            return Ok(None);
        }
        tokens.skip()?;
        match tokens.kind() {
            Kind::Name(name) => self.pool_named(tokens, name),
            Kind::Sign(_) => Err(tokens.refuse()),
            Kind::Number(_) => Err(tokens.refuse()),
            Kind::Text(_) => Err(tokens.refuse()),
        }
    }

    fn schedule_named(
        &self,
        tokens: &mut Cursor<'_>,
        name: &[u8],
    ) -> Result<Option<Schedule>, Failure>
        ensures { Parses same (nested spec.schedule_named self.now.rules.turns self.now.rules.depth name.now tokens.old) result tokens.new }
    {
        if is_spelled(name, b"static") {
            tokens.skip()?;
            return Ok(Some(Schedule::Static));
        }
        if is_spelled(name, b"dynamic") {
            tokens.skip()?;
            return Ok(Some(Schedule::Dynamic));
        }
        Err(tokens.refuse())
    }

    #[tactic(auto, unfolding(jt_grammar::specs::Reader::schedule))]
    fn schedule(&self, tokens: &mut Cursor<'_>) -> Result<Option<Schedule>, Failure>
        ensures { Parses same (nested spec.schedule self.now.rules.turns self.now.rules.depth tokens.old) result tokens.new }
    {
        if !tokens.sees(Sign::Colon) {
            return Ok(None);
        }
        tokens.skip()?;
        match tokens.kind() {
            Kind::Name(name) => self.schedule_named(tokens, name),
            Kind::Sign(_) => Err(tokens.refuse()),
            Kind::Number(_) => Err(tokens.refuse()),
            Kind::Text(_) => Err(tokens.refuse()),
        }
    }

    pub(crate) fn spawned(&self, tokens: &mut Cursor<'_>) -> Result<Boxed<Expr>, Failure>
        requires { N.nests self.now.rules.nested self.now.rules.turns self.now.rules.depth }
        ensures { Parses view (nested spec.spawned self.now.rules.turns self.now.rules.depth tokens.old) result tokens.new }
    {
        let word = tokens.opening(self.rules.depth, Sign::Spawn)?;
        let pool = self.pool(tokens)?;
        let body = self.rules.inner(tokens, Level::Whole)?;
        Ok(Boxed::new(self.rules.alloc, Expr::Spawn(word.at, pool, body))?)
    }

    pub(crate) fn async_spawned(&self, tokens: &mut Cursor<'_>) -> Result<Boxed<Expr>, Failure>
        requires { N.nests self.now.rules.nested self.now.rules.turns self.now.rules.depth }
        ensures { Parses view (nested spec.async_spawned self.now.rules.turns self.now.rules.depth tokens.old) result tokens.new }
    {
        let word = tokens.opening(self.rules.depth, Sign::Async)?;
        let body = self.rules.inner(tokens, Level::Whole)?;
        Ok(Boxed::new(self.rules.alloc, Expr::Async(word.at, body))?)
    }

    pub(crate) fn awaited(&self, tokens: &mut Cursor<'_>) -> Result<Boxed<Expr>, Failure>
        requires { N.nests self.now.rules.nested self.now.rules.turns self.now.rules.depth }
        ensures { Parses view (nested spec.awaited self.now.rules.turns self.now.rules.depth tokens.old) result tokens.new }
    {
        tokens.opening(self.rules.depth, Sign::Sync)?;
        let body = self.rules.inner(tokens, Level::Whole)?;
        Ok(Boxed::new(self.rules.alloc, Expr::Sync(body))?)
    }

    /// A loop as the iterations of `@threads`.
    #[tactic(auto, using(crate::proofs::Ranges::threads_by_parts))]
    fn threads_of(
        &self,
        tokens: &mut Cursor<'_>,
        at: u32,
        schedule: Option<Schedule>,
        range_loop: Boxed<Expr>,
    ) -> Result<Boxed<Expr>, Failure>
        ensures { Parses view (nested spec.threads_of self.now.rules.turns self.now.rules.depth at schedule (view range_loop) tokens.old) result tokens.new }
    {
        let Some(parts) = range_loop_of(range_loop) else {
            return Err(tokens.refuse());
        };
        let RangeLoop {
            name,
            first,
            last,
            body,
        } = parts;
        let threads = Expr::Threads(at, schedule, name, first, last, body);
        Ok(Boxed::new(self.rules.alloc, threads)?)
    }

    pub(crate) fn threaded(&self, tokens: &mut Cursor<'_>) -> Result<Boxed<Expr>, Failure>
        requires { N.nests self.now.rules.nested self.now.rules.turns self.now.rules.depth }
        ensures { Parses view (nested spec.threaded self.now.rules.turns self.now.rules.depth tokens.old) result tokens.new }
    {
        let word = tokens.opening(self.rules.depth, Sign::Threads)?;
        let schedule = self.schedule(tokens)?;
        let range_loop = self.rules.inner(tokens, Level::Loop)?;
        self.threads_of(tokens, word.at, schedule, range_loop)
    }
}
