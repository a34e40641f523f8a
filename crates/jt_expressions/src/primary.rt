//! The tightest forms of expressions.

ghost use Rattle.std.specs.Prelude.{◌≡◌, IfOk};
ghost use Rattle.jt_syntax.specs.Tree as tree;
ghost use Rattle.jt_syntax.specs.View.{item_view, item_views};
ghost use Rattle.jt_cursor.specs.Tokens.{now};
ghost use Rattle.jt_grammar.specs.Reader as spec;
ghost use Rattle.jt_grammar.specs.declared.Level.TheVariants as levels;
ghost use Rattle.jt_syntax.specs.View.{view};
ghost use Rattle.jt_expressions.specs.Channels.{buffered};
ghost use Rattle.jt_expressions.specs.Nested.{nested};
ghost use Rattle.jt_cursor.specs.Parses.{Parses, one};

use crate::rules::{Nested, Rules};
use jt_cursor::{Cursor, Failure, Kind, comma_list};
use jt_grammar::Level;
use jt_syntax::{Expr, Item, Sign, Token};
use sqlite_items::{Boxed, Items};
use std::alloc::{AllocError, Global};

/// A channel of this capacity.
fn channel_of(alloc: Global, capacity: Boxed<Expr>) -> Result<Boxed<Expr>, AllocError>
    ensures { IfOk result (λ e. view e ≡ tree.channel (view capacity)) }
{
    Ok(Boxed::new(alloc, Expr::Channel(Some(capacity)))?)
}

impl<N: Nested> Rules<N> {
    fn number(&self, tokens: &mut Cursor<'_>, number: u64) -> Result<Boxed<Expr>, Failure>
        ensures { Parses view (one (tree.number number) tokens.old) result tokens.new }
    {
        tokens.skip()?;
        Ok(Boxed::new(self.alloc, Expr::Number(number))?)
    }

    fn truth(&self, tokens: &mut Cursor<'_>, value: bool) -> Result<Boxed<Expr>, Failure>
        ensures { Parses view (one (tree.truth value) tokens.old) result tokens.new }
    {
        tokens.skip()?;
        Ok(Boxed::new(self.alloc, Expr::Truth(value))?)
    }

    fn grouped(&self, tokens: &mut Cursor<'_>) -> Result<Boxed<Expr>, Failure>
        requires { N.nests self.now.nested self.now.turns self.now.depth }
        ensures { Parses view (nested spec.grouped self.now.turns self.now.depth tokens.old) result tokens.new }
    {
        tokens.opening(self.depth, Sign::Open)?;
        let inner = self.inner(tokens, Level::Whole)?;
        tokens.expect(Sign::Close)?;
        Ok(Boxed::new(self.alloc, Expr::Group(inner))?)
    }

    fn interpolated(&self, tokens: &mut Cursor<'_>) -> Result<Boxed<Expr>, Failure>
        ensures { Parses view (nested spec.interpolated self.now.turns self.now.depth tokens.old) result tokens.new }
    {
        let at = tokens.skip()?.at;
        let name = tokens.word(self.alloc)?;
        Ok(Boxed::new(self.alloc, Expr::Interpolation(at, name))?)
    }

    /// A string that `println` prints.
    fn text_item(&self, tokens: &mut Cursor<'_>, text: &[u8]) -> Result<Item, Failure>
        ensures { Parses item_view (one (tree.text text.now) tokens.old) result tokens.new }
    {
        tokens.skip()?;
        Ok(Item::Text(Items::from_slice(self.alloc, text)?))
    }

    /// A value that `println` prints.
    fn value_item(&self, tokens: &mut Cursor<'_>) -> Result<Item, Failure>
        requires { N.nests self.now.nested self.now.turns self.now.depth }
        ensures { Parses item_view (spec.read self.now.turns self.now.depth levels.Whole tokens.old) result tokens.new }
    {
        Ok(Item::Value(self.inner(tokens, Level::Whole)?))
    }

    /// What `println` prints.
    #[tactic(auto, unfolding(jt_grammar::specs::Reader::item))]
    fn item(&self, tokens: &mut Cursor<'_>) -> Result<Item, Failure>
        requires { N.nests self.now.nested self.now.turns self.now.depth }
        ensures { Parses item_view (nested spec.item self.now.turns self.now.depth tokens.old) result tokens.new }
    {
        match tokens.kind() {
            Kind::Text(text) => self.text_item(tokens, text),
            Kind::Sign(_) | Kind::Number(_) | Kind::Name(_) => self.value_item(tokens),
        }
    }

    fn items(&self, tokens: &mut Cursor<'_>) -> Result<Items<Item>, Failure>
        requires { N.nests self.now.nested self.now.turns self.now.depth }
        ensures { Parses item_views (spec.comma_list self.now.turns (nested spec.item self.now.turns self.now.depth) tree.no_trees tree.tree tokens.old) result tokens.new }
    {
        comma_list(
            self.alloc,
            tokens,
            self.turns,
            &|tokens: &mut Cursor<'_>| self.item(tokens),
        )
    }

    fn printed(&self, tokens: &mut Cursor<'_>) -> Result<Boxed<Expr>, Failure>
        requires { N.nests self.now.nested self.now.turns self.now.depth }
        ensures { Parses view (nested spec.printed self.now.turns self.now.depth tokens.old) result tokens.new }
    {
        tokens.skip()?;
        tokens.opening(self.depth, Sign::Open)?;
        let items = self.items(tokens)?;
        tokens.expect(Sign::Close)?;
        Ok(Boxed::new(self.alloc, Expr::Println(items))?)
    }

    fn failing(&self, tokens: &mut Cursor<'_>) -> Result<Boxed<Expr>, Failure>
        ensures { Parses view (nested spec.failing self.now.turns self.now.depth tokens.old) result tokens.new }
    {
        tokens.skip()?;
        tokens.opening(self.depth, Sign::Open)?;
        let text = tokens.quoted(self.alloc)?;
        tokens.expect(Sign::Close)?;
        Ok(Boxed::new(self.alloc, Expr::Error(text))?)
    }

    /// `{Int64}`
    fn of_int64<'t>(&self, tokens: &mut Cursor<'t>) -> Result<&'t Token, Failure>
        ensures { Parses now (nested spec.of_int64 self.now.turns self.now.depth tokens.old) result tokens.new }
    {
        tokens.opening(self.depth, Sign::OpenCurly)?;
        tokens.expect(Sign::Int64)?;
        tokens.expect(Sign::CloseCurly)
    }

    /// Behind the `(` of a channel without a capacity.
    fn unbuffered(&self, tokens: &mut Cursor<'_>) -> Result<Boxed<Expr>, Failure>
        ensures { Parses view (one tree.unbuffered tokens.old) result tokens.new }
    {
        tokens.skip()?;
        Ok(Boxed::new(self.alloc, Expr::Channel(None))?)
    }

    /// Behind the `(` of a channel with a capacity.
    fn buffered(&self, tokens: &mut Cursor<'_>) -> Result<Boxed<Expr>, Failure>
        requires { N.nests self.now.nested self.now.turns self.now.depth }
        ensures { Parses view (nested buffered self.now.turns self.now.depth tokens.old) result tokens.new }
    {
        let capacity = self.inner(tokens, Level::Whole)?;
        tokens.expect(Sign::Close)?;
        Ok(channel_of(self.alloc, capacity)?)
    }

    fn channelled(&self, tokens: &mut Cursor<'_>) -> Result<Boxed<Expr>, Failure>
        requires { N.nests self.now.nested self.now.turns self.now.depth }
        ensures { Parses view (nested spec.channelled self.now.turns self.now.depth tokens.old) result tokens.new }
    {
        tokens.skip()?;
        self.of_int64(tokens)?;
        tokens.opening(self.depth, Sign::Open)?;
        if tokens.sees(Sign::Close) {
            return self.unbuffered(tokens);
        }
        self.buffered(tokens)
    }

    fn atomic_made(&self, tokens: &mut Cursor<'_>) -> Result<Boxed<Expr>, Failure>
        requires { N.nests self.now.nested self.now.turns self.now.depth }
        ensures { Parses view (nested spec.atomic_made self.now.turns self.now.depth tokens.old) result tokens.new }
    {
        tokens.skip()?;
        self.of_int64(tokens)?;
        tokens.opening(self.depth, Sign::Open)?;
        let value = self.inner(tokens, Level::Whole)?;
        tokens.expect(Sign::Close)?;
        Ok(Boxed::new(self.alloc, Expr::Atomic(value))?)
    }

    /// `typemin(Int64)` or `typemax(Int64)`
    fn limit(&self, tokens: &mut Cursor<'_>) -> Result<(), Failure>
        ensures least { Parses (λ _. tree.least) (nested spec.limit self.now.turns self.now.depth tree.least tokens.old) result tokens.new }
        ensures greatest { Parses (λ _. tree.greatest) (nested spec.limit self.now.turns self.now.depth tree.greatest tokens.old) result tokens.new }
    {
        tokens.skip()?;
        tokens.opening(self.depth, Sign::Open)?;
        tokens.expect(Sign::Int64)?;
        tokens.expect(Sign::Close)?;
        Ok(())
    }

    fn least(&self, tokens: &mut Cursor<'_>) -> Result<Boxed<Expr>, Failure>
        ensures { Parses view (nested spec.limit self.now.turns self.now.depth tree.least tokens.old) result tokens.new }
    {
        self.limit(tokens)?;
        Ok(Boxed::new(self.alloc, Expr::Least)?)
    }

    fn greatest(&self, tokens: &mut Cursor<'_>) -> Result<Boxed<Expr>, Failure>
        ensures { Parses view (nested spec.limit self.now.turns self.now.depth tree.greatest tokens.old) result tokens.new }
    {
        self.limit(tokens)?;
        Ok(Boxed::new(self.alloc, Expr::Greatest)?)
    }

    fn ranged(&self, tokens: &mut Cursor<'_>) -> Result<Boxed<Expr>, Failure>
        requires { N.nests self.now.nested self.now.turns self.now.depth }
        ensures { Parses view (nested spec.ranged self.now.turns self.now.depth tokens.old) result tokens.new }
    {
        let first = self.inner(tokens, Level::Sum)?;
        tokens.expect(Sign::Colon)?;
        let last = self.inner(tokens, Level::Sum)?;
        tokens.expect(Sign::Close)?;
        Ok(Boxed::new(self.alloc, Expr::RandomIn(first, last))?)
    }

    fn drawn(&self, tokens: &mut Cursor<'_>) -> Result<Boxed<Expr>, Failure>
        requires { N.nests self.now.nested self.now.turns self.now.depth }
        ensures { Parses view (nested spec.drawn self.now.turns self.now.depth tokens.old) result tokens.new }
    {
        tokens.skip()?;
        tokens.opening(self.depth, Sign::Open)?;
        if tokens.sees(Sign::Int64) {
            tokens.skip()?;
            tokens.expect(Sign::Close)?;
            return Ok(Boxed::new(self.alloc, Expr::Random)?);
        }
        self.ranged(tokens)
    }

    /// An expression of the tightest forms.
    #[tactic(auto, unfolding(jt_grammar::specs::Reader::primary))]
    pub(crate) fn primary(&self, tokens: &mut Cursor<'_>) -> Result<Boxed<Expr>, Failure>
        requires { N.nests self.now.nested self.now.turns self.now.depth }
        ensures { Parses view (nested spec.primary self.now.turns self.now.depth tokens.old) result tokens.new }
    {
        match tokens.kind() {
            Kind::Number(number) => self.number(tokens, number),
            Kind::Name(_) => self.named(tokens),
            Kind::Text(_) => Err(tokens.refuse()),
            Kind::Sign(Sign::True) => self.truth(tokens, true),
            Kind::Sign(Sign::False) => self.truth(tokens, false),
            Kind::Sign(Sign::Dollar) => self.interpolated(tokens),
            Kind::Sign(Sign::Open) => self.grouped(tokens),
            Kind::Sign(Sign::Println) => self.printed(tokens),
            Kind::Sign(Sign::Error) => self.failing(tokens),
            Kind::Sign(Sign::Channel) => self.channelled(tokens),
            Kind::Sign(Sign::Atomic) => self.atomic_made(tokens),
            Kind::Sign(Sign::TypeMin) => self.least(tokens),
            Kind::Sign(Sign::TypeMax) => self.greatest(tokens),
            Kind::Sign(Sign::Rand) => self.drawn(tokens),
            Kind::Sign(_) => Err(tokens.refuse()),
        }
    }
}
