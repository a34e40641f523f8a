//! The rules of the grammar take what reads inside one more opener as a parameter, so that each is
//! proved by itself.

ghost use Rattle.std.specs.Prelude.{ℕ};
ghost use Rattle.jt_grammar.specs.Reader as spec;
ghost use Rattle.jt_syntax.specs.View.{view, stmt_view};
ghost use Rattle.jt_cursor.specs.Parses.{Parses};

use jt_cursor::{Cursor, Failure};
use jt_grammar::Level;
use jt_syntax::{Expr, Stmt};
use sqlite_items::Boxed;
use std::alloc::Global;

/// What reads inside one more opener.
pub trait Nested {
    // Whether it does, with so many turns, and with so many openers that may still be open.
    ghost nests: { Self → ℕ → ℕ → Type 0 };

    /// As much of an expression as the level says.
    fn expression(
        &self,
        alloc: Global,
        tokens: &mut Cursor<'_>,
        turns: usize,
        depth: usize,
        level: Level,
    ) -> Result<Boxed<Expr>, Failure>
        requires { nests self.now turns depth }
        ensures { Parses view (spec.read turns depth level tokens.old) result tokens.new };

    /// A statement.
    fn statement(
        &self,
        alloc: Global,
        tokens: &mut Cursor<'_>,
        turns: usize,
        depth: usize,
    ) -> Result<Stmt, Failure>
        requires { nests self.now turns depth }
        ensures { Parses stmt_view (spec.read_step turns depth tokens.old) result tokens.new };
}

/// The rules inside as many openers as are open.
#[derive(Clone, Copy)]
pub struct Rules<N> {
    /// Where trees are made.
    pub alloc: Global,
    /// More than there are tokens, so that no list is cut short.
    pub turns: usize,
    /// How many more openers may be open.
    pub depth: usize,
    /// What reads inside one more opener.
    pub nested: N,
}

impl<N: Nested> Rules<N> {
    /// An expression inside one more opener.
    pub fn inner(&self, tokens: &mut Cursor<'_>, level: Level) -> Result<Boxed<Expr>, Failure>
        requires { N.nests self.now.nested self.now.turns self.now.depth }
        ensures { Parses view (spec.read self.now.turns self.now.depth level tokens.old) result tokens.new }
    {
        self.nested
            .expression(self.alloc, tokens, self.turns, self.depth, level)
    }

    /// A statement inside one more opener.
    pub fn inner_step(&self, tokens: &mut Cursor<'_>) -> Result<Stmt, Failure>
        requires { N.nests self.now.nested self.now.turns self.now.depth }
        ensures { Parses stmt_view (spec.read_step self.now.turns self.now.depth tokens.old) result tokens.new }
    {
        self.nested
            .statement(self.alloc, tokens, self.turns, self.depth)
    }
}
