//! Functions that read inside one more opener.

ghost use Rattle.jt_statements.specs.Nests.{Nests};

use jt_cursor::{Cursor, Failure};
use jt_expressions::Nested;
use jt_grammar::Level;
use jt_syntax::{Expr, Stmt};
use sqlite_items::Boxed;
use std::alloc::Global;

/// Two functions that read inside one more opener.
#[derive(Clone, Copy)]
pub(crate) struct Readers<F, G> {
    pub(crate) expression: F,
    pub(crate) statement: G,
}

impl<
    F: Fn(Global, &mut Cursor<'_>, usize, usize, Level) -> Result<Boxed<Expr>, Failure>,
    G: Fn(Global, &mut Cursor<'_>, usize, usize) -> Result<Stmt, Failure>,
> Nested for Readers<F, G> {
    ghost nests = { λ r turns depth. Nests turns depth (F.pre r.expression) (F.post r.expression) (G.pre r.statement) (G.post r.statement) };

    fn expression(
        &self,
        alloc: Global,
        tokens: &mut Cursor<'_>,
        turns: usize,
        depth: usize,
        level: Level,
    ) -> Result<Boxed<Expr>, Failure> {
        (self.expression)(alloc, tokens, turns, depth, level)
    }

    fn statement(
        &self,
        alloc: Global,
        tokens: &mut Cursor<'_>,
        turns: usize,
        depth: usize,
    ) -> Result<Stmt, Failure> {
        (self.statement)(alloc, tokens, turns, depth)
    }
}
