//! Expressions and statements with fewer than so many openers open.

ghost use Rattle.jt_grammar.specs.Reader as spec;
ghost use Rattle.jt_syntax.specs.View.{view, stmt_view, stmt_views};
ghost use Rattle.jt_cursor.specs.Parses.{Parses};
ghost use Rattle.jt_expressions.specs.Nested.{nested};

use crate::phrases::Phrases;
use jt_cursor::{Cursor, Failure};
use jt_grammar::Level;
use jt_syntax::{Expr, Stmt};
use sqlite_items::{Boxed, Items};
use std::alloc::Global;

/// An expression with fewer than `depth` openers open.
#[cycle(nesting)]
fn read(
    alloc: Global,
    tokens: &mut Cursor<'_>,
    turns: usize,
    depth: usize,
    level: Level,
) -> Result<Boxed<Expr>, Failure>
    ensures { Parses view (spec.read turns depth level tokens.old) result tokens.new }
{
    if depth == 0 {
        return Err(Failure::Spent);
    }
    Phrases::new(alloc, turns, depth - 1, read, read_step).rule(tokens, level)
}

/// A statement with fewer than `depth` openers open.
#[cycle(nesting)]
fn read_step(
    alloc: Global,
    tokens: &mut Cursor<'_>,
    turns: usize,
    depth: usize,
) -> Result<Stmt, Failure>
    ensures { Parses stmt_view (spec.read_step turns depth tokens.old) result tokens.new }
{
    if depth == 0 {
        return Err(Failure::Spent);
    }
    Phrases::new(alloc, turns, depth - 1, read, read_step).stepped(tokens)
}

/// Any expression, with no more than `depth` openers open, and no list of more than `turns` parts.
pub fn whole(
    alloc: Global,
    tokens: &mut Cursor<'_>,
    turns: usize,
    depth: usize,
) -> Result<Boxed<Expr>, Failure>
    ensures { Parses view (nested spec.whole turns depth tokens.old) result tokens.new }
{
    Phrases::new(alloc, turns, depth, read, read_step).whole(tokens)
}

/// A statement, with no more than `depth` openers open, and no list of more than `turns` parts.
pub fn statement(
    alloc: Global,
    tokens: &mut Cursor<'_>,
    turns: usize,
    depth: usize,
) -> Result<Stmt, Failure>
    ensures { Parses stmt_view (nested spec.stepped turns depth tokens.old) result tokens.new }
{
    Phrases::new(alloc, turns, depth, read, read_step).stepped(tokens)
}

/// The statements behind the head of a block, up to what ends them, with no more than `depth`
/// openers open, and no list of more than `turns` parts.
pub fn tail(
    alloc: Global,
    tokens: &mut Cursor<'_>,
    turns: usize,
    depth: usize,
) -> Result<Items<Stmt>, Failure>
    ensures { Parses stmt_views (nested spec.tail turns depth tokens.old) result tokens.new }
{
    Phrases::new(alloc, turns, depth, read, read_step).tail(tokens)
}
