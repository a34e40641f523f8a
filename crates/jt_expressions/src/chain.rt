//! Chains: operands with operators of one class between.

ghost use Rattle.std.specs.Prelude.{◌≡◌, [], IfOk};
ghost use Rattle.jt_grammar.specs.Reader as spec;
ghost use Rattle.jt_syntax.specs.View.{view};
ghost use Rattle.jt_expressions.specs.Chains.{chain_of, terms_view, tighter_than};
ghost use Rattle.jt_expressions.specs.Nested.{nested};
ghost use Rattle.jt_cursor.specs.Parses.{Parses};

use crate::rules::{Nested, Rules};
use jt_cursor::{Cursor, Failure, operator_in};
use jt_syntax::{BinaryOperator, Class, Expr};
use sqlite_items::{Boxed, Items};
use std::alloc::{AllocError, Global};

/// The chain of the operands, or the first alone if there are no others.
pub fn joined(
    alloc: Global,
    class: Class,
    first: Boxed<Expr>,
    more: Items<(BinaryOperator, Boxed<Expr>)>,
) -> Result<Boxed<Expr>, AllocError>
    ensures { IfOk result (λ e. view e ≡ spec.joined_chain class (view first) (terms_view more)) }
{
    if more.is_empty() {
        return Ok(first);
    }
    Ok(Boxed::new(alloc, Expr::Chain(class, first, more))?)
}

impl<N: Nested> Rules<N> {
    /// Operands with operators of the class between.
    #[cycle(chains)]
    pub fn chain(&self, tokens: &mut Cursor<'_>, class: Class) -> Result<Boxed<Expr>, Failure>
        requires { N.nests self.now.nested self.now.turns self.now.depth }
        ensures { Parses view (nested chain_of self.now.turns self.now.depth class tokens.old) result tokens.new }
    {
        let first = self.tighter(tokens, class)?;
        let more = self.terms(tokens, class)?;
        Ok(joined(self.alloc, class, first, more)?)
    }

    /// The operators of the class that come next, each with the operand behind it.
    #[cycle(chains)]
    fn terms(
        &self,
        tokens: &mut Cursor<'_>,
        class: Class,
    ) -> Result<Items<(BinaryOperator, Boxed<Expr>)>, Failure>
        requires { N.nests self.now.nested self.now.turns self.now.depth }
        ensures { Parses terms_view (spec.terms_from class (nested tighter_than self.now.turns self.now.depth class) self.now.turns [] tokens.old) result tokens.new }
    {
        let mut found = Items::new(self.alloc);
        for _turn in 0..self.turns {
            let Some(operator) = operator_in(class, tokens.kind()) else {
                return Ok(found);
            };
            tokens.skip()?;
            let operand = self.tighter(tokens, class)?;
            found.push((operator, operand))?;
        }
        Err(Failure::Spent)
    }

    /// What may stand beside an operator of the class.
    #[cycle(chains)]
    pub(crate) fn tighter(
        &self,
        tokens: &mut Cursor<'_>,
        class: Class,
    ) -> Result<Boxed<Expr>, Failure>
        requires { N.nests self.now.nested self.now.turns self.now.depth }
        ensures { Parses view (nested tighter_than self.now.turns self.now.depth class tokens.old) result tokens.new }
    {
        match class {
            Class::Or => self.chain(tokens, Class::And),
            Class::And => self.chain(tokens, Class::Comparison),
            Class::Comparison => self.chain(tokens, Class::Sum),
            Class::Sum => self.chain(tokens, Class::Product),
            Class::Product => self.chain(tokens, Class::Shift),
            Class::Shift => self.operand(tokens),
        }
    }
}
