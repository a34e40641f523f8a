//! Operands: unary operators and powers.

ghost use Rattle.jt_grammar.specs.Grammar as grammar;
ghost use Rattle.jt_grammar.specs.Reader as spec;
ghost use Rattle.jt_syntax.specs.View.{view};
ghost use Rattle.jt_expressions.specs.Nested.{nested};
ghost use Rattle.jt_cursor.specs.Parses.{Parses};

use crate::rules::{Nested, Rules};
use jt_cursor::{Cursor, Failure, Kind, power_sign, unary_sign};
use jt_grammar::Level;
use jt_syntax::{ArithmeticOperator, BinaryOperator, Expr, Sign, UnaryOperator};
use sqlite_items::Boxed;

impl<N: Nested> Rules<N> {
    fn negated(
        &self,
        tokens: &mut Cursor<'_>,
        operator: UnaryOperator,
    ) -> Result<Boxed<Expr>, Failure>
        requires { N.nests self.now.nested self.now.turns self.now.depth }
        ensures { Parses view (nested spec.negated self.now.turns self.now.depth (grammar.unary_sign operator) operator tokens.old) result tokens.new }
    {
        tokens.opening(self.depth, unary_sign(operator))?;
        let operand = self.inner(tokens, Level::Operand)?;
        Ok(Boxed::new(self.alloc, Expr::Unary(operator, operand))?)
    }

    /// Behind what may be the base of a power.
    fn raised(&self, tokens: &mut Cursor<'_>, base: Boxed<Expr>) -> Result<Boxed<Expr>, Failure>
        requires { N.nests self.now.nested self.now.turns self.now.depth }
        ensures { Parses view (nested spec.raised self.now.turns self.now.depth (view base) tokens.old) result tokens.new }
    {
        if !tokens.sees(power_sign()) {
            return Ok(base);
        }
        tokens.enter(self.depth)?;
        tokens.skip()?;
        let exponent = self.inner(tokens, Level::Operand)?;
        Ok(Boxed::new(self.alloc, Expr::Power(base, exponent))?)
    }

    #[tactic(auto, unfolding(jt_grammar::specs::Reader::power))]
    fn power(&self, tokens: &mut Cursor<'_>) -> Result<Boxed<Expr>, Failure>
        requires { N.nests self.now.nested self.now.turns self.now.depth }
        ensures { Parses view (nested spec.power self.now.turns self.now.depth tokens.old) result tokens.new }
    {
        let base = self.primary(tokens)?;
        self.raised(tokens, base)
    }

    /// The operand of a binary operator.
    #[tactic(auto, unfolding(jt_grammar::specs::Reader::operand))]
    pub fn operand(&self, tokens: &mut Cursor<'_>) -> Result<Boxed<Expr>, Failure>
        requires { N.nests self.now.nested self.now.turns self.now.depth }
        ensures { Parses view (nested spec.operand self.now.turns self.now.depth tokens.old) result tokens.new }
    {
        use ArithmeticOperator::{Add, Subtract};
        match tokens.kind() {
            Kind::Sign(Sign::Binary(BinaryOperator::Arithmetic(Subtract))) => {
                self.negated(tokens, UnaryOperator::Minus)
            }
            Kind::Sign(Sign::Binary(BinaryOperator::Arithmetic(Add))) => {
                self.negated(tokens, UnaryOperator::Plus)
            }
            Kind::Sign(Sign::Not) => self.negated(tokens, UnaryOperator::Not),
            Kind::Sign(Sign::Tilde) => self.negated(tokens, UnaryOperator::Complement),
            Kind::Sign(_) => self.power(tokens),
            Kind::Number(_) | Kind::Name(_) | Kind::Text(_) => self.power(tokens),
        }
    }
}
