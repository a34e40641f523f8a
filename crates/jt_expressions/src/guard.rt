//! Operands of `&&` or `||`, behind which a jump may stand.

ghost use Rattle.std.specs.Prelude.{[]};
ghost use Rattle.jt_grammar.specs.Reader as spec;
ghost use Rattle.jt_syntax.specs.View.{connective_class};
ghost use Rattle.jt_expressions.specs.Chains.{tighter_than};
ghost use Rattle.jt_expressions.specs.Guards.{guarded_view};
ghost use Rattle.jt_expressions.specs.Nested.{nested};
ghost use Rattle.jt_cursor.specs.Parses.{Parses};

use crate::rules::{Nested, Rules};
use jt_cursor::{Cursor, Failure, is_jump, operator_in};
use jt_syntax::{BinaryOperator, Class, Connective, Expr};
use sqlite_items::{Boxed, Items};

/// Operands of `&&` or `||`, and whether the same operator and a jump stand behind them.
#[derive(Drop)]
pub struct Guarded {
    /// Each behind its operator.
    pub operands: Items<(BinaryOperator, Boxed<Expr>)>,
    /// Whether the operator and a jump stand behind them.
    pub jumps: bool,
}

impl<N: Nested> Rules<N> {
    fn guarded_by(&self, tokens: &mut Cursor<'_>, class: Class) -> Result<Guarded, Failure>
        requires { N.nests self.now.nested self.now.turns self.now.depth }
        ensures { Parses guarded_view (spec.guarded_from class (nested tighter_than self.now.turns self.now.depth class) self.now.turns [] tokens.old) result tokens.new }
    {
        let mut operands = Items::new(self.alloc);
        for _turn in 0..self.turns {
            let Some(operator) = operator_in(class, tokens.kind()) else {
                let jumps = false;
                return Ok(Guarded { operands, jumps });
            };
            tokens.skip()?;
            if is_jump(tokens.kind()) {
                let jumps = true;
                return Ok(Guarded { operands, jumps });
            }
            let operand = self.tighter(tokens, class)?;
            operands.push((operator, operand))?;
        }
        Err(Failure::Spent)
    }

    /// Operands behind the operator, up to what is none or a jump.
    pub fn guarded(
        &self,
        tokens: &mut Cursor<'_>,
        connective: Connective,
    ) -> Result<Guarded, Failure>
        requires { N.nests self.now.nested self.now.turns self.now.depth }
        ensures { Parses guarded_view (spec.guarded_terms (connective_class connective) (nested tighter_than self.now.turns self.now.depth (connective_class connective)) self.now.turns tokens.old) result tokens.new }
    {
        self.guarded_by(tokens, connective.class())
    }
}
