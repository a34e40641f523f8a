//! Operators among the tokens.

ghost use Rattle.std.specs.Prelude.{◌≡◌};
ghost use Rattle.jt_grammar.specs.Grammar as grammar;
ghost use Rattle.jt_grammar.specs.Reader as spec;
ghost use Rattle.jt_cursor.specs.Operators.{operator_in, operator_if};
ghost use Rattle.jt_cursor.specs.Kinds.{kind_view};

use crate::cursor::Kind;
use jt_syntax::{ArithmeticOperator, BinaryOperator, Class, Sign, UnaryOperator};

/// The sign `^`.
pub fn power_sign() -> Sign
    ensures { result ≡ grammar.power_sign }
{
    Sign::Binary(BinaryOperator::Arithmetic(ArithmeticOperator::Power))
}

/// The sign of a unary operator.
pub fn unary_sign(operator: UnaryOperator) -> Sign
    ensures { result ≡ grammar.unary_sign operator }
{
    use ArithmeticOperator::{Add, Subtract};
    match operator {
        UnaryOperator::Minus => Sign::Binary(BinaryOperator::Arithmetic(Subtract)),
        UnaryOperator::Plus => Sign::Binary(BinaryOperator::Arithmetic(Add)),
        UnaryOperator::Not => Sign::Not,
        UnaryOperator::Complement => Sign::Tilde,
    }
}

#[tactic(auto, unfolding(jt_grammar::specs::Reader::same_class))]
fn same_class(found: Class, class: Class) -> bool
    ensures { result ≡ spec.same_class found class }
{
    found == class
}

fn is_of(class: Class, found: Option<Class>) -> bool
    ensures { result ≡ spec.is_of class found }
{
    match found {
        Some(found) => same_class(found, class),
        None => false,
    }
}

/// The operator, if it is of the class.
fn operator_if(class: Class, operator: BinaryOperator) -> Option<BinaryOperator>
    ensures { result ≡ operator_if class operator }
{
    if is_of(class, operator.class()) {
        Some(operator)
    } else {
        None
    }
}

/// The operator of the class that a token is, if it is one.
pub fn operator_in(class: Class, kind: Kind<'_>) -> Option<BinaryOperator>
    ensures { result ≡ operator_in class (kind_view kind.entry) }
{
    match kind {
        Kind::Sign(Sign::Binary(operator)) => operator_if(class, operator),
        Kind::Sign(_) => None,
        Kind::Number(_) | Kind::Name(_) | Kind::Text(_) => None,
    }
}
