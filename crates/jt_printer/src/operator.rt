//! The signs of operators that do not stand between two operands.

ghost use Rattle.std.specs.Prelude.{◌≡◌};
ghost use Rattle.jt_grammar.specs.Grammar as grammar;

use jt_syntax::{ArithmeticOperator, AssignmentOperator, BinaryOperator, Sign, UnaryOperator};

pub(crate) fn unary_sign(operator: UnaryOperator) -> Sign
    ensures { result ≡ grammar.unary_sign operator }
{
    match operator {
        UnaryOperator::Minus => Sign::Binary(BinaryOperator::Arithmetic(
            ArithmeticOperator::Subtract,
        )),
        UnaryOperator::Plus => Sign::Binary(BinaryOperator::Arithmetic(ArithmeticOperator::Add)),
        UnaryOperator::Not => Sign::Not,
        UnaryOperator::Complement => Sign::Tilde,
    }
}

pub(crate) fn assignment_sign(operator: AssignmentOperator) -> Sign
    ensures { result ≡ grammar.assignment_sign operator }
{
    match operator {
        AssignmentOperator::Plain => Sign::Assign,
        AssignmentOperator::Plus => Sign::PlusAssign,
        AssignmentOperator::Minus => Sign::MinusAssign,
        AssignmentOperator::Times => Sign::StarAssign,
        AssignmentOperator::Divide => Sign::DivideAssign,
        AssignmentOperator::Remainder => Sign::PercentAssign,
    }
}
