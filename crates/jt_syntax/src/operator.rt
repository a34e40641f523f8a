//! Operators.

ghost use Rattle.std.specs.Prelude.{◌≡◌};
ghost use Rattle.jt_syntax.specs.View as spec;

/// What stands before an operand.
#[derive(Clone, Copy, Debug, PartialEq, Eq)]
pub enum UnaryOperator {
    /// `-`
    Minus,
    /// `+`
    Plus,
    /// `!`
    Not,
    /// `~`
    Complement,
}

/// An operator whose operands are both evaluated, and that gives a value of their kind.
#[derive(Clone, Copy, Debug, PartialEq, Eq)]
pub enum ArithmeticOperator {
    /// `+`
    Add,
    /// `-`
    Subtract,
    /// `*`
    Multiply,
    /// `÷`: the quotient, truncated towards zero.
    Divide,
    /// `%`: the remainder, with the sign of the first operand.
    Remainder,
    /// `^`
    Power,
    /// `&`
    And,
    /// `|`
    Or,
    /// `⊻`
    Xor,
    /// `<<`
    ShiftLeft,
    /// `>>`, which keeps the sign.
    ShiftRight,
    /// `>>>`, which brings in zeros.
    ShiftRightZero,
}

/// A comparison.
#[derive(Clone, Copy, Debug, PartialEq, Eq)]
pub enum ComparisonOperator {
    /// `==`
    Equal,
    /// `!=` or `≠`
    NotEqual,
    /// `<`
    Less,
    /// `<=` or `≤`
    LessEqual,
    /// `>`
    Greater,
    /// `>=` or `≥`
    GreaterEqual,
}

/// An operator that evaluates its next operand only where the one before asks for it.
#[derive(Clone, Copy, Debug, PartialEq, Eq)]
pub enum Connective {
    /// `&&`
    And,
    /// `||`
    Or,
}

/// What stands between two operands: the same from tokens to programs.
#[derive(Clone, Copy, Debug, PartialEq, Eq)]
pub enum BinaryOperator {
    Arithmetic(ArithmeticOperator),
    Comparison(ComparisonOperator),
    Connective(Connective),
}

/// The operators that bind equally tightly, from the loosest class to the tightest. Operands with
/// operators of one class between are one chain; `^` makes none.
#[derive(Clone, Copy, Debug, PartialEq, Eq)]
pub enum Class {
    /// `||`
    Or,
    /// `&&`
    And,
    /// `==` `!=` `<` `<=` `>` `>=`
    Comparison,
    /// `+` `-` `|` `⊻`
    Sum,
    /// `*` `÷` `%` `&`
    Product,
    /// `<<` `>>` `>>>`
    Shift,
}

impl Connective {
    /// The class of its own.
    pub fn class(self) -> Class
        ensures { result ≡ spec.connective_class self }
    {
        match self {
            Connective::And => Class::And,
            Connective::Or => Class::Or,
        }
    }
}

impl BinaryOperator {
    /// Its class; nothing for `^`.
    pub fn class(self) -> Option<Class>
        ensures { result ≡ spec.operator_class self }
    {
        use ArithmeticOperator::*;
        match self {
            BinaryOperator::Arithmetic(Add | Subtract | Or | Xor) => Some(Class::Sum),
            BinaryOperator::Arithmetic(Multiply | Divide | Remainder | And) => Some(Class::Product),
            BinaryOperator::Arithmetic(ShiftLeft | ShiftRight | ShiftRightZero) => Some(
                Class::Shift,
            ),
            BinaryOperator::Arithmetic(Power) => None,
            BinaryOperator::Comparison(_) => Some(Class::Comparison),
            BinaryOperator::Connective(connective) => Some(connective.class()),
        }
    }
}

/// What stands between a variable and what it is assigned. All but `Plain` assign the result of an
/// operator on the variable's value and the value of the expression.
#[derive(Clone, Copy, Debug, PartialEq, Eq)]
pub enum AssignmentOperator {
    /// `=`
    Plain,
    /// `+=`
    Plus,
    /// `-=`
    Minus,
    /// `*=`
    Times,
    /// `÷=`
    Divide,
    /// `%=`
    Remainder,
}
