//! What operators and functions of the language make of values.

ghost use Rattle.std.specs.Prelude.{◌≡◌, ◌∷◌, [], Ok, Err, IfOk};
ghost use Rattle.jt_base.specs.declared.value.Value.TheVariants.{Int, Flag};
ghost use Rattle.jt_meaning.specs.Values as spec;

mod comparisons;

use crate::small::{Cause, Form, SmallFault, SmallValue};
pub(crate) use comparisons::compare;
use jt_base::{OutOfMemory, Text};
use jt_num::NumFault;
use jt_program::{BuiltIn, Literal};
use jt_syntax::{ArithmeticOperator, UnaryOperator};
use std::alloc::Global;

/// The value of a literal.
pub(crate) fn literal_value(literal: Literal) -> SmallValue
    ensures { result ≡ spec.value_of literal }
{
    match literal {
        Literal::Int(number) => SmallValue {
            form: Form::Int(number),
        },
        Literal::Flag(flag) => SmallValue {
            form: Form::Flag(flag),
        },
        Literal::Nothing => SmallValue {
            form: Form::Nothing,
        },
    }
}

/// What an operator makes of its two operands, or why it makes nothing: `Divide` and `Domain` as in
/// arithmetic, `Method` where it doesn't take them.
pub(crate) fn operate(
    operator: ArithmeticOperator,
    left: &SmallValue,
    right: &SmallValue,
) -> Result<SmallValue, SmallFault>
    ensures { result ≡ spec.operated operator left.now right.now }
{
    match &left.form {
        Form::Int(a) => match &right.form {
            Form::Int(b) => operate_on_numbers(operator, *a, *b),
            _ => Err(SmallFault {
                cause: Cause::Method,
            }),
        },
        Form::Flag(a) => match &right.form {
            Form::Flag(b) => operate_on_flags(operator, *a, *b),
            _ => Err(SmallFault {
                cause: Cause::Method,
            }),
        },
        _ => Err(SmallFault {
            cause: Cause::Method,
        }),
    }
}

fn operate_on_numbers(
    operator: ArithmeticOperator,
    a: i64,
    b: i64,
) -> Result<SmallValue, SmallFault>
    ensures { result ≡ spec.operated operator (Int a) (Int b) }
{
    match operator {
        ArithmeticOperator::Add => Ok(SmallValue {
            form: Form::Int(jt_num::add(a, b)),
        }),
        ArithmeticOperator::Subtract => Ok(SmallValue {
            form: Form::Int(jt_num::sub(a, b)),
        }),
        ArithmeticOperator::Multiply => Ok(SmallValue {
            form: Form::Int(jt_num::mul(a, b)),
        }),
        ArithmeticOperator::Divide => number_or(jt_num::div(a, b)),
        ArithmeticOperator::Remainder => number_or(jt_num::rem(a, b)),
        ArithmeticOperator::Power => number_or(jt_num::pow(a, b)),
        ArithmeticOperator::And => Ok(SmallValue {
            form: Form::Int(jt_num::and(a, b)),
        }),
        ArithmeticOperator::Or => Ok(SmallValue {
            form: Form::Int(jt_num::or(a, b)),
        }),
        ArithmeticOperator::Xor => Ok(SmallValue {
            form: Form::Int(jt_num::xor(a, b)),
        }),
        ArithmeticOperator::ShiftLeft => Ok(SmallValue {
            form: Form::Int(jt_num::shl(a, b)),
        }),
        ArithmeticOperator::ShiftRight => Ok(SmallValue {
            form: Form::Int(jt_num::shr(a, b)),
        }),
        ArithmeticOperator::ShiftRightZero => Ok(SmallValue {
            form: Form::Int(jt_num::ushr(a, b)),
        }),
    }
}

fn operate_on_flags(
    operator: ArithmeticOperator,
    a: bool,
    b: bool,
) -> Result<SmallValue, SmallFault>
    ensures { result ≡ spec.operated operator (Flag a) (Flag b) }
{
    match operator {
        ArithmeticOperator::And => Ok(SmallValue {
            form: Form::Flag(a && b),
        }),
        ArithmeticOperator::Or => Ok(SmallValue {
            form: Form::Flag(a || b),
        }),
        ArithmeticOperator::Xor => Ok(SmallValue {
            form: Form::Flag(a != b),
        }),
        _ => Err(SmallFault {
            cause: Cause::Method,
        }),
    }
}

/// What an operator makes of the operand behind it; `Method` where it doesn't take it.
pub(crate) fn apply_unary(
    operator: UnaryOperator,
    value: &SmallValue,
) -> Result<SmallValue, SmallFault>
    ensures { result ≡ spec.unary_of operator value.now }
{
    match &value.form {
        Form::Int(a) => match operator {
            UnaryOperator::Minus => Ok(SmallValue {
                form: Form::Int(jt_num::sub(0, *a)),
            }),
            UnaryOperator::Plus => Ok(SmallValue {
                form: Form::Int(*a),
            }),
            UnaryOperator::Complement => Ok(SmallValue {
                form: Form::Int(jt_num::complement(*a)),
            }),
            UnaryOperator::Not => Err(SmallFault {
                cause: Cause::Method,
            }),
        },
        Form::Flag(flag) => match operator {
            UnaryOperator::Not | UnaryOperator::Complement => Ok(SmallValue {
                form: Form::Flag(!*flag),
            }),
            UnaryOperator::Minus | UnaryOperator::Plus => Err(SmallFault {
                cause: Cause::Method,
            }),
        },
        _ => Err(SmallFault {
            cause: Cause::Method,
        }),
    }
}

/// What a function of the language answers, or why it answers nothing: `Divide` as in arithmetic,
/// `Method` where it doesn't take these arguments.
pub(crate) fn apply(function: BuiltIn, arguments: &[SmallValue]) -> Result<SmallValue, SmallFault>
    ensures { result ≡ spec.applied function arguments.now }
{
    match arguments {
        [left, right] => apply_to_two(function, left, right),
        _ => Err(SmallFault {
            cause: Cause::Method,
        }),
    }
}

fn apply_to_two(
    function: BuiltIn,
    left: &SmallValue,
    right: &SmallValue,
) -> Result<SmallValue, SmallFault>
    ensures { result ≡ spec.applied function (left.now ∷ right.now ∷ []) }
{
    match &left.form {
        Form::Int(a) => match &right.form {
            Form::Int(b) => divide(function, *a, *b),
            _ => Err(SmallFault {
                cause: Cause::Method,
            }),
        },
        _ => Err(SmallFault {
            cause: Cause::Method,
        }),
    }
}

fn divide(function: BuiltIn, a: i64, b: i64) -> Result<SmallValue, SmallFault>
    ensures { result ≡ spec.applied function (Int a ∷ Int b ∷ []) }
{
    match function {
        BuiltIn::Div => number_or(jt_num::div(a, b)),
        BuiltIn::Rem => number_or(jt_num::rem(a, b)),
        BuiltIn::Mod => number_or(jt_num::mod_(a, b)),
        BuiltIn::Fetch | BuiltIn::Wait | BuiltIn::Yield => Err(SmallFault {
            cause: Cause::Method,
        }),
    }
}

fn number_or(number: Result<i64, NumFault>) -> Result<SmallValue, SmallFault>
    ensures { result ≡ spec.number_or number }
{
    match number {
        Ok(number) => Ok(SmallValue {
            form: Form::Int(number),
        }),
        Err(NumFault::Divide) => Err(SmallFault {
            cause: Cause::Divide,
        }),
        Err(NumFault::Domain) => Err(SmallFault {
            cause: Cause::Domain,
        }),
    }
}

/// The fault of a call of `error` with these bytes: `Method` where they are no UTF-8.
pub(crate) fn error_fault(alloc: Global, bytes: &[u8]) -> Result<SmallFault, OutOfMemory>
    ensures { IfOk result (λ f. f ≡ spec.error_of (spec.text_of bytes.now)) }
{
    match str::from_utf8(bytes) {
        Ok(text) => {
            let text = Text::from_str(alloc, text)?;
            Ok(SmallFault::error(alloc, text)?)
        },
        Err(_) => Ok(SmallFault {
            cause: Cause::Method,
        }),
    }
}
