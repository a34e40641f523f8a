//! Comparisons of two values.

ghost use Rattle.std.specs.Prelude.{◌≡◌, int_lt, int_le};
ghost use Rattle.jt_meaning.specs.Values as spec;

use crate::small::{Form, SmallValue};
use jt_syntax::ComparisonOperator;

/// Whether a comparison holds between two values; nothing where they can't be compared so.
pub(crate) fn compare(
    operator: ComparisonOperator,
    left: &SmallValue,
    right: &SmallValue,
) -> Option<bool>
    ensures { result ≡ spec.compared_by operator left.now right.now }
{
    match operator {
        ComparisonOperator::Equal => equal(left, right),
        ComparisonOperator::NotEqual => opposite(equal(left, right)),
        ComparisonOperator::Less => less(left, right),
        ComparisonOperator::LessEqual => less_equal(left, right),
        ComparisonOperator::Greater => less(right, left),
        ComparisonOperator::GreaterEqual => less_equal(right, left),
    }
}

// Whether two values are equal: whole numbers, truth values, or `nothing` and any value.
fn equal(left: &SmallValue, right: &SmallValue) -> Option<bool>
    ensures { result ≡ spec.equal left.now right.now }
{
    match &left.form {
        Form::Int(a) => match &right.form {
            Form::Int(b) => Some(*a == *b),
            Form::Nothing => Some(false),
            _ => None,
        },
        Form::Flag(a) => match &right.form {
            Form::Flag(b) => Some(*a == *b),
            Form::Nothing => Some(false),
            _ => None,
        },
        Form::Nothing => Some(matches!(&right.form, Form::Nothing)),
        _ => match &right.form {
            Form::Nothing => Some(false),
            _ => None,
        },
    }
}

fn opposite(answer: Option<bool>) -> Option<bool>
    ensures { result ≡ spec.opposite answer }
{
    match answer {
        Some(flag) => Some(!flag),
        None => None,
    }
}

// Whether one number is less than the other.
fn less(left: &SmallValue, right: &SmallValue) -> Option<bool>
    ensures { result ≡ spec.ordered (λ a b. int_lt a b) left.now right.now }
{
    match &left.form {
        Form::Int(a) => match &right.form {
            Form::Int(b) => Some(*a < *b),
            _ => None,
        },
        _ => None,
    }
}

// Whether one number is at most the other.
fn less_equal(left: &SmallValue, right: &SmallValue) -> Option<bool>
    ensures { result ≡ spec.ordered (λ a b. int_le a b) left.now right.now }
{
    match &left.form {
        Form::Int(a) => match &right.form {
            Form::Int(b) => Some(*a <= *b),
            _ => None,
        },
        _ => None,
    }
}
