//! Numbers.

ghost use Rattle.std.specs.Prelude.{◌≡◌, ◌<◌, ◌≤◌, ◌+◌, ◌^◌, length, slice_index, IfOk, IfErr, MatchOption, true};
ghost use Rattle.std.specs.Char.{is_ascii_digit};
ghost use Rattle.jt_lexer.specs.Pieces as spec;
ghost use Rattle.jt_lexer.specs.declared.piece.Defect.TheVariants as defect;

use crate::piece::{Defect, Piece, Shape, byte};

/// The largest number that may be written.
const LARGEST: u64 = 9_223_372_036_854_775_807;

/// The value with one more digit, where that is no larger than the largest.
fn with_digit(value: u64, digit: u8) -> Option<u64>
    requires { is_ascii_digit digit ≡ true }
    ensures { MatchOption result (2 ^ 63 ≤ spec.with_digit value digit) (λ v. (v ≡ spec.with_digit value digit) × (v < 2 ^ 63)) }
{
    let next = value.checked_mul(10)?.checked_add(u64::from(digit - b'0'))?;
    if next <= LARGEST { Some(next) } else { None }
}

/// The number at the front of a text that begins with a digit.
pub(crate) fn number(z: &[u8]) -> Result<Piece, Defect>
    requires { is_ascii_digit (slice_index z.now 0) ≡ true }
    ensures value { result ≡ spec.number_from 0 0 z.now }
    ensures within { IfOk result (λ p. (1 ≤ p.1) × (p.1 ≤ length z.now)) }
    ensures refused { IfErr result (λ f. f ≡ defect.NumberTooLarge) }
    ensures shaped { IfOk result (λ p. spec.IsShapedWithin p.0 p.1) }
{
    let mut value: u64 = 0;
    for (at, b) in z.iter().enumerate() {
        if b.is_ascii_digit() {
            let Some(next) = with_digit(value, *b) else {
                return Err(Defect::NumberTooLarge);
            };
            value = next;
        } else if !(*b == b'_' && byte(z, at + 1).is_ascii_digit()) {
            return Ok((Shape::Number(value), at));
        }
    }
    Ok((Shape::Number(value), z.len()))
}
