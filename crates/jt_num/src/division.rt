ghost use Rattle.std.specs.Prelude.{◌≡◌, ◌↔◌, ◌⊎◌, ◌^◌, ℤ, pos, neg_ℤ, IfOk};
ghost use Rattle.jt_num.specs.Division.{quotient, remainder, modulus, IsQuotient, IsRemainder, IsModulus};

use crate::NumFault;

/// `a / b` truncated towards zero, Julia's `div` and `÷`.
///
/// `Divide` comes where `b` is 0, and at the least value by -1, whose quotient is 2^63.
pub fn div(a: i64, b: i64) -> Result<i64, NumFault>
    ensures value { result ≡ quotient a b }
    ensures divide { (result ≡ Err NumFault.Divide) ↔ ((b ≡ pos 0) ⊎ ((a ≡ neg_ℤ (pos (2 ^ 63))) × (b ≡ neg_ℤ (pos 1)))) }
    ensures law { IfOk result (IsQuotient a b) }
{
    a.checked_div(b).ok_or(NumFault::Divide)
}

/// The remainder of `a` by `b` with the sign of `a`, Julia's `rem` and `%`.
///
/// `Divide` comes where `b` is 0.
pub fn rem(a: i64, b: i64) -> Result<i64, NumFault>
    ensures value { result ≡ remainder a b }
    ensures divide { (result ≡ Err NumFault.Divide) ↔ (b ≡ pos 0) }
    ensures law { IfOk result (IsRemainder a b) }
{
    if b == 0 {
        return Err(NumFault::Divide);
    }
    Ok(a.wrapping_rem(b))
}

/// The remainder of `a` by `b` with the sign of `b`, Julia's `mod`.
///
/// `Divide` comes where `b` is 0.
pub fn mod_(a: i64, b: i64) -> Result<i64, NumFault>
    ensures value { result ≡ modulus a b }
    ensures divide { (result ≡ Err NumFault.Divide) ↔ (b ≡ pos 0) }
    ensures law { IfOk result (IsModulus a b) }
{
    if b == 0 {
        return Err(NumFault::Divide);
    }
    let rest = a.wrapping_rem(b);
    if rest != 0 && (rest < 0) != (b < 0) {
        Ok(rest + b)
    } else {
        Ok(rest)
    }
}
