ghost use Rattle.std.specs.Prelude.{◌≡◌, ◌≢◌, ◌↔◌, ℤ, pos, neg_ℤ, ◌<ℤ◌};
ghost use Rattle.jt_num.specs.Powers.{power, raised};
ghost use Rattle.jt_num.specs.Wrapping.{wrapped};

use crate::NumFault;

// By squaring: one round for each binary digit of the exponent.
fn wrapping_power(a: i64, exponent: u64) -> i64
    ensures { result ≡ wrapped (raised a exponent) }
{
    let mut product: i64 = 1;
    let mut base = a;
    let mut left = exponent;
    while 0 < left {
        if left % 2 == 1 {
            product = product.wrapping_mul(base);
        }
        base = base.wrapping_mul(base);
        left /= 2;
    }
    product
}

/// `a` to the power `b`, wrapped modulo 2^64, Julia's `^`. A negative exponent gives 1 at base 1,
/// and at base -1 what the exponent's parity says: 1 where it is even, else -1.
///
/// `Domain` comes where the exponent is negative and the base another.
pub fn pow(a: i64, b: i64) -> Result<i64, NumFault>
    ensures value { result ≡ power a b }
    ensures domain { (result ≡ Err NumFault.Domain) ↔ ((b <ℤ pos 0) × (a ≢ pos 1) × (a ≢ neg_ℤ (pos 1))) }
{
    if 0 <= b {
        Ok(wrapping_power(a, b as u64))
    } else if a == 1 {
        Ok(1)
    } else if a == -1 {
        Ok(if b % 2 == 0 { 1 } else { -1 })
    } else {
        Err(NumFault::Domain)
    }
}
