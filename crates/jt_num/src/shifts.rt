ghost use Rattle.std.specs.Prelude.{◌≡◌, ◌^◌, ℕ, ℤ, pos};
ghost use Rattle.jt_num.specs.Shifts.{shifted_up, shifted_down, shifted_down_unsigned, left_shift, right_shift, unsigned_right_shift, IsFloor};

fn up(a: i64, count: u64) -> i64
    ensures { result ≡ shifted_up a count }
{
    if count < 64 { a << count } else { 0 }
}

// Beyond 63 bits nothing but the sign is left.
fn down(a: i64, count: u64) -> i64
    ensures { result ≡ shifted_down a count }
{
    a >> count.min(63)
}

fn down_unsigned(a: i64, count: u64) -> i64
    ensures { result ≡ shifted_down_unsigned a count }
{
    if count < 64 {
        (a.cast_unsigned() >> count).cast_signed()
    } else {
        0
    }
}

/// `a * 2^b` wrapped modulo 2^64, Julia's `<<`; 0 at a count of 64 or more. A negative count shifts
/// as `shr` does by its magnitude.
pub fn shl(a: i64, b: i64) -> i64
    ensures { result ≡ left_shift a b }
{
    if b < 0 {
        down(a, b.unsigned_abs())
    } else {
        up(a, b as u64)
    }
}

/// `a / 2^b` rounded down, Julia's `>>`; 0 or -1 by the sign at a count of 64 or more. A negative
/// count shifts as `shl` does by its magnitude.
pub fn shr(a: i64, b: i64) -> i64
    ensures value { result ≡ right_shift a b }
    ensures floor { (n : ℕ) → b ≡ pos n → IsFloor a (2 ^ n) result }
{
    if b < 0 {
        up(a, b.unsigned_abs())
    } else {
        down(a, b as u64)
    }
}

/// The 64 bits of `a` moved down by `b`, with zeros moved in, Julia's `>>>`; 0 at a count of 64 or
/// more. A negative count shifts as `shl` does by its magnitude.
pub fn ushr(a: i64, b: i64) -> i64
    ensures { result ≡ unsigned_right_shift a b }
{
    if b < 0 {
        up(a, b.unsigned_abs())
    } else {
        down_unsigned(a, b as u64)
    }
}
