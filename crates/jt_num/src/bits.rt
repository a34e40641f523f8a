ghost use Rattle.std.specs.Prelude.{◌≡◌};
ghost use Rattle.jt_num.specs.Bits.{bits_and, bits_or, bits_xor, complement};

use crate::arithmetic::wrap_word;

/// The bits that are set in both, Julia's `&`.
pub fn and(a: i64, b: i64) -> i64
    ensures { result ≡ bits_and a b }
{
    wrap_word(a.cast_unsigned() & b.cast_unsigned())
}

/// The bits that are set in at least one, Julia's `|`.
pub fn or(a: i64, b: i64) -> i64
    ensures { result ≡ bits_or a b }
{
    wrap_word(a.cast_unsigned() | b.cast_unsigned())
}

/// The bits that are set in exactly one, Julia's `⊻`.
pub fn xor(a: i64, b: i64) -> i64
    ensures { result ≡ bits_xor a b }
{
    wrap_word(a.cast_unsigned() ^ b.cast_unsigned())
}

/// Each bit the other way, Julia's `~`: `-a - 1`.
pub fn complement(a: i64) -> i64
    ensures { result ≡ complement a }
{
    !a
}
