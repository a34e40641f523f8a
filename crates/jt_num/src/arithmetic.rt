ghost use Rattle.std.specs.Prelude.{◌≡◌, ◌↔◌, ℤ, pos, ◌+ℤ◌, ◌-ℤ◌, ◌*ℤ◌};
ghost use Rattle.jt_num.specs.Wrapping.{wrapped, WrapsTo};

/// `a + b`, wrapped modulo 2^64.
pub fn add(a: i64, b: i64) -> i64
    ensures value { result ≡ wrapped (a +ℤ b) }
    ensures only { (r : ℤ) → WrapsTo (a +ℤ b) r ↔ (r ≡ result) }
{
    a.wrapping_add(b)
}

/// `a - b`, wrapped modulo 2^64.
pub fn sub(a: i64, b: i64) -> i64
    ensures value { result ≡ wrapped (a -ℤ b) }
    ensures only { (r : ℤ) → WrapsTo (a -ℤ b) r ↔ (r ≡ result) }
{
    a.wrapping_sub(b)
}

/// `a * b`, wrapped modulo 2^64.
pub fn mul(a: i64, b: i64) -> i64
    ensures value { result ≡ wrapped (a *ℤ b) }
    ensures only { (r : ℤ) → WrapsTo (a *ℤ b) r ↔ (r ≡ result) }
{
    a.wrapping_mul(b)
}

/// The number whose 64 bits are `word`: the word wrapped modulo 2^64.
pub fn wrap_word(word: u64) -> i64
    ensures value { result ≡ wrapped (pos word) }
    ensures only { (r : ℤ) → WrapsTo (pos word) r ↔ (r ≡ result) }
{
    word.cast_signed()
}
