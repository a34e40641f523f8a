//! The seed words: `A,B,C,D,E`.

ghost use Rattle.std.specs.Prelude.{Some, ◌≡◌, IfOk, map, option_map};
ghost use Rattle.jt_words.specs.Values as spec;

use crate::fields::fields_of;
use crate::number::number;
use std::alloc::{AllocError, Global};

/// A word of a seed.
fn seed_word(text: &[u8]) -> Option<u64>
    ensures { result ≡ spec.seed_word text.now }
{
    number(text, 0, u64::MAX)
}

/// Five words, where each is there.
fn five(
    a: Option<u64>,
    b: Option<u64>,
    c: Option<u64>,
    d: Option<u64>,
    e: Option<u64>,
) -> Option<[u64; 5]>
    ensures { result ≡ spec.five a b c d e }
{
    Some([a?, b?, c?, d?, e?])
}

/// The words that five texts are.
fn seed_in(fields: &[&[u8]]) -> Option<[u64; 5]>
    ensures { result ≡ spec.seed_in (map (λ f. f.now) fields.now) }
{
    match fields {
        [a, b, c, d, e] => five(
            seed_word(a),
            seed_word(b),
            seed_word(c),
            seed_word(d),
            seed_word(e),
        ),
        _ => None,
    }
}

/// The words of the seed that is given, or 1 to 5 where none is.
pub(crate) fn seed_or_default(
    alloc: Global,
    given: Option<&str>,
) -> Result<Option<[u64; 5]>, AllocError>
    ensures { IfOk result (λ r. r ≡ spec.or_default spec.default_seed spec.seed_named (option_map (λ s. s.now) given.entry)) }
{
    match given {
        None => Ok(Some([1, 2, 3, 4, 5])),
        Some(text) => {
            let fields = fields_of(alloc, text.as_bytes(), b',')?;
            Ok(seed_in(fields.as_slice()))
        }
    }
}
