//! The numbers of workers: `N` or `N,M`.

ghost use Rattle.std.specs.Prelude.{Some, ◌≡◌, IfOk, map, option_map};
ghost use Rattle.jt_words.specs.Values as spec;

use crate::fields::fields_of;
use crate::number::small_number;
use jt_base::Sizes;
use std::alloc::{AllocError, Global};

/// Both numbers of workers, where both are there.
fn sizes_with(default: Option<u32>, interactive: Option<u32>) -> Option<Sizes>
    ensures { result ≡ spec.sizes_with default interactive }
{
    match (default, interactive) {
        (Some(default), Some(interactive)) => Some(Sizes {
            default,
            interactive,
        }),
        _ => None,
    }
}

/// 1 to 64 default workers, and 0 to 16 interactive ones, none where the number is missing.
fn sizes_in(fields: &[&[u8]]) -> Option<Sizes>
    ensures { result ≡ spec.sizes_in (map (λ f. f.now) fields.now) }
{
    match fields {
        [default] => sizes_with(small_number(default, 1, 64), Some(0)),
        [default, interactive] => sizes_with(
            small_number(default, 1, 64),
            small_number(interactive, 0, 16),
        ),
        _ => None,
    }
}

/// The numbers of workers that are given, or one default worker where none are.
pub(crate) fn sizes_or_one(alloc: Global, given: Option<&str>) -> Result<Option<Sizes>, AllocError>
    ensures { IfOk result (λ r. r ≡ spec.or_default spec.one_worker spec.sizes_named (option_map (λ s. s.now) given.entry)) }
{
    match given {
        None => Ok(Some(Sizes {
            default: 1,
            interactive: 0,
        })),
        Some(text) => {
            let fields = fields_of(alloc, text.as_bytes(), b',')?;
            Ok(sizes_in(fields.as_slice()))
        }
    }
}
