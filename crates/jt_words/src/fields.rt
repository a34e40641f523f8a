//! Texts that stand between separators.

ghost use Rattle.std.specs.Prelude.{◌≡◌, IfOk, map};
ghost use Rattle.jt_words.specs.Values as spec;

use std::alloc::{AllocError, Global};

/// The texts between the separators.
pub(crate) fn fields_of<'a>(
    alloc: Global,
    text: &'a [u8],
    separator: u8,
) -> Result<Vec<&'a [u8]>, AllocError>
    ensures { IfOk result (λ v. map (λ f. f.now) v.items ≡ spec.fields separator text.entry.now) }
{
    text.split(|byte| *byte == separator).collect(alloc)
}
