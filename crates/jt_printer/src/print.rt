//! From a script to its text.

ghost use Rattle.std.specs.Prelude.{◌≡◌, ℕ, IfOk};
ghost use Rattle.jt_syntax.specs.View.{script_view};
ghost use Rattle.jt_grammar.specs.Printed.{script_kinds};
ghost use Rattle.jt_lexer.specs.Spelled.{spelled};
ghost use Rattle.jt_printer.specs.Again.{WasRead, ReadsAs};

use crate::memory::OutOfMemory;
use crate::script::kinds_of;
use crate::text::spell;
use jt_syntax::Script;
use std::alloc::Global;

/// A text of a script, in UTF-8: each token followed by one space, a semicolon behind each
/// statement, and no newline. Where the script was read from a text, the text that is printed
/// reads as the same script, but for its places.
///
/// # Errors
///
/// `OutOfMemory`, and no text.
pub fn print_script(alloc: Global, script: &Script) -> Result<Vec<u8>, OutOfMemory>
    ensures text { IfOk result (λ text. text.items ≡ spelled (script_kinds (script_view script.now))) }
    ensures again { IfOk result (λ text. (depth : ℕ) → WasRead depth (script_view script.now) → ReadsAs depth (script_view script.now) text.items) }
{
    let kinds = kinds_of(alloc, script)?;
    let text = spell(alloc, kinds.as_slice())?;
    Ok(text)
}
