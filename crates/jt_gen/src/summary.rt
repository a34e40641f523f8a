//! The line that tells the size.

ghost use Rattle.std.specs.Prelude.{◌≡◌, ◌++◌, IfOk, OnOk, string_bytes};
ghost use Rattle.jt_gen.specs.Script as spec;

use crate::adding::{put, put_number};
use jt_base::{OutOfMemory, Text};
use jt_words::GenOptions;
use std::alloc::Global;

/// Adds the line.
#[tactic(auto, unfolding(crate::specs::Script::size_line))]
fn put_size_line(out: &mut String, size: u32) -> Result<(), OutOfMemory>
    ensures { OnOk result (string_bytes out.new ≡ string_bytes out.old ++ spec.size_line size) }
{
    put(out, "size ")?;
    put_number(out, size)?;
    put(out, "\n")
}

/// The line that tells the size of the generated script, `size K`, with its newline.
///
/// # Errors
///
/// Want of memory.
pub fn size_line(alloc: Global, options: GenOptions) -> Result<Text, OutOfMemory>
    ensures { IfOk result (λ text. text ≡ spec.size_line options.size) }
{
    let mut text = String::new(alloc);
    put_size_line(&mut text, options.size)?;
    Ok(Text::from_string(text))
}
