//! Draws, a line each.

ghost use Rattle.std.specs.Prelude.{◌≡◌, ◌++◌, ◌∷◌, [], IfOk, OnOk, decimal, string_bytes};
ghost use Rattle.jt_draws.specs.Draws.{draws_text, first_draws, fork_path, number_lines};

use crate::stream::stream_of;
use itoa::Buffer;
use jt_base::{OutOfMemory, Seeds, Text};
use jt_words::{Ancestor, DrawsOptions};
use std::alloc::Global;

/// Adds a line with this number.
fn put_line(out: &mut String, number: u64) -> Result<(), OutOfMemory>
    ensures { OnOk result (string_bytes out.new ≡ string_bytes out.old ++ (decimal number ++ 10 ∷ [])) }
{
    let mut digits = Buffer::new();
    out.push_str(digits.format(number))?;
    out.push('\n')?;
    Ok(())
}

/// Adds a line for each of the first draws of the task with these ancestors.
fn put_draws(
    out: &mut String,
    seeds: Seeds,
    ancestors: &[Ancestor],
    count: u32,
) -> Result<(), OutOfMemory>
    ensures { OnOk result (string_bytes out.new ≡ string_bytes out.old ++ number_lines (first_draws seeds.words (fork_path ancestors.now) count)) }
{
    let mut stream = stream_of(seeds, ancestors);
    for _draw in 0..count {
        put_line(out, stream.draw())?;
    }
    Ok(())
}

/// The text that `draws` writes: the first draws of a task's random stream, each a decimal number with
/// a newline behind it. Which task it is, its ancestors say; without any it is the main task.
///
/// # Errors
///
/// Want of memory.
#[tactic(auto, unfolding(crate::specs::Draws::draws_text))]
pub fn draws(alloc: Global, options: &DrawsOptions) -> Result<Text, OutOfMemory>
    ensures { IfOk result (λ text. text ≡ draws_text options.now) }
{
    let mut text = String::new(alloc);
    put_draws(
        &mut text,
        options.seeds,
        options.ancestry.ancestors(),
        options.count,
    )?;
    Ok(Text::from_string(text))
}
