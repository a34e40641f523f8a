//! The generated script.

ghost use Rattle.std.specs.Prelude.{◌≡◌, ◌++◌, IfOk, OnOk, string_bytes};
ghost use Rattle.jt_gen.specs.Script as spec;

use crate::adding::{put, put_number};
use jt_base::{OutOfMemory, Text};
use jt_words::GenOptions;
use std::alloc::Global;

/// What stands before the number of producers.
const BEFORE_SIZE: &str = "\
function produce(c, total, k)
    for j in 1:1000
        put!(c, k)
        Threads.atomic_add!(total, 1)
    end
end
function sum_all(c)
    s = 0
    for x in c
        s = s + x
    end
    s
end
c = Channel{Int64}(32)
total = Threads.Atomic{Int64}(0)
reader = Threads.@spawn sum_all(c)
@sync for k in 1:";

/// What stands behind it.
const BEHIND_SIZE: &str = "
    Threads.@spawn produce(c, total, k)
end
close(c)
println(total[])
println(fetch(reader))
";

/// Adds the script.
fn put_script(out: &mut String, size: u32) -> Result<(), OutOfMemory>
    ensures { OnOk result (string_bytes out.new ≡ string_bytes out.old ++ spec.generated_script size) }
{
    put(out, BEFORE_SIZE)?;
    put_number(out, size)?;
    put(out, BEHIND_SIZE)
}

/// The generated script of a size, which is its number of producers: each puts 1,000 numbers.
///
/// # Errors
///
/// Want of memory.
pub fn generated_script(alloc: Global, options: GenOptions) -> Result<Text, OutOfMemory>
    ensures { IfOk result (λ text. text ≡ spec.generated_script options.size) }
{
    let mut text = String::new(alloc);
    put_script(&mut text, options.size)?;
    Ok(Text::from_string(text))
}
