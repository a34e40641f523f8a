//! Writes a trace.

ghost use Rattle.std.specs.Prelude.{◌≡◌, ◌++◌, ◌∷◌, [], OnOk, IfOk, string_bytes, codes};
ghost use Rattle.jt_trace.specs.Views.{view};
ghost use Rattle.jt_trace_text.specs.Texts.{HasText, IsTraceText};
ghost use Rattle.jt_trace_text.specs.Written as spec;

use crate::trace::Trace;
use crate::write_entries::entries;
use crate::write_words::{number, put};
use jt_base::{Limits, OutOfMemory, Seeds, Sizes, Text};
use std::alloc::Global;

/// The number of the format.
const FORMAT: u64 = 1;

/// A number, and a comma behind it.
fn comma(out: &mut String, n: u64) -> Result<(), OutOfMemory>
    ensures { OnOk result (string_bytes out.new ≡ string_bytes out.old ++ spec.ended 44 n) }
{
    number(out, n)?;
    put(out, ",")
}

/// A number, and a newline behind it.
fn last(out: &mut String, n: u64) -> Result<(), OutOfMemory>
    ensures { OnOk result (string_bytes out.new ≡ string_bytes out.old ++ spec.ended 10 n) }
{
    number(out, n)?;
    put(out, "\n")
}

/// A line of a word and a number.
fn numbered(out: &mut String, word: &str, n: u64) -> Result<(), OutOfMemory>
    ensures { OnOk result (string_bytes out.new ≡ string_bytes out.old ++ spec.numbered word.now n) }
{
    put(out, word)?;
    last(out, n)
}

fn threads(out: &mut String, sizes: Sizes) -> Result<(), OutOfMemory>
    ensures { OnOk result (string_bytes out.new ≡ string_bytes out.old ++ spec.threads_text sizes) }
{
    put(out, "threads ")?;
    comma(out, sizes.default as u64)?;
    last(out, sizes.interactive as u64)
}

fn seed(out: &mut String, seeds: Seeds) -> Result<(), OutOfMemory>
    ensures { OnOk result (string_bytes out.new ≡ string_bytes out.old ++ spec.seed_text seeds.words) }
{
    let [a, b, c, d, e] = seeds.words;
    put(out, "seed ")?;
    comma(out, a)?;
    comma(out, b)?;
    comma(out, c)?;
    comma(out, d)?;
    last(out, e)
}

fn limits(out: &mut String, limits: Limits) -> Result<(), OutOfMemory>
    ensures { OnOk result (string_bytes out.new ≡ string_bytes out.old ++ spec.limits_text limits) }
{
    numbered(out, "max-turns ", limits.turns)?;
    numbered(out, "max-events ", limits.events as u64)
}

/// The lines before the script.
fn header(out: &mut String, trace: &Trace) -> Result<(), OutOfMemory>
    ensures { OnOk result (string_bytes out.new ≡ string_bytes out.old ++ spec.header_text (view trace.now)) }
{
    numbered(out, "julia-tasks trace ", FORMAT)?;
    threads(out, trace.sizes)?;
    seed(out, trace.seeds)?;
    limits(out, trace.limits)
}

fn script(out: &mut String, script: &Text) -> Result<(), OutOfMemory>
    ensures { OnOk result (string_bytes out.new ≡ string_bytes out.old ++ spec.script_text script.now) }
{
    numbered(out, "script ", script.bytes().len() as u64)?;
    put(out, script.as_str())?;
    put(out, "\n")
}

fn text_of(alloc: Global, trace: &Trace) -> Result<String, OutOfMemory>
    ensures { IfOk result (λ text. string_bytes text ≡ spec.trace_text (view trace.now)) }
{
    let mut text = String::new(alloc);
    header(&mut text, trace)?;
    script(&mut text, &trace.script)?;
    numbered(&mut text, "entries ", trace.entries.len() as u64)?;
    entries(alloc, &mut text, trace.entries.as_slice())?;
    Ok(text)
}

/// The text of a trace, line by line. Where the trace has a text in the format, this is the one.
///
/// # Errors
///
/// Want of memory.
pub fn write_trace(alloc: Global, trace: &Trace) -> Result<Text, OutOfMemory>
    ensures spelled { IfOk result (λ text. text ≡ spec.trace_text (view trace.now)) }
    ensures text { IfOk result (λ text. HasText (view trace.now) → IsTraceText (view trace.now) text) }
{
    let text = text_of(alloc, trace)?;
    Ok(Text::from_string(text))
}
