//! Reads a trace.

ghost use Rattle.std.specs.Prelude.{◌≡◌, ◌<◌, ◌≤◌, ◌+◌, ◌^◌, length, IfOk, IfErr, Ok};
ghost use Rattle.jt_trace_text.specs.Texts.{TraceValue, IsTraceText};
ghost use Rattle.jt_trace_text.specs.TextReaders as spec;
ghost use Rattle.jt_trace.specs.Reading.{Answers};
ghost use Rattle.jt_trace.specs.Views.{view, header_of, IsBad};

use crate::read_entries::entries;
use crate::read_lines::{
    count, events, format, length, newlines_within, script, seed, threads, turns,
};
use crate::trace::Trace;
use crate::unread::TraceError;
use jt_base::{Limits, Seeds, Sizes, Text};
use std::alloc::Global;

/// The line that tells how many entries there are, and the lines behind it.
fn from_count(
    alloc: Global,
    sizes: Sizes,
    seeds: Seeds,
    limits: Limits,
    script: &str,
    line: u64,
    text: &str,
) -> Result<Trace, TraceError>
    requires { line + length text.now < 2 ^ 64 }
    ensures { Answers view result (spec.read_count (header_of sizes seeds limits) script.now line text.now) }
{
    let Some((count, rest)) = count(text) else {
        return Err(TraceError::BadLine(line));
    };
    let entries = entries(alloc, limits.events, count, line + 1, rest)?;
    let Ok(script) = Text::from_str(alloc, script) else {
        return Err(TraceError::OutOfMemory);
    };
    Ok(Trace {
        sizes,
        seeds,
        limits,
        script,
        entries,
    })
}

/// The script and the lines behind it.
#[tactic(auto, unfolding(jt_trace_text::specs::TextReaders::read_script))]
fn from_script(
    alloc: Global,
    sizes: Sizes,
    seeds: Seeds,
    limits: Limits,
    size: usize,
    text: &str,
) -> Result<Trace, TraceError>
    ensures { Answers view result (spec.read_script (header_of sizes seeds limits) size text.now) }
{
    let newlines = newlines_within(size, text);
    match script(size, text) {
        Some((script, rest)) => {
            from_count(alloc, sizes, seeds, limits, script, 8 + newlines, rest)
        }
        None => Err(TraceError::BadLine(7 + newlines)),
    }
}

/// The line of the script's length, and the lines behind it.
#[tactic(auto, unfolding(jt_trace_text::specs::TextReaders::read_length))]
fn from_length(
    alloc: Global,
    sizes: Sizes,
    seeds: Seeds,
    limits: Limits,
    text: &str,
) -> Result<Trace, TraceError>
    ensures { Answers view result (spec.read_length (header_of sizes seeds limits) text.now) }
{
    match length(text) {
        Some((size, rest)) => from_script(alloc, sizes, seeds, limits, size, rest),
        None => Err(TraceError::BadLine(6)),
    }
}

/// The line of the greatest stamp, and the lines behind it.
#[tactic(auto, unfolding(jt_trace_text::specs::TextReaders::read_events))]
fn from_events(
    alloc: Global,
    sizes: Sizes,
    seeds: Seeds,
    turns: u64,
    text: &str,
) -> Result<Trace, TraceError>
    ensures { Answers view result (spec.read_events (sizes.default, sizes.interactive) seeds.words turns text.now) }
{
    match events(text) {
        Some((events, rest)) => from_length(alloc, sizes, seeds, Limits { turns, events }, rest),
        None => Err(TraceError::BadLine(5)),
    }
}

/// The line of the most turns, and the lines behind it.
#[tactic(auto, unfolding(jt_trace_text::specs::TextReaders::read_turns))]
fn from_turns(alloc: Global, sizes: Sizes, seeds: Seeds, text: &str) -> Result<Trace, TraceError>
    ensures { Answers view result (spec.read_turns (sizes.default, sizes.interactive) seeds.words text.now) }
{
    match turns(text) {
        Some((turns, rest)) => from_events(alloc, sizes, seeds, turns, rest),
        None => Err(TraceError::BadLine(4)),
    }
}

/// The line of the seed words, and the lines behind it.
#[tactic(auto, unfolding(jt_trace_text::specs::TextReaders::read_seed))]
fn from_seed(alloc: Global, sizes: Sizes, text: &str) -> Result<Trace, TraceError>
    ensures { Answers view result (spec.read_seed (sizes.default, sizes.interactive) text.now) }
{
    match seed(text) {
        Some((seeds, rest)) => from_turns(alloc, sizes, seeds, rest),
        None => Err(TraceError::BadLine(3)),
    }
}

/// The line of the numbers of workers, and the lines behind it.
#[tactic(auto, unfolding(jt_trace_text::specs::TextReaders::read_threads))]
fn from_threads(alloc: Global, text: &str) -> Result<Trace, TraceError>
    ensures { Answers view result (spec.read_threads text.now) }
{
    match threads(text) {
        Some((sizes, rest)) => from_seed(alloc, sizes, rest),
        None => Err(TraceError::BadLine(2)),
    }
}

/// All lines.
#[tactic(auto, unfolding(jt_trace_text::specs::TextReaders::read_text))]
fn from_format(alloc: Global, text: &str) -> Result<Trace, TraceError>
    ensures { Answers view result (spec.read_text text.now) }
{
    match format(text) {
        Some((_, rest)) => from_threads(alloc, rest),
        None => Err(TraceError::BadLine(1)),
    }
}

/// The trace whose text this is.
///
/// # Errors
///
/// The first line that isn't one of a trace's text, or want of memory.
pub fn read_trace(alloc: Global, text: &str) -> Result<Trace, TraceError>
    ensures found { IfOk result (λ trace. IsTraceText (view trace) text.now) }
    ensures only { (t : TraceValue) → IsTraceText t text.now → Answers view result (Ok t) }
    ensures bad { IfErr result (IsBad text.now) }
{
    from_format(alloc, text)
}
