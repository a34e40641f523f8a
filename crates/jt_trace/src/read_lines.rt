//! Reads the lines before the entries.

ghost use Rattle.std.specs.Prelude.{◌≡◌, ◌<◌, ◌≤◌, ◌^◌, option_map, length, take, IfSome};
ghost use Rattle.std.specs.Str.{all_ascii_digits};
ghost use Rattle.jt_trace_text.specs.Lines as lines;
ghost use Rattle.jt_trace_text.specs.TextReaders as spec;
ghost use Rattle.jt_trace.specs.Counts.{capped_digits, capped_count};

use crate::read_words::{cut, number, number_field};
use jt_base::{Seeds, Sizes};

const MOST_U64: u64 = 18_446_744_073_709_551_615;

/// The line of the format, of which there is one.
#[tactic(auto, unfolding(jt_trace_text::specs::TextReaders::format_at))]
pub(crate) fn format(text: &str) -> Option<(u64, &str)>
    ensures { option_map (λ x. (x.0, x.1.now)) result ≡ spec.format_at text.now }
{
    number_field(text.strip_prefix("julia-tasks trace ")?, '\n', 1, 1)
}

/// The numbers of workers.
#[tactic(auto, unfolding(jt_trace_text::specs::TextReaders::threads_at))]
pub(crate) fn threads(text: &str) -> Option<(Sizes, &str)>
    ensures { option_map (λ x. ((x.0.default, x.0.interactive), x.1.now)) result ≡ spec.threads_at text.now }
{
    let (default, rest) = number_field(text.strip_prefix("threads ")?, ',', 1, 64)?;
    let (interactive, rest) = number_field(rest, '\n', 0, 16)?;
    let sizes = Sizes {
        default: default as u32,
        interactive: interactive as u32,
    };
    Some((sizes, rest))
}

/// A seed word and the character behind it.
fn seed_word(text: &str, ending: char) -> Option<(u64, &str)>
    requires { ending < 128 }
    ensures { option_map (λ x. (x.0, x.1.now)) result ≡ spec.seed_word_at ending text.now }
{
    number_field(text, ending, 0, MOST_U64)
}

/// The five seed words.
#[tactic(auto, unfolding(jt_trace_text::specs::TextReaders::seed_at, jt_trace_text::specs::TextReaders::seed_words_at))]
pub(crate) fn seed(text: &str) -> Option<(Seeds, &str)>
    ensures { option_map (λ x. (x.0.words, x.1.now)) result ≡ spec.seed_at text.now }
{
    let (a, rest) = seed_word(text.strip_prefix("seed ")?, ',')?;
    let (b, rest) = seed_word(rest, ',')?;
    let (c, rest) = seed_word(rest, ',')?;
    let (d, rest) = seed_word(rest, ',')?;
    let (e, rest) = seed_word(rest, '\n')?;
    let seeds = Seeds {
        words: [a, b, c, d, e],
    };
    Some((seeds, rest))
}

/// The most turns of a task.
#[tactic(auto, unfolding(jt_trace_text::specs::TextReaders::turns_at))]
pub(crate) fn turns(text: &str) -> Option<(u64, &str)>
    ensures { option_map (λ x. (x.0, x.1.now)) result ≡ spec.turns_at text.now }
{
    number_field(text.strip_prefix("max-turns ")?, '\n', 1, 1_000_000_000)
}

/// The greatest stamp.
#[tactic(auto, unfolding(jt_trace_text::specs::TextReaders::events_at))]
pub(crate) fn events(text: &str) -> Option<(u32, &str)>
    ensures { option_map (λ x. (x.0, x.1.now)) result ≡ spec.events_at text.now }
{
    let (most, rest) = number_field(text.strip_prefix("max-events ")?, '\n', 1, 262_144)?;
    Some((most as u32, rest))
}

/// The number of the script's bytes.
#[tactic(auto, unfolding(jt_trace_text::specs::TextReaders::length_at))]
pub(crate) fn length(text: &str) -> Option<(usize, &str)>
    ensures { option_map (λ x. (x.0, x.1.now)) result ≡ spec.length_at text.now }
{
    let (length, rest) = number_field(text.strip_prefix("script ")?, '\n', 0, 1_048_576)?;
    Some((length as usize, rest))
}

/// So many bytes at the front, where they are a text with a newline behind it, and what follows.
#[tactic(auto, unfolding(jt_trace_text::specs::TextReaders::script_at))]
pub(crate) fn script(size: usize, text: &str) -> Option<(&str, &str)>
    ensures { option_map (λ x. (x.0.now, x.1.now)) result ≡ spec.script_at size text.now }
{
    let bytes = text.as_bytes();
    if size < bytes.len() && bytes[size] == b'\n' {
        Some((&text[..size], &text[size + 1..]))
    } else {
        None
    }
}

/// How many newlines there are.
fn newlines(bytes: &[u8]) -> u64
    ensures value { result ≡ lines.newlines bytes.now }
    ensures most { result ≤ length bytes.now }
{
    let mut count = 0;
    for byte in bytes {
        if *byte == b'\n' {
            count += 1;
        }
    }
    count
}

/// How many newlines there are within so many bytes at the front.
pub(crate) fn newlines_within(size: usize, text: &str) -> u64
    ensures value { result ≡ lines.newlines (take size text.now) }
    ensures most { result ≤ length text.now }
    ensures small { length text.now < 2 ^ 63 }
{
    let bytes = text.as_bytes();
    if size < bytes.len() {
        newlines(&bytes[..size])
    } else {
        newlines(bytes)
    }
}

fn are_digits(bytes: &[u8]) -> bool
    ensures { result ≡ all_ascii_digits bytes.now }
{
    for byte in bytes {
        if !byte.is_ascii_digit() {
            return false;
        }
    }
    true
}

/// Digits without leading zeros, of any length. A number that no 64 bits hold is the greatest one.
fn digits(word: &str) -> Option<u64>
    ensures { result ≡ capped_digits word.now }
{
    if let Some(n) = number(word, 0, MOST_U64) {
        return Some(n);
    }
    let bytes = word.as_bytes();
    if bytes.len() > 1 && bytes[0] != b'0' && are_digits(bytes) {
        Some(MOST_U64)
    } else {
        None
    }
}

/// The number of entries.
#[tactic(auto, unfolding(crate::specs::Counts::capped_count))]
pub(crate) fn count(text: &str) -> Option<(u64, &str)>
    ensures { option_map (λ x. (x.0, x.1.now)) result ≡ capped_count text.now }
{
    let (word, rest) = cut(text.strip_prefix("entries ")?, '\n')?;
    let count = digits(word)?;
    Some((count, rest))
}
