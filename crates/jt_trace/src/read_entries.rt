//! Reads entries, a line each.

ghost use Rattle.std.specs.Prelude.{◌≡◌, ◌<◌, ◌≤◌, ◌+◌, ◌^◌, option_map, length, Some};
ghost use Rattle.jt_trace_text.specs.WordReaders as words;
ghost use Rattle.jt_trace_text.specs.Entries as form;
ghost use Rattle.jt_trace_text.specs.EntryReaders as spec;
ghost use Rattle.jt_trace_text.specs.TextReaders.{read_entries};
ghost use Rattle.jt_trace.specs.Reading.{Gives, Answers};

use crate::read_operations::operation;
use crate::read_words::{MOST_U32, cut, flag, int, number_field, path_field, value};
use crate::unread::{TraceError, Unread};
use jt_base::{Entry, Op, Path, Reply};
use std::alloc::Global;

fn is_fetch(op: &Op) -> bool
    ensures { result ≡ form.is_fetch op.now }
{
    match op {
        Op::Fetch(_) => true,
        _ => false,
    }
}

/// A reply without a value.
#[tactic(auto, unfolding(jt_trace_text::specs::EntryReaders::plain_reply_of))]
fn plain_reply(word: &str) -> Option<Reply>
    ensures { result ≡ spec.plain_reply_of word.now }
{
    if word == "ok" {
        Some(Reply::Ok)
    } else if word == "failed" {
        Some(Reply::Failed)
    } else if word == "closed" {
        Some(Reply::Closed)
    } else if word == "none" {
        Some(Reply::NoItem)
    } else if word == "notlocked" {
        Some(Reply::NotLocked)
    } else if word == "notowner" {
        Some(Reply::NotOwner)
    } else if word == "notheld" {
        Some(Reply::NotHeld)
    } else {
        None
    }
}

/// A truth value or a number.
fn flag_or_int(word: &str) -> Option<Reply>
    ensures { result ≡ spec.flag_or_int (words.flag_of word.now) word.now }
{
    match flag(word) {
        Some(truth) => Some(Reply::Flag(truth)),
        None => Some(Reply::Int(int(word)?)),
    }
}

/// A reply, of a fetch or of another operation.
#[tactic(auto, unfolding(jt_trace_text::specs::EntryReaders::reply_of))]
fn reply(fetch: bool, word: &str) -> Option<Reply>
    ensures { result ≡ spec.reply_of fetch word.now }
{
    if let Some(reply) = plain_reply(word) {
        return Some(reply);
    }
    if fetch {
        Some(Reply::Val(value(word)?))
    } else {
        flag_or_int(word)
    }
}

/// A reply behind its sign, and its newline.
#[tactic(auto, unfolding(jt_trace_text::specs::EntryReaders::reply_at))]
fn reply_field(fetch: bool, text: &str) -> Option<(Reply, &str)>
    ensures { option_map (λ x. (x.0, x.1.now)) result ≡ spec.reply_at fetch text.now }
{
    let rest = text.strip_prefix("= ")?;
    let (word, rest) = cut(rest, '\n')?;
    let value = reply(fetch, word)?;
    Some((value, rest))
}

/// An entry with a stamp of at most `most`, and its newline.
#[tactic(auto, unfolding(jt_trace_text::specs::EntryReaders::entry_at))]
fn entry(alloc: Global, most: u32, text: &str) -> Result<(Entry, &str), Unread>
    ensures { Gives (λ x. (x.0, x.1.now)) result (spec.entry_at most text.now) }
{
    let Some((stamp, rest)) = number_field(text, ' ', 1, most as u64) else {
        return Err(Unread::Malformed);
    };
    let Some((worker, rest)) = number_field(rest, ' ', 0, MOST_U32) else {
        return Err(Unread::Malformed);
    };
    let Some((task, rest)) = path_field(rest, ' ') else {
        return Err(Unread::Malformed);
    };
    let (op, rest) = operation(alloc, rest)?;
    let Some((reply, rest)) = reply_field(is_fetch(&op), rest) else {
        return Err(Unread::Malformed);
    };
    let entry = Entry {
        stamp: stamp as u32,
        worker: worker as u32,
        task,
        op,
        reply,
    };
    Ok((entry, rest))
}

/// The entries that are left to the end of the text, which begins with this line.
pub(crate) fn entries(
    alloc: Global,
    most: u32,
    count: u64,
    line: u64,
    text: &str,
) -> Result<Vec<Entry>, TraceError>
    requires { line + length text.now < 2 ^ 64 }
    ensures { Answers (λ v. v.items) result (read_entries most count line text.now) }
{
    let mut entries = Vec::new(alloc);
    let mut rest = text;
    let mut at = line;
    for _ in 0..count {
        match entry(alloc, most, rest) {
            Ok((entry, after)) => {
                if entries.push(entry).is_err() {
                    return Err(TraceError::OutOfMemory);
                }
                rest = after;
                at += 1;
            }
            Err(Unread::Malformed) => return Err(TraceError::BadLine(at)),
            Err(Unread::Memory) => return Err(TraceError::OutOfMemory),
        }
    }
    if rest.is_empty() {
        Ok(entries)
    } else {
        Err(TraceError::BadLine(at))
    }
}
