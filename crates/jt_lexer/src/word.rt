//! Words.

ghost use Rattle.std.specs.Prelude.{◌≡◌, ◌<◌, ◌≤◌, ◌+◌, ◌-◌, length, map, take, drop, slice_index, true, IfOk, IfErr};
ghost use Rattle.std.specs.Str.{bytes_eq};
ghost use Rattle.jt_lexer.specs.Pieces as spec;

use crate::piece::{Defect, Piece, Shape, byte};
use crate::table::{OF_BASE, OF_THREADS, WORDS};
use jt_syntax::Sign;

fn word_len(z: &[u8]) -> usize
    ensures value { result ≡ spec.word_len z.now }
    ensures within { result ≤ length z.now }
    ensures moves { spec.continues_word (slice_index z.now 0) ≡ true → 1 ≤ result }
{
    for (at, b) in z.iter().enumerate() {
        if !(b.is_ascii_alphanumeric() || *b == b'_' || (*b == b'!' && byte(z, at + 1) != b'=')) {
            return at;
        }
    }
    z.len()
}

#[tactic(auto, unfolding(crate::specs::Pieces::whole_len))]
fn whole_len(z: &[u8]) -> usize
    ensures value { result ≡ spec.whole_len z.now }
    ensures within { result ≤ length z.now }
    ensures moves { spec.begins_word (slice_index z.now 0) ≡ true → 1 ≤ result }
{
    if byte(z, 0) == b'@' {
        1 + word_len(&z[1..])
    } else {
        word_len(z)
    }
}

fn is_listed(mut list: &[&[u8]], word: &[u8]) -> bool
    ensures { result ≡ spec.is_listed (map (λ w. w.now) list.entry.now) word.now }
{
    while let [first, rest @ ..] = list {
        if word == *first {
            return true;
        }
        list = rest;
    }
    false
}

fn begins_with_one(list: &[&[u8]], z: &[u8]) -> bool
    ensures { result ≡ spec.begins_with_one (map (λ w. w.now) list.now) z.now }
{
    is_listed(list, &z[..whole_len(z)])
}

#[tactic(auto, unfolding(crate::specs::Pieces::is_of_threads))]
fn is_of_threads(z: &[u8]) -> bool
    ensures { result ≡ spec.is_of_threads z.now }
{
    begins_with_one(&OF_THREADS, z)
}

#[tactic(auto, unfolding(crate::specs::Pieces::is_of_base))]
fn is_of_base(z: &[u8]) -> bool
    ensures { result ≡ spec.is_of_base z.now }
{
    begins_with_one(&OF_BASE, z)
}

#[tactic(auto, unfolding(crate::specs::Pieces::is_base_threads_word))]
fn is_base_threads_word(z: &[u8]) -> bool
    ensures value { result ≡ spec.is_base_threads_word z.now }
    ensures within { result ≡ true → 13 ≤ length z.now }
{
    z.starts_with(b"Base.Threads.") && is_of_threads(&z[13..])
}

#[tactic(auto, unfolding(crate::specs::Pieces::is_threads_word))]
fn is_threads_word(z: &[u8]) -> bool
    ensures value { result ≡ spec.is_threads_word z.now }
    ensures within { result ≡ true → 8 ≤ length z.now }
{
    z.starts_with(b"Threads.") && is_of_threads(&z[8..])
}

#[tactic(auto, unfolding(crate::specs::Pieces::is_base_word))]
fn is_base_word(z: &[u8]) -> bool
    ensures value { result ≡ spec.is_base_word z.now }
    ensures within { result ≡ true → 5 ≤ length z.now }
{
    z.starts_with(b"Base.") && is_of_base(&z[5..])
}

#[tactic(auto, unfolding(crate::specs::Pieces::prefix_len))]
fn prefix_len(z: &[u8]) -> usize
    ensures value { result ≡ spec.prefix_len z.now }
    ensures within { result ≤ length z.now }
{
    if is_base_threads_word(z) {
        13
    } else if is_threads_word(z) {
        8
    } else if is_base_word(z) {
        5
    } else {
        0
    }
}

#[tactic(auto, unfolding(crate::specs::Pieces::is_base_threads))]
fn is_base_threads(z: &[u8]) -> bool
    ensures value { result ≡ spec.is_base_threads z.now }
    ensures within { result ≡ true → 12 ≤ length z.now }
{
    z.starts_with(b"Base.Threads") && whole_len(&z[5..]) == 7 && byte(z, 12) != b'.'
}

fn lookup(mut table: &[(&[u8], Sign)], word: &[u8]) -> Option<Sign>
    ensures { result ≡ spec.lookup (map (λ w. (w.0.now, w.1)) table.entry.now) word.now }
{
    while let [entry, rest @ ..] = table {
        if word == entry.0 {
            return Some(entry.1);
        }
        table = rest;
    }
    None
}

#[tactic(auto, unfolding(crate::specs::Pieces::reserved))]
fn reserved(word: &[u8]) -> Option<Sign>
    ensures { result ≡ spec.reserved word.now }
{
    lookup(&WORDS, word)
}

/// The word at the front of a text that begins with a letter, `_` or `@`.
#[tactic(auto, unfolding(crate::specs::Pieces::word_at))]
pub(crate) fn word(z: &[u8]) -> Result<Piece, Defect>
    requires { spec.begins_word (slice_index z.now 0) ≡ true }
    ensures value { result ≡ spec.word_at z.now }
    ensures within { IfOk result (λ p. (1 ≤ p.1) × (p.1 ≤ length z.now)) }
    ensures refused { IfErr result (spec.DefectsWithin (length z.now)) }
    ensures shaped { IfOk result (λ p. spec.IsShapedWithin p.0 p.1) }
{
    if is_base_threads(z) {
        return Ok((Shape::Sign(Sign::BaseThreads), 12));
    }
    let start = prefix_len(z);
    let bare = &z[start..];
    let length = whole_len(bare);
    let end = start + length;
    let is_macro = byte(bare, 0) == b'@';
    match reserved(&bare[..length]) {
        Some(_) if is_macro && byte(z, end) == b'(' => Err(Defect::BadCharacter(end)),
        Some(sign) => Ok((Shape::Sign(sign), end)),
        None if is_macro => Err(Defect::BadCharacter(start)),
        None => Ok((Shape::Name(start), end)),
    }
}
