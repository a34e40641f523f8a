//! What stands at the front of a text.

ghost use Rattle.std.specs.Prelude.{◌≡◌, ◌≢◌, ◌<◌, ◌≤◌, ◌+◌, ◌-◌, ◌^◌, length, map, slice_index, IfOk, IfErr, IfSome, false, true};
ghost use Rattle.jt_lexer.specs.Pieces as spec;

use crate::number::number;
use crate::quoted::string;
use crate::table::SIGNS;
use crate::word::word;
use jt_syntax::Sign;

/// What a piece of a text is.
#[derive(Clone, Copy, Debug)]
pub(crate) enum Shape {
    /// A blank or a comment, which is no token.
    Blank,
    /// A number of this value.
    Number(u64),
    /// A name that begins behind a prefix of this length.
    Name(usize),
    /// A string with its quotes.
    Text,
    Sign(Sign),
}

/// Why no piece stands at the front of a text.
#[derive(Clone, Copy, Debug)]
pub(crate) enum Defect {
    /// The character at this place, counted from the front, is the first bad one.
    BadCharacter(usize),
    OpenString,
    NumberTooLarge,
}

/// A piece and its length in bytes.
pub(crate) type Piece = (Shape, usize);

/// The byte at a place, or 0 past the end.
pub(crate) fn byte(z: &[u8], at: usize) -> u8
    ensures value { result ≡ slice_index z.now at }
    ensures within { result ≢ 0 → at < length z.now }
{
    if at < z.len() { z[at] } else { 0 }
}

fn is_blank(z: &[u8]) -> bool
    ensures value { result ≡ spec.is_blank z.now }
{
    let b = byte(z, 0);
    b == b' ' || b == b'\t' || (b == b'\r' && byte(z, 1) == b'\n')
}

fn line_len(z: &[u8]) -> usize
    ensures value { result ≡ spec.line_len z.now }
    ensures within { result ≤ length z.now }
{
    for (at, b) in z.iter().enumerate() {
        if *b == b'\n' {
            return at;
        }
    }
    z.len()
}

/// These bytes open a comment.
fn opens(b: u8, next: u8) -> bool
    ensures { result ≡ spec.opens_comment b next }
{
    b == b'#' && next == b'='
}

/// These bytes close a comment.
fn closes(b: u8, next: u8) -> bool
    ensures { result ≡ spec.closes_comment b next }
{
    b == b'=' && next == b'#'
}

fn comment_end(z: &[u8]) -> Option<usize>
    requires { length z.now < 2 ^ 62 }
    ensures value { result ≡ spec.comment_end 0 false 2 z.now }
    ensures within { IfSome result (λ end. (2 ≤ end) × (end ≤ length z.now + 2)) }
{
    let mut outer: usize = 0;
    let mut in_mark = false;
    let mut end = 2;
    for (at, b) in z.iter().enumerate() {
        if in_mark {
            in_mark = false;
        } else if opens(*b, byte(z, at + 1)) {
            outer += 1;
            in_mark = true;
        } else if closes(*b, byte(z, at + 1)) {
            if outer == 0 {
                return Some(end + 2);
            }
            outer -= 1;
            in_mark = true;
        }
        end += 1;
    }
    None
}

#[tactic(auto, unfolding(crate::specs::Pieces::comment))]
fn comment(z: &[u8]) -> Result<Piece, Defect>
    requires short { length z.now < 2 ^ 62 }
    requires begins { slice_index z.now 0 ≡ 35 }
    ensures value { result ≡ spec.comment z.now }
    ensures within { IfOk result (λ p. (1 ≤ p.1) × (p.1 ≤ length z.now)) }
    ensures refused { IfErr result (spec.DefectsWithin (length z.now)) }
    ensures shaped { IfOk result (λ p. spec.IsShapedWithin p.0 p.1) }
{
    if byte(z, 1) == b'=' {
        match comment_end(&z[2..]) {
            None => Err(Defect::OpenString),
            Some(end) => Ok((Shape::Blank, end)),
        }
    } else {
        Ok((Shape::Blank, line_len(z)))
    }
}

fn first_sign(mut table: &[(&[u8], Sign)], z: &[u8]) -> Result<Piece, Defect>
    requires { spec.all_spelled (map (λ s. (s.0.now, s.1)) table.now) ≡ true }
    ensures value { result ≡ spec.first_sign (map (λ s. (s.0.now, s.1)) table.entry.now) z.now }
    ensures within { IfOk result (λ p. (1 ≤ p.1) × (p.1 ≤ length z.now)) }
    ensures refused { IfErr result (spec.DefectsWithin (length z.now)) }
    ensures shaped { IfOk result (λ p. spec.IsShapedWithin p.0 p.1) }
{
    while let [entry, rest @ ..] = table {
        if z.starts_with(entry.0) {
            return Ok((Shape::Sign(entry.1), entry.0.len()));
        }
        table = rest;
    }
    Err(Defect::BadCharacter(0))
}

#[tactic(auto, unfolding(crate::specs::Pieces::sign_at))]
fn sign_at(z: &[u8]) -> Result<Piece, Defect>
    ensures value { result ≡ spec.sign_at z.now }
    ensures within { IfOk result (λ p. (1 ≤ p.1) × (p.1 ≤ length z.now)) }
    ensures refused { IfErr result (spec.DefectsWithin (length z.now)) }
    ensures shaped { IfOk result (λ p. spec.IsShapedWithin p.0 p.1) }
{
    first_sign(&SIGNS, z)
}

fn begins_word(b: u8) -> bool
    ensures { result ≡ spec.begins_word b }
{
    b.is_ascii_alphabetic() || b == b'_' || b == b'@'
}

/// The piece at the front of a text that isn't empty, the longest that there is.
#[tactic(auto, unfolding(crate::specs::Pieces::piece))]
pub(crate) fn piece(z: &[u8]) -> Result<Piece, Defect>
    requires short { length z.now < 2 ^ 62 }
    requires more { 0 < length z.now }
    ensures value { result ≡ spec.piece z.now }
    ensures within { IfOk result (λ p. (1 ≤ p.1) × (p.1 ≤ length z.now)) }
    ensures refused { IfErr result (spec.DefectsWithin (length z.now)) }
    ensures shaped { IfOk result (λ p. spec.IsShapedWithin p.0 p.1) }
{
    let b = byte(z, 0);
    if is_blank(z) {
        Ok((Shape::Blank, 1))
    } else if b == b'#' {
        comment(z)
    } else if b.is_ascii_digit() {
        number(z)
    } else if b == b'"' {
        string(z)
    } else if begins_word(b) {
        word(z)
    } else {
        sign_at(z)
    }
}
