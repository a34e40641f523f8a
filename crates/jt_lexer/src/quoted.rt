//! Strings.

ghost use Rattle.std.specs.Prelude.{◌≡◌, ◌<◌, ◌≤◌, ◌+◌, ◌-◌, ◌^◌, drop, length, slice_index, false, IfOk, IfErr};
ghost use Rattle.jt_lexer.specs.Pieces as spec;
ghost use Rattle.jt_lexer.specs.Lexer as lexer;

use crate::piece::{Defect, Piece, Shape};
use sqlite_items::Items;
use std::alloc::{AllocError, Global};

fn is_escape(b: u8) -> bool
    ensures { result ≡ spec.is_escape b }
{
    b == b'n' || b == b't' || b == b'\\' || b == b'"' || b == b'$'
}

fn string_end(z: &[u8]) -> Result<Piece, Defect>
    requires { length z.now < 2 ^ 62 }
    ensures value { result ≡ spec.string_from false 1 z.now }
    ensures within { IfOk result (λ p. (2 ≤ p.1) × (p.1 ≤ length z.now + 1)) }
    ensures refused { IfErr result (spec.DefectsWithin (length z.now + 1)) }
    ensures shaped { IfOk result (λ p. spec.IsShapedWithin p.0 p.1) }
{
    let mut escaped = false;
    for (at, b) in z.iter().enumerate() {
        if escaped {
            if !is_escape(*b) {
                return Err(Defect::BadCharacter(at));
            }
            escaped = false;
        } else if *b == b'"' {
            return Ok((Shape::Text, at + 2));
        } else if *b == b'$' {
            return Err(Defect::BadCharacter(at + 1));
        } else {
            escaped = *b == b'\\';
        }
    }
    if escaped {
        Err(Defect::BadCharacter(z.len()))
    } else {
        Err(Defect::OpenString)
    }
}

/// The string at the front of a text that begins with a quote.
pub(crate) fn string(z: &[u8]) -> Result<Piece, Defect>
    requires short { length z.now < 2 ^ 62 }
    requires begins { 0 < length z.now }
    ensures value { result ≡ spec.string_from false 1 (drop 1 z.now) }
    ensures within { IfOk result (λ p. (1 ≤ p.1) × (p.1 ≤ length z.now)) }
    ensures refused { IfErr result (spec.DefectsWithin (length z.now)) }
    ensures shaped { IfOk result (λ p. spec.IsShapedWithin p.0 p.1) }
{
    string_end(&z[1..])
}

#[tactic(auto, unfolding(crate::specs::Lexer::escape))]
fn escape(b: u8) -> u8
    ensures { result ≡ lexer.escape b }
{
    match b {
        b'n' => b'\n',
        b't' => b'\t',
        _ => b,
    }
}

/// The bytes that a string's inside stands for.
pub(crate) fn unescaped(alloc: Global, inside: &[u8]) -> Result<Items<u8>, AllocError>
    ensures { IfOk result (λ t. t ≡ lexer.unescaped false inside.now) }
{
    let mut found = Vec::new(alloc);
    let mut escaped = false;
    for b in inside {
        if escaped {
            found.push(escape(*b))?;
            escaped = false;
        } else if *b == b'\\' {
            escaped = true;
        } else {
            found.push(*b)?;
        }
    }
    Ok(Items::from_vec(found))
}
