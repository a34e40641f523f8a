//! From a text to its tokens.

ghost use Rattle.std.specs.Prelude.{◌≡◌, ◌<◌, ◌≤◌, ◌+◌, ◌^◌, ◌++◌, length, drop, IfOk, IfErr, OnOk};
ghost use Rattle.jt_base.specs.Limits.{most_script};
ghost use Rattle.jt_lexer.specs.Pieces as pieces;
ghost use Rattle.jt_lexer.specs.Lexer as spec;
ghost use Rattle.jt_lexer.specs.Tokens.{IsTokensOf, IsWhole, RefusesText};

use crate::error::LexError;
use crate::piece::{Defect, Shape, piece};
use crate::quoted::unescaped;
use jt_syntax::{Sign, Token, TokenKind};
use sqlite_items::Items;
use std::alloc::{AllocError, Global};

fn copied(alloc: Global, bytes: &[u8]) -> Result<Items<u8>, AllocError>
    ensures { IfOk result (λ t. t ≡ bytes.now) }
{
    let mut copy = Vec::new(alloc);
    copy.extend_from_slice(bytes)?;
    Ok(Items::from_vec(copy))
}

fn refusal(defect: Defect, at: u32) -> LexError
    requires defect { pieces.DefectsWithin most_script defect }
    requires place { at ≤ most_script }
    ensures { result ≡ spec.lex_error defect at }
{
    match defect {
        Defect::BadCharacter(from) => LexError::BadCharacter(at + from as u32),
        Defect::OpenString => LexError::OpenString(at),
        Defect::NumberTooLarge => LexError::NumberTooLarge(at),
    }
}

fn kind_of(alloc: Global, shape: Shape, word: &[u8]) -> Result<Option<TokenKind>, AllocError>
    requires { pieces.IsShapedWithin shape (length word.now) }
    ensures { IfOk result (λ k. k ≡ spec.token_kind shape word.now) }
{
    match shape {
        Shape::Blank => Ok(None),
        Shape::Number(value) => Ok(Some(TokenKind::Number(value))),
        Shape::Name(start) => Ok(Some(TokenKind::Name(copied(alloc, &word[start..])?))),
        Shape::Text => Ok(Some(TokenKind::Text(unescaped(alloc, &word[1..word.len() - 1])?))),
        Shape::Sign(sign) => Ok(Some(TokenKind::Sign(sign))),
    }
}

fn push_piece(
    alloc: Global,
    tokens: &mut Vec<Token>,
    shape: Shape,
    at: u32,
    word: &[u8],
) -> Result<(), LexError>
    requires { pieces.IsShapedWithin shape (length word.now) }
    ensures { spec.Pushes (spec.tokens_of (spec.token_kind shape word.now) at) tokens.old.items result tokens.new.items }
{
    if let Some(kind) = kind_of(alloc, shape, word)? {
        tokens.push(Token { kind, at })?;
    }
    Ok(())
}

/// The tokens of a script's text of at most `MOST_SCRIPT` bytes: at each place the longest piece is
/// taken, blanks and comments are no tokens, and the last token, `Stop`, stands at the text's
/// length.
///
/// # Errors
///
/// The first refusal from the left, with its place, or want of memory.
pub fn lex(alloc: Global, text: &str) -> Result<Vec<Token>, LexError>
    requires { length text.now ≤ most_script }
    ensures value { spec.LexesTo (λ tokens. tokens.items) (spec.lex text.now) result }
    ensures tokens { IfOk result (λ tokens. IsTokensOf text.now tokens.items) }
    ensures whole { IfOk result (λ tokens. IsWhole text.now tokens.items) }
    ensures refused { IfErr result (RefusesText text.now) }
{
    let bytes = text.as_bytes();
    let mut tokens = Vec::new(alloc);
    let mut at = 0;
    while at < bytes.len() {
        let rest = &bytes[at..];
        match piece(rest) {
            Err(defect) => return Err(refusal(defect, at as u32)),
            Ok((shape, length)) => {
                push_piece(alloc, &mut tokens, shape, at as u32, &rest[..length])?;
                at += length;
            }
        }
    }
    tokens.push(Token {
        kind: TokenKind::Sign(Sign::Stop),
        at: at as u32,
    })?;
    Ok(tokens)
}
