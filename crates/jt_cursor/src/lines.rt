//! Joined lines.

ghost use Rattle.std.specs.Prelude.{◌≡◌, map, IfOk, OnOk};
ghost use Rattle.jt_grammar.specs.Joined as spec;
ghost use Rattle.jt_cursor.specs.Tokens.{now};

use jt_grammar::Opener;
use jt_syntax::{Sign, Token, TokenKind};
use std::alloc::{AllocError, Global};

fn is_newline(kind: &TokenKind) -> bool
    ensures { result ≡ spec.is_newline kind.now }
{
    matches!(kind, TokenKind::Sign(Sign::Newline))
}

/// Whether a line goes on behind the sign.
fn goes_on(sign: Sign) -> bool
    ensures { result ≡ spec.goes_on sign }
{
    match sign {
        Sign::Binary(_) => true,
        Sign::Assign | Sign::PlusAssign | Sign::MinusAssign | Sign::StarAssign => true,
        Sign::DivideAssign | Sign::PercentAssign => true,
        Sign::Comma | Sign::Question | Sign::Colon => true,
        _ => false,
    }
}

fn continues(kind: &TokenKind) -> bool
    ensures { result ≡ spec.continues kind.now }
{
    match kind {
        TokenKind::Sign(sign) => goes_on(*sign),
        TokenKind::Number(_) | TokenKind::Name(_) | TokenKind::Text(_) => false,
    }
}

fn same_opener(found: Opener, opener: Opener) -> bool
    ensures { result ≡ spec.same_opener found opener }
{
    found == opener
}

/// What is open behind a closing token of this kind, which closes nothing of another kind.
fn close(stack: &mut Vec<Opener>, opener: Opener)
    ensures { stack.new.items ≡ spec.closed opener stack.old.items }
{
    if let Some(innermost) = stack.last().copied() {
        if same_opener(innermost, opener) {
            stack.truncate(stack.len() - 1);
        }
    }
}

/// What is open behind the sign.
fn pass(stack: &mut Vec<Opener>, sign: Sign) -> Result<(), AllocError>
    ensures { OnOk result (stack.new.items ≡ spec.pushed_by stack.old.items sign) }
{
    match sign {
        Sign::Open => stack.push(Opener::Parenthesis)?,
        Sign::OpenSquare => stack.push(Opener::Square)?,
        Sign::OpenCurly => stack.push(Opener::Curly)?,
        Sign::Begin | Sign::Function | Sign::If | Sign::While | Sign::For => {
            stack.push(Opener::Block)?
        }
        Sign::Close => close(stack, Opener::Parenthesis),
        Sign::CloseSquare => close(stack, Opener::Square),
        Sign::CloseCurly => close(stack, Opener::Curly),
        Sign::End => close(stack, Opener::Block),
        _ => {}
    }
    Ok(())
}

fn pass_kind(stack: &mut Vec<Opener>, kind: &TokenKind) -> Result<(), AllocError>
    ensures { OnOk result (stack.new.items ≡ spec.pushed stack.old.items kind.now) }
{
    match kind {
        TokenKind::Sign(sign) => pass(stack, *sign),
        TokenKind::Number(_) | TokenKind::Name(_) | TokenKind::Text(_) => Ok(()),
    }
}

fn is_bracket(innermost: Option<Opener>) -> bool
    ensures { result ≡ spec.is_bracket innermost }
{
    match innermost {
        Some(Opener::Parenthesis | Opener::Square | Opener::Curly) => true,
        Some(Opener::Block) | None => false,
    }
}

fn is_dropped(stack: &[Opener], after: bool, kind: &TokenKind) -> bool
    ensures { result ≡ spec.drops (stack.now, after) kind.now }
{
    is_newline(kind) && (is_bracket(stack.last().copied()) || after)
}

/// The tokens without the newlines that end no line.
pub fn join<'a>(alloc: Global, tokens: &'a [Token]) -> Result<Vec<&'a Token>, AllocError>
    ensures { IfOk result (λ kept. map now kept.items ≡ spec.joined tokens.now) }
{
    let mut kept = Vec::new(alloc);
    let mut stack = Vec::new(alloc);
    let mut after = false;
    for token in tokens {
        if !is_dropped(&stack, after, &token.kind) {
            kept.push(token)?;
            pass_kind(&mut stack, &token.kind)?;
            after = continues(&token.kind);
        }
    }
    Ok(kept)
}
