//! From kinds of tokens to their text.

ghost use Rattle.std.specs.Prelude.{◌≡◌, ◌++◌, OnOk, IfOk};
ghost use Rattle.jt_syntax.specs.declared.token.TokenKind.TheVariants as kind;
ghost use Rattle.jt_lexer.specs.Spelled.{operator_spelling, sign_spelling, escaped_byte, spelling, spelled};

use crate::memory::OutOfMemory;
use itoa::Buffer;
use jt_syntax::{
    ArithmeticOperator, BinaryOperator, ComparisonOperator, Connective, Sign, TokenKind,
};
use std::alloc::Global;

/// How an operator between two operands is written.
fn operator_text(operator: BinaryOperator) -> &'static [u8]
    ensures { result.now ≡ operator_spelling operator }
{
    match operator {
        BinaryOperator::Arithmetic(ArithmeticOperator::Add) => b"+",
        BinaryOperator::Arithmetic(ArithmeticOperator::Subtract) => b"-",
        BinaryOperator::Arithmetic(ArithmeticOperator::Multiply) => b"*",
        BinaryOperator::Arithmetic(ArithmeticOperator::Divide) => b"\xC3\xB7",
        BinaryOperator::Arithmetic(ArithmeticOperator::Remainder) => b"%",
        BinaryOperator::Arithmetic(ArithmeticOperator::Power) => b"^",
        BinaryOperator::Arithmetic(ArithmeticOperator::And) => b"&",
        BinaryOperator::Arithmetic(ArithmeticOperator::Or) => b"|",
        BinaryOperator::Arithmetic(ArithmeticOperator::Xor) => b"\xE2\x8A\xBB",
        BinaryOperator::Arithmetic(ArithmeticOperator::ShiftLeft) => b"<<",
        BinaryOperator::Arithmetic(ArithmeticOperator::ShiftRight) => b">>",
        BinaryOperator::Arithmetic(ArithmeticOperator::ShiftRightZero) => b">>>",
        BinaryOperator::Comparison(ComparisonOperator::Equal) => b"==",
        BinaryOperator::Comparison(ComparisonOperator::NotEqual) => b"!=",
        BinaryOperator::Comparison(ComparisonOperator::Less) => b"<",
        BinaryOperator::Comparison(ComparisonOperator::LessEqual) => b"<=",
        BinaryOperator::Comparison(ComparisonOperator::Greater) => b">",
        BinaryOperator::Comparison(ComparisonOperator::GreaterEqual) => b">=",
        BinaryOperator::Connective(Connective::And) => b"&&",
        BinaryOperator::Connective(Connective::Or) => b"||",
    }
}

/// How a sign is written; nothing for those that are never printed.
fn sign_text(sign: Sign) -> &'static [u8]
    ensures { result.now ≡ sign_spelling sign }
{
    match sign {
        Sign::Begin => b"begin",
        Sign::Break => b"break",
        Sign::Const => b"const",
        Sign::Continue => b"continue",
        Sign::Else => b"else",
        Sign::ElseIf => b"elseif",
        Sign::End => b"end",
        Sign::False => b"false",
        Sign::For => b"for",
        Sign::Function => b"function",
        Sign::If => b"if",
        Sign::In => b"in",
        Sign::Return => b"return",
        Sign::True => b"true",
        Sign::Using => b"using",
        Sign::While => b"while",
        Sign::Reserved => b"",
        Sign::Println => b"println",
        Sign::Error => b"error",
        Sign::Channel => b"Channel",
        Sign::Atomic => b"Atomic",
        Sign::Int64 => b"Int64",
        Sign::TypeMin => b"typemin",
        Sign::TypeMax => b"typemax",
        Sign::Rand => b"rand",
        Sign::BaseThreads => b"Base.Threads",
        Sign::Spawn => b"@spawn",
        Sign::Async => b"@async",
        Sign::Sync => b"@sync",
        Sign::Threads => b"@threads",
        Sign::Binary(operator) => operator_text(operator),
        Sign::PlusAssign => b"+=",
        Sign::MinusAssign => b"-=",
        Sign::StarAssign => b"*=",
        Sign::DivideAssign => b"\xC3\xB7=",
        Sign::PercentAssign => b"%=",
        Sign::Tilde => b"~",
        Sign::Not => b"!",
        Sign::Assign => b"=",
        Sign::Question => b"?",
        Sign::Colon => b":",
        Sign::Comma => b",",
        Sign::Semicolon => b";",
        Sign::Dollar => b"$",
        Sign::Open => b"(",
        Sign::Close => b")",
        Sign::OpenSquare => b"[",
        Sign::CloseSquare => b"]",
        Sign::OpenCurly => b"{",
        Sign::CloseCurly => b"}",
        Sign::Newline => b"",
        Sign::Stop => b"",
    }
}

/// A byte of a string, as it stands between the quotes.
fn push_escaped(out: &mut Vec<u8>, byte: u8) -> Result<(), OutOfMemory>
    ensures { OnOk result (out.new.items ≡ out.old.items ++ escaped_byte byte) }
{
    if byte == b'\n' {
        out.extend_from_slice(b"\\n")?;
    } else if byte == b'\t' {
        out.extend_from_slice(b"\\t")?;
    } else if byte == b'\\' || byte == b'"' || byte == b'$' {
        out.push(b'\\')?;
        out.push(byte)?;
    } else {
        out.push(byte)?;
    }
    Ok(())
}

fn push_text(out: &mut Vec<u8>, text: &[u8]) -> Result<(), OutOfMemory>
    ensures { OnOk result (out.new.items ≡ out.old.items ++ spelling (kind.Text text.now)) }
{
    out.push(b'"')?;
    for byte in text {
        push_escaped(out, *byte)?;
    }
    out.push(b'"')?;
    Ok(())
}

fn push_kind(out: &mut Vec<u8>, kind: &TokenKind) -> Result<(), OutOfMemory>
    ensures { OnOk result (out.new.items ≡ out.old.items ++ spelling kind.now) }
{
    match kind {
        TokenKind::Number(value) => {
            let mut digits = Buffer::new();
            out.extend_from_slice(digits.format(*value).as_bytes())?;
        }
        TokenKind::Name(name) => out.extend_from_slice(name.as_slice())?,
        TokenKind::Text(text) => push_text(out, text.as_slice())?,
        TokenKind::Sign(sign) => out.extend_from_slice(sign_text(*sign))?,
    }
    Ok(())
}

/// The text of tokens of these kinds, each followed by one space.
///
/// # Errors
///
/// `OutOfMemory`, and no text.
pub(crate) fn spell(alloc: Global, kinds: &[TokenKind]) -> Result<Vec<u8>, OutOfMemory>
    ensures { IfOk result (λ text. text.items ≡ spelled kinds.now) }
{
    let mut text = Vec::new(alloc);
    for kind in kinds {
        push_kind(&mut text, kind)?;
        text.push(b' ')?;
    }
    Ok(text)
}
