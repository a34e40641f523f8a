//! Reading again what was printed.

ghost use Rattle.std.specs.Prelude.{◌+◌, ◌≤◌, List, length, IfOk, IfErr};
ghost use Rattle.jt_base.specs.Limits.{most_script, most_open};
ghost use Rattle.jt_grammar.specs.Grammar.{EndsWithStop};
ghost use Rattle.jt_grammar.specs.Printed.{script_kinds};
ghost use Rattle.jt_lexer.specs.Spelled.{spelled};
ghost use Rattle.jt_syntax.specs.Tree.{TopTree};
ghost use Rattle.jt_syntax.specs.View.{script_view};
ghost use Rattle.jt_printer.specs.Again.{WasRead, ReadsAs, ReadsExactly, IsSameScript, IsScriptWithin};
ghost use Rattle.jt_printer.specs.Reread.{IsReread, RefusesReread, IsShort};

use crate::print::print_script;
use jt_base::MOST_SCRIPT;
use jt_lexer::{LexError, lex};
use jt_parser::{ParseError, parse};
use jt_syntax::{Script, Token};
use std::alloc::Global;

/// Why a script that was printed isn't there again.
#[derive(Clone, Copy, Debug, PartialEq, Eq, Drop)]
pub enum RereadError {
    /// The printed text has more than `MOST_SCRIPT` bytes.
    TooLong,
    /// The printed text is no script. That doesn't come of a script that was read from a text.
    NoScript,
    /// There was no memory.
    OutOfMemory,
}

/// Prints a script, and reads the text: the script that is returned is what the text says. Where
/// the script was read from a text, it is the same again but for its places.
///
/// # Errors
///
/// `TooLong` only where the printed text is longer than a text that is read; `NoScript` only where
/// the script was made by hand, and read from no text; and `OutOfMemory`.
pub fn reread(alloc: Global, script: &Script) -> Result<Script, RereadError>
    ensures again { WasRead most_open (script_view script.now) → IsReread (script_view script.now) result }
    ensures found { IfOk result (λ found. ReadsExactly most_open (spelled (script_kinds (script_view script.now))) (script_view found)) }
    ensures refused { IfErr result (RefusesReread (script_view script.now)) }
{
    let Ok(text) = print_script(alloc, script) else {
        return Err(RereadError::OutOfMemory);
    };
    if text.len() > MOST_SCRIPT {
        return Err(RereadError::TooLong);
    }
    read_bytes(alloc, text.as_slice())
}

/// The script that these bytes are.
fn read_bytes(alloc: Global, bytes: &[u8]) -> Result<Script, RereadError>
    requires { length bytes.now ≤ most_script }
    ensures again { (tops : List TopTree) → ReadsAs most_open tops bytes.now → IsReread tops result }
    ensures found { IfOk result (λ found. ReadsExactly most_open bytes.now (script_view found)) }
    ensures short { IfErr result IsShort }
{
    let Ok(text) = str::from_utf8(bytes) else {
        return Err(RereadError::NoScript);
    };
    match lex(alloc, text) {
        Ok(tokens) => read_tokens(alloc, tokens.as_slice()),
        Err(LexError::BadCharacter(_)) => Err(RereadError::NoScript),
        Err(LexError::OpenString(_)) => Err(RereadError::NoScript),
        Err(LexError::NumberTooLarge(_)) => Err(RereadError::NoScript),
        Err(LexError::OutOfMemory) => Err(RereadError::OutOfMemory),
    }
}

/// The script that these tokens are.
fn read_tokens(alloc: Global, tokens: &[Token]) -> Result<Script, RereadError>
    requires whole { EndsWithStop tokens.now }
    requires few { length tokens.now ≤ most_script + 1 }
    ensures again { (tops : List TopTree) → IsSameScript most_open tops tokens.now → IsReread tops result }
    ensures found { IfOk result (λ found. IsScriptWithin most_open tokens.now (script_view found)) }
    ensures short { IfErr result IsShort }
{
    match parse(alloc, tokens) {
        Ok(script) => Ok(script),
        Err(ParseError::Unexpected(_)) => Err(RereadError::NoScript),
        Err(ParseError::TooDeep(_)) => Err(RereadError::NoScript),
        Err(ParseError::OutOfMemory) => Err(RereadError::OutOfMemory),
    }
}
