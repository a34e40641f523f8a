//! From tokens to a script.

ghost use Rattle.std.specs.Prelude.{◌≡◌, ◌+◌, ◌-◌, ◌<◌, ◌≤◌, List, length, map, Some, slice_get, IfOk, IfErr};
ghost use Rattle.jt_base.specs.Limits.{most_script, most_open};
ghost use Rattle.jt_grammar.specs.Grammar.{EndsWithStop};
ghost use Rattle.jt_grammar.specs.Joined.{IsScriptOf};
ghost use Rattle.jt_grammar.specs.Nesting.{TopsWithin};
ghost use Rattle.jt_syntax.specs.Tree.{TopTree};
ghost use Rattle.jt_syntax.specs.View.{script_view};
ghost use Rattle.jt_syntax.specs.declared.token.Token.{Token};
ghost use Rattle.jt_parser.specs.Refusals.{RefusesTokens};
ghost use Rattle.jt_cursor.specs.Tokens.{now};

use crate::error::ParseError;
use crate::top::script;
use jt_base::MOST_OPEN;
use jt_cursor::{Cursor, Failure, join};
use jt_syntax::{Script, Token};
use std::alloc::Global;

/// Where the token stands behind which, itself counted, so many are left.
fn place(tokens: &[&Token], left: usize) -> u32
    requires some { 0 < left }
    requires within { left ≤ length tokens.now }
    ensures { (t : Token) → slice_get (map now tokens.now) (length (map now tokens.now) - left) ≡ Some t → result ≡ t.at }
{
    tokens[tokens.len() - left].at
}

/// The script that the tokens are, by the part of the grammar of Julia 1.10 (its manual, "Julia
/// Syntax" and "Parallel Computing") that this project takes. First the newlines are dropped that
/// end no line: within brackets, and behind a binary operator, an assignment operator, `,`, `?` or
/// `:`. There is no other script that the tokens are. The tokens are those of one text, with the
/// end token behind them, and stay as they were.
///
/// # Errors
///
/// - `Unexpected` with the place of the first token with which the tokens up to it begin no script,
///   while those before it begin one.
/// - `TooDeep` with the place of the first opener that could stand there but would be open inside
///   `MOST_OPEN` others. The openers are brackets, `begin`, `function`, `if`, `while`, `for`, the macro
///   words, `?`, `^` and the unary operators; each is open up to its closing token, or to the end of
///   what it takes.
/// - `OutOfMemory` where there is no memory for the script.
pub fn parse(alloc: Global, tokens: &[Token]) -> Result<Script, ParseError>
    requires whole { EndsWithStop tokens.now }
    requires few { length tokens.now ≤ most_script + 1 }
    ensures found { IfOk result (λ s. IsScriptOf tokens.now (script_view s) × TopsWithin most_open (script_view s)) }
    ensures only { IfOk result (λ s. (others : List TopTree) → IsScriptOf tokens.now others → script_view s ≡ others) }
    ensures refused { IfErr result (RefusesTokens tokens.now) }
{
    let Ok(kept) = join(alloc, tokens) else {
        return Err(ParseError::OutOfMemory);
    };
    let mut cursor = Cursor::new(&kept);
    match script(alloc, &mut cursor, kept.len() + 1, MOST_OPEN) {
        Ok(tops) => Ok(Script { tops }),
        Err(Failure::OutOfMemory) => Err(ParseError::OutOfMemory),
        Err(Failure::Unexpected(left)) => Err(ParseError::Unexpected(place(&kept, left))),
        Err(Failure::TooDeep(left)) => Err(ParseError::TooDeep(place(&kept, left))),
        Err(Failure::Spent) => unreachable!(),
    }
}
