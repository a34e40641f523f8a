//! A cursor over tokens.

ghost use Rattle.std.specs.Prelude.{◌≡◌, length, map, false};
ghost use Rattle.std.specs.Str.{bytes_eq};
ghost use Rattle.jt_grammar.specs.Reader as spec;
ghost use Rattle.jt_cursor.specs.Kinds.{kind_view};
ghost use Rattle.jt_cursor.specs.Tokens.{now};
ghost use Rattle.jt_cursor.specs.Parses.{Parses, same};

use crate::failure::Failure;
use jt_syntax::{Identifier, Sign, Token, TokenKind};
use sqlite_items::Items;
use std::alloc::Global;
use std::marker::Model;

/// What a token is, with its bytes where they are.
#[derive(Clone, Copy)]
pub enum Kind<'a> {
    Number(u64),
    Name(&'a [u8]),
    Text(&'a [u8]),
    Sign(Sign),
}

/// Tokens that are still to be read.
#[derive(Drop)]
pub struct Cursor<'a> {
    rest: &'a [&'a Token],
}

impl<'a> Model for Cursor<'a> {
    ghost use Rattle.std.specs.Prelude.{List, map};
    ghost use Rattle.jt_syntax.specs.declared.token.Token.{Token};
    ghost use Rattle.jt_cursor.specs.Tokens.{now};

    ghost Value = { List Token };

    ghost view = { λ c. map now c.rest.now };
}

fn same_sign(a: Sign, b: Sign) -> bool
    ensures { result ≡ spec.same_sign a b }
{
    a == b
}

fn is_sign(sign: Sign, kind: Kind<'_>) -> bool
    ensures { result ≡ spec.is sign (kind_view kind.entry) }
{
    match kind {
        Kind::Sign(found) => same_sign(found, sign),
        Kind::Number(_) => false,
        Kind::Name(_) => false,
        Kind::Text(_) => false,
    }
}

/// Whether the token stands between two statements.
pub fn is_separator(kind: Kind<'_>) -> bool
    ensures { result ≡ spec.is_separator (kind_view kind.entry) }
{
    matches!(kind, Kind::Sign(Sign::Semicolon | Sign::Newline))
}

/// Whether the token is a word that begins a jump.
pub fn is_jump(kind: Kind<'_>) -> bool
    ensures { result ≡ spec.is_jump (kind_view kind.entry) }
{
    matches!(
        kind,
        Kind::Sign(Sign::Return | Sign::Break | Sign::Continue)
    )
}

/// Whether a list of statements ends before the token.
pub fn ends(kind: Kind<'_>) -> bool
    ensures { result ≡ spec.ends (kind_view kind.entry) }
{
    matches!(
        kind,
        Kind::Sign(Sign::End | Sign::Else | Sign::ElseIf | Sign::Stop)
    )
}

/// Whether the bytes are these letters.
pub fn is_spelled(name: &[u8], letters: &[u8]) -> bool
    ensures { result ≡ bytes_eq name.now letters.now }
{
    name == letters
}

impl<'a> Cursor<'a> {
    /// All of these tokens.
    pub fn new(tokens: &'a [&'a Token]) -> Cursor<'a>
        ensures { result ≡ map now tokens.now }
    {
        Cursor { rest: tokens }
    }

    /// How many tokens are still to be read.
    pub(crate) fn left(&self) -> usize
        ensures { result ≡ length self.now }
    {
        self.rest.len()
    }

    /// Where the next token stands, or 0 behind the last one.
    pub fn place(&self) -> u32
        ensures { result ≡ spec.place_of self.now }
    {
        match self.rest {
            [] => 0,
            [token, ..] => token.at,
        }
    }

    /// What the next token is; behind the last one it is the end token.
    pub fn kind(&self) -> Kind<'a>
        ensures { kind_view result ≡ spec.kind_of self.now }
    {
        match self.rest {
            [] => Kind::Sign(Sign::Stop),
            [token, ..] => match &token.kind {
                TokenKind::Number(n) => Kind::Number(*n),
                TokenKind::Name(name) => Kind::Name(name.as_slice()),
                TokenKind::Text(text) => Kind::Text(text.as_slice()),
                TokenKind::Sign(sign) => Kind::Sign(*sign),
            },
        }
    }

    /// Whether the next token is this sign.
    pub fn sees(&self, sign: Sign) -> bool
        ensures { result ≡ spec.is sign (spec.kind_of self.now) }
    {
        is_sign(sign, self.kind())
    }

    /// Why the next token is not taken: it is unexpected.
    pub fn refuse(&self) -> Failure
        ensures { result ≡ Failure.Unexpected (length self.now) }
    {
        Failure::Unexpected(self.left())
    }

    /// The next token, whatever it is.
    pub fn skip(&mut self) -> Result<&'a Token, Failure>
        ensures { Parses now (spec.skip self.old) result self.new }
    {
        match self.rest {
            [] => Err(Failure::Unexpected(0)),
            [token, rest @ ..] => {
                self.rest = rest;
                Ok(*token)
            }
        }
    }

    /// This sign, which must come next.
    pub fn expect(&mut self, sign: Sign) -> Result<&'a Token, Failure>
        ensures { Parses now (spec.expect sign self.old) result self.new }
    {
        if self.sees(sign) {
            self.skip()
        } else {
            Err(self.refuse())
        }
    }

    /// Whether one opener more may be open where so many still may.
    pub fn enter(&self, depth: usize) -> Result<(), Failure>
        ensures { Parses same (spec.enter depth self.now) result self.now }
    {
        if depth == 0 {
            Err(Failure::TooDeep(self.left()))
        } else {
            Ok(())
        }
    }

    /// An opener that is expected where so many more may be open.
    pub fn opening(&mut self, depth: usize, sign: Sign) -> Result<&'a Token, Failure>
        ensures { Parses now (spec.opening depth sign self.old) result self.new }
    {
        if !self.sees(sign) {
            return Err(self.refuse());
        }
        self.enter(depth)?;
        self.skip()
    }

    /// A name.
    #[tactic(auto, unfolding(jt_grammar::specs::Reader::word))]
    pub fn word(&mut self, alloc: Global) -> Result<Identifier, Failure>
        ensures { Parses same (spec.word self.old) result self.new }
    {
        match self.kind() {
            Kind::Name(name) => {
                let token = self.skip()?;
                let name = Items::from_slice(alloc, name)?;
                Ok(Identifier { name, at: token.at })
            }
            Kind::Sign(_) => Err(self.refuse()),
            Kind::Number(_) => Err(self.refuse()),
            Kind::Text(_) => Err(self.refuse()),
        }
    }

    /// These letters as a name.
    #[tactic(auto, unfolding(jt_grammar::specs::Reader::letters))]
    pub fn letters(&mut self, word: &[u8]) -> Result<&'a Token, Failure>
        ensures { Parses now (spec.letters word.now self.old) result self.new }
    {
        match self.kind() {
            Kind::Name(name) if name == word => self.skip(),
            Kind::Name(_) => Err(self.refuse()),
            Kind::Sign(_) => Err(self.refuse()),
            Kind::Number(_) => Err(self.refuse()),
            Kind::Text(_) => Err(self.refuse()),
        }
    }

    /// A string's bytes.
    #[tactic(auto, unfolding(jt_grammar::specs::Reader::quoted))]
    pub fn quoted(&mut self, alloc: Global) -> Result<Items<u8>, Failure>
        ensures { Parses same (spec.quoted self.old) result self.new }
    {
        match self.kind() {
            Kind::Text(text) => {
                self.skip()?;
                Ok(Items::from_slice(alloc, text)?)
            }
            Kind::Sign(_) => Err(self.refuse()),
            Kind::Number(_) => Err(self.refuse()),
            Kind::Name(_) => Err(self.refuse()),
        }
    }

    /// `true` or `false`
    #[tactic(auto, unfolding(jt_grammar::specs::Reader::truth))]
    pub fn truth(&mut self) -> Result<bool, Failure>
        ensures { Parses same (spec.truth self.old) result self.new }
    {
        if self.sees(Sign::True) {
            self.skip()?;
            return Ok(true);
        }
        self.expect(Sign::False)?;
        Ok(false)
    }

    /// Skips the separators that come next; whether there are any.
    #[tactic(auto, using(crate::proofs::Starts::gap_start))]
    pub fn gap(&mut self, turns: usize) -> Result<bool, Failure>
        ensures { Parses same (spec.gap turns self.old) result self.new }
    {
        self.gap_from(turns)
    }

    fn gap_from(&mut self, turns: usize) -> Result<bool, Failure>
        ensures { Parses same (spec.gap_from turns false self.old) result self.new }
    {
        let mut any = false;
        for _turn in 0..turns {
            if !is_separator(self.kind()) {
                return Ok(any);
            }
            self.skip()?;
            any = true;
        }
        Err(Failure::Spent)
    }
}
