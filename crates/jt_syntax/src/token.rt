//! Tokens.

use crate::operator::BinaryOperator;
use sqlite_items::Items;

/// A sign, a keyword, a word with a rule of its own, a newline, or the end of the text.
#[derive(Clone, Copy, Debug, PartialEq, Eq)]
pub enum Sign {
    // Keywords.
    Begin,
    Break,
    Const,
    Continue,
    Else,
    ElseIf,
    End,
    False,
    For,
    Function,
    If,
    In,
    Return,
    True,
    Using,
    While,
    /// A keyword of Julia that no rule of the grammar has, as `let`.
    Reserved,
    // Words that are no names.
    Println,
    Error,
    Channel,
    Atomic,
    Int64,
    TypeMin,
    TypeMax,
    Rand,
    /// `Base.Threads`
    BaseThreads,
    // Macro words.
    Spawn,
    Async,
    Sync,
    Threads,
    // Signs, with their spelling where the name does not tell it.
    Binary(BinaryOperator),
    /// `+=`
    PlusAssign,
    /// `-=`
    MinusAssign,
    /// `*=`
    StarAssign,
    /// `÷=`
    DivideAssign,
    /// `%=`
    PercentAssign,
    /// `~`
    Tilde,
    /// `!`
    Not,
    /// `=`
    Assign,
    /// `?`
    Question,
    Colon,
    Comma,
    Semicolon,
    Dollar,
    /// `(`
    Open,
    /// `)`
    Close,
    /// `[`
    OpenSquare,
    /// `]`
    CloseSquare,
    /// `{`
    OpenCurly,
    /// `}`
    CloseCurly,
    /// A line's end, which separates statements.
    Newline,
    /// Behind the last token of a text.
    Stop,
}

/// What a token is.
#[derive(Debug, Drop)]
pub enum TokenKind {
    /// A number from 0 to 9223372036854775807.
    Number(u64),
    /// A name's ASCII bytes, without a prefix such as `Threads.`.
    Name(Items<u8>),
    /// The bytes of a string, with each escape replaced by what it stands for.
    Text(Items<u8>),
    Sign(Sign),
}

/// The smallest part of a script that has a meaning.
#[derive(Debug, Drop)]
pub struct Token {
    pub kind: TokenKind,
    /// Where its first byte stands, in bytes from the text's beginning.
    pub at: u32,
}
