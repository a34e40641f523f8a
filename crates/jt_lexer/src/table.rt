//! The words and signs of the language.

use jt_syntax::ArithmeticOperator::{
    Add, And, Divide, Multiply, Or, Power, Remainder, ShiftLeft, ShiftRight, ShiftRightZero,
    Subtract, Xor,
};
use jt_syntax::BinaryOperator::{Arithmetic, Comparison};
use jt_syntax::ComparisonOperator::{Equal, Greater, GreaterEqual, Less, LessEqual, NotEqual};
use jt_syntax::{BinaryOperator, Connective, Sign};

/// The words that are no names.
pub(crate) const WORDS: [(&[u8], Sign); 41] = [
    (b"begin", Sign::Begin),
    (b"break", Sign::Break),
    (b"const", Sign::Const),
    (b"continue", Sign::Continue),
    (b"else", Sign::Else),
    (b"elseif", Sign::ElseIf),
    (b"end", Sign::End),
    (b"false", Sign::False),
    (b"for", Sign::For),
    (b"function", Sign::Function),
    (b"if", Sign::If),
    (b"in", Sign::In),
    (b"return", Sign::Return),
    (b"true", Sign::True),
    (b"using", Sign::Using),
    (b"while", Sign::While),
    (b"do", Sign::Reserved),
    (b"let", Sign::Reserved),
    (b"try", Sign::Reserved),
    (b"catch", Sign::Reserved),
    (b"finally", Sign::Reserved),
    (b"global", Sign::Reserved),
    (b"local", Sign::Reserved),
    (b"struct", Sign::Reserved),
    (b"macro", Sign::Reserved),
    (b"module", Sign::Reserved),
    (b"quote", Sign::Reserved),
    (b"import", Sign::Reserved),
    (b"export", Sign::Reserved),
    (b"println", Sign::Println),
    (b"error", Sign::Error),
    (b"Channel", Sign::Channel),
    (b"Atomic", Sign::Atomic),
    (b"Int64", Sign::Int64),
    (b"typemin", Sign::TypeMin),
    (b"typemax", Sign::TypeMax),
    (b"rand", Sign::Rand),
    (b"@spawn", Sign::Spawn),
    (b"@async", Sign::Async),
    (b"@sync", Sign::Sync),
    (b"@threads", Sign::Threads),
];

/// The signs, each before those that it begins with.
pub(crate) const SIGNS: [(&[u8], Sign); 43] = [
    (b">>>", Sign::Binary(Arithmetic(ShiftRightZero))),
    (b">>", Sign::Binary(Arithmetic(ShiftRight))),
    (b"<<", Sign::Binary(Arithmetic(ShiftLeft))),
    (b"<=", Sign::Binary(Comparison(LessEqual))),
    (b">=", Sign::Binary(Comparison(GreaterEqual))),
    (b"==", Sign::Binary(Comparison(Equal))),
    (b"!=", Sign::Binary(Comparison(NotEqual))),
    (b"\xe2\x89\xa4", Sign::Binary(Comparison(LessEqual))),
    (b"\xe2\x89\xa5", Sign::Binary(Comparison(GreaterEqual))),
    (b"\xe2\x89\xa0", Sign::Binary(Comparison(NotEqual))),
    (
        b"&&",
        Sign::Binary(BinaryOperator::Connective(Connective::And)),
    ),
    (
        b"||",
        Sign::Binary(BinaryOperator::Connective(Connective::Or)),
    ),
    (b"+=", Sign::PlusAssign),
    (b"-=", Sign::MinusAssign),
    (b"*=", Sign::StarAssign),
    (b"\xc3\xb7=", Sign::DivideAssign),
    (b"%=", Sign::PercentAssign),
    (b"+", Sign::Binary(Arithmetic(Add))),
    (b"-", Sign::Binary(Arithmetic(Subtract))),
    (b"*", Sign::Binary(Arithmetic(Multiply))),
    (b"\xc3\xb7", Sign::Binary(Arithmetic(Divide))),
    (b"%", Sign::Binary(Arithmetic(Remainder))),
    (b"^", Sign::Binary(Arithmetic(Power))),
    (b"&", Sign::Binary(Arithmetic(And))),
    (b"|", Sign::Binary(Arithmetic(Or))),
    (b"\xe2\x8a\xbb", Sign::Binary(Arithmetic(Xor))),
    (b"~", Sign::Tilde),
    (b"!", Sign::Not),
    (b"<", Sign::Binary(Comparison(Less))),
    (b">", Sign::Binary(Comparison(Greater))),
    (b"=", Sign::Assign),
    (b"?", Sign::Question),
    (b":", Sign::Colon),
    (b",", Sign::Comma),
    (b";", Sign::Semicolon),
    (b"$", Sign::Dollar),
    (b"(", Sign::Open),
    (b")", Sign::Close),
    (b"[", Sign::OpenSquare),
    (b"]", Sign::CloseSquare),
    (b"{", Sign::OpenCurly),
    (b"}", Sign::CloseCurly),
    (b"\n", Sign::Newline),
];

/// The words that may stand behind `Threads.` and `Base.Threads.`.
pub(crate) const OF_THREADS: [&[u8]; 8] = [
    b"@spawn",
    b"@threads",
    b"Atomic",
    b"Condition",
    b"atomic_add!",
    b"atomic_sub!",
    b"atomic_xchg!",
    b"atomic_cas!",
];

/// The words that may stand behind `Base.`.
pub(crate) const OF_BASE: [&[u8]; 4] = [b"Event", b"Semaphore", b"acquire", b"release"];
