//! Texts and their tokens.

ghost use Rattle.std.specs.Prelude.{◌≤◌, length};
ghost use Rattle.jt_base.specs.Limits.{most_script};

use jt_base::MOST_SCRIPT;
use jt_lexer::lex;
use jt_syntax::{Token, TokenKind};
use std::alloc::{AllocError, Global};
use std::process::Abort;
use std::test::Fail;

/// A text and, behind ` => `, its tokens or its refusal, one on a line. In a text `/` is a newline,
/// a backquote a carriage return, and a quote a tab. A number begins with `#` and a name with a
/// quote; a string is `T` and its bytes in decimal.
const ROWS: &str = "
 => Stop@0
x => 'x@0 Stop@1
println(1) => Println@0 Open@7 #1@8 Close@9 Stop@10
println(9223372036854775808) => number too large at 8
-9223372036854775808 => number too large at 1
9223372036854775807 => #9223372036854775807@0 Stop@19
99999999999999999999 => number too large at 0
a'b/c => 'a@0 'b@2 Newline@3 'c@4 Stop@5
a`/b => 'a@0 Newline@2 'b@3 Stop@4
a`b => bad character at 1
a` => bad character at 1
# `é (/x => Newline@7 'x@8 Stop@9
#= a #= b =# => open string at 0
#= a #= b =# c =#x => 'x@17 Stop@18
1 #=# => open string at 2
1#==#2 => #1@0 #2@5 Stop@6
#=#=# => open string at 0
x =# y => 'x@0 Assign@2 Stop@6
1_000 => #1000@0 Stop@5
1__0 => #1@0 '__0@1 Stop@4
1_ => #1@0 '_@1 Stop@2
007x => #7@0 'x@3 Stop@4
0x1F => #0@0 'x1F@1 Stop@4
a!=b => 'a@0 Binary(Comparison(NotEqual))@1 'b@3 Stop@4
a! =b => 'a!@0 Assign@3 'b@4 Stop@5
a!!=b => 'a!@0 Binary(Comparison(NotEqual))@2 'b@4 Stop@5
_a1!(!b) => '_a1!@0 Open@4 Not@5 'b@6 Close@7 Stop@8
begin beginx end => Begin@0 'beginx@6 End@13 Stop@16
elseif else if => ElseIf@0 Else@7 If@12 Stop@14
for in while do => For@0 In@4 While@7 Reserved@13 Stop@15
true false using const => True@0 False@5 Using@11 Const@17 Stop@22
let import export struct => Reserved@0 Reserved@4 Reserved@11 Reserved@18 Stop@24
function return break continue => Function@0 Return@9 Break@16 Continue@22 Stop@30
Channel{Int64}(rand) => Channel@0 OpenCurly@7 Int64@8 CloseCurly@13 Open@14 Rand@15 Close@19 Stop@20
typemin typemax error Error => TypeMin@0 TypeMax@8 Error@16 'Error@22 Stop@27
Threads.@spawn 1 => Spawn@0 #1@15 Stop@16
Base.Threads.@threads for => Threads@0 For@22 Stop@25
Threads.Atomic => Atomic@0 Stop@14
Threads.Condition.x => bad character at 17
Base.Event() => 'Event@0 Open@10 Close@11 Stop@12
Base.Threads.atomic_add!(a) => 'atomic_add!@0 Open@24 'a@25 Close@26 Stop@27
using Base.Threads => Using@0 BaseThreads@6 Stop@18
Base.Threads.Foo => bad character at 4
Base.Threadsx => bad character at 4
Base.Atomic => bad character at 4
Threads.Event => bad character at 7
Threads.Atomicx => bad character at 7
Threads.@spaw 1 => bad character at 7
Threads.@sync => bad character at 7
Threads.@spawn( => bad character at 14
Threads. Atomic => bad character at 7
Threads.Foo => bad character at 7
@spawn(1) => bad character at 6
@spawnx => bad character at 0
@async @sync => Async@0 Sync@7 Stop@12
Base.Event! => bad character at 4
Threads.atomic_add!=1 => bad character at 7
\"a\\n\\t\\\\\\\"\\$\" => T97.10.9.92.34.36.@0 Stop@13
println(\"a => open string at 8
\"a\\q => bad character at 2
\"a$b\" => bad character at 2
\"a\\ => bad character at 2
\"a/#b\" => T97.10.35.98.@0 Stop@6
x \"\" => 'x@0 T@2 Stop@4
) \"a => open string at 2
a.b => bad character at 1
a>>>b>>c>d>=e => 'a@0 Binary(Arithmetic(ShiftRightZero))@1 'b@4 Binary(Arithmetic(ShiftRight))@5 'c@7 Binary(Comparison(Greater))@8 'd@9 Binary(Comparison(GreaterEqual))@10 'e@12 Stop@13
>>>= => Binary(Arithmetic(ShiftRightZero))@0 Assign@3 Stop@4
a<<b<=c<d => 'a@0 Binary(Arithmetic(ShiftLeft))@1 'b@3 Binary(Comparison(LessEqual))@4 'c@6 Binary(Comparison(Less))@7 'd@8 Stop@9
≤≥≠÷=÷⊻ => Binary(Comparison(LessEqual))@0 Binary(Comparison(GreaterEqual))@3 Binary(Comparison(NotEqual))@6 DivideAssign@9 Binary(Arithmetic(Divide))@12 Binary(Arithmetic(Xor))@14 Stop@17
&&&||| => Binary(Connective(And))@0 Binary(Arithmetic(And))@2 Binary(Connective(Or))@3 Binary(Arithmetic(Or))@5 Stop@6
+=-=*=%===! => PlusAssign@0 MinusAssign@2 StarAssign@4 PercentAssign@6 Binary(Comparison(Equal))@8 Not@10 Stop@11
[$a]?:,;~^% => OpenSquare@0 Dollar@1 'a@2 CloseSquare@3 Question@4 Colon@5 Comma@6 Semicolon@7 Tilde@8 Binary(Arithmetic(Power))@9 Binary(Arithmetic(Remainder))@10 Stop@11
x+é => bad character at 2
x = (1 + => 'x@0 Assign@2 Open@4 #1@5 Binary(Arithmetic(Add))@7 Stop@8
for i in 1:3 println(i) => For@0 'i@4 In@6 #1@9 Colon@10 #3@11 Println@13 Open@20 'i@21 Close@22 Stop@23
";

fn write_token(out: &mut String, token: &Token) -> Result<(), AllocError> {
    match &token.kind {
        TokenKind::Number(value) => write!(out, "#{value}")?,
        TokenKind::Name(bytes) => {
            out.push_str("'")?;
            for b in bytes.as_slice() {
                out.push(char::from(*b))?;
            }
        }
        TokenKind::Text(bytes) => {
            out.push_str("T")?;
            for b in bytes.as_slice() {
                write!(out, "{b}.")?;
            }
        }
        TokenKind::Sign(sign) => write!(out, "{sign:?}")?,
    }
    write!(out, "@{}", token.at)
}

/// What `lex` gives of a text, as the rows write it.
fn lexed(alloc: Global, text: &str) -> Result<String, AllocError>
    requires { length text.now ≤ most_script }
{
    let mut out = String::new(alloc);
    match lex(alloc, text) {
        Ok(tokens) => {
            for (k, token) in tokens.iter().enumerate() {
                if k > 0 {
                    out.push_str(" ")?;
                }
                write_token(&mut out, token)?;
            }
        }
        Err(refusal) => write!(out, "{refusal}")?,
    }
    Ok(out)
}

fn expect_row(rt: &impl Abort, alloc: Global, text: &str, wanted: &str) -> Result<(), Fail> {
    let text = text.replace(alloc, '/', "\n")?;
    let text = text.as_str().replace(alloc, '`', "\r")?;
    let text = text.as_str().replace(alloc, '\'', "\t")?;
    assert!(rt; text.len() <= MOST_SCRIPT);
    let found = lexed(alloc, text.as_str())?;
    assert_eq!(rt; found.as_str(), wanted, "{text:?}");
    Ok(())
}

#[test]
fn texts_give_their_tokens(rt: HostRuntime) -> Result<(), Fail> {
    for row in ROWS.split('\n') {
        if let Some((text, wanted)) = row.split_once(" => ") {
            expect_row(&rt, rt.alloc(), text, wanted)?;
        }
    }
    Ok(())
}
