//! What the trees of texts are printed as, worked out by hand from the rules of the grammar, also where the
//! printed text was read again; and texts with as many openers as may be open. In the tables `¶` stands
//! for a newline. The texts also stand in `tests/` at the top, with what the program answers to them.

use jt_base::MOST_SCRIPT;
use jt_lexer::lex;
use jt_parser::parse;
use jt_printer::{print_script, reread};
use jt_syntax::Script;
use std::alloc::Global;
use std::process::Abort;
use std::test::Fail;

// A text, and what its tree is printed as.
const PRINTED: &str = "\
1 + 2 * 3 << 1 => 1 + 2 * 3 << 1 ; 
(1 + 2) * 3 => ( 1 + 2 ) * 3 ; 
-2^2 => - 2 ^ 2 ; 
2^-3^x => 2 ^ - 3 ^ x ; 
a + b - c | d ⊻ e => a + b - c | d ⊻ e ; 
a*b÷c%d&e => a * b ÷ c % d & e ; 
8 << 1 >> 2 >>> 3 => 8 << 1 >> 2 >>> 3 ; 
1 < 2 <= 2 == x != y > 0 >= z => 1 < 2 <= 2 == x != y > 0 >= z ; 
a ≤ b ≥ c ≠ d => a <= b >= c != d ; 
a && b || c && d => a && b || c && d ; 
a ? b : c ? d : e => a ? b : c ? d : e ; 
!a && ~b == +c => ! a && ~ b == + c ; 
1_000 + 007 => 1000 + 7 ; 
x = 1 => x = 1 ; 
x += 1; x -= 2; x *= 3; x ÷= 4; x %= 5 => x += 1 ; x -= 2 ; x *= 3 ; x ÷= 4 ; x %= 5 ; 
a[] = a[] + 1 => a [ ] = a [ ] + 1 ; 
a[ ] == 1 => a [ ] == 1 ; 
f(a, b) = a => f ( a , b ) = a ; 
f() = 1 => f ( ) = 1 ; 
f(a, b) == a => f ( a , b ) == a ; 
f (1,¶2) => f ( 1 , 2 ) ; 
f(g(x), -1) => f ( g ( x ) , - 1 ) ; 
a && b && return => a && b && return ; 
a && return 1 || b => a && return 1 || b ; 
a && b || c || break => a && b || c || break ; 
while true; x > 2 && break; x > 1 || continue; end => while true ; x > 2 && break ; x > 1 || continue ; end ; 
println(begin return end) => println ( begin return ; end ) ; 
println() => println ( ) ; 
println(\"a\\n\", x, \" \") => println ( \"a\\n\" , x , \" \" ) ; 
println(\"a¶b\\$\") => println ( \"a\\nb\\$\" ) ; 
error(\"no\") => error ( \"no\" ) ; 
c = Channel{Int64}(); d = Channel{Int64}(2) => c = Channel { Int64 } ( ) ; d = Channel { Int64 } ( 2 ) ; 
Threads.Atomic{Int64}(0) => Atomic { Int64 } ( 0 ) ; 
typemin(Int64) + typemax(Int64) + rand(Int64) + rand(1:n + 1) => typemin ( Int64 ) + typemax ( Int64 ) + rand ( Int64 ) + rand ( 1 : n + 1 ) ; 
notify(c; all = false); notify(c, all = true); notify(c, all) => notify ( c , all = false ) ; notify ( c , all = true ) ; notify ( c , all ) ; 
Base.acquire(s); Threads.Condition() => acquire ( s ) ; Condition ( ) ; 
t = Threads.@spawn :interactive f($x) + 1 => t = @spawn : interactive f ( $ x ) + 1 ; 
@spawn :default 1 => @spawn : default 1 ; 
@async @sync a && b => @async @sync a && b ; 
@sync for k in 1:3¶@spawn f(k)¶end => @sync for k in 1 : 3 ; @spawn f ( k ) ; end ; 
Threads.@threads :static for i = 1:n; f(i); end => @threads : static for i in 1 : n ; f ( i ) ; end ; 
@threads for i in 1:n end => @threads for i in 1 : n ; end ; 
for x = c; end; for x in c end => for x in c ; end ; for x in c ; end ; 
for i =¶1:¶3¶f(i) end => for i in 1 : 3 ; f ( i ) ; end ; 
if a end => if a ; end ; 
if a¶x¶elseif b; y¶else z end => if a ; x ; elseif b ; y ; else z ; end ; 
if a; else end => if a ; else end ; 
begin end; begin; 1;; 2; end => begin end ; begin 1 ; 2 ; end ; 
begin 1¶2 end => begin 1 ; 2 ; end ; 
while a end => while a ; end ; 
;;¶1¶¶;2; => 1 ; 2 ; 
 => 
# all¶#= a #= b =# =# => 
x = 1 +¶2 => x = 1 + 2 ; 
x =¶¶1 => x = 1 ; 
x = -¶1 => x = - 1 ; 
x = (1¶+ 2) => x = ( 1 + 2 ) ; 
x = 1¶- 2 => x = 1 ; - 2 ; 
a ?¶b :¶c => a ? b : c ; 
a &&¶b ||¶return => a && b || return ; 
(begin 1¶2 end) => ( begin 1 ; 2 ; end ) ; 
@spawn :¶interactive f() => @spawn : interactive f ( ) ; 
using Base.Threads; const n = 3 => using Base.Threads ; const n = 3 ; 
function f() end => function f ( ) ; end ; 
function f(a,¶b)¶return a¶end => function f ( a , b ) ; return a ; end ; 
return; return 1 => return ; return 1 ; 
nothing == Inf => nothing == Inf ; 
";

// What stands before a part, the part, how often it stands there, what stands behind it, and what closes
// the parts.
const CLOSED: &str = "\
x = ¦(¦200¦1¦)¦200
¦-¦200¦1¦¦0
x = ¦(1) + ¦300¦1¦¦0
¦begin ¦200¦¦end ¦200
¦a && ¦300¦b¦¦0
¦f(1); ¦300¦¦¦0
¦if a; else ¦200¦¦end ¦200
¦2^2 + ¦300¦1¦¦0
¦@threads for i in 1:2; ¦100¦¦end; ¦100
";

// A text of a table.
fn text_of(alloc: Global, row: &str) -> Result<String, Fail> {
    Ok(row.replace(alloc, '¶', "\n")?)
}

// The parts of a row, in which the third is how often the second stands.
fn push_repeated(alloc: Global, text: &mut String, part: &str, times: &str) -> Result<(), Fail> {
    let part = text_of(alloc, part)?;
    for _ in 0..times.parse::<usize>().unwrap_or(0) {
        text.push_str(part.as_str())?;
    }
    Ok(())
}

// A text of the table of nested texts.
fn nested_text(alloc: Global, row: &str) -> Result<String, Fail> {
    let mut text = String::new(alloc);
    let mut parts = row.split('¦');
    text.push_str(parts.next().unwrap_or(""))?;
    let part = parts.next().unwrap_or("");
    push_repeated(alloc, &mut text, part, parts.next().unwrap_or(""))?;
    text.push_str(parts.next().unwrap_or(""))?;
    let closing = parts.next().unwrap_or("");
    push_repeated(alloc, &mut text, closing, parts.next().unwrap_or(""))?;
    Ok(text)
}

// The script that a text is.
pub fn script_of(rt: &impl Abort, alloc: Global, text: &str) -> Result<Script, Fail> {
    assert!(rt; text.len() <= MOST_SCRIPT);
    let tokens = lex(alloc, text)?;
    Ok(parse(alloc, tokens.as_slice())?)
}

// What the script of a text is printed as, also when the printed text was read again.
fn check_printed(rt: &impl Abort, alloc: Global, text: &str, printed: &str) -> Result<(), Fail> {
    let script = script_of(rt, alloc, text)?;
    let found = print_script(alloc, &script)?;
    assert_eq!(rt; found.as_slice(), printed.as_bytes());
    let again = print_script(alloc, &reread(alloc, &script)?)?;
    assert_eq!(rt; again.as_slice(), printed.as_bytes());
    Ok(())
}

// Each text is printed as it should be; and 200 openers aren't too many.
#[test]
fn scripts_are_printed(rt: HostRuntime) -> Result<(), Fail> {
    let alloc = rt.alloc();
    let mut rows: u32 = 0;
    for row in PRINTED.split('\n') {
        if let Some((text, printed)) = row.split_once(" => ") {
            check_printed(&rt, alloc, text_of(alloc, text)?.as_str(), printed)?;
            rows = u32::wrapping_add(rows, 1);
        }
    }
    assert_eq!(&rt; rows, 67);
    for row in CLOSED.split('\n') {
        if !row.is_empty() {
            script_of(&rt, alloc, nested_text(alloc, row)?.as_str())?;
        }
    }
    Ok(())
}
