//! The text of a run's history. Each text is written by hand.

use jt_trace::{Trace, TraceError, read_trace, write_trace};
use std::alloc::Global;
use std::test::Fail;

const ONE_LINE: &str = "\
julia-tasks trace 1
threads 1,0
seed 1,2,3,4,5
max-turns 100000000
max-events 262144
script 11
println(3)

entries 3
1 0 m begin = ok
2 0 m print x33 = ok
3 0 m end nothing = ok
";

/// Each operation and each kind of reply.
const ALL: &str = "\
julia-tasks trace 1
threads 64,16
seed 0,1,18446744073709551615,10,7
max-turns 1000000000
max-events 262144
script 0

entries 51
1 0 m begin = ok
2 1 m.7 spawn m.0 default = ok
3 2 m spawn m.1 interactive = ok
4 0 m.7 spawn m.2 async = ok
5 1 m spawn m.3 chunk:7 = ok
6 2 m.7 fetch m.0 = nothing
7 0 m fetch m.1 = -9223372036854775808
8 1 m.7 fetch m.2 = true
9 2 m fetch m.3 = task:m.0.4294967295
10 0 m.7 fetch m.3 = channel:m#0
11 1 m fetch m.3 = semaphore:m.1#2
12 2 m.7 fetch m.3 = failed
13 0 m wait m.0 = ok
14 1 m.7 yield = ok
15 2 m print xc3a9 = ok
16 0 m.7 print x = ok
17 1 m newchannel m#0 1048576 = ok
18 2 m.7 newatomic m#1 -1 = ok
19 0 m newevent m#2 true = ok
20 1 m.7 newcondition m#3 = ok
21 2 m newlock m#4 = ok
22 0 m.7 newsemaphore m#5 18446744073709551615 = ok
23 1 m put m#0 9223372036854775807 = closed
24 2 m.7 offer m#0 0 = true
25 0 m landed m#0 1 = ok
26 1 m.7 take m#0 = none
27 2 m next m#0 = 5
28 0 m.7 close m#0 = ok
29 1 m isopen m#0 = false
30 2 m.7 isready m#0 = true
31 0 m notify m#2 = ok
32 1 m.7 reset m#2 = ok
33 2 m ewait m#2 = ok
34 0 m.7 lock m#4 = ok
35 1 m unlock m#4 = notowner
36 2 m.7 unlock m#4 = notlocked
37 0 m cwait m#3 = notheld
38 1 m.7 cback m#3 = ok
39 2 m cnotify m#3 false = 2
40 0 m.7 acquire m#5 = ok
41 1 m release m#5 = ok
42 2 m.7 aget m#1 = -1
43 0 m aset m#1 0 = 0
44 1 m.7 aadd m#1 1 = 1
45 2 m asub m#1 -2 = 3
46 0 m.7 axchg m#1 4 = 3
47 1 m acas m#1 4 5 = true
48 2 m.7 end semaphore:m.1#2 = ok
49 0 m fail taskfailed:m.0 = ok
50 1 m.7 fail error:x6e6f = ok
51 2 m fail divide = ok
";

fn read(alloc: Global, text: &str) -> Option<Trace> {
    read_trace(alloc, text).ok()
}

#[test]
fn a_run_of_one_line_is_read(rt: HostRuntime) {
    match read(rt.alloc(), ONE_LINE) {
        Some(trace) => {
            assert_eq!(rt; (trace.sizes.default, trace.sizes.interactive), (1, 0));
            assert_eq!(rt; trace.seeds.words, [1, 2, 3, 4, 5]);
            assert_eq!(rt;
                (trace.limits.turns, trace.limits.events),
                (100_000_000, 262_144)
            );
            assert_eq!(rt; trace.script.as_str(), "println(3)\n");
            assert_eq!(rt; trace.entries.len(), 3);
        }
        None => assert!(rt; false),
    }
}

#[test]
fn texts_are_read_and_written_as_they_were(rt: HostRuntime) -> Result<(), Fail> {
    for text in [ONE_LINE, ALL] {
        match read_trace(rt.alloc(), text) {
            Ok(trace) => {
                let written = write_trace(rt.alloc(), &trace)?;
                assert_eq!(rt; written.as_str(), text);
            }
            Err(_) => assert!(rt; false),
        }
    }
    Ok(())
}

/// The first bad line, and 0 where the text is read or memory is wanting.
fn bad_line(alloc: Global, text: &str) -> u64 {
    match read_trace(alloc, text) {
        Err(TraceError::BadLine(line)) => line,
        _ => 0,
    }
}

#[test]
fn the_first_bad_line_is_told(rt: HostRuntime) {
    for (text, line) in [
        ("", 1),
        ("julia-tasks trace 2\n", 1),
        ("julia-tasks trace 01\n", 1),
        ("julia-tasks trace 1\n", 2),
        ("julia-tasks trace 1\nthreads 65,0\n", 2),
        ("julia-tasks trace 1\nthreads 1,0\nseed 1,2,3,4\n", 3),
        (
            "julia-tasks trace 1\nthreads 1,0\nseed 1,2,3,4,5\nmax-turns 0\n",
            4,
        ),
        (
            "julia-tasks trace 1\nthreads 1,0\nseed 1,2,3,4,5\nmax-turns 9\nmax-events 9",
            5,
        ),
    ] {
        assert_eq!(rt; bad_line(rt.alloc(), text), line, "at {text}");
    }
}

const HEADER: &str = "\
julia-tasks trace 1
threads 1,0
seed 1,2,3,4,5
max-turns 9
max-events 9
";

#[test]
fn the_first_bad_line_behind_the_header_is_told(rt: HostRuntime) -> Result<(), Fail> {
    for (behind, line) in [
        ("script 12\nprintln(3)\n\nentries 0\n", 9),
        ("script 40\nprintln(3)\n", 8),
        ("script 1\n\u{e9}\nentries 0\n", 7),
        ("script 1\n7\nentries 99999999999999999999999\n", 9),
        ("script 1\n7\nentries 0\n1 0 m begin = ok\n", 9),
        (
            "script 1\n7\nentries 2\n1 0 m begin = ok\n10 0 m yield = ok\n",
            10,
        ),
        ("script 1\n7\nentries 1\n01 0 m begin = ok\n", 9),
    ] {
        let text = format!(in rt.alloc(); "{HEADER}{behind}")?;
        assert_eq!(rt; bad_line(rt.alloc(), text.as_str()), line, "at {behind}");
    }
    Ok(())
}
