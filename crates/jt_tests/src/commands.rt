//! The commands over sources, sinks and notes in memory: reads and writes that fail in mid-stream, the
//! words of one worker, and histories.

use jt_base::{Entry, Fault, MemorySink, MemorySource, Op, OpenGate, Path, Reply, Text, Value};
use jt_tool::{Report, Status, plain_tool, run_tool};
use std::alloc::Global;
use std::process::Abort;
use std::test::Fail;

// What `run` is given, and what it is to answer and to write.
#[derive(Clone, Copy)]
struct Case<'a> {
    script: &'a [u8],
    // the most bytes of a read, and the reads that fail
    most_read: usize,
    failing_reads: &'a [u64],
    // the most bytes of a write, and the writes that fail
    most_written: usize,
    failing_writes: &'a [u64],
    // the exit status
    status: u8,
    lines: &'a [u8],
    note: &'a [u8],
}

fn strings(alloc: Global, words: &[&str]) -> Result<Vec<String>, Fail> {
    let mut all = Vec::new(alloc);
    for word in words {
        all.push(String::from_str(alloc, word)?)?;
    }
    Ok(all)
}

// Runs a case with notes that fail at these writes.
fn check_with(
    rt: &impl Abort,
    alloc: Global,
    case: &Case<'_>,
    failing_notes: &[u64],
) -> Result<(), Fail> {
    let words = strings(alloc, &["run"])?;
    let mut source = MemorySource::new(
        alloc,
        case.script,
        case.most_read.max(1),
        case.failing_reads,
    )?;
    let mut out = MemorySink::new(alloc, case.most_written.max(1), 4096, case.failing_writes)?;
    let mut notes = MemorySink::new(alloc, 4096, 4096, failing_notes)?;
    let report = plain_tool(alloc, words.as_slice(), &mut source, &mut out, &mut notes);
    assert_eq!(rt; report.status.number(), case.status);
    assert_eq!(rt; out.written(), case.lines);
    let is_noted = failing_notes.is_empty();
    assert_eq!(rt;
        notes.written(),
        if is_noted { case.note } else { b"".as_slice() }
    );
    Ok(())
}

// Runs a case with notes that are taken, and with notes that fail, with the same answer.
fn check(rt: &impl Abort, alloc: Global, case: &Case<'_>) -> Result<(), Fail> {
    check_with(rt, alloc, case, &[])?;
    check_with(rt, alloc, case, &[1])
}

// Three lines with two bytes at a write, of which some fail.
#[test]
fn writes_fail_in_mid_stream(rt: HostRuntime) -> Result<(), Fail> {
    let failed: &[u8] = b"julia-tasks: writing failed\n";
    let rows: [(&[u64], u8, &[u8], &[u8]); 4] = [
        (&[1], 5, b"", failed),
        (&[2], 5, b"1\n", failed),
        (&[3], 5, b"1\n2\n", failed),
        (&[4], 0, b"1\n2\n3\n", b""),
    ];
    for (failing_writes, status, lines, note) in rows {
        let case = Case {
            script: b"println(1); println(2); println(3)",
            most_read: 4096,
            failing_reads: &[],
            most_written: 2,
            failing_writes,
            status,
            lines,
            note,
        };
        check(&rt, rt.alloc(), &case)?;
    }
    Ok(())
}

// One line with four bytes at a read, of which some fail: three reads, and the one that finds the end.
#[test]
fn reads_fail_in_mid_stream(rt: HostRuntime) -> Result<(), Fail> {
    let failed: &[u8] = b"julia-tasks: reading failed\n";
    let rows: [(&[u64], u8, &[u8], &[u8]); 5] = [
        (&[1], 4, b"", failed),
        (&[2], 4, b"", failed),
        (&[3], 4, b"", failed),
        (&[4], 4, b"", failed),
        (&[5], 0, b"1\n", b""),
    ];
    for (failing_reads, status, lines, note) in rows {
        let case = Case {
            script: b"println(1)",
            most_read: 4,
            failing_reads,
            most_written: 4096,
            failing_writes: &[],
            status,
            lines,
            note,
        };
        check(&rt, rt.alloc(), &case)?;
    }
    Ok(())
}

// What one worker answers to these words and this script.
fn plain_report(alloc: Global, words: &[&str], script: &[u8]) -> Result<Report, Fail> {
    let words = strings(alloc, words)?;
    let mut source = MemorySource::new(alloc, script, 4096, &[])?;
    let mut out = MemorySink::new(alloc, 4096, 2_000_000, &[])?;
    let mut notes = MemorySink::new(alloc, 4096, 4096, &[])?;
    Ok(plain_tool(alloc, words.as_slice(), &mut source, &mut out, &mut notes))
}

// With one worker alone other numbers of workers are no command.
#[test]
fn one_worker_is_plain(rt: HostRuntime) -> Result<(), Fail> {
    let rows: [(&[&str], u8); 6] = [
        (&["run"], 0),
        (&["run", "--threads", "1"], 0),
        (&["run", "--threads", "1,0"], 0),
        (&["run", "--threads", "2"], 2),
        (&["run", "--threads", "1,1"], 2),
        (&["runs"], 2),
    ];
    for (words, number) in rows {
        let report = plain_report(rt.alloc(), words, b"println(1)")?;
        assert_eq!(&rt; report.status.number(), number);
    }
    Ok(())
}

fn entry(stamp: u32, op: Op) -> Entry {
    Entry {
        stamp,
        worker: 0,
        task: Path::main(),
        op,
        reply: Reply::Ok,
    }
}

// Compares the history of a script that prints 3 and then ends so.
fn check_history(rt: &impl Abort, alloc: Global, history: &[Entry], end: Op) -> Result<(), Fail> {
    let mut expected = Vec::new(alloc);
    expected.push(entry(1, Op::Begin))?;
    expected.push(entry(2, Op::Print(Text::from_str(alloc, "3")?)))?;
    expected.push(entry(3, end))?;
    assert_eq!(rt; history, expected.as_slice());
    Ok(())
}

#[test]
fn entries_of_a_main_task(rt: HostRuntime) -> Result<(), Fail> {
    let alloc = rt.alloc();
    let report = plain_report(alloc, &["run"], b"println(3)\n")?;
    assert_eq!(&rt; report.status, Status::Ok);
    let end = Op::End(Value::Nothing);
    check_history(&rt, alloc, report.history.as_slice(), end)?;
    let report = plain_report(alloc, &["run"], b"println(3); div(1, 0); println(4)")?;
    assert_eq!(&rt; report.status, Status::MainFailed(Fault::Divide));
    let end = Op::Fail(Fault::Divide);
    check_history(&rt, alloc, report.history.as_slice(), end)
}

// The first entry begins the main task, and the others up to the limit of 262,144 print.
#[test]
fn events_are_limited(rt: HostRuntime) -> Result<(), Fail> {
    let script = b"for i in 1:300000; println(i); end";
    let report = plain_report(rt.alloc(), &["run"], script)?;
    assert_eq!(&rt; report.status, Status::EventLimit);
    assert_eq!(&rt; report.history.len(), 262_144);
    Ok(())
}

const FIB: &[u8] = b"\
function fib(n)
    if n < 2
        return n
    end
    t = Threads.@spawn fib(n - 2)
    fib(n - 1) + fetch(t)
end
println(fib(20))
";

// A task but the main one has four entries, and there are 10,945 others: one for each call with n of 2 or
// more. Main has a begin, an end and a print.
#[test]
fn entries_of_many_tasks(rt: HostRuntime) -> Result<(), Fail> {
    let alloc = rt.alloc();
    for sizes in ["1", "4,1"] {
        let words = strings(alloc, &["run", "--threads", sizes])?;
        let mut source = MemorySource::new(alloc, FIB, 4096, &[])?;
        let mut out = MemorySink::new(alloc, 4096, 4096, &[])?;
        let mut notes = MemorySink::new(alloc, 4096, 4096, &[])?;
        let report = run_tool(
            &rt,
            alloc,
            words.as_slice(),
            &mut source,
            &mut out,
            &mut notes,
            &OpenGate,
        );
        assert_eq!(&rt; report.status, Status::Ok);
        assert_eq!(&rt; report.history.len(), 43_783);
        assert_eq!(&rt; out.written(), b"6765\n".as_slice());
    }
    Ok(())
}
