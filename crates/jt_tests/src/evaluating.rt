//! Tasks of scripts, advanced step by step.

ghost use Rattle.std.specs.Prelude.{◌<◌, length};

use crate::trees::script_of;
use jt_base::{Fault, How, Job, Limits, Op, Path, Pool, Reply, Seeds, Sizes, Text, Value};
use jt_meaning::Start;
use jt_program::Program;
use jt_resolve::resolve;
use jt_step::{Advance, TaskRun};
use std::alloc::{AllocError, Global};
use std::process::Abort;
use std::test::Fail;

const SEEDS: Seeds = Seeds {
    words: [1, 2, 3, 4, 5],
};

// A script, how many ancestors its main task has, and the limit on its turns; the steps, each with the
// turns that it gives and the reply that is noted then, if one is; and what each step tells, with the
// number of the body and the values that a child takes.
const ROWS: &str = "\
while true end ¦0¦1000¦400 ok,400 -,400 -,400 ok,400 -¦begin, more, more, fail TurnLimit, over, 
println(\"a\", 1) ¦0¦1¦0 -,0 ok,0 -,0 ok,0 ok,0 -¦begin, begin, print a1, print a1, end, over, 
f(n) = n == 1 ? 7 : f(n - 1); println(f(10000)) ¦0¦20000¦0 ok,20000 ok,0 ok¦begin, print 7, end, 
f(n) = n == 1 ? 7 : f(n - 1); println(f(10001)) ¦0¦20000¦0 ok,20000 ok,0 -¦begin, fail StackLimit, over, 
f(n) = n == 1 ? 7 : f(n - 1); println(f(10001)) ¦0¦10000¦0 ok,20000 ok,0 -¦begin, fail TurnLimit, over, 
x = 5; t = @spawn x; println(fetch(t)) ¦0¦1¦0 ok,0 -,0 ok,0 12,0 ok¦begin, spawn m.0 of 1 with 5, spawn m.0 of 1 with 5, fetch m.0, print 12, 
x = 5; t = @spawn x; println(fetch(t)) ¦0¦1¦0 ok,0 ok,0 failed,0 ok,0 -¦begin, spawn m.0 of 1 with 5, fetch m.0, fail m.0, over, 
if false; x = 5; end; @spawn x ¦0¦1¦0 ok,0 ok,0 -¦begin, fail Undefined, over, 
x = 5; @spawn x ¦47¦1¦0 ok,0 ok,0 ok,0 -¦begin, spawn m.0.0.0.0.0.0.0.0.0.0.0.0.0.0.0.0.0.0.0.0.0.0.0.0.0.0.0.0.0.0.0.0.0.0.0.0.0.0.0.0.0.0.0.0.0.0.0.0 of 1 with 5, end, over, 
x = 5; @spawn x ¦48¦1¦0 ok,0 ok,0 -¦begin, fail ForkTooDeep, over, 
";

// A function whose task isn't waited for, though it is called inside `@sync`; what was replied at the end
// to the two waits; and what comes next.
const SYNC: &str = "f(x) = @spawn x; x = 5; @sync begin @spawn x; f(x); @spawn x end";

const WAITS: &str = "\
ok,9 ok¦end, 
failed,9 ok¦fail m.0, 
ok,9 failed¦fail m.2, 
failed,9 failed¦fail m.0, 
";

fn push_path(out: &mut String, path: &Path) -> Result<(), AllocError> {
    out.push_str("m")?;
    for index in path.indexes() {
        write!(out, ".{index}")?;
    }
    Ok(())
}

fn push_text(out: &mut String, text: &Text) -> Result<(), AllocError> {
    for byte in text.bytes() {
        out.push(char::from(*byte))?;
    }
    Ok(())
}

fn push_fault(out: &mut String, fault: &Fault) -> Result<(), AllocError> {
    match fault {
        Fault::TaskFailed(path) => push_path(out, path),
        _ => write!(out, "{fault:?}"),
    }
}

fn push_operation(out: &mut String, op: &Op) -> Result<(), AllocError> {
    let word = match op {
        Op::Begin => "begin",
        Op::End(Value::Nothing) => "end",
        Op::Print(_) => "print ",
        Op::Spawn(_, How::Default) => "spawn ",
        Op::Fetch(_) => "fetch ",
        Op::Wait(_) => "wait ",
        Op::Fail(_) => "fail ",
        _ => "another",
    };
    out.push_str(word)?;
    match op {
        Op::Print(text) => push_text(out, text),
        Op::Spawn(path, _) => push_path(out, path),
        Op::Fetch(path) => push_path(out, path),
        Op::Wait(path) => push_path(out, path),
        Op::Fail(fault) => push_fault(out, fault),
        _ => Ok(()),
    }
}

fn push_start(out: &mut String, start: &Start) -> Result<(), AllocError> {
    write!(out, " of {}", start.code)?;
    for value in start.captured.as_slice() {
        if let Value::Int(number) = value {
            write!(out, " with {number}")?;
        }
    }
    if start.home || start.stream != SEEDS.words || start.how != How::Default {
        out.push_str(" otherwise")?;
    }
    Ok(())
}

fn push_said(out: &mut String, said: &Advance) -> Result<(), AllocError> {
    match said {
        Advance::More => out.push_str("more")?,
        Advance::Needs(op) => push_operation(out, op)?,
        Advance::Spawns(op, start) => {
            push_operation(out, op)?;
            push_start(out, start)?;
        }
        Advance::Over => out.push_str("over")?,
    }
    out.push_str(", ")
}

fn reply_of(word: &str) -> Option<Reply> {
    match word {
        "-" => None,
        "ok" => Some(Reply::Ok),
        "failed" => Some(Reply::Failed),
        number => match number.parse::<i64>() {
            Ok(number) => Some(Reply::Val(Value::Int(number))),
            Err(_) => None,
        },
    }
}

// Advances a task as a step says, and adds what it tells.
fn push_step(out: &mut String, task: &mut TaskRun<'_>, step: &str) -> Result<(), Fail> {
    if let Some((turns, reply)) = step.split_once(' ') {
        let said = task.advance(turns.parse::<u32>().unwrap_or(0))?;
        push_said(out, &said)?;
        drop(said);
        if let Some(reply) = reply_of(reply) {
            task.reserve_note()?;
            task.note(1, reply);
        }
    }
    Ok(())
}

fn push_steps(out: &mut String, task: &mut TaskRun<'_>, steps: &str) -> Result<(), Fail> {
    for step in steps.split(',') {
        push_step(out, task, step)?;
    }
    Ok(())
}

fn path_below(depth: u32) -> Result<Path, Fail> {
    let mut path = Path::main();
    for _ in 0..depth {
        path = path.child(0)?;
    }
    Ok(path)
}

// What the steps of a program's main task tell.
fn told(
    alloc: Global,
    program: &Program,
    depth: u32,
    turns: u64,
    steps: &str,
) -> Result<String, Fail>
    requires { 0 < length program.now.tasks }
{
    let sizes = Sizes {
        default: 2,
        interactive: 1,
    };
    let limits = Limits { turns, events: 9 };
    let start = Start::main(alloc, &SEEDS)?;
    let path = path_below(depth)?;
    let mut task = TaskRun::start(alloc, program, start, path, sizes, &limits, Pool::Default)?;
    let mut out = String::new(alloc);
    push_steps(&mut out, &mut task, steps)?;
    Ok(out)
}

fn program_of(rt: &impl Abort, alloc: Global, text: &str) -> Result<Program, Fail> {
    let script = script_of(rt, alloc, text)?;
    Ok(resolve(alloc, &script)?)
}

fn check_row(rt: &impl Abort, alloc: Global, row: &str) -> Result<(), Fail> {
    let mut parts = row.split('¦');
    let program = program_of(rt, alloc, parts.next().unwrap_or(""))?;
    assert!(rt; 0 < program.tasks.len());
    let depth = parts.next().unwrap_or("").parse::<u32>().unwrap_or(0);
    let turns = parts.next().unwrap_or("").parse::<u64>().unwrap_or(0);
    let steps = parts.next().unwrap_or("");
    let found = told(alloc, &program, depth, turns, steps)?;
    assert_eq!(rt; found.as_str(), parts.next().unwrap_or(""));
    Ok(())
}

#[test]
fn tasks_stop_and_go_on(rt: HostRuntime) -> Result<(), Fail> {
    for row in ROWS.split('\n') {
        if !row.is_empty() {
            check_row(&rt, rt.alloc(), row)?;
        }
    }
    Ok(())
}

fn check_waits(rt: &impl Abort, alloc: Global, program: &Program, row: &str) -> Result<(), Fail>
    requires { 0 < length program.now.tasks }
{
    let (replies, last) = row.split_once('¦').unwrap_or(("", ""));
    let mut steps = String::new(alloc);
    write!(steps, "9 ok,9 ok,9 ok,9 ok,9 {replies},9 -")?;
    let found = told(alloc, program, 0, 9, steps.as_str())?;
    let mut wanted = String::new(alloc);
    write!(
        wanted,
        "begin, spawn m.0 of 2 with 5, spawn m.1 of 1 with 5, spawn m.2 of 3 with 5, wait m.0, wait m.2, {last}"
    )?;
    assert_eq!(rt; found.as_str(), wanted.as_str());
    Ok(())
}

#[test]
fn tasks_are_waited_for(rt: HostRuntime) -> Result<(), Fail> {
    let program = program_of(&rt, rt.alloc(), SYNC)?;
    assert!(&rt; 0 < program.tasks.len());
    for row in WAITS.split('\n') {
        if !row.is_empty() {
            check_waits(&rt, rt.alloc(), &program, row)?;
        }
    }
    Ok(())
}
