//! That picks choose among ready tasks, which no contract says.

use crate::trees::script_of;
use jt_base::{Limits, Picks, Seeds};
use jt_machine::{lines, run_plain};
use jt_program::Program;
use jt_resolve::resolve;
use std::alloc::Global;
use std::process::Abort;
use std::test::Fail;

// Which of two printing tasks of this program prints first by these picks.
fn first_line(rt: &impl Abort, alloc: Global, program: &Program, picks: u64) -> Result<u8, Fail> {
    let seeds = Seeds {
        words: [1, 2, 3, 4, 5],
    };
    let limits = Limits {
        turns: 1000,
        events: 1000,
    };
    assert!(rt; 0 < program.tasks.len());
    let run = run_plain(alloc, program, &seeds, Picks::new(picks), &limits)?;
    let lines = lines(alloc, run.history.as_slice())?;
    match lines.bytes() {
        b"1\n2\n" => Ok(1),
        b"2\n1\n" => Ok(2),
        _ => Ok(0),
    }
}

// Two tasks print in either order, as the picks have it.
#[test]
fn picks_give_both_orders(rt: HostRuntime) -> Result<(), Fail> {
    let alloc = rt.alloc();
    let text = "a = @spawn println(1); b = @spawn println(2); wait(a); wait(b)";
    let script = script_of(&rt, alloc, text)?;
    let program = resolve(alloc, &script)?;
    let mut first: u32 = 0;
    let mut second: u32 = 0;
    for picks in 0..64_u64 {
        match first_line(&rt, alloc, &program, picks)? {
            1 => first = u32::wrapping_add(first, 1),
            2 => second = u32::wrapping_add(second, 1),
            _ => {}
        }
    }
    assert_eq!(&rt; u32::wrapping_add(first, second), 64);
    assert!(&rt; first > 0);
    assert!(&rt; second > 0);
    Ok(())
}
