//! The words of the commands, some of each command.

use jt_base::{Limits, Seeds, Sizes};
use jt_words::{Ancestor, Command, GenOptions, RunOptions, command_named};
use std::alloc::Global;
use std::test::Fail;

pub(crate) fn named(alloc: Global, words: &[&str]) -> Result<Option<Command>, Fail> {
    let mut all = Vec::new(alloc);
    for word in words {
        all.push(String::from_str(alloc, word)?)?;
    }
    Ok(command_named(alloc, all.as_slice())?)
}

const OPTIONS: RunOptions = RunOptions {
    sizes: Sizes {
        default: 4,
        interactive: 1,
    },
    seeds: Seeds {
        words: [1, 2, 3, 4, 5],
    },
    picks: 7,
    limits: Limits {
        turns: 5,
        events: 262_144,
    },
};

#[test]
fn a_run_and_a_trace_have_options_by_name(rt: HostRuntime) -> Result<(), Fail> {
    let found = match named(
        rt.alloc(),
        &["run", "--picks=7", "--threads", "4,1", "--max-turns", "5"],
    )? {
        Some(Command::Run(run)) => run == OPTIONS,
        _ => false,
    };
    assert!(rt; found);
    let found = match named(
        rt.alloc(),
        &["trace", "--max-turns=5", "--picks", "7", "--threads=4,1"],
    )? {
        Some(Command::Trace(run)) => run == OPTIONS,
        _ => false,
    };
    assert!(rt; found);
    Ok(())
}

#[test]
fn draws_have_a_count_and_ancestors(rt: HostRuntime) -> Result<(), Fail> {
    let found = match named(rt.alloc(), &["draws", "--count", "3", "--path", "1:2,0:0"])? {
        Some(Command::Draws(draws)) => {
            draws.count == 3
                && draws.ancestry.ancestors()
                    == [
                        Ancestor { draws: 1, forks: 2 },
                        Ancestor { draws: 0, forks: 0 },
                    ]
                    .as_slice()
        }
        _ => false,
    };
    assert!(rt; found);
    Ok(())
}

#[test]
fn a_script_is_generated_or_run(rt: HostRuntime) -> Result<(), Fail> {
    let text = GenOptions {
        size: 2,
        text: true,
    };
    let found = match named(rt.alloc(), &["gen", "--text", "--size=2"])? {
        Some(Command::Gen(options)) => options == text,
        _ => false,
    };
    assert!(rt; found);
    let found = match named(rt.alloc(), &["check"])? {
        Some(Command::Check) => true,
        _ => false,
    };
    assert!(rt; found);
    assert!(rt; named(rt.alloc(), &["gen", "--size=81"])?.is_none());
    Ok(())
}
