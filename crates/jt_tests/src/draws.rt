//! The text that `draws` writes. The draws were worked out from the formulas by another program; those
//! of the main task are of the reference code of xoshiro256++.

use crate::words::named;
use jt_draws::draws;
use jt_words::Command;
use std::alloc::Global;
use std::test::Fail;

fn drawn(alloc: Global, words: &[&str], text: &str) -> Result<bool, Fail> {
    match named(alloc, words)? {
        Some(Command::Draws(options)) => {
            let drawn = draws(alloc, &options)?;
            Ok(drawn.as_str() == text)
        }
        _ => Ok(false),
    }
}

#[test]
fn the_main_task_draws(rt: HostRuntime) -> Result<(), Fail> {
    let found = drawn(
        rt.alloc(),
        &["draws", "--seed", "1,2,3,4,5", "--count", "2"],
        "41943041\n58720359\n",
    )?;
    assert!(rt; found);
    Ok(())
}

#[test]
fn a_grandchild_draws_by_its_ancestors(rt: HostRuntime) -> Result<(), Fail> {
    let found = drawn(
        rt.alloc(),
        &["draws", "--count", "3", "--path", "3:1,0:2"],
        "16507661414243898763\n1475294619342877684\n5867492250633890907\n",
    )?;
    assert!(rt; found);
    let found = drawn(
        rt.alloc(),
        &["draws", "--count", "3", "--path", "0:2,3:1"],
        "2352704961194770148\n4741382155402071767\n78949017470361369\n",
    )?;
    assert!(rt; found);
    Ok(())
}
