//! The program `julia-tasks`: hands its words and the standard streams to the commands, and ends with
//! the number of their status.
#![tactic(auto)]

use jt_base::{OpenGate, OutOfMemory, StdSink, StdSource};
use jt_tool::{Status, run_tool, tell};
use std::env;
use std::io::ErrorKind;
use std::process::ExitCode;

/// The words behind the program's name. Where one of them isn't UTF-8 they are no command, so none
/// is given.
fn words(rt: &HostRuntime) -> Result<Vec<String>, OutOfMemory> {
    let mut words = Vec::new(rt.alloc());
    match env::args(rt) {
        Ok(args) => {
            for word in args.skip(1) {
                words.push(word)?;
            }
            Ok(words)
        }
        Err(error) if error.kind() == ErrorKind::OutOfMemory => Err(OutOfMemory),
        Err(_) => Ok(words),
    }
}

fn main(rt: HostRuntime) -> ExitCode {
    let mut notes = StdSink::new(rt.stderr());
    let status = match words(&rt) {
        Ok(words) => {
            run_tool(
                &rt,
                rt.alloc(),
                words.as_slice(),
                &mut StdSource::new(rt.stdin()),
                &mut StdSink::new(rt.stdout()),
                &mut notes,
                &OpenGate,
            )
            .status
        }
        Err(OutOfMemory) => {
            tell(&mut notes, &Status::OutOfMemory);
            Status::OutOfMemory
        }
    };
    ExitCode::from(status.number())
}
