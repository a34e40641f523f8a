//! The line that tells the user of a status.

ghost use Rattle.std.specs.Prelude.{◌≡◌, ◌++◌, ◌≤◌, length, codes, IfOk};
ghost use Rattle.std.specs.Fmt.{decimal};
ghost use Rattle.jt_tool.specs.declared.report.Status.TheVariants.{MainFailed};
ghost use Rattle.jt_tool.specs.Status.{status_note, refusal_word, IsBrief};

use crate::fault::push_fault;
use crate::report::{Refusal, Status};
use arrayvec::ArrayString;
use itoa::Buffer;
use jt_base::{Fault, OutOfMemory, Text};
use std::alloc::Global;

/// Room for the longest note of a status that tells no fault.
pub(crate) const LONGEST_NOTE: usize = 96;

/// The note of a status that tells no fault, empty for `Ok`. It takes no memory.
pub(crate) fn brief_note(status: &Status) -> ArrayString<LONGEST_NOTE>
    requires { IsBrief status.now }
    ensures { result.bytes ≡ status_note status.now }
{
    let mut note = ArrayString::new();
    if matches!(status, Status::Ok) {
        return note;
    }
    note.push_str("julia-tasks: ");
    match status {
        Status::Ok => {}
        Status::MainFailed(_) => {}
        Status::Usage => note.push_str("usage: run, trace, check, draws or gen with options"),
        Status::Refused(kind, at) => {
            note.push_str("refused: ");
            note.push_str(kind.name());
            note.push_str(" at ");
            let mut digits = Buffer::new();
            note.push_str(digits.format(*at));
        }
        Status::ReadFault => note.push_str("reading failed"),
        Status::WriteFault => note.push_str("writing failed"),
        Status::Deadlock => note.push_str("deadlock"),
        Status::EventLimit => note.push_str("event limit"),
        Status::OutOfMemory => note.push_str("out of memory"),
        Status::TooLarge => note.push_str("input too large"),
        Status::NotText => note.push_str("not UTF-8"),
    }
    note.push_str("\n");
    note
}

/// The note of a main task that failed with this fault.
pub(crate) fn failure_note(alloc: Global, fault: &Fault) -> Result<Text, OutOfMemory>
    ensures { IfOk result (λ note. note ≡ status_note (MainFailed fault.now)) }
{
    let mut note = String::from_str(alloc, "julia-tasks: main failed: ")?;
    push_fault(&mut note, fault)?;
    note.push('\n')?;
    Ok(Text::from_string(note))
}
