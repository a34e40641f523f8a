//! The commands, from bytes to bytes.

ghost use Rattle.std.specs.Prelude.{◌≡◌, ◌≤◌, IfOk, map, string_bytes};
ghost use Rattle.jt_tool.specs.Asked.{Asks, AsksPlain};
ghost use Rattle.jt_tool.specs.declared.report.Status.TheVariants.{WriteFault};
ghost use Rattle.jt_tool.specs.Outcomes.{AnswersAsked, TellsFailure};
ghost use Rattle.jt_tool.specs.Status.{status_note, IsBrief};
ghost use Rattle.jt_tool.specs.Tool.{Answers, IsNoted};

use crate::answer::{Outcome, answer};
use crate::command::{RunCommand, command_asked, plain_command_asked};
use crate::note::{LONGEST_NOTE, brief_note};
use crate::report::{Report, Status};
use crate::stop::Stop;
use crate::writing::write_all;
use arrayvec::ArrayString;
use jt_base::{Gate, Sink, Source, Text};
use std::alloc::Global;
use std::sync::Wait;
use std::thread::Threads;

/// Writes the note of a status that tells no fault. A write that fails changes nothing else. It
/// takes no memory.
pub fn tell<N: Sink>(notes: &mut N, status: &Status)
    requires { IsBrief status.now }
    ensures { IsNoted N.written N.faults notes.old notes.new status.now }
{
    let note = brief_note(status);
    let _written = write_all(notes, note.as_str().as_bytes());
}

/// Writes the note of a status: that of a failed main task or of a write fault as it was made
/// before the first write.
fn tell_after_writing<N: Sink>(
    notes: &mut N,
    status: &Status,
    failure: &Text,
    write_fault: &ArrayString<LONGEST_NOTE>,
)
    requires failure { TellsFailure status.now failure.now }
    requires write_fault { write_fault.now.bytes ≡ status_note WriteFault }
    ensures { IsNoted N.written N.faults notes.old notes.new status.now }
{
    match status {
        Status::MainFailed(_) => {
            let _written = write_all(notes, failure.bytes());
        }
        Status::WriteFault => {
            let _written = write_all(notes, write_fault.as_str().as_bytes());
        }
        _ => tell(notes, status),
    }
}

/// Does the command that was found in the words, if one was, and writes its note.
fn answer_and_note<S: Source, O: Sink, N: Sink>(
    alloc: Global,
    asked: Result<RunCommand, Stop>,
    source: &mut S,
    out: &mut O,
    notes: &mut N,
) -> Report
    requires worker { IfOk asked (λ command. 1 ≤ command.options.sizes.default) }
    ensures answers { AnswersAsked S.left S.faults O.written O.faults asked source.old source.new out.old out.new result.status result.history.items }
    ensures noted { IsNoted N.written N.faults notes.old notes.new result.status }
{
    let write_fault = brief_note(&Status::WriteFault);
    let Outcome { report, failure } = answer(alloc, asked, source, out);
    tell_after_writing(notes, &report.status, &failure, &write_fault);
    report
}

/// Does the commands `run` and `trace` with one default worker: reads the script to the end of `source` or
/// one byte past its most, `MOST_SCRIPT`, runs it by the seed words, the picks and the limits of the words,
/// and writes to `out` the lines of the run, or its trace, and one line to `notes` for each status but `Ok`.
/// All that is written is made before the first write, and writing takes no memory.
///
/// The history is that of the run: it ends with the end of the script's main task with `Ok`, with
/// its failure with `MainFailed`, with `Deadlock` where the main task hasn't ended and no task can go on,
/// and with `EventLimit` where a further entry would have a stamp greater than the limit on entries.
/// `WriteFault` comes in place of these, and only where a write to `out` failed; a prefix of what was to be
/// written stands there then.
///
/// `Usage` comes exactly where `words` are no `run` and no `trace` with one default and no interactive
/// worker, `ReadFault` only where a read of `source` failed, `TooLarge` exactly where it gives more bytes
/// than the most, `NotText` exactly where the bytes aren't UTF-8, and `Refused` exactly where the text has no
/// tokens, its tokens are no script, a form of the script isn't built yet, or it breaks a rule of names,
/// with the kind and the place of the first of these that holds. With these and with `OutOfMemory` nothing
/// is written to `out` and the history is empty. A failing write to `notes` changes nothing.
pub fn plain_tool<S: Source, O: Sink, N: Sink>(
    alloc: Global,
    words: &[String],
    source: &mut S,
    out: &mut O,
    notes: &mut N,
) -> Report
    ensures answers { Answers S.left S.faults O.written O.faults (AsksPlain (map string_bytes words.now)) source.old source.new out.old out.new result.status result.history.items }
    ensures noted { IsNoted N.written N.faults notes.old notes.new result.status }
{
    let asked = plain_command_asked(alloc, words);
    answer_and_note(alloc, asked, source, out, notes)
}

/// Does the commands `run` and `trace` as [`plain_tool`] does, with any numbers of workers: 1 to 64 default
/// ones, and 0 to 16 interactive ones. So far the first worker makes every entry, no thread is started, and
/// the gate isn't asked.
pub fn run_tool<R: Threads + Wait + Sync, S: Source, O: Sink, N: Sink, G: Gate>(
    _rt: &R,
    alloc: Global,
    words: &[String],
    source: &mut S,
    out: &mut O,
    notes: &mut N,
    _gate: &G,
) -> Report
    ensures answers { Answers S.left S.faults O.written O.faults (Asks (map string_bytes words.now)) source.old source.new out.old out.new result.status result.history.items }
    ensures noted { IsNoted N.written N.faults notes.old notes.new result.status }
{
    let asked = command_asked(alloc, words);
    answer_and_note(alloc, asked, source, out, notes)
}
