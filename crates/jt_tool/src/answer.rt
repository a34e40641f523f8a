//! What a command answers: the public report of its run, or of why there was none.

ghost use Rattle.std.specs.Prelude.{◌≡◌, ◌≤◌, [], IfOk};
ghost use Rattle.jt_tool.specs.Outcomes.{AnswersAsked, EndsAs, TellsFailure};
ghost use Rattle.jt_tool.specs.Stops.{status_of_stop};
ghost use Rattle.jt_tool.specs.Tool.{status_of_end};

use crate::command::RunCommand;
use crate::report::{Report, Status};
use crate::run::{Ran, run_asked};
use crate::stop::Stop;
use crate::writing::write_all;
use jt_base::{Sink, Source, Text};
use jt_machine::End;
use std::alloc::Global;

/// A report, and the note of its run's main task where that failed.
pub(crate) struct Outcome {
    pub(crate) report: Report,
    pub(crate) failure: Text,
}

impl From<Stop> for Status {
    ghost use Rattle.std.specs.Prelude.{◌≡◌};
    ghost use Rattle.jt_tool.specs.Stops.{status_of_stop};

    ghost from_gives = { λ stop s. s ≡ status_of_stop stop };

    fn from(stop: Stop) -> Status {
        match stop {
            Stop::Usage => Status::Usage,
            Stop::ReadFault => Status::ReadFault,
            Stop::TooLarge => Status::TooLarge,
            Stop::NotText => Status::NotText,
            Stop::Refused(kind, at) => Status::Refused(kind, at),
            Stop::OutOfMemory => Status::OutOfMemory,
        }
    }
}

impl From<End> for Status {
    ghost use Rattle.std.specs.Prelude.{◌≡◌};
    ghost use Rattle.jt_tool.specs.Tool.{status_of_end};

    ghost from_gives = { λ e s. s ≡ status_of_end e };

    fn from(end: End) -> Status {
        match end {
            End::Ok => Status::Ok,
            End::MainFailed(fault) => Status::MainFailed(fault),
            End::Deadlock => Status::Deadlock,
            End::EventLimit => Status::EventLimit,
        }
    }
}

/// An answer without a run.
fn without_run(alloc: Global, stop: Stop) -> Outcome
    ensures status { result.report.status ≡ status_of_stop stop }
    ensures history { result.report.history.items ≡ [] }
{
    Outcome {
        report: Report {
            status: Status::from(stop),
            history: Vec::new(alloc),
        },
        failure: Text::from_string(String::new(alloc)),
    }
}

/// Writes what is to be written of a run.
fn written<O: Sink>(ran: Ran, out: &mut O) -> Outcome
    requires { TellsFailure (status_of_end ran.end) ran.failure }
    ensures history { result.report.history.items ≡ ran.history.items }
    ensures status { EndsAs (status_of_end ran.end) ran.text (O.written out.old) (O.written out.new) (O.faults out.old) (O.faults out.new) result.report.status }
    ensures failure { TellsFailure result.report.status result.failure }
{
    let Ran {
        history,
        end,
        text,
        failure,
    } = ran;
    let status = match write_all(out, text.bytes()) {
        Ok(()) => Status::from(end),
        Err(_) => Status::WriteFault,
    };
    Outcome {
        report: Report { status, history },
        failure,
    }
}

/// Does the command that was found in the words, if one was.
pub(crate) fn answer<S: Source, O: Sink>(
    alloc: Global,
    asked: Result<RunCommand, Stop>,
    source: &mut S,
    out: &mut O,
) -> Outcome
    requires worker { IfOk asked (λ command. 1 ≤ command.options.sizes.default) }
    ensures answers { AnswersAsked S.left S.faults O.written O.faults asked source.old source.new out.old out.new result.report.status result.report.history.items }
    ensures failure { TellsFailure result.report.status result.failure }
{
    match run_asked(alloc, asked, source) {
        Ok(ran) => written(ran, out),
        Err(stop) => without_run(alloc, stop),
    }
}
