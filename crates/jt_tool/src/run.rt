//! From a program to its run, with all that is to be written of it.

ghost use Rattle.std.specs.Prelude.{◌≡◌, ◌<◌, ◌≤◌, IfOk, IfErr, length};
ghost use Rattle.jt_laws.specs.Lines.{lines_of};
ghost use Rattle.jt_machine.specs.Runs.{IsRun as IsRunOfProgram};
ghost use Rattle.jt_program.specs.View.{program_plan};
ghost use Rattle.jt_tool.specs.Outcomes.{RunsSource, TellsFailure, told_by};
ghost use Rattle.jt_tool.specs.Stops.{StopsCommand};
ghost use Rattle.jt_tool.specs.Tool.{run_with, status_of_end, trace_with};
ghost use Rattle.jt_trace_text.specs.Written.{trace_text};

use crate::command::{Output, RunCommand};
use crate::note::failure_note;
use crate::program::{Loaded, read_program};
use crate::stop::Stop;
use jt_base::{Entry, OutOfMemory, Picks, Source, Text};
use jt_machine::{End, Run, lines, run_on_one_worker};
use jt_program::Program;
use jt_trace::{Trace, write_trace};
use jt_words::RunOptions;
use std::alloc::Global;

/// A run, the text of it that is to be written, and the note of its main task where that failed.
pub(crate) struct Ran {
    pub(crate) history: Vec<Entry>,
    pub(crate) end: End,
    pub(crate) text: Text,
    pub(crate) failure: Text,
}

/// The note of a main task that failed; nothing at another end.
fn failure_of(alloc: Global, end: &End) -> Result<Text, OutOfMemory>
    ensures { IfOk result (TellsFailure (status_of_end end.now)) }
{
    match end {
        End::MainFailed(fault) => failure_note(alloc, fault),
        End::Ok => Ok(Text::from_string(String::new(alloc))),
        End::Deadlock => Ok(Text::from_string(String::new(alloc))),
        End::EventLimit => Ok(Text::from_string(String::new(alloc))),
    }
}

/// A run with its lines.
fn with_lines(alloc: Global, run: Run) -> Result<Ran, OutOfMemory>
    ensures history { IfOk result (λ ran. ran.history.items ≡ run.history.items) }
    ensures end { IfOk result (λ ran. ran.end ≡ run.end) }
    ensures text { IfOk result (λ ran. ran.text ≡ lines_of ran.history.items) }
    ensures failure { IfOk result (λ ran. TellsFailure (status_of_end ran.end) ran.failure) }
{
    let text = lines(alloc, run.history.as_slice())?;
    let failure = failure_of(alloc, &run.end)?;
    Ok(Ran {
        history: run.history,
        end: run.end,
        text,
        failure,
    })
}

/// A run of a script by these options, with the text of its trace.
fn with_trace(
    alloc: Global,
    options: &RunOptions,
    script: Text,
    run: Run,
) -> Result<Ran, OutOfMemory>
    ensures history { IfOk result (λ ran. ran.history.items ≡ run.history.items) }
    ensures end { IfOk result (λ ran. ran.end ≡ run.end) }
    ensures text { IfOk result (λ ran. ran.text ≡ trace_text (trace_with options.now script ran.history.items)) }
    ensures failure { IfOk result (λ ran. TellsFailure (status_of_end ran.end) ran.failure) }
{
    let trace = Trace {
        sizes: options.sizes,
        seeds: options.seeds,
        limits: options.limits,
        script,
        entries: run.history,
    };
    let text = write_trace(alloc, &trace)?;
    let failure = failure_of(alloc, &run.end)?;
    Ok(Ran {
        history: trace.entries,
        end: run.end,
        text,
        failure,
    })
}

/// A run of a script by this command, with what is to be written of it.
fn told(alloc: Global, command: &RunCommand, script: Text, run: Run) -> Result<Ran, OutOfMemory>
    ensures history { IfOk result (λ ran. ran.history.items ≡ run.history.items) }
    ensures end { IfOk result (λ ran. ran.end ≡ run.end) }
    ensures text { IfOk result (λ ran. ran.text ≡ told_by command.now.output command.now.options script ran.history.items) }
    ensures failure { IfOk result (λ ran. TellsFailure (status_of_end ran.end) ran.failure) }
{
    match command.output {
        Output::Lines => with_lines(alloc, run),
        Output::Trace => with_trace(alloc, &command.options, script, run),
    }
}

/// Runs a program by these options.
fn run_program(alloc: Global, options: &RunOptions, program: &Program) -> Result<Run, OutOfMemory>
    requires main { 0 < length program.now.tasks }
    requires worker { 1 ≤ options.now.sizes.default }
    ensures { IfOk result (λ run. IsRunOfProgram (run_with options.now (program_plan program.now)) options.now.seeds run.history.items run.end) }
{
    run_on_one_worker(
        alloc,
        program,
        &options.seeds,
        options.sizes,
        Picks::new(options.picks),
        &options.limits,
    )
}

/// Runs a script by this command, and makes what is to be written.
fn run_loaded(alloc: Global, command: &RunCommand, loaded: Loaded) -> Result<Ran, OutOfMemory>
    requires main { 0 < length loaded.program.tasks }
    requires worker { 1 ≤ command.now.options.sizes.default }
    ensures run { IfOk result (λ ran. IsRunOfProgram (run_with command.now.options (program_plan loaded.program)) command.now.options.seeds ran.history.items ran.end) }
    ensures text { IfOk result (λ ran. ran.text ≡ told_by command.now.output command.now.options loaded.script ran.history.items) }
    ensures failure { IfOk result (λ ran. TellsFailure (status_of_end ran.end) ran.failure) }
{
    let Loaded { script, program } = loaded;
    let run = run_program(alloc, &command.options, &program)?;
    told(alloc, command, script, run)
}

/// Runs the script that the source gives by the command that was found in the words.
pub(crate) fn run_asked<S: Source>(
    alloc: Global,
    asked: Result<RunCommand, Stop>,
    source: &mut S,
) -> Result<Ran, Stop>
    requires worker { IfOk asked (λ command. 1 ≤ command.options.sizes.default) }
    ensures run { IfOk result (λ ran. RunsSource asked (S.left source.old) (S.left source.new) ran.history.items ran.end ran.text) }
    ensures failure { IfOk result (λ ran. TellsFailure (status_of_end ran.end) ran.failure) }
    ensures stopped { IfErr result (StopsCommand asked (S.left source.old) (S.left source.new) (S.faults source.old) (S.faults source.new)) }
{
    let command = asked?;
    let loaded = read_program(alloc, source)?;
    let ran = run_loaded(alloc, &command, loaded)?;
    Ok(ran)
}
