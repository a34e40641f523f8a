//! The commands that run a script, and the words that ask for them.

ghost use Rattle.std.specs.Prelude.{◌≡◌, ◌≤◌, IfErr, IfOk, map, string_bytes};
ghost use Rattle.jt_tool.specs.Asked.{Asks, AsksPlain, IsAsked, IsBuilt, command_of};
ghost use Rattle.jt_tool.specs.declared.stop.Stop.TheVariants.{Usage as NoCommand};

use crate::stop::Stop;
use jt_words::{
    Command, RunOptions, command_named, commands_are_within_limits, words_are_one_command,
};
use std::alloc::Global;

/// What a command writes of its run.
#[derive(Clone, Copy, PartialEq, Eq, Debug)]
pub(crate) enum Output {
    /// The lines: `run`.
    Lines,
    /// The trace: `trace`.
    Trace,
}

/// A command that runs a script.
#[derive(Clone, Copy, PartialEq, Eq, Debug)]
pub(crate) struct RunCommand {
    pub(crate) output: Output,
    pub(crate) options: RunOptions,
}

/// A command as one that runs a script. The others aren't built yet.
fn run_command(command: Command) -> Result<RunCommand, Stop>
    ensures built { IfOk result (λ found. (command ≡ command_of found.output found.options) × IsBuilt command) }
    ensures other { IfErr result (λ stop. (stop ≡ NoCommand) × ¬ (IsBuilt command)) }
{
    match command {
        Command::Run(options) => Ok(RunCommand {
            output: Output::Lines,
            options,
        }),
        Command::Trace(options) => Ok(RunCommand {
            output: Output::Trace,
            options,
        }),
        Command::Check => Err(Stop::Usage),
        Command::Draws(_) => Err(Stop::Usage),
        Command::Gen(_) => Err(Stop::Usage),
    }
}

/// The command that the words ask for, or `Usage` where they ask for none.
pub(crate) fn command_asked(alloc: Global, words: &[String]) -> Result<RunCommand, Stop>
    ensures asked { IsAsked (Asks (map string_bytes words.now)) result }
    ensures worker { IfOk result (λ command. 1 ≤ command.options.sizes.default) }
{
    words_are_one_command();
    commands_are_within_limits();
    match command_named(alloc, words)? {
        Some(command) => run_command(command),
        None => Err(Stop::Usage),
    }
}

/// The same with one default worker alone, and `Usage` for other numbers.
pub(crate) fn plain_command_asked(alloc: Global, words: &[String]) -> Result<RunCommand, Stop>
    ensures asked { IsAsked (AsksPlain (map string_bytes words.now)) result }
    ensures worker { IfOk result (λ command. 1 ≤ command.options.sizes.default) }
{
    let command = command_asked(alloc, words)?;
    let sizes = command.options.sizes;
    if sizes.default == 1 && sizes.interactive == 0 {
        Ok(command)
    } else {
        Err(Stop::Usage)
    }
}
