//! From words to commands.

ghost use Rattle.std.specs.Prelude.{Some, ◌≡◌, ◌∷◌, IfNone, IfOk, IfSome, map, option_map, string_bytes};
ghost use Rattle.jt_words.specs.Commands.{Exactly, IsCommand, AreDrawsOptions, AreGenOptions, AreRunOptions, check_of};
ghost use Rattle.jt_words.specs.declared.command.DrawsOptions.{DrawsOptions as DrawsValue};
ghost use Rattle.jt_words.specs.declared.command.RunOptions.{RunOptions as RunValue};
ghost use Rattle.jt_words.specs.declared.command.GenOptions.{GenOptions as GenValue};

use crate::ancestry::{Ancestry, ancestry_or_none};
use crate::command::{Command, DrawsOptions, GenOptions, RunOptions};
use crate::number::{number_or, required_number, small_number_or};
use crate::parser::{draws_parser, gen_parser, matches_of, run_parser};
use crate::seeds::seed_or_default;
use crate::sizes::sizes_or_one;
use jt_base::{DEFAULT_LIMITS, Limits, OutOfMemory, Seeds, Sizes};
use std::alloc::{AllocError, Global};

/// What a run is to do, where all is there.
fn run_with(
    sizes: Option<Sizes>,
    seed: Option<[u64; 5]>,
    picks: Option<u64>,
    turns: Option<u64>,
    events: Option<u32>,
) -> Option<RunOptions>
    ensures some { IfSome result (λ r. (sizes ≡ Some r.sizes) × (seed ≡ Some r.seeds.words)
        × (picks ≡ Some r.picks) × (turns ≡ Some r.limits.turns) × (events ≡ Some r.limits.events)) }
    ensures none { IfNone result ((r : RunValue) → sizes ≡ Some r.sizes → seed ≡ Some r.seeds.words
        → picks ≡ Some r.picks → turns ≡ Some r.limits.turns → events ≡ Some r.limits.events → ⊥) }
{
    Some(RunOptions {
        sizes: sizes?,
        seeds: Seeds { words: seed? },
        picks: picks?,
        limits: Limits {
            turns: turns?,
            events: events?,
        },
    })
}

/// What the words behind `run` or `trace` say, and nothing exactly where they say nothing.
fn run_options(alloc: Global, words: &[String]) -> Result<Option<RunOptions>, AllocError>
    ensures { IfOk result (Exactly (AreRunOptions (map string_bytes words.now))) }
{
    match matches_of(run_parser(alloc)?, words)? {
        None => Ok(None),
        Some(matches) => {
            let sizes = sizes_or_one(alloc, matches.get_str("threads"))?;
            let seed = seed_or_default(alloc, matches.get_str("seed"))?;
            let picks = number_or(matches.get_str("picks"), 0, 0, u64::MAX);
            let turns = number_or(
                matches.get_str("max-turns"),
                DEFAULT_LIMITS.turns,
                1,
                1_000_000_000,
            );
            let events = small_number_or(
                matches.get_str("max-events"),
                DEFAULT_LIMITS.events,
                1,
                262_144,
            );
            Ok(run_with(sizes, seed, picks, turns, events))
        }
    }
}

/// What `draws` is to do, where all is there.
fn draws_with(
    seed: Option<[u64; 5]>,
    count: Option<u32>,
    ancestry: Option<Ancestry>,
) -> Option<DrawsOptions>
    ensures some { IfSome result (λ d. (seed ≡ Some d.seeds.words) × (count ≡ Some d.count)
        × (ancestry ≡ Some d.ancestry)) }
    ensures none { IfNone result ((d : DrawsValue) → seed ≡ Some d.seeds.words → count ≡ Some d.count
        → ancestry ≡ Some d.ancestry → ⊥) }
{
    match (seed, count, ancestry) {
        (Some(words), Some(count), Some(ancestry)) => Some(DrawsOptions {
            seeds: Seeds { words },
            count,
            ancestry,
        }),
        _ => None,
    }
}

/// What the words behind `draws` say, and nothing exactly where they say nothing.
fn draws_options(alloc: Global, words: &[String]) -> Result<Option<DrawsOptions>, AllocError>
    ensures { IfOk result (Exactly (AreDrawsOptions (map string_bytes words.now))) }
{
    match matches_of(draws_parser(alloc)?, words)? {
        None => Ok(None),
        Some(matches) => {
            let seed = seed_or_default(alloc, matches.get_str("seed"))?;
            let count = required_number(matches.get_str("count"), 1, 1_000);
            let ancestry = ancestry_or_none(alloc, matches.get_str("path"))?;
            Ok(draws_with(seed, count, ancestry))
        }
    }
}

/// What `gen` is to do, where there is a size.
fn gen_with(size: Option<u32>, text: bool) -> Option<GenOptions>
    ensures some { IfSome result (λ g. (size ≡ Some g.size) × (text ≡ g.text)) }
    ensures none { IfNone result ((g : GenValue) → size ≡ Some g.size → ⊥) }
{
    Some(GenOptions { size: size?, text })
}

/// What the words behind `gen` say, and nothing exactly where they say nothing.
fn gen_options(alloc: Global, words: &[String]) -> Result<Option<GenOptions>, AllocError>
    ensures { IfOk result (Exactly (AreGenOptions (map string_bytes words.now))) }
{
    match matches_of(gen_parser(alloc)?, words)? {
        None => Ok(None),
        Some(matches) => {
            let size = required_number(matches.get_str("size"), 1, 80);
            let text = matches.contains_id("text");
            Ok(gen_with(size, text))
        }
    }
}

/// The command to run, where there is one.
fn run_command(run: Option<RunOptions>) -> Option<Command>
    ensures { result ≡ option_map Command.Run run }
{
    match run {
        Some(run) => Some(Command::Run(run)),
        None => None,
    }
}

/// The command to trace, where there is one.
fn trace_command(run: Option<RunOptions>) -> Option<Command>
    ensures { result ≡ option_map Command.Trace run }
{
    match run {
        Some(run) => Some(Command::Trace(run)),
        None => None,
    }
}

/// The command to check, which has no options.
fn check_command(words: &[String]) -> Option<Command>
    ensures { result ≡ check_of (map string_bytes words.now) }
{
    match words {
        [] => Some(Command::Check),
        [_, ..] => None,
    }
}

/// The command to draw, where there is one.
fn draws_command(draws: Option<DrawsOptions>) -> Option<Command>
    ensures { result ≡ option_map Command.Draws draws }
{
    match draws {
        Some(draws) => Some(Command::Draws(draws)),
        None => None,
    }
}

/// The command to generate, where there is one.
fn gen_command(generated: Option<GenOptions>) -> Option<Command>
    ensures { result ≡ option_map Command.Gen generated }
{
    match generated {
        Some(generated) => Some(Command::Gen(generated)),
        None => None,
    }
}

/// What these words ask for behind the first one, and nothing exactly where they are no command.
fn command_behind(
    alloc: Global,
    first: &[u8],
    words: &[String],
) -> Result<Option<Command>, AllocError>
    ensures { IfOk result (Exactly (IsCommand (first.now ∷ map string_bytes words.now))) }
{
    if first == b"run".as_slice() {
        let run = run_options(alloc, words)?;
        return Ok(run_command(run));
    }
    if first == b"trace".as_slice() {
        let traced = run_options(alloc, words)?;
        return Ok(trace_command(traced));
    }
    if first == b"check".as_slice() {
        return Ok(check_command(words));
    }
    if first == b"draws".as_slice() {
        let draws = draws_options(alloc, words)?;
        return Ok(draws_command(draws));
    }
    if first == b"gen".as_slice() {
        let generated = gen_options(alloc, words)?;
        return Ok(gen_command(generated));
    }
    Ok(None)
}

/// The command that the words ask for, and nothing exactly where they are no command.
pub fn command_named(alloc: Global, words: &[String]) -> Result<Option<Command>, OutOfMemory>
    ensures { IfOk result (Exactly (IsCommand (map string_bytes words.now))) }
{
    match words {
        [first, options @ ..] => Ok(command_behind(alloc, first.as_bytes(), options)?),
        [] => Ok(None),
    }
}
