//! What `clap` is told of each command, and what it makes of the words.

ghost use Rattle.std.specs.Prelude.{◌≡◌, [], IfOk, List, false, map, string_bytes};
ghost use Rattle.clap.specs.Words.{app_of, rule_of};
ghost use Rattle.jt_words.specs.Options.{Choice, Text};
ghost use Rattle.jt_words.specs.Parser as spec;

use clap::error::ErrorKind;
use clap::{Arg, ArgAction, ArgMatches, Command};
use std::alloc::{AllocError, Global};

/// An option that takes one value.
fn option<'a>(alloc: Global, name: &'a str) -> Arg<'a>
    ensures rule { rule_of result ≡ spec.option_rule name.entry.now }
    ensures local { result.global ≡ false }
{
    Arg::new(alloc, name).long(name)
}

/// An option that takes none.
fn flag<'a>(alloc: Global, name: &'a str) -> Arg<'a>
    ensures rule { rule_of result ≡ spec.flag_rule name.entry.now }
    ensures local { result.global ≡ false }
{
    Arg::new(alloc, name)
        .long(name)
        .action(ArgAction::Set)
        .num_args(0)
}

/// A command with no options yet, and none for help or the version.
fn parser_named<'a>(alloc: Global, name: &'a str) -> Command<'a>
    ensures { app_of result ≡ spec.parser_of name.entry.now [] }
{
    Command::new(alloc, name)
        .no_binary_name(true)
        .disable_help_flag(true)
        .disable_version_flag(true)
}

/// The options of `run` and `trace`.
pub(crate) fn run_parser<'a>(alloc: Global) -> Result<Command<'a>, AllocError>
    ensures { IfOk result (λ c. app_of c ≡ spec.run_parser) }
{
    parser_named(alloc, "run")
        .arg(option(alloc, "threads"))?
        .arg(option(alloc, "seed"))?
        .arg(option(alloc, "picks"))?
        .arg(option(alloc, "max-turns"))?
        .arg(option(alloc, "max-events"))
}

/// The options of `draws`.
pub(crate) fn draws_parser<'a>(alloc: Global) -> Result<Command<'a>, AllocError>
    ensures { IfOk result (λ c. app_of c ≡ spec.draws_parser) }
{
    parser_named(alloc, "draws")
        .arg(option(alloc, "seed"))?
        .arg(option(alloc, "count"))?
        .arg(option(alloc, "path"))
}

/// The options of `gen`.
pub(crate) fn gen_parser<'a>(alloc: Global) -> Result<Command<'a>, AllocError>
    ensures { IfOk result (λ c. app_of c ≡ spec.gen_parser) }
{
    parser_named(alloc, "gen")
        .arg(option(alloc, "size"))?
        .arg(flag(alloc, "text"))
}

/// Whether a word that begins with a hyphen begins with two and goes on. `clap` takes `--` for the
/// end of the options, and `-x` for a short one; the commands have neither.
fn is_readable(word: &[u8]) -> bool
    ensures { result ≡ spec.is_readable word.now }
{
    match word {
        [b'-', b'-', _, ..] => true,
        [b'-', ..] => false,
        _ => true,
    }
}

/// Whether each word is so.
fn are_readable(words: &[String]) -> bool
    ensures { result ≡ spec.are_readable (map string_bytes words.now) }
{
    for word in words {
        if !is_readable(word.as_bytes()) {
            return false;
        }
    }
    true
}

/// What `clap` makes of the words of a command with options alone, if they are its options.
pub(crate) fn matches_of<'a>(
    parser: Command<'a>,
    words: &'a [String],
) -> Result<Option<ArgMatches<'a>>, AllocError>
    ensures { (name : Text) → (choices : List Choice) → app_of parser.entry ≡ spec.parser_of name choices
        → spec.IsPlain name choices
        → IfOk result (spec.Parsed choices (map string_bytes words.entry.now)) }
{
    if !are_readable(words) {
        return Ok(None);
    }
    match parser.try_get_matches_from(words) {
        Ok(matches) => Ok(Some(matches)),
        Err(error) => {
            if error.kind() == ErrorKind::OutOfMemory {
                Err(AllocError)
            } else {
                Ok(None)
            }
        }
    }
}
