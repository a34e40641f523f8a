//! From the bytes of a source to the program of its script.

ghost use Rattle.std.specs.Prelude.{◌≡◌, ◌+◌, ◌<◌, ◌≤◌, None, length, IsUtf8, IfOk, IfErr};
ghost use Rattle.jt_base.specs.Limits.{most_script, most_open};
ghost use Rattle.jt_base.specs.Outside.{ReadsToEnd};
ghost use Rattle.jt_bound.specs.Programs.{program_of};
ghost use Rattle.jt_forms.specs.Built.{unbuilt};
ghost use Rattle.jt_grammar.specs.Grammar.{EndsWithStop};
ghost use Rattle.jt_grammar.specs.Joined.{IsScriptOf};
ghost use Rattle.jt_grammar.specs.Nesting.{TopsWithin};
ghost use Rattle.jt_lexer.specs.Tokens.{IsTokensOf};
ghost use Rattle.jt_program.specs.View.{program_plan};
ghost use Rattle.jt_naming.specs.Scripts.{BreaksNone};
ghost use Rattle.jt_syntax.specs.View.{script_view};
ghost use Rattle.jt_tool.specs.declared.stop.Stop.TheVariants.{NotText as NoText};
ghost use Rattle.jt_tool.specs.Scripts.{IsProgramOf, GivesProgram};
ghost use Rattle.jt_tool.specs.Stops.{Stops, StopsTokens, StopsScript, StopsSource};

use crate::reading::read_all;
use crate::report::Refusal;
use crate::stop::Stop;
use jt_base::{MOST_SCRIPT, Source, Text};
use jt_forms::unbuilt;
use jt_lexer::lex;
use jt_parser::parse;
use jt_program::Program;
use jt_resolve::resolve;
use jt_syntax::{Script, Token};
use std::alloc::Global;

/// The bytes as a text.
fn text_of(bytes: Vec<u8>) -> Result<Text, Stop>
    ensures same { IfOk result (λ text. text ≡ bytes.items) }
    ensures refused { IfErr result (λ stop. (stop ≡ NoText) × ¬ (IsUtf8 bytes.items)) }
{
    match String::from_utf8(bytes) {
        Ok(text) => Ok(Text::from_string(text)),
        Err(_) => Err(Stop::NotText),
    }
}

/// The text that the source gives, which is read to its end, or one byte past the most of a script.
fn read_script<S: Source>(alloc: Global, source: &mut S) -> Result<Text, Stop>
    ensures read { IfOk result (λ script. ReadsToEnd (S.left source.old) (S.left source.new) script) }
    ensures short { IfOk result (λ script. length script ≤ most_script) }
    ensures stopped { IfErr result (StopsSource (S.left source.old) (S.left source.new) (S.faults source.old) (S.faults source.new)) }
{
    let bytes = read_all(alloc, source, MOST_SCRIPT)?;
    text_of(bytes)
}

/// The tokens of a text.
fn tokens_of(alloc: Global, text: &str) -> Result<Vec<Token>, Stop>
    requires { length text.now ≤ most_script }
    ensures text { IfOk result (λ tokens. IsUtf8 text.now) }
    ensures tokens { IfOk result (λ tokens. IsTokensOf text.now tokens.items) }
    ensures whole { IfOk result (λ tokens. EndsWithStop tokens.items) }
    ensures few { IfOk result (λ tokens. length tokens.items ≤ most_script + 1) }
    ensures refused { IfErr result (Stops text.now) }
{
    let tokens = lex(alloc, text)?;
    Ok(tokens)
}

/// The script that these tokens of a text are, all of whose forms run.
fn script_of(alloc: Global, tokens: &[Token]) -> Result<Script, Stop>
    requires whole { EndsWithStop tokens.now }
    requires few { length tokens.now ≤ most_script + 1 }
    ensures script { IfOk result (λ script. IsScriptOf tokens.now (script_view script)) }
    ensures nested { IfOk result (λ script. TopsWithin most_open (script_view script)) }
    ensures built { IfOk result (λ script. unbuilt (script_view script) ≡ None) }
    ensures refused { IfErr result (StopsTokens tokens.now) }
{
    let script = parse(alloc, tokens)?;
    match unbuilt(&script) {
        Some(at) => Err(Stop::Refused(Refusal::NotBuilt, at)),
        None => Ok(script),
    }
}

/// The program of a script all of whose forms run.
fn bound_program(alloc: Global, script: Script) -> Result<Program, Stop>
    ensures named { IfOk result (λ program. BreaksNone (script_view script)) }
    ensures program { IfOk result (λ program. program_plan program ≡ program_of (script_view script)) }
    ensures main { IfOk result (λ program. 0 < length program.tasks) }
    ensures refused { IfErr result (StopsScript (script_view script)) }
{
    let resolved = resolve(alloc, &script);
    drop(script);
    let program = resolved?;
    Ok(program)
}

/// The program of the script that a text is.
fn load_program(alloc: Global, text: &str) -> Result<Program, Stop>
    requires { length text.now ≤ most_script }
    ensures program { IfOk result (λ program. IsProgramOf text.now (program_plan program)) }
    ensures main { IfOk result (λ program. 0 < length program.tasks) }
    ensures refused { IfErr result (Stops text.now) }
{
    let tokens = tokens_of(alloc, text)?;
    match script_of(alloc, tokens.as_slice()) {
        Ok(script) => bound_program(alloc, script),
        Err(stop) => Err(stop),
    }
}

/// A script and its program.
pub(crate) struct Loaded {
    pub(crate) script: Text,
    pub(crate) program: Program,
}

/// The script that the source gives, and its program.
pub(crate) fn read_program<S: Source>(alloc: Global, source: &mut S) -> Result<Loaded, Stop>
    ensures program { IfOk result (λ loaded. GivesProgram (S.left source.old) (S.left source.new) loaded.script (program_plan loaded.program)) }
    ensures main { IfOk result (λ loaded. 0 < length loaded.program.tasks) }
    ensures stopped { IfErr result (StopsSource (S.left source.old) (S.left source.new) (S.faults source.old) (S.faults source.new)) }
{
    let script = read_script(alloc, source)?;
    let program = load_program(alloc, script.as_str())?;
    Ok(Loaded { script, program })
}
