//! Reads the words of a trace's lines.

ghost use Rattle.std.specs.Prelude.{◌≡◌, ◌<◌, ◌≤◌, option_map, length, IfSome};
ghost use Rattle.jt_trace_text.specs.Readers as reader;
ghost use Rattle.jt_trace_text.specs.WordReaders as spec;
ghost use Rattle.jt_trace.specs.Reading.{Gives};
ghost use Rattle.jt_trace.specs.Paths.{grown};
ghost use Rattle.hex.specs.Hex.{decode_of};

use crate::unread::Unread;
use itoa::Buffer;
use jt_base::{Fault, How, Kind, Name, Path, Text, Value};
use std::alloc::Global;

pub(crate) const MOST_U32: u64 = 4_294_967_295;

const MOST_POSITIVE: u64 = 9_223_372_036_854_775_807;

const MOST_NEGATIVE: u64 = 9_223_372_036_854_775_808;

/// The text before the first such character, and the text behind it.
pub(crate) fn cut(text: &str, ending: char) -> Option<(&str, &str)>
    requires { ending < 128 }
    ensures { option_map (λ p. (p.0.now, p.1.now)) result ≡ reader.cut ending text.now }
{
    text.split_once(ending)
}

/// A decimal number without leading zeros from `low` to `high`.
pub(crate) fn number(word: &str, low: u64, high: u64) -> Option<u64>
    ensures value { result ≡ spec.number_in low high word.now }
    ensures within { IfSome result (λ n. (low ≤ n) × (n ≤ high)) }
{
    match word.parse::<u64>() {
        Ok(n) => {
            if low <= n && n <= high && Buffer::new().format(n) == word {
                Some(n)
            } else {
                None
            }
        }
        Err(_) => None,
    }
}

/// A number and the character behind it.
pub(crate) fn number_field(text: &str, ending: char, low: u64, high: u64) -> Option<(u64, &str)>
    requires { ending < 128 }
    ensures value { option_map (λ x. (x.0, x.1.now)) result ≡ reader.field ending (spec.number_in low high) text.now }
    ensures within { IfSome result (λ x. (low ≤ x.0) × (x.0 ≤ high)) }
{
    let (word, rest) = cut(text, ending)?;
    let value = number(word, low, high)?;
    Some((value, rest))
}

/// The number with this magnitude below 0.
fn negative(magnitude: u64) -> i64
    requires some { 1 ≤ magnitude }
    requires most { magnitude ≤ 9223372036854775808 }
    ensures { result ≡ spec.negative magnitude }
{
    -((magnitude - 1) as i64) - 1
}

/// A whole number of 64 bits, a negative one with a minus sign.
#[tactic(auto, unfolding(jt_trace_text::specs::WordReaders::int_of))]
pub(crate) fn int(word: &str) -> Option<i64>
    ensures { result ≡ spec.int_of word.now }
{
    match word.strip_prefix("-") {
        Some(digits) => Some(negative(number(digits, 1, MOST_NEGATIVE)?)),
        None => Some(number(word, 0, MOST_POSITIVE)? as i64),
    }
}

/// A truth value.
#[tactic(auto, unfolding(jt_trace_text::specs::WordReaders::flag_of))]
pub(crate) fn flag(word: &str) -> Option<bool>
    ensures { result ≡ spec.flag_of word.now }
{
    if word == "true" {
        Some(true)
    } else if word == "false" {
        Some(false)
    } else {
        None
    }
}

/// The path with the index of this word at its end, or none where the path is full.
fn child(path: &Path, word: &str) -> Option<Path>
    ensures { result ≡ grown path.now word.now }
{
    let index = number(word, 0, MOST_U32)?;
    path.child(index as u32).ok()
}

/// Indexes with dots between them.
fn indexes(text: &str) -> Option<Path>
    ensures { result ≡ spec.indexes_of 48 text.now }
{
    let mut path = Path::main();
    let mut rest = text;
    while let Some((word, after)) = cut(rest, '.') {
        path = child(&path, word)?;
        rest = after;
    }
    child(&path, rest)
}

/// A path: `m`, and a dot and a number for each index.
#[tactic(auto, unfolding(jt_trace_text::specs::WordReaders::path_of))]
pub(crate) fn path(word: &str) -> Option<Path>
    ensures { result ≡ spec.path_of word.now }
{
    match word.strip_prefix("m.") {
        Some(rest) => indexes(rest),
        None => {
            if word == "m" {
                Some(Path::main())
            } else {
                None
            }
        }
    }
}

/// A path and the character behind it.
pub(crate) fn path_field(text: &str, ending: char) -> Option<(Path, &str)>
    requires { ending < 128 }
    ensures { option_map (λ x. (x.0, x.1.now)) result ≡ reader.field ending spec.path_of text.now }
{
    let (word, rest) = cut(text, ending)?;
    let value = path(word)?;
    Some((value, rest))
}

/// A name: a path, `#` and a number.
#[tactic(auto, unfolding(jt_trace_text::specs::WordReaders::name_of))]
pub(crate) fn name(word: &str) -> Option<Name>
    ensures { result ≡ spec.name_of word.now }
{
    let (path, rest) = path_field(word, '#')?;
    let number = number(rest, 0, MOST_U32)?;
    Some(Name {
        path,
        number: number as u32,
    })
}

/// Two lower-case hexadecimal digits for each byte of a text.
fn digits(alloc: Global, word: &str) -> Result<Text, Unread>
    ensures { Gives (λ t. t) result (spec.as_text word.now (decode_of word.now)) }
{
    let bytes = match hex::decode(alloc, word.as_bytes()) {
        Ok(bytes) => bytes,
        Err(hex::FromHexError::OutOfMemory) => return Err(Unread::Memory),
        Err(_) => return Err(Unread::Malformed),
    };
    let again = hex::encode(alloc, bytes.as_slice())?;
    if again.as_str() != word {
        return Err(Unread::Malformed);
    }
    match String::from_utf8(bytes) {
        Ok(string) => Ok(Text::from_string(string)),
        Err(_) => Err(Unread::Malformed),
    }
}

/// A text: `x`, and its digits.
#[tactic(auto, unfolding(jt_trace_text::specs::WordReaders::text_of))]
pub(crate) fn text(alloc: Global, word: &str) -> Result<Text, Unread>
    ensures { Gives (λ t. t) result (spec.text_of word.now) }
{
    match word.strip_prefix("x") {
        Some(rest) => digits(alloc, rest),
        None => Err(Unread::Malformed),
    }
}

/// How a task is made.
#[tactic(auto, unfolding(jt_trace_text::specs::WordReaders::how_of))]
pub(crate) fn how(word: &str) -> Option<How>
    ensures { result ≡ spec.how_of word.now }
{
    if word == "default" {
        Some(How::Default)
    } else if word == "interactive" {
        Some(How::Interactive)
    } else if word == "async" {
        Some(How::Async)
    } else {
        let number = number(word.strip_prefix("chunk:")?, 0, MOST_U32)?;
        Some(How::Chunk(number as u32))
    }
}

#[tactic(auto, unfolding(jt_trace_text::specs::WordReaders::kind_of))]
fn kind(word: &str) -> Option<Kind>
    ensures { result ≡ spec.kind_of word.now }
{
    if word == "channel" {
        Some(Kind::Channel)
    } else if word == "unbuffered" {
        Some(Kind::Unbuffered)
    } else if word == "atomic" {
        Some(Kind::Atomic)
    } else if word == "event" {
        Some(Kind::Event)
    } else if word == "condition" {
        Some(Kind::Condition)
    } else if word == "lock" {
        Some(Kind::Lock)
    } else if word == "semaphore" {
        Some(Kind::Semaphore)
    } else {
        None
    }
}

/// The handle of a task or of an object: what stands before and behind the colon.
#[tactic(auto, unfolding(jt_trace_text::specs::WordReaders::handle_of))]
fn handle(front: &str, rest: &str) -> Option<Value>
    ensures { result ≡ spec.handle_of front.now rest.now }
{
    if front == "task" {
        Some(Value::Task(path(rest)?))
    } else {
        let kind = kind(front)?;
        Some(Value::Object(kind, name(rest)?))
    }
}

/// A value.
#[tactic(auto, unfolding(jt_trace_text::specs::WordReaders::value_of))]
pub(crate) fn value(word: &str) -> Option<Value>
    ensures { result ≡ spec.value_of word.now }
{
    if let Some(truth) = flag(word) {
        return Some(Value::Flag(truth));
    }
    if word == "nothing" {
        return Some(Value::Nothing);
    }
    match cut(word, ':') {
        Some((front, rest)) => handle(front, rest),
        None => Some(Value::Int(int(word)?)),
    }
}

/// A fault that is one word.
#[tactic(auto, unfolding(jt_trace_text::specs::WordReaders::plain_fault_of))]
fn plain_fault(word: &str) -> Option<Fault>
    ensures { result ≡ spec.plain_fault_of word.now }
{
    if word == "divide" {
        Some(Fault::Divide)
    } else if word == "domain" {
        Some(Fault::Domain)
    } else if word == "emptyrange" {
        Some(Fault::EmptyRange)
    } else if word == "method" {
        Some(Fault::Method)
    } else if word == "undefined" {
        Some(Fault::Undefined)
    } else if word == "turnlimit" {
        Some(Fault::TurnLimit)
    } else if word == "stacklimit" {
        Some(Fault::StackLimit)
    } else {
        later_fault(word)
    }
}

/// Of those, the later ones.
#[tactic(auto, unfolding(jt_trace_text::specs::WordReaders::later_fault_of))]
fn later_fault(word: &str) -> Option<Fault>
    ensures { result ≡ spec.later_fault_of word.now }
{
    if word == "forktoodeep" {
        Some(Fault::ForkTooDeep)
    } else if word == "channelclosed" {
        Some(Fault::ChannelClosed)
    } else if word == "notlocked" {
        Some(Fault::NotLocked)
    } else if word == "notowner" {
        Some(Fault::NotOwner)
    } else if word == "releasefree" {
        Some(Fault::ReleaseFree)
    } else if word == "staticnested" {
        Some(Fault::StaticNested)
    } else {
        None
    }
}

/// A fault with a task or a text: what stands before and behind the colon.
#[tactic(auto, unfolding(jt_trace_text::specs::WordReaders::long_fault_of))]
fn long_fault(alloc: Global, front: &str, rest: &str) -> Result<Fault, Unread>
    ensures { Gives (λ f. f) result (spec.long_fault_of front.now rest.now) }
{
    if front == "taskfailed" {
        match path(rest) {
            Some(path) => Ok(Fault::TaskFailed(path)),
            None => Err(Unread::Malformed),
        }
    } else if front == "error" {
        Ok(Fault::Error(text(alloc, rest)?))
    } else {
        Err(Unread::Malformed)
    }
}

/// A fault.
#[tactic(auto, unfolding(jt_trace_text::specs::WordReaders::fault_of))]
pub(crate) fn fault(alloc: Global, word: &str) -> Result<Fault, Unread>
    ensures { Gives (λ f. f) result (spec.fault_of word.now) }
{
    if let Some(fault) = plain_fault(word) {
        return Ok(fault);
    }
    match cut(word, ':') {
        Some((front, rest)) => long_fault(alloc, front, rest),
        None => Err(Unread::Malformed),
    }
}
