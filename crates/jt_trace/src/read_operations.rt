//! Reads operations: a word and its arguments, each with a space behind it.

ghost use Rattle.std.specs.Prelude.{◌≡◌, ◌<◌, ◌≤◌, option_map, length, IfSome};
ghost use Rattle.jt_trace_text.specs.Readers as reader;
ghost use Rattle.jt_trace_text.specs.WordReaders as word;
ghost use Rattle.jt_trace_text.specs.EntryReaders as spec;
ghost use Rattle.jt_trace.specs.Reading.{Gives};

use crate::read_words::{cut, fault, flag, how, int, name, number_field, path_field, text, value};
use crate::unread::Unread;
use jt_base::{How, Name, Op};
use jt_trace_text::{NumberWord, ObjectWord};
use std::alloc::Global;

const MOST_U64: u64 = 18_446_744_073_709_551_615;

/// The greatest capacity of a channel.
const MOST_CAPACITY: u64 = 1_048_576;

/// The word of an operation on an object alone.
#[tactic(auto, unfolding(jt_trace_text::specs::EntryReaders::object_word_of))]
fn object_word(word: &str) -> Option<ObjectWord>
    ensures { result ≡ spec.object_word_of word.now }
{
    if word == "newcondition" {
        Some(ObjectWord::NewCondition)
    } else if word == "newlock" {
        Some(ObjectWord::NewLock)
    } else if word == "take" {
        Some(ObjectWord::Take)
    } else if word == "next" {
        Some(ObjectWord::Next)
    } else if word == "close" {
        Some(ObjectWord::Close)
    } else if word == "isopen" {
        Some(ObjectWord::IsOpen)
    } else if word == "isready" {
        Some(ObjectWord::IsReady)
    } else {
        event_word(word)
    }
}

/// Of those, the words on events, locks and conditions, and the last ones.
#[tactic(auto, unfolding(jt_trace_text::specs::EntryReaders::event_word_of))]
fn event_word(word: &str) -> Option<ObjectWord>
    ensures { result ≡ spec.event_word_of word.now }
{
    if word == "notify" {
        Some(ObjectWord::Notify)
    } else if word == "reset" {
        Some(ObjectWord::Reset)
    } else if word == "ewait" {
        Some(ObjectWord::EWait)
    } else if word == "lock" {
        Some(ObjectWord::Lock)
    } else if word == "unlock" {
        Some(ObjectWord::Unlock)
    } else if word == "cwait" {
        Some(ObjectWord::CWait)
    } else if word == "cback" {
        Some(ObjectWord::CBack)
    } else {
        last_word(word)
    }
}

/// Of those, the last words.
#[tactic(auto, unfolding(jt_trace_text::specs::EntryReaders::last_word_of))]
fn last_word(word: &str) -> Option<ObjectWord>
    ensures { result ≡ spec.last_word_of word.now }
{
    if word == "acquire" {
        Some(ObjectWord::Acquire)
    } else if word == "release" {
        Some(ObjectWord::Release)
    } else if word == "aget" {
        Some(ObjectWord::AGet)
    } else {
        None
    }
}

/// The word of an operation on an object with a number.
#[tactic(auto, unfolding(jt_trace_text::specs::EntryReaders::number_word_of))]
fn number_word(word: &str) -> Option<NumberWord>
    ensures { result ≡ spec.number_word_of word.now }
{
    if word == "newatomic" {
        Some(NumberWord::NewAtomic)
    } else if word == "put" {
        Some(NumberWord::Put)
    } else if word == "offer" {
        Some(NumberWord::Offer)
    } else if word == "aset" {
        Some(NumberWord::ASet)
    } else if word == "aadd" {
        Some(NumberWord::AAdd)
    } else if word == "asub" {
        Some(NumberWord::ASub)
    } else if word == "axchg" {
        Some(NumberWord::AXchg)
    } else {
        None
    }
}

/// The operation of a word on an object.
fn object_operation(word: ObjectWord, name: Name) -> Op
    ensures { result ≡ spec.object_operation word name }
{
    match word {
        ObjectWord::NewCondition => Op::NewCondition(name),
        ObjectWord::NewLock => Op::NewLock(name),
        ObjectWord::Take => Op::Take(name),
        ObjectWord::Next => Op::Next(name),
        ObjectWord::Close => Op::Close(name),
        ObjectWord::IsOpen => Op::IsOpen(name),
        ObjectWord::IsReady => Op::IsReady(name),
        ObjectWord::Notify => Op::Notify(name),
        ObjectWord::Reset => Op::Reset(name),
        ObjectWord::EWait => Op::EWait(name),
        ObjectWord::Lock => Op::Lock(name),
        ObjectWord::Unlock => Op::Unlock(name),
        ObjectWord::CWait => Op::CWait(name),
        ObjectWord::CBack => Op::CBack(name),
        ObjectWord::Acquire => Op::Acquire(name),
        ObjectWord::Release => Op::Release(name),
        ObjectWord::AGet => Op::AGet(name),
    }
}

/// The operation of a word on an object with a number.
fn number_operation(word: NumberWord, name: Name, number: i64) -> Op
    ensures { result ≡ spec.number_operation word name number }
{
    match word {
        NumberWord::NewAtomic => Op::NewAtomic(name, number),
        NumberWord::Put => Op::Put(name, number),
        NumberWord::Offer => Op::Offer(name, number),
        NumberWord::ASet => Op::ASet(name, number),
        NumberWord::AAdd => Op::AAdd(name, number),
        NumberWord::ASub => Op::ASub(name, number),
        NumberWord::AXchg => Op::AXchg(name, number),
    }
}

/// A name and a space.
fn name_field(text: &str) -> Option<(Name, &str)>
    ensures { option_map (λ x. (x.0, x.1.now)) result ≡ reader.field 32 word.name_of text.now }
{
    let (word, rest) = cut(text, ' ')?;
    let value = name(word)?;
    Some((value, rest))
}

/// A whole number and a space.
fn int_field(text: &str) -> Option<(i64, &str)>
    ensures { option_map (λ x. (x.0, x.1.now)) result ≡ reader.field 32 word.int_of text.now }
{
    let (word, rest) = cut(text, ' ')?;
    let value = int(word)?;
    Some((value, rest))
}

/// A truth value and a space.
fn flag_field(text: &str) -> Option<(bool, &str)>
    ensures { option_map (λ x. (x.0, x.1.now)) result ≡ reader.field 32 word.flag_of text.now }
{
    let (word, rest) = cut(text, ' ')?;
    let value = flag(word)?;
    Some((value, rest))
}

/// A way of making a task, and a space.
fn how_field(text: &str) -> Option<(How, &str)>
    ensures { option_map (λ x. (x.0, x.1.now)) result ≡ reader.field 32 word.how_of text.now }
{
    let (word, rest) = cut(text, ' ')?;
    let value = how(word)?;
    Some((value, rest))
}

/// An object.
#[tactic(auto, unfolding(jt_trace_text::specs::EntryReaders::object_at))]
fn object(word: ObjectWord, text: &str) -> Option<(Op, &str)>
    ensures { option_map (λ x. (x.0, x.1.now)) result ≡ spec.object_at word text.now }
{
    let (name, rest) = name_field(text)?;
    Some((object_operation(word, name), rest))
}

/// An object and a number.
#[tactic(auto, unfolding(jt_trace_text::specs::EntryReaders::number_at))]
fn object_and_number(word: NumberWord, text: &str) -> Option<(Op, &str)>
    ensures { option_map (λ x. (x.0, x.1.now)) result ≡ spec.number_at word text.now }
{
    let (name, rest) = name_field(text)?;
    let (number, rest) = int_field(rest)?;
    Some((number_operation(word, name, number), rest))
}

/// The value of a task's end.
#[tactic(auto, unfolding(jt_trace_text::specs::EntryReaders::end_at))]
fn end(text: &str) -> Option<(Op, &str)>
    ensures { option_map (λ x. (x.0, x.1.now)) result ≡ spec.end_at text.now }
{
    let (word, rest) = cut(text, ' ')?;
    let value = value(word)?;
    Some((Op::End(value), rest))
}

/// The path of a task that is made, and how.
#[tactic(auto, unfolding(jt_trace_text::specs::EntryReaders::spawn_at))]
fn spawn(text: &str) -> Option<(Op, &str)>
    ensures { option_map (λ x. (x.0, x.1.now)) result ≡ spec.spawn_at text.now }
{
    let (path, rest) = path_field(text, ' ')?;
    let (how, rest) = how_field(rest)?;
    Some((Op::Spawn(path, how), rest))
}

/// The path of a task whose value is fetched.
#[tactic(auto, unfolding(jt_trace_text::specs::EntryReaders::fetch_at))]
fn fetch(text: &str) -> Option<(Op, &str)>
    ensures { option_map (λ x. (x.0, x.1.now)) result ≡ spec.fetch_at text.now }
{
    let (path, rest) = path_field(text, ' ')?;
    Some((Op::Fetch(path), rest))
}

/// The path of a task that is waited for.
#[tactic(auto, unfolding(jt_trace_text::specs::EntryReaders::wait_at))]
fn wait(text: &str) -> Option<(Op, &str)>
    ensures { option_map (λ x. (x.0, x.1.now)) result ≡ spec.wait_at text.now }
{
    let (path, rest) = path_field(text, ' ')?;
    Some((Op::Wait(path), rest))
}

/// A new channel and its capacity.
#[tactic(auto, unfolding(jt_trace_text::specs::EntryReaders::channel_at))]
fn channel(text: &str) -> Option<(Op, &str)>
    ensures { option_map (λ x. (x.0, x.1.now)) result ≡ spec.channel_at text.now }
{
    let (name, rest) = name_field(text)?;
    let (capacity, rest) = number_field(rest, ' ', 0, MOST_CAPACITY)?;
    Some((Op::NewChannel(name, capacity as u32), rest))
}

/// A new event, and whether each wait resets it.
#[tactic(auto, unfolding(jt_trace_text::specs::EntryReaders::event_at))]
fn event(text: &str) -> Option<(Op, &str)>
    ensures { option_map (λ x. (x.0, x.1.now)) result ≡ spec.event_at text.now }
{
    let (name, rest) = name_field(text)?;
    let (auto, rest) = flag_field(rest)?;
    Some((Op::NewEvent(name, auto), rest))
}

/// A condition, and whether all are notified.
#[tactic(auto, unfolding(jt_trace_text::specs::EntryReaders::notify_at))]
fn notify(text: &str) -> Option<(Op, &str)>
    ensures { option_map (λ x. (x.0, x.1.now)) result ≡ spec.notify_at text.now }
{
    let (name, rest) = name_field(text)?;
    let (all, rest) = flag_field(rest)?;
    Some((Op::CNotify(name, all), rest))
}

/// A new semaphore and its count.
#[tactic(auto, unfolding(jt_trace_text::specs::EntryReaders::semaphore_at))]
fn semaphore(text: &str) -> Option<(Op, &str)>
    ensures { option_map (λ x. (x.0, x.1.now)) result ≡ spec.semaphore_at text.now }
{
    let (name, rest) = name_field(text)?;
    let (count, rest) = number_field(rest, ' ', 0, MOST_U64)?;
    Some((Op::NewSemaphore(name, count), rest))
}

/// A channel, and how many items were taken.
#[tactic(auto, unfolding(jt_trace_text::specs::EntryReaders::landed_at))]
fn landed(text: &str) -> Option<(Op, &str)>
    ensures { option_map (λ x. (x.0, x.1.now)) result ≡ spec.landed_at text.now }
{
    let (name, rest) = name_field(text)?;
    let (count, rest) = number_field(rest, ' ', 0, MOST_U64)?;
    Some((Op::Landed(name, count), rest))
}

/// An atomic number, the expected one and the new one.
#[tactic(auto, unfolding(jt_trace_text::specs::EntryReaders::exchange_at))]
fn exchange(text: &str) -> Option<(Op, &str)>
    ensures { option_map (λ x. (x.0, x.1.now)) result ≡ spec.exchange_at text.now }
{
    let (name, rest) = name_field(text)?;
    let (old, rest) = int_field(rest)?;
    let (new, rest) = int_field(rest)?;
    Some((Op::ACas(name, old, new), rest))
}

/// The fault of a task's failure.
#[tactic(auto, unfolding(jt_trace_text::specs::EntryReaders::fail_at))]
fn fail(alloc: Global, text: &str) -> Result<(Op, &str), Unread>
    ensures { Gives (λ x. (x.0, x.1.now)) result (spec.fail_at text.now) }
{
    let Some((word, rest)) = cut(text, ' ') else {
        return Err(Unread::Malformed);
    };
    let fault = fault(alloc, word)?;
    Ok((Op::Fail(fault), rest))
}

/// A printed text.
#[tactic(auto, unfolding(jt_trace_text::specs::EntryReaders::print_at))]
fn print(alloc: Global, line: &str) -> Result<(Op, &str), Unread>
    ensures { Gives (λ x. (x.0, x.1.now)) result (spec.print_at line.now) }
{
    let Some((word, rest)) = cut(line, ' ') else {
        return Err(Unread::Malformed);
    };
    let printed = text(alloc, word)?;
    Ok((Op::Print(printed), rest))
}

/// The operation of this word on an object with other arguments.
#[tactic(auto, unfolding(jt_trace_text::specs::EntryReaders::other_at))]
fn other<'a>(word: &str, text: &'a str) -> Option<(Op, &'a str)>
    ensures { option_map (λ x. (x.0, x.1.now)) result ≡ spec.other_at word.now text.now }
{
    if word == "newchannel" {
        channel(text)
    } else if word == "newevent" {
        event(text)
    } else if word == "newsemaphore" {
        semaphore(text)
    } else if word == "landed" {
        landed(text)
    } else if word == "cnotify" {
        notify(text)
    } else if word == "acas" {
        exchange(text)
    } else {
        None
    }
}

/// The operation of this word on a task or the printer, or one of the others.
#[tactic(auto, unfolding(jt_trace_text::specs::EntryReaders::task_at))]
fn task<'a>(alloc: Global, word: &str, text: &'a str) -> Result<(Op, &'a str), Unread>
    ensures { Gives (λ x. (x.0, x.1.now)) result (spec.task_at word.now text.now) }
{
    if word == "begin" {
        Ok((Op::Begin, text))
    } else if word == "yield" {
        Ok((Op::Yield, text))
    } else if word == "end" {
        end(text).ok_or(Unread::Malformed)
    } else if word == "fail" {
        fail(alloc, text)
    } else if word == "spawn" {
        spawn(text).ok_or(Unread::Malformed)
    } else if word == "fetch" {
        fetch(text).ok_or(Unread::Malformed)
    } else if word == "wait" {
        wait(text).ok_or(Unread::Malformed)
    } else if word == "print" {
        print(alloc, text)
    } else {
        other(word, text).ok_or(Unread::Malformed)
    }
}

/// The operation of this word.
#[tactic(auto, unfolding(jt_trace_text::specs::EntryReaders::operation_by))]
fn by_word<'a>(alloc: Global, word: &str, text: &'a str) -> Result<(Op, &'a str), Unread>
    ensures { Gives (λ x. (x.0, x.1.now)) result (spec.operation_by word.now text.now) }
{
    if let Some(kind) = object_word(word) {
        return object(kind, text).ok_or(Unread::Malformed);
    }
    if let Some(kind) = number_word(word) {
        return object_and_number(kind, text).ok_or(Unread::Malformed);
    }
    task(alloc, word, text)
}

/// An operation.
#[tactic(auto, unfolding(jt_trace_text::specs::EntryReaders::operation_at))]
pub(crate) fn operation(alloc: Global, text: &str) -> Result<(Op, &str), Unread>
    ensures { Gives (λ x. (x.0, x.1.now)) result (spec.operation_at text.now) }
{
    let Some((word, rest)) = cut(text, ' ') else {
        return Err(Unread::Malformed);
    };
    by_word(alloc, word, rest)
}
