//! Writes operations: a word and its arguments, each with a space behind it.

ghost use Rattle.std.specs.Prelude.{◌≡◌, ◌++◌, ◌∷◌, [], OnOk, string_bytes, codes, decimal};
ghost use Rattle.std.specs.Fmt.{signed_decimal};
ghost use Rattle.jt_base.specs.declared.operation.Op.TheVariants as op;
ghost use Rattle.jt_trace_text.specs.Words as word;
ghost use Rattle.jt_trace_text.specs.Operations as spec;

use crate::write_words::{fault, flag, hex, how, int, name, number, path, put, value};
use jt_base::{Fault, How, Name, Op, OutOfMemory, Path, Text, Value};
use std::alloc::Global;

/// A word and an object.
fn object(out: &mut String, before: &str, object: &Name) -> Result<(), OutOfMemory>
    ensures { OnOk result (string_bytes out.new ≡ string_bytes out.old ++ (before.now ++ spec.spaced (word.name_text object.now))) }
{
    put(out, before)?;
    name(out, object)?;
    put(out, " ")
}

/// A word, an object and a number with its sign.
fn object_and_int(
    out: &mut String,
    before: &str,
    object_name: &Name,
    n: i64,
) -> Result<(), OutOfMemory>
    ensures { OnOk result (string_bytes out.new ≡ string_bytes out.old ++ (before.now ++ (spec.spaced (word.name_text object_name.now) ++ spec.spaced (signed_decimal n)))) }
{
    object(out, before, object_name)?;
    int(out, n)?;
    put(out, " ")
}

/// A word, an object and a number.
fn object_and_number(
    out: &mut String,
    before: &str,
    object_name: &Name,
    n: u64,
) -> Result<(), OutOfMemory>
    ensures { OnOk result (string_bytes out.new ≡ string_bytes out.old ++ (before.now ++ (spec.spaced (word.name_text object_name.now) ++ spec.spaced (decimal n)))) }
{
    object(out, before, object_name)?;
    number(out, n)?;
    put(out, " ")
}

/// A word, an object and a truth value.
fn object_and_flag(
    out: &mut String,
    before: &str,
    object_name: &Name,
    truth: bool,
) -> Result<(), OutOfMemory>
    ensures { OnOk result (string_bytes out.new ≡ string_bytes out.old ++ (before.now ++ (spec.spaced (word.name_text object_name.now) ++ spec.spaced (word.flag_text truth)))) }
{
    object(out, before, object_name)?;
    flag(out, truth)?;
    put(out, " ")
}

/// The making of an atomic number.
fn atomic(out: &mut String, object_name: &Name, start: i64) -> Result<(), OutOfMemory>
    ensures { OnOk result (string_bytes out.new ≡ string_bytes out.old ++ spec.operation_text (op.NewAtomic object_name.now start)) }
{
    object_and_int(out, "newatomic ", object_name, start)
}

/// A conditional exchange.
fn exchange(out: &mut String, object_name: &Name, old: i64, new: i64) -> Result<(), OutOfMemory>
    ensures { OnOk result (string_bytes out.new ≡ string_bytes out.old ++ spec.operation_text (op.ACas object_name.now old new)) }
{
    object_and_int(out, "acas ", object_name, old)?;
    int(out, new)?;
    put(out, " ")
}

/// A word and a task.
fn task(out: &mut String, before: &str, task: &Path) -> Result<(), OutOfMemory>
    ensures { OnOk result (string_bytes out.new ≡ string_bytes out.old ++ (before.now ++ spec.spaced (word.path_text task.now))) }
{
    put(out, before)?;
    path(out, task)?;
    put(out, " ")
}

/// The making of a task.
fn spawn(out: &mut String, child: &Path, by: How) -> Result<(), OutOfMemory>
    ensures { OnOk result (string_bytes out.new ≡ string_bytes out.old ++ spec.operation_text (op.Spawn child.now by)) }
{
    task(out, "spawn ", child)?;
    how(out, by)?;
    put(out, " ")
}

/// A task's end.
fn end(out: &mut String, result_value: &Value) -> Result<(), OutOfMemory>
    ensures { OnOk result (string_bytes out.new ≡ string_bytes out.old ++ spec.operation_text (op.End result_value.now)) }
{
    put(out, "end ")?;
    value(out, result_value)?;
    put(out, " ")
}

/// A task's failure.
fn fail(alloc: Global, out: &mut String, cause: &Fault) -> Result<(), OutOfMemory>
    ensures { OnOk result (string_bytes out.new ≡ string_bytes out.old ++ spec.operation_text (op.Fail cause.now)) }
{
    put(out, "fail ")?;
    fault(alloc, out, cause)?;
    put(out, " ")
}

/// A printed line.
fn print(alloc: Global, out: &mut String, line: &Text) -> Result<(), OutOfMemory>
    ensures { OnOk result (string_bytes out.new ≡ string_bytes out.old ++ spec.operation_text (op.Print line.now)) }
{
    put(out, "print ")?;
    hex(alloc, out, line)?;
    put(out, " ")
}

/// An operation.
pub(crate) fn operation(alloc: Global, out: &mut String, op: &Op) -> Result<(), OutOfMemory>
    ensures { OnOk result (string_bytes out.new ≡ string_bytes out.old ++ spec.operation_text op.now) }
{
    match op {
        Op::Begin => put(out, "begin "),
        Op::End(value) => end(out, value),
        Op::Fail(fault) => fail(alloc, out, fault),
        Op::Spawn(path, how) => spawn(out, path, *how),
        Op::Fetch(path) => task(out, "fetch ", path),
        Op::Wait(path) => task(out, "wait ", path),
        Op::Yield => put(out, "yield "),
        Op::Print(text) => print(alloc, out, text),
        Op::NewChannel(name, capacity) => object_and_number(
            out,
            "newchannel ",
            name,
            *capacity as u64,
        ),
        Op::NewAtomic(name, start) => atomic(out, name, *start),
        Op::NewEvent(name, auto) => object_and_flag(out, "newevent ", name, *auto),
        Op::NewCondition(name) => object(out, "newcondition ", name),
        Op::NewLock(name) => object(out, "newlock ", name),
        Op::NewSemaphore(name, count) => object_and_number(out, "newsemaphore ", name, *count),
        Op::Put(name, number) => object_and_int(out, "put ", name, *number),
        Op::Offer(name, number) => object_and_int(out, "offer ", name, *number),
        Op::Landed(name, count) => object_and_number(out, "landed ", name, *count),
        Op::Take(name) => object(out, "take ", name),
        Op::Next(name) => object(out, "next ", name),
        Op::Close(name) => object(out, "close ", name),
        Op::IsOpen(name) => object(out, "isopen ", name),
        Op::IsReady(name) => object(out, "isready ", name),
        Op::Notify(name) => object(out, "notify ", name),
        Op::Reset(name) => object(out, "reset ", name),
        Op::EWait(name) => object(out, "ewait ", name),
        Op::Lock(name) => object(out, "lock ", name),
        Op::Unlock(name) => object(out, "unlock ", name),
        Op::CWait(name) => object(out, "cwait ", name),
        Op::CBack(name) => object(out, "cback ", name),
        Op::CNotify(name, all) => object_and_flag(out, "cnotify ", name, *all),
        Op::Acquire(name) => object(out, "acquire ", name),
        Op::Release(name) => object(out, "release ", name),
        Op::AGet(name) => object(out, "aget ", name),
        Op::ASet(name, number) => object_and_int(out, "aset ", name, *number),
        Op::AAdd(name, number) => object_and_int(out, "aadd ", name, *number),
        Op::ASub(name, number) => object_and_int(out, "asub ", name, *number),
        Op::AXchg(name, number) => object_and_int(out, "axchg ", name, *number),
        Op::ACas(name, old, new) => exchange(out, name, *old, *new),
    }
}
