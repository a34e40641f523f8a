//! Writes the words of a trace's lines. Each function adds a word to the text.

ghost use Rattle.std.specs.Prelude.{◌≡◌, ◌++◌, ◌∷◌, [], OnOk, string_bytes, codes, decimal};
ghost use Rattle.std.specs.Fmt.{signed_decimal};
ghost use Rattle.jt_trace_text.specs.Words as word;

use itoa::Buffer;
use jt_base::{Fault, How, Kind, Name, OutOfMemory, Path, Text, Value};
use std::alloc::Global;

/// Some bytes as they are.
pub(crate) fn put(out: &mut String, text: &str) -> Result<(), OutOfMemory>
    ensures { OnOk result (string_bytes out.new ≡ string_bytes out.old ++ text.now) }
{
    out.push_str(text)?;
    Ok(())
}

/// A number.
pub(crate) fn number(out: &mut String, n: u64) -> Result<(), OutOfMemory>
    ensures { OnOk result (string_bytes out.new ≡ string_bytes out.old ++ decimal n) }
{
    let mut digits = Buffer::new();
    put(out, digits.format(n))
}

/// A number with its sign.
pub(crate) fn int(out: &mut String, n: i64) -> Result<(), OutOfMemory>
    ensures { OnOk result (string_bytes out.new ≡ string_bytes out.old ++ signed_decimal n) }
{
    let mut digits = Buffer::new();
    put(out, digits.format(n))
}

/// A truth value.
pub(crate) fn flag(out: &mut String, flag: bool) -> Result<(), OutOfMemory>
    ensures { OnOk result (string_bytes out.new ≡ string_bytes out.old ++ word.flag_text flag) }
{
    if flag {
        put(out, "true")
    } else {
        put(out, "false")
    }
}

/// A path.
pub(crate) fn path(out: &mut String, path: &Path) -> Result<(), OutOfMemory>
    ensures { OnOk result (string_bytes out.new ≡ string_bytes out.old ++ word.path_text path.now) }
{
    put(out, "m")?;
    for index in path.indexes() {
        put(out, ".")?;
        number(out, *index as u64)?;
    }
    Ok(())
}

/// An object's name.
pub(crate) fn name(out: &mut String, name: &Name) -> Result<(), OutOfMemory>
    ensures { OnOk result (string_bytes out.new ≡ string_bytes out.old ++ word.name_text name.now) }
{
    path(out, &name.path)?;
    put(out, "#")?;
    number(out, name.number as u64)
}

/// A text, two digits for each byte.
pub(crate) fn hex(alloc: Global, out: &mut String, text: &Text) -> Result<(), OutOfMemory>
    ensures { OnOk result (string_bytes out.new ≡ string_bytes out.old ++ word.hex_text text.now) }
{
    let digits = hex::encode(alloc, text.bytes())?;
    put(out, "x")?;
    put(out, digits.as_str())
}

/// How a task is made.
pub(crate) fn how(out: &mut String, how: How) -> Result<(), OutOfMemory>
    ensures { OnOk result (string_bytes out.new ≡ string_bytes out.old ++ word.how_text how) }
{
    match how {
        How::Default => put(out, "default"),
        How::Interactive => put(out, "interactive"),
        How::Async => put(out, "async"),
        How::Chunk(k) => {
            put(out, "chunk:")?;
            number(out, k as u64)
        }
    }
}

fn kind(out: &mut String, kind: Kind) -> Result<(), OutOfMemory>
    ensures { OnOk result (string_bytes out.new ≡ string_bytes out.old ++ word.kind_text kind) }
{
    match kind {
        Kind::Channel => put(out, "channel"),
        Kind::Unbuffered => put(out, "unbuffered"),
        Kind::Atomic => put(out, "atomic"),
        Kind::Event => put(out, "event"),
        Kind::Condition => put(out, "condition"),
        Kind::Lock => put(out, "lock"),
        Kind::Semaphore => put(out, "semaphore"),
    }
}

/// A path behind a word.
fn path_behind(out: &mut String, before: &str, task: &Path) -> Result<(), OutOfMemory>
    ensures { OnOk result (string_bytes out.new ≡ string_bytes out.old ++ (before.now ++ word.path_text task.now)) }
{
    put(out, before)?;
    path(out, task)
}

fn object(out: &mut String, of: Kind, object: &Name) -> Result<(), OutOfMemory>
    ensures { OnOk result (string_bytes out.new ≡ string_bytes out.old ++ (word.kind_text of ++ (codes ":" ++ word.name_text object.now))) }
{
    kind(out, of)?;
    put(out, ":")?;
    name(out, object)
}

/// A value.
pub(crate) fn value(out: &mut String, value: &Value) -> Result<(), OutOfMemory>
    ensures { OnOk result (string_bytes out.new ≡ string_bytes out.old ++ word.value_text value.now) }
{
    match value {
        Value::Int(n) => int(out, *n),
        Value::Flag(truth) => flag(out, *truth),
        Value::Nothing => put(out, "nothing"),
        Value::Task(task) => path_behind(out, "task:", task),
        Value::Object(kind, name) => object(out, *kind, name),
    }
}

fn message(alloc: Global, out: &mut String, text: &Text) -> Result<(), OutOfMemory>
    ensures { OnOk result (string_bytes out.new ≡ string_bytes out.old ++ (codes "error:" ++ word.hex_text text.now)) }
{
    put(out, "error:")?;
    hex(alloc, out, text)
}

/// A fault.
pub(crate) fn fault(alloc: Global, out: &mut String, fault: &Fault) -> Result<(), OutOfMemory>
    ensures { OnOk result (string_bytes out.new ≡ string_bytes out.old ++ word.fault_text fault.now) }
{
    match fault {
        Fault::Divide => put(out, "divide"),
        Fault::Domain => put(out, "domain"),
        Fault::EmptyRange => put(out, "emptyrange"),
        Fault::Method => put(out, "method"),
        Fault::Undefined => put(out, "undefined"),
        Fault::TurnLimit => put(out, "turnlimit"),
        Fault::StackLimit => put(out, "stacklimit"),
        Fault::ForkTooDeep => put(out, "forktoodeep"),
        Fault::ChannelClosed => put(out, "channelclosed"),
        Fault::NotLocked => put(out, "notlocked"),
        Fault::NotOwner => put(out, "notowner"),
        Fault::ReleaseFree => put(out, "releasefree"),
        Fault::StaticNested => put(out, "staticnested"),
        Fault::TaskFailed(task) => path_behind(out, "taskfailed:", task),
        Fault::Error(text) => message(alloc, out, text),
    }
}
