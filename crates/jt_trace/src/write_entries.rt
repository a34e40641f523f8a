//! Writes entries, a line each.

ghost use Rattle.std.specs.Prelude.{◌≡◌, ◌++◌, ◌∷◌, [], OnOk, string_bytes, codes, decimal};
ghost use Rattle.jt_trace_text.specs.Words as word;
ghost use Rattle.jt_trace_text.specs.Operations.{spaced, operation_text};
ghost use Rattle.jt_trace_text.specs.Entries as spec;
ghost use Rattle.jt_trace_text.specs.Written.{entries_text};

use crate::write_operations::operation;
use crate::write_words::{flag, int, number, path, put, value};
use jt_base::{Entry, OutOfMemory, Reply};
use std::alloc::Global;

fn reply(out: &mut String, reply: &Reply) -> Result<(), OutOfMemory>
    ensures { OnOk result (string_bytes out.new ≡ string_bytes out.old ++ spec.reply_text reply.now) }
{
    match reply {
        Reply::Ok => put(out, "ok"),
        Reply::Int(n) => int(out, *n),
        Reply::Flag(truth) => flag(out, *truth),
        Reply::Val(result) => value(out, result),
        Reply::Failed => put(out, "failed"),
        Reply::Closed => put(out, "closed"),
        Reply::NoItem => put(out, "none"),
        Reply::NotLocked => put(out, "notlocked"),
        Reply::NotOwner => put(out, "notowner"),
        Reply::NotHeld => put(out, "notheld"),
    }
}

/// Stamp, worker and task.
fn who(out: &mut String, entry: &Entry) -> Result<(), OutOfMemory>
    ensures { OnOk result (string_bytes out.new ≡ string_bytes out.old ++ (spaced (decimal entry.now.stamp) ++ (spaced (decimal entry.now.worker) ++ spaced (word.path_text entry.now.task)))) }
{
    number(out, entry.stamp as u64)?;
    put(out, " ")?;
    number(out, entry.worker as u64)?;
    put(out, " ")?;
    path(out, &entry.task)?;
    put(out, " ")
}

/// Operation and reply.
fn what(alloc: Global, out: &mut String, entry: &Entry) -> Result<(), OutOfMemory>
    ensures { OnOk result (string_bytes out.new ≡ string_bytes out.old ++ (operation_text entry.now.op ++ (codes "= " ++ (spec.reply_text entry.now.reply ++ 10 ∷ [])))) }
{
    operation(alloc, out, &entry.op)?;
    put(out, "= ")?;
    reply(out, &entry.reply)?;
    put(out, "\n")
}

fn entry(alloc: Global, out: &mut String, entry: &Entry) -> Result<(), OutOfMemory>
    ensures { OnOk result (string_bytes out.new ≡ string_bytes out.old ++ spec.entry_line entry.now) }
{
    who(out, entry)?;
    what(alloc, out, entry)
}

/// All entries, in order.
pub(crate) fn entries(alloc: Global, out: &mut String, list: &[Entry]) -> Result<(), OutOfMemory>
    ensures { OnOk result (string_bytes out.new ≡ string_bytes out.old ++ entries_text list.now) }
{
    for item in list {
        entry(alloc, out, item)?;
    }
    Ok(())
}
