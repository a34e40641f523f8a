//! Writing a whole text.

ghost use Rattle.std.specs.Prelude.{◌≤◌, OnOk, OnErr};
ghost use Rattle.std.specs.Io.KnownBytes.{Appends};
ghost use Rattle.jt_base.specs.Outside.{Rose, WritesPrefix};

use jt_base::{Sink, WriteFailed};

/// Adds all of `bytes` to what was written, handing the sink at each write all that is left of
/// them. `WriteFailed` only where a write failed, which ends the writing: a prefix of `bytes` was
/// added then. It takes no memory.
pub(crate) fn write_all<O: Sink>(sink: &mut O, bytes: &[u8]) -> Result<(), WriteFailed>
    ensures whole { OnOk result (Appends (O.written sink.old) (O.written sink.new) bytes.now) }
    ensures prefix { OnErr result (WritesPrefix (O.written sink.old) (O.written sink.new) bytes.now) }
    ensures failed { OnErr result (Rose (O.faults sink.old) (O.faults sink.new)) }
    ensures never_falls { O.faults sink.old ≤ O.faults sink.new }
{
    let mut done = 0;
    while done < bytes.len() {
        done += sink.write(&bytes[done..])?;
    }
    Ok(())
}
