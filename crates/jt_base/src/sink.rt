//! Where bytes go.

ghost use Rattle.std.specs.Prelude.{ℕ, ◌≤◌, List, Option, OnErr};
ghost use Rattle.std.specs.Io.{WritesAtMost};
ghost use Rattle.jt_base.specs.Outside.{most_count, Rose, Writes};

use thiserror::Error;

/// A write failed, and nothing was written. Its sink counted a fault.
#[derive(Clone, Copy, PartialEq, Eq, Debug, Drop, Error)]
#[error("writing failed")]
pub struct WriteFailed;

/// Takes bytes, in order.
pub trait Sink {
    // What was written, where the sink tells it.
    ghost written: { Self → Option (List ℕ) };

    // How many writes failed, from 0 on. The count stands still at its greatest.
    ghost faults: { Self → ℕ };

    /// Adds bytes from the front of `bytes` to what was written and returns how many: at least one
    /// where there is one. After `WriteFailed`, whose fault is counted, nothing was added.
    fn write(&mut self, bytes: &[u8]) -> Result<usize, WriteFailed>
        ensures within { WritesAtMost result bytes.now }
        ensures bytes { Writes (written self.old) (written self.new) result bytes.now }
        ensures rose { OnErr result (Rose (faults self.old) (faults self.new)) }
        ensures never_falls { faults self.old ≤ faults self.new }
        ensures most { faults self.new ≤ most_count };
}
