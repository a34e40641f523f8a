//! Where bytes come from.

ghost use Rattle.std.specs.Prelude.{ℕ, ◌≤◌, List, Option, OnErr};
ghost use Rattle.std.specs.Io.{ReadsAtMost};
ghost use Rattle.jt_base.specs.Outside.{most_count, Rose, Reads};

use thiserror::Error;

/// A read failed, and nothing was read. Its source counted a fault.
#[derive(Clone, Copy, PartialEq, Eq, Debug, Drop, Error)]
#[error("reading failed")]
pub struct ReadFailed;

/// Gives bytes, in order and each once.
pub trait Source {
    // What is left to read, where the source tells it.
    ghost left: { Self → Option (List ℕ) };

    // How many reads failed, from 0 on. The count stands still at its greatest.
    ghost faults: { Self → ℕ };

    /// Takes bytes that are left into the front of `buf` and returns how many: none only where
    /// `buf` is empty or the end is reached. What stands in `buf` behind them may be anything.
    /// After `ReadFailed`, whose fault is counted, what was left is still left, and `buf` may hold
    /// anything.
    fn read(&mut self, buf: &mut [u8]) -> Result<usize, ReadFailed>
        ensures within { ReadsAtMost result buf.new }
        ensures bytes { Reads (left self.old) (left self.new) result buf.new }
        ensures rose { OnErr result (Rose (faults self.old) (faults self.new)) }
        ensures never_falls { faults self.old ≤ faults self.new }
        ensures most { faults self.new ≤ most_count };
}
