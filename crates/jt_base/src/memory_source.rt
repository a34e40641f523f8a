//! A source in memory.

ghost use Rattle.std.specs.Prelude.{◌≡◌, ◌<◌, ◌≤◌, ◌++◌, [], ◌↔◌, length, take, drop, Some, IsErr, IfOk, OnErr};
ghost use Rattle.std.specs.Io.{ReadsAtMost};
ghost use Rattle.jt_base.specs.Outside.{most_count, Rose, Reads};
ghost use Rattle.jt_base.specs.MemorySource.{NextReadFails, read_count, after_read, after_failed_read};

use crate::memory::OutOfMemory;
use crate::source::{ReadFailed, Source};
use std::alloc::Global;
use std::marker::Model;

/// A source that gives the bytes of a slice, so many at a read, and fails at chosen reads. It tells
/// what is left.
#[derive(Debug, Drop)]
pub struct MemorySource {
    bytes: Vec<u8>,
    position: usize,
    most: usize,
    failing: Vec<u64>,
    calls: u64,
    faults: u64,
}

impl Model for MemorySource {
    ghost use Rattle.std.specs.Prelude.{◌<◌, ◌≤◌, length, drop};
    ghost use Rattle.jt_base.specs.MemorySource.{SourceState};

    ghost Value = { SourceState };

    ghost view = { λ s. record {
      left = drop s.position s.bytes.items;
      most = s.most;
      failing = s.failing.items;
      calls = s.calls;
      faults = s.faults;
    } };

    ghost invariant = { λ s. (s.position ≤ length s.bytes.items) × (0 < s.most) };
}

impl MemorySource {
    /// A source of the bytes of `bytes` that moves as many at a read as it can, at most `most`, and
    /// fails exactly at the reads whose numbers, counted from 1, stand in `failing`.
    pub fn new(
        alloc: Global,
        bytes: &[u8],
        most: usize,
        failing: &[u64],
    ) -> Result<MemorySource, OutOfMemory>
        requires { 0 < most }
        ensures { IfOk result (λ source. source ≡ record {
          left = bytes.now;
          most = most;
          failing = failing.now;
          calls = 0;
          faults = 0;
        }) }
    {
        let bytes = bytes.to_vec(alloc)?;
        let failing = failing.to_vec(alloc)?;
        Ok(MemorySource {
            bytes,
            position: 0,
            most,
            failing,
            calls: 0,
            faults: 0,
        })
    }
}

impl Source for MemorySource {
    ghost left = { λ s. Some s.left };

    ghost faults = { λ s. s.faults };

    /// Counts the call, also where it fails or has nothing to move.
    fn read(&mut self, buf: &mut [u8]) -> Result<usize, ReadFailed>
        ensures within { ReadsAtMost result buf.new }
        ensures bytes { Reads (Some self.old.left) (Some self.new.left) result buf.new }
        ensures rose { OnErr result (Rose self.old.faults self.new.faults) }
        ensures never_falls { self.old.faults ≤ self.new.faults }
        ensures most { self.new.faults ≤ most_count }

        // It fails exactly at the reads that are to fail, and else moves as much as it can.
        ensures fails { IsErr result ↔ NextReadFails self.old }
        ensures failed { OnErr result (self.new ≡ after_failed_read self.old) }
        ensures count { IfOk result (λ n. n ≡ read_count self.old (length buf.old)) }
        ensures ok { IfOk result (λ n. self.new ≡ after_read self.old n) }
        ensures buffer { IfOk result (λ n. buf.new ≡ take n self.old.left ++ drop n buf.old) }
    {
        self.calls = self.calls.saturating_add(1);
        if self.failing.contains(&self.calls) {
            self.faults = self.faults.saturating_add(1);
            return Err(ReadFailed);
        }
        let rest = &self.bytes[self.position..];
        let count = rest.len().min(buf.len()).min(self.most);
        buf[..count].copy_from_slice(&rest[..count]);
        self.position += count;
        Ok(count)
    }
}
