//! A sink in memory.

ghost use Rattle.std.specs.Prelude.{◌≡◌, ◌<◌, ◌≤◌, [], ◌↔◌, length, take, Some, IsErr, IfOk, OnErr};
ghost use Rattle.std.specs.Io.{WritesAtMost};
ghost use Rattle.jt_base.specs.Outside.{most_count, Rose, Writes};
ghost use Rattle.jt_base.specs.MemorySink.{NextWriteFails, write_count, after_write, after_failed_write};

use crate::memory::OutOfMemory;
use crate::sink::{Sink, WriteFailed};
use std::alloc::Global;
use std::marker::Model;

/// A sink that keeps what is written in room that it reserved, takes so many bytes at a write, and
/// fails at chosen writes and where its room is full. It tells what was written.
#[derive(Debug, Drop)]
pub struct MemorySink {
    bytes: Vec<u8>,
    most: usize,
    room: usize,
    failing: Vec<u64>,
    calls: u64,
    faults: u64,
}

impl Model for MemorySink {
    ghost use Rattle.std.specs.Prelude.{◌<◌, ◌≤◌, length, vec_capacity};
    ghost use Rattle.jt_base.specs.MemorySink.{SinkState};

    ghost Value = { SinkState };

    ghost view = { λ s. record {
      written = s.bytes.items;
      most = s.most;
      room = s.room;
      failing = s.failing.items;
      calls = s.calls;
      faults = s.faults;
    } };

    ghost invariant = { λ s. (length s.bytes.items ≤ s.room) × (s.room ≤ vec_capacity s.bytes) × (0 < s.most) };
}

impl MemorySink {
    /// An empty sink with room for `room` bytes that moves as many at a write as it can, at most
    /// `most`, and fails exactly at the writes whose numbers, counted from 1, stand in `failing`,
    /// and where its room is full.
    pub fn new(
        alloc: Global,
        most: usize,
        room: usize,
        failing: &[u64],
    ) -> Result<MemorySink, OutOfMemory>
        requires { 0 < most }
        ensures { IfOk result (λ sink. sink ≡ record {
          written = [];
          most = most;
          room = room;
          failing = failing.now;
          calls = 0;
          faults = 0;
        }) }
    {
        let bytes = Vec::with_capacity(alloc, room)?;
        let failing = failing.to_vec(alloc)?;
        Ok(MemorySink {
            bytes,
            most,
            room,
            failing,
            calls: 0,
            faults: 0,
        })
    }

    /// What was written.
    pub fn written(&self) -> &[u8]
        ensures { result.now ≡ self.now.written }
    {
        self.bytes.as_slice()
    }
}

impl Sink for MemorySink {
    ghost written = { λ s. Some s.written };

    ghost faults = { λ s. s.faults };

    /// Counts the call, also where it fails or has nothing to move. Where the room is full it
    /// fails, also with nothing to move. It takes no memory.
    fn write(&mut self, bytes: &[u8]) -> Result<usize, WriteFailed>
        ensures within { WritesAtMost result bytes.now }
        ensures bytes { Writes (Some self.old.written) (Some self.new.written) result bytes.now }
        ensures rose { OnErr result (Rose self.old.faults self.new.faults) }
        ensures never_falls { self.old.faults ≤ self.new.faults }
        ensures most { self.new.faults ≤ most_count }

        // It fails exactly at the writes that are to fail and where its room is full, and else
        // moves as much as it can.
        ensures fails { IsErr result ↔ NextWriteFails self.old }
        ensures failed { OnErr result (self.new ≡ after_failed_write self.old) }
        ensures count { IfOk result (λ n. n ≡ write_count self.old (length bytes.now)) }
        ensures ok { IfOk result (λ n. self.new ≡ after_write self.old (take n bytes.now)) }
    {
        self.calls = self.calls.saturating_add(1);
        let free = self.room - self.bytes.len();
        if free == 0 || self.failing.contains(&self.calls) {
            self.faults = self.faults.saturating_add(1);
            return Err(WriteFailed);
        }
        let count = bytes.len().min(self.most).min(free);
        self.bytes.extend_from_slice(&bytes[..count]).unwrap();
        Ok(count)
    }
}
