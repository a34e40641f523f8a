//! Readers and writers of the standard library as source and sink.

ghost use Rattle.std.specs.Prelude.{ℕ, ◌≡◌, ◌≤◌, List, None, IfOk, OnErr};
ghost use Rattle.std.specs.Io.{ReadsAtMost, WritesAtMost};
ghost use Rattle.jt_base.specs.Outside.{most_count, Rose, Reads, Writes};

use crate::sink::{Sink, WriteFailed};
use crate::source::{ReadFailed, Source};
use std::io::{Read, Write};
use std::marker::Model;

/// A source over a reader, as standard input. It counts the reads that failed, from 0 to 2^64 - 1,
/// and tells nothing of the bytes. Contracts see it as that count.
#[derive(Drop)]
pub struct StdSource<I> {
    inner: I,
    faults: u64,
}

impl<I> Model for StdSource<I> {
    ghost use Rattle.std.specs.Prelude.{ℕ, ◌≤◌};
    ghost use Rattle.jt_base.specs.Outside.{most_count};

    ghost Value = { ℕ };

    ghost view = { λ s. s.faults };

    ghost invariant = { λ s. s.faults ≤ most_count };
}

impl<I: Read> StdSource<I> {
    /// A source over `inner`, without a fault so far.
    pub fn new(inner: I) -> StdSource<I>
        ensures { result ≡ 0 }
    {
        StdSource { inner, faults: 0 }
    }
}

impl<I: Read> Source for StdSource<I> {
    ghost left = { λ _. None };

    ghost faults = { λ s. s };

    /// Every error of the reader is a failure, also an interruption. A read that succeeds leaves the
    /// count as it was.
    fn read(&mut self, buf: &mut [u8]) -> Result<usize, ReadFailed>
        ensures within { ReadsAtMost result buf.new }
        ensures bytes { Reads None None result buf.new }
        ensures rose { OnErr result (Rose self.old self.new) }
        ensures never_falls { self.old ≤ self.new }
        ensures most { self.new ≤ most_count }

        ensures kept { IfOk result (λ _. self.new ≡ self.old) }
    {
        match self.inner.read(buf) {
            Ok(count) => Ok(count),
            Err(_) => {
                self.faults = self.faults.saturating_add(1);
                Err(ReadFailed)
            }
        }
    }
}

/// A sink over a writer, as standard output. It counts the writes that failed, from 0 to 2^64 - 1,
/// and tells nothing of the bytes. Contracts see it as that count.
#[derive(Drop)]
pub struct StdSink<O> {
    inner: O,
    faults: u64,
}

impl<O> Model for StdSink<O> {
    ghost use Rattle.std.specs.Prelude.{ℕ, ◌≤◌};
    ghost use Rattle.jt_base.specs.Outside.{most_count};

    ghost Value = { ℕ };

    ghost view = { λ s. s.faults };

    ghost invariant = { λ s. s.faults ≤ most_count };
}

impl<O: Write> StdSink<O> {
    /// A sink over `inner`, without a fault so far.
    pub fn new(inner: O) -> StdSink<O>
        ensures { result ≡ 0 }
    {
        StdSink { inner, faults: 0 }
    }
}

impl<O: Write> Sink for StdSink<O> {
    ghost written = { λ _. None };

    ghost faults = { λ s. s };

    /// Writes and flushes. Every error of the writer or of its flush is a failure, also an
    /// interruption, and so is a write that takes none of the bytes though there are some. A write that
    /// succeeds leaves the count as it was.
    fn write(&mut self, bytes: &[u8]) -> Result<usize, WriteFailed>
        ensures within { WritesAtMost result bytes.now }
        ensures bytes { Writes None None result bytes.now }
        ensures rose { OnErr result (Rose self.old self.new) }
        ensures never_falls { self.old ≤ self.new }
        ensures most { self.new ≤ most_count }

        ensures kept { IfOk result (λ _. self.new ≡ self.old) }
    {
        match self.inner.write(bytes) {
            Ok(count) if (count > 0 || bytes.is_empty()) && self.inner.flush().is_ok() => Ok(count),
            _ => {
                self.faults = self.faults.saturating_add(1);
                Err(WriteFailed)
            }
        }
    }
}
