//! The traits of the outside, and the vocabulary of names, texts and operations.

use jt_base::{
    Fault, Gate, Kind, MemorySink, MemorySource, Name, Op, OpenGate, OutOfMemory, Path, PathFull,
    Picks, ReadFailed, Reply, Sink, Source, StdSink, StdSource, Text, Value, WriteFailed,
};
use std::alloc::Global;
use std::io;
use std::io::{ErrorKind, Read, Write};
use std::process::Abort;
use std::test::Fail;

// A reader that gives the bytes one at a time, and fails once when so many are left.
#[derive(Drop)]
struct BrokenReader<'a> {
    left: &'a [u8],
    breaks_at: usize,
    broke: bool,
}

impl<'a> Read for BrokenReader<'a> {
    fn read(&mut self, buf: &mut [u8]) -> io::Result<usize> {
        if self.left.len() == self.breaks_at && !self.broke {
            self.broke = true;
            return Err(io::Error::from(ErrorKind::Interrupted));
        }
        match (self.left.split_first(), buf.first_mut()) {
            (Some((byte, rest)), Some(place)) => {
                *place = *byte;
                self.left = rest;
                Ok(1)
            }
            _ => Ok(0),
        }
    }
}

// What a call of a writer is to answer.
#[derive(Clone, Copy)]
enum Step {
    Takes(usize),
    Fails,
    FailsToFlush,
}

// A writer that answers step by step, and keeps what it takes.
#[derive(Drop)]
struct SteppedWriter {
    taken: Vec<u8>,
    steps: Vec<Step>,
    at: usize,
    flushes: usize,
}

impl SteppedWriter {
    fn step(&self) -> Step {
        match self.steps.get(self.at) {
            Some(step) => *step,
            None => Step::Takes(0),
        }
    }
}

impl Write for SteppedWriter {
    fn write(&mut self, buf: &[u8]) -> io::Result<usize> {
        let count = match self.step() {
            Step::Takes(most) => buf.len().min(most),
            Step::Fails => {
                self.at = self.at.saturating_add(1);
                return Err(io::Error::from(ErrorKind::BrokenPipe));
            }
            Step::FailsToFlush => buf.len(),
        };
        self.taken.extend_from_slice(&buf[..count])?;
        if count == 0 {
            self.at = self.at.saturating_add(1);
        }
        Ok(count)
    }

    fn flush(&mut self) -> io::Result<()> {
        let step = self.step();
        self.at = self.at.saturating_add(1);
        self.flushes = self.flushes.saturating_add(1);
        match step {
            Step::FailsToFlush => Err(io::Error::from(ErrorKind::BrokenPipe)),
            _ => Ok(()),
        }
    }
}

// Reads into buffers of the given lengths, and compares what each read gave: nothing where it is
// to fail.
fn check_reads<S: Source>(rt: &impl Abort, source: &mut S, reads: &[(usize, Option<&[u8]>)]) {
    let mut buffer = [0; 8];
    for (length, want) in reads {
        let length = (*length).min(buffer.len());
        match (source.read(&mut buffer[..length]), want) {
            (Ok(count), Some(want)) => assert_eq!(rt; &buffer[..count], *want),
            (Err(error), None) => assert_eq!(rt; error, ReadFailed),
            _ => panic!(rt; "a read of {length}"),
        }
    }
}

// Writes texts, and compares how much each write took: nothing where it is to fail.
fn check_writes<O: Sink>(rt: &impl Abort, sink: &mut O, writes: &[(&[u8], Option<usize>)]) {
    for (text, want) in writes {
        match (sink.write(text), want) {
            (Ok(count), Some(want)) => assert_eq!(rt; count, *want),
            (Err(error), None) => assert_eq!(rt; error, WriteFailed),
            _ => panic!(rt; "a write of {}", text.len()),
        }
    }
}

#[test]
fn memory_moves_what_it_may(rt: HostRuntime) -> Result<(), Fail> {
    let mut source = MemorySource::new(rt.alloc(), b"abcdefghij", 4, &[2, 5])?;
    let reads: [(usize, Option<&[u8]>); 8] = [
        (8, Some(b"abcd")),
        (8, None),
        (3, Some(b"efg")),
        (0, Some(b"")),
        (8, None),
        (8, Some(b"hij")),
        (8, Some(b"")),
        (0, Some(b"")),
    ];
    check_reads(&rt, &mut source, &reads);

    let mut sink = MemorySink::new(rt.alloc(), 4, 7, &[1, 4])?;
    let writes: [(&[u8], Option<usize>); 8] = [
        (b"abcdef", None),
        (b"abcdef", Some(4)),
        (b"", Some(0)),
        (b"", None),
        (b"ef", Some(2)),
        (b"gh", Some(1)),
        (b"h", None),
        (b"", None),
    ];
    check_writes(&rt, &mut sink, &writes);
    assert_eq!(rt; sink.written(), b"abcdefg".as_slice());
    Ok(())
}

#[test]
fn standard_readers_and_writers_fail_in_mid_stream(rt: HostRuntime) -> Result<(), Fail> {
    let reader = BrokenReader {
        left: b"abc",
        breaks_at: 1,
        broke: false,
    };
    let reads: [(usize, Option<&[u8]>); 6] = [
        (8, Some(b"a")),
        (8, Some(b"b")),
        (8, None),
        (0, Some(b"")),
        (8, Some(b"c")),
        (8, Some(b"")),
    ];
    check_reads(&rt, &mut StdSource::new(reader), &reads);

    let steps = [
        Step::Takes(2),
        Step::Fails,
        Step::Takes(0),
        Step::FailsToFlush,
        Step::Takes(9),
    ];
    let mut writer = SteppedWriter {
        taken: Vec::new(rt.alloc()),
        steps: steps.to_vec(rt.alloc())?,
        at: 0,
        flushes: 0,
    };
    let writes: [(&[u8], Option<usize>); 5] = [
        (b"abc", Some(2)),
        (b"c", None),
        (b"c", None),
        (b"c", None),
        (b"de", Some(2)),
    ];
    check_writes(&rt, &mut StdSink::new(&mut writer), &writes);
    assert_eq!(rt; writer.taken.as_slice(), b"abcde".as_slice());
    assert_eq!(rt; writer.flushes, 3);
    Ok(())
}

// The path of the indexes 0, 1, 2 and so on.
fn path_of_length(length: u32) -> Result<Path, PathFull> {
    let mut path = Path::main();
    for k in 0..length {
        path = path.child(k)?;
    }
    Ok(path)
}

// 0 + 1 + .. + 46 = 1081 = 67 * 16 + 9, and 47 more is 1128 = 70 * 16 + 8.
fn check_paths(rt: &impl Abort) -> Result<(), PathFull> {
    for (length, shard) in [(0, 0), (1, 0), (2, 1), (47, 9), (48, 8)] {
        let path = path_of_length(length)?;
        let indexes = path.len();
        assert_eq!(rt; indexes, length as usize);
        assert_eq!(rt; path.shard(), shard);
        assert_eq!(rt; path.copy(), path);
        assert_eq!(rt; path.is_main(), indexes == 0);
        assert_eq!(rt; path.child(0).is_ok(), indexes < 48);
        if indexes > 0 {
            assert_eq!(rt; path.at(indexes - 1), length - 1);
        }
    }
    Ok(())
}

// 4294967295 = 268435455 * 16 + 15, and 9 + 15 = 24 = 16 + 8.
fn check_names(rt: &impl Abort) -> Result<(), PathFull> {
    for (number, shard) in [(0, 9), (6, 15), (7, 0), (4_294_967_295, 8)] {
        let name = Name {
            path: path_of_length(47)?,
            number,
        };
        assert_eq!(rt; name.shard(), shard);
        assert_eq!(rt; name.copy(), name);
        let value = Value::Object(Kind::Lock, name);
        assert_eq!(rt; value.copy(), value);
    }
    Ok(())
}

fn check_texts(rt: &impl Abort, alloc: Global) -> Result<(), OutOfMemory> {
    let text = Text::from_str(alloc, "n\u{e4}h")?;
    assert_eq!(rt; text.bytes(), [110, 195, 164, 104].as_slice());
    assert_eq!(rt; text.as_str().len(), 4);
    assert_eq!(rt; text.copy(alloc)?, text);
    Ok(())
}

fn check_copies(rt: &impl Abort, alloc: Global) -> Result<(), OutOfMemory> {
    let fault = Fault::Error(Text::from_str(alloc, "halt")?);
    assert_eq!(rt; fault.copy(alloc)?, fault);
    let failure = Op::Fail(fault);
    assert_eq!(rt; failure.copy(alloc)?, failure);
    let name = Name {
        path: Path::main(),
        number: 2,
    };
    let exchange = Op::ACas(name, 3, -4);
    assert_eq!(rt; exchange.copy(alloc)?, exchange);
    let reply = Reply::Val(Value::Task(Path::main()));
    assert_eq!(rt; reply.copy(), reply);
    Ok(())
}

// The words that follow the state 1234567 end in 317 and 973, by the reference code of SplitMix64.
fn check_picks(rt: &impl Abort) {
    let mut picks = Picks::new(1_234_567);
    assert_eq!(rt; picks.below(1000), 317);
    assert_eq!(rt; picks.below(1000), 973);
    assert_eq!(rt; picks.below(1), 0);
}

#[test]
fn names_and_texts(rt: HostRuntime) -> Result<(), Fail> {
    check_paths(&rt)?;
    check_names(&rt)?;
    check_texts(&rt, rt.alloc())?;
    check_copies(&rt, rt.alloc())?;
    check_picks(&rt);
    OpenGate.before(0, 0);
    OpenGate.begun(63, 18_446_744_073_709_551_615);
    Ok(())
}
