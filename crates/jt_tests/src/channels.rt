//! Sequences of calls of channels and atomics, with the answers that scripts see.

ghost use Rattle.std.specs.Prelude.{◌≡◌, ◌+◌, ◌^◌, ◌<◌, ◌≤◌, length};
ghost use Rattle.jt_channels.specs.Steps.{numbered};

use jt_base::{Ask, Name, Op, OutOfMemory, Path, Reply};
use jt_channels::{Cell64, Chan};
use std::alloc::Global;
use std::process::Abort;
use std::test::Fail;

#[derive(Clone, Copy, Debug)]
enum Call {
    Put(i64),
    Offer(i64),
    Landed(u64),
    Take,
    Next,
    Close,
    IsOpen,
    IsReady,
}

#[derive(Clone, Copy, Debug)]
enum Change {
    Get,
    Set(i64),
    Add(i64),
    Sub(i64),
    Exchange(i64),
    Compare(i64, i64),
}

// The answer to a call; a call that doesn't fit the capacity isn't made.
fn ask(channel: &mut Chan, call: Call) -> Result<Ask, OutOfMemory>
    requires { numbered channel.old.state < 2 ^ 32 }
    ensures { numbered channel.new.state ≤ numbered channel.old.state + 1 }
{
    let buffered = channel.capacity() > 0;
    channel.reserve()?;
    Ok(match call {
        Call::Put(v) if buffered => channel.put(v),
        Call::Offer(v) if !buffered => channel.offer(v),
        Call::Landed(k) if !buffered => channel.landed(k),
        Call::Take => channel.take(),
        Call::Next => channel.next_item(),
        Call::Close => channel.close(),
        Call::IsOpen => channel.is_open(),
        Call::IsReady => channel.is_ready(),
        _ => Ask::NotYet,
    })
}

// Whether the channel says that it allows a call.
fn allows(channel: &Chan, call: Call) -> bool {
    channel.allows(&match call {
        Call::Put(v) => Op::Put(name(), v),
        Call::Offer(v) => Op::Offer(name(), v),
        Call::Landed(k) => Op::Landed(name(), k),
        Call::Take => Op::Take(name()),
        Call::Next => Op::Next(name()),
        Call::Close => Op::Close(name()),
        Call::IsOpen => Op::IsOpen(name()),
        Call::IsReady => Op::IsReady(name()),
    })
}

fn name() -> Name {
    Name {
        path: Path::main(),
        number: 0,
    }
}

fn changed(cell: &mut Cell64, change: Change) -> Ask {
    let name = name();
    cell.ask(&match change {
        Change::Get => Op::AGet(name),
        Change::Set(v) => Op::ASet(name, v),
        Change::Add(v) => Op::AAdd(name, v),
        Change::Sub(v) => Op::ASub(name, v),
        Change::Exchange(v) => Op::AXchg(name, v),
        Change::Compare(expected, v) => Op::ACas(name, expected, v),
    })
}

fn ok() -> Ask {
    Ask::Done(Reply::Ok)
}

fn int(v: i64) -> Ask {
    Ask::Done(Reply::Int(v))
}

fn flag(b: bool) -> Ask {
    Ask::Done(Reply::Flag(b))
}

fn closed() -> Ask {
    Ask::Done(Reply::Closed)
}

fn no_item() -> Ask {
    Ask::Done(Reply::NoItem)
}

// An object that threads may hand over.
fn sendable<T: Send>(object: T) -> T
    ensures { result ≡ object }
{
    object
}

// Asks a new channel of this capacity in turn.
fn channel_row(
    rt: &impl Abort,
    alloc: Global,
    capacity: u32,
    calls: &[(Call, Ask)],
) -> Result<(), Fail>
    requires { length calls.now < 100 }
{
    let mut channel = sendable(Chan::new(alloc, capacity));
    for (call, want) in calls {
        let allowed = allows(&channel, *call);
        let got = ask(&mut channel, *call)?;
        assert_eq!(rt; allowed, got != Ask::NotYet, "whether {call:?} is allowed");
        assert_eq!(rt; got, *want, "at {call:?}");
    }
    Ok(())
}

#[test]
fn a_put_to_an_unbuffered_channel_lands_with_its_take(rt: HostRuntime) -> Result<(), Fail> {
    // A put alone never lands.
    channel_row(
        &rt,
        rt.alloc(),
        0,
        &[(Call::Offer(1), int(1)), (Call::Landed(1), Ask::NotYet)],
    )?;
    // One that was taken lands also where the channel is closed afterwards.
    channel_row(
        &rt,
        rt.alloc(),
        0,
        &[
            (Call::Offer(7), int(1)),
            (Call::Take, int(7)),
            (Call::Landed(1), ok()),
            (Call::Close, ok()),
            (Call::IsOpen, flag(false)),
            (Call::Landed(1), ok()),
        ],
    )
}

#[test]
fn a_close_withdraws_offers(rt: HostRuntime) -> Result<(), Fail> {
    channel_row(
        &rt,
        rt.alloc(),
        0,
        &[
            (Call::Offer(1), int(1)),
            (Call::Offer(2), int(2)),
            (Call::Next, int(1)),
            (Call::IsReady, flag(true)),
            (Call::Close, ok()),
            (Call::IsReady, flag(false)),
            (Call::Landed(2), closed()),
            (Call::Next, no_item()),
            (Call::Offer(3), closed()),
        ],
    )
}

#[test]
fn what_is_left_in_a_buffer_comes_out_after_the_close(rt: HostRuntime) -> Result<(), Fail> {
    channel_row(
        &rt,
        rt.alloc(),
        1,
        &[
            (Call::Put(5), ok()),
            (Call::Put(6), Ask::NotYet),
            (Call::Close, ok()),
            (Call::Take, int(5)),
            (Call::Take, closed()),
            (Call::Next, no_item()),
            (Call::Put(6), closed()),
        ],
    )?;
    // It is ready while an item is left, closed or not.
    channel_row(
        &rt,
        rt.alloc(),
        1,
        &[
            (Call::Put(1), ok()),
            (Call::IsReady, flag(true)),
            (Call::Close, ok()),
            (Call::IsReady, flag(true)),
            (Call::Take, int(1)),
            (Call::IsReady, flag(false)),
        ],
    )
}

#[test]
fn a_buffer_gives_first_what_came_first(rt: HostRuntime) -> Result<(), Fail> {
    channel_row(
        &rt,
        rt.alloc(),
        2,
        &[
            (Call::Take, Ask::NotYet),
            (Call::Put(1), ok()),
            (Call::Put(2), ok()),
            (Call::Put(3), Ask::NotYet),
            (Call::Take, int(1)),
            (Call::Put(3), ok()),
            (Call::Next, int(2)),
            (Call::Take, int(3)),
            (Call::Next, Ask::NotYet),
            (Call::IsOpen, flag(true)),
        ],
    )
}

#[test]
fn atomics(rt: HostRuntime) {
    let mut cell = sendable(Cell64::new(5));
    for (call, want) in [
        (Change::Compare(4, 9), int(5)),
        (Change::Exchange(7), int(5)),
        (Change::Get, int(7)),
        (Change::Compare(7, i64::MAX), int(7)),
        (Change::Add(1), int(i64::MAX)),
        (Change::Sub(2), int(i64::MIN)),
        (Change::Get, int(i64::MAX - 1)),
        (Change::Set(-3), ok()),
        (Change::Get, int(-3)),
    ] {
        assert_eq!(rt; changed(&mut cell, call), want, "at {call:?}");
    }
}
