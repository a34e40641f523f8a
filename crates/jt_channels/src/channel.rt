//! Channels.

ghost use Rattle.std.specs.Prelude.{◌≡◌, ℕ, ◌^◌, ◌<◌, ◌≤◌, ◌&&◌, List, [], length, true, false, not, nat_eq, slice_get, IfSome, IfNone, OnSome, OnOk};
ghost use Rattle.jt_base.specs.declared.operation.Op.TheVariants as op;
ghost use Rattle.jt_base.specs.declared.name.Name.{Name};
ghost use Rattle.jt_base.specs.declared.object.Object.TheVariants.{Named};
ghost use Rattle.jt_base.specs.Objects.{object_of};
ghost use Rattle.jt_laws.specs.Channels.{Channel, channel_left_by};
ghost use Rattle.jt_laws.specs.Objects.{Allowed, Asked, MadeBy};
ghost use Rattle.jt_channels.specs.Steps.{is_channel_op, puts_item, is_offer, can_put, can_land, can_take, without_item, numbered, Keeps};

use jt_base::{Ask, Op, OutOfMemory, Reply};
use std::alloc::Global;
use std::collections::VecDeque;
use std::marker::Model;

/// A channel of `Int64` items, first in, first out, with a buffer or without one (Julia manual,
/// "Communicating via channels"). Contracts see the state that a list of the channel's entries
/// leaves, and for how many more items memory is reserved.
#[derive(Drop)]
pub struct Chan {
    /// How many items the buffer holds. An unbuffered channel has 0.
    capacity: u32,
    /// The items left, oldest first. The close of an unbuffered channel leaves none: those that
    /// stand here then are dropped with the channel.
    items: VecDeque<i64>,
    /// How many items were taken of an unbuffered channel.
    taken: u64,
    closed: bool,
}

impl Model for Chan {
    ghost use Rattle.std.specs.Prelude.{◌≡◌, ◌+◌, ◌-◌, ◌^◌, ◌<◌, ◌≤◌, length};
    ghost use Rattle.std.specs.VecDeque.{deque_len, deque_capacity};
    ghost use Rattle.jt_laws.specs.Channels.{Channel};
    ghost use Rattle.jt_laws.specs.Objects.{WithRoom};
    ghost use Rattle.jt_channels.specs.Steps.{left_in};

    ghost Value = { WithRoom Channel };

    ghost view = { λ c. record { state = record { capacity = c.capacity; items = left_in c.closed c.capacity c.items.items; taken = c.taken; closed = c.closed }; room = deque_capacity c.items - deque_len c.items } };

    ghost invariant = { λ c. (c.taken + length c.items.items ≤ 2 ^ 32) × (0 < c.capacity → c.taken ≡ 0) };
}

impl Chan {
    /// An open channel without items. It takes no memory yet.
    pub fn new(alloc: Global, capacity: u32) -> Chan
        ensures made { (name : Name) → MadeBy Channel channel_left_by (op.NewChannel name capacity) result.state }
        ensures empty { result.state ≡ record { capacity = capacity; items = []; taken = 0; closed = false } }
    {
        Chan {
            capacity,
            items: VecDeque::new(alloc),
            taken: 0,
            closed: false,
        }
    }

    /// Makes room for one item. After `OutOfMemory` the channel is as before.
    pub fn reserve(&mut self) -> Result<(), OutOfMemory>
        ensures state { self.new.state ≡ self.old.state }
        ensures kept { self.old.room ≤ self.new.room }
        ensures room { OnOk result (0 < self.new.room) }
    {
        self.items.reserve(1)?;
        Ok(())
    }

    /// How many items the buffer holds. An unbuffered channel has 0.
    pub fn capacity(&self) -> u32
        ensures { result ≡ self.now.state.capacity }
    {
        self.capacity
    }

    /// Answers an operation on this channel, each as its own call here does. `NotYet` exactly where
    /// the law of objects allows no reply, so also at a put without a buffer, at an offer or a
    /// landing with one, and at every other operation: the channel is then as it was.
    pub fn ask(&mut self, op: &Op) -> Ask
        requires reserved { puts_item op.now ≡ true → 0 < self.old.room }
        requires offers { is_offer op.now ≡ true → numbered self.old.state < 2 ^ 32 }
        ensures law { (task : List ℕ) (name : Name) → object_of task op.now ≡ Named name → Asked Channel channel_left_by task op.now self.old.state result self.new.state }
        ensures kept { Keeps self.old self.new 1 }
        ensures not_yet { result ≡ Ask.NotYet → self.new ≡ self.old }
        ensures others { is_channel_op op.now ≡ false → result ≡ Ask.NotYet }
    {
        match op {
            Op::Put(_, v) if self.capacity > 0 => self.put(*v),
            Op::Offer(_, v) if self.capacity == 0 => self.offer(*v),
            Op::Landed(_, k) if self.capacity == 0 => self.landed(*k),
            Op::Take(_) => self.take(),
            Op::Next(_) => self.next_item(),
            Op::Close(_) => self.close(),
            Op::IsOpen(_) => self.is_open(),
            Op::IsReady(_) => self.is_ready(),
            _ => Ask::NotYet,
        }
    }

    /// Puts an item into the buffer: `closed` after a close, and not yet where the buffer is full.
    pub fn put(&mut self, v: i64) -> Ask
        requires buffered { 0 < self.old.state.capacity }
        requires reserved { 0 < self.old.room }
        ensures law { (task : List ℕ) (name : Name) → Asked Channel channel_left_by task (op.Put name v) self.old.state result self.new.state }
        ensures kept { Keeps self.old self.new 1 }
        ensures not_yet { result ≡ Ask.NotYet → self.new ≡ self.old }
    {
        if self.closed {
            return Ask::Done(Reply::Closed);
        }
        if self.items.len() >= self.capacity as usize {
            return Ask::NotYet;
        }
        self.items.push_back_reserved(v);
        Ask::Done(Reply::Ok)
    }

    /// Offers an item to the takers of an unbuffered channel, and replies the offer's number, from
    /// 1 on: `closed` after a close.
    pub fn offer(&mut self, v: i64) -> Ask
        requires unbuffered { self.old.state.capacity ≡ 0 }
        requires reserved { 0 < self.old.room }
        requires offers { numbered self.old.state < 2 ^ 32 }
        ensures law { (task : List ℕ) (name : Name) → Asked Channel channel_left_by task (op.Offer name v) self.old.state result self.new.state }
        ensures kept { Keeps self.old self.new 1 }
        ensures not_yet { result ≡ Ask.NotYet → self.new ≡ self.old }
    {
        if self.closed {
            return Ask::Done(Reply::Closed);
        }
        self.items.push_back_reserved(v);
        let number = self.taken + self.items.len() as u64;
        Ask::Done(Reply::Int(number as i64))
    }

    /// Asks whether this many items of an unbuffered channel were taken: `closed` where fewer were
    /// and the channel is closed, and not yet where it is open.
    pub fn landed(&mut self, k: u64) -> Ask
        requires unbuffered { self.old.state.capacity ≡ 0 }
        ensures law { (task : List ℕ) (name : Name) → Asked Channel channel_left_by task (op.Landed name k) self.old.state result self.new.state }
        ensures same { self.new ≡ self.old }
    {
        if k <= self.taken {
            return Ask::Done(Reply::Ok);
        }
        if self.closed {
            return Ask::Done(Reply::Closed);
        }
        Ask::NotYet
    }

    /// Takes the oldest item. Where none is left, it is `closed` after a close, else not yet.
    pub fn take(&mut self) -> Ask
        ensures law { (task : List ℕ) (name : Name) → Asked Channel channel_left_by task (op.Take name) self.old.state result self.new.state }
        ensures kept { Keeps self.old self.new 0 }
        ensures not_yet { result ≡ Ask.NotYet → self.new ≡ self.old }
    {
        if let Some(item) = self.pop() {
            return Ask::Done(Reply::Int(item));
        }
        if self.closed {
            return Ask::Done(Reply::Closed);
        }
        Ask::NotYet
    }

    /// Takes the oldest item, as the next one of a loop. Where none is left, there is no further
    /// item after a close, else not yet.
    pub fn next_item(&mut self) -> Ask
        ensures law { (task : List ℕ) (name : Name) → Asked Channel channel_left_by task (op.Next name) self.old.state result self.new.state }
        ensures kept { Keeps self.old self.new 0 }
        ensures not_yet { result ≡ Ask.NotYet → self.new ≡ self.old }
    {
        if let Some(item) = self.pop() {
            return Ask::Done(Reply::Int(item));
        }
        if self.closed {
            return Ask::Done(Reply::NoItem);
        }
        Ask::NotYet
    }

    /// Closes the channel, also where it is closed already. The items left in a buffer can still be
    /// taken; the offers left in an unbuffered channel are withdrawn.
    pub fn close(&mut self) -> Ask
        ensures law { (task : List ℕ) (name : Name) → Asked Channel channel_left_by task (op.Close name) self.old.state result self.new.state }
        ensures kept { Keeps self.old self.new 0 }
        ensures not_yet { result ≡ Ask.NotYet → self.new ≡ self.old }
    {
        self.closed = true;
        Ask::Done(Reply::Ok)
    }

    /// Whether the channel isn't closed.
    pub fn is_open(&self) -> Ask
        ensures law { (task : List ℕ) (name : Name) → Asked Channel channel_left_by task (op.IsOpen name) self.now.state result self.now.state }
    {
        Ask::Done(Reply::Flag(!self.closed))
    }

    /// Whether an item is left.
    pub fn is_ready(&self) -> Ask
        ensures law { (task : List ℕ) (name : Name) → Asked Channel channel_left_by task (op.IsReady name) self.now.state result self.now.state }
    {
        Ask::Done(Reply::Flag(self.has_item()))
    }

    /// Whether this operation would be answered `Done` now. A put is where the buffer has room, a
    /// take and a next item where an item is left, the landing of a number where as many items were
    /// taken, and each of these also after a close; an offer, a close and the two questions always
    /// are. A put without a buffer, an offer or a landing with one, and an operation on another kind
    /// of object never are.
    pub fn allows(&self, op: &Op) -> bool
        ensures law { (task : List ℕ) (name : Name) → object_of task op.now ≡ Named name → Allowed Channel channel_left_by task op.now self.now.state result }
        ensures others { is_channel_op op.now ≡ false → result ≡ false }
    {
        match op {
            Op::Put(_, _) => self.can_put(),
            Op::Offer(_, _) => self.capacity == 0,
            Op::Landed(_, k) => self.can_land(*k),
            Op::Take(_) | Op::Next(_) => self.can_take(),
            Op::Close(_) | Op::IsOpen(_) | Op::IsReady(_) => true,
            _ => false,
        }
    }

    fn can_put(&self) -> bool
        ensures { result ≡ can_put self.now.state }
    {
        self.capacity > 0 && (self.closed || self.items.len() < self.capacity as usize)
    }

    fn can_land(&self, k: u64) -> bool
        ensures { result ≡ can_land self.now.state k }
    {
        self.capacity == 0 && (self.closed || k <= self.taken)
    }

    fn can_take(&self) -> bool
        ensures { result ≡ can_take self.now.state }
    {
        self.closed || self.has_item()
    }

    // Whether the close of an unbuffered channel has withdrawn the offers.
    fn is_withdrawn(&self) -> bool
        ensures withdrawn { result ≡ (self.now.state.closed && nat_eq self.now.state.capacity 0) }
        ensures none { result ≡ true → self.now.state.items ≡ [] }
    {
        self.closed && self.capacity == 0
    }

    // Whether an item is left.
    fn has_item(&self) -> bool
        ensures { result ≡ not (nat_eq (length self.now.state.items) 0) }
    {
        if self.is_withdrawn() {
            return false;
        }
        !self.items.is_empty()
    }

    // The oldest item, which is left no more.
    fn pop(&mut self) -> Option<i64>
        ensures item { IfSome result (λ v. slice_get self.old.state.items 0 ≡ Some v) }
        ensures rest { OnSome result (self.new.state ≡ without_item self.old.state) }
        ensures kept { Keeps self.old self.new 0 }
        ensures none { IfNone result (self.old.state.items ≡ []) }
        ensures same { IfNone result (self.new ≡ self.old) }
    {
        if self.is_withdrawn() {
            return None;
        }
        let item = self.items.pop_front()?;
        if self.capacity == 0 {
            self.taken += 1;
        }
        Some(item)
    }
}
