//! What is known of a task by those who don't evaluate it.

ghost use Rattle.std.specs.Prelude.{◌≡◌, ◌<◌, ◌≤◌, ◌+◌, length, IfOk};
ghost use Rattle.jt_base.specs.Jobs.{bound_to, last_note, noted};

use crate::memory::OutOfMemory;
use crate::operation::Reply;
use crate::path::Path;
use crate::run::Pool;

/// A task, as those see it who queue it and answer its operations: contracts see its description
/// (path, start, seat and the notes of its entries), and what comes next for such a task. A job may go
/// from one thread to another.
pub trait Job: Send + Drop {
    ghost use Rattle.std.specs.Prelude.{◌≡◌, ℕ, List, [], Option, Some, false};
    ghost use Rattle.jt_base.specs.declared.operation.Op.{Op};
    ghost use Rattle.jt_base.specs.declared.operation.Op.TheVariants.{Begin};
    ghost use Rattle.jt_base.specs.declared.operation.Reply.{Reply};
    ghost use Rattle.jt_base.specs.Coming.{Next, Needs, Spawns, SpawnsChild, is_spawn, spawned_by};
    ghost use Rattle.jt_base.specs.Jobs.{Held};

    /// What a task begins with.
    type Start;

    // The program, the sizes and the limits of its run.
    ghost Run: { Type 0 };

    ghost run: { Self → Run };

    ghost told: { Self → Held Self.Start };

    // How many further notes have room.
    ghost room: { Self → ℕ };

    // What comes next for such a run, a path, a start and the replies so far.
    ghost next: { Run → List ℕ → Self.Start → List Reply → Option (Next Self.Start) };

    /// The task's path.
    fn path(&self) -> &Path
        ensures { result.now ≡ (told self.now).path };

    /// The pool of its workers.
    fn pool(&self) -> Pool
        ensures { result ≡ (told self.now).seat.pool };

    /// The worker to which it is bound.
    fn bound(&self) -> Option<u32>
        ensures { result ≡ (told self.now).seat.bound };

    /// Its priority, 64 less the length of its path: 16 to 64, and the least goes first.
    fn priority(&self) -> u16
        ensures { result + length (told self.now).path ≡ 64 };

    /// The stamp of its last entry, 0 where it has none.
    fn last_stamp(&self) -> u32
        ensures { result ≡ last_note (told self.now).log };

    /// Makes room for one note. After `OutOfMemory` the task is as it was.
    fn reserve_note(&mut self) -> Result<(), OutOfMemory>
        ensures room { IfOk result (λ _. 0 < room self.new) }
        ensures kept { room self.old ≤ room self.new }
        ensures told { told self.new ≡ told self.old }
        ensures run { run self.new ≡ run self.old };

    /// Notes the reply of the operation that the task waits for, with the stamp of its entry. It
    /// takes no memory.
    fn note(&mut self, stamp: u32, reply: Reply)
        requires room { 0 < room self.old }
        ensures told { told self.new ≡ noted (told self.old) stamp reply }
        ensures run { run self.new ≡ run self.old };

    /// Binds the task to a worker.
    fn bind(&mut self, worker: u32)
        ensures told { told self.new ≡ bound_to (told self.old) worker }
        ensures room { room self.new ≡ room self.old }
        ensures run { run self.new ≡ run self.old };

    // After no replies it is Begin or nothing.
    ghost begins: { (r : Run) (path : List ℕ) (start : Self.Start) (n : Next Self.Start) → next r path start [] ≡ Some n → n ≡ Needs Begin };

    // A spawn, and no other operation, comes with a child's start.
    ghost no_spawn: { (r : Run) (path : List ℕ) (start : Self.Start) (rs : List Reply) (op : Op) → next r path start rs ≡ Some (Needs op) → is_spawn op ≡ false };

    // The k-th spawn of a task, from 0, names its path followed by k.
    ghost names: { (r : Run) (path : List ℕ) (start : Self.Start) (rs : List Reply) (op : Op) (t : Self.Start) → next r path start rs ≡ Some (Spawns op t) → SpawnsChild path (spawned_by (next r path start) rs) op };
}
