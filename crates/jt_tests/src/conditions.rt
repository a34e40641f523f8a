//! Sequences of operations on what tasks wait for and hold, with the answers that scripts see.

ghost use Rattle.std.specs.Prelude.{◌≡◌};

use jt_base::{Ask, Fault, Name, Op, Path, Reply, Value};
use jt_conditions::{Completion, CondLock, Event, Lock, Sema};
use std::process::Abort;
use std::test::Fail;

#[derive(Drop)]
enum Object {
    Task(Completion),
    Event(Event),
    Lock(Lock),
    Semaphore(Sema),
    Condition(CondLock),
}

#[derive(Clone, Copy, Debug)]
enum Call {
    Begin,
    Yield,
    End(i64),
    Fail,
    Fetch,
    Wait,
    Notify,
    Reset,
    EWait,
    Lock,
    Unlock,
    CWait,
    CBack,
    CNotify(bool),
    Acquire,
    Release,
    Take,
}

#[derive(Clone, Copy, Debug)]
enum Want {
    Ok,
    Int(i64),
    Value(i64),
    Failed,
    NotLocked,
    NotOwner,
    NotHeld,
    NotYet,
}

fn name() -> Name {
    Name {
        path: Path::main(),
        number: 0,
    }
}

// The main task is number 0, and the others are its children.
fn path(task: u32) -> Result<Path, Fail> {
    if task == 0 {
        return Ok(Path::main());
    }
    Ok(Path::main().child(task - 1)?)
}

fn op_of(call: Call) -> Op {
    match call {
        Call::Begin => Op::Begin,
        Call::Yield => Op::Yield,
        Call::End(v) => Op::End(Value::Int(v)),
        Call::Fail => Op::Fail(Fault::Divide),
        Call::Fetch => Op::Fetch(Path::main()),
        Call::Wait => Op::Wait(Path::main()),
        Call::Notify => Op::Notify(name()),
        Call::Reset => Op::Reset(name()),
        Call::EWait => Op::EWait(name()),
        Call::Lock => Op::Lock(name()),
        Call::Unlock => Op::Unlock(name()),
        Call::CWait => Op::CWait(name()),
        Call::CBack => Op::CBack(name()),
        Call::CNotify(all) => Op::CNotify(name(), all),
        Call::Acquire => Op::Acquire(name()),
        Call::Release => Op::Release(name()),
        Call::Take => Op::Take(name()),
    }
}

fn answer_of(want: Want) -> Ask {
    Ask::Done(match want {
        Want::Ok => Reply::Ok,
        Want::Int(v) => Reply::Int(v),
        Want::Value(v) => Reply::Val(Value::Int(v)),
        Want::Failed => Reply::Failed,
        Want::NotLocked => Reply::NotLocked,
        Want::NotOwner => Reply::NotOwner,
        Want::NotHeld => Reply::NotHeld,
        Want::NotYet => return Ask::NotYet,
    })
}

// The answer to a task's operation. The levels in these sequences are low.
fn ask(rt: &impl Abort, object: &mut Object, task: &Path, op: &Op) -> Result<Ask, Fail> {
    Ok(match object {
        Object::Task(completion) => completion.ask(op),
        Object::Event(event) => event.ask(op),
        Object::Lock(lock) => {
            assert!(rt; lock.level(task) < 10);
            lock.ask(task, op)
        }
        Object::Semaphore(semaphore) => semaphore.ask(op),
        Object::Condition(condition) => {
            condition.reserve()?;
            assert!(rt; condition.level(task) < 10);
            condition.ask(task, op)
        }
    })
}

// Whether the object says that it allows a task's operation.
fn allows(object: &Object, task: &Path, op: &Op) -> bool {
    match object {
        Object::Task(completion) => completion.allows(op),
        Object::Event(event) => event.allows(op),
        Object::Lock(lock) => lock.allows(task, op),
        Object::Semaphore(semaphore) => semaphore.allows(op),
        Object::Condition(condition) => condition.allows(task, op),
    }
}

fn play(rt: &impl Abort, mut object: Object, steps: &[(u32, Call, Want)]) -> Result<(), Fail> {
    for (task, call, want) in steps {
        let path = path(*task)?;
        let op = op_of(*call);
        let allowed = allows(&object, &path, &op);
        let answer = ask(rt, &mut object, &path, &op)?;
        assert_eq!(rt;
            allowed,
            answer != Ask::NotYet,
            "whether {call:?} is allowed by {task}"
        );
        assert_eq!(rt; answer, answer_of(*want), "{call:?} by {task}");
    }
    Ok(())
}

#[test]
fn a_task_ends_or_fails_once(rt: HostRuntime) -> Result<(), Fail> {
    // A task that ends with 9.
    play(
        &rt,
        Object::Task(Completion::new()),
        &[
            (1, Call::Yield, Want::NotYet),
            (1, Call::End(9), Want::NotYet),
            (0, Call::Fetch, Want::NotYet),
            (1, Call::Begin, Want::Ok),
            (1, Call::Begin, Want::NotYet),
            (1, Call::Yield, Want::Ok),
            (0, Call::Fetch, Want::NotYet),
            (0, Call::Wait, Want::NotYet),
            (1, Call::End(9), Want::Ok),
            (0, Call::Fetch, Want::Value(9)),
            (0, Call::Wait, Want::Ok),
            (1, Call::Yield, Want::NotYet),
            (1, Call::End(8), Want::NotYet),
            (1, Call::Fail, Want::NotYet),
            (0, Call::Fetch, Want::Value(9)),
        ],
    )?;
    // A task that fails.
    play(
        &rt,
        Object::Task(Completion::new()),
        &[
            (1, Call::Fail, Want::NotYet),
            (1, Call::Begin, Want::Ok),
            (1, Call::Fail, Want::Ok),
            (0, Call::Fetch, Want::Failed),
            (0, Call::Wait, Want::Failed),
            (1, Call::Begin, Want::NotYet),
        ],
    )
}

#[test]
fn an_event_stays_set_until_its_reset_or_a_wait(rt: HostRuntime) -> Result<(), Fail> {
    // `e = Base.Event(true); notify(e); wait(e); wait(e)`: the second wait never ends.
    play(
        &rt,
        Object::Event(Event::new(true)),
        &[
            (0, Call::EWait, Want::NotYet),
            (0, Call::Notify, Want::Ok),
            (0, Call::EWait, Want::Ok),
            (0, Call::EWait, Want::NotYet),
        ],
    )?;
    // An event that isn't automatic stays set until its reset.
    play(
        &rt,
        Object::Event(Event::new(false)),
        &[
            (0, Call::Notify, Want::Ok),
            (0, Call::EWait, Want::Ok),
            (1, Call::EWait, Want::Ok),
            (0, Call::Reset, Want::Ok),
            (1, Call::EWait, Want::NotYet),
            (1, Call::Take, Want::NotYet),
        ],
    )
}

#[test]
fn a_semaphore_takes_back_no_more_than_it_gave(rt: HostRuntime) -> Result<(), Fail> {
    // `s = Base.Semaphore(1); Base.acquire(s); Base.release(s); Base.release(s)`
    play(
        &rt,
        Object::Semaphore(Sema::new(1)),
        &[
            (0, Call::Acquire, Want::Ok),
            (1, Call::Acquire, Want::NotYet),
            (0, Call::Release, Want::Ok),
            (0, Call::Release, Want::NotHeld),
            (1, Call::Acquire, Want::Ok),
            (1, Call::Lock, Want::NotYet),
        ],
    )
}

#[test]
fn a_lock_is_given_back_as_often_as_it_was_taken(rt: HostRuntime) -> Result<(), Fail> {
    play(
        &rt,
        Object::Lock(Lock::new()),
        &[
            (0, Call::Unlock, Want::NotLocked),
            (0, Call::Lock, Want::Ok),
            (0, Call::Lock, Want::Ok),
            (1, Call::Lock, Want::NotYet),
            (1, Call::Unlock, Want::NotOwner),
            (0, Call::Unlock, Want::Ok),
            (1, Call::Lock, Want::NotYet),
            (0, Call::Unlock, Want::Ok),
            (1, Call::Lock, Want::Ok),
            (0, Call::CWait, Want::NotYet),
        ],
    )
}

#[test]
fn a_condition_is_waited_for_under_its_lock(rt: HostRuntime) -> Result<(), Fail> {
    // `c = Threads.Condition(); lock(c); println(notify(c)); unlock(c); unlock(c)`
    play(
        &rt,
        Object::Condition(CondLock::new(rt.alloc())),
        &[
            (0, Call::Lock, Want::Ok),
            (0, Call::CNotify(true), Want::Int(0)),
            (0, Call::Unlock, Want::Ok),
            (0, Call::Unlock, Want::NotLocked),
            (0, Call::CWait, Want::NotLocked),
            (0, Call::CNotify(false), Want::NotLocked),
        ],
    )?;
    // Task 1 locks, waits and unlocks; the main task locks, notifies one task and unlocks.
    play(
        &rt,
        Object::Condition(CondLock::new(rt.alloc())),
        &[
            (1, Call::Lock, Want::Ok),
            (0, Call::Lock, Want::NotYet),
            (0, Call::CNotify(true), Want::NotOwner),
            (1, Call::CWait, Want::Ok),
            (1, Call::CBack, Want::NotYet),
            (0, Call::Lock, Want::Ok),
            (0, Call::CNotify(true), Want::Int(1)),
            (1, Call::CBack, Want::NotYet),
            (0, Call::Unlock, Want::Ok),
            (1, Call::CBack, Want::Ok),
            (1, Call::Unlock, Want::Ok),
            (1, Call::Unlock, Want::NotLocked),
        ],
    )
}

#[test]
fn a_notify_wakes_the_first_and_another_the_rest(rt: HostRuntime) -> Result<(), Fail> {
    // Tasks 1, with two levels, and 2 and 3 wait.
    play(
        &rt,
        Object::Condition(CondLock::new(rt.alloc())),
        &[
            (1, Call::Lock, Want::Ok),
            (1, Call::Lock, Want::Ok),
            (1, Call::CWait, Want::Ok),
            (2, Call::Lock, Want::Ok),
            (2, Call::CWait, Want::Ok),
            (3, Call::Lock, Want::Ok),
            (3, Call::CWait, Want::Ok),
            (0, Call::Lock, Want::Ok),
            (0, Call::CNotify(false), Want::Int(1)),
            (0, Call::Unlock, Want::Ok),
            (2, Call::CBack, Want::NotYet),
            (1, Call::CBack, Want::Ok),
            (1, Call::CBack, Want::NotYet),
            (1, Call::Unlock, Want::Ok),
            (2, Call::Lock, Want::NotYet),
            (1, Call::CNotify(true), Want::Int(2)),
            (1, Call::Unlock, Want::Ok),
            (3, Call::CBack, Want::Ok),
            (2, Call::CBack, Want::NotYet),
            (3, Call::Unlock, Want::Ok),
            (2, Call::CBack, Want::Ok),
            (2, Call::CNotify(false), Want::Int(0)),
            (2, Call::EWait, Want::NotYet),
        ],
    )
}

// An object that threads may hand over.
fn sendable<T: Send>(object: T) -> T
    ensures { result ≡ object }
{
    object
}

#[test]
fn later_waits_are_not_notified(rt: HostRuntime) -> Result<(), Fail> {
    // A notify of all wakes tasks 1 and 2. The main task and task 2 wait later, and stay.
    play(
        &rt,
        Object::Condition(sendable(CondLock::new(rt.alloc()))),
        &[
            (1, Call::Lock, Want::Ok),
            (1, Call::CWait, Want::Ok),
            (2, Call::Lock, Want::Ok),
            (2, Call::CWait, Want::Ok),
            (0, Call::Lock, Want::Ok),
            (0, Call::CNotify(true), Want::Int(2)),
            (0, Call::CWait, Want::Ok),
            (2, Call::CBack, Want::Ok),
            (2, Call::CWait, Want::Ok),
            (2, Call::CBack, Want::NotYet),
            (0, Call::CBack, Want::NotYet),
            (1, Call::CBack, Want::Ok),
            (1, Call::CNotify(false), Want::Int(1)),
            (1, Call::Unlock, Want::Ok),
            (2, Call::CBack, Want::NotYet),
            (0, Call::CBack, Want::Ok),
            (0, Call::CNotify(true), Want::Int(1)),
            (0, Call::Unlock, Want::Ok),
            (2, Call::CBack, Want::Ok),
            (2, Call::Unlock, Want::Ok),
        ],
    )
}
