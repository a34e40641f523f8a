//! Schedules of the steps by which workers fall asleep and are woken.

ghost use Rattle.std.specs.Prelude.{◌≡◌};

use jt_base::Sizes;
use jt_sleep_core::{
    Core, NotAllowed, Numbers, Place, Step, every_run_is_sound, every_step_keeps_soundness,
    heap_count, last_queue, no_run_loses_a_wake_up, own_queues_serve, worker_count, worker_line,
    worker_queues, workers_served,
};
use std::alloc::Global;
use std::process::Abort;
use std::test::Fail;

const ONE: Sizes = Sizes {
    default: 1,
    interactive: 0,
};

/// Heaps 0 to 3, lines 4 and 5, and the stop queue 6.
const TWO: Sizes = Sizes {
    default: 2,
    interactive: 0,
};

/// Heaps 0 to 127 and 128 to 159, lines 160 to 239, and the stop queue 240.
const MOST: Sizes = Sizes {
    default: 64,
    interactive: 16,
};

/// A step and the word that it gives, or none where it is refused.
type Row = (Step, Option<u64>);

/// Worker 1 declares and finds each of its queues empty.
const PAST: [Row; 7] = [
    (Step::Declare(1), Some(0)),
    (Step::Check(1, 0), Some(0)),
    (Step::Check(1, 1), Some(0)),
    (Step::Check(1, 2), Some(0)),
    (Step::Check(1, 3), Some(0)),
    (Step::Check(1, 5), Some(0)),
    (Step::Check(1, 6), Some(0)),
];

const WOKEN_BETWEEN_CHECKS: [Row; 7] = [
    (Step::Declare(1), Some(0)),
    (Step::Check(1, 0), Some(0)),
    (Step::Raise(0, 0), Some(0)),
    (Step::Look(0, 0), Some(0)),
    (Step::Look(0, 1), Some(1)),
    (Step::Wake(0, 1), Some(1)),
    (Step::Post(0, 1), Some(0)),
];

const DECLARED_AFTER_THE_PASS: [Row; 7] = [
    (Step::Raise(0, 0), Some(0)),
    (Step::Look(0, 0), Some(0)),
    (Step::Look(0, 1), Some(0)),
    (Step::Declare(1), Some(0)),
    (Step::Check(1, 0), Some(1)),
    (Step::Retreat(1), Some(1)),
    (Step::Wake(0, 1), None),
];

const WOKEN_AT_REST: [Row; 7] = [
    (Step::Raise(0, 2), Some(0)),
    (Step::Look(0, 0), Some(0)),
    (Step::Look(0, 1), Some(1)),
    (Step::Wake(0, 1), Some(1)),
    (Step::Post(0, 1), Some(0)),
    (Step::TakeToken(1), Some(1)),
    (Step::Retreat(1), Some(0)),
];

const TWO_PASSES_WAKE_ONCE: [Row; 9] = [
    (Step::Raise(0, 0), Some(0)),
    (Step::Raise(2, 1), Some(0)),
    (Step::Look(0, 0), Some(0)),
    (Step::Look(0, 1), Some(1)),
    (Step::Look(2, 0), Some(0)),
    (Step::Look(2, 1), Some(1)),
    (Step::Wake(0, 1), Some(1)),
    (Step::Wake(2, 1), Some(0)),
    (Step::Post(0, 1), Some(0)),
];

const RETREATED_BEFORE_THE_WAKE: [Row; 7] = [
    (Step::Declare(1), Some(0)),
    (Step::Raise(0, 0), Some(0)),
    (Step::Look(0, 0), Some(0)),
    (Step::Look(0, 1), Some(1)),
    (Step::Check(1, 0), Some(1)),
    (Step::Retreat(1), Some(1)),
    (Step::Wake(0, 1), Some(0)),
];

const STOPPED_BEFORE_THE_CHECKS: [Row; 11] = [
    (Step::Raise(0, 6), Some(0)),
    (Step::Look(0, 0), Some(0)),
    (Step::Look(0, 1), Some(0)),
    (Step::Declare(1), Some(0)),
    (Step::Check(1, 0), Some(0)),
    (Step::Check(1, 1), Some(0)),
    (Step::Check(1, 2), Some(0)),
    (Step::Check(1, 3), Some(0)),
    (Step::Check(1, 5), Some(0)),
    (Step::Check(1, 6), Some(1)),
    (Step::Retreat(1), Some(1)),
];

const TOKEN_LATER_THAN_THE_WAKE: [Row; 8] = [
    (Step::Raise(0, 0), Some(0)),
    (Step::Look(0, 0), Some(0)),
    (Step::Look(0, 1), Some(1)),
    (Step::Wake(0, 1), Some(1)),
    (Step::TakeToken(1), Some(0)),
    (Step::Post(0, 1), Some(0)),
    (Step::TakeToken(1), Some(1)),
    (Step::Retreat(1), Some(0)),
];

const OLD_TOKEN_LEFT: [Row; 9] = [
    (Step::Declare(1), Some(0)),
    (Step::Raise(0, 0), Some(0)),
    (Step::Look(0, 0), Some(0)),
    (Step::Look(0, 1), Some(1)),
    (Step::Wake(0, 1), Some(1)),
    (Step::Post(0, 1), Some(0)),
    (Step::Check(1, 0), Some(1)),
    (Step::Retreat(1), Some(0)),
    (Step::Lower(1, 0), Some(1)),
];

const OLD_TOKEN_TAKEN: [Row; 2] = [(Step::TakeToken(1), Some(1)), (Step::Retreat(1), Some(1))];

const REFUSED_AT_THE_OPENING: [Row; 4] = [
    (Step::Lower(0, 0), None),
    (Step::Declare(2), None),
    (Step::Check(1, 0), None),
    (Step::Lower(0, 6), None),
];

const OWN_TOKEN: [Row; 3] = [
    (Step::SelfPost(1), Some(0)),
    (Step::TakeToken(1), Some(1)),
    (Step::Retreat(1), Some(1)),
];

/// Makes the steps, and says which is the first that answers otherwise than its row.
fn first_other(core: &mut Core, rows: &[Row]) -> Option<usize>
    ensures { core.new.sizes ≡ core.old.sizes }
{
    for (i, (step, word)) in rows.iter().enumerate() {
        if core.apply(*step).ok() != *word {
            return Some(i);
        }
    }
    None
}

/// Which of the three seats are free, whether worker 1's sleep word is set, and whether its token is.
type End = ([bool; 3], bool, bool);

const QUIET: End = ([true, true, true], false, false);

fn end_of(core: &Core) -> End
    requires { core.now.sizes ≡ TWO }
{
    let free = [
        *core.place(0) == Place::Free,
        *core.place(1) == Place::Free,
        *core.place(2) == Place::Free,
    ];
    (free, core.sleeping(1), core.token(1))
}

/// Makes the steps, each of which answers as its row says, and looks for this end behind the last.
fn follow(rt: &impl Abort, core: &mut Core, rows: &[Row], end: End)
    requires { core.old.sizes ≡ TWO }
{
    assert_eq!(rt; first_other(core, rows), None);
    assert_eq!(rt; end_of(core), end);
}

/// Follows these steps of two workers from the opening on.
fn schedule(rt: &impl Abort, alloc: Global, rows: &[Row], end: End) -> Result<(), Fail> {
    let mut core = Core::new(alloc, TWO)?;
    follow(rt, &mut core, rows, end);
    Ok(())
}

/// Follows these steps from where worker 1 has found each of its queues empty.
fn schedule_past(rt: &impl Abort, alloc: Global, rows: &[Row], end: End) -> Result<(), Fail> {
    let mut core = Core::new(alloc, TWO)?;
    assert_eq!(rt; first_other(&mut core, &PAST), None);
    follow(rt, &mut core, rows, end);
    Ok(())
}

#[test]
fn a_worker_is_woken_between_its_checks(rt: HostRuntime) -> Result<(), Fail> {
    let end = ([true, false, true], false, true);
    schedule(&rt, rt.alloc(), &WOKEN_BETWEEN_CHECKS, end)
}

#[test]
fn a_worker_that_declares_after_the_pass_finds_the_job(rt: HostRuntime) -> Result<(), Fail> {
    schedule(&rt, rt.alloc(), &DECLARED_AFTER_THE_PASS, QUIET)
}

#[test]
fn a_worker_is_woken_at_rest(rt: HostRuntime) -> Result<(), Fail> {
    schedule_past(&rt, rt.alloc(), &WOKEN_AT_REST, QUIET)
}

#[test]
fn two_passes_wake_a_worker_once(rt: HostRuntime) -> Result<(), Fail> {
    let end = ([true, false, true], false, true);
    schedule_past(&rt, rt.alloc(), &TWO_PASSES_WAKE_ONCE, end)
}

#[test]
fn a_worker_that_retreated_is_not_woken(rt: HostRuntime) -> Result<(), Fail> {
    schedule(&rt, rt.alloc(), &RETREATED_BEFORE_THE_WAKE, QUIET)
}

#[test]
fn a_stop_before_the_checks_is_found(rt: HostRuntime) -> Result<(), Fail> {
    schedule(&rt, rt.alloc(), &STOPPED_BEFORE_THE_CHECKS, QUIET)
}

#[test]
fn a_token_may_come_later_than_the_wake(rt: HostRuntime) -> Result<(), Fail> {
    schedule_past(&rt, rt.alloc(), &TOKEN_LATER_THAN_THE_WAKE, QUIET)
}

#[test]
fn an_old_token_ends_the_next_rest(rt: HostRuntime) -> Result<(), Fail> {
    let mut core = Core::new(rt.alloc(), TWO)?;
    assert_eq!(rt; first_other(&mut core, &OLD_TOKEN_LEFT), None);
    assert_eq!(rt; first_other(&mut core, &PAST), None);
    follow(&rt, &mut core, &OLD_TOKEN_TAKEN, QUIET);
    Ok(())
}

#[test]
fn steps_out_of_turn_are_refused(rt: HostRuntime) -> Result<(), Fail> {
    schedule(&rt, rt.alloc(), &REFUSED_AT_THE_OPENING, QUIET)
}

#[test]
fn a_worker_may_post_its_own_token(rt: HostRuntime) -> Result<(), Fail> {
    schedule_past(&rt, rt.alloc(), &OWN_TOKEN, QUIET)
}

/// How many numbers there are, the first and the last.
fn ends(numbers: &Numbers) -> (usize, Option<u32>, Option<u32>) {
    let numbers = numbers.as_slice();
    (
        numbers.len(),
        numbers.first().copied(),
        numbers.last().copied(),
    )
}

#[test]
fn numbers_of_queues(rt: HostRuntime) {
    assert_eq!(rt; workers_served(ONE, 3).as_slice(), [0].as_slice());
    for (queue, want) in [
        (0, (64, Some(0), Some(63))),
        (127, (64, Some(0), Some(63))),
        (128, (16, Some(64), Some(79))),
        (159, (16, Some(64), Some(79))),
        (160, (1, Some(0), Some(0))),
        (239, (1, Some(79), Some(79))),
        (240, (80, Some(0), Some(79))),
    ] {
        assert_eq!(rt; ends(&workers_served(MOST, queue)), want, "queue {queue}");
    }
}

#[test]
fn numbers_of_workers(rt: HostRuntime) {
    assert_eq!(rt; worker_queues(ONE, 0).as_slice(), [0, 1, 2, 3].as_slice());
    for (worker, want) in [
        (0, (130, Some(0), Some(240))),
        (63, (130, Some(0), Some(240))),
        (64, (34, Some(128), Some(240))),
        (79, (34, Some(128), Some(240))),
    ] {
        assert_eq!(rt; ends(&worker_queues(MOST, worker)), want, "worker {worker}");
    }
}

#[test]
fn counts_of_queues_and_workers(rt: HostRuntime) {
    assert_eq!(rt; (worker_count(ONE), heap_count(ONE)), (1, 2));
    assert_eq!(rt; (worker_line(ONE, 0), last_queue(ONE)), (2, 3));
    assert_eq!(rt; (worker_count(MOST), heap_count(MOST)), (80, 160));
    assert_eq!(rt; (worker_line(MOST, 79), last_queue(MOST)), (239, 240));
    every_run_is_sound();
    no_run_loses_a_wake_up();
    every_step_keeps_soundness();
    own_queues_serve();
}

/// The caller has worker 0 behind it, and worker 79 its first queue.
fn check_places(rt: &impl Abort, core: &Core)
    requires { core.now.sizes ≡ MOST }
{
    let (Place::Passing(240, left, None), Place::Declared(queues)) = (
        core.place(80),
        core.place(79),
    ) else {
        panic!(rt; "the caller passes, and worker 79 checks");
    };
    assert_eq!(rt;
        (ends(left), ends(queues)),
        ((79, Some(1), Some(79)), (33, Some(129), Some(240)))
    );
    assert!(rt; core.place(80).permits(Step::Look(80, 1)) && !left.is_empty());
}

#[test]
fn the_caller_stops_all_workers(rt: HostRuntime) -> Result<(), Fail> {
    let mut core = Core::new(rt.alloc(), MOST)?;
    let rows = [
        (Step::Raise(80, 240), Some(0)),
        (Step::Raise(0, 240), Some(1)),
        (Step::Look(80, 1), None),
        (Step::Look(80, 0), Some(0)),
        (Step::Declare(80), None),
        (Step::Raise(80, 0), None),
        (Step::Declare(79), Some(0)),
        (Step::Check(79, 128), Some(0)),
    ];
    assert_eq!(rt; first_other(&mut core, &rows), None);
    let words = (core.count(240), core.sleeping(79), core.token(79));
    assert_eq!(rt; words, (1, true, false));
    check_places(&rt, &core);
    Ok(())
}

#[test]
fn steps_are_told(rt: HostRuntime) -> Result<(), Fail> {
    let step = Step::Look(80, 1);
    assert_eq!(rt; (step.seat(), step.is_in_range(MOST)), (80, true));
    let told = format!(in rt.alloc(); "{NotAllowed}")?;
    assert_eq!(rt; told.as_str(), "the step is not allowed");
    Ok(())
}
