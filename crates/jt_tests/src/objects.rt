//! Objects of all kinds by one type.

use jt_base::{Ask, How, Name, Object, Op, Path, Reply};
use jt_objects::Shared;
use std::test::Fail;

fn name() -> Name {
    Name {
        path: Path::main(),
        number: 0,
    }
}

#[test]
fn an_object_without_entries_allows_what_makes_it(rt: HostRuntime) -> Result<(), Fail> {
    let main = Path::main();
    let child = main.child(0)?;
    for (object, op, allowed) in [
        (Object::Task(Path::main()), Op::Begin, true),
        (Object::Task(main.child(0)?), Op::Begin, false),
        (
            Object::Task(main.child(0)?),
            Op::Spawn(main.child(0)?, How::Default),
            true,
        ),
        (Object::Named(name()), Op::NewCondition(name()), true),
        (Object::Named(name()), Op::CWait(name()), false),
    ] {
        let mut shared = Shared::empty(&object);
        shared.reserve(&op)?;
        assert_eq!(rt; shared.allows(&child, &op), allowed, "{op:?}");
    }
    Ok(())
}

#[test]
fn a_lock_is_made_and_then_taken(rt: HostRuntime) {
    let main = Path::main();
    let mut shared = Shared::Unmade;
    let answer = shared.ask(rt.alloc(), &main, &Op::NewLock(name()));
    assert_eq!(rt; answer, Ask::Done(Reply::Ok));
    assert!(rt; shared.allows(&main, &Op::Lock(name())));
    assert!(rt; !shared.allows(&main, &Op::NewLock(name())));
}
