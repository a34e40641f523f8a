//! The functions of the language.

use jt_functions::{Arity, Function, arity_of, is_language_function};
use std::test::Fail;

// A name, and how many arguments the function of that name takes, if there is one.
const ARITIES: [(&[u8], Option<Arity>); 12] = [
    (b"div", Some(Arity { least: 2, most: 2 })),
    (b"mod", Some(Arity { least: 2, most: 2 })),
    (b"take!", Some(Arity { least: 1, most: 1 })),
    (b"atomic_cas!", Some(Arity { least: 3, most: 3 })),
    (b"yield", Some(Arity { least: 0, most: 0 })),
    (b"Event", Some(Arity { least: 0, most: 1 })),
    (b"take", None),
    (b"Div", None),
    (b"", None),
    (b"divrem", None),
    (b"println", None),
    (b"nothing", None),
];

#[test]
fn names_have_their_arities(rt: HostRuntime) -> Result<(), Fail> {
    for row in &ARITIES {
        assert_eq!(&rt; arity_of(row.0), row.1);
        assert_eq!(&rt; is_language_function(row.0), row.1.is_some());
    }
    Ok(())
}

#[test]
fn names_mean_their_functions(rt: HostRuntime) -> Result<(), Fail> {
    assert_eq!(&rt;
        Function::named(b"atomic_xchg!"),
        Some(Function::AtomicXchg)
    );
    assert_eq!(&rt; Function::named(b"atomic_xchg"), None);
    assert_eq!(&rt; Function::ReentrantLock.name(), b"ReentrantLock".as_slice());
    Ok(())
}

#[test]
fn some_functions_run(rt: HostRuntime) -> Result<(), Fail> {
    assert!(&rt; Function::Rem.runs());
    assert!(&rt; Function::Yield.runs());
    assert!(&rt; !Function::Reset.runs());
    Ok(())
}
