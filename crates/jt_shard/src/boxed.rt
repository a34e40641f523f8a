//! A value on the heap, which may be changed there.

use jt_base::OutOfMemory;
use std::alloc::Global;
use std::marker::Model;

/// A `Box` that contracts see as its value, also where the value is lent to be changed.
#[derive(Drop)]
pub(crate) struct Boxed<T> {
    inner: Box<T>,
}

impl<T> Model for Boxed<T> {
    ghost Value = { T };

    ghost coded = { T.code };

    ghost view = { λ b. b.inner.value };
}

impl<T> Boxed<T> {
    ghost use Rattle.std.specs.Prelude.{◌≡◌, IfOk};
    ghost use Rattle.std.specs.Borrow.{Lends, sem};
    ghost use Rattle.jt_shard.specs.contracts.boxed.Boxed.{the_row};

    pub(crate) fn new(alloc: Global, value: T) -> Result<Boxed<T>, OutOfMemory>
    where
        T: Drop,
        ensures { IfOk result (λ b. b ≡ value) }
    {
        Ok(Boxed {
            inner: Box::new(alloc, value)?,
        })
    }

    pub(crate) fn get(&self) -> &T
        ensures { result.now ≡ self.now }
    {
        &self.inner
    }

    pub(crate) fn get_mut(&mut self) -> &mut T
        ensures* writes_back { sem 𝓛 (Lends (the_row T.row) T.row self.entry result (λ w. w)) }
        ensures value { result.now ≡ self.old }
    {
        self.inner.as_mut()
    }

    pub(crate) fn into_inner(self) -> T
        ensures { result ≡ self }
    {
        let Boxed { inner } = self;
        Box::into_inner(inner)
    }
}
