//! Places on the heap that are reserved for a value.

ghost use Rattle.std.specs.Prelude.{◌≡◌, IsSome, OnOk};

use jt_base::OutOfMemory;
use std::alloc::Global;
use std::marker::Model;

/// A place on the heap without a value.
#[derive(Drop)]
pub(crate) struct Spare<T> {
    place: Box<Option<T>>,
}

/// A value in its place on the heap, which contracts see as the value.
#[derive(Drop)]
pub(crate) struct Placed<T> {
    place: Box<Option<T>>,
    ghost full: { IsSome place.value },
}

impl<T> Model for Placed<T> {
    ghost use Rattle.std.specs.Prelude.{IsSome};
    ghost use Rattle.jt_shard.specs.Placed.{placed};

    ghost Value = { T };

    ghost coded = { T.code };

    ghost view = { λ p. placed p.place.value p.full };
}

/// Sees to it that there is a spare place. After `OutOfMemory` there is one where there was one.
pub(crate) fn reserve_spare<T: Drop>(
    alloc: Global,
    spare: &mut Option<Spare<T>>,
) -> Result<(), OutOfMemory>
    ensures there { OnOk result (IsSome spare.new) }
    ensures kept { IsSome spare.old → IsSome spare.new }
{
    if spare.is_none() {
        let place = Box::new(alloc, None)?;
        *spare = Some(Spare { place });
    }
    Ok(())
}

impl<T: Drop> Spare<T> {
    /// Puts a value into the place. It takes no memory.
    pub(crate) fn fill(self, value: T) -> Placed<T>
        ensures { result ≡ value }
    {
        let Spare { mut place } = self;
        *place = Some(value);
        Placed { place }
    }
}

impl<T> Placed<T> {
    pub(crate) fn get(&self) -> &T
        ensures { result.now ≡ self.now }
    {
        match self.place.as_ref() {
            Some(value) => value,
            None => unreachable!(),
        }
    }

    /// Takes the value out, and frees the place.
    pub(crate) fn into_inner(self) -> T
        ensures { result ≡ self }
    {
        let Placed { place } = self;
        match Box::into_inner(place) {
            Some(value) => value,
            None => unreachable!(),
        }
    }
}
