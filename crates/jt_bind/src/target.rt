//! What names mean.

ghost use Rattle.std.specs.Prelude.{◌≡◌};
ghost use Rattle.jt_bound.specs.Slots as spec;

use jt_lowered::Target;
use jt_names::Names;
use jt_places::Chain;

fn constant(constants: &Names, name: &[u8]) -> Target
    ensures { result ≡ spec.constant_of constants.now name.now }
{
    match constants.index(name) {
        None => Target::Nothing,
        Some(number) => Target::Constant(number),
    }
}

/// `$name`: what the innermost task's body captured under the name.
pub(crate) fn interpolated(constants: &Names, chain: &Chain<'_>, name: &[u8]) -> Target
    ensures { result ≡ spec.interpolated constants.now chain.now name.now }
{
    match chain.captured(name) {
        None => constant(constants, name),
        Some(slot) => Target::Slot(slot),
    }
}

/// A use of a name.
pub(crate) fn target_of(constants: &Names, chain: &Chain<'_>, name: &[u8]) -> Target
    ensures { result ≡ spec.target constants.now chain.now name.now }
{
    match chain.local(name) {
        None => interpolated(constants, chain, name),
        Some(slot) => Target::Slot(slot),
    }
}

/// The slot of the variable of a name: an assignment writes to it, and a task takes its value.
pub(crate) fn slot_of(chain: &Chain<'_>, name: &[u8]) -> usize
    ensures { result ≡ spec.slot_of chain.now name.now }
{
    match chain.local(name) {
        None => chain.captured(name).unwrap_or(0),
        Some(slot) => slot,
    }
}
