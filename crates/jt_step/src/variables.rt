//! The variables of a call, and those of a loop.

ghost use Rattle.std.specs.Prelude.{◌≡◌, ◌++◌, ◌-◌, length, IfOk, OnOk, None, Some, map, replicate, take, slice_set};
ghost use Rattle.jt_meaning.specs.State.{renewed};

use crate::small::SmallValue;
use jt_base::{OutOfMemory, Value};
use sqlite_items::Items;
use std::alloc::Global;

/// The variables at the beginning of a body: the first have these values.
pub(crate) fn variables_of(
    alloc: Global,
    count: usize,
    vs: &[Value],
) -> Result<Items<Option<SmallValue>>, OutOfMemory>
    ensures { IfOk result (λ variables. variables ≡ map Some vs.now ++ replicate (count - length vs.now) None) }
{
    let mut variables = Items::new(alloc);
    for v in vs {
        variables.push(Some(SmallValue::of(alloc, v)?))?;
    }
    add_unset(&mut variables, count.saturating_sub(vs.len()))?;
    Ok(variables)
}

/// The variables of a call: the first are its arguments.
pub(crate) fn arguments_of(
    alloc: Global,
    count: usize,
    vs: &[SmallValue],
) -> Result<Items<Option<SmallValue>>, OutOfMemory>
    ensures { IfOk result (λ variables. variables ≡ map Some vs.now ++ replicate (count - length vs.now) None) }
{
    let mut variables = Items::new(alloc);
    for v in vs {
        variables.push(Some(v.copy(alloc)?))?;
    }
    add_unset(&mut variables, count.saturating_sub(vs.len()))?;
    Ok(variables)
}

/// Takes the values of a loop's own variables away, before a turn.
pub(crate) fn renew(
    variables: &mut Items<Option<SmallValue>>,
    first: usize,
    count: usize,
) -> Result<(), OutOfMemory>
    ensures { OnOk result (variables.new ≡ renewed first count variables.old) }
{
    shorten(variables, first);
    add_unset(variables, count)?;
    Ok(())
}

/// Sets a variable, if there is one in this slot.
pub(crate) fn assign(variables: &mut Items<Option<SmallValue>>, slot: usize, v: SmallValue)
    ensures { variables.new ≡ slice_set variables.old slot (Some v) }
{
    if slot < variables.len() {
        variables.set(slot, Some(v));
    }
}

/// Drops the variables from this slot on.
fn shorten(variables: &mut Items<Option<SmallValue>>, slot: usize)
    ensures { variables.new ≡ take slot variables.old }
{
    'slots: while variables.len() > slot {
        variables.pop();
    }
}

/// Adds variables that have no value.
fn add_unset(variables: &mut Items<Option<SmallValue>>, count: usize) -> Result<(), OutOfMemory>
    ensures { OnOk result (variables.new ≡ variables.old ++ replicate count None) }
{
    for _i in 0..count {
        variables.push(None)?;
    }
    Ok(())
}
