//! The steps after which the attributes of deleted elements hold no value.
ghost use Rattle.std.specs.Prelude.{◌≡◌, ◌≤◌, ◌++◌, OnOk, None, length};
ghost use Rattle.model_state.specs.Good.{Good};
ghost use Rattle.edit_steps.specs.Attributes.{put_made};
ghost use Rattle.edit_steps.specs.ManyValues.{dels};
ghost use Rattle.edit_steps.specs.Deletes.{emptied_made, values_made};
ghost use Rattle.model_state.specs.Ranks.{most_entries};

use crate::features::Slot;
use ecore_meta::{Metamodel, Value};
use model_state::{Id, Look, Step, is_attr};
use std::alloc::{AllocError, Global};
use texts::List;

/// The step that unsets a single attribute; none where it isn't set.
fn unset<L: Look>(
    alloc: Global,
    look: &L,
    e: &Id,
    f: u32,
    steps: &mut List<Step>,
) -> Result<(), AllocError>
    ensures { OnOk result (steps.new ≡ steps.old ++ put_made (L.state look.now) e.now f None) }
{
    match look.attr_at(e, f, 0) {
        None => Ok(()),
        Some(v) => steps.push(Step::Put {
            e: e.copy(alloc)?,
            f,
            old: Some(v.copy(alloc)?),
            new: None,
        }),
    }
}

/// A step for each of the values, the last first.
pub fn dels(
    alloc: Global,
    e: &Id,
    f: u32,
    values: &[Value],
    steps: &mut List<Step>,
) -> Result<(), AllocError>
    requires { length values.now ≤ most_entries }
    ensures { OnOk result (steps.new ≡ steps.old ++ dels e.now f 0 values.now) }
{
    for at in (0..values.len()).rev() {
        steps.push(Step::Del {
            e: e.copy(alloc)?,
            f,
            at: at as u32,
            v: values[at].copy(alloc)?,
        })?;
    }
    Ok(())
}

/// The steps after which an attribute has no value.
fn empty<L: Look>(
    alloc: Global,
    look: &L,
    meta: &Metamodel,
    slot: &Slot,
    steps: &mut List<Step>,
) -> Result<(), AllocError>
    requires { Good meta.now (L.state look.now) }
    ensures { OnOk result (steps.new ≡ steps.old ++ emptied_made meta.now (L.state look.now) slot.now) }
{
    if is_attr(meta, slot.1) {
        unset(alloc, look, &slot.0, slot.1, steps)
    } else {
        let values = look.attr(alloc, &slot.0, slot.1)?;
        dels(alloc, &slot.0, slot.1, values.as_slice(), steps)
    }
}

/// The steps after which none of these attributes has a value.
pub fn empty_all<L: Look>(
    alloc: Global,
    look: &L,
    meta: &Metamodel,
    slots: &[Slot],
    steps: &mut List<Step>,
) -> Result<(), AllocError>
    requires { Good meta.now (L.state look.now) }
    ensures { OnOk result (steps.new ≡ steps.old ++ values_made meta.now (L.state look.now) slots.now) }
{
    for slot in slots {
        empty(alloc, look, meta, slot, steps)?;
    }
    Ok(())
}
