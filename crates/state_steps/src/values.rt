//! The steps after which attributes have their values.
ghost use Rattle.std.specs.Prelude.{◌≡◌, ◌≤◌, ◌++◌, IfOk, None, OnOk, Some, length};
ghost use Rattle.std.specs.FinMap.{get};
ghost use Rattle.model_state.specs.Good.{Good};
ghost use Rattle.model_state.specs.declared.step.Step.TheVariants.{Ins, Put};
ghost use Rattle.edit_steps.specs.Attributes.{single_value};
ghost use Rattle.state_steps.specs.Whole.{put_first, inserts, filled, all_filled};
ghost use Rattle.model_state.specs.Ranks.{most_entries};

use ecore_meta::{Metamodel, Value};
use edit_steps::Slot;
use model_state::{Id, Look, Step, is_attr};
use std::alloc::{AllocError, Global};
use texts::List;

/// The step that sets a single attribute that isn't set.
fn put(alloc: Global, e: &Id, f: u32, v: &Value) -> Result<Step, AllocError>
    ensures { IfOk result (λ s. s ≡ Put e.now f None (Some v.now)) }
{
    let e = e.copy(alloc)?;
    let v = v.copy(alloc)?;
    Ok(Step::Put {
        e,
        f,
        old: None,
        new: Some(v),
    })
}

/// The step that sets a single attribute; none where it isn't set.
fn put_first<L: Look>(
    alloc: Global,
    look: &L,
    slot: &Slot,
    steps: &mut List<Step>,
) -> Result<(), AllocError>
    ensures { OnOk result (steps.new ≡ steps.old ++ put_first slot.now (single_value (get (L.state look.now).attr slot.now))) }
{
    match look.attr_at(&slot.0, slot.1, 0) {
        None => Ok(()),
        Some(v) => steps.push(put(alloc, &slot.0, slot.1, v)?),
    }
}

/// The step that inserts a value at an index.
fn insert(alloc: Global, e: &Id, f: u32, at: u32, v: &Value) -> Result<Step, AllocError>
    ensures { IfOk result (λ s. s ≡ Ins e.now f at v.now) }
{
    let e = e.copy(alloc)?;
    let v = v.copy(alloc)?;
    Ok(Step::Ins { e, f, at, v })
}

/// A step for each of the values, the first first.
fn inserts(
    alloc: Global,
    e: &Id,
    f: u32,
    values: &[Value],
    steps: &mut List<Step>,
) -> Result<(), AllocError>
    requires { length values.now ≤ most_entries }
    ensures { OnOk result (steps.new ≡ steps.old ++ inserts e.now f 0 values.now) }
{
    for at in 0..values.len() {
        steps.push(insert(alloc, e, f, at as u32, &values[at])?)?;
    }
    Ok(())
}

/// The steps after which an attribute has its values.
fn fill<L: Look>(
    alloc: Global,
    look: &L,
    meta: &Metamodel,
    slot: &Slot,
    steps: &mut List<Step>,
) -> Result<(), AllocError>
    requires { Good meta.now (L.state look.now) }
    ensures { OnOk result (steps.new ≡ steps.old ++ filled meta.now (L.state look.now) slot.now) }
{
    if is_attr(meta, slot.1) {
        put_first(alloc, look, slot, steps)
    } else {
        let values = look.attr(alloc, &slot.0, slot.1)?;
        inserts(alloc, &slot.0, slot.1, values.as_slice(), steps)
    }
}

/// The steps after which each of these attributes has its values.
pub fn fill_all<L: Look>(
    alloc: Global,
    look: &L,
    meta: &Metamodel,
    slots: &[Slot],
    steps: &mut List<Step>,
) -> Result<(), AllocError>
    requires { Good meta.now (L.state look.now) }
    ensures { OnOk result (steps.new ≡ steps.old ++ all_filled meta.now (L.state look.now) slots.now) }
{
    for at in (0..slots.len()).rev() {
        fill(alloc, look, meta, &slots[at], steps)?;
    }
    Ok(())
}
