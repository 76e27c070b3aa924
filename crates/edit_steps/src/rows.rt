//! The unlinks of a deletion: first of the references out of a subtree, then of those that are left into it.
ghost use Rattle.std.specs.Prelude.{◌≡◌, ◌++◌, ◌∷◌, [], List as Seq, IfOk, OnOk, map, not};
ghost use Rattle.std.specs.BTreeSet.{contains};
ghost use Rattle.std.specs.List.{filter};
ghost use Rattle.model_state.specs.Keys.{AttrKey, attr_cmp};
ghost use Rattle.model_state.specs.Typing.{opposite_of};
ghost use Rattle.edit_steps.specs.Rows.{unlinks};
ghost use Rattle.edit_steps.specs.Deletes.{incoming_left, incoming_made, incoming_unlink, outgoing_made, targets_left};
ghost use Rattle.edit_steps.specs.Reached.{HasSlots, is_reached};

use crate::features::Slot;
use crate::{rank_of_mirror, unlink_step, unlinks};
use ecore_meta::Metamodel;
use model_state::{Entry, Id, Incoming, Look, Step, opposite_of};
use std::alloc::{AllocError, Global};
use std::collections::BTreeSet;
use texts::List;

/// Features of elements.
pub type Slots = BTreeSet<Slot>;

/// Whether a feature of an element is one of these.
fn has_slot(alloc: Global, slots: &Slots, e: &Id, f: u32) -> Result<bool, AllocError>
    ensures { IfOk result (λ r. r ≡ contains attr_cmp slots.now (e.now, f)) }
{
    let slot = (e.copy(alloc)?, f);
    let found = slots.contains(&slot);
    drop(slot);
    Ok(found)
}

/// Whether a row from a to b by f is of one of these features, or the mirror of such a row.
fn is_reached(
    alloc: Global,
    meta: &Metamodel,
    slots: &Slots,
    a: &Id,
    f: u32,
    b: &Id,
) -> Result<bool, AllocError>
    ensures { IfOk result (λ r. r ≡ is_reached meta.now slots.now (a.now, f, b.now)) }
{
    if has_slot(alloc, slots, a, f)? {
        return Ok(true);
    }
    match opposite_of(meta, f) {
        None => Ok(false),
        Some(g) => has_slot(alloc, slots, b, g),
    }
}

/// The targets of a feature of an element whose rows are still there, once the rows of these features are removed.
fn left_of(
    alloc: Global,
    meta: &Metamodel,
    before: &Slots,
    slot: &Slot,
    targets: &[Entry],
) -> Result<List<Entry>, AllocError>
    ensures { IfOk result (λ l. l ≡ filter (λ x. not (is_reached meta.now before.now (slot.now.0, slot.now.1, x.id))) targets.now) }
{
    let mut left = List::new(alloc);
    for x in targets {
        if !is_reached(alloc, meta, before, &slot.0, slot.1, &x.id)? {
            left.push(Entry {
                rank: x.rank,
                id: x.id.copy(alloc)?,
            })?;
        }
    }
    Ok(left)
}

/// The unlinks of the rows of a slot that are left once the rows of the slots before are removed.
fn unlink_slot<L: Look>(
    alloc: Global,
    look: &L,
    meta: &Metamodel,
    before: &Slots,
    slot: &Slot,
    steps: &mut List<Step>,
) -> Result<(), AllocError>
    ensures { OnOk result ((ss : Seq AttrKey) → HasSlots before.now ss → steps.new ≡ steps.old ++ unlinks (L.state look.now).row (opposite_of meta.now slot.now.1) slot.now.0 slot.now.1 (targets_left meta.now (L.state look.now).row ss slot.now)) }
{
    meta.recall_soundness();
    let targets = look.targets(alloc, &slot.0, slot.1)?;
    let left = left_of(alloc, meta, before, slot, targets.as_slice())?;
    let opposite = opposite_of(meta, slot.1);
    unlinks(
        alloc,
        look,
        opposite,
        &slot.0,
        slot.1,
        left.as_slice(),
        steps,
    )
}

/// Adds a feature of an element.
fn add(alloc: Global, slots: &mut Slots, slot: &Slot) -> Result<(), AllocError>
    ensures { OnOk result ((ss : Seq AttrKey) → HasSlots slots.old ss → HasSlots slots.new (ss ++ slot.now ∷ [])) }
{
    slots.insert((slot.0.copy(alloc)?, slot.1))?;
    Ok(())
}

/// The unlinks of the rows out of the slots, each row once, and the slots as a set.
pub fn outgoing<L: Look>(
    alloc: Global,
    look: &L,
    meta: &Metamodel,
    slots: &[Slot],
    steps: &mut List<Step>,
) -> Result<Slots, AllocError>
    ensures steps { OnOk result (steps.new ≡ steps.old ++ outgoing_made meta.now (L.state look.now).row [] slots.now) }
    ensures slots { IfOk result (λ s. HasSlots s slots.now) }
{
    let mut before = BTreeSet::new(alloc);
    for i in 0..slots.len() {
        let slot = &slots[i];
        unlink_slot(alloc, look, meta, &before, slot, steps)?;
        add(alloc, &mut before, slot)?;
    }
    Ok(before)
}

/// The unlink of a row to an element.
fn incoming_unlink<L: Look>(
    alloc: Global,
    look: &L,
    meta: &Metamodel,
    e: &Id,
    row: &Incoming,
) -> Result<Step, AllocError>
    ensures { IfOk result (λ s. s ≡ incoming_unlink meta.now (L.state look.now).row e.now row.now) }
{
    let opposite = opposite_of(meta, row.feature);
    let mirror = rank_of_mirror(look, opposite, &row.source, e);
    unlink_step(
        alloc,
        opposite,
        &row.source,
        row.feature,
        row.rank,
        e,
        mirror,
    )
}

/// The unlinks of rows to an element that are left once the rows of the slots are removed.
fn unlink_incoming<L: Look>(
    alloc: Global,
    look: &L,
    meta: &Metamodel,
    slots: &Slots,
    e: &Id,
    rows: &[Incoming],
    steps: &mut List<Step>,
) -> Result<(), AllocError>
    ensures { OnOk result (steps.new ≡ steps.old ++ map (incoming_unlink meta.now (L.state look.now).row e.now) (filter (λ i. not (is_reached meta.now slots.now (i.source, i.feature, e.now))) rows.now)) }
{
    for row in rows {
        if !is_reached(alloc, meta, slots, &row.source, row.feature, e)? {
            steps.push(incoming_unlink(alloc, look, meta, e, row)?)?;
        }
    }
    Ok(())
}

/// The unlinks of the rows to one element that are left once the rows of the slots are removed.
fn unlink_to<L: Look>(
    alloc: Global,
    look: &L,
    meta: &Metamodel,
    slots: &Slots,
    e: &Id,
    steps: &mut List<Step>,
) -> Result<(), AllocError>
    ensures { OnOk result ((ss : Seq AttrKey) → HasSlots slots.now ss → steps.new ≡ steps.old ++ map (incoming_unlink meta.now (L.state look.now).row e.now) (incoming_left meta.now (L.state look.now).row ss e.now)) }
{
    meta.recall_soundness();
    let rows = look.incoming(alloc, e)?;
    unlink_incoming(alloc, look, meta, slots, e, rows.as_slice(), steps)
}

/// The unlinks of the rows to elements that are left once the rows of the slots are removed.
pub fn incoming<L: Look>(
    alloc: Global,
    look: &L,
    meta: &Metamodel,
    slots: &Slots,
    elements: &[Id],
    steps: &mut List<Step>,
) -> Result<(), AllocError>
    ensures { OnOk result ((ss : Seq AttrKey) → HasSlots slots.now ss → steps.new ≡ steps.old ++ incoming_made meta.now (L.state look.now).row ss elements.now) }
{
    for x in elements {
        unlink_to(alloc, look, meta, slots, x, steps)?;
    }
    Ok(())
}
