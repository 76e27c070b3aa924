//! The links of the references that lead their pairs.
ghost use Rattle.std.specs.Prelude.{◌≡◌, ◌++◌, ◌∷◌, [], IfOk, OnOk};
ghost use Rattle.model_state.specs.Typing.{opposite_of};
ghost use Rattle.model_state.specs.declared.step.Step.TheVariants.{Link};
ghost use Rattle.edit_steps.specs.Rows.{link_step, mirror_rank};
ghost use Rattle.state_steps.specs.Whole.{leads, linked, all_linked};

use ecore_meta::Metamodel;
use edit_steps::Slot;
use model_state::{Entry, Id, Look, Step, opposite_of};
use std::alloc::{AllocError, Global};
use texts::List;

/// Whether the reference has no opposite, or one of a greater number.
fn leads(meta: &Metamodel, slot: &Slot) -> bool
    ensures { result ≡ leads meta.now slot.now }
{
    match opposite_of(meta, slot.1) {
        None => true,
        Some(g) => slot.1 < g,
    }
}

/// The rank of the mirror of a reference.
fn rank_back<L: Look>(look: &L, opposite: Option<u32>, a: &Id, b: &Id) -> u64
    ensures { result ≡ mirror_rank (L.state look.now).row opposite a.now b.now }
{
    match opposite {
        None => 0,
        Some(g) => look.row(b, g, a).unwrap_or(0),
    }
}

/// The link of a row and its mirror, as they are given.
fn new_link(
    alloc: Global,
    a: &Id,
    f: u32,
    ra: u64,
    b: &Id,
    rb: Option<u64>,
) -> Result<Step, AllocError>
    ensures { IfOk result (λ s. s ≡ Link a.now f ra b.now rb) }
{
    let a = a.copy(alloc)?;
    let b = b.copy(alloc)?;
    Ok(Step::Link { a, f, ra, b, rb })
}

/// The link of a row and its mirror, written from the side whose feature has the lesser number.
fn link_step(
    alloc: Global,
    opposite: Option<u32>,
    a: &Id,
    f: u32,
    ra: u64,
    b: &Id,
    rb: u64,
) -> Result<Step, AllocError>
    ensures { IfOk result (λ s. s ≡ link_step opposite a.now f ra b.now rb) }
{
    match opposite {
        None => new_link(alloc, a, f, ra, b, None),
        Some(g) => {
            if g < f {
                new_link(alloc, b, g, rb, a, Some(ra))
            } else {
                new_link(alloc, a, f, ra, b, Some(rb))
            }
        }
    }
}

/// The links of entries of a feature of an element.
fn link_entries<L: Look>(
    alloc: Global,
    look: &L,
    opposite: Option<u32>,
    a: &Id,
    f: u32,
    entries: &[Entry],
    steps: &mut List<Step>,
) -> Result<(), AllocError>
    ensures { OnOk result (steps.new ≡ steps.old ++ linked (L.state look.now).row opposite a.now f entries.now) }
{
    for at in (0..entries.len()).rev() {
        let entry = &entries[at];
        let back = rank_back(look, opposite, a, &entry.id);
        steps.push(link_step(alloc, opposite, a, f, entry.rank, &entry.id, back)?)?;
    }
    Ok(())
}

/// The links of one reference, where it leads its pair.
fn link_one<L: Look>(
    alloc: Global,
    look: &L,
    meta: &Metamodel,
    slot: &Slot,
    steps: &mut List<Step>,
) -> Result<(), AllocError>
    ensures { OnOk result (steps.new ≡ steps.old ++ all_linked meta.now (L.state look.now).row (slot.now ∷ [])) }
{
    if !leads(meta, slot) {
        return Ok(());
    }
    let entries = look.targets(alloc, &slot.0, slot.1)?;
    link_entries(
        alloc,
        look,
        opposite_of(meta, slot.1),
        &slot.0,
        slot.1,
        entries.as_slice(),
        steps,
    )
}

/// The links of all references that lead their pairs.
pub fn link_all<L: Look>(
    alloc: Global,
    look: &L,
    meta: &Metamodel,
    slots: &[Slot],
    steps: &mut List<Step>,
) -> Result<(), AllocError>
    ensures { OnOk result (steps.new ≡ steps.old ++ all_linked meta.now (L.state look.now).row slots.now) }
{
    for at in (0..slots.len()).rev() {
        link_one(alloc, look, meta, &slots[at], steps)?;
    }
    Ok(())
}
