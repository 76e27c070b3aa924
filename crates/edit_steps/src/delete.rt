//! The deletion of a subtree: its references are unlinked, its attributes emptied, and then its elements removed.
ghost use Rattle.std.specs.Prelude.{◌≡◌, ◌++◌, IfOk, OnOk};
ghost use Rattle.model_state.specs.Good.{Good};
ghost use Rattle.edit_steps.specs.Deletes.{delete_made, gone_made, gone_step, removal_made};

use crate::features::{Sort, slots_of};
use crate::rows::{incoming, outgoing};
use crate::values::empty_all;
use crate::walk::subtree;
use ecore_meta::Metamodel;
use model_state::{Id, Look, Place, Step};
use std::alloc::{AllocError, Global};
use texts::List;

/// The step by which an element is deleted where it stands.
fn gone_step<L: Look>(alloc: Global, look: &L, e: &Id) -> Result<Step, AllocError>
    ensures { IfOk result (λ s. s ≡ gone_step (L.state look.now) e.now) }
{
    let class = look.class(e).unwrap_or(0);
    let e = e.copy(alloc)?;
    match look.placed(&e) {
        None => Ok(Step::Gone {
            e,
            class,
            place: Place::Root,
            rank: 0,
        }),
        Some(placed) => Ok(Step::Gone {
            e,
            class,
            place: placed.place.copy(alloc)?,
            rank: placed.rank,
        }),
    }
}

/// The steps by which elements are deleted, the last first.
fn gone<L: Look>(
    alloc: Global,
    look: &L,
    elements: &[Id],
    steps: &mut List<Step>,
) -> Result<(), AllocError>
    ensures { OnOk result (steps.new ≡ steps.old ++ gone_made (L.state look.now) elements.now) }
{
    for at in (0..elements.len()).rev() {
        steps.push(gone_step(alloc, look, &elements[at])?)?;
    }
    Ok(())
}

/// The steps by which elements are deleted that contain no others than these.
fn removal<L: Look>(
    alloc: Global,
    look: &L,
    meta: &Metamodel,
    elements: &[Id],
) -> Result<List<Step>, AllocError>
    requires { Good meta.now (L.state look.now) }
    ensures { IfOk result (λ s. s ≡ removal_made meta.now (L.state look.now) elements.now) }
{
    let references = slots_of(alloc, look, meta, Sort::Reference, elements)?;
    let attributes = slots_of(alloc, look, meta, Sort::Attribute, elements)?;
    let mut steps = List::new(alloc);
    let unlinked = outgoing(alloc, look, meta, references.as_slice(), &mut steps)?;
    incoming(alloc, look, meta, &unlinked, elements, &mut steps)?;
    empty_all(alloc, look, meta, attributes.as_slice(), &mut steps)?;
    gone(alloc, look, elements, &mut steps)?;
    Ok(steps)
}

/// The steps that delete an element with all that it contains.
///
/// First each reference out of the subtree is unlinked with its mirror, then each that is left to an element of it.
/// Then the attributes lose their values, the last first. Then the elements are deleted, the last first.
pub fn delete_steps<L: Look>(
    alloc: Global,
    look: &L,
    meta: &Metamodel,
    e: &Id,
) -> Result<List<Step>, AllocError>
    requires good { Good meta.now (L.state look.now) }
    ensures { IfOk result (λ s. s ≡ delete_made meta.now (L.state look.now) e.now) }
{
    let elements = subtree(alloc, look, meta, e)?;
    removal(alloc, look, meta, elements.as_slice())
}
