//! The elements of a model, and the steps that create them.
ghost use Rattle.std.specs.Prelude.{◌≡◌, ◌++◌, IfOk, OnOk};
ghost use Rattle.model_state.specs.Good.{Good};
ghost use Rattle.model_state.specs.declared.step.Step.TheVariants.{New};
ghost use Rattle.edit_steps.specs.Subtree.{each, subtree_of};
ghost use Rattle.state_steps.specs.Whole.{birth, births, elements_of};
ghost use Rattle.edit_steps.specs.Standing.{ids_of};

use ecore_meta::Metamodel;
use edit_steps::subtree;
use model_state::{Entry, Id, Look, Place, Step};
use std::alloc::{AllocError, Global};
use texts::List;

/// Copies of ids, after those that are there.
fn push_all(alloc: Global, ids: &[Id], found: &mut List<Id>) -> Result<(), AllocError>
    ensures { OnOk result (found.new ≡ found.old ++ ids.now) }
{
    for id in ids {
        found.push(id.copy(alloc)?)?;
    }
    Ok(())
}

/// The subtree of an element, after the ids that are there.
fn push_subtree<L: Look>(
    alloc: Global,
    look: &L,
    meta: &Metamodel,
    root: &Id,
    found: &mut List<Id>,
) -> Result<(), AllocError>
    requires { Good meta.now (L.state look.now) }
    ensures { OnOk result (found.new ≡ found.old ++ subtree_of meta.now (L.state look.now) root.now) }
{
    let below = subtree(alloc, look, meta, root)?;
    push_all(alloc, below.as_slice(), found)
}

/// The subtrees of entries, one after another.
fn subtrees<L: Look>(
    alloc: Global,
    look: &L,
    meta: &Metamodel,
    roots: &[Entry],
) -> Result<List<Id>, AllocError>
    requires { Good meta.now (L.state look.now) }
    ensures { IfOk result (λ l. l ≡ each (subtree_of meta.now (L.state look.now)) (ids_of roots.now)) }
{
    let mut found = List::new(alloc);
    for root in roots {
        push_subtree(alloc, look, meta, &root.id, &mut found)?;
    }
    Ok(found)
}

/// All elements, each before those inside it.
pub fn elements<L: Look>(alloc: Global, look: &L, meta: &Metamodel) -> Result<List<Id>, AllocError>
    requires { Good meta.now (L.state look.now) }
    ensures { IfOk result (λ l. l ≡ elements_of meta.now (L.state look.now)) }
{
    let roots = look.children(alloc, &Place::Root)?;
    subtrees(alloc, look, meta, roots.as_slice())
}

/// The step that creates an element of a class in a place.
fn new_step(alloc: Global, e: &Id, class: u32, place: &Place, rank: u64) -> Result<Step, AllocError>
    ensures { IfOk result (λ s. s ≡ New e.now class place.now rank) }
{
    let e = e.copy(alloc)?;
    let place = place.copy(alloc)?;
    Ok(Step::New {
        e,
        class,
        place,
        rank,
    })
}

/// The step that creates an element where it stands.
fn birth<L: Look>(alloc: Global, look: &L, e: &Id) -> Result<Step, AllocError>
    ensures { IfOk result (λ s. s ≡ birth (L.state look.now) e.now) }
{
    let class = look.class(e).unwrap_or(0);
    match look.placed(e) {
        None => new_step(alloc, e, class, &Place::Root, 0),
        Some(placed) => new_step(alloc, e, class, &placed.place, placed.rank),
    }
}

/// The steps that create elements.
pub fn births<L: Look>(
    alloc: Global,
    look: &L,
    elements: &[Id],
    steps: &mut List<Step>,
) -> Result<(), AllocError>
    ensures { OnOk result (steps.new ≡ steps.old ++ births (L.state look.now) elements.now) }
{
    for at in 0..elements.len() {
        steps.push(birth(alloc, look, &elements[at])?)?;
    }
    Ok(())
}
