//! The subtree of an element, found depth first by a stack, so that no call nests as deep as the model.
ghost use Rattle.std.specs.Prelude.{◌≡◌, ◌++◌, IfOk, OnOk, reverse};
ghost use Rattle.model_state.specs.Good.{Good};
ghost use Rattle.model_state.specs.Listing.{children};
ghost use Rattle.model_state.specs.declared.step.Place.TheVariants.{Inside};
ghost use Rattle.edit_steps.specs.Subtree.{children_of, subtree_of};
ghost use Rattle.edit_steps.specs.Standing.{ids_of};

use crate::features::features_of;
use crate::place::is_containment;
use ecore_meta::Metamodel;
use model_state::{Entry, Id, Look, Place};
use std::alloc::{AllocError, Global};
use texts::List;

/// The ids of entries.
fn push_ids(alloc: Global, list: &[Entry], found: &mut Vec<Id>) -> Result<(), AllocError>
    ensures { OnOk result (found.new.items ≡ found.old.items ++ ids_of list.now) }
{
    for x in list {
        found.push(x.id.copy(alloc)?)?;
    }
    Ok(())
}

/// The children in a containment of an element.
fn push_children<L: Look>(
    alloc: Global,
    look: &L,
    e: &Id,
    f: u32,
    found: &mut Vec<Id>,
) -> Result<(), AllocError>
    ensures { OnOk result (found.new.items ≡ found.old.items ++ ids_of (children (L.state look.now).place (L.state look.now).prank (Inside e.now f))) }
{
    let place = Place::Inside {
        parent: e.copy(alloc)?,
        feature: f,
    };
    let there = look.children(alloc, &place)?;
    push_ids(alloc, there.as_slice(), found)
}

/// The children of an element: those of its containments, by number.
fn children_of<L: Look>(
    alloc: Global,
    look: &L,
    meta: &Metamodel,
    e: &Id,
) -> Result<Vec<Id>, AllocError>
    ensures { IfOk result (λ v. v.items ≡ children_of meta.now (L.state look.now) e.now) }
{
    let features = features_of(meta, look.class(e));
    let mut found = Vec::new(alloc);
    for f in features {
        if is_containment(meta, *f) {
            push_children(alloc, look, e, *f, &mut found)?;
        }
    }
    Ok(found)
}

/// Puts elements on a stack, the first on top.
fn stack_up(mut list: Vec<Id>, stack: &mut Vec<Id>) -> Result<(), AllocError>
    ensures { OnOk result (stack.new.items ≡ stack.old.items ++ reverse list.items) }
{
    while let Some(x) = list.pop() {
        stack.push(x)?;
    }
    Ok(())
}

/// An element with all that it contains: the element, and then for its containments by number the subtrees of its children
/// in order.
pub fn subtree<L: Look>(
    alloc: Global,
    look: &L,
    meta: &Metamodel,
    e: &Id,
) -> Result<List<Id>, AllocError>
    requires good { Good meta.now (L.state look.now) }
    ensures { IfOk result (λ l. l ≡ subtree_of meta.now (L.state look.now) e.now) }
{
    let mut found = List::new(alloc);
    let mut stack = Vec::new(alloc);
    stack.push(e.copy(alloc)?)?;
    for _ in 0..u64::MAX {
        let Some(x) = stack.pop() else {
            return Ok(found);
        };
        stack_up(children_of(alloc, look, meta, &x)?, &mut stack)?;
        found.push(x)?;
    }
    // No memory holds so many ids.
    Err(AllocError)
}
