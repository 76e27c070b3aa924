//! The features of elements, each as the slot of one element, by the sort that is looked for.
ghost use Rattle.std.specs.Prelude.{◌≡◌, ◌++◌, Bool, IfOk, OnOk, map};
ghost use Rattle.std.specs.List.{filter};
ghost use Rattle.ecore_meta.specs.declared.meta.Kind.{Kind};
ghost use Rattle.model_state.specs.Typing.{kind_of};
ghost use Rattle.edit_steps.specs.Subtree.{features_of};
ghost use Rattle.edit_steps.specs.Deletes.{slots_of};
ghost use Rattle.edit_steps.specs.Sorts.{passes};

use ecore_meta::Metamodel;
use model_state::{Id, Look, is_attr, is_many, is_plain};
use std::alloc::{AllocError, Global};
use texts::List;

/// A feature of an element.
pub type Slot = (Id, u32);

/// Which features are looked for.
#[derive(Clone, Copy, Drop)]
pub enum Sort {
    /// Plain references.
    Reference,
    /// Attributes, single and many-valued.
    Attribute,
}

/// Whether the feature is of the sort.
fn passes(meta: &Metamodel, sort: Sort, f: u32) -> bool
    ensures { result ≡ passes sort (kind_of meta.now f) }
{
    match sort {
        Sort::Reference => is_plain(meta, f),
        Sort::Attribute => is_attr(meta, f) || is_many(meta, f),
    }
}

/// The features of a class, its own and inherited, by number; none without a class.
pub(crate) fn features_of(meta: &Metamodel, class: Option<u32>) -> &[u32]
    ensures { (p : Kind → Bool) → filter (λ f. p (kind_of meta.now f)) result.now ≡ features_of meta.now p class }
{
    // For what a metamodel says of the lists of features.
    meta.recall_promises();
    match class {
        None => &[],
        Some(class) => meta.features_of(class),
    }
}

/// The features of a sort that the class has, by number, as slots of an element.
fn push_slots(
    alloc: Global,
    meta: &Metamodel,
    sort: Sort,
    e: &Id,
    class: Option<u32>,
    slots: &mut List<Slot>,
) -> Result<(), AllocError>
    ensures { OnOk result (slots.new ≡ slots.old ++ map (λ f. (e.now, f)) (features_of meta.now (passes sort) class)) }
{
    let features = features_of(meta, class);
    for f in features {
        if passes(meta, sort, *f) {
            slots.push((e.copy(alloc)?, *f))?;
        }
    }
    Ok(())
}

/// The features of a sort of each element, by number.
pub fn slots_of<L: Look>(
    alloc: Global,
    look: &L,
    meta: &Metamodel,
    sort: Sort,
    elements: &[Id],
) -> Result<List<Slot>, AllocError>
    ensures { IfOk result (λ l. l ≡ slots_of meta.now (L.state look.now) (passes sort) elements.now) }
{
    let mut slots = List::new(alloc);
    for x in elements {
        push_slots(alloc, meta, sort, x, look.class(x), &mut slots)?;
    }
    Ok(slots)
}
