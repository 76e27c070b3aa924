//! All steps that build a model.
ghost use Rattle.std.specs.Prelude.{◌≡◌, ◌++◌, IfOk, OnOk, Some};
ghost use Rattle.model_state.specs.Good.{Good, Sound};
ghost use Rattle.model_state.specs.State.{nothing};
ghost use Rattle.model_state.specs.Steps.{fold};
ghost use Rattle.model_state.specs.Typing.{is_plain};
ghost use Rattle.edit_steps.specs.Deletes.{slots_of, holds_values};
ghost use Rattle.state_steps.specs.Whole.{all_filled, all_linked, as_steps, births};

use crate::elements::{births, elements};
use crate::links::link_all;
use crate::values::fill_all;
use ecore_meta::Metamodel;
use edit_steps::{Sort, slots_of};
use model_state::{Id, Look, Step};
use std::alloc::{AllocError, Global};
use texts::List;

/// The steps after which the elements have their values.
fn fill<L: Look>(
    alloc: Global,
    look: &L,
    meta: &Metamodel,
    elements: &[Id],
    steps: &mut List<Step>,
) -> Result<(), AllocError>
    requires good { Good meta.now (L.state look.now) }
    ensures { OnOk result (steps.new ≡ steps.old ++ all_filled meta.now (L.state look.now) (slots_of meta.now (L.state look.now) holds_values elements.now)) }
{
    let attributes = slots_of(alloc, look, meta, Sort::Attribute, elements)?;
    fill_all(alloc, look, meta, attributes.as_slice(), steps)
}

/// The links of the elements' references.
fn link<L: Look>(
    alloc: Global,
    look: &L,
    meta: &Metamodel,
    elements: &[Id],
    steps: &mut List<Step>,
) -> Result<(), AllocError>
    requires good { Good meta.now (L.state look.now) }
    ensures { OnOk result (steps.new ≡ steps.old ++ all_linked meta.now (L.state look.now).row (slots_of meta.now (L.state look.now) is_plain elements.now)) }
{
    let references = slots_of(alloc, look, meta, Sort::Reference, elements)?;
    link_all(alloc, look, meta, references.as_slice(), steps)
}

/// The steps that build the elements, their values and their references.
fn build<L: Look>(
    alloc: Global,
    look: &L,
    meta: &Metamodel,
    elements: &[Id],
    steps: &mut List<Step>,
) -> Result<(), AllocError>
    requires good { Good meta.now (L.state look.now) }
    ensures { OnOk result (steps.new ≡ ((steps.old ++ births (L.state look.now) elements.now) ++ all_filled meta.now (L.state look.now) (slots_of meta.now (L.state look.now) holds_values elements.now)) ++ all_linked meta.now (L.state look.now).row (slots_of meta.now (L.state look.now) is_plain elements.now)) }
{
    births(alloc, look, elements, steps)?;
    fill(alloc, look, meta, elements, steps)?;
    link(alloc, look, meta, elements, steps)
}

/// The steps that build the model from the empty one. There is one for each element, parents first, one for each value,
/// and one for each reference with its mirror.
///
/// This costs a listing of each element's children, values and references, and a look-up for each reference.
pub fn as_steps<L: Look>(
    alloc: Global,
    look: &L,
    meta: &Metamodel,
) -> Result<List<Step>, AllocError>
    requires good { Good meta.now (L.state look.now) }
    ensures steps { IfOk result (λ l. l ≡ as_steps meta.now (L.state look.now)) }
    ensures build { IfOk result (λ l. fold meta.now nothing l ≡ Some (L.state look.now)) }
{
    meta.recall_soundness();
    let elements = elements(alloc, look, meta)?;
    let mut steps = List::new(alloc);
    build(alloc, look, meta, elements.as_slice(), &mut steps)?;
    Ok(steps)
}
