//! A metamodel in the place of another.
ghost use Rattle.std.specs.Prelude.{◌≡◌, IfErr, IfOk, None, length};
ghost use Rattle.metamodel_growth.specs.Evolved.{evolved, orders};
ghost use Rattle.metamodel_growth.specs.Extension.{IsEnumIndex, IsMissing, missing};
ghost use Rattle.metamodel_growth.specs.Order.{IsOrder};
ghost use Rattle.metamodel_growth.specs.Preserves.{Preserves};
ghost use Rattle.metamodel_growth.specs.Renumbered.{AreOrders, renumbered};

use crate::fault::EvolveFault;
use crate::found::{classes_in, enum_index, enums_in, features_in};
use crate::missing::missing;
use crate::moved::renumbered;
use crate::order::{Order, Orders, begun_by};
use ecore_meta::Metamodel;
use std::alloc::{AllocError, Global};
use std::collections::BTreeMap;

/// The order of the classes of the new metamodel: first those of the old one.
fn class_order(alloc: Global, old: &Metamodel, next: &Metamodel) -> Result<Order, AllocError>
    ensures numbers { IfOk result (λ o. o ≡ (orders old.now next.now).classes) }
    ensures order { IfOk result (λ o. IsOrder (length next.now.classes) o) }
{
    old.recall_promises();
    next.recall_promises();
    let first = classes_in(alloc, old, next)?;
    let numbers = begun_by(alloc, first, next.class_count())?;
    let order = Order::new(alloc, numbers)?;
    Ok(order)
}

/// The same of its features.
fn feature_order(alloc: Global, old: &Metamodel, next: &Metamodel) -> Result<Order, AllocError>
    ensures numbers { IfOk result (λ o. o ≡ (orders old.now next.now).features) }
    ensures order { IfOk result (λ o. IsOrder (length next.now.features) o) }
{
    old.recall_promises();
    next.recall_promises();
    let first = features_in(alloc, old, next)?;
    let numbers = begun_by(alloc, first, next.feature_count())?;
    let order = Order::new(alloc, numbers)?;
    Ok(order)
}

/// The same of its enums.
fn enum_order(
    alloc: Global,
    old: &Metamodel,
    next: &Metamodel,
    index: &BTreeMap<String, u32>,
) -> Result<Order, AllocError>
    requires { IsEnumIndex index.now next.now }
    ensures numbers { IfOk result (λ o. o ≡ (orders old.now next.now).enums) }
    ensures order { IfOk result (λ o. IsOrder (length next.now.enums) o) }
{
    old.recall_promises();
    next.recall_promises();
    let first = enums_in(alloc, old, next, index)?;
    let numbers = begun_by(alloc, first, next.enum_count())?;
    let order = Order::new(alloc, numbers)?;
    Ok(order)
}

/// The orders of all parts of the new metamodel.
fn orders(
    alloc: Global,
    old: &Metamodel,
    next: &Metamodel,
    index: &BTreeMap<String, u32>,
) -> Result<Orders, AllocError>
    requires { IsEnumIndex index.now next.now }
    ensures numbers { IfOk result (λ to. to ≡ orders old.now next.now) }
    ensures order { IfOk result (λ to. AreOrders next.now to) }
{
    let classes = class_order(alloc, old, next)?;
    let features = feature_order(alloc, old, next)?;
    let enums = enum_order(alloc, old, next, index)?;
    Ok(Orders {
        classes,
        features,
        enums,
    })
}

/// The metamodel with the new numbers, made anew.
fn made_anew(alloc: Global, next: &Metamodel, to: &Orders) -> Result<Metamodel, AllocError>
    requires { AreOrders next.now to.now }
    ensures { IfOk result (λ m. m ≡ renumbered next.now to.now) }
{
    next.recall_promises();
    let parts = renumbered(alloc, next, to)?;
    // For how many classes and features there are.
    let _classes = next.class_count();
    let _features = next.feature_count();
    let meta = Metamodel::of_parts(alloc, parts)?;
    Ok(meta)
}

/// The metamodel with the new numbers, which is itself where each part keeps its number.
fn with_numbers(alloc: Global, next: Metamodel, to: &Orders) -> Result<Metamodel, AllocError>
    requires { AreOrders next to.now }
    ensures { IfOk result (λ m. m ≡ renumbered next to.now) }
{
    next.recall_promises();
    if to.are_identities() {
        return Ok(next);
    }
    made_anew(alloc, &next, to)
}

/// The new metamodel with the numbers of the old one.
#[tactic(auto, unfolding(crate::specs::Evolved::evolved))]
fn moved(
    alloc: Global,
    old: &Metamodel,
    next: Metamodel,
    index: &BTreeMap<String, u32>,
) -> Result<Metamodel, AllocError>
    requires index { IsEnumIndex index.now next }
    requires extends { missing old.now next ≡ None }
    ensures evolved { IfOk result (λ m. m ≡ evolved old.now next) }
    ensures preserves { IfOk result (λ m. Preserves old.now m) }
{
    old.recall_promises();
    next.recall_promises();
    let to = orders(alloc, old, &next, index)?;
    let meta = with_numbers(alloc, next, &to)?;
    Ok(meta)
}

/// The new metamodel in the place of the old one, where it has all parts of the old one by name. Then what has its name in
/// the old one gets its number there, and the others get the next numbers, in their order in the new one; where they have
/// these numbers already, the new one is handed back as it is. Else the fault names the first part that the new one does not
/// have. The URI comes first, then classes, enums and features, each by number. A class is kept with its flag, below what it
/// was below, and a feature with its owner, its bounds and its kind. An enum is kept with its literals, behind which more may
/// come.
pub fn evolve(alloc: Global, old: &Metamodel, next: Metamodel) -> Result<Metamodel, EvolveFault>
    ensures evolved { IfOk result (λ m. m ≡ evolved old.now next) }
    ensures extends { IfOk result (λ _. missing old.now next ≡ None) }
    ensures preserves { IfOk result (λ m. Preserves old.now m) }
    ensures fault { IfErr result (IsMissing (missing old.now next)) }
{
    let index = enum_index(alloc, &next)?;
    match missing(alloc, old, &next, &index)? {
        Some(name) => Err(EvolveFault::NotExtension { name }),
        None => Ok(moved(alloc, old, next, &index)?),
    }
}
