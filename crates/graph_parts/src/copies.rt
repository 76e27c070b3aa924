//! Copies of the parts of an element, in memory of their own.
ghost use Rattle.std.specs.Prelude.{◌≡◌, IfOk};
ghost use Rattle.std.specs.BTreeMap.{IsOrdered};
ghost use Rattle.std.specs.FinMap.{empty};
ghost use Rattle.spread_maps.specs.Writes.{puts};
ghost use Rattle.finite_maps.specs.Maps.{set_all};
ghost use Rattle.finite_maps.specs.Tables.{table};
ghost use Rattle.model_state.specs.Keys.{attr_cmp};

use crate::value_list::ValueList;
use model_state::Id;
use ranked_lists::RankedList;
use std::alloc::{AllocError, Global};
use std::collections::BTreeMap;

/// The same references in memory of their own.
pub fn copied_incoming(
    alloc: Global,
    tree: &BTreeMap<(Id, u32), u64>,
) -> Result<BTreeMap<(Id, u32), u64>, AllocError>
    ensures copy { IfOk result (λ t. table attr_cmp t ≡ set_all empty (puts tree.now.entries)) }
    ensures ordered { IsOrdered attr_cmp tree.now }
{
    let mut copy = BTreeMap::new(alloc);
    for (key, rank) in tree {
        copy.insert((key.0.copy(alloc)?, key.1), *rank)?;
    }
    Ok(copy)
}

/// The same attributes in memory of their own, and in no more than they need.
pub fn copied_attrs(
    alloc: Global,
    items: &[(u32, ValueList)],
) -> Result<Vec<(u32, ValueList)>, AllocError>
    ensures { IfOk result (λ v. v.items ≡ items.now) }
{
    let mut copy = Vec::with_capacity(alloc, items.len())?;
    for item in items {
        copy.push((item.0, item.1.copy(alloc)?))?;
    }
    Ok(copy)
}

/// The same lists by feature, in memory of their own, and in no more room than they need.
pub fn copied_lists(
    alloc: Global,
    items: &[(u32, RankedList)],
) -> Result<Vec<(u32, RankedList)>, AllocError>
    ensures { IfOk result (λ v. v.items ≡ items.now) }
{
    let mut copy = Vec::with_capacity(alloc, items.len())?;
    for item in items {
        copy.push((item.0, item.1.copy(alloc)?))?;
    }
    Ok(copy)
}
