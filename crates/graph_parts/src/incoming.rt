//! The references that end at an element.
ghost use Rattle.std.specs.Prelude.{◌≡◌, Some, None, OnOk, OnErr, IfOk, is_some, true, map};
ghost use Rattle.std.specs.FinMap.{get, empty, entries};
ghost use Rattle.std.specs.BTreeMap.{IsOrdered};
ghost use Rattle.finite_maps.specs.Maps.{set};
ghost use Rattle.spread_maps.specs.Spread.{is_bare};
ghost use Rattle.model_state.specs.Keys.{attr_cmp};
ghost use Rattle.graph_parts.specs.Parts.{incoming_of};

use crate::copies::copied_incoming;
use model_state::{Id, Incoming};
use std::alloc::{AllocError, Global};
use std::collections::BTreeMap;
use std::marker::Model;
use texts::List;

/// The rows of a tree, in their order.
fn listed(alloc: Global, tree: &BTreeMap<(Id, u32), u64>) -> Result<List<Incoming>, AllocError>
    ensures rows { IfOk result (λ l. l ≡ map incoming_of tree.now.entries) }
    ensures ordered { IsOrdered attr_cmp tree.now }
{
    let mut found = List::new(alloc);
    for (key, rank) in tree {
        found.push(Incoming {
            source: key.0.copy(alloc)?,
            feature: key.1,
            rank: *rank,
        })?;
    }
    Ok(found)
}

/// The ranks of the references that end at an element, by source and feature, which contracts see as a finite map.
#[derive(Drop)]
pub struct IncomingReferences {
    tree: BTreeMap<(Id, u32), u64>,
}

impl Model for IncomingReferences {
    ghost use Rattle.finite_maps.specs.Tables.{table};
    ghost use Rattle.model_state.specs.Keys.{attr_cmp};
    ghost use Rattle.graph_parts.specs.Parts.{IncomingRanks, incoming_code};

    ghost Value = { IncomingRanks };

    ghost coded = { incoming_code };

    ghost view = { λ a. table attr_cmp a.tree };
}

impl IncomingReferences {
    /// No references.
    pub fn new(alloc: Global) -> IncomingReferences
        ensures { result ≡ empty }
    {
        IncomingReferences {
            tree: BTreeMap::new(alloc),
        }
    }

    /// Whether there is no reference.
    pub fn is_empty(&self) -> bool
        ensures { result ≡ is_bare self.now }
    {
        self.tree.len() == 0
    }

    /// Gives a reference its rank, a new reference or one that is there. The error is out of memory.
    pub fn put(&mut self, key: (Id, u32), rank: u64) -> Result<(), AllocError>
        ensures ok { OnOk result (self.new ≡ set self.old key (Some rank)) }
        ensures err { OnErr result (self.new ≡ self.old) }
    {
        self.tree.insert(key, rank)?;
        Ok(())
    }

    /// The rank of a reference, `None` where it isn't there.
    pub fn rank(&self, key: &(Id, u32)) -> Option<u64>
        ensures { result ≡ get self.now key.now }
    {
        self.tree.get(key).copied()
    }

    /// Gives a reference that is there another rank. This takes no memory.
    pub fn rewrite(&mut self, key: &(Id, u32), rank: u64)
        requires { is_some (get self.old key.now) ≡ true }
        ensures { self.new ≡ set self.old key.now (Some rank) }
    {
        if let Some(here) = self.tree.get_mut(key) {
            *here = rank;
        }
    }

    /// Takes a reference out, where it is there. This takes no memory.
    pub fn drop_at(&mut self, key: &(Id, u32))
        ensures { self.new ≡ set self.old key.now None }
    {
        self.tree.remove(key);
    }

    /// The same in memory of its own.
    pub fn copy(&self, alloc: Global) -> Result<IncomingReferences, AllocError>
        ensures { IfOk result (λ x. x ≡ self.now) }
    {
        Ok(IncomingReferences {
            tree: copied_incoming(alloc, &self.tree)?,
        })
    }

    /// The references, by source and then by feature. This goes over these alone.
    pub fn list(&self, alloc: Global) -> Result<List<Incoming>, AllocError>
        ensures { IfOk result (λ l. l ≡ map incoming_of (entries self.now)) }
    {
        listed(alloc, &self.tree)
    }
}
