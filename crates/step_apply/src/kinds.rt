//! The classes of a model's elements: the map of those that are live.
ghost use Rattle.std.specs.Prelude.{◌≡◌, Some, None, OnOk, OnErr, IfOk};
ghost use Rattle.std.specs.BTreeMap as ordered_map;
ghost use Rattle.std.specs.BTreeMap.{IsOrdered};
ghost use Rattle.std.specs.FinMap.{get, empty, keys};
ghost use Rattle.model_state.specs.Keys.{id_cmp};
ghost use Rattle.finite_maps.specs.Maps.{set};

use model_state::Id;
use std::alloc::{AllocError, Global};
use std::collections::BTreeMap;
use std::marker::Model;
use texts::List;

/// The keys, in their order.
fn keys_of(alloc: Global, tree: &BTreeMap<Id, u32>) -> Result<List<Id>, AllocError>
    ensures keys { IfOk result (λ l. l ≡ ordered_map.keys tree.now) }
    ensures ordered { IsOrdered id_cmp tree.now }
{
    let mut found = List::new(alloc);
    for id in tree.keys() {
        found.push(id.copy(alloc)?)?;
    }
    Ok(found)
}

/// The classes of the live elements, which contracts see as a finite map.
#[derive(Drop)]
pub struct Kinds {
    tree: BTreeMap<Id, u32>,
}

impl Model for Kinds {
    ghost use Rattle.std.specs.Prelude.{ℕ};
    ghost use Rattle.std.specs.FinMap as map;
    ghost use Rattle.std.specs.Coded.{coded_list, coded_ℕ};
    ghost use Rattle.finite_maps.specs.Tables.{table};
    ghost use Rattle.model_state.specs.Keys.{id_cmp};

    ghost Value = { map.FinMap id_cmp ℕ };

    ghost coded = { map.code (coded_list coded_ℕ) coded_ℕ };

    ghost view = { λ a. table id_cmp a.tree };
}

impl Kinds {
    /// No element is live.
    pub fn new(alloc: Global) -> Kinds
        ensures { result ≡ empty }
    {
        Kinds {
            tree: BTreeMap::new(alloc),
        }
    }

    /// The number of an element's class, `None` where it isn't live.
    pub fn find(&self, e: &Id) -> Option<u32>
        ensures { result ≡ get self.now e.now }
    {
        self.tree.get(e).copied()
    }

    /// Makes an element live, with its class. The error is out of memory.
    pub fn put(&mut self, e: Id, class: u32) -> Result<(), AllocError>
        ensures ok { OnOk result (self.new ≡ set self.old e (Some class)) }
        ensures err { OnErr result (self.new ≡ self.old) }
    {
        self.tree.insert(e, class)?;
        Ok(())
    }

    /// Makes an element live no more.
    pub fn drop_at(&mut self, e: &Id)
        ensures { self.new ≡ set self.old e.now None }
    {
        self.tree.remove(e);
    }

    /// The ids of the live elements, in the order of their bytes.
    pub fn ids(&self, alloc: Global) -> Result<List<Id>, AllocError>
        ensures { IfOk result (λ l. l ≡ keys self.now) }
    {
        keys_of(alloc, &self.tree)
    }
}
