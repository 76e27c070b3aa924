//! The table of ids and the slots that it leads to, which contracts see as one finite map.
ghost use Rattle.std.specs.Borrow.{sem};
ghost use Rattle.std.specs.Prelude.{◌≡◌, Some, None, OnOk, OnErr, IfOk, IsSome, map, string_eq};
ghost use Rattle.std.specs.Option.{option_copied};
ghost use Rattle.std.specs.FinMap.{get, empty, keys};
ghost use Rattle.indexmap.specs.IndexMap.{IsUnique};
ghost use Rattle.finite_maps.specs.Maps.{set};
ghost use Rattle.nodes.specs.Tied.{id_in};

use indexmap::IndexMap;
use model_state::Id;
use slab::Slab;
use std::alloc::{AllocError, Global};
use std::marker::Model;
use texts::List;

/// Values under ids, which contracts see as a finite map. A table leads from the text of an id to the slot that has the
/// id and its value. So to find a value costs a look-up of a text in a hash table.
#[derive(Drop)]
pub struct Nodes<T> {
    alloc: Global,
    ids: IndexMap<String, usize>,
    slots: Slab<(Id, T)>,
}

impl<T> Model for Nodes<T> {
    ghost use Rattle.std.specs.Prelude.{ℕ};
    ghost use Rattle.std.specs.FinMap as finite_map;
    ghost use Rattle.std.specs.Coded.{coded_list, coded_ℕ};
    ghost use Rattle.model_state.specs.Keys.{id_cmp};
    ghost use Rattle.nodes.specs.Tied.{IsTied, named, table};

    ghost Value = { finite_map.FinMap id_cmp T };

    ghost coded = { finite_map.code (coded_list coded_ℕ) T.code };

    ghost view = { λ a. table (named a.ids.entries) a.slots };

    ghost invariant = { λ a. IsTied (named a.ids.entries) a.slots };
}

/// A copy of the id in a slot. Out of memory too where the slot is vacant, which none is that the table leads to.
fn copied_id<T>(alloc: Global, slots: &Slab<(Id, T)>, at: usize) -> Result<Id, AllocError>
    ensures { IfOk result (λ id. id ≡ id_in slots.now at) }
{
    match slots.get(at) {
        None => Err(AllocError),
        Some(slot) => slot.0.copy(alloc),
    }
}

/// The ids of the slots that the table leads to, in the order of the table.
fn ids_of<T>(
    alloc: Global,
    ids: &IndexMap<String, usize>,
    slots: &Slab<(Id, T)>,
) -> Result<Vec<Id>, AllocError>
    ensures ids { IfOk result (λ v. v.items ≡ map (λ e. id_in slots.now e.1) ids.now.entries) }
    ensures unique { IsUnique string_eq ids.now }
{
    let mut found = Vec::new(alloc);
    for (_, at) in ids {
        found.push(copied_id(alloc, slots, *at)?)?;
    }
    Ok(found)
}

impl<T> Nodes<T> {
    ghost use Rattle.nodes.specs.Lends.{lends_value};

    /// No values.
    pub fn new(alloc: Global) -> Nodes<T>
        ensures { result ≡ empty }
    {
        Nodes {
            alloc,
            ids: IndexMap::new(alloc),
            slots: Slab::new(alloc),
        }
    }

    /// The value of an id.
    pub fn find(&self, e: &Id) -> Option<&T>
        ensures { option_copied result ≡ get self.now e.now }
    {
        match self.ids.get(e.as_str()) {
            Some(at) => match self.slots.get(*at) {
                Some(slot) => Some(&slot.1),
                None => None,
            },
            None => None,
        }
    }

    /// The value of an id, to be changed in place.
    pub fn find_mut(&mut self, e: &Id) -> &mut T
        requires { IsSome (get self.old e.now) }
        ensures* writes_back { sem 𝓛 (lends_value T.row self.entry e.now result) }
        ensures value { get self.old e.now ≡ Some result.now }
    {
        let at = match self.ids.get(e.as_str()) {
            Some(at) => *at,
            None => unreachable!(),
        };
        &mut self.slots[at].1
    }

    /// The ids, in the order of their bytes.
    pub fn ids(&self, alloc: Global) -> Result<List<Id>, AllocError>
        ensures { IfOk result (λ l. l ≡ keys self.now) }
    {
        let mut found = ids_of(alloc, &self.ids, &self.slots)?;
        found.sort_unstable();
        Ok(List::from_vec(found))
    }

    /// Takes an id and its value out. This takes no memory.
    pub fn drop_at(&mut self, e: &Id) -> T
        requires { IsSome (get self.old e.now) }
        ensures was { get self.old e.now ≡ Some result }
        ensures now { self.new ≡ set self.old e.now None }
    {
        let at = match self.ids.swap_remove(e.as_str()) {
            Some(at) => at,
            None => unreachable!(),
        };
        let (_, value) = self.slots.remove(at);
        value
    }
}

impl<T: Drop> Nodes<T> {
    /// Puts a value under an id that has none. The error is out of memory.
    pub fn put_new(&mut self, e: Id, value: T) -> Result<(), AllocError>
        requires { get self.old e ≡ None }
        ensures ok { OnOk result (self.new ≡ set self.old e (Some value)) }
        ensures err { OnErr result (self.new ≡ self.old) }
    {
        let text = String::from_str(self.alloc, e.as_str())?;
        self.slots.reserve(1)?;
        let at = self.slots.vacant_key();
        self.ids.insert(text, at)?;
        self.slots.insert_reserved((e, value));
        Ok(())
    }
}
