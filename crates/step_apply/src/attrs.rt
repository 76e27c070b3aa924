//! The attribute values of a model: the map of those that are set.
ghost use Rattle.std.specs.Prelude.{ℕ, cond, ◌≡◌, Some, None, OnOk, OnErr, [], unwrap_or, nat_eq};
ghost use Rattle.std.specs.Ordering.{nat_cmp};
ghost use Rattle.std.specs.BTreeMap as ordered_map;
ghost use Rattle.std.specs.BTreeMap.{is_at};
ghost use Rattle.finite_maps.specs.Equal.{text_eq};
ghost use Rattle.std.specs.FinMap.{get, empty};
ghost use Rattle.finite_maps.specs.Maps.{set, count};

use ecore_meta::Value;
use model_state::Id;
use std::alloc::{AllocError, Global};
use std::collections::BTreeMap;
use std::marker::Model;
use texts::List;

/// Puts the values of an attribute among those of its element.
fn write_in(
    inner: &mut BTreeMap<u32, List<Value>>,
    f: u32,
    values: List<Value>,
) -> Result<(), AllocError>
    ensures ok { OnOk result ((j : ℕ) → ordered_map.get nat_cmp inner.new j ≡ cond (is_at (nat_cmp f) j) (Some values) (ordered_map.get nat_cmp inner.old j)) }
    ensures err { OnErr result (inner.new.entries ≡ inner.old.entries) }
{
    inner.insert(f, values)?;
    Ok(())
}

/// The values of the attributes that are set, which contracts see as a finite map.
#[derive(Drop)]
pub struct Attrs {
    tree: BTreeMap<Id, BTreeMap<u32, List<Value>>>,
}

impl Model for Attrs {
    ghost use Rattle.step_apply.specs.Spots.{Values, values_code};
    ghost use Rattle.std.specs.Ordering.{nat_cmp};
    ghost use Rattle.finite_maps.specs.Nested.{nested};
    ghost use Rattle.model_state.specs.Keys.{id_cmp};

    ghost Value = { Values };

    ghost coded = { values_code };

    ghost view = { λ a. nested id_cmp nat_cmp a.tree };
}

impl Attrs {
    /// No attribute is set.
    pub fn new(alloc: Global) -> Attrs
        ensures { result ≡ empty }
    {
        Attrs {
            tree: BTreeMap::new(alloc),
        }
    }

    /// The values of an attribute, none where it isn't set.
    pub fn find(&self, e: &Id, f: u32) -> &[Value]
        ensures { result.now ≡ unwrap_or (get self.now (e.now, f)) [] }
    {
        match self.tree.get(e) {
            None => &[],
            Some(inner) => match inner.get(&f) {
                None => &[],
                Some(values) => values.as_slice(),
            },
        }
    }

    /// Whether the element has no value.
    pub fn is_bare(&self, e: &Id) -> bool
        ensures { result ≡ nat_eq (count (λ x. text_eq e.now x.0.0) self.now) 0 }
    {
        match self.tree.get(e) {
            None => true,
            Some(inner) => inner.is_empty(),
        }
    }

    /// Gives an attribute its values, in place of those that it has. The error is out of memory.
    pub fn put(
        &mut self,
        alloc: Global,
        e: Id,
        f: u32,
        values: List<Value>,
    ) -> Result<(), AllocError>
        ensures ok { OnOk result (self.new ≡ set self.old (e, f) (Some values)) }
        ensures err { OnErr result (self.new ≡ self.old) }
    {
        match self.tree.get_mut(&e) {
            Some(inner) => {
                drop(e);
                write_in(inner, f, values)
            }
            None => {
                let mut inner = BTreeMap::new(alloc);
                write_in(&mut inner, f, values)?;
                self.tree.insert(e, inner)?;
                Ok(())
            }
        }
    }

    /// Takes the values of an attribute away, where it is set.
    pub fn drop_at(&mut self, e: &Id, f: u32)
        ensures { self.new ≡ set self.old (e.now, f) None }
    {
        if let Some(inner) = self.tree.get_mut(e) {
            inner.remove(&f);
        }
    }
}
