//! The values of an element's attributes.
ghost use Rattle.std.specs.Prelude.{◌≡◌, ℕ, List, Some, None, OnOk, OnErr, IfOk, IsSome, nat_eq, position};
ghost use Rattle.std.specs.Borrow.{sem};
ghost use Rattle.std.specs.Option.{option_copied};
ghost use Rattle.std.specs.FinMap.{get, empty};
ghost use Rattle.finite_maps.specs.Maps.{set};
ghost use Rattle.spread_maps.specs.Spread.{is_bare};
ghost use Rattle.ecore_meta.specs.declared.meta.Value.{Value};
ghost use Rattle.graph_parts.specs.Parts.{flat};

use crate::by_feature::{add, index_of, without};
use crate::copies::copied_attrs;
use crate::value_list::ValueList;
use ecore_meta::Value;
use std::alloc::{AllocError, Global};
use std::marker::Model;
use texts::List;

/// The values of an element's attributes that are set, by feature. An element has few, so they stand in one vector. It is
/// searched from its beginning, and makes room for one attribute at a time.
#[derive(Drop)]
pub struct Attrs {
    items: Vec<(u32, ValueList)>,
}

impl Model for Attrs {
    ghost use Rattle.graph_parts.specs.Parts.{Values, values_code, flat};

    ghost Value = { Values };

    ghost coded = { values_code };

    ghost view = { λ a. flat a.items.items };
}

/// Gives the attribute at an index other values. This takes no memory.
fn write_at(items: &mut Vec<(u32, ValueList)>, f: u32, at: usize, values: List<Value>)
    requires { position (λ (e : ℕ × List Value). nat_eq e.0 f) items.old.items ≡ Some at }
    ensures { flat items.new.items ≡ set (flat items.old.items) f (Some values) }
{
    items[at] = (f, ValueList::from_list(values));
}

impl Attrs {
    ghost use Rattle.graph_parts.specs.Lends.{lends_values};

    /// No attribute is set.
    pub fn new(alloc: Global) -> Attrs
        ensures { result ≡ empty }
    {
        Attrs {
            items: Vec::new(alloc),
        }
    }

    /// The values of an attribute, `None` where it isn't set.
    pub fn find(&self, f: u32) -> Option<&ValueList>
        ensures { option_copied result ≡ get self.now f }
    {
        match index_of(self.items.as_slice(), f) {
            None => None,
            Some(at) => Some(&self.items[at].1),
        }
    }

    /// The same in memory of its own.
    pub fn copy(&self, alloc: Global) -> Result<Attrs, AllocError>
        ensures { IfOk result (λ x. x ≡ self.now) }
    {
        Ok(Attrs {
            items: copied_attrs(alloc, self.items.as_slice())?,
        })
    }

    /// Whether no attribute is set.
    pub fn is_empty(&self) -> bool
        ensures { result ≡ is_bare self.now }
    {
        self.items.len() == 0
    }

    /// Gives an attribute its values, in place of those that it has. Only one that isn't set takes memory. The error is out
    /// of memory.
    pub fn put(&mut self, f: u32, values: List<Value>) -> Result<(), AllocError>
        ensures ok { OnOk result (self.new ≡ set self.old f (Some values)) }
        ensures err { OnErr result (self.new ≡ self.old) }
    {
        match index_of(self.items.as_slice(), f) {
            None => add(&mut self.items, f, ValueList::from_list(values)),
            Some(at) => {
                write_at(&mut self.items, f, at, values);
                Ok(())
            }
        }
    }

    /// The values of an attribute that is set, to be changed where they stand. An attribute without values isn't set, so
    /// a caller leaves some.
    pub fn find_mut(&mut self, f: u32) -> &mut ValueList
        requires { IsSome (get self.old f) }
        ensures* writes_back { sem 𝓛 (lends_values self.entry f result) }
        ensures value { get self.old f ≡ Some result.now }
    {
        let at = match index_of(self.items.as_slice(), f) {
            Some(at) => at,
            None => unreachable!(),
        };
        &mut self.items[at].1
    }

    /// Takes the values of an attribute away, where it is set.
    pub fn drop_at(&mut self, f: u32)
        ensures { self.new ≡ set self.old f None }
    {
        without(&mut self.items, f);
    }
}
