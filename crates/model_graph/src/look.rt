//! The queries of a graph.
ghost use Rattle.std.specs.Prelude.{◌≡◌, slice_get, unwrap_or};
ghost use Rattle.std.specs.Option.{option_copied};
ghost use Rattle.std.specs.FinMap.{get, empty};
ghost use Rattle.spread_maps.specs.Spread.{inner};
ghost use Rattle.model_state.specs.Keys.{IdBytes};
ghost use Rattle.model_state.specs.Listing.{children, targets};
ghost use Rattle.model_graph.specs.Seen.{standing};

use crate::Graph;
use crate::graph::rank_out;
use ecore_meta::Value;
use graph_parts::{Node, ValueList};
use model_state::{Entry, Id, Incoming, Look, Place, Placed};
use nodes::Nodes;
use ranked_lists::RankedList;
use std::alloc::{AllocError, Global};
use texts::List;

/// The targets of a feature of an element. `None` stands for an empty list.
fn targets_of<'a>(nodes: &'a Nodes<Node>, a: &Id, f: u32) -> Option<&'a RankedList>
    ensures { (b : IdBytes) → get (unwrap_or (option_copied result) empty) b ≡ inner (λ n. n.out) (get nodes.now a.now) (f, b) }
{
    match nodes.find(a) {
        None => None,
        Some(node) => node.out.group(f),
    }
}

/// The elements of a place. `None` stands for an empty list.
pub(crate) fn children_of<'a>(
    roots: &'a RankedList,
    nodes: &'a Nodes<Node>,
    place: &Place,
) -> Option<&'a RankedList>
    ensures { (x : IdBytes) → get (unwrap_or (option_copied result) empty) x ≡ standing roots.now nodes.now place.now x }
{
    match place {
        Place::Root => Some(roots),
        Place::Inside { parent, feature } => match nodes.find(parent) {
            None => None,
            Some(node) => node.inside.group(*feature),
        },
    }
}

impl Graph {
    /// The values of an attribute, `None` where it isn't set.
    fn values_of(&self, e: &Id, f: u32) -> Option<&ValueList>
        ensures { option_copied result ≡ get self.now.attr (e.now, f) }
    {
        match self.nodes.find(e) {
            None => None,
            Some(node) => node.attrs.find(f),
        }
    }
}

impl Look for Graph {
    ghost state = { λ g. g };

    fn class(&self, e: &Id) -> Option<u32> {
        match self.nodes.find(e) {
            None => None,
            Some(node) => Some(node.class),
        }
    }

    fn placed(&self, e: &Id) -> Option<&Placed> {
        match self.nodes.find(e) {
            None => None,
            Some(node) => Some(&node.placed),
        }
    }

    fn attr_len(&self, e: &Id, f: u32) -> usize {
        match self.values_of(e, f) {
            None => 0,
            Some(values) => values.len(),
        }
    }

    fn attr_at(&self, e: &Id, f: u32, at: usize) -> Option<&Value> {
        match self.values_of(e, f) {
            None => None,
            Some(values) => values.get(at),
        }
    }

    fn attr_has(&self, e: &Id, f: u32, v: &Value) -> bool {
        match self.values_of(e, f) {
            None => false,
            Some(values) => values.has(v),
        }
    }

    fn attr(&self, alloc: Global, e: &Id, f: u32) -> Result<List<Value>, AllocError> {
        match self.values_of(e, f) {
            None => Ok(List::new(alloc)),
            Some(values) => values.list(alloc),
        }
    }

    fn row(&self, a: &Id, f: u32, b: &Id) -> Option<u64> {
        rank_out(&self.nodes, a, f, b)
    }

    fn child_count(&self, place: &Place) -> usize {
        match children_of(&self.roots, &self.nodes, place) {
            None => 0,
            Some(group) => group.len(),
        }
    }

    fn target_count(&self, a: &Id, f: u32) -> usize {
        match targets_of(&self.nodes, a, f) {
            None => 0,
            Some(group) => group.len(),
        }
    }

    fn last_child(&self, place: &Place) -> Option<u64> {
        match children_of(&self.roots, &self.nodes, place) {
            None => None,
            Some(group) => group.last(),
        }
    }

    fn last_target(&self, a: &Id, f: u32) -> Option<u64> {
        match targets_of(&self.nodes, a, f) {
            None => None,
            Some(group) => group.last(),
        }
    }

    fn targets(&self, alloc: Global, a: &Id, f: u32) -> Result<List<Entry>, AllocError> {
        match targets_of(&self.nodes, a, f) {
            None => Ok(List::new(alloc)),
            Some(group) => group.list(alloc),
        }
    }

    fn children(&self, alloc: Global, place: &Place) -> Result<List<Entry>, AllocError> {
        match children_of(&self.roots, &self.nodes, place) {
            None => Ok(List::new(alloc)),
            Some(group) => group.list(alloc),
        }
    }

    fn incoming(&self, alloc: Global, b: &Id) -> Result<List<Incoming>, AllocError> {
        match self.nodes.find(b) {
            None => Ok(List::new(alloc)),
            Some(node) => node.into.list(alloc),
        }
    }

    fn ids(&self, alloc: Global) -> Result<List<Id>, AllocError> {
        self.nodes.ids(alloc)
    }
}

impl Graph {
    /// The element at an index of a place, with its rank; `None` past the last. This goes over the elements before it, or
    /// over those after it where they are fewer.
    pub fn child_at(&self, place: &Place, index: usize) -> Option<&Entry>
        ensures { option_copied result ≡ slice_get (children self.now.place self.now.prank place.now) index }
    {
        match children_of(&self.roots, &self.nodes, place) {
            None => None,
            Some(group) => group.entry_at(index),
        }
    }

    /// The target at an index of a feature of an element, with its rank; `None` past the last. This goes over the targets
    /// before it, or over those after it where they are fewer.
    pub fn target_at(&self, a: &Id, f: u32, index: usize) -> Option<&Entry>
        ensures { option_copied result ≡ slice_get (targets self.now.row a.now f) index }
    {
        match targets_of(&self.nodes, a, f) {
            None => None,
            Some(group) => group.entry_at(index),
        }
    }
}
