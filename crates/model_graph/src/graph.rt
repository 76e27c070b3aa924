//! The model over elements in slots, its copy, and the writes of its references.
ghost use Rattle.std.specs.Borrow.{sem};
ghost use Rattle.std.specs.Prelude.{◌≡◌, OnOk, OnErr, IfOk, cond, Some, None, true, IsSome, is_some, ◌&&◌};
ghost use Rattle.std.specs.FinMap.{get, empty, keys};
ghost use Rattle.std.specs.Ordering.{eq_by_cmp};
ghost use Rattle.finite_maps.specs.Maps.{set};
ghost use Rattle.spread_maps.specs.Spread.{inner};
ghost use Rattle.ecore_meta.specs.Meta.{Meta};
ghost use Rattle.model_state.specs.Good.{Good};
ghost use Rattle.model_state.specs.State.{nothing, is_live};
ghost use Rattle.model_state.specs.Keys.{IdBytes, id_cmp};
ghost use Rattle.model_graph.specs.Seen.{Rewrites, either_node};

use crate::writes::{drop_into, drop_out, put_into, put_out, rewrite_into};
use graph_parts::{Node, ValueList};
use model_state::Id;
use nodes::Nodes;
use ranked_lists::RankedList;
use std::alloc::{AllocError, Global};
use std::marker::Model;

/// A model over elements in slots, which contracts see as its state.
///
/// Beside each element stand its values by feature, and the references that begin at it by feature and target. Those
/// that end at it stand by source and feature, and the elements inside it by feature. The elements at the root are
/// listed beside all. So to find an element costs a look-up in a hash table. To find, write or take out a value costs a
/// search of the features that are set. To find, write or take out a reference or an element of a list, or to find the
/// last of one, costs more. It costs such a look-up, a search of the features that have a list, and logarithms. A
/// list's length is stored. To list costs a copy of what is listed.
#[derive(Drop)]
pub struct Graph {
    pub(crate) alloc: Global,
    pub(crate) roots: RankedList,
    pub(crate) nodes: Nodes<Node>,
}

impl Model for Graph {
    ghost use Rattle.model_state.specs.State.{State};
    ghost use Rattle.model_graph.specs.StateCode.{state_code};
    ghost use Rattle.model_graph.specs.Seen.{nodes_state, IsAtBothEnds, IsHoused};

    ghost Value = { State };

    ghost coded = { state_code };

    ghost view = { λ a. nodes_state a.nodes };

    ghost invariant = { λ a. IsAtBothEnds a.nodes × IsHoused a.roots a.nodes };
}

/// Gives a reference to an element the rank that it had before it was put in, or takes it out where it was new.
fn restore_into(nodes: &mut Nodes<Node>, b: &Id, key: &(Id, u32), old: Option<u64>)
    requires live { IsSome (get nodes.old b.now) }
    requires there { is_some (inner (λ n. n.into) (get nodes.old b.now) key.now) ≡ true }
    ensures { Rewrites nodes.old nodes.new b.now (λ n. record n { into = set n.into key.now old }) }
{
    match old {
        None => drop_into(nodes, b, key),
        Some(rank) => rewrite_into(nodes, b, key, rank),
    }
}

/// The rank of a reference to an element.
fn rank_into(nodes: &Nodes<Node>, b: &Id, key: &(Id, u32)) -> Option<u64>
    ensures { result ≡ inner (λ n. n.into) (get nodes.now b.now) key.now }
{
    match nodes.find(b) {
        None => None,
        Some(node) => node.into.rank(key),
    }
}

/// The rank of a reference out of an element.
pub(crate) fn rank_out(nodes: &Nodes<Node>, a: &Id, f: u32, b: &Id) -> Option<u64>
    ensures { result ≡ inner (λ n. n.out) (get nodes.now a.now) (f, b.now) }
{
    match nodes.find(a) {
        None => None,
        Some(node) => node.out.find(f, b),
    }
}

/// Copies the node of an id, where there is one that isn't copied yet.
fn copy_one(
    alloc: Global,
    copy: &mut Nodes<Node>,
    id: &Id,
    nodes: &Nodes<Node>,
) -> Result<(), AllocError>
    ensures { OnOk result ((q : IdBytes) → get copy.new q ≡ cond (eq_by_cmp id_cmp q id.now) (either_node (get copy.old q) (get nodes.now q)) (get copy.old q)) }
{
    if copy.find(id).is_some() {
        return Ok(());
    }
    match nodes.find(id) {
        None => Ok(()),
        Some(node) => {
            let key = id.copy(alloc)?;
            let node = node.copy(alloc)?;
            copy.put_new(key, node)
        }
    }
}

/// The same elements in memory of their own.
fn copied_nodes(alloc: Global, ids: &[Id], nodes: &Nodes<Node>) -> Result<Nodes<Node>, AllocError>
    requires { ids.now ≡ keys nodes.now }
    ensures { IfOk result (λ n. n ≡ nodes.now) }
{
    let mut copy = Nodes::new(alloc);
    for id in ids {
        copy_one(alloc, &mut copy, id, nodes)?;
    }
    Ok(copy)
}

impl Graph {
    ghost use Rattle.model_graph.specs.Lends.{lends_attr};

    /// The same model in memory of its own.
    pub fn copy(&self) -> Result<Graph, AllocError>
        ensures { IfOk result (λ g. g ≡ self.now) }
    {
        let ids = self.nodes.ids(self.alloc)?;
        Ok(Graph {
            alloc: self.alloc,
            roots: self.roots.copy(self.alloc)?,
            nodes: copied_nodes(self.alloc, ids.as_slice(), &self.nodes)?,
        })
    }

    /// The model without elements.
    pub fn new(alloc: Global) -> Graph
        ensures empty { result ≡ nothing }
        ensures good { (meta : Meta) → Good meta result }
    {
        Graph {
            alloc,
            roots: RankedList::new(alloc),
            nodes: Nodes::new(alloc),
        }
    }

    /// The values of an attribute that is set, to be changed where they stand. A caller leaves some, as an attribute without
    /// values isn't set.
    pub(crate) fn values_mut(&mut self, e: &Id, f: u32) -> &mut ValueList
        requires { IsSome (get self.old.attr (e.now, f)) }
        ensures* writes_back { sem 𝓛 (lends_attr self.entry e.now f result) }
        ensures value { get self.old.attr (e.now, f) ≡ Some result.now }
    {
        self.nodes.find_mut(e).attrs.find_mut(f)
    }

    /// Gives a reference its rank, a new reference or one that is there, at its source and at its target.
    pub(crate) fn put_row(&mut self, a: &Id, f: u32, b: &Id, rank: u64) -> Result<(), AllocError>
        requires source { is_live self.old a.now ≡ true }
        requires target { is_live self.old b.now ≡ true }
        ensures ok { OnOk result (self.new ≡ record self.old { row = set self.old.row (a.now, f, b.now) (Some rank) }) }
        ensures err { OnErr result (self.new ≡ self.old) }
    {
        let target = b.copy(self.alloc)?;
        let own = (a.copy(self.alloc)?, f);
        let key = (a.copy(self.alloc)?, f);
        let old = rank_into(&self.nodes, b, &key);
        put_into(&mut self.nodes, b, own, rank)?;
        match put_out(self.alloc, &mut self.nodes, a, f, target, rank) {
            Ok(()) => Ok(()),
            Err(error) => {
                restore_into(&mut self.nodes, b, &key, old);
                Err(error)
            }
        }
    }

    /// Takes a reference out, at its source and at its target. This takes no memory.
    pub(crate) fn drop_row(&mut self, a: &Id, f: u32, b: &Id, key: &(Id, u32))
        requires source { is_live self.old a.now ≡ true }
        requires target { is_live self.old b.now ≡ true }
        requires key { key.now ≡ (a.now, f) }
        ensures { self.new ≡ record self.old { row = set self.old.row (a.now, f, b.now) None } }
    {
        drop_into(&mut self.nodes, b, key);
        drop_out(&mut self.nodes, a, f, b);
    }
}
