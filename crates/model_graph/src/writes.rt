//! The writes of one element of a graph.
ghost use Rattle.std.specs.Prelude.{◌≡◌, OnOk, OnErr, Some, None, IsSome, is_some, true};
ghost use Rattle.std.specs.FinMap.{get};
ghost use Rattle.finite_maps.specs.Maps.{set};
ghost use Rattle.spread_maps.specs.Spread.{inner};
ghost use Rattle.model_graph.specs.Seen.{Rewrites};

use ecore_meta::Value;
use graph_parts::Node;
use model_state::{Id, Placed};
use nodes::Nodes;
use std::alloc::{AllocError, Global};
use texts::List;

/// Writes the values of an attribute of the element.
pub fn put_attr(
    nodes: &mut Nodes<Node>,
    e: &Id,
    f: u32,
    values: List<Value>,
) -> Result<(), AllocError>
    requires { IsSome (get nodes.old e.now) }
    ensures ok { OnOk result (Rewrites nodes.old nodes.new e.now (λ n. record n { attrs = set n.attrs f (Some values) })) }
    ensures err { OnErr result (nodes.new ≡ nodes.old) }
{
    nodes.find_mut(e).attrs.put(f, values)
}

/// Takes the values of an attribute of the element away.
pub fn drop_attr(nodes: &mut Nodes<Node>, e: &Id, f: u32)
    requires { IsSome (get nodes.old e.now) }
    ensures { Rewrites nodes.old nodes.new e.now (λ n. record n { attrs = set n.attrs f None }) }
{
    nodes.find_mut(e).attrs.drop_at(f);
}

/// Gives a reference out of the element its rank.
pub fn put_out(
    alloc: Global,
    nodes: &mut Nodes<Node>,
    e: &Id,
    f: u32,
    x: Id,
    rank: u64,
) -> Result<(), AllocError>
    requires { IsSome (get nodes.old e.now) }
    ensures ok { OnOk result (Rewrites nodes.old nodes.new e.now (λ n. record n { out = set n.out (f, x) (Some rank) })) }
    ensures err { OnErr result (nodes.new ≡ nodes.old) }
{
    nodes.find_mut(e).out.put(alloc, f, x, rank)
}

/// Takes a reference out of the element away.
pub fn drop_out(nodes: &mut Nodes<Node>, e: &Id, f: u32, x: &Id)
    requires { IsSome (get nodes.old e.now) }
    ensures { Rewrites nodes.old nodes.new e.now (λ n. record n { out = set n.out (f, x.now) None }) }
{
    nodes.find_mut(e).out.drop_at(f, x);
}

/// Gives a reference to the element its rank.
pub fn put_into(
    nodes: &mut Nodes<Node>,
    e: &Id,
    key: (Id, u32),
    rank: u64,
) -> Result<(), AllocError>
    requires { IsSome (get nodes.old e.now) }
    ensures ok { OnOk result (Rewrites nodes.old nodes.new e.now (λ n. record n { into = set n.into key (Some rank) })) }
    ensures err { OnErr result (nodes.new ≡ nodes.old) }
{
    nodes.find_mut(e).into.put(key, rank)
}

/// Gives a reference to the element, one that is there, another rank.
pub fn rewrite_into(nodes: &mut Nodes<Node>, e: &Id, key: &(Id, u32), rank: u64)
    requires live { IsSome (get nodes.old e.now) }
    requires there { is_some (inner (λ n. n.into) (get nodes.old e.now) key.now) ≡ true }
    ensures { Rewrites nodes.old nodes.new e.now (λ n. record n { into = set n.into key.now (Some rank) }) }
{
    nodes.find_mut(e).into.rewrite(key, rank);
}

/// Takes a reference to the element away.
pub fn drop_into(nodes: &mut Nodes<Node>, e: &Id, key: &(Id, u32))
    requires { IsSome (get nodes.old e.now) }
    ensures { Rewrites nodes.old nodes.new e.now (λ n. record n { into = set n.into key.now None }) }
{
    nodes.find_mut(e).into.drop_at(key);
}

/// Gives an element inside the element its rank there.
pub fn put_inside(
    alloc: Global,
    nodes: &mut Nodes<Node>,
    e: &Id,
    f: u32,
    x: Id,
    rank: u64,
) -> Result<(), AllocError>
    requires { IsSome (get nodes.old e.now) }
    ensures ok { OnOk result (Rewrites nodes.old nodes.new e.now (λ n. record n { inside = set n.inside (f, x) (Some rank) })) }
    ensures err { OnErr result (nodes.new ≡ nodes.old) }
{
    nodes.find_mut(e).inside.put(alloc, f, x, rank)
}

/// Takes an element inside the element out of its list.
pub fn drop_inside(nodes: &mut Nodes<Node>, e: &Id, f: u32, x: &Id)
    requires { IsSome (get nodes.old e.now) }
    ensures { Rewrites nodes.old nodes.new e.now (λ n. record n { inside = set n.inside (f, x.now) None }) }
{
    nodes.find_mut(e).inside.drop_at(f, x);
}

/// Writes where the element stands.
pub fn write_placed(nodes: &mut Nodes<Node>, e: &Id, placed: Placed)
    requires { IsSome (get nodes.old e.now) }
    ensures { Rewrites nodes.old nodes.new e.now (λ n. record n { placed = placed }) }
{
    nodes.find_mut(e).placed = placed;
}
