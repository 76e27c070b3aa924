//! The writes of the list of a place.
ghost use Rattle.std.specs.Prelude.{◌≡◌, OnOk, OnErr, Some, None};
ghost use Rattle.model_graph.specs.Seen.{IsPlaceThere, IsListWritten};

use crate::writes::{drop_inside, put_inside};
use graph_parts::Node;
use model_state::{Id, Place};
use nodes::Nodes;
use ranked_lists::RankedList;
use std::alloc::{AllocError, Global};

/// Gives an element its rank in the list of a place, a new element or one that is there.
pub fn list_in(
    alloc: Global,
    roots: &mut RankedList,
    nodes: &mut Nodes<Node>,
    place: &Place,
    e: Id,
    rank: u64,
) -> Result<(), AllocError>
    requires { IsPlaceThere nodes.old place.now }
    ensures ok { OnOk result (IsListWritten place.now e (Some rank) roots.old nodes.old roots.new nodes.new) }
    ensures roots { OnErr result (roots.new ≡ roots.old) }
    ensures nodes { OnErr result (nodes.new ≡ nodes.old) }
{
    match place {
        Place::Root => roots.put(alloc, e, rank),
        Place::Inside { parent, feature } => put_inside(alloc, nodes, parent, *feature, e, rank),
    }
}

/// Takes an element out of the list of a place.
pub fn list_out(roots: &mut RankedList, nodes: &mut Nodes<Node>, place: &Place, e: &Id)
    requires { IsPlaceThere nodes.old place.now }
    ensures { IsListWritten place.now e.now None roots.old nodes.old roots.new nodes.new }
{
    match place {
        Place::Root => roots.drop_at(e),
        Place::Inside { parent, feature } => {
            drop_inside(nodes, parent, *feature, e);
        }
    }
}
