//! One element of a graph, with all that is kept beside it.
ghost use Rattle.std.specs.Prelude.{◌≡◌, IfOk};
ghost use Rattle.std.specs.FinMap.{empty};

use crate::attrs::Attrs;
use crate::feature_lists::FeatureLists;
use crate::incoming::IncomingReferences;
use model_state::Placed;
use std::alloc::{AllocError, Global};

/// An element: its class, where it stands, its values, the references that begin and those that end at it, and the
/// elements inside it.
#[derive(Drop)]
pub struct Node {
    pub class: u32,
    pub placed: Placed,
    pub attrs: Attrs,
    pub out: FeatureLists,
    pub into: IncomingReferences,
    pub inside: FeatureLists,
}

impl Node {
    /// An element that holds nothing. This takes no memory.
    pub fn bare(alloc: Global, class: u32, placed: Placed) -> Node
        ensures class { result.class ≡ class }
        ensures placed { result.placed ≡ placed }
        ensures attrs { result.attrs ≡ empty }
        ensures out { result.out ≡ empty }
        ensures into { result.into ≡ empty }
        ensures inside { result.inside ≡ empty }
    {
        Node {
            class,
            placed,
            attrs: Attrs::new(alloc),
            out: FeatureLists::new(alloc),
            into: IncomingReferences::new(alloc),
            inside: FeatureLists::new(alloc),
        }
    }

    /// The same element in memory of its own.
    pub fn copy(&self, alloc: Global) -> Result<Node, AllocError>
        ensures { IfOk result (λ n. n ≡ self.now) }
    {
        Ok(Node {
            class: self.class,
            placed: Placed {
                place: self.placed.place.copy(alloc)?,
                rank: self.placed.rank,
            },
            attrs: self.attrs.copy(alloc)?,
            out: self.out.copy(alloc)?,
            into: self.into.copy(alloc)?,
            inside: self.inside.copy(alloc)?,
        })
    }
}
