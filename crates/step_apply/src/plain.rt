//! The model over ordered maps, and its implementation of the trait `Look`.
ghost use Rattle.std.specs.Prelude.{◌≡◌};
ghost use Rattle.ecore_meta.specs.Meta.{Meta};
ghost use Rattle.model_state.specs.State.{nothing};
ghost use Rattle.model_state.specs.Good.{Good};
ghost use Rattle.step_apply.specs.View.{plain_state};

use crate::attrs::Attrs;
use crate::kinds::Kinds;
use crate::places::Places;
use crate::rows::Rows;
use ecore_meta::Value;
use model_state::{Entry, Id, Incoming, Look, Place, Placed, contains, copied_values};
use std::alloc::{AllocError, Global};
use texts::List;

/// A model over ordered maps: classes, places with ranks, values of attributes, and references, with indexes of places and
/// references.
#[derive(Drop)]
pub struct Plain {
    pub(crate) alloc: Global,
    pub(crate) kinds: Kinds,
    pub(crate) places: Places,
    pub(crate) attrs: Attrs,
    pub(crate) rows: Rows,
}

impl Plain {
    /// The model without elements.
    pub fn new(alloc: Global) -> Plain
        ensures empty { plain_state result ≡ nothing }
        ensures good { (meta : Meta) → Good meta (plain_state result) }
    {
        Plain {
            alloc,
            kinds: Kinds::new(alloc),
            places: Places::new(alloc),
            attrs: Attrs::new(alloc),
            rows: Rows::new(alloc),
        }
    }
}

impl Look for Plain {
    ghost state = { plain_state };

    fn class(&self, e: &Id) -> Option<u32> {
        self.kinds.find(e)
    }

    fn placed(&self, e: &Id) -> Option<&Placed> {
        self.places.find(e)
    }

    fn attr_len(&self, e: &Id, f: u32) -> usize {
        self.attrs.find(e, f).len()
    }

    fn attr_at(&self, e: &Id, f: u32, at: usize) -> Option<&Value> {
        self.attrs.find(e, f).get(at)
    }

    fn attr_has(&self, e: &Id, f: u32, v: &Value) -> bool {
        contains(self.attrs.find(e, f), v)
    }

    fn attr(&self, alloc: Global, e: &Id, f: u32) -> Result<List<Value>, AllocError> {
        copied_values(alloc, self.attrs.find(e, f))
    }

    fn row(&self, a: &Id, f: u32, b: &Id) -> Option<u64> {
        self.rows.rank(a, f, b)
    }

    fn child_count(&self, place: &Place) -> usize {
        self.places.count_at(place)
    }

    fn target_count(&self, a: &Id, f: u32) -> usize {
        self.rows.count_of(a, f)
    }

    fn last_child(&self, place: &Place) -> Option<u64> {
        self.places.last_child(place)
    }

    fn last_target(&self, a: &Id, f: u32) -> Option<u64> {
        self.rows.last_target(a, f)
    }

    fn targets(&self, alloc: Global, a: &Id, f: u32) -> Result<List<Entry>, AllocError> {
        self.rows.targets(alloc, a, f)
    }

    fn children(&self, alloc: Global, place: &Place) -> Result<List<Entry>, AllocError> {
        self.places.children(alloc, place)
    }

    fn incoming(&self, alloc: Global, b: &Id) -> Result<List<Incoming>, AllocError> {
        self.rows.incoming(alloc, b)
    }

    fn ids(&self, alloc: Global) -> Result<List<Id>, AllocError> {
        self.kinds.ids(alloc)
    }
}
