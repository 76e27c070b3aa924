//! The tests of a place: whether it takes a class, and whether its upper bound lets one more in.
ghost use Rattle.std.specs.Prelude.{◌≡◌};
ghost use Rattle.model_state.specs.Steps.{has_room, may_move, may_stand};

use crate::{Look, Place, child_upper, class_has, is_below_bound, may_contain};
use ecore_meta::Metamodel;

/// Whether an element of the class may stand in the place.
pub fn may_stand<L: Look>(look: &L, meta: &Metamodel, class: u32, place: &Place) -> bool
    ensures { result ≡ may_stand meta.now (L.state look.now) class place.now }
{
    match place {
        Place::Root => true,
        Place::Inside { parent, feature } => {
            class_has(meta, look.class(parent), *feature) && may_contain(meta, *feature, class)
        }
    }
}

/// Whether an element of the class, where it has one, may stand in the place.
pub fn may_move<L: Look>(look: &L, meta: &Metamodel, class: Option<u32>, place: &Place) -> bool
    ensures { result ≡ may_move meta.now (L.state look.now) class place.now }
{
    match class {
        None => false,
        Some(class) => may_stand(look, meta, class, place),
    }
}

/// Whether the place has room for one more than the elements there.
pub fn has_room<L: Look>(look: &L, meta: &Metamodel, place: &Place) -> bool
    ensures { result ≡ has_room meta.now (L.state look.now) place.now }
{
    match place {
        Place::Root => true,
        Place::Inside { feature, .. } => {
            is_below_bound(look.child_count(place), child_upper(meta, *feature))
        }
    }
}
