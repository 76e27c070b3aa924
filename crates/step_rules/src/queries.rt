//! Questions that several rules ask of a model.
ghost use Rattle.std.specs.Prelude.{◌≡◌, Some, nat_eq, slice_get};
ghost use Rattle.std.specs.FinMap.{get};
ghost use Rattle.finite_maps.specs.Equal.{option_eq};
ghost use Rattle.model_state.specs.Listing.{values_at};
ghost use Rattle.model_state.specs.State.{place_eq};
ghost use Rattle.model_state.specs.Steps.{place_live};
ghost use Rattle.model_state.specs.Typing.{value_eq};

use crate::Write;
use ecore_meta::Value;
use model_state::{Id, Place, is_same_value};

/// Whether a number that may be missing is just that one.
pub(crate) fn is_rank(x: Option<u64>, y: u64) -> bool
    ensures { result ≡ option_eq nat_eq x (Some y) }
{
    match x {
        None => false,
        Some(x) => x == y,
    }
}

/// Whether the value of an attribute at an index is that one.
pub(crate) fn has_at<S: Write>(model: &S, e: &Id, f: u32, at: usize, v: &Value) -> bool
    ensures { result ≡ option_eq value_eq (slice_get (values_at (S.state model.now) e.now f) at) (Some v.now) }
{
    match model.attr_at(e, f, at) {
        None => false,
        Some(x) => is_same_value(x, v),
    }
}

pub(crate) fn place_is_live<S: Write>(model: &S, place: &Place) -> bool
    ensures { result ≡ place_live (S.state model.now) place.now }
{
    match place {
        Place::Root => true,
        Place::Inside { parent, .. } => model.class(parent).is_some(),
    }
}

pub(crate) fn stands_in<S: Write>(model: &S, e: &Id, place: &Place) -> bool
    ensures { result ≡ option_eq place_eq (get (S.state model.now).place e.now) (Some place.now) }
{
    match model.placed(e) {
        None => false,
        Some(placed) => placed.place.is_same(place),
    }
}

pub(crate) fn stands_at<S: Write>(model: &S, e: &Id, rank: u64) -> bool
    ensures { result ≡ option_eq nat_eq (get (S.state model.now).prank e.now) (Some rank) }
{
    match model.placed(e) {
        None => false,
        Some(placed) => placed.rank == rank,
    }
}
