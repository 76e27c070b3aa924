//! The upper bounds of plain references.
ghost use Rattle.std.specs.Prelude.{◌≡◌};
ghost use Rattle.finite_maps.specs.Maps.{is_below};
ghost use Rattle.model_state.specs.State.{row_count};
ghost use Rattle.model_state.specs.Typing.{row_upper};
ghost use Rattle.edit_steps.specs.References.{holds_one};

use ecore_meta::Metamodel;
use model_state::{Id, Look, is_below_bound, row_upper};

/// Whether a plain reference holds one target at most.
pub fn holds_one(meta: &Metamodel, f: u32) -> bool
    ensures { result ≡ holds_one meta.now f }
{
    match row_upper(meta, f) {
        None => false,
        Some(upper) => upper == 1,
    }
}

/// Whether the targets of a feature of an element have room for one more.
pub fn has_room_for<L: Look>(look: &L, meta: &Metamodel, a: &Id, f: u32) -> bool
    ensures { result ≡ is_below (row_count (L.state look.now) a.now f) (row_upper meta.now f) }
{
    is_below_bound(look.target_count(a, f), row_upper(meta, f))
}
