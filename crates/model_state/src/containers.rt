//! The chain of containers of a place, up to the root.
ghost use Rattle.std.specs.Prelude.{IfOk, List, Some};
ghost use Rattle.model_state.specs.Keys.{IdBytes};
ghost use Rattle.model_state.specs.Chains.{IsChain};

use crate::{Id, Look, Place};
use std::alloc::{AllocError, Global};
use texts::List;

/// The containers of a place, the innermost first, up to the root.
pub fn chain<L: Look>(alloc: Global, look: &L, place: &Place) -> Result<List<Id>, AllocError>
    requires ends { (xs : List IdBytes) × IsChain (L.state look.now).place (Some place.now) xs }
    ensures chain { IfOk result (λ l. IsChain (L.state look.now).place (Some place.now) l) }
{
    let mut above = List::new(alloc);
    let mut next = place;
    for _ in 0..u64::MAX {
        let Some(container) = next.parent() else {
            return Ok(above);
        };
        above.push(container.copy(alloc)?)?;
        let Some(placed) = look.placed(container) else {
            return Ok(above);
        };
        next = &placed.place;
    }
    // No memory holds so many ids.
    Err(AllocError)
}
