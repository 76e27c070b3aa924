//! The first id of a workspace that no live element has.
ghost use Rattle.std.specs.Prelude.{◌≡◌, IfOk, OnOk, true};
ghost use Rattle.model_state.specs.Ident.{is_id};
ghost use Rattle.edits.specs.FreshIds.{fresh_id};

use edits::numbered_id;
use model_state::{Id, Look};
use std::alloc::{AllocError, Global};

/// The first of a workspace's ids from the number 1 on that is not live.
pub fn fresh_id<L: Look>(alloc: Global, look: &L, ws: u32) -> Result<Id, AllocError>
    ensures id { IfOk result (λ id. id ≡ fresh_id (L.state look.now) ws) }
    ensures form { OnOk result (is_id (fresh_id (L.state look.now) ws) ≡ true) }
{
    for k in 1..u64::MAX {
        let id = numbered_id(alloc, ws, k)?;
        if look.class(&id).is_none() {
            return Ok(id);
        }
    }
    // No memory holds so many elements.
    Err(AllocError)
}
