//! The ids that a workspace gives to elements that are created without one.
ghost use Rattle.std.specs.Prelude.{◌≡◌, IfOk, OnOk, true};
ghost use Rattle.model_state.specs.Ident.{is_id};
ghost use Rattle.edits.specs.FreshIds.{numbered};

use model_state::{Id, IdFault};
use std::alloc::{AllocError, Global};

/// The id that a workspace gives to an element as its number `k`: `w`, the workspace's number, `n` and `k`, as `w1n7`.
///
/// # Errors
///
/// Out of memory.
pub fn numbered_id(alloc: Global, ws: u32, k: u64) -> Result<Id, AllocError>
    ensures id { IfOk result (λ id. id ≡ numbered ws k) }
    ensures form { OnOk result (is_id (numbered ws k) ≡ true) }
{
    let text = format!(in alloc; "w{ws}n{k}")?;
    match Id::read(alloc, text.as_str()) {
        Ok(id) => Ok(id),
        Err(IdFault::Bad) => unreachable!(),
        Err(IdFault::Memory) => Err(AllocError),
    }
}
