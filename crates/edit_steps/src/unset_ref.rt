//! The removal of all targets of a reference, with their opposites.
ghost use Rattle.std.specs.Prelude.{◌≡◌, IfOk};
ghost use Rattle.edit_steps.specs.Rows.{unlinks};
ghost use Rattle.edit_steps.specs.References.{backwards, unset_made};

use crate::look_up::rank_of_mirror;
use crate::unlink::unlink_step;
use ecore_meta::Metamodel;
use model_state::{Entry, Id, Look, Step, opposite_of};
use std::alloc::{AllocError, Global};
use texts::List;

/// The unlinks of entries of a feature of an element, the last first.
fn unlinks_backwards<L: Look>(
    alloc: Global,
    look: &L,
    opposite: Option<u32>,
    a: &Id,
    f: u32,
    list: &[Entry],
) -> Result<List<Step>, AllocError>
    ensures { IfOk result (λ s. s ≡ unlinks (L.state look.now).row opposite a.now f (backwards list.now)) }
{
    let mut steps = List::new(alloc);
    for at in (0..list.len()).rev() {
        let x = &list[at];
        let rb = rank_of_mirror(look, opposite, a, &x.id);
        steps.push(unlink_step(alloc, opposite, a, f, x.rank, &x.id, rb)?)?;
    }
    Ok(steps)
}

/// The steps that take all references of a feature away, the last first, and their opposites with them; none where there is
/// none.
pub fn unset_ref_steps<L: Look>(
    alloc: Global,
    look: &L,
    meta: &Metamodel,
    a: &Id,
    f: u32,
) -> Result<List<Step>, AllocError>
    ensures made { IfOk result (λ s. s ≡ unset_made meta.now (L.state look.now).row a.now f) }
{
    let list = look.targets(alloc, a, f)?;
    unlinks_backwards(alloc, look, opposite_of(meta, f), a, f, list.as_slice())
}
