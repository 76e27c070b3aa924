//! The side of the opposite: the entry that a link displaces there, and the rank that it gets.
ghost use Rattle.std.specs.Prelude.{◌≡◌, true, ◌++◌, IfOk, OnOk, IfErr, Some, is_some, ◌&&◌};
ghost use Rattle.edit_steps.specs.References.{reranks_there, rank_there, room_there, displace};
ghost use Rattle.edit_steps.specs.LinkRefusals.{IsFull};

use crate::LinkFault;
use crate::bounds::{has_room_for, holds_one};
use crate::entering::enter_last;
use crate::unlink::unlinks;
use ecore_meta::Metamodel;
use model_state::{Id, Look, RANK_GAP, Step};
use std::alloc::{AllocError, Global};
use texts::List;

/// Whether the opposite's list has room, once the entry that it displaces is removed.
fn has_room_there<L: Look>(look: &L, meta: &Metamodel, opposite: Option<u32>, b: &Id) -> bool
    ensures { result ≡ room_there meta.now (L.state look.now) opposite b.now }
{
    match opposite {
        None => true,
        Some(g) => {
            if holds_one(meta, g) {
                true
            } else {
                has_room_for(look, meta, b, g)
            }
        }
    }
}

/// The rank at the end of the opposite's list, with its renumbering where no rank is free there.
fn rank_there<L: Look>(
    alloc: Global,
    look: &L,
    meta: &Metamodel,
    opposite: Option<u32>,
    b: &Id,
    steps: &mut List<Step>,
) -> Result<u64, LinkFault>
    ensures steps { OnOk result (steps.new ≡ steps.old ++ reranks_there meta.now (L.state look.now).row opposite b.now) }
    ensures rank { IfOk result (λ r. rank_there meta.now (L.state look.now).row opposite b.now ≡ Some r) }
    ensures full { IfErr result (λ e. IsFull (is_some (rank_there meta.now (L.state look.now).row opposite b.now)) e) }
{
    match opposite {
        None => Ok(RANK_GAP),
        Some(g) => {
            if holds_one(meta, g) {
                Ok(RANK_GAP)
            } else {
                enter_last(alloc, look, b, g, steps)
            }
        }
    }
}

/// The rank that a reference gets at the end of the opposite's list, with the renumbering of that list where no rank is
/// free there. Refused with Bound where the list takes no more.
pub fn enter_there<L: Look>(
    alloc: Global,
    look: &L,
    meta: &Metamodel,
    opposite: Option<u32>,
    b: &Id,
    steps: &mut List<Step>,
) -> Result<u64, LinkFault>
    ensures room { OnOk result (room_there meta.now (L.state look.now) opposite b.now ≡ true) }
    ensures steps { OnOk result (steps.new ≡ steps.old ++ reranks_there meta.now (L.state look.now).row opposite b.now) }
    ensures rank { IfOk result (λ r. rank_there meta.now (L.state look.now).row opposite b.now ≡ Some r) }
    ensures full { IfErr result (λ e. IsFull (room_there meta.now (L.state look.now) opposite b.now && is_some (rank_there meta.now (L.state look.now).row opposite b.now)) e) }
{
    if !has_room_there(look, meta, opposite, b) {
        return Err(LinkFault::Bound);
    }
    rank_there(alloc, look, meta, opposite, b, steps)
}

/// The unlinks of the entry that the opposite's list displaces.
pub fn displace<L: Look>(
    alloc: Global,
    look: &L,
    meta: &Metamodel,
    opposite: Option<u32>,
    f: u32,
    b: &Id,
    steps: &mut List<Step>,
) -> Result<(), AllocError>
    ensures { OnOk result (steps.new ≡ steps.old ++ displace meta.now (L.state look.now).row opposite f b.now) }
{
    match opposite {
        None => Ok(()),
        Some(g) => {
            if holds_one(meta, g) {
                let list = look.targets(alloc, b, g)?;
                unlinks(alloc, look, Some(f), b, g, list.as_slice(), steps)
            } else {
                Ok(())
            }
        }
    }
}
