//! The insertion of a target into a list of references, with its opposite.
ghost use Rattle.std.specs.Prelude.{◌≡◌, true, false, IfOk, OnOk, IfErr, None, is_some, length, unwrap_or};
ghost use Rattle.std.specs.FinMap.{get};
ghost use Rattle.model_state.specs.Good.{Good};
ghost use Rattle.model_state.specs.Listing.{targets};
ghost use Rattle.edit_steps.specs.Rows.{link_step};
ghost use Rattle.edit_steps.specs.References.{holds_one, link_made};
ghost use Rattle.edit_steps.specs.Refusals.{first_refusal, link_index, link_refusal};
ghost use Rattle.edit_steps.specs.LinkRefusals.{IsReference, IsLinkRefusal, list_tests};

use crate::LinkFault;
use crate::bounds::has_room_for;
use crate::entering::enter;
use crate::there::{displace, enter_there};
use ecore_meta::Metamodel;
use model_state::{Id, Look, Step, may_link, opposite_of};
use std::alloc::{AllocError, Global};
use texts::List;

/// The link of a row and its mirror, written from the side whose feature has the lesser number.
pub fn link_step(
    alloc: Global,
    opposite: Option<u32>,
    a: &Id,
    f: u32,
    ra: u64,
    b: &Id,
    rb: u64,
) -> Result<Step, AllocError>
    ensures { IfOk result (λ s. s ≡ link_step opposite a.now f ra b.now rb) }
{
    let a = a.copy(alloc)?;
    let b = b.copy(alloc)?;
    match opposite {
        None => Ok(Step::Link {
            a,
            f,
            ra,
            b,
            rb: None,
        }),
        Some(g) => {
            if g < f {
                Ok(Step::Link {
                    a: b,
                    f: g,
                    ra: rb,
                    b: a,
                    rb: Some(ra),
                })
            } else {
                Ok(Step::Link {
                    a,
                    f,
                    ra,
                    b,
                    rb: Some(rb),
                })
            }
        }
    }
}

/// The index, that after the last of n entries where none is given.
pub fn index_or_end(at: Option<u32>, n: usize) -> usize
    ensures { result ≡ unwrap_or at n }
{
    match at {
        None => n,
        Some(at) => at as usize,
    }
}

/// The steps that link two elements that aren't linked. Refused with NoEntry before Bound.
fn link<L: Look>(
    alloc: Global,
    look: &L,
    meta: &Metamodel,
    a: &Id,
    f: u32,
    b: &Id,
    at: Option<u32>,
) -> Result<List<Step>, LinkFault>
    ensures made { IfOk result (λ s. s ≡ link_made meta.now (L.state look.now).row a.now f b.now (link_index (L.state look.now) a.now f at)) }
    ensures taken { OnOk result (first_refusal (list_tests meta.now (L.state look.now) a.now f b.now (link_index (L.state look.now) a.now f at)) ≡ None) }
    ensures refused { IfErr result (λ e. IsLinkRefusal (first_refusal (list_tests meta.now (L.state look.now) a.now f b.now (link_index (L.state look.now) a.now f at))) e) }
{
    let opposite = opposite_of(meta, f);
    let mut steps = List::new(alloc);
    displace(alloc, look, meta, opposite, f, b, &mut steps)?;
    let here = enter(alloc, look, a, f, at, &mut steps)?;
    if !has_room_for(look, meta, a, f) {
        return Err(LinkFault::Bound);
    }
    let there = enter_there(alloc, look, meta, opposite, b, &mut steps)?;
    steps.push(link_step(alloc, opposite, a, f, here, b, there)?)?;
    Ok(steps)
}

/// The steps that link two elements by a reference whose upper bound isn't 1, at an index or last.
///
/// The source that an opposite of upper bound 1 displaces is unlinked. Both lists are renumbered where there is no
/// room. Then the two are linked. Refused with WrongType, AlreadyThere, NoEntry and Bound, in this order.
pub fn link_steps<L: Look>(
    alloc: Global,
    look: &L,
    meta: &Metamodel,
    a: &Id,
    f: u32,
    b: &Id,
    at: Option<u32>,
) -> Result<List<Step>, LinkFault>
    requires good { Good meta.now (L.state look.now) }
    requires reference { IsReference meta.now (L.state look.now) a.now f }
    requires many { holds_one meta.now f ≡ false }
    requires target { is_some (get (L.state look.now).kind b.now) ≡ true }
    ensures made { IfOk result (λ s. s ≡ link_made meta.now (L.state look.now).row a.now f b.now (unwrap_or at (length (targets (L.state look.now).row a.now f)))) }
    ensures taken { OnOk result (link_refusal meta.now (L.state look.now) a.now f b.now at ≡ None) }
    ensures refused { IfErr result (λ e. IsLinkRefusal (link_refusal meta.now (L.state look.now) a.now f b.now at) e) }
{
    if !may_link(meta, look.class(a), f, look.class(b)) {
        return Err(LinkFault::WrongType);
    }
    if look.row(a, f, b).is_some() {
        return Err(LinkFault::AlreadyThere);
    }
    link(alloc, look, meta, a, f, b, at)
}
