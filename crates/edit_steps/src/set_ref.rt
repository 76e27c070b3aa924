//! The assignment of a reference of upper bound 1, which displaces its old target.
ghost use Rattle.std.specs.Prelude.{◌≡◌, true, ◌++◌, ◌∷◌, [], IfOk, OnOk, IfErr, None, is_some, unwrap_or};
ghost use Rattle.std.specs.FinMap.{get};
ghost use Rattle.model_state.specs.Good.{Good};
ghost use Rattle.model_state.specs.Typing.{opposite_of};
ghost use Rattle.model_state.specs.Listing.{targets};
ghost use Rattle.edit_steps.specs.Rows.{link_step, unlinks};
ghost use Rattle.edit_steps.specs.References.{holds_one, set_ref_made, displace, rank_there, reranks_there};
ghost use Rattle.edit_steps.specs.Refusals.{first_refusal, set_ref_refusal};
ghost use Rattle.edit_steps.specs.LinkRefusals.{IsReference, IsLinkRefusal, mirror_tests};
ghost use Rattle.model_state.specs.Ranks.{rank_gap};

use crate::LinkFault;
use crate::link::link_step;
use crate::there::{displace, enter_there};
use crate::unlink::unlinks;
use ecore_meta::Metamodel;
use model_state::{Id, Look, RANK_GAP, Step, may_link, opposite_of};
use std::alloc::Global;
use texts::List;

/// The steps that set a reference that isn't there. Refused with Bound.
fn set_ref<L: Look>(
    alloc: Global,
    look: &L,
    meta: &Metamodel,
    a: &Id,
    f: u32,
    b: &Id,
) -> Result<List<Step>, LinkFault>
    ensures made { IfOk result (λ s. s ≡ unlinks (L.state look.now).row (opposite_of meta.now f) a.now f (targets (L.state look.now).row a.now f) ++ (displace meta.now (L.state look.now).row (opposite_of meta.now f) f b.now ++ (reranks_there meta.now (L.state look.now).row (opposite_of meta.now f) b.now ++ link_step (opposite_of meta.now f) a.now f rank_gap b.now (unwrap_or (rank_there meta.now (L.state look.now).row (opposite_of meta.now f) b.now) 0) ∷ []))) }
    ensures taken { OnOk result (first_refusal (mirror_tests meta.now (L.state look.now) (opposite_of meta.now f) b.now) ≡ None) }
    ensures refused { IfErr result (λ e. IsLinkRefusal (first_refusal (mirror_tests meta.now (L.state look.now) (opposite_of meta.now f) b.now)) e) }
{
    let opposite = opposite_of(meta, f);
    let mut steps = List::new(alloc);
    let mine = look.targets(alloc, a, f)?;
    unlinks(alloc, look, opposite, a, f, mine.as_slice(), &mut steps)?;
    displace(alloc, look, meta, opposite, f, b, &mut steps)?;
    let there = enter_there(alloc, look, meta, opposite, b, &mut steps)?;
    steps.push(link_step(alloc, opposite, a, f, RANK_GAP, b, there)?)?;
    Ok(steps)
}

/// The steps that set a reference of upper bound 1 to an element, none where it refers to it already.
///
/// The old target is unlinked, and so is the source that an opposite of upper bound 1 displaces. An opposite of a
/// greater one is renumbered where there is no room at its end. Then the two are linked, the target with the rank
/// `RANK_GAP`. Refused with WrongType before Bound.
pub fn set_ref_steps<L: Look>(
    alloc: Global,
    look: &L,
    meta: &Metamodel,
    a: &Id,
    f: u32,
    b: &Id,
) -> Result<List<Step>, LinkFault>
    requires good { Good meta.now (L.state look.now) }
    requires reference { IsReference meta.now (L.state look.now) a.now f }
    requires one { holds_one meta.now f ≡ true }
    requires target { is_some (get (L.state look.now).kind b.now) ≡ true }
    ensures made { IfOk result (λ s. s ≡ set_ref_made meta.now (L.state look.now).row a.now f b.now) }
    ensures taken { OnOk result (set_ref_refusal meta.now (L.state look.now) a.now f b.now ≡ None) }
    ensures refused { IfErr result (λ e. IsLinkRefusal (set_ref_refusal meta.now (L.state look.now) a.now f b.now) e) }
{
    if !may_link(meta, look.class(a), f, look.class(b)) {
        return Err(LinkFault::WrongType);
    }
    if look.row(a, f, b).is_some() {
        return Ok(List::new(alloc));
    }
    set_ref(alloc, look, meta, a, f, b)
}
