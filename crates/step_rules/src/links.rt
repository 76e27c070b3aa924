//! The rules of Link, Unlink and RerankRow, by which a reference and its opposite change together.
ghost use Rattle.std.specs.Prelude.{◌≡◌, OnOk, OnErr, IfErr, nat_eq};
ghost use Rattle.finite_maps.specs.Equal.{option_eq};
ghost use Rattle.model_state.specs.Steps.{Can, fault, apply, mirror_room, mirror_given, mirror_at};
ghost use Rattle.model_state.specs.Faults.{IsFault};
ghost use Rattle.model_state.specs.Good.{Good};
ghost use Rattle.model_state.specs.declared.step.Step.TheVariants.{Link, Unlink, RerankRow};

use crate::Write;
use crate::queries::is_rank;
use ecore_meta::Metamodel;
use model_state::{
    Id, StepFault, class_has, is_below_bound, is_plain, may_link, opposite_of, row_upper,
};

/// Whether the mirror's rank is given where it is to be.
fn is_mirror_given(opposite: Option<u32>, f: u32, rb: Option<u64>) -> bool
    ensures { result ≡ mirror_given opposite f rb }
{
    match opposite {
        None => rb.is_none(),
        Some(g) => rb.is_some() && !(g < f),
    }
}

/// Whether two ranks that may be missing are the same.
fn is_same_rank(x: Option<u64>, y: Option<u64>) -> bool
    ensures { result ≡ option_eq nat_eq x y }
{
    match y {
        None => x.is_none(),
        Some(y) => is_rank(x, y),
    }
}

/// Whether the opposite's list has room for one more.
fn has_room_there<S: Write>(model: &S, meta: &Metamodel, opposite: Option<u32>, b: &Id) -> bool
    ensures { result ≡ mirror_room meta.now (S.state model.now) opposite b.now }
{
    match opposite {
        None => true,
        Some(g) => is_below_bound(model.target_count(b, g), row_upper(meta, g)),
    }
}

/// Takes a step of the kind Link.
pub fn take_link<S: Write>(
    model: &mut S,
    meta: &Metamodel,
    a: &Id,
    f: u32,
    ra: u64,
    b: &Id,
    rb: Option<u64>,
) -> Result<(), StepFault>
    requires { Good meta.now (S.state model.old) }
    ensures can { OnOk result (Can meta.now (S.state model.old) (Link a.now f ra b.now rb)) }
    ensures done { OnOk result (S.state model.new ≡ apply meta.now (S.state model.old) (Link a.now f ra b.now rb)) }
    ensures cannot { IfErr result (λ e. IsFault (fault meta.now (S.state model.old) (Link a.now f ra b.now rb)) e) }
    ensures unchanged { OnErr result (S.state model.new ≡ S.state model.old) }
{
    if model.class(a).is_none() {
        return Err(StepFault::NotThere);
    }
    if model.class(b).is_none() {
        return Err(StepFault::NotThere);
    }
    if !may_link(meta, model.class(a), f, model.class(b)) {
        return Err(StepFault::WrongType);
    }
    let opposite = opposite_of(meta, f);
    if !is_mirror_given(opposite, f, rb) {
        return Err(StepFault::BadStep);
    }
    if model.row(a, f, b).is_some() {
        return Err(StepFault::There);
    }
    if !is_below_bound(model.target_count(a, f), row_upper(meta, f)) {
        return Err(StepFault::Bound);
    }
    if !has_room_there(model, meta, opposite, b) {
        return Err(StepFault::Bound);
    }
    match model.join(opposite, a, f, ra, b, rb) {
        Ok(()) => Ok(()),
        Err(_) => Err(StepFault::Memory),
    }
}

/// Whether the mirror has the rank.
fn mirror_has<S: Write>(model: &S, opposite: Option<u32>, a: &Id, b: &Id, rb: Option<u64>) -> bool
    ensures { result ≡ mirror_at (S.state model.now) opposite a.now b.now rb }
{
    match opposite {
        None => true,
        Some(g) => is_same_rank(model.row(b, g, a), rb),
    }
}

/// Takes a step of the kind Unlink.
pub fn take_unlink<S: Write>(
    model: &mut S,
    meta: &Metamodel,
    a: &Id,
    f: u32,
    ra: u64,
    b: &Id,
    rb: Option<u64>,
) -> Result<(), StepFault>
    requires { Good meta.now (S.state model.old) }
    ensures can { OnOk result (Can meta.now (S.state model.old) (Unlink a.now f ra b.now rb)) }
    ensures done { OnOk result (S.state model.new ≡ apply meta.now (S.state model.old) (Unlink a.now f ra b.now rb)) }
    ensures cannot { IfErr result (λ e. IsFault (fault meta.now (S.state model.old) (Unlink a.now f ra b.now rb)) e) }
    ensures unchanged { OnErr result (S.state model.new ≡ S.state model.old) }
{
    if model.class(a).is_none() {
        return Err(StepFault::NotThere);
    }
    if model.class(b).is_none() {
        return Err(StepFault::NotThere);
    }
    if !may_link(meta, model.class(a), f, model.class(b)) {
        return Err(StepFault::WrongType);
    }
    let opposite = opposite_of(meta, f);
    if !is_mirror_given(opposite, f, rb) {
        return Err(StepFault::BadStep);
    }
    if model.row(a, f, b).is_none() {
        return Err(StepFault::NotThere);
    }
    if !is_rank(model.row(a, f, b), ra) {
        return Err(StepFault::OldDiffers);
    }
    if !mirror_has(model, opposite, a, b, rb) {
        return Err(StepFault::OldDiffers);
    }
    match model.part(opposite, a, f, b) {
        Ok(()) => Ok(()),
        Err(_) => Err(StepFault::Memory),
    }
}

/// Takes a step of the kind RerankRow.
pub fn take_rerank_row<S: Write>(
    model: &mut S,
    meta: &Metamodel,
    a: &Id,
    f: u32,
    b: &Id,
    old: u64,
    new: u64,
) -> Result<(), StepFault>
    requires { Good meta.now (S.state model.old) }
    ensures can { OnOk result (Can meta.now (S.state model.old) (RerankRow a.now f b.now old new)) }
    ensures done { OnOk result (S.state model.new ≡ apply meta.now (S.state model.old) (RerankRow a.now f b.now old new)) }
    ensures cannot { IfErr result (λ e. IsFault (fault meta.now (S.state model.old) (RerankRow a.now f b.now old new)) e) }
    ensures unchanged { OnErr result (S.state model.new ≡ S.state model.old) }
{
    if model.class(a).is_none() {
        return Err(StepFault::NotThere);
    }
    if !class_has(meta, model.class(a), f) {
        return Err(StepFault::WrongType);
    }
    if !is_plain(meta, f) {
        return Err(StepFault::WrongType);
    }
    if model.row(a, f, b).is_none() {
        return Err(StepFault::NotThere);
    }
    if old == new {
        return Err(StepFault::BadStep);
    }
    if !is_rank(model.row(a, f, b), old) {
        return Err(StepFault::OldDiffers);
    }
    match model.rerank_row(a, f, b, new) {
        Ok(()) => Ok(()),
        Err(_) => Err(StepFault::Memory),
    }
}
