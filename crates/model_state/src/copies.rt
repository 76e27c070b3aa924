//! Copies of values and of steps, one function a kind of step that has several parts.
ghost use Rattle.std.specs.Prelude.{◌≡◌, IfOk};
ghost use Rattle.model_state.specs.declared.step.Step.TheVariants.{Put, Ins, Del, Shift, Link, Unlink, RerankRow, New, Gone, Move, RerankPlace};

use crate::{Id, Place, Step};
use ecore_meta::{Boxed, Value};
use std::alloc::{AllocError, Global};
use texts::List;

/// The same values in memory of their own, and in no more than they need.
pub fn copied_values(alloc: Global, values: &[Value]) -> Result<List<Value>, AllocError>
    ensures { IfOk result (λ l. l ≡ values.now) }
{
    let mut copy = Vec::with_capacity(alloc, values.len())?;
    for v in values {
        copy.push(v.copy(alloc)?)?;
    }
    Ok(List::from_vec(copy))
}

/// A copy of a value that may be missing.
pub fn copy_value(alloc: Global, v: &Option<Value>) -> Result<Option<Value>, AllocError>
    ensures { IfOk result (λ w. w ≡ v.now) }
{
    match v {
        None => Ok(None),
        Some(v) => Ok(Some(v.copy(alloc)?)),
    }
}

fn copy_ids(alloc: Global, ids: &List<Id>) -> Result<List<Id>, AllocError>
    ensures { IfOk result (λ w. w ≡ ids.now) }
{
    let mut copied = List::new(alloc);
    for id in ids.as_slice() {
        copied.push(id.copy(alloc)?)?;
    }
    Ok(copied)
}

fn copy_put(
    alloc: Global,
    e: &Id,
    f: u32,
    old: &Option<Value>,
    new: &Option<Value>,
) -> Result<Step, AllocError>
    ensures { IfOk result (λ s. s ≡ Put e.now f old.now new.now) }
{
    Ok(Step::Put {
        e: e.copy(alloc)?,
        f,
        old: copy_value(alloc, old)?,
        new: copy_value(alloc, new)?,
    })
}

fn copy_ins(alloc: Global, e: &Id, f: u32, at: u32, v: &Value) -> Result<Step, AllocError>
    ensures { IfOk result (λ s. s ≡ Ins e.now f at v.now) }
{
    Ok(Step::Ins {
        e: e.copy(alloc)?,
        f,
        at,
        v: v.copy(alloc)?,
    })
}

fn copy_del(alloc: Global, e: &Id, f: u32, at: u32, v: &Value) -> Result<Step, AllocError>
    ensures { IfOk result (λ s. s ≡ Del e.now f at v.now) }
{
    Ok(Step::Del {
        e: e.copy(alloc)?,
        f,
        at,
        v: v.copy(alloc)?,
    })
}

fn copy_shift(alloc: Global, e: &Id, f: u32, from: u32, to: u32) -> Result<Step, AllocError>
    ensures { IfOk result (λ s. s ≡ Shift e.now f from to) }
{
    Ok(Step::Shift {
        e: e.copy(alloc)?,
        f,
        from,
        to,
    })
}

fn copy_link(
    alloc: Global,
    a: &Id,
    f: u32,
    ra: u64,
    b: &Id,
    rb: Option<u64>,
) -> Result<Step, AllocError>
    ensures { IfOk result (λ s. s ≡ Link a.now f ra b.now rb) }
{
    Ok(Step::Link {
        a: a.copy(alloc)?,
        f,
        ra,
        b: b.copy(alloc)?,
        rb,
    })
}

fn copy_unlink(
    alloc: Global,
    a: &Id,
    f: u32,
    ra: u64,
    b: &Id,
    rb: Option<u64>,
) -> Result<Step, AllocError>
    ensures { IfOk result (λ s. s ≡ Unlink a.now f ra b.now rb) }
{
    Ok(Step::Unlink {
        a: a.copy(alloc)?,
        f,
        ra,
        b: b.copy(alloc)?,
        rb,
    })
}

fn copy_rerank_row(
    alloc: Global,
    a: &Id,
    f: u32,
    b: &Id,
    old: u64,
    new: u64,
) -> Result<Step, AllocError>
    ensures { IfOk result (λ s. s ≡ RerankRow a.now f b.now old new) }
{
    Ok(Step::RerankRow {
        a: a.copy(alloc)?,
        f,
        b: b.copy(alloc)?,
        old,
        new,
    })
}

fn copy_birth(
    alloc: Global,
    e: &Id,
    class: u32,
    place: &Place,
    rank: u64,
) -> Result<Step, AllocError>
    ensures { IfOk result (λ s. s ≡ New e.now class place.now rank) }
{
    Ok(Step::New {
        e: e.copy(alloc)?,
        class,
        place: place.copy(alloc)?,
        rank,
    })
}

fn copy_departure(
    alloc: Global,
    e: &Id,
    class: u32,
    place: &Place,
    rank: u64,
) -> Result<Step, AllocError>
    ensures { IfOk result (λ s. s ≡ Gone e.now class place.now rank) }
{
    Ok(Step::Gone {
        e: e.copy(alloc)?,
        class,
        place: place.copy(alloc)?,
        rank,
    })
}

fn copy_rerank_place(alloc: Global, e: &Id, old: u64, new: u64) -> Result<Step, AllocError>
    ensures { IfOk result (λ s. s ≡ RerankPlace e.now old new) }
{
    Ok(Step::RerankPlace {
        e: e.copy(alloc)?,
        old,
        new,
    })
}

fn copy_move(
    alloc: Global,
    e: &Id,
    from: &Place,
    from_rank: u64,
    to: &Place,
    to_rank: u64,
    above_from: &List<Id>,
    above_to: &List<Id>,
) -> Result<Step, AllocError>
    ensures { IfOk result (λ s. s ≡ Move e.now from.now from_rank to.now to_rank above_from.now above_to.now) }
{
    Ok(Step::Move {
        e: e.copy(alloc)?,
        from: Boxed::new(alloc, from.copy(alloc)?)?,
        from_rank,
        to: Boxed::new(alloc, to.copy(alloc)?)?,
        to_rank,
        above_from: Boxed::new(alloc, copy_ids(alloc, above_from)?)?,
        above_to: Boxed::new(alloc, copy_ids(alloc, above_to)?)?,
    })
}

impl Step {
    /// A copy of the step, with texts and lists of its own.
    pub fn copy(&self, alloc: Global) -> Result<Step, AllocError>
        ensures { IfOk result (λ s. s ≡ self.now) }
    {
        match self {
            Step::Put { e, f, old, new } => copy_put(alloc, e, *f, old, new),
            Step::Ins { e, f, at, v } => copy_ins(alloc, e, *f, *at, v),
            Step::Del { e, f, at, v } => copy_del(alloc, e, *f, *at, v),
            Step::Shift { e, f, from, to } => copy_shift(alloc, e, *f, *from, *to),
            Step::Link { a, f, ra, b, rb } => copy_link(alloc, a, *f, *ra, b, *rb),
            Step::Unlink { a, f, ra, b, rb } => copy_unlink(alloc, a, *f, *ra, b, *rb),
            Step::RerankRow { a, f, b, old, new } => copy_rerank_row(alloc, a, *f, b, *old, *new),
            Step::New {
                e,
                class,
                place,
                rank,
            } => copy_birth(alloc, e, *class, place, *rank),
            Step::Gone {
                e,
                class,
                place,
                rank,
            } => copy_departure(alloc, e, *class, place, *rank),
            Step::Move {
                e,
                from,
                from_rank,
                to,
                to_rank,
                above_from,
                above_to,
            } => copy_move(
                alloc,
                e,
                from.get(),
                *from_rank,
                to.get(),
                *to_rank,
                above_from.get(),
                above_to.get(),
            ),
            Step::RerankPlace { e, old, new } => copy_rerank_place(alloc, e, *old, *new),
        }
    }
}
