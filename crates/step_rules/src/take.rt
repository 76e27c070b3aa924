//! Any step: the rule of its kind.
ghost use Rattle.std.specs.Prelude.{◌≡◌, OnOk, OnErr, IfErr};
ghost use Rattle.model_state.specs.Steps.{Can, fault, apply};
ghost use Rattle.model_state.specs.Faults.{IsFault};
ghost use Rattle.model_state.specs.Good.{Good};

use crate::Write;
use crate::births::{take_gone, take_new};
use crate::links::{take_link, take_rerank_row, take_unlink};
use crate::many::{take_del, take_ins, take_shift};
use crate::moves::{take_move, take_rerank_place};
use crate::values::take_put;
use ecore_meta::Metamodel;
use model_state::{Step, StepFault};
use std::alloc::Global;

/// Takes the step, or names the first of its tests that fails.
pub fn take_step<S: Write>(
    model: &mut S,
    alloc: Global,
    meta: &Metamodel,
    step: &Step,
) -> Result<(), StepFault>
    requires good { Good meta.now (S.state model.old) }
    ensures can { OnOk result (Can meta.now (S.state model.old) step.now) }
    ensures done { OnOk result (S.state model.new ≡ apply meta.now (S.state model.old) step.now) }
    ensures cannot { IfErr result (λ e. IsFault (fault meta.now (S.state model.old) step.now) e) }
    ensures unchanged { OnErr result (S.state model.new ≡ S.state model.old) }
{
    match step {
        Step::Put { e, f, old, new } => take_put(model, alloc, meta, e, *f, old, new),
        Step::Ins { e, f, at, v } => take_ins(model, alloc, meta, e, *f, *at, v),
        Step::Del { e, f, at, v } => take_del(model, alloc, meta, e, *f, *at, v),
        Step::Shift { e, f, from, to } => take_shift(model, alloc, meta, e, *f, *from, *to),
        Step::Link { a, f, ra, b, rb } => take_link(model, meta, a, *f, *ra, b, *rb),
        Step::Unlink { a, f, ra, b, rb } => take_unlink(model, meta, a, *f, *ra, b, *rb),
        Step::RerankRow { a, f, b, old, new } => {
            take_rerank_row(model, meta, a, *f, b, *old, *new)
        }
        Step::New {
            e,
            class,
            place,
            rank,
        } => take_new(model, meta, e, *class, place, *rank),
        Step::Gone {
            e,
            class,
            place,
            rank,
        } => take_gone(model, meta, e, *class, place, *rank),
        Step::Move {
            e,
            from,
            from_rank,
            to,
            to_rank,
            above_from,
            above_to,
        } => take_move(
            model,
            meta,
            e,
            from.get(),
            *from_rank,
            to.get(),
            *to_rank,
            above_from.get(),
            above_to.get(),
        ),
        Step::RerankPlace { e, old, new } => take_rerank_place(model, meta, e, *old, *new),
    }
}
