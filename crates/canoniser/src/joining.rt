//! What a rule leaves of two operations.
ghost use Rattle.std.specs.Prelude.{◌≡◌, ◌∷◌, [], true, Some, is_some, IfOk};
ghost use Rattle.model_state.specs.declared.operation.Operation.TheVariants.{Simple};
ghost use Rattle.merge_laws.specs.Joins.{joined};
ghost use Rattle.merge_laws.specs.Rules.{joined_op, met};
ghost use Rattle.canoniser.specs.Meetings.{list_of};

use crate::undoing::takes_back;
use ecore_meta::CompactList;
use model_state::{OpKind, Operation, Step, copy_value};
use std::alloc::{AllocError, Global};

/// Whether one step can stand for the two.
fn steps_join(s: &Step, t: &Step) -> bool
    ensures { result ≡ is_some (joined s.now t.now) }
{
    match s {
        Step::Put { e, f, .. } => match t {
            Step::Put { e: x, f: g, .. } => e == x && f == g,
            _ => false,
        },
        Step::RerankRow { a, f, b, .. } => match t {
            Step::RerankRow {
                a: x,
                f: g,
                b: y,
                ..
            } => a == x && f == g && b == y,
            _ => false,
        },
        Step::RerankPlace { e, .. } => match t {
            Step::RerankPlace { e: x, .. } => e == x,
            _ => false,
        },
        _ => false,
    }
}

/// One step for two that set one attribute, rank one reference or rank one element.
fn join_steps(alloc: Global, s: &Step, t: &Step) -> Result<Option<Step>, AllocError>
    ensures { IfOk result (λ o. o ≡ joined s.now t.now) }
{
    if !steps_join(s, t) {
        return Ok(None);
    }
    match s {
        Step::Put { e, f, old, .. } => match t {
            Step::Put { new, .. } => Ok(Some(Step::Put {
                e: e.copy(alloc)?,
                f: *f,
                old: copy_value(alloc, old)?,
                new: copy_value(alloc, new)?,
            })),
            _ => Ok(None),
        },
        Step::RerankRow { a, f, b, old, .. } => match t {
            Step::RerankRow { new, .. } => Ok(Some(Step::RerankRow {
                a: a.copy(alloc)?,
                f: *f,
                b: b.copy(alloc)?,
                old: *old,
                new: *new,
            })),
            _ => Ok(None),
        },
        Step::RerankPlace { e, old, .. } => match t {
            Step::RerankPlace { new, .. } => Ok(Some(Step::RerankPlace {
                e: e.copy(alloc)?,
                old: *old,
                new: *new,
            })),
            _ => Ok(None),
        },
        _ => Ok(None),
    }
}

pub(crate) fn single(kind: OpKind, step: Step) -> Operation
    ensures { result ≡ Simple kind (step ∷ []) }
{
    Operation::Simple {
        kind,
        steps: CompactList::one(step),
    }
}

fn join(alloc: Global, a: &Operation, b: &Operation) -> Result<Option<Operation>, AllocError>
    ensures { IfOk result (λ o. o ≡ joined_op a.now b.now) }
{
    match a {
        Operation::Simple { kind, steps } => match b {
            Operation::Simple { steps: later, .. } => match steps.as_slice() {
                [s] => match later.as_slice() {
                    [t] => match join_steps(alloc, s, t)? {
                        None => Ok(None),
                        Some(u) => Ok(Some(single(*kind, u))),
                    },
                    _ => Ok(None),
                },
                _ => Ok(None),
            },
            _ => Ok(None),
        },
        _ => Ok(None),
    }
}

fn can_join(a: &Operation, b: &Operation) -> bool
    ensures { result ≡ is_some (joined_op a.now b.now) }
{
    match a {
        Operation::Simple { steps, .. } => match b {
            Operation::Simple { steps: later, .. } => match steps.as_slice() {
                [s] => match later.as_slice() {
                    [t] => steps_join(s, t),
                    _ => false,
                },
                _ => false,
            },
            _ => false,
        },
        _ => false,
    }
}

/// Whether a rule applies to an operation and a later one.
#[tactic(auto, using(crate::proofs::Leaving::met_tested))]
pub(crate) fn is_met(a: &Operation, b: &Operation) -> bool
    ensures { result ≡ is_some (met a.now b.now) }
{
    takes_back(b, a) || can_join(a, b)
}

/// What a rule leaves of two operations to which one applies: one that stands for both, or none.
pub(crate) fn left_of(
    alloc: Global,
    a: &Operation,
    b: &Operation,
) -> Result<Option<Operation>, AllocError>
    requires met { is_some (met a.now b.now) ≡ true }
    ensures { IfOk result (λ left. met a.now b.now ≡ Some (list_of left)) }
{
    if takes_back(b, a) {
        return Ok(None);
    }
    let left = join(alloc, a, b)?;
    Ok(left)
}
