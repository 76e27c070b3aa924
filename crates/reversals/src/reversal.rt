//! The reversal of an operation: its steps taken back, the last one first.
ghost use Rattle.std.specs.Prelude.{◌≡◌, IfOk};
ghost use Rattle.model_state.specs.Steps.{rev, rev_all};
ghost use Rattle.model_state.specs.Packages.{rev_kind, rev_op, rev_package};

use ecore_meta::CompactList;
use model_state::{OpKind, Operation, Package, Step};
use std::alloc::{AllocError, Global};
use texts::List;

fn reversed(step: Step) -> Step
    ensures { result ≡ rev step }
{
    match step {
        Step::Put { e, f, old, new } => Step::Put {
            e,
            f,
            old: new,
            new: old,
        },
        Step::Ins { e, f, at, v } => Step::Del { e, f, at, v },
        Step::Del { e, f, at, v } => Step::Ins { e, f, at, v },
        Step::Shift { e, f, from, to } => Step::Shift {
            e,
            f,
            from: to,
            to: from,
        },
        Step::Link { a, f, ra, b, rb } => Step::Unlink { a, f, ra, b, rb },
        Step::Unlink { a, f, ra, b, rb } => Step::Link { a, f, ra, b, rb },
        Step::RerankRow { a, f, b, old, new } => Step::RerankRow {
            a,
            f,
            b,
            old: new,
            new: old,
        },
        Step::New {
            e,
            class,
            place,
            rank,
        } => Step::Gone {
            e,
            class,
            place,
            rank,
        },
        Step::Gone {
            e,
            class,
            place,
            rank,
        } => Step::New {
            e,
            class,
            place,
            rank,
        },
        Step::Move {
            e,
            from,
            from_rank,
            to,
            to_rank,
            above_from,
            above_to,
        } => Step::Move {
            e,
            from: to,
            from_rank: to_rank,
            to: from,
            to_rank: from_rank,
            above_from: above_to,
            above_to: above_from,
        },
        Step::RerankPlace { e, old, new } => Step::RerankPlace {
            e,
            old: new,
            new: old,
        },
    }
}

fn reverse_kind(kind: OpKind) -> OpKind
    ensures { result ≡ rev_kind kind }
{
    match kind {
        OpKind::Create => OpKind::Delete,
        OpKind::Delete => OpKind::Create,
        other => other,
    }
}

fn reverse_steps(alloc: Global, steps: &[Step]) -> Result<List<Step>, AllocError>
    ensures { IfOk result (λ w. w ≡ rev_all steps.now) }
{
    let mut reversals = List::new(alloc);
    for step in steps.iter().rev() {
        reversals.push(reversed(step.copy(alloc)?))?;
    }
    Ok(reversals)
}

/// The operation that undoes this one: the reversed steps in reversed order, with the kinds create and delete exchanged.
pub fn reverse_op(alloc: Global, op: &Operation) -> Result<Operation, AllocError>
    ensures reversed { IfOk result (λ o. o ≡ rev_op op.now) }
{
    match op {
        Operation::Simple { kind, steps } => Ok(Operation::Simple {
            kind: reverse_kind(*kind),
            steps: CompactList::from_list(reverse_steps(alloc, steps.as_slice())?),
        }),
        Operation::Composite { name, steps } => Ok(Operation::Composite {
            name: name.copy(alloc)?,
            steps: reverse_steps(alloc, steps.as_slice())?,
        }),
    }
}

/// The package that undoes this one: the reversed operations in reversed order.
pub fn reverse(alloc: Global, package: &Package) -> Result<Package, AllocError>
    ensures reversed { IfOk result (λ p. p ≡ rev_package «package».now) }
{
    let mut reversals = List::new(alloc);
    for op in package.as_slice().iter().rev() {
        reversals.push(reverse_op(alloc, op)?)?;
    }
    Ok(reversals)
}
