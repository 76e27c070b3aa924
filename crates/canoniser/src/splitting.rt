//! Simple operations cut into their steps.
ghost use Rattle.std.specs.Prelude.{◌≡◌, ◌++◌, ◌∷◌, [], IfOk, OnOk};
ghost use Rattle.model_state.specs.declared.operation.Operation.TheVariants.{Simple, Composite};
ghost use Rattle.std.specs.List.{list_all};
ghost use Rattle.merge_laws.specs.Equal.{kind_eq};
ghost use Rattle.merge_laws.specs.Split.{own_kind, singles, split, is_single};

use crate::joining::single;
use model_state::{OpKind, Operation, Step};
use std::alloc::{AllocError, Global};

fn own_kind(step: &Step) -> OpKind
    ensures { result ≡ own_kind step.now }
{
    match step {
        Step::Put { .. } => OpKind::Attribute,
        Step::Ins { .. } => OpKind::ManyAttribute,
        Step::Del { .. } => OpKind::ManyAttribute,
        Step::Shift { .. } => OpKind::ManyAttribute,
        Step::Link { .. } => OpKind::Reference,
        Step::Unlink { .. } => OpKind::Reference,
        Step::RerankRow { .. } => OpKind::Reference,
        Step::New { .. } => OpKind::Create,
        Step::Gone { .. } => OpKind::Delete,
        Step::Move { .. } => OpKind::Move,
        Step::RerankPlace { .. } => OpKind::Move,
    }
}

fn is_same_kind(kind: OpKind, other: OpKind) -> bool
    ensures { result ≡ kind_eq kind other }
{
    match kind {
        OpKind::Create => matches!(other, OpKind::Create),
        OpKind::Delete => matches!(other, OpKind::Delete),
        OpKind::Attribute => matches!(other, OpKind::Attribute),
        OpKind::ManyAttribute => matches!(other, OpKind::ManyAttribute),
        OpKind::Reference => matches!(other, OpKind::Reference),
        OpKind::Move => matches!(other, OpKind::Move),
    }
}

fn is_single(op: &Operation) -> bool
    ensures { result ≡ is_single op.now }
{
    match op {
        Operation::Simple { kind, steps } => match steps.as_slice() {
            [step] => is_same_kind(*kind, own_kind(step)),
            _ => false,
        },
        Operation::Composite { .. } => true,
    }
}

/// Whether each operation is a composite, or a simple one of one step and of the kind of that step.
pub(crate) fn are_single(ops: &[Operation]) -> bool
    ensures { result ≡ list_all is_single ops.now }
{
    ops.iter().all(|op| is_single(op))
}

fn put_singles(alloc: Global, list: &mut Vec<Operation>, steps: &[Step]) -> Result<(), AllocError>
    ensures { OnOk result (list.new.items ≡ list.old.items ++ singles steps.now) }
{
    for step in steps {
        list.push(single(own_kind(step), step.copy(alloc)?))?;
    }
    Ok(())
}

fn put_split(alloc: Global, list: &mut Vec<Operation>, op: &Operation) -> Result<(), AllocError>
    ensures { OnOk result (list.new.items ≡ list.old.items ++ split (op.now ∷ [])) }
{
    match op {
        Operation::Simple { steps, .. } => put_singles(alloc, list, steps.as_slice()),
        Operation::Composite { .. } => {
            list.push(op.copy(alloc)?)?;
            Ok(())
        }
    }
}

/// Simple operations cut into one for each step, composites whole.
pub(crate) fn split(alloc: Global, ops: &[Operation]) -> Result<Vec<Operation>, AllocError>
    ensures { IfOk result (λ v. v.items ≡ split ops.now) }
{
    let mut list = Vec::new(alloc);
    for op in ops {
        put_split(alloc, &mut list, op)?;
    }
    Ok(list)
}
