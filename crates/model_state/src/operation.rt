//! Recorded operations, simple or composite, and the packages that they make up.
ghost use Rattle.std.specs.Prelude.{◌≡◌, IfOk};
ghost use Rattle.model_state.specs.Packages.{steps_of};

use crate::Step;
use ecore_meta::CompactList;
use std::alloc::{AllocError, Global};
use std::mem::size_of;
use texts::{List, Text};

/// The kind of a simple operation, after the operations of EMFStore.
#[derive(Clone, Copy, Debug, PartialEq, Eq, Drop)]
pub enum OpKind {
    Create,
    Delete,
    Attribute,
    ManyAttribute,
    Reference,
    Move,
}

/// An operation: the steps of one edit, or a composite of several under a name. Most edits make one step, which lies in
/// the operation itself.
#[derive(Debug, Drop)]
pub enum Operation {
    Simple {
        kind: OpKind,
        steps: CompactList<Step>,
    },
    Composite {
        name: Text,
        steps: List<Step>,
    },
}

// An operation of one step takes no memory beside this, but for long texts.
const _: () = prove!(size_of::<Operation>() == 112);

/// A change package: operations in the order in which they were recorded.
pub type Package = List<Operation>;

fn copy_steps(alloc: Global, steps: &[Step]) -> Result<List<Step>, AllocError>
    ensures { IfOk result (λ w. w ≡ steps.now) }
{
    let mut copied = List::new(alloc);
    for step in steps {
        copied.push(step.copy(alloc)?)?;
    }
    Ok(copied)
}

/// The same steps; a single one takes no block of its own.
fn copy_compact(alloc: Global, steps: &[Step]) -> Result<CompactList<Step>, AllocError>
    ensures { IfOk result (λ w. w ≡ steps.now) }
{
    match steps {
        [step] => Ok(CompactList::one(step.copy(alloc)?)),
        _ => Ok(CompactList::from_list(copy_steps(alloc, steps)?)),
    }
}

impl Operation {
    /// The steps of the operation, simple or composite.
    pub fn steps(&self) -> &[Step]
        ensures { result.now ≡ steps_of self.now }
    {
        match self {
            Operation::Simple { steps, .. } => steps.as_slice(),
            Operation::Composite { steps, .. } => steps.as_slice(),
        }
    }

    /// The same operation in memory of its own.
    pub fn copy(&self, alloc: Global) -> Result<Operation, AllocError>
        ensures { IfOk result (λ o. o ≡ self.now) }
    {
        match self {
            Operation::Simple { kind, steps } => Ok(Operation::Simple {
                kind: *kind,
                steps: copy_compact(alloc, steps.as_slice())?,
            }),
            Operation::Composite { name, steps } => Ok(Operation::Composite {
                name: name.copy(alloc)?,
                steps: copy_steps(alloc, steps.as_slice())?,
            }),
        }
    }
}
