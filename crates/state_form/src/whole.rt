//! A state as a package, and as bytes.
ghost use Rattle.std.specs.Prelude.{◌≡◌, ◌≤◌, ◌^◌, ◌∷◌, [], IfOk, IfSome, IfNone, Some};
ghost use Rattle.model_state.specs.Good.{Good, Sound};
ghost use Rattle.model_state.specs.declared.operation.OpKind.TheVariants.{Create};
ghost use Rattle.model_state.specs.declared.operation.Operation.TheVariants.{Simple};
ghost use Rattle.op_form.specs.Formed.{IsPackage};
ghost use Rattle.op_form.specs.Packages.{package_encoding};
ghost use Rattle.state_form.specs.Form.{as_package, state_encoding, state_size, IsStateEncoding};
ghost use Rattle.state_form.specs.Spelled.{IsSpelled};

use ecore_meta::{CompactList, Metamodel};
use model_state::{Look, OpKind, Operation, Package, Step};
use op_form::encode;
use state_steps::as_steps;
use std::alloc::{AllocError, Global};
use texts::List;

/// One operation with all steps.
fn one_operation(alloc: Global, steps: List<Step>) -> Result<Package, AllocError>
    ensures { IfOk result (λ p. p ≡ Simple Create steps ∷ []) }
{
    let mut made = List::new(alloc);
    made.push(Operation::Simple {
        kind: OpKind::Create,
        steps: CompactList::from_list(steps),
    })?;
    Ok(made)
}

/// One operation with all steps; none where there is no step.
fn as_package(alloc: Global, steps: List<Step>) -> Result<Package, AllocError>
    ensures { IfOk result (λ p. p ≡ as_package steps) }
{
    if steps.len() > 0 {
        one_operation(alloc, steps)
    } else {
        Ok(List::new(alloc))
    }
}

/// The bytes of the package of steps.
fn encode_steps(alloc: Global, steps: List<Step>) -> Result<Vec<u8>, AllocError>
    requires { IsPackage (as_package steps) }
    ensures { IfOk result (λ bytes. bytes.items ≡ package_encoding (as_package steps)) }
{
    let made = as_package(alloc, steps)?;
    encode(alloc, &made)
}

/// The bytes of the package that builds the model from the empty project: one operation, or none where the model is
/// empty. None where it has 2^32 steps or more, and so as many bytes.
pub fn encode_state<L: Look>(
    alloc: Global,
    look: &L,
    meta: &Metamodel,
) -> Result<Option<Vec<u8>>, AllocError>
    requires good { Good meta.now (L.state look.now) }
    requires spelled { IsSpelled meta.now (L.state look.now) }
    ensures bytes { IfOk result (λ found. IfSome found (λ bytes. bytes.items ≡ state_encoding meta.now (L.state look.now))) }
    ensures form { IfOk result (λ found. IfSome found (λ bytes. IsStateEncoding meta.now (L.state look.now) bytes.items)) }
    ensures none { IfOk result (λ found. IfNone found (2 ^ 32 ≤ state_size meta.now (L.state look.now))) }
{
    meta.recall_soundness();
    let steps = as_steps(alloc, look, meta)?;
    if steps.len() > u32::MAX as usize {
        return Ok(None);
    }
    Ok(Some(encode_steps(alloc, steps)?))
}
