//! Operations that are kept, and operations that are dropped.
ghost use Rattle.std.specs.Prelude.{◌≡◌, ◌++◌, IfOk, OnOk, length};
ghost use Rattle.merge_laws.specs.Merge.{kept, dropped};
ghost use Rattle.merge_choices.specs.Flags.{is_flagged};

use model_state::{Operation, Package};
use std::alloc::{AllocError, Global};
use texts::List;

/// Puts the operations whose flags are not set after those that stand, in order.
pub(crate) fn keep(
    alloc: Global,
    flags: &[bool],
    ops: &[Operation],
    out: &mut Package,
) -> Result<(), AllocError>
    requires { length flags.now ≡ length ops.now }
    ensures { OnOk result (out.new ≡ out.old ++ kept (is_flagged flags.now) ops.now) }
{
    for i in 0..ops.len() {
        if !flags[i] {
            out.push(ops[i].copy(alloc)?)?;
        }
    }
    Ok(())
}

/// The operations whose flags are set, in order.
pub(crate) fn pick(alloc: Global, flags: &[bool], ops: &[Operation]) -> Result<Package, AllocError>
    requires { length flags.now ≡ length ops.now }
    ensures { IfOk result (λ p. p ≡ dropped (is_flagged flags.now) ops.now) }
{
    let mut out = List::new(alloc);
    for i in 0..ops.len() {
        if flags[i] {
            out.push(ops[i].copy(alloc)?)?;
        }
    }
    Ok(out)
}
