//! Versions on a path, and their operations, gathered from a history.
ghost use Rattle.std.specs.Prelude.{◌≡◌, ◌++◌, ◌<◌, All, IfOk, OnOk, length};
ghost use Rattle.history_tree.specs.Since.{operations_after, path_after};

use history_tree::History;
use model_state::{Operation, Package};
use std::alloc::{AllocError, Global};
use texts::List;

/// Puts copies of operations after those that are there.
pub(crate) fn push_copies(
    alloc: Global,
    out: &mut Package,
    operations: &[Operation],
) -> Result<(), AllocError>
    ensures { OnOk result (out.new ≡ out.old ++ operations.now) }
{
    for operation in operations {
        out.push(operation.copy(alloc)?)?;
    }
    Ok(())
}

/// Copies of operations, as a package.
pub fn copy_operations(alloc: Global, operations: &[Operation]) -> Result<Package, AllocError>
    ensures copied { IfOk result (λ p. p ≡ operations.now) }
{
    let mut out = List::new(alloc);
    push_copies(alloc, &mut out, operations)?;
    Ok(out)
}

/// The versions on the path of `last` that come after `v`, in the order of the path. It goes back from `last` by parents, over these alone.
pub fn path_after(
    alloc: Global,
    history: &History,
    v: u32,
    last: u32,
) -> Result<List<u32>, AllocError>
    requires there { last < length history.now.history.versions }
    ensures path { IfOk result (λ us. us ≡ path_after history.now.history v last) }
    ensures there { IfOk result (λ us. All (λ u. u < length history.now.history.versions) us) }
{
    history.recall_wholeness();
    let mut back = Vec::new(alloc);
    let mut at = last;
    while at > v {
        back.push(at)?;
        at = history.parent_of(at);
    }
    back.reverse();
    Ok(List::from_vec(back))
}

/// Copies of the operations of the versions on the path of `last` that come after `v`, one version after another.
pub fn operations_after(
    alloc: Global,
    history: &History,
    v: u32,
    last: u32,
) -> Result<Package, AllocError>
    requires there { last < length history.now.history.versions }
    ensures gathered { IfOk result (λ p. p ≡ operations_after history.now.history v last) }
{
    let after = path_after(alloc, history, v, last)?;
    let mut out = List::new(alloc);
    for u in after.as_slice() {
        push_copies(alloc, &mut out, history.version(*u).package.as_slice())?;
    }
    Ok(out)
}
