//! Operations of two packages that interfere.
ghost use Rattle.std.specs.Prelude.{◌≡◌, ◌<◌, All, IfOk, length};
ghost use Rattle.merge_laws.specs.Pairs.{first_interfering, have_pair};

use conflict_buckets::PackageIndex;
use ecore_meta::Metamodel;
use history_tree::History;
use model_state::Package;
use std::alloc::{AllocError, Global};

/// Whether an operation of the one package interferes with one of the other. It stops at the first that does.
pub fn have_pair(
    alloc: Global,
    meta: &Metamodel,
    operations: &Package,
    others: &Package,
) -> Result<bool, AllocError>
    ensures found { IfOk result (λ found. found ≡ have_pair meta.now operations.now others.now) }
{
    let index = PackageIndex::new(alloc, operations, meta)?;
    let found = index.interferes_with(alloc, operations, others.as_slice(), meta)?;
    Ok(found)
}

/// The first of some versions that has an operation which interferes with one of the package. The package's cells are indexed once.
pub fn first_interfering(
    alloc: Global,
    meta: &Metamodel,
    history: &History,
    operations: &Package,
    versions: &[u32],
) -> Result<Option<u32>, AllocError>
    requires there { All (λ u. u < length history.now.history.versions) versions.now }
    ensures first { IfOk result (λ found. found ≡ first_interfering meta.now history.now.history.versions operations.now versions.now) }
{
    let index = PackageIndex::new(alloc, operations, meta)?;
    for u in versions {
        let others = history.version(*u).package.as_slice();
        if index.interferes_with(alloc, operations, others, meta)? {
            return Ok(Some(*u));
        }
    }
    Ok(None)
}
