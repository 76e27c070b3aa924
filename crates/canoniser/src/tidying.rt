//! The call that tidies a package.
ghost use Rattle.std.specs.Prelude.{◌≡◌, IfOk};
ghost use Rattle.merge_laws.specs.Split.{split as split_of};
ghost use Rattle.merge_laws.specs.Rules.{Settles};
ghost use Rattle.merge_laws.specs.Tidy.{tidy, is_tidy, Normal};

use crate::splitting::{are_single, split};
use crate::turns::{keep, settle};
use ecore_meta::Metamodel;
use footprint::prints_of;
use model_state::Package;
use std::alloc::{AllocError, Global};
use texts::List;

/// The package with its simple operations cut into their steps, with what was taken back dropped and what was changed
/// twice changed once. It does what the package does. Each operation is compared with those before it whose cells share
/// a slot of an index with its own. The comparisons go from the last of them to one that touches it.
pub fn tidy(alloc: Global, package: &Package, meta: &Metamodel) -> Result<Package, AllocError>
    ensures tidied { IfOk result (λ p. p ≡ tidy meta.now «package».now) }
    ensures normal { IfOk result (λ p. Normal meta.now p) }
    ensures rules { IfOk result (λ p. Settles meta.now (split_of «package».now) p) }
{
    let mut list = split(alloc, package.as_slice())?;
    let prints = prints_of(alloc, &list, meta)?;
    let standing = settle(alloc, meta, &mut list, &prints)?;
    let tidied = keep(alloc, list, standing.stands())?;
    Ok(List::from_vec(tidied))
}

/// Whether tidying leaves the package as it is. It tidies a copy, unless an operation is to be cut.
pub fn is_tidy(alloc: Global, package: &Package, meta: &Metamodel) -> Result<bool, AllocError>
    ensures { IfOk result (λ b. b ≡ is_tidy meta.now «package».now) }
{
    if !are_single(package.as_slice()) {
        return Ok(false);
    }
    let tidied = tidy(alloc, package, meta)?;
    Ok(tidied.len() == package.len())
}
