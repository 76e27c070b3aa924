//! Whether an operation of one package interferes with one of others, which are asked about one after another.
ghost use Rattle.std.specs.Prelude.{◌≡◌, IfOk};
ghost use Rattle.merge_laws.specs.Pairs.{have_pair};
ghost use Rattle.conflict_buckets.specs.Indexed.{IsIndexOf};

use cell_index::{CellIndex, index_of};
use ecore_meta::Metamodel;
use footprint::{Print, print_of, prints_of};
use model_state::{Operation, Package};
use std::alloc::{AllocError, Global};

/// The cells of a package's operations, and an index of them. It is made once, and then tells of any other operations whether one of
/// them interferes with one of these.
#[derive(Drop)]
pub struct PackageIndex {
    pub(crate) prints: Vec<Print>,
    pub(crate) index: CellIndex,
}

impl PackageIndex {
    /// The index of the package's operations.
    pub fn new(
        alloc: Global,
        package: &Package,
        meta: &Metamodel,
    ) -> Result<PackageIndex, AllocError>
        ensures { IfOk result (λ x. IsIndexOf meta.now «package».now x) }
    {
        let prints = prints_of(alloc, package.as_slice(), meta)?;
        let index = index_of(alloc, &prints)?;
        Ok(PackageIndex { prints, index })
    }

    /// Whether one of the package's operations interferes with one of others. It goes over the others up to the first that does. The cells
    /// of one of them alone are held at a time.
    pub fn interferes_with(
        &self,
        alloc: Global,
        _package: &Package,
        others: &[Operation],
        meta: &Metamodel,
    ) -> Result<bool, AllocError>
        requires index { IsIndexOf meta.now _package.now self.now }
        ensures found { IfOk result (λ found. found ≡ have_pair meta.now _package.now others.now) }
    {
        for other in others {
            let print = print_of(alloc, other, meta)?;
            if self.index.meets(&self.prints, &print) {
                return Ok(true);
            }
        }
        Ok(false)
    }
}
