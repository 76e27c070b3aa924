//! The pairs of operations of two packages that interfere.
ghost use Rattle.std.specs.Prelude.{◌≡◌, ℕ, ◌<◌, ◌++◌, List, IfOk, OnOk, get_or, length};
ghost use Rattle.ecore_meta.specs.Meta.{Meta};
ghost use Rattle.model_state.specs.declared.operation.Operation.{Operation};
ghost use Rattle.footprint.specs.Prints.{shown, printed};
ghost use Rattle.merge_laws.specs.Pairs.{pairs, pairs_with};
ghost use Rattle.footprint.specs.declared.cell.Print as prints;

use ecore_meta::Metamodel;
use footprint::{Print, interferes, prints_of};
use model_state::Package;
use std::alloc::{AllocError, Global};
use texts::List;

/// The pairs of the operation at i with each of mine that it interferes with come after others.
fn put_pairs(
    i: usize,
    print: &Print,
    right: &[Print],
    found: &mut List<(u64, u64)>,
) -> Result<(), AllocError>
    ensures { OnOk result ((meta : Meta) (left : List prints.Print) (ts ms : List Operation) (a : Operation) (rest : List (ℕ × ℕ)) → i < length left → print.now ≡ get_or left i print.now → shown left ≡ printed meta ts → shown right.now ≡ printed meta ms → a ≡ get_or ts i a → found.new ++ rest ≡ found.old ++ (pairs_with meta i a 0 ms ++ rest)) }
{
    for k in 0..right.len() {
        if interferes(print, &right[k]) {
            found.push((i as u64, k as u64))?;
        }
    }
    Ok(())
}

/// The pairs of two packages, by the prints of their operations.
fn pairs_among(
    alloc: Global,
    left: &[Print],
    right: &[Print],
    _theirs: &Package,
    _mine: &Package,
    _meta: &Metamodel,
) -> Result<List<(u64, u64)>, AllocError>
    requires left { shown left.now ≡ printed _meta.now _theirs.now }
    requires right { shown right.now ≡ printed _meta.now _mine.now }
    ensures { IfOk result (λ ps. ps ≡ pairs _meta.now _theirs.now _mine.now) }
{
    let mut found = List::new(alloc);
    for i in 0..left.len() {
        put_pairs(i, &left[i], right, &mut found)?;
    }
    Ok(found)
}

/// The positions of each operation of theirs and each of mine that interfere, in order. Each of the ones is compared with each of the others.
pub fn pairs(
    alloc: Global,
    theirs: &Package,
    mine: &Package,
    meta: &Metamodel,
) -> Result<List<(u64, u64)>, AllocError>
    ensures { IfOk result (λ ps. ps ≡ pairs meta.now theirs.now mine.now) }
{
    let left = prints_of(alloc, theirs.as_slice(), meta)?;
    let right = prints_of(alloc, mine.as_slice(), meta)?;
    pairs_among(alloc, &left, &right, theirs, mine, meta)
}
