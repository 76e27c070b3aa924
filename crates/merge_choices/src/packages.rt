//! The lists of an update and of a merge.
ghost use Rattle.std.specs.Prelude.{◌≡◌, IfOk, IfErr, OnOk, length};
ghost use Rattle.footprint.specs.Buckets.{buckets as buckets_of};
ghost use Rattle.merge_laws.specs.Merge.{update_list, merge_list};
ghost use Rattle.merge_choices.specs.Faults.{IsChoiceFault};

use crate::ChoiceFault;
use crate::choices::{mine_dropped, theirs_dropped};
use crate::lists::list_after;
use ecore_meta::Metamodel;
use footprint::{Bucket, Buckets};
use merge_laws::Side;
use model_state::Package;
use std::alloc::{AllocError, Global};

fn update_list(
    alloc: Global,
    theirs: &Package,
    mine: &Package,
    buckets: &[Bucket],
    sides: &[Side],
) -> Result<Package, AllocError>
    requires { length sides.now ≡ length buckets.now }
    ensures { IfOk result (λ p. p ≡ update_list theirs.now mine.now buckets.now sides.now) }
{
    let drops_theirs = theirs_dropped(alloc, buckets, sides, theirs.len())?;
    let drops_mine = mine_dropped(alloc, buckets, sides, mine.len())?;
    let list = list_after(
        alloc,
        &drops_theirs,
        theirs.as_slice(),
        &drops_mine,
        mine.as_slice(),
    )?;
    Ok(list)
}

fn merge_list(
    alloc: Global,
    theirs: &Package,
    mine: &Package,
    buckets: &[Bucket],
    sides: &[Side],
) -> Result<Package, AllocError>
    requires { length sides.now ≡ length buckets.now }
    ensures { IfOk result (λ p. p ≡ merge_list theirs.now mine.now buckets.now sides.now) }
{
    let drops_theirs = theirs_dropped(alloc, buckets, sides, theirs.len())?;
    let drops_mine = mine_dropped(alloc, buckets, sides, mine.len())?;
    let list = list_after(
        alloc,
        &drops_mine,
        mine.as_slice(),
        &drops_theirs,
        theirs.as_slice(),
    )?;
    Ok(list)
}

/// Whether there is a choice for each bucket.
fn one_for_each(buckets: &Buckets, choices: &[Side]) -> Result<(), ChoiceFault>
    ensures size { OnOk result (length choices.now ≡ length buckets.now.rows) }
    ensures fault { IfErr result (λ e. IsChoiceFault buckets.now.rows choices.now e) }
{
    let rows = buckets.rows.as_slice();
    if choices.len() != rows.len() {
        return Err(ChoiceFault::BadChoice {
            want: rows.len() as u64,
            got: choices.len() as u64,
        });
    }
    Ok(())
}

/// The list that an update appends to theirs: the reversal of what the choices drop of theirs, and then what they keep of mine. The buckets
/// are those of the two packages, with a choice for each; BadChoice comes exactly where the numbers differ.
pub fn update_package(
    alloc: Global,
    theirs: &Package,
    mine: &Package,
    buckets: &Buckets,
    choices: &[Side],
    meta: &Metamodel,
) -> Result<Package, ChoiceFault>
    requires same { buckets.now.rows ≡ buckets_of meta.now theirs.now mine.now }
    ensures size { IfOk result (λ _. length choices.now ≡ length buckets.now.rows) }
    ensures list { IfOk result (λ p. p ≡ update_list theirs.now mine.now buckets.now.rows choices.now) }
    ensures fault { IfErr result (λ e. IsChoiceFault buckets.now.rows choices.now e) }
{
    // Only the contract needs the metamodel.
    let _meta = meta;
    one_for_each(buckets, choices)?;
    let rows = buckets.rows.as_slice();
    match update_list(alloc, theirs, mine, rows, choices) {
        Ok(list) => Ok(list),
        Err(_) => Err(ChoiceFault::Memory),
    }
}

/// The list that a merge appends to mine: the reversal of what the choices drop of mine, and then what they keep of theirs. The buckets are
/// those of the two packages, with a choice for each; BadChoice comes exactly where the numbers differ.
pub fn merge_package(
    alloc: Global,
    theirs: &Package,
    mine: &Package,
    buckets: &Buckets,
    choices: &[Side],
    meta: &Metamodel,
) -> Result<Package, ChoiceFault>
    requires same { buckets.now.rows ≡ buckets_of meta.now theirs.now mine.now }
    ensures size { IfOk result (λ _. length choices.now ≡ length buckets.now.rows) }
    ensures list { IfOk result (λ p. p ≡ merge_list theirs.now mine.now buckets.now.rows choices.now) }
    ensures fault { IfErr result (λ e. IsChoiceFault buckets.now.rows choices.now e) }
{
    // Only the contract needs the metamodel.
    let _meta = meta;
    one_for_each(buckets, choices)?;
    let rows = buckets.rows.as_slice();
    match merge_list(alloc, theirs, mine, rows, choices) {
        Ok(list) => Ok(list),
        Err(_) => Err(ChoiceFault::Memory),
    }
}
