//! The buckets, by the labels of the operations.
ghost use Rattle.std.specs.Prelude.{ℕ, ◌≡◌, ◌<◌, ◌++◌, IfOk, OnOk, length};
ghost use Rattle.footprint.specs.Buckets.{mixed, places, buckets_below, buckets};
ghost use Rattle.merge_laws.specs.Classes.{AreClasses};
ghost use Rattle.merge_laws.specs.Order.{InOrder};
ghost use Rattle.cell_index.specs.Near.{list_at};
ghost use Rattle.conflict_buckets.specs.Tables.{IsPut};

use crate::labelling::labels_of;
use cell_index::lists_of;
use ecore_meta::Metamodel;
use footprint::{Bucket, Buckets, prints_of, put_prints};
use model_state::Package;
use std::alloc::{AllocError, Global};
use texts::List;

/// Puts the position into the list of the label.
fn put_place(table: &mut Vec<Vec<u64>>, label: usize, place: u64) -> Result<(), AllocError>
    requires { label < length table.old.items }
    ensures { OnOk result (IsPut table.old.items table.new.items label place) }
{
    table[label].push(place)?;
    Ok(())
}

/// The same, where the table has a list for the label.
fn put_label(table: &mut Vec<Vec<u64>>, label: u64, place: u64) -> Result<(), AllocError>
    ensures { OnOk result (IsPut table.old.items table.new.items label place) }
{
    if label as usize >= table.len() {
        return Ok(());
    }
    put_place(table, label as usize, place)?;
    Ok(())
}

/// For each label below the size its positions, rising.
fn places_by_label(alloc: Global, size: usize, labels: &[u64]) -> Result<Vec<Vec<u64>>, AllocError>
    ensures size { IfOk result (λ t. length t.items ≡ size) }
    ensures places { IfOk result (λ t. (l : ℕ) → l < size → list_at t.items l ≡ places l labels.now) }
{
    let mut table = lists_of(alloc, size)?;
    for (place, label) in labels.iter().enumerate() {
        put_label(&mut table, *label, place as u64)?;
    }
    Ok(table)
}

/// The component of some operations of both sides comes after others; there is none where either side has no operation.
fn put_row(
    alloc: Global,
    theirs: &[u64],
    mine: &[u64],
    found: &mut List<Bucket>,
) -> Result<(), AllocError>
    ensures { OnOk result (found.new ≡ found.old ++ mixed theirs.now mine.now) }
{
    if theirs.len() > 0 && mine.len() > 0 {
        found.push(Bucket {
            theirs: List::from_vec(Vec::from_slice(alloc, theirs)?),
            mine: List::from_vec(Vec::from_slice(alloc, mine)?),
        })?;
    }
    Ok(())
}

/// The components with operations of both sides, by the labels of the two sides.
fn rows_of(alloc: Global, theirs: &[u64], mine: &[u64]) -> Result<List<Bucket>, AllocError>
    ensures { IfOk result (λ bs. bs ≡ buckets_below theirs.now mine.now (length theirs.now)) }
{
    let left = places_by_label(alloc, theirs.len(), theirs)?;
    let right = places_by_label(alloc, theirs.len(), mine)?;
    let mut found = List::new(alloc);
    for n in 0..theirs.len() {
        put_row(alloc, &left[n], &right[n], &mut found)?;
    }
    Ok(found)
}

/// The buckets' rows, by the labels of all operations of the two packages.
fn compared_rows(
    alloc: Global,
    theirs: &Package,
    mine: &Package,
    meta: &Metamodel,
) -> Result<List<Bucket>, AllocError>
    ensures { IfOk result (λ rows. rows ≡ buckets meta.now theirs.now mine.now) }
{
    let mut prints = prints_of(alloc, theirs.as_slice(), meta)?;
    put_prints(alloc, &mut prints, mine.as_slice(), meta)?;
    let found = labels_of(alloc, &prints)?;
    let (left, right) = found.split_at(theirs.len());
    let rows = rows_of(alloc, left, right)?;
    Ok(rows)
}

/// The same. Where either package is empty there are none, and nothing is compared.
fn rows_between(
    alloc: Global,
    theirs: &Package,
    mine: &Package,
    meta: &Metamodel,
) -> Result<List<Bucket>, AllocError>
    ensures { IfOk result (λ rows. rows ≡ buckets meta.now theirs.now mine.now) }
{
    if theirs.len() == 0 || mine.len() == 0 {
        return Ok(List::new(alloc));
    }
    let rows = compared_rows(alloc, theirs, mine, meta)?;
    Ok(rows)
}

/// The buckets of two packages: the components of operations that interfere, one with the next. Those count that have
/// operations of both packages, in the order of their first operations. Where either package is empty nothing is compared.
pub fn buckets(
    alloc: Global,
    theirs: &Package,
    mine: &Package,
    meta: &Metamodel,
) -> Result<Buckets, AllocError>
    ensures rows { IfOk result (λ b. b.rows ≡ buckets meta.now theirs.now mine.now) }
    ensures classes { IfOk result (λ b. AreClasses meta.now theirs.now mine.now b.rows) }
    ensures order { IfOk result (λ b. InOrder b.rows) }
{
    let rows = rows_between(alloc, theirs, mine, meta)?;
    Ok(Buckets { rows })
}
