//! Where each target stands in a long list of a document, from which the rank of a mirror is soon found.
ghost use Rattle.std.specs.Prelude.{◌≡◌, ℕ, List, IfOk, None, OnOk, Some, cond, nat_eq};
ghost use Rattle.std.specs.BTreeMap.{get};
ghost use Rattle.std.specs.Ordering.{nat_cmp};
ghost use Rattle.model_documents.specs.Finder.{first_of};
ghost use Rattle.model_documents.specs.Completed.{targets_at};
ghost use Rattle.model_documents.specs.declared.doc.DocRow.{DocRow};
ghost use Rattle.model_import.specs.Indexes.{TellAll, Tells};
ghost use Rattle.import_laws.specs.Links.{index_in, refs_at};

use model_documents::{DocRefs, DocRow};
use std::alloc::{AllocError, Global};
use std::collections::BTreeMap;
use std::marker::Model;

/// A list of no more targets is gone through, and has no map.
const FEW: usize = 16;

/// The rows of a document. For each long list of references a map leads from a target to its index.
#[derive(Drop)]
pub(crate) struct Indexes<'a> {
    rows: &'a [DocRow],
    lists: BTreeMap<(usize, u32), BTreeMap<usize, usize>>,
}

impl<'a> Model for Indexes<'a> {
    ghost use Rattle.std.specs.Prelude.{List};
    ghost use Rattle.model_documents.specs.declared.doc.DocRow.{DocRow};
    ghost use Rattle.model_import.specs.Indexes.{TellAll};

    ghost Value = { List DocRow };

    ghost view = { λ a. a.rows.now };

    ghost invariant = { λ a. TellAll a.lists a.rows.now };
}

impl<'a> Indexes<'a> {
    /// Makes the maps, from all rows. The error is out of memory.
    pub fn new(alloc: Global, rows: &'a [DocRow]) -> Result<Indexes<'a>, AllocError>
        ensures { IfOk result (λ indexes. indexes ≡ rows.now) }
    {
        let lists = lists_of(alloc, rows)?;
        Ok(Indexes { rows, lists })
    }

    /// Where the row n stands in the list of a feature of the row b, its length if it does not.
    pub fn index(&self, b: usize, feature: u32, n: usize) -> usize
        ensures { result ≡ index_in n (targets_at feature (refs_at self.now b)) }
    {
        match found(&self.lists, b, feature, n) {
            Some(index) => index,
            None => index_in(targets_at(refs_at(self.rows, b), feature), n),
        }
    }
}

/// What the map of a list has for a target.
fn found(
    lists: &BTreeMap<(usize, u32), BTreeMap<usize, usize>>,
    b: usize,
    feature: u32,
    n: usize,
) -> Option<usize>
    ensures { (rows : List DocRow) (k : ℕ) → TellAll lists.now rows → result ≡ Some k → index_in n (targets_at feature (refs_at rows b)) ≡ k }
{
    match lists.get(&(b, feature)) {
        None => None,
        Some(list) => list.get(&n).copied(),
    }
}

/// Where a number stands in a list, its length if it does not.
fn index_in(numbers: &[usize], n: usize) -> usize
    ensures { result ≡ index_in n numbers.now }
{
    let mut index: usize = 0;
    for other in numbers {
        if n == *other {
            return index;
        }
        index += 1;
    }
    index
}

fn targets_at(refs: &[DocRefs], f: u32) -> &[usize]
    ensures { result.now ≡ targets_at f refs.now }
{
    for r in refs {
        if f == r.feature {
            return r.targets.as_slice();
        }
    }
    &[]
}

fn refs_at(rows: &[DocRow], b: usize) -> &[DocRefs]
    ensures { result.now ≡ refs_at rows.now b }
{
    match rows.get(b) {
        None => &[],
        Some(row) => row.refs.as_slice(),
    }
}

/// Gives a target its index, where it has none.
fn enter(indexes: &mut BTreeMap<usize, usize>, n: usize, k: usize) -> Result<(), AllocError>
    ensures { OnOk result ((q : ℕ) → get nat_cmp indexes.new q ≡ first_of (get nat_cmp indexes.old q) (cond (nat_eq q n) (Some k) None)) }
{
    if indexes.contains_key(&n) {
        return Ok(());
    }
    indexes.insert(n, k)?;
    Ok(())
}

/// The first index of each target of a list.
fn index_of(alloc: Global, targets: &[usize]) -> Result<BTreeMap<usize, usize>, AllocError>
    ensures { IfOk result (λ m. Tells m targets.now) }
{
    let mut indexes = BTreeMap::new(alloc);
    for (k, n) in targets.iter().enumerate() {
        enter(&mut indexes, *n, k)?;
    }
    Ok(indexes)
}

/// Makes the map of the list of a feature of the row b, where that is long.
fn add_list(
    alloc: Global,
    rows: &[DocRow],
    b: usize,
    feature: u32,
    lists: &mut BTreeMap<(usize, u32), BTreeMap<usize, usize>>,
) -> Result<(), AllocError>
    requires { TellAll lists.old rows.now }
    ensures { OnOk result (TellAll lists.new rows.now) }
{
    let targets = targets_at(refs_at(rows, b), feature);
    if targets.len() <= FEW {
        return Ok(());
    }
    let list = index_of(alloc, targets)?;
    lists.insert((b, feature), list)?;
    Ok(())
}

/// The same of each of these lists of the row b.
fn add_lists(
    alloc: Global,
    rows: &[DocRow],
    b: usize,
    refs: &[DocRefs],
    lists: &mut BTreeMap<(usize, u32), BTreeMap<usize, usize>>,
) -> Result<(), AllocError>
    requires { TellAll lists.old rows.now }
    ensures { OnOk result (TellAll lists.new rows.now) }
{
    for r in refs {
        add_list(alloc, rows, b, r.feature, lists)?;
    }
    Ok(())
}

/// The maps of the long lists of all rows.
fn lists_of(
    alloc: Global,
    rows: &[DocRow],
) -> Result<BTreeMap<(usize, u32), BTreeMap<usize, usize>>, AllocError>
    ensures { IfOk result (λ lists. TellAll lists rows.now) }
{
    let mut lists = BTreeMap::new(alloc);
    for (b, row) in rows.iter().enumerate() {
        add_lists(alloc, rows, b, row.refs.as_slice(), &mut lists)?;
    }
    Ok(lists)
}
