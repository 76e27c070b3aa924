//! The index of the features that versions wrote.
ghost use Rattle.std.specs.Prelude.{ℕ, ◌≡◌, ◌+◌, ◌<◌, ◌++◌, ◌∷◌, [], List, All, length, IfOk, OnOk, OnErr};
ghost use Rattle.std.specs.List.{list_any};
ghost use Rattle.history_tree.specs.Laws.{Rises};
ghost use Rattle.history_tree.specs.MergeBase.{is_among};
ghost use Rattle.history_tree.specs.Room.{most_numbered};
ghost use Rattle.change_index.specs.Last.{IsLast};
ghost use Rattle.change_index.specs.Written.{written};
ghost use Rattle.change_index.specs.Table.{row, pairs_below, AreRows};
ghost use Rattle.change_index.specs.Index.{wrote_in, index_of, AreFeatures};

use crate::common::last_common;
use crate::table::{cut_prints, listed, put_prints, row_of};
use ecore_meta::Metamodel;
use footprint::prints_of;
use history_tree::{History, Version};
use model_state::{Id, Operation};
use std::alloc::{AllocError, Global};
use std::collections::BTreeMap;
use std::marker::Model;
use texts::List;

/// Which features of which elements each of some versions wrote. Contracts see a set of pairs a version, in the order in which
/// the versions were added. It is kept as the versions that wrote each feature, so its memory grows with what was written.
#[derive(Drop)]
pub struct ChangeIndex {
    table: BTreeMap<Id, BTreeMap<u32, Vec<u32>>>,
    count: u32,
}

impl Model for ChangeIndex {
    ghost use Rattle.std.specs.Prelude.{List};
    ghost use Rattle.std.specs.Coded.{coded_list};
    ghost use Rattle.change_index.specs.Written.{Pairs, pairs_code};
    ghost use Rattle.change_index.specs.Table.{pairs_below, AreRows};

    ghost Value = { List Pairs };

    ghost coded = { coded_list pairs_code };

    ghost view = { λ x. pairs_below x.table x.count };

    ghost invariant = { λ x. AreRows x.table x.count };
}

/// Adds what the operations write as the version of that number. Where there is no memory for that, the table is as it was, but for empty lists.
fn add_to(
    alloc: Global,
    table: &mut BTreeMap<Id, BTreeMap<u32, Vec<u32>>>,
    version: u32,
    ops: &[Operation],
    meta: &Metamodel,
) -> Result<(), AllocError>
    ensures rows { OnOk result (AreRows table.old version → AreRows table.new (version + 1)) }
    ensures pairs { OnOk result (AreRows table.old version → pairs_below table.new (version + 1) ≡ pairs_below table.old version ++ written meta.now ops.now ∷ []) }
    ensures same_rows { OnErr result (AreRows table.old version → AreRows table.new version) }
    ensures same_pairs { OnErr result (AreRows table.old version → pairs_below table.new version ≡ pairs_below table.old version) }
{
    let prints = prints_of(alloc, ops, meta)?;
    let written = prints.as_slice();
    match put_prints(alloc, table, written, version) {
        Ok(()) => Ok(()),
        Err(_) => {
            cut_prints(table, written, version);
            Err(AllocError)
        }
    }
}

/// Whether a version of the path wrote the feature, by an element's rows.
fn is_written(rows: &BTreeMap<u32, Vec<u32>>, feature: u32, path: &[u32]) -> bool
    requires path { Rises path.now }
    requires rows { Rises (row rows.now feature) }
    ensures { result ≡ list_any (is_among (row rows.now feature)) path.now }
{
    last_common(path, row_of(rows, feature)).is_some()
}

/// The features of an element's rows with a version that is on the path.
fn features_of(
    alloc: Global,
    rows: &BTreeMap<u32, Vec<u32>>,
    path: &[u32],
) -> Result<List<u32>, AllocError>
    requires path { Rises path.now }
    requires rows { (f : ℕ) → Rises (row rows.now f) }
    ensures rise { IfOk result (λ features. Rises features) }
    ensures those { IfOk result (λ features. (f : ℕ) → is_among features f ≡ list_any (is_among (row rows.now f)) path.now) }
{
    let mut features = List::new(alloc);
    for feature in rows.keys() {
        if is_written(rows, *feature, path) {
            features.push(*feature)?;
        }
    }
    Ok(features)
}

impl ChangeIndex {
    /// The index of no version.
    pub fn new(alloc: Global) -> ChangeIndex
        ensures { result ≡ [] }
    {
        ChangeIndex {
            table: BTreeMap::new(alloc),
            count: 0,
        }
    }

    /// How many versions were added.
    pub fn count(&self) -> u32
        ensures { result ≡ length self.now }
    {
        self.count
    }

    /// Adds the version of the next number. The error is out of memory.
    pub fn add(
        &mut self,
        alloc: Global,
        meta: &Metamodel,
        version: &Version,
    ) -> Result<(), AllocError>
        requires room { length self.old < most_numbered }
        ensures ok { OnOk result (self.new ≡ self.old ++ written meta.now version.now.«package» ∷ []) }
        ensures err { OnErr result (self.new ≡ self.old) }
    {
        add_to(
            alloc,
            &mut self.table,
            self.count,
            version.package.as_slice(),
            meta,
        )?;
        self.count += 1;
        Ok(())
    }

    /// The last version of a path that wrote the feature of the element, if one did. This takes no memory. Its work grows with
    /// the number of runs in which the path and the versions that wrote the feature alternate, and with the logarithm of their lengths.
    pub fn last(&self, path: &List<u32>, e: &Id, f: u32) -> Option<u32>
        requires rises { Rises path.now }
        requires low { All (λ u. u < length self.now) path.now }
        ensures { IsLast (wrote_in self.now e.now f) path.now result }
    {
        let path = path.as_slice();
        let versions = listed(&self.table, e, f);
        last_common(path, versions)
    }

    /// The features of the element that a version of the path wrote, rising.
    pub fn features(&self, alloc: Global, path: &List<u32>, e: &Id) -> Result<List<u32>, AllocError>
        requires rises { Rises path.now }
        requires low { All (λ u. u < length self.now) path.now }
        ensures { IfOk result (λ features. AreFeatures self.now path.now e.now features) }
    {
        match self.table.get(e) {
            None => Ok(List::new(alloc)),
            Some(rows) => features_of(alloc, rows, path.as_slice()),
        }
    }
}

/// The index of all versions of a history.
pub fn index_of(
    alloc: Global,
    meta: &Metamodel,
    history: &History,
) -> Result<ChangeIndex, AllocError>
    ensures { IfOk result (λ index. index ≡ index_of meta.now history.now.history.versions) }
{
    let mut index = ChangeIndex::new(alloc);
    for v in 0..history.version_count() {
        index.add(alloc, meta, history.version(v))?;
    }
    Ok(index)
}
