//! The references of a model with their ranks, indexed by source, by feature and by target.
ghost use Rattle.std.specs.Prelude.{ℕ, is_some, true, false, ◌≡◌, Some, None, OnOk, OnErr, IfOk, map, count_by, ◌||◌, ◌&&◌, nat_eq};
ghost use Rattle.std.specs.BTreeMap as ordered_map;
ghost use Rattle.std.specs.List.{filter};
ghost use Rattle.std.specs.BTreeMap.{IsOrdered};
ghost use Rattle.std.specs.FinMap.{get, empty};
ghost use Rattle.finite_maps.specs.Maps.{set, count};
ghost use Rattle.finite_maps.specs.Tables.{table};
ghost use Rattle.step_apply.specs.Groups.{incoming_rows, members_of, IsOut, HoldIncoming};
ghost use Rattle.finite_maps.specs.Equal.{text_eq};
ghost use Rattle.model_state.specs.Keys.{IdBytes, RowKey, row_cmp};
ghost use Rattle.model_state.specs.Listing.{row_incoming, last_rank, targets, incoming};

use crate::groups::{drop_in, group_in, is_bare, put_in};
use model_state::{Entry, Id, Incoming};
use ranked_lists::RankedList;
use std::alloc::{AllocError, Global};
use std::collections::BTreeMap;
use std::marker::Model;
use texts::List;

/// Whether the row begins or ends at an element.
fn is_row_at(key: &(Id, u32, Id), e: &Id) -> bool
    ensures { result ≡ text_eq e.now key.now.0 || text_eq e.now key.now.2 }
{
    *e == key.0 || *e == key.2
}

/// How many rows begin or end at an element.
fn counted_at(tree: &BTreeMap<(Id, u32, Id), u64>, e: &Id) -> usize
    ensures count { result ≡ count_by (λ k. text_eq e.now k.0 || text_eq e.now k.2) (ordered_map.keys tree.now) }
    ensures ordered { IsOrdered row_cmp tree.now }
{
    // For what the call's contract says.
    let _len = tree.len();
    tree.keys().filter(|key| is_row_at(key, e)).count()
}

/// The key of a row.
pub fn row_key(alloc: Global, a: &Id, f: u32, b: &Id) -> Result<(Id, u32, Id), AllocError>
    ensures { IfOk result (λ k. k ≡ (a.now, f, b.now)) }
{
    Ok((a.copy(alloc)?, f, b.copy(alloc)?))
}

/// Gives a row that is there another rank, or takes it out.
fn rewrite_row(rows: &mut BTreeMap<(Id, u32, Id), u64>, key: &(Id, u32, Id), rank: Option<u64>)
    ensures { is_some (ordered_map.get row_cmp rows.old key.now) ≡ true → table row_cmp rows.new ≡ set (table row_cmp rows.old) key.now rank }
{
    match rank {
        None => {
            rows.remove(key);
        }
        Some(rank) => {
            if let Some(here) = rows.get_mut(key) {
                *here = rank;
            }
        }
    }
}

/// Gives a row that is among those to the element another rank, or takes it out.
fn write_to(
    into: &mut BTreeMap<Id, BTreeMap<(Id, u32, Id), u64>>,
    b: &Id,
    key: &(Id, u32, Id),
    rank: Option<u64>,
)
    ensures here { is_some (get (incoming_rows into.old b.now) key.now) ≡ true → incoming_rows into.new b.now ≡ set (incoming_rows into.old b.now) key.now rank }
    ensures there { (x : IdBytes) → text_eq b.now x ≡ false → incoming_rows into.new x ≡ incoming_rows into.old x }
{
    if let Some(rows) = into.get_mut(b) {
        rewrite_row(rows, key, rank);
    }
}

/// Whether no row ends at the element.
fn is_no_target(into: &BTreeMap<Id, BTreeMap<(Id, u32, Id), u64>>, b: &Id) -> bool
    ensures { result ≡ true → (k : RowKey) → get (incoming_rows into.now b.now) k ≡ None }
{
    match into.get(b) {
        None => true,
        Some(rows) => rows.len() == 0,
    }
}

/// Drops the map of the rows to an element, where there are none.
fn clear_to(into: &mut BTreeMap<Id, BTreeMap<(Id, u32, Id), u64>>, b: &Id)
    ensures { (x : IdBytes) → incoming_rows into.new x ≡ incoming_rows into.old x }
{
    if is_no_target(into, b) {
        into.remove(b);
    }
}

/// Gives a row that is among those to the element another rank, or takes it out; where none is left their map is dropped.
fn rewrite_to(
    into: &mut BTreeMap<Id, BTreeMap<(Id, u32, Id), u64>>,
    b: &Id,
    key: &(Id, u32, Id),
    rank: Option<u64>,
)
    ensures here { is_some (get (incoming_rows into.old b.now) key.now) ≡ true → incoming_rows into.new b.now ≡ set (incoming_rows into.old b.now) key.now rank }
    ensures there { (x : IdBytes) → text_eq b.now x ≡ false → incoming_rows into.new x ≡ incoming_rows into.old x }
{
    write_to(into, b, key, rank);
    clear_to(into, b);
}

/// Puts a row among those to the element.
fn put_to(
    alloc: Global,
    into: &mut BTreeMap<Id, BTreeMap<(Id, u32, Id), u64>>,
    b: &Id,
    key: (Id, u32, Id),
    rank: u64,
) -> Result<(), AllocError>
    ensures here { OnOk result (incoming_rows into.new b.now ≡ set (incoming_rows into.old b.now) key (Some rank)) }
    ensures there { (x : IdBytes) → text_eq b.now x ≡ false → incoming_rows into.new x ≡ incoming_rows into.old x }
    ensures err { OnErr result (incoming_rows into.new b.now ≡ incoming_rows into.old b.now) }
{
    let own = b.copy(alloc)?;
    match into.get_mut(b) {
        Some(rows) => match rows.insert(key, rank) {
            Ok(_) => Ok(()),
            Err(_) => Err(AllocError),
        },
        None => {
            let mut rows = BTreeMap::new(alloc);
            rows.insert(key, rank)?;
            into.insert(own, rows)?;
            Ok(())
        }
    }
}

/// Puts a row among those to its target.
fn put_incoming(
    into: &mut BTreeMap<Id, BTreeMap<(Id, u32, Id), u64>>,
    alloc: Global,
    key: &(Id, u32, Id),
    rank: u64,
) -> Result<(), AllocError>
    ensures here { OnOk result (incoming_rows into.new key.now.2 ≡ set (incoming_rows into.old key.now.2) key.now (Some rank)) }
    ensures there { (x : IdBytes) → text_eq key.now.2 x ≡ false → incoming_rows into.new x ≡ incoming_rows into.old x }
    ensures err { OnErr result (incoming_rows into.new key.now.2 ≡ incoming_rows into.old key.now.2) }
{
    let own = row_key(alloc, &key.0, key.1, &key.2)?;
    put_to(alloc, into, &key.2, own, rank)
}

/// Puts a row's target into the list of its feature.
fn put_outgoing(
    out: &mut BTreeMap<Id, BTreeMap<u32, RankedList>>,
    alloc: Global,
    key: &(Id, u32, Id),
    rank: u64,
) -> Result<(), AllocError>
    ensures here { OnOk result (members_of out.new key.now.0 key.now.1 ≡ set (members_of out.old key.now.0 key.now.1) key.now.2 (Some rank)) }
    ensures same_element { (g : ℕ) → nat_eq key.now.1 g ≡ false → members_of out.new key.now.0 g ≡ members_of out.old key.now.0 g }
    ensures there { (b : IdBytes) (g : ℕ) → text_eq key.now.0 b ≡ false → members_of out.new b g ≡ members_of out.old b g }
    ensures err { OnErr result (members_of out.new key.now.0 key.now.1 ≡ members_of out.old key.now.0 key.now.1) }
{
    let target = key.2.copy(alloc)?;
    put_in(alloc, out, &key.0, key.1, target, rank)
}

/// Puts a row into the tree and into both indexes.
fn put_row(
    alloc: Global,
    tree: &mut BTreeMap<(Id, u32, Id), u64>,
    out: &mut BTreeMap<Id, BTreeMap<u32, RankedList>>,
    into: &mut BTreeMap<Id, BTreeMap<(Id, u32, Id), u64>>,
    key: (Id, u32, Id),
    rank: u64,
) -> Result<(), AllocError>
    ensures out { IsOut tree.old out.old → IsOut tree.new out.new }
    ensures into { HoldIncoming tree.old into.old → HoldIncoming tree.new into.new }
    ensures ok { OnOk result (table row_cmp tree.new ≡ set (table row_cmp tree.old) key (Some rank)) }
    ensures err { OnErr result (tree.new.entries ≡ tree.old.entries) }
{
    let old = tree.get(&key).copied();
    put_incoming(into, alloc, &key, rank)?;
    match put_outgoing(out, alloc, &key, rank) {
        Err(error) => {
            rewrite_to(into, &key.2, &key, old);
            Err(error)
        }
        Ok(()) => match tree.insert(key, rank) {
            Ok(_) => Ok(()),
            Err(back) => {
                let key = &back.value.0;
                drop_in(out, &key.0, key.1, &key.2);
                rewrite_to(into, &key.2, key, None);
                Err(AllocError)
            }
        },
    }
}

/// The rows as they are listed at their target.
fn listed(alloc: Global, rows: &BTreeMap<(Id, u32, Id), u64>) -> Result<List<Incoming>, AllocError>
    ensures rows { IfOk result (λ l. l ≡ map row_incoming rows.now.entries) }
    ensures ordered { IsOrdered row_cmp rows.now }
{
    let mut found = List::new(alloc);
    for (key, rank) in rows {
        found.push(Incoming {
            source: key.0.copy(alloc)?,
            feature: key.1,
            rank: *rank,
        })?;
    }
    Ok(found)
}

/// The ranks of the references, which contracts see as a finite map.
///
/// Beside each row stand the rows of each feature of an element and the rows to each element. So to find, put or take
/// out a row, and to count a feature's targets, costs a logarithm. To list them, or the rows to an element, costs as
/// many steps as are listed.
#[derive(Drop)]
pub struct Rows {
    alloc: Global,
    tree: BTreeMap<(Id, u32, Id), u64>,
    out: BTreeMap<Id, BTreeMap<u32, RankedList>>,
    into: BTreeMap<Id, BTreeMap<(Id, u32, Id), u64>>,
}

impl Model for Rows {
    ghost use Rattle.step_apply.specs.Spots.{RowRanks, ranks_code};
    ghost use Rattle.finite_maps.specs.Tables.{table};
    ghost use Rattle.model_state.specs.Keys.{row_cmp};
    ghost use Rattle.step_apply.specs.Groups.{IsOut, HoldIncoming};

    ghost Value = { RowRanks };

    ghost coded = { ranks_code };

    ghost view = { λ a. table row_cmp a.tree };

    ghost invariant = { λ a. IsOut a.tree a.out × HoldIncoming a.tree a.into };
}

impl Rows {
    /// No rows.
    pub fn new(alloc: Global) -> Rows
        ensures { result ≡ empty }
    {
        Rows {
            alloc,
            tree: BTreeMap::new(alloc),
            out: BTreeMap::new(alloc),
            into: BTreeMap::new(alloc),
        }
    }

    /// The rank of the row from an element to another by a feature, `None` where there is no such row. This takes no memory.
    pub fn rank(&self, a: &Id, f: u32, b: &Id) -> Option<u64>
        ensures { result ≡ get self.now (a.now, f, b.now) }
    {
        match group_in(&self.out, a, f) {
            None => None,
            Some(group) => group.rank(b),
        }
    }

    /// Gives a row its rank, a new row or one that is there. The error is out of memory.
    pub fn put(&mut self, key: (Id, u32, Id), rank: u64) -> Result<(), AllocError>
        ensures ok { OnOk result (self.new ≡ set self.old key (Some rank)) }
        ensures err { OnErr result (self.new ≡ self.old) }
    {
        put_row(
            self.alloc,
            &mut self.tree,
            &mut self.out,
            &mut self.into,
            key,
            rank,
        )
    }

    /// Takes a row away, where there is one.
    pub fn drop_at(&mut self, key: &(Id, u32, Id))
        ensures { self.new ≡ set self.old key.now None }
    {
        if self.tree.remove(key).is_some() {
            drop_in(&mut self.out, &key.0, key.1, &key.2);
            rewrite_to(&mut self.into, &key.2, key, None);
        }
    }

    /// How many targets a feature of an element has.
    pub fn count_of(&self, a: &Id, f: u32) -> usize
        ensures { result ≡ count (λ e. text_eq a.now e.0.0 && nat_eq f e.0.1) self.now }
    {
        match group_in(&self.out, a, f) {
            None => 0,
            Some(group) => group.len(),
        }
    }

    /// How many rows begin or end at an element. This costs a logarithm where there is none, and otherwise goes over all
    /// rows.
    pub fn count_at(&self, e: &Id) -> usize
        ensures { result ≡ count (λ x. text_eq e.now x.0.0 || text_eq e.now x.0.2) self.now }
    {
        if is_bare(&self.out, e) && is_no_target(&self.into, e) {
            return 0;
        }
        counted_at(&self.tree, e)
    }

    /// The rank of the last target of a feature of an element, `None` where there is none.
    pub fn last_target(&self, a: &Id, f: u32) -> Option<u64>
        ensures { result ≡ last_rank (targets self.now a.now f) }
    {
        match group_in(&self.out, a, f) {
            None => None,
            Some(group) => group.last(),
        }
    }

    /// The targets of a feature of an element, by rank and then by id. This goes over these alone, whatever else the model holds.
    pub fn targets(&self, alloc: Global, a: &Id, f: u32) -> Result<List<Entry>, AllocError>
        ensures { IfOk result (λ l. l ≡ targets self.now a.now f) }
    {
        match group_in(&self.out, a, f) {
            None => Ok(List::new(alloc)),
            Some(group) => group.list(alloc),
        }
    }

    /// The rows to an element, by source and then by feature. This goes over these alone.
    pub fn incoming(&self, alloc: Global, b: &Id) -> Result<List<Incoming>, AllocError>
        ensures { IfOk result (λ l. l ≡ incoming self.now b.now) }
    {
        match self.into.get(b) {
            None => Ok(List::new(alloc)),
            Some(rows) => listed(alloc, rows),
        }
    }
}
