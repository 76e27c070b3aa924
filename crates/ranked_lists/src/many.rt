//! Many entries: by id in a hash table, and by rank in an ordered set.
ghost use Rattle.std.specs.Prelude.{◌≡◌, Some, None, IsSome, OnOk, OnErr, IfOk, length, slice_get};
ghost use Rattle.std.specs.BTreeSet.{IsOrdered};
ghost use Rattle.std.specs.FinMap.{get, entries, empty};
ghost use Rattle.std.specs.Option.{option_copied};
ghost use Rattle.finite_maps.specs.Maps.{set};
ghost use Rattle.model_state.specs.Listing.{entry_cmp, last_rank};
ghost use Rattle.ranked_lists.specs.Ranks.{Ranks, entries_by_rank};
ghost use Rattle.ranked_lists.specs.Ranked.{named, IsTableOf};

use indexmap::IndexMap;
use model_state::{Entry, Id};
use std::alloc::{AllocError, Global};
use std::collections::BTreeSet;
use std::marker::Model;
use texts::List;

/// Elements with their ranks: each entry by the text of its id in a hash table, and once more in an ordered set.
#[derive(Drop)]
pub struct Many {
    by_id: IndexMap<String, Entry>,
    by_rank: BTreeSet<Entry>,
}

impl Model for Many {
    ghost use Rattle.ranked_lists.specs.Ranks.{Ranks, ranks_code};
    ghost use Rattle.ranked_lists.specs.Ranked.{rank_map, AreRanked, named, IsTableOf};

    ghost Value = { Ranks };

    ghost coded = { ranks_code };

    ghost view = { λ a. rank_map a.by_rank.keys };

    ghost invariant = { λ a. AreRanked a.by_rank.keys × IsTableOf (named a.by_id.entries) (rank_map a.by_rank.keys) };
}

/// Writes the rank of an element in a table, where it is there. This takes no memory.
fn write_rank(by_id: &mut IndexMap<String, Entry>, e: &Id, rank: u64)
    ensures { (m : Ranks) → IsTableOf (named by_id.old.entries) m → IsSome (get m e.now) → IsTableOf (named by_id.new.entries) (set m e.now (Some rank)) }
{
    if let Some(here) = by_id.get_mut(e.as_str()) {
        here.rank = rank;
    }
}

impl Many {
    /// No element.
    pub fn new(alloc: Global) -> Many
        ensures { result ≡ empty }
    {
        Many {
            by_id: IndexMap::new(alloc),
            by_rank: BTreeSet::new(alloc),
        }
    }

    /// The rank of an element, `None` where it isn't there.
    pub fn rank(&self, e: &Id) -> Option<u64>
        ensures { result ≡ get self.now e.now }
    {
        match self.by_id.get(e.as_str()) {
            None => None,
            Some(entry) => Some(entry.rank),
        }
    }

    /// How many elements there are.
    pub fn len(&self) -> usize
        ensures { result ≡ length (entries self.now) }
    {
        self.by_rank.len()
    }

    /// Puts an element in. The error is out of memory.
    fn put_new(&mut self, alloc: Global, e: Id, rank: u64) -> Result<(), AllocError>
        requires { get self.old e ≡ None }
        ensures ok { OnOk result (self.new ≡ set self.old e (Some rank)) }
        ensures err { OnErr result (self.new ≡ self.old) }
    {
        let text = String::from_str(alloc, e.as_str())?;
        let id = e.copy(alloc)?;
        drop(self.by_id.insert(text, Entry { rank, id })?);
        match self.by_rank.insert(Entry { rank, id: e }) {
            Ok(_) => Ok(()),
            Err(failed) => {
                drop(self.by_id.swap_remove(failed.value.id.as_str()));
                drop(failed);
                Err(AllocError)
            }
        }
    }

    /// Gives an element that is there another rank. The error is out of memory.
    fn rerank(&mut self, alloc: Global, e: Id, old: u64, rank: u64) -> Result<(), AllocError>
        requires { get self.old e ≡ Some old }
        ensures ok { OnOk result (self.new ≡ set self.old e (Some rank)) }
        ensures err { OnErr result (self.new ≡ self.old) }
    {
        if old == rank {
            return Ok(());
        }
        let stale = Entry {
            rank: old,
            id: e.copy(alloc)?,
        };
        self.by_rank.insert(Entry { rank, id: e })?;
        self.by_rank.remove(&stale);
        write_rank(&mut self.by_id, &stale.id, rank);
        Ok(())
    }

    /// Gives an element its rank, a new element or one that is there. The error is out of memory.
    pub fn put(&mut self, alloc: Global, e: Id, rank: u64) -> Result<(), AllocError>
        ensures ok { OnOk result (self.new ≡ set self.old e (Some rank)) }
        ensures err { OnErr result (self.new ≡ self.old) }
    {
        match self.rank(&e) {
            None => self.put_new(alloc, e, rank),
            Some(old) => self.rerank(alloc, e, old, rank),
        }
    }

    /// Takes an element out, where it is there. This takes no memory.
    pub fn drop_at(&mut self, e: &Id)
        ensures { self.new ≡ set self.old e.now None }
    {
        if let Some(entry) = self.by_id.swap_remove(e.as_str()) {
            self.by_rank.remove(&entry);
            drop(entry);
        }
    }

    /// The rank of the last, `None` where there is no element.
    pub fn last(&self) -> Option<u64>
        ensures { result ≡ last_rank (entries_by_rank self.now) }
    {
        match self.by_rank.last() {
            None => None,
            Some(entry) => Some(entry.rank),
        }
    }

    /// The entry at an index, `None` past the last. This goes over the entries before it, or over those after it where
    /// they are fewer.
    pub fn entry_at(&self, index: usize) -> Option<&Entry>
        ensures { option_copied result ≡ slice_get (entries_by_rank self.now) index }
    {
        let count = self.by_rank.len();
        if index >= count {
            None
        } else if index < count / 2 {
            self.by_rank.iter().nth(index)
        } else {
            self.by_rank.iter().nth_back(count - 1 - index)
        }
    }

    /// The entries by rank and then by id. This sorts nothing.
    pub fn list(&self, alloc: Global) -> Result<List<Entry>, AllocError>
        ensures { IfOk result (λ l. l ≡ entries_by_rank self.now) }
    {
        entries_of(alloc, &self.by_rank)
    }
}

/// The entries of a set, in its order.
fn entries_of(alloc: Global, by_rank: &BTreeSet<Entry>) -> Result<List<Entry>, AllocError>
    ensures entries { IfOk result (λ l. l ≡ by_rank.now.keys) }
    ensures ordered { IsOrdered entry_cmp by_rank.now }
{
    let mut found = List::new(alloc);
    for entry in by_rank {
        found.push(Entry {
            rank: entry.rank,
            id: entry.id.copy(alloc)?,
        })?;
    }
    Ok(found)
}
