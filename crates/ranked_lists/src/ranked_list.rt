//! One list of elements with their ranks, found by id and ordered by rank.
ghost use Rattle.std.specs.Prelude.{◌≡◌, Some, None, OnOk, OnErr, IfOk, length, slice_get};
ghost use Rattle.std.specs.FinMap.{get, entries, empty};
ghost use Rattle.std.specs.Option.{option_copied};
ghost use Rattle.finite_maps.specs.Maps.{set};
ghost use Rattle.spread_maps.specs.Spread.{is_bare};
ghost use Rattle.model_state.specs.Listing.{last_rank};
ghost use Rattle.ranked_lists.specs.Ranks.{entries_by_rank};
ghost use Rattle.ranked_lists.specs.Ranked.{rank_map, AreRanked};

use crate::few::{copied_entries, drop_among, put_among, rank_among};
use crate::many::Many;
use model_state::{Entry, Id};
use std::alloc::{AllocError, Global};
use std::marker::Model;
use texts::List;

/// How many entries one vector has at most.
const FEW: usize = 16;

/// Elements with their ranks, which contracts see as a finite map.
///
/// A list begins in one vector, by rank and then by id. Once it has more than `FEW` entries, and for good, it stands in
/// a hash table by id. It stands in an ordered set too, by rank and then by id. Then to find an element costs a look-up
/// by hash. To put it in, to take it out and to find the last costs a logarithm more. To find the entry at an index
/// costs as many steps as entries lie between it and the nearer end. To list costs a copy of each entry.
#[derive(Drop)]
pub struct RankedList {
    few: Vec<Entry>,
    many: Option<Box<Many>>,
}

impl Model for RankedList {
    ghost use Rattle.ranked_lists.specs.Ranks.{Ranks, ranks_code};
    ghost use Rattle.ranked_lists.specs.Ranked.{held, IsHeld};

    ghost Value = { Ranks };

    ghost coded = { ranks_code };

    ghost view = { λ a. held a.few.items a.many };

    ghost invariant = { λ a. IsHeld a.few.items a.many };
}

/// The same entries by id and by rank.
fn many_of(alloc: Global, entries: &[Entry]) -> Result<Many, AllocError>
    requires { AreRanked entries.now }
    ensures { IfOk result (λ m. m ≡ rank_map entries.now) }
{
    let mut many = Many::new(alloc);
    for entry in entries {
        many.put(alloc, entry.id.copy(alloc)?, entry.rank)?;
    }
    Ok(many)
}

/// The same entries by id and by rank, where an element has another rank or is new.
fn grown(alloc: Global, entries: &[Entry], e: Id, rank: u64) -> Result<Box<Many>, AllocError>
    requires { AreRanked entries.now }
    ensures { IfOk result (λ m. m.value ≡ set (rank_map entries.now) e (Some rank)) }
{
    let mut many = many_of(alloc, entries)?;
    many.put(alloc, e, rank)?;
    Ok(Box::new(alloc, many)?)
}

/// The same elements, in memory of their own.
fn copied_many(alloc: Global, many: &Many) -> Result<Many, AllocError>
    ensures { IfOk result (λ m. m ≡ many.now) }
{
    let entries = many.list(alloc)?;
    many_of(alloc, entries.as_slice())
}

impl RankedList {
    /// No element.
    pub fn new(alloc: Global) -> RankedList
        ensures { result ≡ empty }
    {
        RankedList {
            few: Vec::new(alloc),
            many: None,
        }
    }

    /// The rank of an element, `None` where it isn't there.
    pub fn rank(&self, e: &Id) -> Option<u64>
        ensures { result ≡ get self.now e.now }
    {
        match &self.many {
            None => rank_among(self.few.as_slice(), e),
            Some(many) => many.rank(e),
        }
    }

    /// How many elements there are.
    pub fn len(&self) -> usize
        ensures { result ≡ length (entries self.now) }
    {
        match &self.many {
            None => self.few.len(),
            Some(many) => many.len(),
        }
    }

    /// Whether there is no element.
    pub fn is_empty(&self) -> bool
        ensures { result ≡ is_bare self.now }
    {
        self.len() == 0
    }

    /// Gives an element its rank, a new element or one that is there. The error is out of memory.
    pub fn put(&mut self, alloc: Global, e: Id, rank: u64) -> Result<(), AllocError>
        ensures ok { OnOk result (self.new ≡ set self.old e (Some rank)) }
        ensures err { OnErr result (self.new ≡ self.old) }
    {
        match &mut self.many {
            Some(many) => many.put(alloc, e, rank),
            None => {
                if self.few.len() < FEW || rank_among(self.few.as_slice(), &e).is_some() {
                    put_among(&mut self.few, e, rank)
                } else {
                    let many = grown(alloc, self.few.as_slice(), e, rank)?;
                    self.many = Some(many);
                    self.few = Vec::new(alloc);
                    Ok(())
                }
            }
        }
    }

    /// Takes an element out, where it is there. This takes no memory.
    pub fn drop_at(&mut self, e: &Id)
        ensures { self.new ≡ set self.old e.now None }
    {
        match &mut self.many {
            Some(many) => many.drop_at(e),
            None => drop_among(&mut self.few, e),
        }
    }

    /// The rank of the last, `None` where there is no element.
    pub fn last(&self) -> Option<u64>
        ensures { result ≡ last_rank (entries_by_rank self.now) }
    {
        match &self.many {
            Some(many) => many.last(),
            None => match self.few.last() {
                None => None,
                Some(entry) => Some(entry.rank),
            },
        }
    }

    /// The entry at an index, `None` past the last. This goes over the entries before it, or over those after it where
    /// they are fewer.
    pub fn entry_at(&self, index: usize) -> Option<&Entry>
        ensures { option_copied result ≡ slice_get (entries_by_rank self.now) index }
    {
        match &self.many {
            Some(many) => many.entry_at(index),
            None => self.few.get(index),
        }
    }

    /// The entries by rank and then by id. This sorts nothing.
    pub fn list(&self, alloc: Global) -> Result<List<Entry>, AllocError>
        ensures { IfOk result (λ l. l ≡ entries_by_rank self.now) }
    {
        match &self.many {
            Some(many) => many.list(alloc),
            None => Ok(List::from_vec(copied_entries(alloc, self.few.as_slice())?)),
        }
    }

    /// The same list in memory of its own.
    pub fn copy(&self, alloc: Global) -> Result<RankedList, AllocError>
        ensures { IfOk result (λ l. l ≡ self.now) }
    {
        match &self.many {
            None => Ok(RankedList {
                few: copied_entries(alloc, self.few.as_slice())?,
                many: None,
            }),
            Some(many) => Ok(RankedList {
                few: Vec::new(alloc),
                many: Some(Box::new(alloc, copied_many(alloc, many)?)?),
            }),
        }
    }
}
