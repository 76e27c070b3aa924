//! A few entries in order, in one vector.
ghost use Rattle.std.specs.Prelude.{◌≡◌, Some, None, OnOk, OnErr, IfOk, position};
ghost use Rattle.finite_maps.specs.Equal.{text_eq};
ghost use Rattle.finite_maps.specs.Maps.{set};
ghost use Rattle.model_state.specs.declared.entry.Entry.{Entry};
ghost use Rattle.ranked_lists.specs.Ranked.{rank_of, rank_map, AreRanked};

use model_state::{Entry, Id};
use std::alloc::{AllocError, Global};

/// The index of an element among entries.
fn index_of(entries: &[Entry], e: &Id) -> Option<usize>
    ensures { result ≡ position (λ (x : Entry). text_eq x.id e.now) entries.now }
{
    entries.iter().position(|x| x.id == *e)
}

/// The rank of an element among entries.
pub fn rank_among(entries: &[Entry], e: &Id) -> Option<u64>
    ensures { result ≡ rank_of entries.now e.now }
{
    match index_of(entries, e) {
        None => None,
        Some(at) => Some(entries[at].rank),
    }
}

/// Makes room for a first entry, and for no more.
fn make_room(entries: &mut Vec<Entry>) -> Result<(), AllocError>
    ensures { entries.new.items ≡ entries.old.items }
{
    if entries.len() == 0 {
        entries.reserve_exact(1)
    } else {
        Ok(())
    }
}

/// Puts an element in. The error is out of memory.
fn add_among(entries: &mut Vec<Entry>, e: Id, rank: u64) -> Result<(), AllocError>
    requires ranked { AreRanked entries.old.items }
    requires absent { rank_of entries.old.items e ≡ None }
    ensures ranked { AreRanked entries.new.items }
    ensures ok { OnOk result (rank_map entries.new.items ≡ set (rank_map entries.old.items) e (Some rank)) }
    ensures err { OnErr result (entries.new.items ≡ entries.old.items) }
{
    make_room(entries)?;
    entries.push(Entry { rank, id: e })?;
    entries.sort_unstable();
    Ok(())
}

/// Gives the element at an index another rank. This takes no memory.
fn rerank_among(entries: &mut Vec<Entry>, e: &Id, at: usize, rank: u64)
    requires ranked { AreRanked entries.old.items }
    requires at { position (λ (x : Entry). text_eq x.id e.now) entries.old.items ≡ Some at }
    ensures ranked { AreRanked entries.new.items }
    ensures ranks { rank_map entries.new.items ≡ set (rank_map entries.old.items) e.now (Some rank) }
{
    entries[at].rank = rank;
    entries.sort_unstable();
}

/// Gives an element its rank, a new element or one that is there. The error is out of memory.
pub fn put_among(entries: &mut Vec<Entry>, e: Id, rank: u64) -> Result<(), AllocError>
    requires { AreRanked entries.old.items }
    ensures ranked { AreRanked entries.new.items }
    ensures ok { OnOk result (rank_map entries.new.items ≡ set (rank_map entries.old.items) e (Some rank)) }
    ensures err { OnErr result (entries.new.items ≡ entries.old.items) }
{
    match index_of(entries.as_slice(), &e) {
        Some(at) => {
            rerank_among(entries, &e, at, rank);
            Ok(())
        }
        None => add_among(entries, e, rank),
    }
}

/// Takes an element out, where it is there. This takes no memory.
pub fn drop_among(entries: &mut Vec<Entry>, e: &Id)
    requires { AreRanked entries.old.items }
    ensures ranked { AreRanked entries.new.items }
    ensures ranks { rank_map entries.new.items ≡ set (rank_map entries.old.items) e.now None }
{
    if let Some(at) = index_of(entries.as_slice(), e) {
        entries.remove(at);
    }
}

/// The same entries in memory of their own.
pub fn copied_entries(alloc: Global, entries: &[Entry]) -> Result<Vec<Entry>, AllocError>
    ensures { IfOk result (λ v. v.items ≡ entries.now) }
{
    let mut found = Vec::new(alloc);
    for entry in entries {
        found.push(Entry {
            rank: entry.rank,
            id: entry.id.copy(alloc)?,
        })?;
    }
    Ok(found)
}
