//! The rank for a new entry of a list at an index, with the renumbering of the list where no rank is free.
ghost use Rattle.std.specs.Prelude.{◌≡◌, ◌≤◌, ◌<◌, ◌*◌, ◌++◌, OnOk, IfSome, length, slice_get, is_some, not, unwrap_or, cond, nat_eq, nat_lt, ◌-◌, ◌+◌, Some, None, true};
ghost use Rattle.std.specs.Option.{option_map};
ghost use Rattle.model_state.specs.Ranks.{rank_between, most_entries, rank_gap};
ghost use Rattle.edit_steps.specs.Spot.{rank_for, ranks_of, evened, spot};
ghost use Rattle.edit_steps.specs.Rows.{reranks};

use model_state::{Entry, Id, MOST_ENTRIES, RANK_GAP, Step, rank_between};
use std::alloc::{AllocError, Global};
use texts::List;

/// A list into which an entry is inserted.
#[derive(Drop)]
pub struct Insertion {
    /// The other entries.
    pub others: List<Entry>,
    /// Where the entry is to stand among them.
    pub index: usize,
    /// Whether the others are to be renumbered before.
    pub reranks: bool,
    /// The rank of the entry.
    pub rank: u64,
}

/// The rank between two, None also where they do not rise.
fn rank_within(before: u64, next: Option<u64>) -> Option<u64>
    ensures { result ≡ rank_between before next }
{
    match next {
        None => rank_between(before, None),
        Some(next) => {
            if next < before {
                None
            } else {
                rank_between(before, Some(next))
            }
        }
    }
}

fn rank_before(list: &[Entry], k: usize) -> u64
    ensures { result ≡ cond (nat_eq k 0) 0 (unwrap_or (slice_get (ranks_of list.now) (k - 1)) 0) }
{
    if k == 0 {
        0
    } else {
        match list.get(k - 1) {
            None => 0,
            Some(x) => x.rank,
        }
    }
}

fn rank_at(list: &[Entry], k: usize) -> Option<u64>
    ensures { result ≡ slice_get (ranks_of list.now) k }
{
    match list.get(k) {
        None => None,
        Some(x) => Some(x.rank),
    }
}

/// The rank at index k of n entries that are evenly spread.
fn even_rank(n: usize, k: usize) -> Option<u64>
    requires small { n < most_entries }
    requires within { k ≤ n }
    ensures { result ≡ rank_between (k * rank_gap) (cond (nat_lt k n) (Some ((k + 1) * rank_gap)) None) }
{
    let before = (k as u64) * RANK_GAP;
    if k < n {
        rank_within(before, Some((k as u64 + 1) * RANK_GAP))
    } else {
        rank_within(before, None)
    }
}

/// The rank of an entry at index k of the others, None where the list is too long to be renumbered.
fn find_rank(list: &[Entry], k: usize) -> Option<(bool, u64)>
    requires { k ≤ length list.now }
    ensures rank { option_map (λ s. s.1) result ≡ (spot list.now k).rank }
    ensures reranks { IfSome result (λ s. s.0 ≡ not (is_some (rank_for (ranks_of list.now) k))) }
    ensures small { IfSome result (λ s. s.0 ≡ true → length list.now < most_entries) }
{
    match rank_within(rank_before(list, k), rank_at(list, k)) {
        Some(rank) => Some((false, rank)),
        None => {
            if list.len() >= MOST_ENTRIES {
                return None;
            }
            match even_rank(list.len(), k) {
                None => None,
                Some(rank) => Some((true, rank)),
            }
        }
    }
}

impl Insertion {
    /// The insertion of an entry into a list at an index. None where there is no room and the list is too long to be
    /// renumbered.
    pub fn find(others: List<Entry>, index: usize) -> Option<Insertion>
        requires { index ≤ length others }
        ensures others { IfSome result (λ o. o.others ≡ others) }
        ensures index { IfSome result (λ o. o.index ≡ index) }
        ensures rank { option_map (λ o. o.rank) result ≡ (spot others index).rank }
        ensures reranks { IfSome result (λ o. o.reranks ≡ not (is_some (rank_for (ranks_of others) index))) }
        ensures small { IfSome result (λ o. o.reranks ≡ true → length others < most_entries) }
    {
        let (reranks, rank) = find_rank(others.as_slice(), index)?;
        Some(Insertion {
            others,
            index,
            reranks,
            rank,
        })
    }
}

/// A step for each entry whose rank changes, where all are spread evenly.
fn even_reranks(
    alloc: Global,
    a: &Id,
    f: u32,
    list: &[Entry],
    steps: &mut List<Step>,
) -> Result<(), AllocError>
    requires { length list.now < most_entries }
    ensures { OnOk result (steps.new ≡ steps.old ++ reranks a.now f list.now (evened 1 list.now)) }
{
    for (i, x) in list.iter().enumerate() {
        let new = (i as u64 + 1) * RANK_GAP;
        if x.rank != new {
            steps.push(Step::RerankRow {
                a: a.copy(alloc)?,
                f,
                b: x.id.copy(alloc)?,
                old: x.rank,
                new,
            })?;
        }
    }
    Ok(())
}

/// The reranks of the others, where there is no room.
pub fn rerank(
    alloc: Global,
    a: &Id,
    f: u32,
    insertion: &Insertion,
    steps: &mut List<Step>,
) -> Result<(), AllocError>
    requires reranks { insertion.now.reranks ≡ not (is_some (rank_for (ranks_of insertion.now.others) insertion.now.index)) }
    requires small { insertion.now.reranks ≡ true → length insertion.now.others < most_entries }
    ensures { OnOk result (steps.new ≡ steps.old ++ reranks a.now f insertion.now.others (spot insertion.now.others insertion.now.index).ranks) }
{
    if insertion.reranks {
        even_reranks(alloc, a, f, insertion.others.as_slice(), steps)
    } else {
        Ok(())
    }
}
