//! The lists of an element's features, as one finite map.
ghost use Rattle.std.specs.Prelude.{◌≡◌, ℕ, Some, None, OnOk, OnErr, IfOk, unwrap_or, nat_eq, position};
ghost use Rattle.std.specs.Option.{option_copied, option_map};
ghost use Rattle.std.specs.FinMap.{get, empty};
ghost use Rattle.finite_maps.specs.Maps.{set};
ghost use Rattle.spread_maps.specs.Spread.{is_bare};
ghost use Rattle.model_state.specs.Keys.{IdBytes};
ghost use Rattle.ranked_lists.specs.Ranks.{Ranks};
ghost use Rattle.graph_parts.specs.Parts.{flat, is_emptied, if_filled};

use crate::by_feature::{add, index_of, without};
use crate::copies::copied_lists;
use model_state::Id;
use ranked_lists::RankedList;
use std::alloc::{AllocError, Global};
use std::marker::Model;

/// Puts an element into the list at an index. The error is out of memory.
fn put_at(
    alloc: Global,
    items: &mut Vec<(u32, RankedList)>,
    f: u32,
    at: usize,
    e: Id,
    rank: u64,
) -> Result<(), AllocError>
    requires { position (λ (x : ℕ × Ranks). nat_eq x.0 f) items.old.items ≡ Some at }
    ensures ok { OnOk result (flat items.new.items ≡ set (flat items.old.items) f (Some (set (unwrap_or (get (flat items.old.items) f) empty) e (Some rank)))) }
    ensures err { OnErr result (flat items.new.items ≡ flat items.old.items) }
{
    items[at].1.put(alloc, e, rank)
}

/// Puts an element into a list of its own, of a feature that has none. The error is out of memory.
fn put_first(
    alloc: Global,
    items: &mut Vec<(u32, RankedList)>,
    f: u32,
    e: Id,
    rank: u64,
) -> Result<(), AllocError>
    requires { position (λ (x : ℕ × Ranks). nat_eq x.0 f) items.old.items ≡ None }
    ensures ok { OnOk result (flat items.new.items ≡ set (flat items.old.items) f (Some (set empty e (Some rank)))) }
    ensures err { OnErr result (items.new.items ≡ items.old.items) }
{
    let mut group = RankedList::new(alloc);
    group.put(alloc, e, rank)?;
    add(items, f, group)
}

/// Puts an element into the list of a feature. The error is out of memory.
fn put_of(
    alloc: Global,
    items: &mut Vec<(u32, RankedList)>,
    f: u32,
    e: Id,
    rank: u64,
) -> Result<(), AllocError>
    ensures ok { OnOk result (flat items.new.items ≡ set (flat items.old.items) f (Some (set (unwrap_or (get (flat items.old.items) f) empty) e (Some rank)))) }
    ensures err { OnErr result (flat items.new.items ≡ flat items.old.items) }
{
    match index_of(items.as_slice(), f) {
        Some(at) => put_at(alloc, items, f, at, e, rank),
        None => put_first(alloc, items, f, e, rank),
    }
}

/// Takes an element out of the list at an index, and answers whether that list is empty now.
fn drop_listed(items: &mut Vec<(u32, RankedList)>, f: u32, at: usize, e: &Id) -> bool
    requires { position (λ (x : ℕ × Ranks). nat_eq x.0 f) items.old.items ≡ Some at }
    ensures items { flat items.new.items ≡ set (flat items.old.items) f (option_map (λ g. set g e.now None) (get (flat items.old.items) f)) }
    ensures emptied { result ≡ is_emptied (option_map (λ g. set g e.now None) (get (flat items.old.items) f)) }
{
    let group = &mut items[at].1;
    group.drop_at(e);
    group.is_empty()
}

/// Takes an element out of the list of a feature, and answers whether that list is there and empty now.
fn drop_of(items: &mut Vec<(u32, RankedList)>, f: u32, e: &Id) -> bool
    ensures items { flat items.new.items ≡ set (flat items.old.items) f (option_map (λ g. set g e.now None) (get (flat items.old.items) f)) }
    ensures emptied { result ≡ is_emptied (option_map (λ g. set g e.now None) (get (flat items.old.items) f)) }
{
    match index_of(items.as_slice(), f) {
        Some(at) => drop_listed(items, f, at, e),
        None => false,
    }
}

/// Takes an element out of the list of a feature, and the list too once it is empty.
fn drop_in(items: &mut Vec<(u32, RankedList)>, f: u32, e: &Id)
    ensures { flat items.new.items ≡ set (flat items.old.items) f (if_filled (option_map (λ g. set g e.now None) (get (flat items.old.items) f))) }
{
    if drop_of(items, f, e) {
        without(items, f);
    }
}

/// The lists of all features of an element. Contracts see them as a finite map from a feature and an element of its
/// list to the rank there. No list without elements is kept. Few features of an element have one, so they stand in one
/// vector, which is searched from its beginning. Then to find, put in or take out an element costs what it does in a
/// list.
#[derive(Drop)]
pub struct FeatureLists {
    items: Vec<(u32, RankedList)>,
}

impl Model for FeatureLists {
    ghost use Rattle.graph_parts.specs.Parts.{Lists, lists_code, feature_lists, AreFilled};

    ghost Value = { Lists };

    ghost coded = { lists_code };

    ghost view = { λ a. feature_lists a.items.items };

    ghost invariant = { λ a. AreFilled a.items.items };
}

impl FeatureLists {
    /// No elements.
    pub fn new(alloc: Global) -> FeatureLists
        ensures { result ≡ empty }
    {
        FeatureLists {
            items: Vec::new(alloc),
        }
    }

    /// The same in memory of its own.
    pub fn copy(&self, alloc: Global) -> Result<FeatureLists, AllocError>
        ensures { IfOk result (λ x. x ≡ self.now) }
    {
        Ok(FeatureLists {
            items: copied_lists(alloc, self.items.as_slice())?,
        })
    }

    /// The list of a feature. `None` stands for an empty list.
    pub fn group(&self, f: u32) -> Option<&RankedList>
        ensures { (e : IdBytes) → get (unwrap_or (option_copied result) empty) e ≡ get self.now (f, e) }
    {
        match index_of(self.items.as_slice(), f) {
            None => None,
            Some(at) => Some(&self.items[at].1),
        }
    }

    /// The rank of an element in the list of a feature, `None` where it isn't in that list.
    pub fn find(&self, f: u32, e: &Id) -> Option<u64>
        ensures { result ≡ get self.now (f, e.now) }
    {
        match self.group(f) {
            None => None,
            Some(group) => group.rank(e),
        }
    }

    /// Whether no list has an element.
    pub fn is_empty(&self) -> bool
        ensures { result ≡ is_bare self.now }
    {
        self.items.len() == 0
    }

    /// Gives an element its rank in the list of a feature, a new element or one that is there. The error is out of memory.
    pub fn put(&mut self, alloc: Global, f: u32, e: Id, rank: u64) -> Result<(), AllocError>
        ensures ok { OnOk result (self.new ≡ set self.old (f, e) (Some rank)) }
        ensures err { OnErr result (self.new ≡ self.old) }
    {
        put_of(alloc, &mut self.items, f, e, rank)
    }

    /// Takes an element out of the list of a feature, where it is in it.
    pub fn drop_at(&mut self, f: u32, e: &Id)
        ensures { self.new ≡ set self.old (f, e.now) None }
    {
        drop_in(&mut self.items, f, e);
    }
}
