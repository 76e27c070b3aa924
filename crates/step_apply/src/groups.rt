//! The index of lists: the entries of each place, and of each feature of an element, with their ranks.
ghost use Rattle.std.specs.Prelude.{ℕ, ◌≡◌, None, Some, OnOk, OnErr, IfOk, map, length, true, false, nat_eq};
ghost use Rattle.std.specs.Ordering.{nat_cmp};
ghost use Rattle.std.specs.FinMap.{get, entries, empty};
ghost use Rattle.std.specs.Option.{option_copied};
ghost use Rattle.std.specs.BTreeMap as ordered_map;
ghost use Rattle.finite_maps.specs.Equal.{text_eq};
ghost use Rattle.finite_maps.specs.Maps.{set};
ghost use Rattle.finite_maps.specs.Sorts.{in_order};
ghost use Rattle.model_state.specs.declared.step.Place.{Place as PlaceValue};
ghost use Rattle.model_state.specs.Keys.{IdBytes};
ghost use Rattle.model_state.specs.Listing.{entry_cmp, last_rank};
ghost use Rattle.model_state.specs.State.{place_eq};
ghost use Rattle.step_apply.specs.Groups.{group_of, members_of, standing};
ghost use Rattle.ranked_lists.specs.Ranks.{ranked_entry};

use model_state::{Entry, Id, Place};
use ranked_lists::RankedList;
use std::alloc::{AllocError, Global};
use std::collections::BTreeMap;
use texts::List;

/// The elements of each place and their ranks there. To find, put in or take out one, and to find the rank of the last,
/// costs a logarithm. To list a place costs as many steps as elements stand in it. A list without elements is dropped.
#[derive(Drop)]
pub struct Groups {
    pub(crate) roots: RankedList,
    pub(crate) inside: BTreeMap<Id, BTreeMap<u32, RankedList>>,
}

/// Takes an element out of the list of the feature, where it is there.
fn take_of(fan: &mut BTreeMap<u32, RankedList>, f: u32, e: &Id)
    ensures here { group_of (ordered_map.get nat_cmp fan.new f) ≡ set (group_of (ordered_map.get nat_cmp fan.old f)) e.now None }
    ensures there { (g : ℕ) → nat_eq f g ≡ false → group_of (ordered_map.get nat_cmp fan.new g) ≡ group_of (ordered_map.get nat_cmp fan.old g) }
{
    if let Some(group) = fan.get_mut(&f) {
        group.drop_at(e);
    }
}

/// Whether the list of the feature has no element.
fn is_empty_of(fan: &BTreeMap<u32, RankedList>, f: u32) -> bool
    ensures { result ≡ true → (b : IdBytes) → get (group_of (ordered_map.get nat_cmp fan.now f)) b ≡ None }
{
    match fan.get(&f) {
        None => true,
        Some(group) => group.is_empty(),
    }
}

/// Drops the list of the feature, where it has no element.
fn clear_of(fan: &mut BTreeMap<u32, RankedList>, f: u32)
    ensures { (g : ℕ) → group_of (ordered_map.get nat_cmp fan.new g) ≡ group_of (ordered_map.get nat_cmp fan.old g) }
{
    if is_empty_of(fan, f) {
        fan.remove(&f);
    }
}

/// Takes an element out of the list of the feature, where it is there; a list that it leaves empty is dropped.
fn drop_of(fan: &mut BTreeMap<u32, RankedList>, f: u32, e: &Id)
    ensures here { group_of (ordered_map.get nat_cmp fan.new f) ≡ set (group_of (ordered_map.get nat_cmp fan.old f)) e.now None }
    ensures there { (g : ℕ) → nat_eq f g ≡ false → group_of (ordered_map.get nat_cmp fan.new g) ≡ group_of (ordered_map.get nat_cmp fan.old g) }
{
    take_of(fan, f, e);
    clear_of(fan, f);
}

/// Puts an element into the list of the feature.
fn put_of(
    alloc: Global,
    fan: &mut BTreeMap<u32, RankedList>,
    f: u32,
    e: Id,
    rank: u64,
) -> Result<(), AllocError>
    ensures here { OnOk result (group_of (ordered_map.get nat_cmp fan.new f) ≡ set (group_of (ordered_map.get nat_cmp fan.old f)) e (Some rank)) }
    ensures there { (g : ℕ) → nat_eq f g ≡ false → group_of (ordered_map.get nat_cmp fan.new g) ≡ group_of (ordered_map.get nat_cmp fan.old g) }
    ensures err { OnErr result (group_of (ordered_map.get nat_cmp fan.new f) ≡ group_of (ordered_map.get nat_cmp fan.old f)) }
{
    match fan.get_mut(&f) {
        Some(group) => group.put(alloc, e, rank),
        None => {
            let mut group = RankedList::new(alloc);
            group.put(alloc, e, rank)?;
            fan.insert(f, group)?;
            Ok(())
        }
    }
}

/// Whether no list of the element has an element.
pub(crate) fn is_bare(inside: &BTreeMap<Id, BTreeMap<u32, RankedList>>, a: &Id) -> bool
    ensures { result ≡ true → (f : ℕ) → (b : IdBytes) → get (members_of inside.now a.now f) b ≡ None }
{
    match inside.get(a) {
        None => true,
        Some(fan) => fan.is_empty(),
    }
}

/// Takes an element out of the list, where it is there.
fn take_in(inside: &mut BTreeMap<Id, BTreeMap<u32, RankedList>>, a: &Id, f: u32, e: &Id)
    ensures here { members_of inside.new a.now f ≡ set (members_of inside.old a.now f) e.now None }
    ensures same_element { (g : ℕ) → nat_eq f g ≡ false → members_of inside.new a.now g ≡ members_of inside.old a.now g }
    ensures there { (b : IdBytes) (g : ℕ) → text_eq a.now b ≡ false → members_of inside.new b g ≡ members_of inside.old b g }
{
    if let Some(fan) = inside.get_mut(a) {
        drop_of(fan, f, e);
    }
}

/// Drops the lists of an element, where there are none.
fn clear_in(inside: &mut BTreeMap<Id, BTreeMap<u32, RankedList>>, a: &Id)
    ensures { (b : IdBytes) (g : ℕ) → members_of inside.new b g ≡ members_of inside.old b g }
{
    if is_bare(inside, a) {
        inside.remove(a);
    }
}

/// Takes an element out of the list, where it is there; what it leaves empty is dropped. This takes no memory.
pub(crate) fn drop_in(inside: &mut BTreeMap<Id, BTreeMap<u32, RankedList>>, a: &Id, f: u32, e: &Id)
    ensures here { members_of inside.new a.now f ≡ set (members_of inside.old a.now f) e.now None }
    ensures same_element { (g : ℕ) → nat_eq f g ≡ false → members_of inside.new a.now g ≡ members_of inside.old a.now g }
    ensures there { (b : IdBytes) (g : ℕ) → text_eq a.now b ≡ false → members_of inside.new b g ≡ members_of inside.old b g }
{
    take_in(inside, a, f, e);
    clear_in(inside, a);
}

/// Puts an element into the list.
pub(crate) fn put_in(
    alloc: Global,
    inside: &mut BTreeMap<Id, BTreeMap<u32, RankedList>>,
    a: &Id,
    f: u32,
    e: Id,
    rank: u64,
) -> Result<(), AllocError>
    ensures here { OnOk result (members_of inside.new a.now f ≡ set (members_of inside.old a.now f) e (Some rank)) }
    ensures same_element { (g : ℕ) → nat_eq f g ≡ false → members_of inside.new a.now g ≡ members_of inside.old a.now g }
    ensures there { (b : IdBytes) (g : ℕ) → text_eq a.now b ≡ false → members_of inside.new b g ≡ members_of inside.old b g }
    ensures err { OnErr result (members_of inside.new a.now f ≡ members_of inside.old a.now f) }
{
    let key = a.copy(alloc)?;
    match inside.get_mut(a) {
        Some(fan) => put_of(alloc, fan, f, e, rank),
        None => {
            let mut fan = BTreeMap::new(alloc);
            put_of(alloc, &mut fan, f, e, rank)?;
            inside.insert(key, fan)?;
            Ok(())
        }
    }
}

pub(crate) fn group_in<'a>(
    inside: &'a BTreeMap<Id, BTreeMap<u32, RankedList>>,
    a: &Id,
    f: u32,
) -> Option<&'a RankedList>
    ensures { group_of (option_copied result) ≡ members_of inside.now a.now f }
{
    match inside.get(a) {
        None => None,
        Some(fan) => fan.get(&f),
    }
}

impl Groups {
    /// No element stands anywhere.
    pub fn new(alloc: Global) -> Groups
        ensures { (p : PlaceValue) → standing result p ≡ empty }
    {
        Groups {
            roots: RankedList::new(alloc),
            inside: BTreeMap::new(alloc),
        }
    }

    /// Gives an element its rank in the list of a place, a new element or one that is there. The error is out of memory.
    pub fn put(&mut self, alloc: Global, place: &Place, e: Id, rank: u64) -> Result<(), AllocError>
        ensures here { OnOk result (standing self.new place.now ≡ set (standing self.old place.now) e (Some rank)) }
        ensures there { (p : PlaceValue) → place_eq place.now p ≡ false → standing self.new p ≡ standing self.old p }
        ensures err { OnErr result (standing self.new place.now ≡ standing self.old place.now) }
    {
        match place {
            Place::Root => self.roots.put(alloc, e, rank),
            Place::Inside { parent, feature } => {
                put_in(alloc, &mut self.inside, parent, *feature, e, rank)
            }
        }
    }

    /// Takes an element out of the list of a place, where it stands there. This takes no memory.
    pub fn drop_at(&mut self, place: &Place, e: &Id)
        ensures here { standing self.new place.now ≡ set (standing self.old place.now) e.now None }
        ensures there { (p : PlaceValue) → place_eq place.now p ≡ false → standing self.new p ≡ standing self.old p }
    {
        match place {
            Place::Root => self.roots.drop_at(e),
            Place::Inside { parent, feature } => drop_in(&mut self.inside, parent, *feature, e),
        }
    }

    /// How many elements stand in a place.
    pub fn count(&self, place: &Place) -> usize
        ensures { result ≡ length (entries (standing self.now place.now)) }
    {
        match place {
            Place::Root => self.roots.len(),
            Place::Inside { parent, feature } => match group_in(&self.inside, parent, *feature) {
                None => 0,
                Some(group) => group.len(),
            },
        }
    }

    /// The rank of the last element of the place, `None` where there is none.
    pub fn last(&self, place: &Place) -> Option<u64>
        ensures { result ≡ last_rank (in_order entry_cmp (map ranked_entry (entries (standing self.now place.now)))) }
    {
        match place {
            Place::Root => self.roots.last(),
            Place::Inside { parent, feature } => match group_in(&self.inside, parent, *feature) {
                None => None,
                Some(group) => group.last(),
            },
        }
    }

    /// The elements of the place, by rank and then by id.
    pub fn list(&self, alloc: Global, place: &Place) -> Result<List<Entry>, AllocError>
        ensures { IfOk result (λ l. l ≡ in_order entry_cmp (map ranked_entry (entries (standing self.now place.now)))) }
    {
        match place {
            Place::Root => self.roots.list(alloc),
            Place::Inside { parent, feature } => match group_in(&self.inside, parent, *feature) {
                None => Ok(List::new(alloc)),
                Some(group) => group.list(alloc),
            },
        }
    }
}
