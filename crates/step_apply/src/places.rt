//! The places of a model's elements with their ranks, and the index of the elements of each place.
ghost use Rattle.std.specs.Prelude.{◌≡◌, Some, None, OnOk, OnErr, IfOk, is_some, true, false};
ghost use Rattle.model_state.specs.Listing.{children, last_rank};
ghost use Rattle.model_state.specs.declared.step.Place.{Place as PlaceValue};
ghost use Rattle.ranked_lists.specs.Ranks.{stood};
ghost use Rattle.finite_maps.specs.Tables.{table_of};
ghost use Rattle.step_apply.specs.Groups.{standing, IsGrouped};
ghost use Rattle.std.specs.Option.{option_copied, option_map};
ghost use Rattle.std.specs.FinMap.{get, empty};
ghost use Rattle.finite_maps.specs.Maps.{set, count};
ghost use Rattle.std.specs.Prelude.{count_by};
ghost use Rattle.std.specs.BTreeMap.{values, IsOrdered};
ghost use Rattle.model_state.specs.State.{place_eq, is_inside};
ghost use Rattle.model_state.specs.Keys.{id_cmp};

use crate::groups::{Groups, is_bare};
use model_state::{Entry, Id, Place, Placed};
use std::alloc::{AllocError, Global};
use std::collections::BTreeMap;
use std::marker::Model;
use texts::List;

/// How many elements stand inside an element.
fn standing_inside(tree: &BTreeMap<Id, Placed>, e: &Id) -> usize
    ensures count { result ≡ count_by (λ p. is_inside e.now p.place) (values tree.now) }
    ensures ordered { IsOrdered id_cmp tree.now }
{
    // For what the call's contract says.
    let _len = tree.len();
    tree.values().filter(|p| p.place.is_inside(e)).count()
}

/// Takes an element that stood as given out of its list.
fn leave(groups: &mut Groups, old: Option<Placed>, e: &Id)
    ensures { ((p : PlaceValue) → get (standing groups.old p) e.now ≡ stood p old) → (p : PlaceValue) → standing groups.new p ≡ set (standing groups.old p) e.now None }
{
    if let Some(old) = old {
        groups.drop_at(&old.place, e);
    }
}

/// Takes an element that stood as given out of its list, where that isn't the list of the place.
fn leave_for(groups: &mut Groups, old: Option<Placed>, e: &Id, to: &Place)
    ensures here { standing groups.new to.now ≡ standing groups.old to.now }
    ensures there { ((p : PlaceValue) → place_eq to.now p ≡ false → get (standing groups.old p) e.now ≡ stood p old) → (p : PlaceValue) → place_eq to.now p ≡ false → standing groups.new p ≡ set (standing groups.old p) e.now None }
{
    if let Some(old) = old {
        if !old.place.is_same(to) {
            groups.drop_at(&old.place, e);
        }
    }
}

/// The copies of an element's id and of its place.
fn spot_of(alloc: Global, e: &Id, place: &Place) -> Result<(Id, Place), AllocError>
    ensures { IfOk result (λ spot. spot ≡ (e.now, place.now)) }
{
    Ok((e.copy(alloc)?, place.copy(alloc)?))
}

/// Puts an element into the list of a place.
fn list_at(
    groups: &mut Groups,
    alloc: Global,
    to: &Place,
    e: &Id,
    rank: u64,
) -> Result<(), AllocError>
    ensures here { OnOk result (standing groups.new to.now ≡ set (standing groups.old to.now) e.now (Some rank)) }
    ensures there { (p : PlaceValue) → place_eq to.now p ≡ false → standing groups.new p ≡ standing groups.old p }
    ensures err { OnErr result (standing groups.new to.now ≡ standing groups.old to.now) }
{
    groups.put(alloc, to, e.copy(alloc)?, rank)
}

/// Puts an element into the tree and into the list of its place; where it stood elsewhere, it leaves that list. Given with
/// them are copies of its id and of its place.
fn put_at(
    alloc: Global,
    tree: &mut BTreeMap<Id, Placed>,
    groups: &mut Groups,
    e: Id,
    placed: Placed,
    spot: &(Id, Place),
) -> Result<(), AllocError>
    requires { spot.now ≡ (e, placed.place) }
    ensures grouped { IsGrouped tree.old groups.old → IsGrouped tree.new groups.new }
    ensures place { OnOk result (table_of id_cmp (λ p. p.place) tree.new ≡ set (table_of id_cmp (λ p. p.place) tree.old) e (Some placed.place)) }
    ensures rank { OnOk result (table_of id_cmp (λ p. p.rank) tree.new ≡ set (table_of id_cmp (λ p. p.rank) tree.old) e (Some placed.rank)) }
    ensures err { OnErr result (tree.new.entries ≡ tree.old.entries) }
{
    list_at(groups, alloc, &spot.1, &spot.0, placed.rank)?;
    match tree.insert(e, placed) {
        Err(_) => {
            groups.drop_at(&spot.1, &spot.0);
            Err(AllocError)
        }
        Ok(old) => {
            leave_for(groups, old, &spot.0, &spot.1);
            Ok(())
        }
    }
}

/// The places of the live elements and their ranks, which contracts see as two finite maps.
///
/// Beside the place of each element stand the elements of each place. So to find, put or take out an element, and to
/// count a place or find the rank of its last, costs a logarithm. To list a place costs as many steps as elements stand
/// there.
#[derive(Drop)]
pub struct Places {
    alloc: Global,
    tree: BTreeMap<Id, Placed>,
    groups: Groups,
}

impl Model for Places {
    ghost use Rattle.step_apply.specs.Spots.{Spots, spots_code};
    ghost use Rattle.finite_maps.specs.Tables.{table_of};
    ghost use Rattle.model_state.specs.Keys.{id_cmp};
    ghost use Rattle.step_apply.specs.Groups.{IsGrouped};

    ghost Value = { Spots };

    ghost coded = { spots_code };

    ghost view = { λ a. record { place = table_of id_cmp (λ x. x.place) a.tree; rank = table_of id_cmp (λ x. x.rank) a.tree } };

    ghost invariant = { λ a. IsGrouped a.tree a.groups };
}

impl Places {
    /// No element stands anywhere.
    pub fn new(alloc: Global) -> Places
        ensures place { result.place ≡ empty }
        ensures rank { result.rank ≡ empty }
    {
        Places {
            alloc,
            tree: BTreeMap::new(alloc),
            groups: Groups::new(alloc),
        }
    }

    /// The place and the rank of an element, `None` where it isn't live.
    pub fn find(&self, e: &Id) -> Option<&Placed>
        ensures place { option_map (λ p. p.place) (option_copied result) ≡ get self.now.place e.now }
        ensures rank { option_map (λ p. p.rank) (option_copied result) ≡ get self.now.rank e.now }
    {
        self.tree.get(e)
    }

    /// How many elements stand in a place. This goes over none of them.
    pub fn count_at(&self, place: &Place) -> usize
        ensures { result ≡ count (λ e. place_eq place.now e.1) self.now.place }
    {
        self.groups.count(place)
    }

    /// How many elements stand inside an element. This costs a logarithm where none stands inside, and otherwise goes over
    /// all elements.
    pub fn count_inside(&self, e: &Id) -> usize
        ensures { result ≡ count (λ x. is_inside e.now x.1) self.now.place }
    {
        if is_bare(&self.groups.inside, e) {
            return 0;
        }
        standing_inside(&self.tree, e)
    }

    /// Puts an element to a place with a rank; where it stood elsewhere, it leaves that place. The error is out of memory.
    pub fn put(&mut self, e: Id, placed: Placed) -> Result<(), AllocError>
        ensures place { OnOk result (self.new.place ≡ set self.old.place e (Some placed.place)) }
        ensures rank { OnOk result (self.new.rank ≡ set self.old.rank e (Some placed.rank)) }
        ensures err { OnErr result (self.new ≡ self.old) }
    {
        let spot = spot_of(self.alloc, &e, &placed.place)?;
        put_at(
            self.alloc,
            &mut self.tree,
            &mut self.groups,
            e,
            placed,
            &spot,
        )
    }

    /// Gives an element another rank where it stands. The error is out of memory.
    pub fn rerank(&mut self, e: &Id, rank: u64) -> Result<(), AllocError>
        ensures place { self.new.place ≡ self.old.place }
        ensures rank { OnOk result (is_some (get self.old.rank e.now) ≡ true → self.new.rank ≡ set self.old.rank e.now (Some rank)) }
        ensures err { OnErr result (self.new ≡ self.old) }
    {
        let Some(placed) = self.tree.get(e) else {
            return Ok(());
        };
        let place = placed.place.copy(self.alloc)?;
        self.put(e.copy(self.alloc)?, Placed { place, rank })
    }

    /// Takes an element away from where it stands, if it stands anywhere.
    pub fn drop_at(&mut self, e: &Id)
        ensures place { self.new.place ≡ set self.old.place e.now None }
        ensures rank { self.new.rank ≡ set self.old.rank e.now None }
    {
        let old = self.tree.remove(e);
        leave(&mut self.groups, old, e);
    }

    /// The rank of the last element of a place, `None` where there is none.
    pub fn last_child(&self, place: &Place) -> Option<u64>
        ensures { result ≡ last_rank (children self.now.place self.now.rank place.now) }
    {
        self.groups.last(place)
    }

    /// The elements of a place, by rank and then by id. This goes over these alone, whatever else the model holds.
    pub fn children(&self, alloc: Global, place: &Place) -> Result<List<Entry>, AllocError>
        ensures { IfOk result (λ l. l ≡ children self.now.place self.now.rank place.now) }
    {
        self.groups.list(alloc, place)
    }
}
