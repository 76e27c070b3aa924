//! Numbers in a new order, each with its place.
ghost use Rattle.std.specs.Prelude.{◌≡◌, ◌<◌, ◌↔◌, ◌++◌, ◌∷◌, [], ℕ, IfOk, IsTrue, OnOk, cond, length, map, nat_eq, slice_get, true, ◌^◌};
ghost use Rattle.std.specs.List.{list_any};
ghost use Rattle.metamodel_growth.specs.Order.{IsIdentity, IsOrder, IsSetOf, Placed, begun_by, place_in, places};
ghost use Rattle.metamodel_growth.specs.Renumbered.{AreIdentities};

use std::alloc::{AllocError, Global};
use std::collections::BTreeSet;
use std::marker::Model;

/// An order of numbers, which contracts see as the list.
#[derive(Drop)]
pub(crate) struct Order {
    numbers: Vec<u32>,
    /// The place of each number in the order.
    places: Vec<u32>,
}

impl Model for Order {
    ghost use Rattle.std.specs.Prelude.{List, ℕ};
    ghost use Rattle.metamodel_growth.specs.Order.{HasPlaces};

    ghost Value = { List ℕ };

    ghost view = { λ a. a.numbers.items };

    ghost invariant = { λ a. HasPlaces a.numbers.items a.places.items };
}

/// The orders that the classes, the features and the enums of a metamodel get.
#[derive(Drop)]
pub(crate) struct Orders {
    pub classes: Order,
    pub features: Order,
    pub enums: Order,
}

impl Orders {
    /// Whether each class, each feature and each enum keeps its number.
    pub(crate) fn are_identities(&self) -> bool
        ensures { IsTrue result ↔ AreIdentities self.now }
    {
        self.classes.is_identity() && self.features.is_identity() && self.enums.is_identity()
    }
}

fn item_at(items: &[u32], n: u32) -> Option<u32>
    ensures { result ≡ slice_get items.now n }
{
    items.get(n as usize).copied()
}

impl Order {
    /// The order of these numbers.
    pub(crate) fn new(alloc: Global, numbers: Vec<u32>) -> Result<Order, AllocError>
        requires order { IsOrder (length numbers.items) numbers.items }
        requires few { length numbers.items < 2 ^ 32 }
        ensures { IfOk result (λ o. o ≡ numbers.items) }
    {
        let places = places_of(alloc, numbers.as_slice())?;
        Ok(Order { numbers, places })
    }

    /// The numbers in their order.
    pub(crate) fn numbers(&self) -> &[u32]
        ensures { result.now ≡ self.now }
    {
        self.numbers.as_slice()
    }

    /// What holds of every order: each number below its length is there once. A holder has it by this call, which does
    /// nothing.
    pub(crate) fn recall_order(&self)
        ensures order { IsOrder (length self.now) self.now }
        ensures few { length self.now < 2 ^ 32 }
    {
        // For what the type's invariant says.
        let _numbers = &self.numbers;
    }

    /// Whether each number keeps its place.
    fn is_identity(&self) -> bool
        ensures { IsTrue result ↔ IsIdentity self.now }
    {
        stand_in_place(self.numbers.as_slice())
    }

    /// The place of a number; past the end for a number that is none of them.
    pub(crate) fn place(&self, n: u32) -> u32
        ensures { result ≡ place_in self.now n }
    {
        match item_at(self.places.as_slice(), n) {
            None => self.numbers.len() as u32,
            Some(place) => place,
        }
    }
}

/// Whether each number stands in its own place.
fn stand_in_place(numbers: &[u32]) -> bool
    ensures { IsTrue result ↔ IsIdentity numbers.now }
{
    for (i, n) in numbers.iter().enumerate() {
        if *n as usize != i {
            return false;
        }
    }
    true
}

/// The place of each number of an order.
fn places_of(alloc: Global, numbers: &[u32]) -> Result<Vec<u32>, AllocError>
    requires order { IsOrder (length numbers.now) numbers.now }
    requires few { length numbers.now < 2 ^ 32 }
    ensures { IfOk result (λ v. Placed numbers.now v.items) }
{
    let mut places = vec![in alloc; 0u32; numbers.len()]?;
    for i in 0..numbers.len() {
        places[numbers[i] as usize] = i as u32;
    }
    Ok(places)
}

/// The numbers as a set.
fn set_of(alloc: Global, numbers: &[u32]) -> Result<BTreeSet<u32>, AllocError>
    ensures { IfOk result (λ s. IsSetOf numbers.now s) }
{
    let mut set = BTreeSet::new(alloc);
    for n in numbers {
        set.insert(*n)?;
    }
    Ok(set)
}

fn push_if(keep: bool, k: u32, numbers: &mut Vec<u32>) -> Result<(), AllocError>
    ensures { OnOk result (numbers.new.items ≡ numbers.old.items ++ cond keep (k ∷ []) []) }
{
    if keep {
        numbers.push(k)?;
    }
    Ok(())
}

/// The numbers below n: first those of the list, and then the others as they come.
pub(crate) fn begun_by(alloc: Global, first: Vec<u32>, n: u32) -> Result<Vec<u32>, AllocError>
    ensures { IfOk result (λ v. v.items ≡ begun_by first.items n) }
{
    let set = set_of(alloc, first.as_slice())?;
    let mut numbers = first;
    for k in 0..n {
        push_if(!set.contains(&k), k, &mut numbers)?;
    }
    Ok(numbers)
}

/// The places of these numbers in the order, as a list.
fn placed(alloc: Global, order: &Order, numbers: &[u32]) -> Result<Vec<u32>, AllocError>
    ensures { IfOk result (λ v. v.items ≡ map (place_in order.now) numbers.now) }
{
    let mut places = Vec::new(alloc);
    for n in numbers {
        places.push(order.place(*n))?;
    }
    Ok(places)
}

/// The places of these numbers in the order, rising.
pub(crate) fn places(
    alloc: Global,
    order: &Order,
    numbers: &[u32],
) -> Result<BTreeSet<u32>, AllocError>
    requires { (k : ℕ) → list_any (nat_eq k) numbers.now ≡ true → k < length order.now }
    ensures { IfOk result (λ s. s.keys ≡ places (λ k. list_any (nat_eq k) numbers.now) order.now) }
{
    order.recall_order();
    let places = placed(alloc, order, numbers)?;
    let set = set_of(alloc, places.as_slice())?;
    Ok(set)
}
