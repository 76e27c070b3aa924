//! A list whose single item lies in the list itself.
ghost use Rattle.std.specs.Prelude.{◌≡◌, ◌++◌, ◌∷◌, [], length, OnOk, OnErr};
ghost use Rattle.std.specs.Mem.{FitsInMemory};

use crate::List;
use std::alloc::{AllocError, Global};
use std::marker::Model;
use std::{fmt, slice};

/// The items of a list: one in the value itself, or any number in a block.
#[derive(Drop)]
enum Items<T> {
    One(T),
    Many(List<T>),
}

/// A list, which contracts see as the list of its items. A single item takes no memory elsewhere, so that many lists of one item are small.
#[derive(Drop)]
pub struct CompactList<T> {
    items: Items<T>,
}

impl<T> Model for CompactList<T> {
    ghost use Rattle.std.specs.Prelude.{List};
    ghost use Rattle.std.specs.Coded.{coded_list};

    ghost Value = { List T };

    ghost coded = { coded_list T.code };

    ghost use Rattle.texts.specs.Compact.{items_of};

    ghost view = { λ a. items_of a.items };
}

impl<T> CompactList<T> {
    /// The empty list.
    pub fn new(alloc: Global) -> CompactList<T>
        ensures { result ≡ [] }
    {
        CompactList {
            items: Items::Many(List::new(alloc)),
        }
    }

    /// The list of one item. This takes no memory.
    pub fn one(item: T) -> CompactList<T>
        ensures { result ≡ item ∷ [] }
    {
        CompactList {
            items: Items::One(item),
        }
    }

    /// How many items there are.
    pub fn len(&self) -> usize
        ensures { result ≡ length self.now }
    {
        match &self.items {
            Items::One(_) => 1,
            Items::Many(items) => items.len(),
        }
    }

    /// The items in their order.
    pub fn as_slice(&self) -> &[T]
        requires { FitsInMemory T.row }
        ensures { result.now ≡ self.now }
    {
        match &self.items {
            Items::One(item) => slice::from_ref(item),
            Items::Many(items) => items.as_slice(),
        }
    }

    /// The same list, without the room that it was given and doesn't use.
    pub fn fitted(self) -> CompactList<T>
        ensures { result ≡ self }
    {
        match self.items {
            Items::One(item) => CompactList::one(item),
            Items::Many(items) => {
                let mut items = items.into_vec();
                items.shrink_to_fit();
                CompactList {
                    items: Items::Many(List::from_vec(items)),
                }
            }
        }
    }
}

impl<T: Drop> CompactList<T> {
    /// The same items. A single one moves into the value itself, and its block is given back.
    pub fn from_list(list: List<T>) -> CompactList<T>
        ensures { result ≡ list }
    {
        let mut list = list;
        if list.len() == 1 {
            match list.pop() {
                Some(item) => CompactList::one(item),
                None => unreachable!(),
            }
        } else {
            CompactList {
                items: Items::Many(list),
            }
        }
    }

    /// Moves the items after others. When out of memory the others stay as they are, and the items are gone.
    pub fn append_to(self, others: &mut Vec<T>) -> Result<(), AllocError>
        ensures ok { OnOk result (others.new.items ≡ others.old.items ++ self) }
        ensures err { OnErr result (others.new.items ≡ others.old.items) }
    {
        match self.items {
            Items::One(item) => {
                others.push(item)?;
                Ok(())
            }
            Items::Many(items) => {
                let mut items = items.into_vec();
                others.append(&mut items)
            }
        }
    }
}

/// Shows the items as a `List` does, wherever they lie.
impl<T: fmt::Debug> fmt::Debug for CompactList<T> {
    fn fmt<W: fmt::Write>(&self, f: &mut fmt::Formatter<W>) -> fmt::Result {
        match &self.items {
            Items::One(item) => f.debug_struct("List").field("items", &[item]).finish(),
            Items::Many(items) => fmt::Debug::fmt(items, f),
        }
    }
}
