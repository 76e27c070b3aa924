//! An index of operations that are added one after another, and removed.
ghost use Rattle.std.specs.Prelude.{ℕ, ◌≡◌, ◌<◌, ◌≤◌, ◌++◌, ◌∷◌, [], List, length, OnOk, IfOk, true, false, set};
ghost use Rattle.std.specs.List.{Contains};
ghost use Rattle.footprint.specs.Prints.{cells as cells_of};
ghost use Rattle.cell_index.specs.Standing.{is_none, Rise, Without, ListsStanding};

use crate::CellIndex;
use crate::keys::slot_of;
use crate::listing::{lists_of, put_cells, table_sizes};
use footprint::{Cell, Print};
use std::alloc::{AllocError, Global};

/// Which of the operations that were added still stand, each by its place. Those that stand are listed by the slots of their cells, the
/// later ones after the earlier ones.
#[derive(Drop)]
pub struct Standing {
    pub(crate) stands: Vec<bool>,
    pub(crate) index: CellIndex,
    /// The places of those that write nothing.
    pub(crate) idle: Vec<u64>,
}

/// Puts the place into the list, where there are no cells.
fn put_idle(list: &mut Vec<u64>, cells: &[Cell], place: u64) -> Result<(), AllocError>
    ensures kept { OnOk result ((k : ℕ) → Contains list.old.items k → Contains list.new.items k) }
    ensures listed { OnOk result (is_none (cells_of cells.now) ≡ true → Contains list.new.items place) }
    ensures rise { OnOk result (Rise 0 place list.old.items → Rise 0 place list.new.items) }
{
    if cells.len() == 0 {
        list.push(place)?;
    }
    Ok(())
}

/// Takes the place out of the list, if it is the last one there.
fn drop_last(list: &mut Vec<u64>, place: u64)
    ensures kept { (j : ℕ) → (j ≡ place → ⊥) → Contains list.old.items j → Contains list.new.items j }
    ensures rise { (high : ℕ) → Rise 0 high list.old.items → Rise 0 high list.new.items }
{
    if !list.is_empty() && list[list.len() - 1] == place {
        list.pop();
    }
}

/// Takes the place out of the list of the slot, where it is the last there.
fn drop_place(table: &mut Vec<Vec<u64>>, slot: usize, place: u64)
    requires { slot < length table.old.items }
    ensures { Without table.old.items table.new.items place }
{
    drop_last(&mut table[slot], place);
}

/// Takes the place out of those of the cells' lists where it is the last.
fn drop_cells(table: &mut Vec<Vec<u64>>, cells: &[Cell], place: u64)
    requires { 0 < length table.old.items }
    ensures { Without table.old.items table.new.items place }
{
    for cell in cells {
        let slot = slot_of(cell, table.len());
        drop_place(table, slot, place);
    }
}

impl Standing {
    /// None is added yet of the operations of the prints.
    pub fn new(alloc: Global, prints: &[Print]) -> Result<Standing, AllocError>
        ensures keeps { IfOk result (λ s. ListsStanding s prints.now) }
        ensures none { IfOk result (λ s. s.stands.items ≡ []) }
    {
        let (writes, reads) = table_sizes(prints);
        let writers = lists_of(alloc, writes)?;
        let readers = lists_of(alloc, reads)?;
        Ok(Standing {
            stands: Vec::new(alloc),
            index: CellIndex { writers, readers },
            idle: Vec::new(alloc),
        })
    }

    /// Whether each operation that was added still stands.
    pub fn stands(&self) -> &[bool]
        ensures { result.now ≡ self.now.stands.items }
    {
        self.stands.as_slice()
    }

    /// The next of the operations is added.
    pub fn put(&mut self, prints: &[Print]) -> Result<(), AllocError>
        requires keeps { ListsStanding self.old prints.now }
        requires more { length self.old.stands.items < length prints.now }
        ensures keeps { OnOk result (ListsStanding self.new prints.now) }
        ensures stands { OnOk result (self.new.stands.items ≡ self.old.stands.items ++ true ∷ []) }
    {
        let place = self.stands.len();
        let print = &prints[place];
        put_cells(
            &mut self.index.writers,
            print.writes.as_slice(),
            place as u64,
        )?;
        put_cells(
            &mut self.index.readers,
            print.reads.as_slice(),
            place as u64,
        )?;
        put_idle(&mut self.idle, print.writes.as_slice(), place as u64)?;
        self.stands.push(true)?;
        Ok(())
    }

    /// The operation of the place is removed.
    pub fn remove(&mut self, prints: &[Print], place: usize)
        requires keeps { ListsStanding self.old prints.now }
        requires within { place < length self.old.stands.items }
        ensures keeps { ListsStanding self.new prints.now }
        ensures stands { self.new.stands.items ≡ set self.old.stands.items place false }
    {
        let print = &prints[place];
        drop_cells(
            &mut self.index.writers,
            print.writes.as_slice(),
            place as u64,
        );
        drop_cells(
            &mut self.index.readers,
            print.reads.as_slice(),
            place as u64,
        );
        drop_last(&mut self.idle, place as u64);
        self.stands[place] = false;
    }
}
