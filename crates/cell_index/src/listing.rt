//! The index: tables of lists of places.
ghost use Rattle.std.specs.Prelude.{ℕ, ◌≡◌, ◌<◌, ◌++◌, ◌∷◌, [], length, OnOk, IfOk, get_or};
ghost use Rattle.std.specs.List.{Contains};
ghost use Rattle.cell_index.specs.Near.{list_at, Listed, Wider, Indexes};
ghost use Rattle.cell_index.specs.Standing.{Rising};

use crate::keys::slot_of;
use footprint::{Cell, Print};
use std::alloc::{AllocError, Global};

/// The places of operations, listed by the slots of the cells that they write, and of those that they read.
#[derive(Drop)]
pub struct CellIndex {
    pub(crate) writers: Vec<Vec<u64>>,
    pub(crate) readers: Vec<Vec<u64>>,
}

/// Puts the place into the list of the slot.
fn put_place(table: &mut Vec<Vec<u64>>, slot: usize, place: u64) -> Result<(), AllocError>
    requires { slot < length table.old.items }
    ensures wider { OnOk result (Wider table.old.items table.new.items) }
    ensures listed { OnOk result (Contains (list_at table.new.items slot) place) }
    ensures rising { OnOk result (Rising table.old.items place → Rising table.new.items place) }
{
    table[slot].push(place)?;
    Ok(())
}

/// Puts the place into the lists of the cells.
pub(crate) fn put_cells(
    table: &mut Vec<Vec<u64>>,
    cells: &[Cell],
    place: u64,
) -> Result<(), AllocError>
    requires { 0 < length table.old.items }
    ensures wider { OnOk result (Wider table.old.items table.new.items) }
    ensures listed { OnOk result (Listed table.new.items cells.now place) }
    ensures rising { OnOk result (Rising table.old.items place → Rising table.new.items place) }
{
    for cell in cells {
        let slot = slot_of(cell, table.len());
        put_place(table, slot, place)?;
    }
    Ok(())
}

/// A table of so many lists, all empty.
pub fn lists_of(alloc: Global, size: usize) -> Result<Vec<Vec<u64>>, AllocError>
    ensures size { IfOk result (λ v. length v.items ≡ size) }
    ensures empty { IfOk result (λ v. (s : ℕ) → list_at v.items s ≡ []) }
{
    let mut table = Vec::new(alloc);
    for _ in 0..size {
        table.push(Vec::new(alloc))?;
    }
    Ok(table)
}

/// One more than the cells that the prints write, and one more than those that they read.
pub(crate) fn table_sizes(prints: &[Print]) -> (usize, usize)
    ensures writers { 0 < result.0 }
    ensures readers { 0 < result.1 }
{
    let mut writes: usize = 1;
    let mut reads: usize = 1;
    for print in prints {
        writes = writes.saturating_add(print.writes.len());
        reads = reads.saturating_add(print.reads.len());
    }
    (writes, reads)
}

/// The index of the prints. It has a slot for each cell, so that few cells share one.
pub fn index_of(alloc: Global, prints: &[Print]) -> Result<CellIndex, AllocError>
    ensures { IfOk result (λ x. Indexes x prints.now) }
{
    let (writes, reads) = table_sizes(prints);
    let mut writers = lists_of(alloc, writes)?;
    let mut readers = lists_of(alloc, reads)?;
    for k in 0..prints.len() {
        put_cells(&mut writers, prints[k].writes.as_slice(), k as u64)?;
        put_cells(&mut readers, prints[k].reads.as_slice(), k as u64)?;
    }
    Ok(CellIndex { writers, readers })
}
