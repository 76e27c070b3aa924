//! Whether any operation of an index interferes with another.
ghost use Rattle.std.specs.Prelude.{ℕ, ◌≡◌, ◌<◌, length, true, false};
ghost use Rattle.std.specs.List.{Contains, list_any};
ghost use Rattle.footprint.specs.declared.cell.Cell.{Cell as Held};
ghost use Rattle.cell_index.specs.Near.{row_of, Indexes, prints_interfere, IsMet};

use crate::CellIndex;
use crate::keys::slot_of;
use footprint::{Cell, Print, interferes};

/// Whether the operation at the place interferes with that of the print.
pub(crate) fn is_met(prints: &[Print], print: &Print, place: u64) -> bool
    ensures met { result ≡ true → IsMet prints.now print.now place }
    ensures none { result ≡ false → IsMet prints.now print.now place → ⊥ }
{
    let place = place as usize;
    place < prints.len() && interferes(print, &prints[place])
}

/// The same of one of the places, up to the first that does.
fn any_met(prints: &[Print], print: &Print, places: &[u64]) -> bool
    ensures met { result ≡ true → (k : ℕ) × IsMet prints.now print.now k }
    ensures none { result ≡ false → (k : ℕ) → Contains places.now k → IsMet prints.now print.now k → ⊥ }
{
    for place in places {
        if is_met(prints, print, *place) {
            return true;
        }
    }
    false
}

/// The same of one of the places in the lists of the cells.
fn any_met_of(prints: &[Print], print: &Print, table: &[Vec<u64>], cells: &[Cell]) -> bool
    requires { 0 < length table.now }
    ensures met { result ≡ true → (k : ℕ) × IsMet prints.now print.now k }
    ensures none { result ≡ false → (h : Held) → Contains cells.now h → (k : ℕ) → Contains (row_of table.now h) k → IsMet prints.now print.now k → ⊥ }
{
    for cell in cells {
        let slot = slot_of(cell, table.len());
        if any_met(prints, print, &table[slot]) {
            return true;
        }
    }
    false
}

impl CellIndex {
    /// Whether one of the operations that the index lists interferes with another. `prints` are theirs, in the order of the index. It
    /// looks at those alone that share a slot with a cell of the other, and stops at the first that interferes.
    pub fn meets(&self, prints: &[Print], print: &Print) -> bool
        requires index { Indexes self.now prints.now }
        ensures met { result ≡ list_any (prints_interfere print.now) prints.now }
    {
        let writes = print.writes.as_slice();
        let reads = print.reads.as_slice();
        if any_met_of(prints, print, &self.writers, writes) {
            return true;
        }
        if any_met_of(prints, print, &self.readers, writes) {
            return true;
        }
        any_met_of(prints, print, &self.writers, reads)
    }
}
