//! What interferes with an operation is taken out of an index.
ghost use Rattle.std.specs.Prelude.{ℕ, ◌≡◌, ◌<◌, ◌∷◌, [], length, get_or, false, OnOk, IfOk};
ghost use Rattle.std.specs.List.{Contains};
ghost use Rattle.cell_index.specs.Near.{list_at, IsMet, AllMet};
ghost use Rattle.cell_index.specs.Draining.{AreSorted, IsDrained, HasMet, ListsUnflagged};

use crate::CellIndex;
use crate::keys::slot_of;
use crate::meeting::is_met;
use footprint::{Cell, Print};
use std::alloc::{AllocError, Global};

/// Whether the place has its flag.
fn is_flagged(flags: &[bool], place: u64) -> bool
    ensures { result ≡ get_or flags.now place false }
{
    let place = place as usize;
    place < flags.len() && flags[place]
}

/// A place goes nowhere if it has its flag, to those that are met if its operation interferes with that of the print, and else to the rest.
fn sort_place(
    met: &mut Vec<u64>,
    rest: &mut Vec<u64>,
    prints: &[Print],
    print: &Print,
    flags: &[bool],
    place: u64,
) -> Result<(), AllocError>
    ensures { OnOk result (AreSorted prints.now print.now flags.now (place ∷ []) met.old.items met.new.items rest.old.items rest.new.items) }
{
    if is_flagged(flags, place) {
        return Ok(());
    }
    if is_met(prints, print, place) {
        met.push(place)?;
        return Ok(());
    }
    rest.push(place)?;
    Ok(())
}

/// So does each of the places.
fn sort_places(
    met: &mut Vec<u64>,
    rest: &mut Vec<u64>,
    prints: &[Print],
    print: &Print,
    flags: &[bool],
    places: &[u64],
) -> Result<(), AllocError>
    ensures { OnOk result (AreSorted prints.now print.now flags.now places.now met.old.items met.new.items rest.old.items rest.new.items) }
{
    for place in places {
        sort_place(met, rest, prints, print, flags, *place)?;
    }
    Ok(())
}

/// Of the list of a slot only the rest stays.
fn drain(
    alloc: Global,
    table: &mut Vec<Vec<u64>>,
    slot: usize,
    met: &mut Vec<u64>,
    prints: &[Print],
    print: &Print,
    flags: &[bool],
) -> Result<(), AllocError>
    requires { slot < length table.old.items }
    ensures drained { OnOk result (IsDrained prints.now print.now flags.now table.old.items table.new.items met.old.items met.new.items) }
    ensures found { OnOk result ((k : ℕ) → Contains (list_at table.old.items slot) k → get_or flags.now k false ≡ false → IsMet prints.now print.now k → Contains met.new.items k) }
{
    let mut rest = Vec::new(alloc);
    sort_places(met, &mut rest, prints, print, flags, &table[slot])?;
    table[slot] = rest;
    Ok(())
}

/// The same of the lists of the cells.
fn drain_cells(
    alloc: Global,
    table: &mut Vec<Vec<u64>>,
    cells: &[Cell],
    met: &mut Vec<u64>,
    prints: &[Print],
    print: &Print,
    flags: &[bool],
) -> Result<(), AllocError>
    requires { 0 < length table.old.items }
    ensures drained { OnOk result (IsDrained prints.now print.now flags.now table.old.items table.new.items met.old.items met.new.items) }
    ensures found { OnOk result (HasMet prints.now print.now flags.now table.old.items cells.now met.new.items) }
{
    for cell in cells {
        let slot = slot_of(cell, table.len());
        drain(alloc, table, slot, met, prints, print, flags)?;
    }
    Ok(())
}

impl CellIndex {
    /// The places of the operations that interfere with another, but for those that have a flag. A place may stand there twice. From now on
    /// the lists of the other's cells leave out these, and those that have a flag.
    pub fn take_met(
        &mut self,
        alloc: Global,
        prints: &[Print],
        print: &Print,
        flags: &[bool],
    ) -> Result<Vec<u64>, AllocError>
        requires index { ListsUnflagged self.old prints.now flags.now [] }
        ensures met { IfOk result (λ v. AllMet prints.now print.now v.items) }
        ensures found { IfOk result (λ v. (k : ℕ) → get_or flags.now k false ≡ false → IsMet prints.now print.now k → Contains v.items k) }
        ensures index { IfOk result (λ v. ListsUnflagged self.new prints.now flags.now v.items) }
    {
        let mut met = Vec::new(alloc);
        let writes = print.writes.as_slice();
        let reads = print.reads.as_slice();
        drain_cells(
            alloc,
            &mut self.writers,
            writes,
            &mut met,
            prints,
            print,
            flags,
        )?;
        drain_cells(
            alloc,
            &mut self.readers,
            writes,
            &mut met,
            prints,
            print,
            flags,
        )?;
        drain_cells(
            alloc,
            &mut self.writers,
            reads,
            &mut met,
            prints,
            print,
            flags,
        )?;
        Ok(met)
    }
}
