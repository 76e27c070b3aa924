//! The table of an index: for each feature of an element the versions that wrote it, rising.
ghost use Rattle.std.specs.Prelude.{ℕ, ◌≡◌, cond, nat_eq, OnOk, OnErr, ◌&&◌};
ghost use Rattle.finite_maps.specs.Equal.{text_eq};
ghost use Rattle.footprint.specs.Prints.{seen, shown, cells as cells_of};
ghost use Rattle.change_index.specs.Written.{is_of, has_of, wrote_by};
ghost use Rattle.change_index.specs.Table.{row, listed, below, pushed, Keeps, Puts, Cuts};
ghost use Rattle.model_state.specs.Keys.{IdBytes};

use footprint::{Cell, Print};
use model_state::Id;
use std::alloc::{AllocError, Global};
use std::collections::BTreeMap;

/// Puts the version at the end of the list, where it doesn't stand there.
fn put_number(numbers: &mut Vec<u32>, version: u32) -> Result<(), AllocError>
    ensures ok { OnOk result (numbers.new.items ≡ pushed version numbers.old.items) }
    ensures err { OnErr result (numbers.new.items ≡ numbers.old.items) }
{
    match numbers.last() {
        Some(last) if *last == version => Ok(()),
        _ => {
            numbers.push(version)?;
            Ok(())
        }
    }
}

/// Puts the version into the feature's list of an element's rows.
fn put_row(
    alloc: Global,
    rows: &mut BTreeMap<u32, Vec<u32>>,
    feature: u32,
    version: u32,
) -> Result<(), AllocError>
    ensures ok { OnOk result ((f : ℕ) → row rows.new f ≡ cond (nat_eq feature f) (pushed version (row rows.old f)) (row rows.old f)) }
    ensures err { OnErr result ((f : ℕ) → row rows.new f ≡ row rows.old f) }
{
    match rows.get_mut(&feature) {
        Some(numbers) => put_number(numbers, version),
        None => {
            let mut numbers = Vec::new(alloc);
            put_number(&mut numbers, version)?;
            rows.insert(feature, numbers)?;
            Ok(())
        }
    }
}

/// Puts the version into the list of the element's feature.
fn put_pair(
    alloc: Global,
    table: &mut BTreeMap<Id, BTreeMap<u32, Vec<u32>>>,
    element: &Id,
    feature: u32,
    version: u32,
) -> Result<(), AllocError>
    ensures ok { OnOk result (Puts table.old table.new version (λ e f. text_eq element.now e && nat_eq feature f)) }
    ensures err { OnErr result ((e : IdBytes) (f : ℕ) → listed table.new e f ≡ listed table.old e f) }
{
    match table.get_mut(element) {
        Some(rows) => put_row(alloc, rows, feature, version),
        None => {
            let mut rows = BTreeMap::new(alloc);
            put_row(alloc, &mut rows, feature, version)?;
            table.insert(element.copy(alloc)?, rows)?;
            Ok(())
        }
    }
}

/// Puts the version into the list of the feature that the cell is of, where it is of one.
fn put_cell(
    alloc: Global,
    table: &mut BTreeMap<Id, BTreeMap<u32, Vec<u32>>>,
    cell: &Cell,
    version: u32,
) -> Result<(), AllocError>
    ensures ok { OnOk result (Puts table.old table.new version (λ e f. is_of e f (seen cell.now))) }
    ensures err { OnErr result ((e : IdBytes) (f : ℕ) → listed table.new e f ≡ listed table.old e f) }
{
    match cell {
        Cell::Kind(_) => Ok(()),
        Cell::Place(_) => Ok(()),
        Cell::Rank(_) => Ok(()),
        Cell::Attr(e, f) => put_pair(alloc, table, e, *f, version),
        Cell::Row(e, f, _) => put_pair(alloc, table, e, *f, version),
        Cell::Whole(e, f) => put_pair(alloc, table, e, *f, version),
    }
}

/// The same for each of the cells.
fn put_cells(
    alloc: Global,
    table: &mut BTreeMap<Id, BTreeMap<u32, Vec<u32>>>,
    cells: &[Cell],
    version: u32,
) -> Result<(), AllocError>
    ensures keeps { Keeps table.old table.new version (λ e f. has_of e f (cells_of cells.now)) }
    ensures ok { OnOk result (Puts table.old table.new version (λ e f. has_of e f (cells_of cells.now))) }
{
    for cell in cells {
        put_cell(alloc, table, cell, version)?;
    }
    Ok(())
}

/// The same for each cell that is written by what the prints are of. Where there is no memory, some of the lists have the version, and
/// some haven't.
pub(crate) fn put_prints(
    alloc: Global,
    table: &mut BTreeMap<Id, BTreeMap<u32, Vec<u32>>>,
    prints: &[Print],
    version: u32,
) -> Result<(), AllocError>
    ensures keeps { Keeps table.old table.new version (λ e f. wrote_by (shown prints.now) e f) }
    ensures ok { OnOk result (Puts table.old table.new version (λ e f. wrote_by (shown prints.now) e f)) }
{
    for print in prints {
        put_cells(alloc, table, print.writes.as_slice(), version)?;
    }
    Ok(())
}

/// Leaves in the list the numbers below the version alone.
fn cut_numbers(numbers: &mut Vec<u32>, version: u32)
    ensures { numbers.new.items ≡ below version numbers.old.items }
{
    numbers.retain(|number| *number < version);
}

/// The same in the feature's list of an element's rows.
fn cut_row(rows: &mut BTreeMap<u32, Vec<u32>>, feature: u32, version: u32)
    ensures { (f : ℕ) → row rows.new f ≡ cond (nat_eq feature f) (below version (row rows.old f)) (row rows.old f) }
{
    if let Some(numbers) = rows.get_mut(&feature) {
        cut_numbers(numbers, version);
    }
}

/// The same in the list of the element's feature.
fn cut_pair(
    table: &mut BTreeMap<Id, BTreeMap<u32, Vec<u32>>>,
    element: &Id,
    feature: u32,
    version: u32,
)
    ensures { Cuts table.old table.new version (λ e f. text_eq element.now e && nat_eq feature f) }
{
    if let Some(rows) = table.get_mut(element) {
        cut_row(rows, feature, version);
    }
}

/// The same in the list of the feature that the cell is of, where it is of one.
fn cut_cell(table: &mut BTreeMap<Id, BTreeMap<u32, Vec<u32>>>, cell: &Cell, version: u32)
    ensures { Cuts table.old table.new version (λ e f. is_of e f (seen cell.now)) }
{
    match cell {
        Cell::Kind(_) => {}
        Cell::Place(_) => {}
        Cell::Rank(_) => {}
        Cell::Attr(e, f) => cut_pair(table, e, *f, version),
        Cell::Row(e, f, _) => cut_pair(table, e, *f, version),
        Cell::Whole(e, f) => cut_pair(table, e, *f, version),
    }
}

/// The same for each of the cells.
fn cut_cells(table: &mut BTreeMap<Id, BTreeMap<u32, Vec<u32>>>, cells: &[Cell], version: u32)
    ensures { Cuts table.old table.new version (λ e f. has_of e f (cells_of cells.now)) }
{
    for cell in cells {
        cut_cell(table, cell, version);
    }
}

/// The same for each cell that is written by what the prints are of.
pub(crate) fn cut_prints(
    table: &mut BTreeMap<Id, BTreeMap<u32, Vec<u32>>>,
    prints: &[Print],
    version: u32,
)
    ensures { Cuts table.old table.new version (λ e f. wrote_by (shown prints.now) e f) }
{
    for print in prints {
        cut_cells(table, print.writes.as_slice(), version);
    }
}

/// The versions that wrote the feature, in an element's rows.
pub(crate) fn row_of(rows: &BTreeMap<u32, Vec<u32>>, feature: u32) -> &[u32]
    ensures { result.now ≡ row rows.now feature }
{
    match rows.get(&feature) {
        None => &[],
        Some(numbers) => numbers,
    }
}

/// The versions that wrote the feature of the element, rising.
pub(crate) fn listed<'a>(
    table: &'a BTreeMap<Id, BTreeMap<u32, Vec<u32>>>,
    element: &Id,
    feature: u32,
) -> &'a [u32]
    ensures { result.now ≡ listed table.now element.now feature }
{
    match table.get(element) {
        None => &[],
        Some(rows) => row_of(rows, feature),
    }
}
