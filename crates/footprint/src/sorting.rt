//! The positions of cells in the order of cells, by which one is found among many.
ghost use Rattle.std.specs.Prelude.{◌≡◌, ◌<◌, IfOk, None, Some, length, slice_get};
ghost use Rattle.std.specs.List.{range_with_len};
ghost use Rattle.std.specs.Option.{option_cmp, option_copied};
ghost use Rattle.model_laws.specs.Cells.{cell_eq};
ghost use Rattle.footprint.specs.Order.{IsOrder, held_cmp, place_cmp};
ghost use Rattle.footprint.specs.Prints.{seen, holds};

use crate::Cell;
use std::alloc::{AllocError, Global};
use std::cmp::Ordering;

impl Cell {
    /// Whether the two are the same cell.
    pub fn is_same(&self, other: &Cell) -> bool
        ensures { result ≡ cell_eq (seen self.now) (seen other.now) }
    {
        match self {
            Cell::Kind(e) => match other {
                Cell::Kind(x) => e == x,
                _ => false,
            },
            Cell::Place(e) => match other {
                Cell::Place(x) => e == x,
                _ => false,
            },
            Cell::Rank(e) => match other {
                Cell::Rank(x) => e == x,
                _ => false,
            },
            Cell::Attr(e, f) => match other {
                Cell::Attr(x, g) => e == x && f == g,
                _ => false,
            },
            Cell::Row(a, f, b) => match other {
                Cell::Row(x, g, y) => a == x && f == g && b == y,
                _ => false,
            },
            Cell::Whole(a, f) => match other {
                Cell::Whole(x, g) => a == x && f == g,
                _ => false,
            },
        }
    }
}

/// The cell at a position against a cell.
fn against(list: &[Cell], i: usize, cell: &Cell) -> Ordering
    ensures { result ≡ option_cmp held_cmp (slice_get list.now i) (Some cell.now) }
{
    list.get(i).cmp(&Some(cell))
}

/// The cell at a position against none.
fn against_none(list: &[Cell], i: usize) -> Ordering
    ensures { result ≡ option_cmp held_cmp (slice_get list.now i) None }
{
    list.get(i).cmp(&None)
}

fn cell_at(list: &[Cell], i: usize) -> Option<&Cell>
    ensures { option_copied result ≡ slice_get list.now i }
{
    list.get(i)
}

/// The cells at two positions.
fn by_cell(list: &[Cell], i: usize, j: usize) -> Ordering
    ensures { result ≡ place_cmp list.now i j }
{
    match cell_at(list, j) {
        None => against_none(list, i),
        Some(cell) => against(list, i, cell),
    }
}

/// The positions of so many cells.
fn places(alloc: Global, count: usize) -> Result<Vec<usize>, AllocError>
    ensures { IfOk result (λ v. v.items ≡ range_with_len 0 count) }
{
    let mut places = Vec::with_capacity(alloc, count)?;
    for place in 0..count {
        places.push(place)?;
    }
    Ok(places)
}

/// The positions of the cells by the order of cells.
fn sorted_places(alloc: Global, list: &[Cell]) -> Result<Vec<usize>, AllocError>
    ensures { IfOk result (λ v. IsOrder list.now v.items) }
{
    let mut order = places(alloc, list.len())?;
    order.sort_unstable_by(|i, j| by_cell(list, *i, *j));
    Ok(order)
}

/// So many cells at most are searched one by one, and need no order.
const FEW: usize = 8;

/// The positions of the cells by the order of cells, or none of few cells.
pub(crate) fn order_of(alloc: Global, list: &[Cell]) -> Result<Vec<usize>, AllocError>
    ensures { IfOk result (λ v. IsOrder list.now v.items) }
{
    if list.len() <= FEW {
        Ok(Vec::new(alloc))
    } else {
        sorted_places(alloc, list)
    }
}

fn is_among(list: &[Cell], cell: &Cell) -> bool
    ensures { result ≡ holds list.now (seen cell.now) }
{
    list.iter().any(|c| cell.is_same(c))
}

/// Whether the cell is one of the list, by a search in their order.
fn is_found(list: &[Cell], order: &[usize], cell: &Cell) -> bool
    requires order { IsOrder list.now order.now }
    requires some { 0 < length order.now }
    ensures { result ≡ holds list.now (seen cell.now) }
{
    order.binary_search_by(|i| against(list, *i, cell)).is_ok()
}

/// Whether the cell is one of the list, whose order stands beside it.
pub(crate) fn holds(list: &[Cell], order: &[usize], cell: &Cell) -> bool
    requires { IsOrder list.now order.now }
    ensures { result ≡ holds list.now (seen cell.now) }
{
    if order.is_empty() {
        is_among(list, cell)
    } else {
        is_found(list, order, cell)
    }
}
