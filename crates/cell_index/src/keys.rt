//! The numbers of cells, by which tables list them: equal cells have equal numbers.
ghost use Rattle.std.specs.Prelude.{ℕ, ◌≡◌, ◌<◌, ◌%◌};
ghost use Rattle.footprint.specs.Prints.{seen};
ghost use Rattle.cell_index.specs.Keys.{text_key, cell_key, key_range};

use footprint::Cell;
use model_state::Id;

/// The numbers of ids are below this prime.
const KEY_RANGE: u64 = 1_000_003;

/// By this the number of an id is multiplied before a byte is added.
const TEXT_FACTOR: u64 = 31;

/// By this the number of a target is multiplied.
const TARGET_FACTOR: u64 = 17;

/// By this the number of a feature is multiplied.
const FEATURE_FACTOR: u64 = 613;

/// There is room for so many sorts of cells.
const SORTS: u64 = 8;

/// A number of the id.
fn id_key(id: &Id) -> u64
    ensures key { result ≡ text_key 0 id.now }
    ensures low { result < key_range }
{
    let mut key = 0;
    for b in id.as_str().as_bytes() {
        key = (key * TEXT_FACTOR + *b as u64) % KEY_RANGE;
    }
    key
}

/// A number of the cell.
fn cell_key(cell: &Cell) -> u64
    ensures { result ≡ cell_key (seen cell.now) }
{
    match cell {
        Cell::Kind(e) => id_key(e) * SORTS,
        Cell::Place(e) => id_key(e) * SORTS + 1,
        Cell::Rank(e) => id_key(e) * SORTS + 2,
        Cell::Attr(e, f) => (id_key(e) + *f as u64 * FEATURE_FACTOR) * SORTS + 3,
        Cell::Row(a, f, b) => (id_key(a) + id_key(b) * TARGET_FACTOR + *f as u64 * FEATURE_FACTOR)
            * SORTS
            + 4,
        Cell::Whole(a, f) => (id_key(a) + *f as u64 * FEATURE_FACTOR) * SORTS + 5,
    }
}

/// The slot of the cell in a table of the size.
pub(crate) fn slot_of(cell: &Cell, size: usize) -> usize
    requires { 0 < size }
    ensures slot { result ≡ cell_key (seen cell.now) % size }
    ensures low { result < size }
{
    (cell_key(cell) % size as u64) as usize
}
