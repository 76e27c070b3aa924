//! Cells, and the cells of an operation.
ghost use Rattle.footprint.specs.Order.{IsOrder};

use model_state::Id;
use texts::List;

/// A part of a model that steps write or read as one. Cells stand in an order: by their sorts, and in one sort by what they are of.
#[derive(PartialEq, Eq, PartialOrd, Ord, Drop)]
pub enum Cell {
    /// Whether an element is there, and its class.
    Kind(Id),
    /// The place of an element: the root, or a parent and a containment.
    Place(Id),
    /// The rank of an element in its place.
    Rank(Id),
    /// The values of an attribute of an element: element, feature.
    Attr(Id, u32),
    /// One reference, with its rank: source, feature, target. The feature has no upper bound.
    Row(Id, u32, Id),
    /// All references of a feature with an upper bound, or all children in a containment with one.
    Whole(Id, u32),
}

/// The cells that an operation writes, and those that it reads, in the order of its steps. Where there are many, it
/// keeps their positions by the order of cells too. So one of them is found without a walk over all.
#[derive(Drop)]
pub struct Print {
    pub writes: List<Cell>,
    pub reads: List<Cell>,
    pub(crate) write_order: Vec<usize>,
    pub(crate) read_order: Vec<usize>,
    ghost writes_in_order: { IsOrder writes write_order.items },
    ghost reads_in_order: { IsOrder reads read_order.items },
}
