//! Whether two operations interfere, by their cells.
ghost use Rattle.std.specs.Prelude.{◌≡◌};
ghost use Rattle.footprint.specs.Interference.{meets, cells_interfere};
ghost use Rattle.footprint.specs.Order.{IsOrder};
ghost use Rattle.footprint.specs.Prints.{cells, hold_one};

use crate::sorting::holds;
use crate::{Cell, Print};
use texts::List;

fn hold_one(list: &[Cell], other: &[Cell], order: &[usize]) -> bool
    requires { IsOrder other.now order.now }
    ensures { result ≡ hold_one list.now other.now }
{
    list.iter().any(|c| holds(other, order, c))
}

/// Whether the lists have a cell in common: each cell of the shorter is looked for in the longer.
#[tactic(auto, using(crate::proofs::Held::held_meets, crate::proofs::Held::held_turned))]
fn meets(list: &List<Cell>, order: &[usize], other: &List<Cell>, other_order: &[usize]) -> bool
    requires list { IsOrder list.now order.now }
    requires other { IsOrder other.now other_order.now }
    ensures { result ≡ meets (cells list.now) (cells other.now) }
{
    if list.len() <= other.len() {
        hold_one(list.as_slice(), other.as_slice(), other_order)
    } else {
        hold_one(other.as_slice(), list.as_slice(), order)
    }
}

/// Whether a cell that one of the two operations writes is written or read by the other. It goes over the cells of the
/// one that has fewer. For each it takes a number of steps that grows as the logarithm of how many the other has.
pub fn interferes(a: &Print, b: &Print) -> bool
    ensures { result ≡ cells_interfere (cells a.now.writes) (cells a.now.reads) (cells b.now.writes) (cells b.now.reads) }
{
    meets(&a.writes, &a.write_order, &b.writes, &b.write_order)
        || meets(&a.writes, &a.write_order, &b.reads, &b.read_order)
        || meets(&b.writes, &b.write_order, &a.reads, &a.read_order)
}
