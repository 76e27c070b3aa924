//! The search for the last operation that touches another.
ghost use Rattle.std.specs.Prelude.{ℕ, ◌≡◌, ◌<◌, ◌≤◌, ◌-◌, List, length, get_or, true, false, IfSome};
ghost use Rattle.std.specs.List.{Contains};
ghost use Rattle.footprint.specs.declared.cell.Cell.{Cell as Held};
ghost use Rattle.footprint.specs.declared.cell.Print.{Print};
ghost use Rattle.footprint.specs.Prints.{cells};
ghost use Rattle.cell_index.specs.Near.{row_of};
ghost use Rattle.cell_index.specs.Standing.{is_none, prints_touch, Hit, Rise, Rising, ListsStanding, IsLast};

use crate::Standing;
use crate::keys::slot_of;
use footprint::{Cell, Print, interferes};

/// Whether the two interfere, or neither writes anything.
fn touches(a: &Print, b: &Print) -> bool
    ensures { result ≡ prints_touch a.now b.now }
{
    interferes(a, b) || (a.writes.len() == 0 && b.writes.len() == 0)
}

impl Standing {
    /// Whether an operation stands at the place, below another, that touches the one of the print.
    fn is_hit(&self, prints: &[Print], print: &Print, below: usize, place: u64) -> bool
        requires { length self.now.stands.items ≤ length prints.now }
        ensures hit { result ≡ true → Hit self.now.stands.items prints.now print.now below place }
        ensures none { result ≡ false → Hit self.now.stands.items prints.now print.now below place → ⊥ }
    {
        let place = place as usize;
        place < below
            && place < self.stands.len()
            && self.stands[place]
            && touches(print, &prints[place])
    }

    /// One more than the last place of the list whose operation touches the one of the print, or `floor` where that is
    /// more.
    fn later(
        &self,
        prints: &[Print],
        print: &Print,
        below: usize,
        list: &[u64],
        floor: usize,
    ) -> usize
        requires many { length self.now.stands.items ≤ length prints.now }
        requires rise { (high : ℕ) × Rise 0 high list.now }
        ensures further { floor ≤ result }
        ensures hit { floor < result → Hit self.now.stands.items prints.now print.now below (result - 1) }
        ensures clear { (k : ℕ) → Contains list.now k → result ≤ k → Hit self.now.stands.items prints.now print.now below k → ⊥ }
    {
        let mut i = list.len();
        while i > 0 {
            i -= 1;
            let place = list[i];
            if (place as usize) < floor {
                return floor;
            }
            if self.is_hit(prints, print, below, place) {
                return place as usize + 1;
            }
        }
        floor
    }

    /// The same for the lists of the cells.
    fn later_of(
        &self,
        prints: &[Print],
        print: &Print,
        below: usize,
        table: &[Vec<u64>],
        cells: &[Cell],
        floor: usize,
    ) -> usize
        requires many { length self.now.stands.items ≤ length prints.now }
        requires some { 0 < length table.now }
        requires rising { (high : ℕ) × Rising table.now high }
        ensures further { floor ≤ result }
        ensures hit { floor < result → Hit self.now.stands.items prints.now print.now below (result - 1) }
        ensures clear { (h : Held) → Contains cells.now h → (k : ℕ) → Contains (row_of table.now h) k → result ≤ k → Hit self.now.stands.items prints.now print.now below k → ⊥ }
    {
        let mut end = floor;
        for cell in cells {
            let slot = slot_of(cell, table.len());
            end = self.later(prints, print, below, &table[slot], end);
        }
        end
    }

    /// The same for the operations that write nothing, where that of the print is one.
    fn later_idle(&self, prints: &[Print], print: &Print, below: usize, floor: usize) -> usize
        requires many { length self.now.stands.items ≤ length prints.now }
        requires rise { (high : ℕ) × Rise 0 high self.now.idle.items }
        ensures further { floor ≤ result }
        ensures hit { floor < result → Hit self.now.stands.items prints.now print.now below (result - 1) }
        ensures clear { is_none (cells print.now.writes) ≡ true → (k : ℕ) → Contains self.now.idle.items k → result ≤ k → Hit self.now.stands.items prints.now print.now below k → ⊥ }
    {
        if print.writes.len() == 0 {
            self.later(prints, print, below, &self.idle, floor)
        } else {
            floor
        }
    }

    /// The last place below another at which an operation stands that touches the one of that other place: they interfere, or neither
    /// writes anything.
    pub fn last(&self, prints: &[Print], at: usize) -> Option<usize>
        requires keeps { ListsStanding self.now prints.now }
        requires within { at < length prints.now }
        ensures last { (p : Print) → p ≡ get_or prints.now at p → IsLast self.now.stands.items prints.now p at result }
        ensures low { IfSome result (λ place. place < at) }
    {
        let print = &prints[at];
        let writes = print.writes.as_slice();
        let reads = print.reads.as_slice();
        let end = self.later_of(prints, print, at, &self.index.writers, writes, 0);
        let end = self.later_of(prints, print, at, &self.index.readers, writes, end);
        let end = self.later_of(prints, print, at, &self.index.writers, reads, end);
        let end = self.later_idle(prints, print, at, end);
        if end == 0 { None } else { Some(end - 1) }
    }
}
