//! The label of each operation: the position of the first operation of its component.
ghost use Rattle.std.specs.Prelude.{◌≡◌, ℕ, ◌+◌, ◌<◌, ◌++◌, ◌∷◌, [], List, true, false, IfOk, OnOk, length, set, get_or};
ghost use Rattle.std.specs.List.{Contains};
ghost use Rattle.ecore_meta.specs.Meta.{Meta};
ghost use Rattle.model_state.specs.declared.operation.Operation.{Operation};
ghost use Rattle.footprint.specs.Prints.{shown, printed};
ghost use Rattle.footprint.specs.Buckets.{labels};
ghost use Rattle.cell_index.specs.Draining.{ListsUnflagged};
ghost use Rattle.conflict_buckets.specs.Spread.{AreLinked, AreSpread, Further};

use cell_index::{CellIndex, index_of};
use footprint::Print;
use std::alloc::{AllocError, Global};

/// Labels as they are spread from operation to operation.
#[derive(Drop)]
pub(crate) struct Labels {
    /// The label of each operation. It is its own position until the operation is reached.
    labels: Vec<u64>,
    /// Whether an operation is reached, and has its label for good.
    reached: Vec<bool>,
    /// The positions of those that are, in the order in which they were reached.
    order: Vec<u64>,
}

/// So many positions, from 0.
fn places_below(alloc: Global, size: usize) -> Result<Vec<u64>, AllocError>
    ensures size { IfOk result (λ v. length v.items ≡ size) }
    ensures own { IfOk result (λ v. (k : ℕ) → k < size → get_or v.items k 0 ≡ k) }
{
    let mut places = Vec::new(alloc);
    for place in 0..size {
        places.push(place as u64)?;
    }
    Ok(places)
}

impl Labels {
    /// No operation is reached yet.
    fn new(alloc: Global, prints: &[Print]) -> Result<Labels, AllocError>
        ensures { IfOk result (λ s. AreSpread prints.now 0 (length s.order.items) s.labels.items s.reached.items s.order.items) }
    {
        let labels = places_below(alloc, prints.len())?;
        let reached = vec![in alloc; false; prints.len()]?;
        Ok(Labels {
            labels,
            reached,
            order: Vec::new(alloc),
        })
    }

    /// An operation is reached, and gets its label.
    fn reach(&mut self, label: u64, place: u64) -> Result<(), AllocError>
        requires labels { place < length self.old.labels.items }
        requires reached { place < length self.old.reached.items }
        ensures labels { OnOk result (self.new.labels.items ≡ set self.old.labels.items place label) }
        ensures reached { OnOk result (self.new.reached.items ≡ set self.old.reached.items place true) }
        ensures order { OnOk result (self.new.order.items ≡ self.old.order.items ++ place ∷ []) }
    {
        self.order.push(place)?;
        self.labels[place as usize] = label;
        self.reached[place as usize] = true;
        Ok(())
    }

    /// The operation of a position that is linked with the label is reached, if it isn't yet.
    fn reach_new(
        &mut self,
        prints: &[Print],
        label: u64,
        place: u64,
        _at: usize,
    ) -> Result<(), AllocError>
        requires spread { AreSpread prints.now label _at self.old.labels.items self.old.reached.items self.old.order.items }
        requires there { place < length prints.now }
        requires linked { AreLinked prints.now label place }
        ensures spread { OnOk result (AreSpread prints.now label _at self.new.labels.items self.new.reached.items self.new.order.items) }
        ensures here { OnOk result (get_or self.new.reached.items place false ≡ true) }
        ensures further { OnOk result (Further self.old.reached.items self.new.reached.items self.old.order.items self.new.order.items) }
    {
        if self.reached[place as usize] {
            return Ok(());
        }
        self.reach(label, place)?;
        Ok(())
    }

    /// All these are reached.
    fn reach_all(
        &mut self,
        prints: &[Print],
        label: u64,
        near: &[u64],
        _at: usize,
    ) -> Result<(), AllocError>
        requires spread { AreSpread prints.now label _at self.old.labels.items self.old.reached.items self.old.order.items }
        requires there { (k : ℕ) → Contains near.now k → k < length prints.now }
        requires linked { (k : ℕ) → Contains near.now k → AreLinked prints.now label k }
        ensures spread { OnOk result (AreSpread prints.now label _at self.new.labels.items self.new.reached.items self.new.order.items) }
        ensures all { OnOk result ((k : ℕ) → Contains near.now k → get_or self.new.reached.items k false ≡ true) }
        ensures further { OnOk result (Further self.old.reached.items self.new.reached.items self.old.order.items self.new.order.items) }
    {
        for place in near {
            self.reach_new(prints, label, *place, _at)?;
        }
        Ok(())
    }

    /// All that interfere with the operation at a position of the order are reached.
    fn pass(
        &mut self,
        alloc: Global,
        prints: &[Print],
        index: &mut CellIndex,
        label: u64,
        at: usize,
    ) -> Result<(), AllocError>
        requires index { ListsUnflagged index.old prints.now self.old.reached.items [] }
        requires spread { AreSpread prints.now label at self.old.labels.items self.old.reached.items self.old.order.items }
        requires there { at < length self.old.order.items }
        ensures spread { OnOk result (AreSpread prints.now label (at + 1) self.new.labels.items self.new.reached.items self.new.order.items) }
        ensures further { OnOk result (Further self.old.reached.items self.new.reached.items self.old.order.items self.new.order.items) }
        ensures index { OnOk result (ListsUnflagged index.new prints.now self.new.reached.items []) }
    {
        let place = self.order[at] as usize;
        let near = index.take_met(alloc, prints, &prints[place], &self.reached)?;
        self.reach_all(prints, label, &near, at)?;
        Ok(())
    }

    /// All that are linked with the operation of a position are reached, and labelled by it. It does nothing where that one is reached already.
    fn spread(
        &mut self,
        alloc: Global,
        prints: &[Print],
        index: &mut CellIndex,
        start: u64,
    ) -> Result<(), AllocError>
        requires index { ListsUnflagged index.old prints.now self.old.reached.items [] }
        requires spread { AreSpread prints.now start (length self.old.order.items) self.old.labels.items self.old.reached.items self.old.order.items }
        requires there { start < length prints.now }
        ensures spread { OnOk result (AreSpread prints.now (start + 1) (length self.new.order.items) self.new.labels.items self.new.reached.items self.new.order.items) }
        ensures index { OnOk result (ListsUnflagged index.new prints.now self.new.reached.items []) }
    {
        if self.reached[start as usize] {
            return Ok(());
        }
        let mut at = self.order.len();
        self.reach_new(prints, start, start, at)?;
        while at < self.order.len() {
            self.pass(alloc, prints, index, start, at)?;
            at += 1;
        }
        Ok(())
    }
}

/// The label of each operation: the least position linked to it. Each operation is passed once. What the index lists under its cells is
/// taken out there as it is reached, so that it is looked at once for a cell.
pub(crate) fn labels_of(alloc: Global, prints: &[Print]) -> Result<Vec<u64>, AllocError>
    ensures labels { IfOk result (λ v. (meta : Meta) (ops : List Operation) → shown prints.now ≡ printed meta ops → v.items ≡ labels meta ops) }
    ensures size { IfOk result (λ v. length v.items ≡ length prints.now) }
{
    let mut index = index_of(alloc, prints)?;
    let mut found = Labels::new(alloc, prints)?;
    for start in 0..prints.len() {
        found.spread(alloc, prints, &mut index, start as u64)?;
    }
    Ok(found.labels)
}
