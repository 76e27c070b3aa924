//! The cells of steps and operations, put after those that stand in a list.
ghost use Rattle.std.specs.Prelude.{◌≡◌, ◌++◌, ◌∷◌, [], IfOk, OnOk, map};
ghost use Rattle.model_state.specs.Packages.{steps_of};
ghost use Rattle.model_state.specs.Typing.{opposite_of};
ghost use Rattle.model_laws.specs.Cells.{OfKind, OfPlace, OfRank, is_bounded, is_finite, side, mirror_side, place_list, parents_of, step_writes, kinds_read, others_read, step_reads, writes_all, reads_all};
ghost use Rattle.footprint.specs.Interference.{op_writes, op_reads};
ghost use Rattle.footprint.specs.Prints.{seen, cells, shown, printed};

use crate::sorting::order_of;
use crate::{Cell, Print};
use ecore_meta::{Kind, Metamodel};
use model_state::{Id, Operation, Place, Step, opposite_of};
use std::alloc::{AllocError, Global};
use texts::List;

fn is_bounded(meta: &Metamodel, f: u32) -> bool
    ensures { result ≡ is_bounded meta.now f }
{
    match meta.get_feature(f) {
        None => false,
        Some(feature) => match &feature.kind {
            Kind::Bounded { .. } => true,
            _ => false,
        },
    }
}

fn is_finite(meta: &Metamodel, f: u32) -> bool
    ensures { result ≡ is_finite meta.now f }
{
    match meta.get_feature(f) {
        None => false,
        Some(feature) => match &feature.kind {
            Kind::Contains { .. } => feature.upper.is_some(),
            _ => false,
        },
    }
}

#[tactic(auto, using(crate::proofs::Held::cells_more), unfolding(crate::specs::Prints::cells))]
fn put_cell(list: &mut List<Cell>, cell: Cell) -> Result<(), AllocError>
    ensures { OnOk result (cells list.new ≡ cells list.old ++ seen cell ∷ []) }
{
    list.push(cell)
}

fn put_side(
    alloc: Global,
    list: &mut List<Cell>,
    meta: &Metamodel,
    a: &Id,
    f: u32,
    b: &Id,
) -> Result<(), AllocError>
    ensures { OnOk result (cells list.new ≡ cells list.old ++ side meta.now a.now f b.now ∷ []) }
{
    let source = a.copy(alloc)?;
    if is_bounded(meta, f) {
        put_cell(list, Cell::Whole(source, f))
    } else {
        put_cell(list, Cell::Row(source, f, b.copy(alloc)?))
    }
}

fn put_rows(
    alloc: Global,
    list: &mut List<Cell>,
    meta: &Metamodel,
    a: &Id,
    f: u32,
    b: &Id,
) -> Result<(), AllocError>
    ensures { OnOk result (cells list.new ≡ cells list.old ++ (side meta.now a.now f b.now ∷ mirror_side meta.now (opposite_of meta.now f) a.now b.now)) }
{
    put_side(alloc, list, meta, a, f, b)?;
    match opposite_of(meta, f) {
        None => Ok(()),
        Some(g) => put_side(alloc, list, meta, b, g, a),
    }
}

fn put_list(
    alloc: Global,
    list: &mut List<Cell>,
    meta: &Metamodel,
    place: &Place,
) -> Result<(), AllocError>
    ensures { OnOk result (cells list.new ≡ cells list.old ++ place_list meta.now place.now) }
{
    match place {
        Place::Root => Ok(()),
        Place::Inside { parent, feature } => {
            if is_finite(meta, *feature) {
                put_cell(list, Cell::Whole(parent.copy(alloc)?, *feature))
            } else {
                Ok(())
            }
        }
    }
}

fn put_birth(
    alloc: Global,
    list: &mut List<Cell>,
    meta: &Metamodel,
    e: &Id,
    place: &Place,
) -> Result<(), AllocError>
    ensures { OnOk result (cells list.new ≡ cells list.old ++ (OfKind e.now ∷ OfPlace e.now ∷ OfRank e.now ∷ place_list meta.now place.now)) }
{
    put_cell(list, Cell::Kind(e.copy(alloc)?))?;
    put_cell(list, Cell::Place(e.copy(alloc)?))?;
    put_cell(list, Cell::Rank(e.copy(alloc)?))?;
    put_list(alloc, list, meta, place)
}

fn put_move(
    alloc: Global,
    list: &mut List<Cell>,
    meta: &Metamodel,
    e: &Id,
    from: &Place,
    to: &Place,
) -> Result<(), AllocError>
    ensures { OnOk result (cells list.new ≡ cells list.old ++ (OfPlace e.now ∷ OfRank e.now ∷ (place_list meta.now from.now ++ place_list meta.now to.now))) }
{
    put_cell(list, Cell::Place(e.copy(alloc)?))?;
    put_cell(list, Cell::Rank(e.copy(alloc)?))?;
    put_list(alloc, list, meta, from)?;
    put_list(alloc, list, meta, to)
}

fn put_writes(
    alloc: Global,
    list: &mut List<Cell>,
    meta: &Metamodel,
    step: &Step,
) -> Result<(), AllocError>
    ensures { OnOk result (cells list.new ≡ cells list.old ++ step_writes meta.now step.now) }
{
    match step {
        Step::Put { e, f, .. } => put_cell(list, Cell::Attr(e.copy(alloc)?, *f)),
        Step::Ins { e, f, .. } => put_cell(list, Cell::Attr(e.copy(alloc)?, *f)),
        Step::Del { e, f, .. } => put_cell(list, Cell::Attr(e.copy(alloc)?, *f)),
        Step::Shift { e, f, .. } => put_cell(list, Cell::Attr(e.copy(alloc)?, *f)),
        Step::Link { a, f, b, .. } => put_rows(alloc, list, meta, a, *f, b),
        Step::Unlink { a, f, b, .. } => put_rows(alloc, list, meta, a, *f, b),
        Step::RerankRow { a, f, b, .. } => put_side(alloc, list, meta, a, *f, b),
        Step::New { e, place, .. } => put_birth(alloc, list, meta, e, place),
        Step::Gone { e, place, .. } => put_birth(alloc, list, meta, e, place),
        Step::Move { e, from, to, .. } => put_move(alloc, list, meta, e, from.get(), to.get()),
        Step::RerankPlace { e, .. } => put_cell(list, Cell::Rank(e.copy(alloc)?)),
    }
}

fn put_kind(alloc: Global, list: &mut List<Cell>, e: &Id) -> Result<(), AllocError>
    ensures { OnOk result (cells list.new ≡ cells list.old ++ OfKind e.now ∷ []) }
{
    put_cell(list, Cell::Kind(e.copy(alloc)?))
}

fn put_parent(alloc: Global, list: &mut List<Cell>, place: &Place) -> Result<(), AllocError>
    ensures { OnOk result (cells list.new ≡ cells list.old ++ map OfKind (parents_of place.now)) }
{
    match place {
        Place::Root => Ok(()),
        Place::Inside { parent, .. } => put_kind(alloc, list, parent),
    }
}

fn put_ends(alloc: Global, list: &mut List<Cell>, a: &Id, b: &Id) -> Result<(), AllocError>
    ensures { OnOk result (cells list.new ≡ cells list.old ++ (OfKind a.now ∷ OfKind b.now ∷ [])) }
{
    put_kind(alloc, list, a)?;
    put_kind(alloc, list, b)
}

fn put_places(alloc: Global, list: &mut List<Cell>, ids: &[Id]) -> Result<(), AllocError>
    ensures { OnOk result (cells list.new ≡ cells list.old ++ map OfPlace ids.now) }
{
    for id in ids {
        put_cell(list, Cell::Place(id.copy(alloc)?))?;
    }
    Ok(())
}

fn put_kinds_of_move(
    alloc: Global,
    list: &mut List<Cell>,
    e: &Id,
    from: &Place,
    to: &Place,
) -> Result<(), AllocError>
    ensures { OnOk result (cells list.new ≡ cells list.old ++ map OfKind (e.now ∷ (parents_of from.now ++ parents_of to.now))) }
{
    put_kind(alloc, list, e)?;
    put_parent(alloc, list, from)?;
    put_parent(alloc, list, to)
}

fn put_containers(
    alloc: Global,
    list: &mut List<Cell>,
    above_from: &List<Id>,
    above_to: &List<Id>,
) -> Result<(), AllocError>
    ensures { OnOk result (cells list.new ≡ cells list.old ++ map OfPlace (above_from.now ++ above_to.now)) }
{
    put_places(alloc, list, above_from.as_slice())?;
    put_places(alloc, list, above_to.as_slice())
}

fn put_reads(alloc: Global, list: &mut List<Cell>, step: &Step) -> Result<(), AllocError>
    ensures { OnOk result (cells list.new ≡ cells list.old ++ step_reads step.now) }
{
    match step {
        Step::Put { e, .. } => put_kind(alloc, list, e),
        Step::Ins { e, .. } => put_kind(alloc, list, e),
        Step::Del { e, .. } => put_kind(alloc, list, e),
        Step::Shift { e, .. } => put_kind(alloc, list, e),
        Step::Link { a, b, .. } => put_ends(alloc, list, a, b),
        Step::Unlink { a, b, .. } => put_ends(alloc, list, a, b),
        Step::RerankRow { a, b, .. } => put_ends(alloc, list, a, b),
        Step::New { place, .. } => put_parent(alloc, list, place),
        Step::Gone { place, .. } => put_parent(alloc, list, place),
        Step::Move {
            e,
            from,
            to,
            above_from,
            above_to,
            ..
        } => {
            put_kinds_of_move(alloc, list, e, from.get(), to.get())?;
            put_containers(alloc, list, above_from.get(), above_to.get())
        }
        Step::RerankPlace { e, .. } => put_cell(list, Cell::Place(e.copy(alloc)?)),
    }
}

fn with_orders(alloc: Global, writes: List<Cell>, reads: List<Cell>) -> Result<Print, AllocError>
    ensures writes { IfOk result (λ p. p.writes ≡ writes) }
    ensures reads { IfOk result (λ p. p.reads ≡ reads) }
{
    let write_order = order_of(alloc, writes.as_slice())?;
    let read_order = order_of(alloc, reads.as_slice())?;
    Ok(Print {
        writes,
        reads,
        write_order,
        read_order,
    })
}

fn print_steps(alloc: Global, steps: &[Step], meta: &Metamodel) -> Result<Print, AllocError>
    ensures writes { IfOk result (λ p. cells p.writes ≡ writes_all meta.now steps.now) }
    ensures reads { IfOk result (λ p. cells p.reads ≡ reads_all steps.now) }
{
    let mut writes = List::new(alloc);
    let mut reads = List::new(alloc);
    for step in steps {
        put_writes(alloc, &mut writes, meta, step)?;
        put_reads(alloc, &mut reads, step)?;
    }
    with_orders(alloc, writes, reads)
}

/// The cells that the steps of an operation write, and those that they read, in the order of the steps.
pub fn print_of(alloc: Global, op: &Operation, meta: &Metamodel) -> Result<Print, AllocError>
    ensures writes { IfOk result (λ p. cells p.writes ≡ op_writes meta.now op.now) }
    ensures reads { IfOk result (λ p. cells p.reads ≡ op_reads op.now) }
{
    match op {
        Operation::Simple { steps, .. } => print_steps(alloc, steps.as_slice(), meta),
        Operation::Composite { steps, .. } => print_steps(alloc, steps.as_slice(), meta),
    }
}

/// Puts the cells of each of the operations after those that stand, in the order of the operations.
pub fn put_prints(
    alloc: Global,
    prints: &mut Vec<Print>,
    ops: &[Operation],
    meta: &Metamodel,
) -> Result<(), AllocError>
    ensures { OnOk result (shown prints.new.items ≡ shown prints.old.items ++ printed meta.now ops.now) }
{
    for op in ops {
        prints.push(print_of(alloc, op, meta)?)?;
    }
    Ok(())
}

/// The cells of each of the operations, in their order.
pub fn prints_of(
    alloc: Global,
    ops: &[Operation],
    meta: &Metamodel,
) -> Result<Vec<Print>, AllocError>
    ensures { IfOk result (λ v. shown v.items ≡ printed meta.now ops.now) }
{
    let mut prints = Vec::new(alloc);
    put_prints(alloc, &mut prints, ops, meta)?;
    Ok(prints)
}
