//! The creations of an import, a container before what it contains.
ghost use Rattle.std.specs.Prelude.{◌≡◌, ◌<◌, ◌⊎◌, ◌++◌, ◌∷◌, [], false, true, IfErr, IfOk, OnOk, length};
ghost use Rattle.edit_steps.specs.declared.fault.EditFault.TheVariants.{Bound, Memory};
ghost use Rattle.model_state.specs.Listing.{children};
ghost use Rattle.model_state.specs.declared.step.Place.TheVariants.{Root, Inside};
ghost use Rattle.model_state.specs.declared.step.Step.TheVariants.{New};
ghost use Rattle.model_import.specs.Counts.{CountsAlso, counted};
ghost use Rattle.import_laws.specs.Names.{name_at, greatest_number};
ghost use Rattle.edits.specs.Answers.{Answers};
ghost use Rattle.import_laws.specs.News.{element_made, has_room, news_made, place_of, rank_of, roots_after};

use crate::counts::{count_up, counted};
use crate::names::name_at;
use crate::roots::add_root;
use edit_steps::EditFault;
use model_documents::{DocParent, DocRow};
use model_state::{Entry, Id, Look, Place, RANK_GAP, Step};
use std::alloc::{AllocError, Global};
use std::collections::BTreeMap;
use texts::List;

/// The rank of the k-th entry of a new list, from 0. It is out of memory where 64 bits don't hold the rank.
pub(crate) fn rank_of(k: usize) -> Result<u64, AllocError>
    ensures { IfOk result (λ r. r ≡ rank_of k) }
{
    let number = (k as u64).checked_add(1).ok_or(AllocError)?;
    number.checked_mul(RANK_GAP).ok_or(AllocError)
}

/// The place of a row.
fn place_of(alloc: Global, names: &[Id], parent: Option<DocParent>) -> Result<Place, AllocError>
    ensures { IfOk result (λ p. p ≡ place_of names.now parent) }
{
    match parent {
        None => Ok(Place::Root),
        Some(parent) => match names.get(parent.row) {
            None => Ok(Place::Root),
            Some(name) => Ok(Place::Inside {
                parent: name.copy(alloc)?,
                feature: parent.feature,
            }),
        },
    }
}

/// A new element in its place, where it is the k-th unless that is the root.
fn add_element(
    alloc: Global,
    place: Place,
    e: &Id,
    class: u32,
    k: usize,
    roots: &mut List<Entry>,
    steps: &mut List<Step>,
) -> Result<(), EditFault>
    ensures room { OnOk result (has_room roots.old place ≡ true) }
    ensures roots { OnOk result (roots.new ≡ roots_after roots.old place e.now) }
    ensures steps { OnOk result (steps.new ≡ steps.old ++ element_made roots.old place e.now class k) }
    ensures refused { IfErr result (λ x. (x ≡ Memory) ⊎ ((x ≡ Bound) × (has_room roots.old place ≡ false))) }
{
    match place {
        Place::Root => add_root(alloc, roots, steps, e, class),
        Place::Inside { parent, feature } => {
            match add_inside(alloc, parent, feature, e, class, k, steps) {
                Err(_) => Err(EditFault::Memory),
                Ok(()) => Ok(()),
            }
        }
    }
}

fn add_inside(
    alloc: Global,
    parent: Id,
    feature: u32,
    e: &Id,
    class: u32,
    k: usize,
    steps: &mut List<Step>,
) -> Result<(), AllocError>
    ensures { OnOk result (steps.new ≡ steps.old ++ New e.now class (Inside parent feature) (rank_of k) ∷ []) }
{
    steps.push(Step::New {
        e: e.copy(alloc)?,
        class,
        place: Place::Inside { parent, feature },
        rank: rank_of(k)?,
    })?;
    Ok(())
}

/// The element of the n-th row, after those that stand in its place so far.
fn add_row(
    alloc: Global,
    names: &[Id],
    n: usize,
    row: &DocRow,
    counts: &mut BTreeMap<(usize, u32), usize>,
    roots: &mut List<Entry>,
    steps: &mut List<Step>,
) -> Result<(), EditFault>
    requires named { n < length names.now }
    requires few { counted counts.old row.now.parent < greatest_number }
    ensures counts { OnOk result (CountsAlso counts.old row.now.parent counts.new) }
    ensures room { OnOk result (has_room roots.old (place_of names.now row.now.parent) ≡ true) }
    ensures roots { OnOk result (roots.new ≡ roots_after roots.old (place_of names.now row.now.parent) (name_at names.now n)) }
    ensures steps { OnOk result (steps.new ≡ steps.old ++ element_made roots.old (place_of names.now row.now.parent) (name_at names.now n) row.now.class (counted counts.old row.now.parent)) }
    ensures refused { IfErr result (λ x. (x ≡ Memory) ⊎ ((x ≡ Bound) × (has_room roots.old (place_of names.now row.now.parent) ≡ false))) }
{
    match place_of(alloc, names, row.parent) {
        Err(_) => Err(EditFault::Memory),
        Ok(place) => {
            let k = counted(counts, row.parent);
            if count_up(counts, row.parent, k).is_err() {
                return Err(EditFault::Memory);
            }
            add_element(alloc, place, name_at(names, n), row.class, k, roots, steps)
        }
    }
}

/// The steps in which the elements of a document are created.
pub(crate) fn news<L: Look>(
    alloc: Global,
    look: &L,
    names: &[Id],
    rows: &[DocRow],
) -> Result<List<Step>, EditFault>
    requires { length names.now ≡ length rows.now }
    ensures { Answers result (news_made (children (L.state look.now).place (L.state look.now).prank Root) names.now rows.now) }
{
    match look.children(alloc, &Place::Root) {
        Err(_) => Err(EditFault::Memory),
        Ok(roots) => news_behind(alloc, roots, names, rows),
    }
}

fn news_behind(
    alloc: Global,
    roots: List<Entry>,
    names: &[Id],
    rows: &[DocRow],
) -> Result<List<Step>, EditFault>
    requires { length names.now ≡ length rows.now }
    ensures { Answers result (news_made roots names.now rows.now) }
{
    let mut roots = roots;
    let mut steps = List::new(alloc);
    let mut counts = BTreeMap::new(alloc);
    for (n, row) in rows.iter().enumerate() {
        match add_row(alloc, names, n, row, &mut counts, &mut roots, &mut steps) {
            Err(fault) => return Err(fault),
            Ok(()) => {}
        }
    }
    Ok(steps)
}
