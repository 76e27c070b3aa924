//! How lists are completed by opposites: a reference's list has the targets that its element gives, then the elements that name it.
ghost use Rattle.std.specs.Prelude.{◌≡◌, IfOk, [], ◌++◌, nat_eq, not, option_to_list};
ghost use Rattle.std.specs.List.{filter, list_any};
ghost use Rattle.emfjson_drafts.specs.Answers.{Gives};
ghost use Rattle.model_documents.specs.Completed.{attr_at, attrs_by, completed, completed_all, completed_at, completed_within, naming, next_row, others, row_of, rows_by};

use crate::sources::Sources;
use crate::targets::Targets;
use ecore_meta::Metamodel;
use emfjson_drafts::is_within;
use model_documents::{DocAttr, DocRefs, DocRow, ElementDraft, ModelFault};
use model_state::{Id, copied_values, opposite_of, row_upper};
use std::alloc::{AllocError, Global};
use texts::List;

/// Those of the numbers that are not among the targets.
fn without(alloc: Global, numbers: &[usize], targets: &Targets) -> Result<List<usize>, AllocError>
    ensures { IfOk result (λ ns. ns ≡ filter (λ n. not (list_any (nat_eq n) targets.now)) numbers.now) }
{
    let mut others = List::new(alloc);
    for n in numbers {
        if !targets.has(*n) {
            others.push(*n)?;
        }
    }
    Ok(others)
}

/// The elements that name `row` by the feature `g` and are not among the targets.
fn naming(
    alloc: Global,
    given: &Sources,
    row: usize,
    g: u32,
    targets: &[usize],
) -> Result<List<usize>, AllocError>
    ensures { IfOk result (λ ns. ns ≡ naming g row targets.now 0 given.now) }
{
    let targets = Targets::of(alloc, targets)?;
    without(alloc, given.naming(row, g), &targets)
}

fn others(
    alloc: Global,
    given: &Sources,
    row: usize,
    opposite: Option<u32>,
    targets: &[usize],
) -> Result<List<usize>, AllocError>
    ensures { IfOk result (λ ns. ns ≡ others opposite row targets.now given.now) }
{
    match opposite {
        None => Ok(List::new(alloc)),
        Some(g) => naming(alloc, given, row, g, targets),
    }
}

fn joined(alloc: Global, xs: &[usize], ys: &[usize]) -> Result<List<usize>, AllocError>
    ensures { IfOk result (λ zs. zs ≡ xs.now ++ ys.now) }
{
    let mut all = List::new(alloc);
    for x in xs {
        all.push(*x)?;
    }
    for y in ys {
        all.push(*y)?;
    }
    Ok(all)
}

/// The targets that an element gives, and then those that name it by the opposite.
fn completed(
    alloc: Global,
    meta: &Metamodel,
    given: &Sources,
    row: usize,
    refs: &DocRefs,
) -> Result<List<usize>, AllocError>
    ensures { IfOk result (λ ns. ns ≡ completed meta.now given.now row refs.now) }
{
    let targets = refs.targets.as_slice();
    let opposite = opposite_of(meta, refs.feature);
    let others = others(alloc, given, row, opposite, targets)?;
    joined(alloc, targets, others.as_slice())
}

fn completed_within(
    alloc: Global,
    meta: &Metamodel,
    given: &Sources,
    row: usize,
    refs: &DocRefs,
) -> Result<List<usize>, ModelFault>
    ensures { Gives result (completed_within meta.now given.now row refs.now) }
{
    let targets = completed(alloc, meta, given, row, refs)?;
    if !is_within(targets.len(), row_upper(meta, refs.feature)) {
        return Err(ModelFault::Bound);
    }
    Ok(targets)
}

fn completed_at(
    alloc: Global,
    meta: &Metamodel,
    given: &Sources,
    row: usize,
    refs: &DocRefs,
) -> Result<DocRefs, ModelFault>
    ensures { Gives result (completed_at meta.now given.now row [] refs.now) }
{
    Ok(DocRefs {
        feature: refs.feature,
        targets: completed_within(alloc, meta, given, row, refs)?,
    })
}

/// The lists of an element.
fn completed_all(
    alloc: Global,
    meta: &Metamodel,
    given: &Sources,
    row: usize,
    refs: &[DocRefs],
) -> Result<List<DocRefs>, ModelFault>
    ensures { Gives result (completed_all meta.now given.now row refs.now) }
{
    let mut all = List::new(alloc);
    for list in refs {
        all.push(completed_at(alloc, meta, given, row, list)?)?;
    }
    Ok(all)
}

fn attr_at(alloc: Global, attrs: &[DocAttr], f: u32) -> Result<Option<DocAttr>, AllocError>
    ensures { IfOk result (λ a. option_to_list a ≡ attr_at f attrs.now) }
{
    for attr in attrs {
        if f == attr.feature {
            let values = copied_values(alloc, attr.values.as_slice())?;
            return Ok(Some(DocAttr { feature: f, values }));
        }
    }
    Ok(None)
}

/// The attributes that are set, in the order of the features.
fn attrs_by(alloc: Global, features: &[u32], attrs: &[DocAttr]) -> Result<List<DocAttr>, AllocError>
    ensures { IfOk result (λ all. all ≡ attrs_by attrs.now features.now) }
{
    let mut all = List::new(alloc);
    for f in features {
        if let Some(attr) = attr_at(alloc, attrs, *f)? {
            all.push(attr)?;
        }
    }
    Ok(all)
}

fn copy_id(alloc: Global, id: &Option<Id>) -> Result<Option<Id>, AllocError>
    ensures { IfOk result (λ copied. copied ≡ id.now) }
{
    match id {
        None => Ok(None),
        Some(id) => Ok(Some(id.copy(alloc)?)),
    }
}

fn row_of(
    alloc: Global,
    meta: &Metamodel,
    draft: &ElementDraft,
    refs: List<DocRefs>,
) -> Result<DocRow, AllocError>
    ensures { IfOk result (λ row. row ≡ row_of meta.now draft.now refs) }
{
    Ok(DocRow {
        id: copy_id(alloc, &draft.id)?,
        class: draft.class,
        parent: draft.parent,
        attrs: attrs_by(alloc, meta.features_of(draft.class), draft.attrs.as_slice())?,
        refs,
    })
}

/// The next row with its lists, after those before it.
fn next_row(
    alloc: Global,
    meta: &Metamodel,
    given: &Sources,
    rows: &[DocRow],
    draft: &ElementDraft,
) -> Result<DocRow, ModelFault>
    ensures { Gives result (next_row meta.now given.now rows.now draft.now) }
{
    let n = rows.len();
    let refs = completed_all(alloc, meta, given, n, given.at(n))?;
    Ok(row_of(alloc, meta, draft, refs)?)
}

/// The rows of the elements, with the targets that either side gives.
pub(crate) fn rows_by(
    alloc: Global,
    meta: &Metamodel,
    given: &[List<DocRefs>],
    drafts: &[ElementDraft],
) -> Result<List<DocRow>, ModelFault>
    ensures { Gives result (rows_by meta.now given.now drafts.now) }
{
    let sources = Sources::new(alloc, given)?;
    rows_with(alloc, meta, &sources, drafts)
}

fn rows_with(
    alloc: Global,
    meta: &Metamodel,
    given: &Sources,
    drafts: &[ElementDraft],
) -> Result<List<DocRow>, ModelFault>
    ensures { Gives result (rows_by meta.now given.now drafts.now) }
{
    let mut rows = List::new(alloc);
    for draft in drafts {
        rows.push(next_row(alloc, meta, given, rows.as_slice(), draft)?)?;
    }
    Ok(rows)
}
