//! The links of an import: each reference with its opposite is one step, with the rank on either side.
ghost use Rattle.std.specs.Prelude.{◌≡◌, ◌++◌, IfOk, OnOk, length, Some, option_copied, slice_get};
ghost use Rattle.import_laws.specs.Links.{is_made, link_to, links_from, links_made, mirror_of, refs_made, targets_made};

use crate::indexes::Indexes;
use crate::names::name_at;
use crate::news::rank_of;
use ecore_meta::Metamodel;
use edit_steps::link_step;
use model_documents::{DocRefs, DocRow};
use model_state::{Id, Step, opposite_of};
use std::alloc::{AllocError, Global};
use texts::List;

/// Whether the link was made from the other side.
fn is_made(opposite: Option<u32>, n: usize, f: u32, b: usize) -> bool
    ensures { result ≡ is_made opposite n f b }
{
    match opposite {
        None => false,
        Some(g) => b < n || b == n && g < f,
    }
}

/// The rank of the mirror of a link of row n to the target b.
fn mirror_of(rows: &Indexes, opposite: Option<u32>, n: usize, b: usize) -> Result<u64, AllocError>
    ensures { IfOk result (λ r. r ≡ mirror_of rows.now opposite n b) }
{
    match opposite {
        None => Ok(0),
        Some(g) => rank_of(rows.index(b, g, n)),
    }
}

/// The link of row n, whose id is e, to the target b at index k of its list, where it isn't made yet.
fn add_link(
    alloc: Global,
    meta: &Metamodel,
    rows: &Indexes,
    n: usize,
    e: &Id,
    f: u32,
    k: usize,
    b: usize,
    name: &Id,
    steps: &mut List<Step>,
) -> Result<(), AllocError>
    ensures { OnOk result (steps.new ≡ steps.old ++ link_to meta.now rows.now n e.now f k b (Some name.now)) }
{
    let opposite = opposite_of(meta, f);
    if is_made(opposite, n, f, b) {
        return Ok(());
    }
    let mirror = mirror_of(rows, opposite, n, b)?;
    let rank = rank_of(k)?;
    steps.push(link_step(alloc, opposite, e, f, rank, name, mirror)?)?;
    Ok(())
}

fn named(names: &[Id], b: usize) -> Option<&Id>
    ensures { option_copied result ≡ slice_get names.now b }
{
    names.get(b)
}

fn add_target(
    alloc: Global,
    meta: &Metamodel,
    names: &[Id],
    rows: &Indexes,
    n: usize,
    e: &Id,
    f: u32,
    k: usize,
    b: usize,
    steps: &mut List<Step>,
) -> Result<(), AllocError>
    ensures { OnOk result (steps.new ≡ steps.old ++ link_to meta.now rows.now n e.now f k b (slice_get names.now b)) }
{
    match named(names, b) {
        None => Ok(()),
        Some(name) => add_link(alloc, meta, rows, n, e, f, k, b, name, steps),
    }
}

fn add_targets(
    alloc: Global,
    meta: &Metamodel,
    names: &[Id],
    rows: &Indexes,
    n: usize,
    e: &Id,
    refs: &DocRefs,
    steps: &mut List<Step>,
) -> Result<(), AllocError>
    ensures { OnOk result (steps.new ≡ steps.old ++ targets_made meta.now names.now rows.now n e.now refs.now.feature 0 refs.now.targets) }
{
    for (k, b) in refs.targets.as_slice().iter().enumerate() {
        add_target(alloc, meta, names, rows, n, e, refs.feature, k, *b, steps)?;
    }
    Ok(())
}

fn add_refs(
    alloc: Global,
    meta: &Metamodel,
    names: &[Id],
    rows: &Indexes,
    n: usize,
    e: &Id,
    refs: &[DocRefs],
    steps: &mut List<Step>,
) -> Result<(), AllocError>
    ensures { OnOk result (steps.new ≡ steps.old ++ refs_made meta.now names.now rows.now n e.now refs.now) }
{
    for list in refs {
        add_targets(alloc, meta, names, rows, n, e, list, steps)?;
    }
    Ok(())
}

/// The steps in which the elements of rows are linked to those of all rows.
fn add_all(
    alloc: Global,
    meta: &Metamodel,
    names: &[Id],
    indexes: &Indexes,
    rows: &[DocRow],
    steps: &mut List<Step>,
) -> Result<(), AllocError>
    requires { length names.now ≡ length rows.now }
    ensures { OnOk result (steps.new ≡ steps.old ++ links_from meta.now names.now indexes.now 0 rows.now) }
{
    for (n, row) in rows.iter().enumerate() {
        add_refs(
            alloc,
            meta,
            names,
            indexes,
            n,
            name_at(names, n),
            row.refs.as_slice(),
            steps,
        )?;
    }
    Ok(())
}

/// The steps in which the elements of a document are linked.
pub(crate) fn add_links(
    alloc: Global,
    meta: &Metamodel,
    names: &[Id],
    rows: &[DocRow],
    steps: &mut List<Step>,
) -> Result<(), AllocError>
    requires { length names.now ≡ length rows.now }
    ensures { OnOk result (steps.new ≡ steps.old ++ links_made meta.now names.now rows.now) }
{
    let indexes = Indexes::new(alloc, rows)?;
    add_all(alloc, meta, names, &indexes, rows, steps)
}
