//! The lookup of a `$ref`: an id of the document, or a path along containments.
ghost use Rattle.std.specs.Prelude.{◌≡◌, ◌==◌, IfOk, map, option_and_then, option_map};
ghost use Rattle.std.specs.List.{list_all, slice_split};
ghost use Rattle.std.specs.Char.{is_ascii_digit};
ghost use Rattle.model_state.specs.Typing.{is_containment, kind_of};
ghost use Rattle.model_documents.specs.References.{along, along_parts, child_by, child_named, index_of, located, located_bare, number_of, root_at, step_from};

use ecore_meta::{Kind, Metamodel};
use emfjson_drafts::{Finder, after_prefix, child_at};
use model_documents::DocParent;
use model_state::{is_one, upper_of};
use std::alloc::{AllocError, Global};

fn are_digits(bytes: &[u8]) -> bool
    ensures { result ≡ list_all is_ascii_digit bytes.now }
{
    bytes.iter().all(|byte| byte.is_ascii_digit())
}

/// The number that decimal digits write, below 2^32.
fn number_of(text: &str) -> Option<u32>
    ensures { result ≡ number_of text.now }
{
    if text.is_empty() || !are_digits(text.as_bytes()) {
        return None;
    }
    match text.parse::<u32>() {
        Ok(number) => Some(number),
        Err(_) => None,
    }
}

/// The index after the name of a containment: one that holds a single child has none.
fn index_of(single: bool, text: Option<&str>) -> Option<u32>
    ensures { result ≡ index_of single (option_map (λ t. t.now) text.entry) }
{
    match text {
        None => { if single { Some(0) } else { None } }
        Some(text) => { if single { None } else { number_of(text) } }
    }
}

fn is_containment(meta: &Metamodel, f: u32) -> bool
    ensures { result ≡ is_containment (kind_of meta.now f) }
{
    match meta.get_feature(f) {
        None => false,
        Some(feature) => match &feature.kind {
            Kind::Contains { .. } => true,
            _ => false,
        },
    }
}

fn child_by(
    meta: &Metamodel,
    rows: &Finder,
    row: usize,
    f: Option<u32>,
    index: Option<&str>,
) -> Option<usize>
    ensures { result ≡ child_by meta.now rows.now row f (option_map (λ t. t.now) index.entry) }
{
    match f {
        None => None,
        Some(f) => {
            if !is_containment(meta, f) {
                return None;
            }
            match index_of(is_one(upper_of(meta, f)), index) {
                None => None,
                Some(index) => child_at(rows, Some(DocParent { row, feature: f }), index),
            }
        }
    }
}

/// The child of a row that a containment's name, and an index after it, name.
fn child_named(meta: &Metamodel, rows: &Finder, row: usize, parts: &[&str]) -> Option<usize>
    ensures { result ≡ child_named meta.now rows.now row (map (λ t. t.now) parts.now) }
{
    let class = rows.class_at(row);
    match parts {
        [] => None,
        [name] => child_by(meta, rows, row, meta.feature_named(class, *name), None),
        [name, index] => child_by(
            meta,
            rows,
            row,
            meta.feature_named(class, *name),
            Some(*index),
        ),
        [_, _, _, ..] => None,
    }
}

fn dotted(alloc: Global, text: &str) -> Result<Vec<&str>, AllocError>
    ensures { IfOk result (λ parts. map (λ t. t.now) parts.items ≡ slice_split (λ b. b == 46) text.now) }
{
    text.split('.').collect(alloc)
}

fn slashed(alloc: Global, text: &str) -> Result<Vec<&str>, AllocError>
    ensures { IfOk result (λ parts. map (λ t. t.now) parts.items ≡ slice_split (λ b. b == 47) text.now) }
{
    text.split('/').collect(alloc)
}

/// The row that a step of a path leads to: `@feature`, or `@feature.index`.
fn step_from(
    alloc: Global,
    meta: &Metamodel,
    rows: &Finder,
    step: &str,
    row: usize,
) -> Result<Option<usize>, AllocError>
    ensures { IfOk result (λ n. n ≡ step_from meta.now rows.now step.now row) }
{
    match after_prefix("@", step) {
        None => Ok(None),
        Some(text) => {
            let parts = dotted(alloc, text)?;
            Ok(child_named(meta, rows, row, parts.as_slice()))
        }
    }
}

/// A root by its number; nothing is the first.
fn root_at(rows: &Finder, text: &str) -> Option<usize>
    ensures { result ≡ root_at rows.now text.now }
{
    if text.is_empty() {
        return child_at(rows, None, 0);
    }
    match number_of(text) {
        None => None,
        Some(n) => child_at(rows, None, n),
    }
}

fn step_on(
    alloc: Global,
    meta: &Metamodel,
    rows: &Finder,
    step: &str,
    here: Option<usize>,
) -> Result<Option<usize>, AllocError>
    ensures { IfOk result (λ n. n ≡ option_and_then (step_from meta.now rows.now step.now) here) }
{
    match here {
        None => Ok(None),
        Some(row) => step_from(alloc, meta, rows, step, row),
    }
}

fn along(
    alloc: Global,
    meta: &Metamodel,
    rows: &Finder,
    steps: &[&str],
    from: Option<usize>,
) -> Result<Option<usize>, AllocError>
    ensures { IfOk result (λ n. n ≡ along meta.now rows.now (map (λ t. t.now) steps.now) from) }
{
    let mut here = from;
    for step in steps {
        here = step_on(alloc, meta, rows, *step, here)?;
    }
    Ok(here)
}

/// The row that a path leads to, which is read after its first slash.
fn along_path(
    alloc: Global,
    meta: &Metamodel,
    rows: &Finder,
    path: &str,
) -> Result<Option<usize>, AllocError>
    ensures { IfOk result (λ n. n ≡ along_parts meta.now rows.now (slice_split (λ b. b == 47) path.now)) }
{
    let parts = slashed(alloc, path)?;
    along_parts(alloc, meta, rows, parts.as_slice())
}

fn along_parts(
    alloc: Global,
    meta: &Metamodel,
    rows: &Finder,
    parts: &[&str],
) -> Result<Option<usize>, AllocError>
    ensures { IfOk result (λ n. n ≡ along_parts meta.now rows.now (map (λ t. t.now) parts.now)) }
{
    match parts {
        [] => Ok(None),
        [root, steps @ ..] => along(alloc, meta, rows, steps, root_at(rows, *root)),
    }
}

fn located_bare(
    alloc: Global,
    meta: &Metamodel,
    rows: &Finder,
    text: &str,
) -> Result<Option<usize>, AllocError>
    ensures { IfOk result (λ n. n ≡ located_bare meta.now rows.now text.now) }
{
    match after_prefix("/", text) {
        None => Ok(rows.named(text)),
        Some(path) => along_path(alloc, meta, rows, path),
    }
}

/// The row that a reference finds: an id of the document, or a path; a number sign before it is not read.
pub(crate) fn located(
    alloc: Global,
    meta: &Metamodel,
    rows: &Finder,
    text: &str,
) -> Result<Option<usize>, AllocError>
    ensures { IfOk result (λ n. n ≡ located meta.now rows.now text.now) }
{
    match after_prefix("#", text) {
        None => located_bare(alloc, meta, rows, text),
        Some(rest) => located_bare(alloc, meta, rows, rest),
    }
}
