//! The index from a target back to the elements that name it, from which lists are completed.
ghost use Rattle.std.specs.Prelude.{◌≡◌, ◌&&◌, [], IfOk, OnOk, nat_eq};
ghost use Rattle.std.specs.List.{list_any};
ghost use Rattle.model_documents.specs.declared.doc.DocParent.{DocParent};
ghost use Rattle.model_documents.specs.Finder.{numbers_at};
ghost use Rattle.model_documents.specs.Completed.{given_at, naming, targets_at};
ghost use Rattle.model_documents.specs.Places.{parent_eq};
ghost use Rattle.emfjson_model.specs.Sources.{SourcesOf, also, ends_with, push_once};

use emfjson_drafts::take_numbers;
use model_documents::{DocParent, DocRefs};
use std::alloc::{AllocError, Global};
use std::collections::BTreeMap;
use std::marker::Model;
use texts::List;

/// What each element gives of its plain references; it is soon found which elements name one by a feature.
#[derive(Drop)]
pub(crate) struct Sources<'a> {
    given: &'a [List<DocRefs>],
    numbers: BTreeMap<(usize, u32), List<usize>>,
}

impl<'a> Model for Sources<'a> {
    ghost use Rattle.std.specs.Prelude.{List};
    ghost use Rattle.model_documents.specs.declared.doc.DocRefs.{DocRefs};
    ghost use Rattle.emfjson_model.specs.Sources.{SourcesOf};

    ghost Value = { List (List DocRefs) };

    ghost view = { λ a. a.given.now };

    ghost invariant = { λ a. SourcesOf a.given.now a.numbers };
}

impl<'a> Sources<'a> {
    /// Makes the map of the elements that name others, from what each gives. The error is out of memory.
    pub fn new(alloc: Global, given: &'a [List<DocRefs>]) -> Result<Sources<'a>, AllocError>
        ensures { IfOk result (λ sources. sources ≡ given.now) }
    {
        let numbers = sources_of(alloc, given)?;
        Ok(Sources { given, numbers })
    }

    /// What the element of that number gives.
    pub fn at(&self, n: usize) -> &[DocRefs]
        ensures { result.now ≡ given_at self.now n }
    {
        match self.given.get(n) {
            None => &[],
            Some(refs) => refs.as_slice(),
        }
    }

    /// The elements that name `row` by the feature.
    pub fn naming(&self, row: usize, feature: u32) -> &[usize]
        ensures { result.now ≡ naming feature row [] 0 self.now }
    {
        match self.numbers.get(&(row, feature)) {
            None => &[],
            Some(numbers) => numbers.as_slice(),
        }
    }
}

fn targets_at(refs: &[DocRefs], f: u32) -> &[usize]
    ensures { result.now ≡ targets_at f refs.now }
{
    for r in refs {
        if f == r.feature {
            return r.targets.as_slice();
        }
    }
    &[]
}

/// Whether the number is the last.
fn ends_with(numbers: &[usize], n: usize) -> bool
    ensures { result ≡ ends_with n numbers.now }
{
    match numbers.last() {
        None => false,
        Some(last) => n == *last,
    }
}

/// The number is added to the list, unless it is the last already.
fn push_once(numbers: &mut List<usize>, n: usize) -> Result<(), AllocError>
    ensures { OnOk result (numbers.new ≡ push_once n numbers.old) }
{
    if ends_with(numbers.as_slice(), n) {
        return Ok(());
    }
    numbers.push(n)?;
    Ok(())
}

/// The element n names one by a feature.
fn add_source(
    alloc: Global,
    numbers: &mut BTreeMap<(usize, u32), List<usize>>,
    n: usize,
    named: DocParent,
) -> Result<(), AllocError>
    ensures { OnOk result ((q : DocParent) → numbers_at numbers.new q ≡ also n (parent_eq named q) (numbers_at numbers.old q)) }
{
    let mut sources = take_numbers(alloc, numbers, named);
    push_once(&mut sources, n)?;
    numbers.insert((named.row, named.feature), sources)?;
    Ok(())
}

/// The element n names the targets by a feature.
fn add_sources(
    alloc: Global,
    numbers: &mut BTreeMap<(usize, u32), List<usize>>,
    n: usize,
    feature: u32,
    targets: &[usize],
) -> Result<(), AllocError>
    ensures { OnOk result ((q : DocParent) → numbers_at numbers.new q ≡ also n (list_any (nat_eq q.row) targets.now && nat_eq feature q.feature) (numbers_at numbers.old q)) }
{
    for row in targets {
        let named = DocParent { row: *row, feature };
        add_source(alloc, numbers, n, named)?;
    }
    Ok(())
}

/// The element n names those that it gives.
fn add_given(
    alloc: Global,
    numbers: &mut BTreeMap<(usize, u32), List<usize>>,
    n: usize,
    refs: &[DocRefs],
) -> Result<(), AllocError>
    ensures { OnOk result ((q : DocParent) → numbers_at numbers.new q ≡ also n (list_any (nat_eq q.row) (targets_at q.feature refs.now)) (numbers_at numbers.old q)) }
{
    for r in refs {
        add_sources(alloc, numbers, n, r.feature, targets_at(refs, r.feature))?;
    }
    Ok(())
}

/// Those that name each element by each feature.
fn sources_of(
    alloc: Global,
    given: &[List<DocRefs>],
) -> Result<BTreeMap<(usize, u32), List<usize>>, AllocError>
    ensures { IfOk result (SourcesOf given.now) }
{
    let mut numbers = BTreeMap::new(alloc);
    for (n, refs) in given.iter().enumerate() {
        add_given(alloc, &mut numbers, n, refs.as_slice())?;
    }
    Ok(numbers)
}
