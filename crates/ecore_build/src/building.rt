//! The building of a metamodel: names are resolved, faults looked for in their order, and then the tables assembled.
ghost use Rattle.std.specs.Prelude.{◌≡◌, ◌<◌, IfOk, IfErr, None, false, length, map, ◌^◌};
ghost use Rattle.ecore_build.specs.Build.{Chains, meta_of};
ghost use Rattle.ecore_drafts.specs.Counts.{Numbered, too_many};
ghost use Rattle.ecore_drafts.specs.Document.{feature_total, supers_in};
ghost use Rattle.ecore_drafts.specs.Supers.{all_above};
ghost use Rattle.ecore_drafts.specs.Fit.{NamesFit};
ghost use Rattle.ecore_build.specs.Faults.{IsFault, dup_name, fault, features_of, first_true, last_tests};
ghost use Rattle.ecore_build.specs.Resolves.{Resolves};
ghost use Rattle.ecore_meta.specs.Parts.{meta_in};

use crate::enums::enums_of;
use crate::fault::MetaFault;
use crate::faults::{
    any_bad_bound, any_missing, any_repeats_within, any_self, any_unanswered, any_unsupported,
};
use crate::features::{all_features, any_bad_default, any_clash, classes_of, features_of};
use ecore_drafts::{
    ClassifierRow, Classifiers, FeatureDraft, MetaRows, all_above, any_cycle, own_features,
};
use ecore_meta::{Enums, Metamodel, Parts};
use std::alloc::{AllocError, Global};
use std::collections::BTreeSet;

/// What is known of a document once no two of its names are the same.
#[derive(Drop)]
pub(crate) struct Resolved {
    pub drafts: Vec<FeatureDraft>,
    pub supers: Vec<Vec<u32>>,
    pub above: Vec<BTreeSet<u32>>,
    pub features: Vec<Vec<u32>>,
    pub enums: Enums,
}

/// The features of each class, by number: those that it or a class above it declares.
fn listed(
    alloc: Global,
    rows: &[ClassifierRow],
    supers: &[Vec<u32>],
    above: &[BTreeSet<u32>],
) -> Result<Vec<Vec<u32>>, AllocError>
    requires few { feature_total rows.now < too_many }
    requires supers { map (λ ups. ups.items) supers.now ≡ supers_in rows.now rows.now }
    requires rising { map (λ s. s.keys) above.now ≡ all_above (map (λ ups. ups.items) supers.now) }
    ensures { IfOk result (λ v. map (λ fs. fs.items) v.items ≡ features_of rows.now) }
{
    let own = own_features(alloc, rows)?;
    let features = all_features(alloc, supers, above, own.as_slice())?;
    Ok(features)
}

/// What the rows of a document say, with the names in them resolved.
fn resolve<'a>(
    alloc: Global,
    rows: &[ClassifierRow],
    classifiers: &Classifiers<'a>,
) -> Result<Resolved, AllocError>
    requires numbered { Numbered rows.now }
    requires same { classifiers.now ≡ rows.now }
    ensures { IfOk result (Resolves rows.now) }
{
    let drafts = classifiers.drafts(alloc, rows)?;
    let supers = classifiers.supers(alloc, rows)?;
    let above = all_above(alloc, supers.as_slice())?;
    let features = listed(alloc, rows, supers.as_slice(), above.as_slice())?;
    let enums = enums_of(alloc, rows)?;
    Ok(Resolved {
        drafts,
        supers,
        above,
        features,
        enums,
    })
}

/// The first fault of those that the resolved features alone show.
fn last_fault(alloc: Global, resolved: &Resolved) -> Result<Option<MetaFault>, AllocError>
    requires { length resolved.now.drafts.items < 2 ^ 32 }
    ensures { IfOk result (λ o. o ≡ first_true (last_tests resolved.now.drafts.items resolved.now.enums)) }
{
    if any_self(resolved.drafts.as_slice()) {
        return Ok(Some(MetaFault::SelfOpposite));
    }
    if any_unanswered(resolved.drafts.as_slice()) {
        return Ok(Some(MetaFault::BadOpposite));
    }
    if any_bad_bound(resolved.drafts.as_slice()) {
        return Ok(Some(MetaFault::BadBound));
    }
    if any_bad_default(alloc, &resolved.enums, resolved.drafts.as_slice())? {
        return Ok(Some(MetaFault::BadDefault));
    }
    Ok(None)
}

/// The first fault of a document in which no two names are the same.
fn resolved_fault<'a>(
    alloc: Global,
    rows: &[ClassifierRow],
    classifiers: &Classifiers<'a>,
    resolved: &Resolved,
) -> Result<Option<MetaFault>, AllocError>
    requires numbered { Numbered rows.now }
    requires same { classifiers.now ≡ rows.now }
    requires apart { dup_name rows.now ≡ false }
    requires resolved { Resolves rows.now resolved.now }
    ensures { IfOk result (λ o. o ≡ fault rows.now) }
{
    if any_unsupported(resolved.drafts.as_slice()) {
        return Ok(Some(MetaFault::Unsupported));
    }
    if classifiers.any_lacks_super(rows) || any_missing(resolved.drafts.as_slice()) {
        return Ok(Some(MetaFault::NoType));
    }
    if any_cycle(resolved.supers.as_slice(), resolved.above.as_slice()) {
        return Ok(Some(MetaFault::SuperCycle));
    }
    if any_clash(
        alloc,
        resolved.drafts.as_slice(),
        resolved.features.as_slice(),
    )? {
        return Ok(Some(MetaFault::Clash));
    }
    last_fault(alloc, resolved)
}

/// What is known of a document without a fault, or its first fault.
fn checked(alloc: Global, rows: &[ClassifierRow]) -> Result<Resolved, MetaFault>
    requires { Numbered rows.now }
    ensures fault { IfErr result (IsFault (fault rows.now)) }
    ensures none { IfOk result (λ _. fault rows.now ≡ None) }
    ensures resolved { IfOk result (Resolves rows.now) }
{
    let Some(classifiers) = Classifiers::new(alloc, rows)? else {
        return Err(MetaFault::DupName);
    };
    if any_repeats_within(alloc, rows)? {
        return Err(MetaFault::DupName);
    }
    let resolved = resolve(alloc, rows, &classifiers)?;
    let first = resolved_fault(alloc, rows, &classifiers, &resolved)?;
    match first {
        Some(fault) => Err(fault),
        None => Ok(resolved),
    }
}

/// The metamodel that a document's rows stand for, or the first fault of the document.
pub fn build(alloc: Global, rows: &MetaRows) -> Result<Metamodel, MetaFault>
    requires numbered { Numbered rows.now.classifiers }
    requires fit { NamesFit rows.now.classifiers }
    ensures fault { IfErr result (IsFault (fault rows.now.classifiers)) }
    ensures none { IfOk result (λ _. fault rows.now.classifiers ≡ None) }
    ensures built { IfOk result (λ m. m ≡ meta_of rows.now) }
    ensures chain { IfOk result (λ m. Chains (supers_in rows.now.classifiers rows.now.classifiers) m) }
{
    match checked(alloc, rows.classifiers.as_slice()) {
        Ok(resolved) => Ok(assemble(alloc, rows, resolved)?),
        Err(fault) => Err(fault),
    }
}

/// The metamodel of a document without a fault.
fn assemble(alloc: Global, rows: &MetaRows, resolved: Resolved) -> Result<Metamodel, AllocError>
    requires few { Numbered rows.now.classifiers }
    requires fit { NamesFit rows.now.classifiers }
    requires none { fault rows.now.classifiers ≡ None }
    requires resolved { Resolves rows.now.classifiers resolved }
    ensures { IfOk result (λ m. m ≡ meta_of rows.now) }
{
    let parts = parts_of(alloc, rows, resolved)?;
    Metamodel::of_parts(alloc, parts)
}

/// The parts of the metamodel that a document's rows stand for.
fn parts_of(alloc: Global, rows: &MetaRows, resolved: Resolved) -> Result<Parts, AllocError>
    requires { Resolves rows.now.classifiers resolved }
    ensures { IfOk result (λ p. meta_in p ≡ meta_of rows.now) }
{
    let uri = rows.uri.copy(alloc)?;
    let classes = classes_of(
        alloc,
        resolved.features.as_slice(),
        rows.classifiers.as_slice(),
    )?;
    let features = features_of(alloc, &resolved.enums, resolved.drafts.as_slice())?;
    Ok(Parts {
        uri,
        classes,
        above: resolved.above,
        features,
        enums: resolved.enums,
    })
}
