//! The tests for faults of names, types, opposites and bounds, each over the whole document.
ghost use Rattle.std.specs.Prelude.{◌≡◌, ◌<◌, IfOk, IsTrue, Some, length, map, slice_get, ◌^◌};
ghost use Rattle.std.specs.List.{list_any};
ghost use Rattle.std.specs.Option.{option_copied};
ghost use Rattle.ecore_meta.specs.Names.{has_repeat};
ghost use Rattle.ecore_build.specs.Faults.{any_from, answers, bad_bound, bad_bounds, contains_back, is_at, is_missing, is_self, is_skipped, is_to, is_unanswered, is_unsupported, repeats_within, unsupported};

use ecore_drafts::{
    ClassifierRow, End, FeatureDraft, LiteralRow, Target, feature_names, index, literal_names,
    literal_texts,
};
use std::alloc::{AllocError, Global};

/// Whether some name stands twice.
pub(crate) fn repeats(alloc: Global, names: &[&str]) -> Result<bool, AllocError>
    ensures { IfOk result (λ b. b ≡ has_repeat (map (λ n. n.now) names.now)) }
{
    match index(alloc, names)? {
        None => Ok(true),
        Some(_) => Ok(false),
    }
}

/// Whether the text of each literal is its name.
fn are_names(literals: &[LiteralRow]) -> bool
    ensures { IsTrue result → map (λ l. l.literal) literals.now ≡ map (λ l. l.name) literals.now }
{
    for row in literals {
        if row.literal != row.name {
            return false;
        }
    }
    true
}

/// Whether two features of a class, or two literals of an enum, have one name, or two literals one text.
fn repeats_within(alloc: Global, row: &ClassifierRow) -> Result<bool, AllocError>
    ensures { IfOk result (λ b. b ≡ repeats_within row.now) }
{
    match row {
        ClassifierRow::Class(row) => {
            let names = feature_names(alloc, row.features.as_slice())?;
            Ok(repeats(alloc, names.as_slice())?)
        }
        ClassifierRow::Enum(row) => {
            let names = literal_names(alloc, row.literals.as_slice())?;
            if repeats(alloc, names.as_slice())? {
                return Ok(true);
            }
            if are_names(row.literals.as_slice()) {
                return Ok(false);
            }
            let texts = literal_texts(alloc, row.literals.as_slice())?;
            Ok(repeats(alloc, texts.as_slice())?)
        }
        ClassifierRow::Plain(_) => Ok(false),
    }
}

/// Whether some classifier has such a repeat.
pub(crate) fn any_repeats_within(alloc: Global, rows: &[ClassifierRow]) -> Result<bool, AllocError>
    ensures { IfOk result (λ b. b ≡ list_any repeats_within rows.now) }
{
    for row in rows {
        if repeats_within(alloc, row)? {
            return Ok(true);
        }
    }
    Ok(false)
}

/// Whether the type is one of Ecore that is not read.
fn is_unsupported(target: &Target) -> bool
    ensures { result ≡ is_unsupported target.now }
{
    match target {
        Target::Unsupported => true,
        Target::Skipped | Target::Missing | Target::Elements(_) | Target::Values(_) => false,
    }
}

/// Whether the type is none of the package that fits.
fn is_missing(target: &Target) -> bool
    ensures { result ≡ is_missing target.now }
{
    match target {
        Target::Missing => true,
        Target::Skipped | Target::Unsupported | Target::Elements(_) | Target::Values(_) => false,
    }
}

/// Whether the feature is skipped.
pub(crate) fn is_skipped(target: &Target) -> bool
    ensures { result ≡ is_skipped target.now }
{
    match target {
        Target::Skipped => true,
        Target::Missing | Target::Unsupported | Target::Elements(_) | Target::Values(_) => false,
    }
}

/// Whether some attribute has a type of Ecore that is not read.
pub(crate) fn any_unsupported(drafts: &[FeatureDraft]) -> bool
    ensures { result ≡ unsupported drafts.now }
{
    drafts.iter().any(|d| is_unsupported(&d.target))
}

/// Whether some feature has a type that is none of the package that fits.
pub(crate) fn any_missing(drafts: &[FeatureDraft]) -> bool
    ensures { result ≡ list_any (λ d. is_missing d.target) drafts.now }
{
    drafts.iter().any(|d| is_missing(&d.target))
}

/// Whether the opposite has that number.
fn is_at(n: u32, end: End) -> bool
    ensures { result ≡ is_at n end }
{
    match end {
        End::Open => false,
        End::Nowhere => false,
        End::At(other) => n == other,
    }
}

/// Whether the type is the class of that number.
fn is_to(class: u32, target: &Target) -> bool
    ensures { result ≡ is_to class target.now }
{
    match target {
        Target::Elements(other) => class == *other,
        Target::Skipped | Target::Missing | Target::Unsupported | Target::Values(_) => false,
    }
}

/// Whether the other names the feature of that number back, each has the other's class as its type, and at most one is a
/// containment.
fn answers(n: u32, draft: &FeatureDraft, other: &FeatureDraft) -> bool
    ensures { result ≡ answers n draft.now (Some other.now) }
{
    is_at(n, other.end)
        && is_to(other.owner, &draft.target)
        && is_to(draft.owner, &other.target)
        && !(draft.containment && other.containment)
}

/// Whether a named opposite is none, or does not answer.
fn is_unanswered(drafts: &[FeatureDraft], n: u32, draft: &FeatureDraft) -> bool
    ensures { result ≡ is_unanswered drafts.now n draft.now }
{
    match draft.end {
        End::Open => false,
        End::Nowhere => true,
        End::At(other) => match at(drafts, other) {
            None => true,
            Some(other) => !answers(n, draft, other),
        },
    }
}

/// The feature of that number.
pub(crate) fn at(drafts: &[FeatureDraft], n: u32) -> Option<&FeatureDraft>
    ensures { option_copied result ≡ slice_get drafts.now n }
{
    drafts.get(n as usize)
}

/// Whether some reference names itself as its opposite.
pub(crate) fn any_self(drafts: &[FeatureDraft]) -> bool
    requires { length drafts.now < 2 ^ 32 }
    ensures { result ≡ any_from is_self 0 drafts.now }
{
    for (n, draft) in drafts.iter().enumerate() {
        if is_at(n as u32, draft.end) {
            return true;
        }
    }
    false
}

/// Whether some reference has an opposite that is none, or does not answer.
pub(crate) fn any_unanswered(drafts: &[FeatureDraft]) -> bool
    requires { length drafts.now < 2 ^ 32 }
    ensures { result ≡ any_from (is_unanswered drafts.now) 0 drafts.now }
{
    for (n, draft) in drafts.iter().enumerate() {
        if is_unanswered(drafts, n as u32, draft) {
            return true;
        }
    }
    false
}

/// Whether the opposite is a containment.
pub(crate) fn contains_back(drafts: &[FeatureDraft], end: End) -> bool
    ensures { result ≡ contains_back drafts.now end }
{
    match end {
        End::Open => false,
        End::Nowhere => false,
        End::At(other) => match at(drafts, other) {
            None => false,
            Some(other) => other.containment,
        },
    }
}

/// Whether the lower bound is below 0 or above the upper, or the upper is none. A container has an upper bound of 1.
fn bad_bounds(drafts: &[FeatureDraft], draft: &FeatureDraft) -> bool
    ensures { result ≡ bad_bounds drafts.now draft.now }
{
    draft.lower < 0
        || draft.upper != -1 && (draft.upper < 1 || draft.upper < draft.lower)
        || contains_back(drafts, draft.end) && draft.upper != 1
}

/// Whether some feature that is not skipped has such bounds.
pub(crate) fn any_bad_bound(drafts: &[FeatureDraft]) -> bool
    ensures { result ≡ list_any (bad_bound drafts.now) drafts.now }
{
    for draft in drafts {
        if !is_skipped(&draft.target) && bad_bounds(drafts, draft) {
            return true;
        }
    }
    false
}
