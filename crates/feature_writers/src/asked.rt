//! What the words of a question name, each with its refusal.
ghost use Rattle.std.specs.Prelude.{◌≡◌, ◌<◌, IfOk, length};
ghost use Rattle.plain_repository.specs.Specs.{found_by_spec};
ghost use Rattle.feature_writers.specs.Replies.{Gives, version_of, id_of, is_held, if_held, feature_of};

use crate::fault::Fault;
use ecore_meta::{Kind, Metamodel};
use history_tree::{FindFault, Found, History};
use model_state::{Id, IdFault};
use script_lang::{Refusal, Spec};
use std::alloc::Global;

/// What a word names: a version, by its number, its branch or its tag.
fn find(history: &History, spec: &Spec) -> Result<Found, FindFault>
    ensures found { result ≡ found_by_spec history.now.history spec.now }
    ensures there { IfOk result (λ found. found.version < length history.now.history.versions) }
{
    match spec {
        Spec::Number(n) => history.resolve(Some(*n), None, None),
        Spec::Branch(name) => history.resolve(None, Some(name.as_str()), None),
        Spec::Tag(name) => history.resolve(None, None, Some(name.as_str())),
    }
}

/// The version that a word names.
pub(crate) fn version_of(history: &History, spec: &Spec) -> Result<u32, Fault>
    ensures version { Gives result (version_of (found_by_spec history.now.history spec.now)) }
    ensures there { IfOk result (λ v. v < length history.now.history.versions) }
{
    match find(history, spec) {
        Ok(found) => Ok(found.version),
        Err(FindFault::NoVersion) => Err(Fault::Refused(Refusal::NoVersion)),
        Err(FindFault::NoBranch) => Err(Fault::Refused(Refusal::NoBranch)),
    }
}

/// The id that a word is.
pub(crate) fn id_of(alloc: Global, word: &str) -> Result<Id, Fault>
    ensures { Gives result (id_of word.now) }
{
    match Id::read(alloc, word) {
        Ok(id) => Ok(id),
        Err(IdFault::Bad) => Err(Fault::Refused(Refusal::BadId)),
        Err(IdFault::Memory) => Err(Fault::Memory),
    }
}

/// Whether an element holds values or references of that kind itself. What contains it and what it contains is said by places, and what is
/// skipped isn't there.
fn is_held(kind: &Kind) -> bool
    ensures { result ≡ is_held kind.now }
{
    match kind {
        Kind::Attr { .. } => true,
        Kind::AttrMany { .. } => true,
        Kind::Bounded { .. } => true,
        Kind::Free { .. } => true,
        Kind::Contains { .. } => false,
        Kind::Container { .. } => false,
        Kind::Skip => false,
    }
}

/// The feature, where an element holds values or references of its kind itself.
fn if_held(meta: &Metamodel, feature: u32) -> Result<u32, Fault>
    ensures { Gives result (if_held meta.now feature) }
{
    match meta.get_feature(feature) {
        Some(found) if is_held(&found.kind) => Ok(feature),
        _ => Err(Fault::Refused(Refusal::WrongKind)),
    }
}

/// The feature of that name, in the class of that name.
#[tactic(auto, unfolding(crate::specs::Replies::feature_of))]
pub(crate) fn feature_of(meta: &Metamodel, class: &str, feature: &str) -> Result<u32, Fault>
    ensures { Gives result (feature_of meta.now class.now feature.now) }
{
    let Some(class) = meta.class_named(class) else {
        return Err(Fault::Refused(Refusal::NoClass));
    };
    let Some(feature) = meta.feature_named(class, feature) else {
        return Err(Fault::Refused(Refusal::NoFeature));
    };
    if_held(meta, feature)
}
