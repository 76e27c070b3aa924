//! The replies to the questions.
ghost use Rattle.std.specs.Prelude.{◌≡◌, IfOk};
ghost use Rattle.feature_writers.specs.Replies.{Gives, query_of, blame_of, query_reply, blame_reply, version_words};

use crate::asked::{feature_of, id_of, version_of};
use crate::fault::Fault;
use crate::writers::{blame_lines, last_write};
use repo_state::Repo;
use script_lang::{Last, Refusal, Reply, Spec};
use std::alloc::{AllocError, Global};
use texts::{List, Text};

/// What `query` asks for.
#[tactic(auto, unfolding(crate::specs::Replies::query_of))]
fn query_of(
    alloc: Global,
    repo: &Repo,
    spec: &Spec,
    element: &str,
    class: &str,
    feature: &str,
) -> Result<Option<u32>, Fault>
    ensures { Gives result (query_of repo.now spec.now element.now class.now feature.now) }
{
    let Some(begun) = repo.begun() else {
        return Err(Fault::Refused(Refusal::NotInit));
    };
    let version = version_of(&begun.history, spec)?;
    let id = id_of(alloc, element)?;
    let feature = feature_of(&begun.meta, class, feature)?;
    let last = last_write(alloc, &begun.meta, &begun.history, version, &id, feature)?;
    Ok(last)
}

/// What `blame` asks for.
#[tactic(auto, unfolding(crate::specs::Replies::blame_of))]
fn blame_of(alloc: Global, repo: &Repo, spec: &Spec, element: &str) -> Result<List<Text>, Fault>
    ensures { Gives result (blame_of repo.now spec.now element.now) }
{
    let Some(begun) = repo.begun() else {
        return Err(Fault::Refused(Refusal::NotInit));
    };
    let version = version_of(&begun.history, spec)?;
    let id = id_of(alloc, element)?;
    let lines = blame_lines(alloc, &begun.meta, &begun.history, version, &id)?;
    Ok(lines)
}

/// A version's number, or `-` for none.
fn version_words(alloc: Global, version: Option<u32>) -> Result<Text, AllocError>
    ensures { IfOk result (λ words. words ≡ version_words version) }
{
    match version {
        None => Text::new(alloc, "-"),
        Some(version) => {
            let digits = format!(in alloc; "{version}")?;
            Text::new(alloc, digits.as_str())
        }
    }
}

/// The reply to `query SPEC ID CLASS FEATURE`: the last version on the path of the one that SPEC names whose operations
/// wrote the feature of the element. The feature is sought among those of the class, its own and inherited.
///
/// The words are refused in this order: the repository has no metamodel yet, SPEC names no version, ID is no id, there is no such class, it
/// has no such feature, or the feature is a containment, a container or skipped.
///
/// # Errors
///
/// The error is out of memory.
pub fn query(
    alloc: Global,
    repo: &Repo,
    spec: &Spec,
    element: &str,
    class: &str,
    feature: &str,
) -> Result<Reply, AllocError>
    ensures { IfOk result (λ reply. reply ≡ query_reply repo.now spec.now element.now class.now feature.now) }
{
    let lines = List::new(alloc);
    match query_of(alloc, repo, spec, element, class, feature) {
        Ok(version) => Ok(Reply {
            lines,
            last: Last::Ok(version_words(alloc, version)?),
        }),
        Err(Fault::Refused(refusal)) => Ok(Reply {
            lines,
            last: Last::No(refusal),
        }),
        Err(Fault::Memory) => Err(AllocError),
    }
}

/// The reply to `blame SPEC ID`: one line `CLASS.FEATURE VERSION` for each feature of the element that some version on the
/// path of the one that SPEC names wrote. The class is the one that declares the feature, and the version the last that
/// wrote it. The features come by number. A containment with an upper bound counts as written where an element enters or leaves it.
///
/// The words are refused in this order: the repository has no metamodel yet, SPEC names no version, or ID is no id.
///
/// # Errors
///
/// The error is out of memory.
pub fn blame(alloc: Global, repo: &Repo, spec: &Spec, element: &str) -> Result<Reply, AllocError>
    ensures { IfOk result (λ reply. reply ≡ blame_reply repo.now spec.now element.now) }
{
    match blame_of(alloc, repo, spec, element) {
        Ok(lines) => Ok(Reply {
            lines,
            last: Last::Ok(Text::new(alloc, "")?),
        }),
        Err(Fault::Refused(refusal)) => Ok(Reply {
            lines: List::new(alloc),
            last: Last::No(refusal),
        }),
        Err(Fault::Memory) => Err(AllocError),
    }
}
