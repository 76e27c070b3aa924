//! The version that a word of a line names, and its text.
ghost use Rattle.std.specs.Prelude.{◌≡◌, ◌<◌, [], ◌∷◌, IfOk, OnOk, Some, length};
ghost use Rattle.model_texts.specs.Tree.{text};
ghost use Rattle.history_tree.specs.States.{state_of};
ghost use Rattle.model_state.specs.Good.{Good};
ghost use Rattle.plain_repository.specs.Specs.{found_by_spec, unknown};
ghost use Rattle.version_states.specs.Cached.{LeavesFirst, MayUse, Uses};
ghost use Rattle.repo_state.specs.Cached.{HasEncodings};

use crate::versions::version_state;
use ecore_meta::Metamodel;
use emfjson_text::write_model;
use history_tree::{FindFault, Found, History};
use model_graph::Graph;
use page_pool::Pool;
use repo_state::{Begun, Repo};
use script_lang::{Refusal, Spec};
use state_cache::Cache;
use std::alloc::{AllocError, Global};
use texts::{List, Text};

/// The version that a word names, and its branch.
pub(crate) fn find(history: &History, spec: &Spec) -> Result<Found, FindFault>
    ensures found { result ≡ found_by_spec history.now.history spec.now }
    ensures version { IfOk result (λ found. found.version < length history.now.history.versions) }
    ensures branch { IfOk result (λ found. found.branch < length history.now.history.branches) }
{
    match spec {
        Spec::Number(n) => history.resolve(Some(*n), None, None),
        Spec::Branch(name) => history.resolve(None, Some(name.as_str()), None),
        Spec::Tag(name) => history.resolve(None, None, Some(name.as_str())),
    }
}

/// The refusal where a word names no version.
pub(crate) fn unknown(fault: FindFault) -> Refusal
    ensures { result ≡ unknown fault }
{
    match fault {
        FindFault::NoVersion => Refusal::NoVersion,
        FindFault::NoBranch => Refusal::NoBranch,
    }
}

/// A list of one text.
fn alone(alloc: Global, line: Text) -> Result<List<Text>, AllocError>
    ensures { IfOk result (λ lines. lines ≡ line ∷ []) }
{
    let mut lines = List::new(alloc);
    lines.push(line)?;
    Ok(lines)
}

/// The text of a model, as the only data line.
pub(crate) fn model_lines(
    alloc: Global,
    model: &Graph,
    meta: &Metamodel,
) -> Result<List<Text>, AllocError>
    requires { Good meta.now model.now }
    ensures { IfOk result (λ lines. lines ≡ text meta.now model.now ∷ []) }
{
    let line = write_model(alloc, model, meta)?;
    alone(alloc, line)
}

/// The text of a version, as the only data line.
pub(crate) fn text_of(
    alloc: Global,
    cache: &mut Cache,
    pool: &mut Pool,
    repo: &Repo,
    begun: &Begun,
    v: u32,
) -> Result<List<Text>, AllocError>
    requires meta { repo.now.meta ≡ Some begun.now.meta }
    requires history { repo.now.history ≡ begun.now.history.history }
    requires there { v < length repo.now.history.versions }
    requires usable { MayUse pool.old cache.old }
    requires forms { HasEncodings repo.now pool.old cache.old }
    ensures lines { IfOk result (λ lines. lines ≡ text begun.now.meta (state_of begun.now.meta repo.now.history v) ∷ []) }
    ensures first { OnOk result (LeavesFirst begun.now.meta repo.now.history v cache.new) }
    ensures uses { Uses pool.old pool.new cache.old cache.new }
    ensures forms { HasEncodings repo.now pool.new cache.new }
{
    let model = version_state(alloc, cache, pool, repo, begun, v)?;
    model_lines(alloc, model.graph(), &begun.meta)
}
