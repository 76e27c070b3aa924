//! What a repository holds, for those who look at it and send it no command.
ghost use Rattle.std.specs.Prelude.{◌≡◌, IfOk, length};
ghost use Rattle.model_state.specs.Listing.{ids};
ghost use Rattle.version_states.specs.Cached.{MayUse, Uses};
ghost use Rattle.repo_state.specs.Cached.{HasEncodings};
ghost use Rattle.repo_answers.specs.Counting.{AreCounts, element_count};

use crate::versions::version_state;
use model_graph::Graph;
use model_state::Look;
use page_pool::Pool;
use repo_state::Repo;
use state_cache::Cache;
use std::alloc::{AllocError, Global};

/// The number of the branch `trunk`.
const TRUNK: u32 = 0;

/// How many there are of each. Workspaces that were dropped are not counted.
#[derive(Clone, Copy)]
pub struct Counts {
    pub events: u32,
    pub versions: u32,
    pub branches: u32,
    pub tags: u32,
    pub workspaces: u32,
}

/// What there is of each.
pub fn counts_of(repo: &Repo) -> Counts
    ensures { AreCounts repo.now result }
{
    let (events, workspaces) = (repo.event_count(), repo.live_workspaces());
    match repo.begun() {
        None => Counts {
            events,
            versions: 0,
            branches: 0,
            tags: 0,
            workspaces,
        },
        Some(begun) => Counts {
            events,
            versions: begun.history.version_count(),
            branches: begun.history.branch_count(),
            tags: begun.history.tag_count(),
            workspaces,
        },
    }
}

/// How many elements a model has.
fn id_count(alloc: Global, model: &Graph) -> Result<u64, AllocError>
    ensures { IfOk result (λ n. n ≡ length (ids model.now)) }
{
    let ids = model.ids(alloc)?;
    Ok(ids.len() as u64)
}

/// How many elements the state at trunk's head has; none before there is a metamodel.
#[tactic(auto, using(version_states::proofs::Caching::uses_none))]
pub fn elements_at_head(
    alloc: Global,
    cache: &mut Cache,
    pool: &mut Pool,
    repo: &Repo,
) -> Result<u64, AllocError>
    requires usable { MayUse pool.old cache.old }
    requires forms { HasEncodings repo.now pool.old cache.old }
    ensures count { IfOk result (λ n. n ≡ element_count repo.now) }
    ensures uses { Uses pool.old pool.new cache.old cache.new }
    ensures forms { HasEncodings repo.now pool.new cache.new }
{
    let Some(begun) = repo.begun() else {
        return Ok(0);
    };
    repo.recall_order();
    begun.history.recall_wholeness();
    let head = begun.history.head(TRUNK);
    let model = version_state(alloc, cache, pool, repo, begun, head)?;
    id_count(alloc, model.graph())
}
