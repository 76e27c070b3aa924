//! The state of a version of a repository.
ghost use Rattle.std.specs.Prelude.{◌≡◌, ◌<◌, IfOk, OnOk, Some, length};
ghost use Rattle.model_state.specs.Good.{Good};
ghost use Rattle.history_tree.specs.States.{state_of};
ghost use Rattle.version_states.specs.Cached.{LeavesFirst, MayUse, Uses};
ghost use Rattle.repo_state.specs.Cached.{HasEncodings};

use page_pool::Pool;
use repo_state::{Begun, Repo};
use state_cache::Cache;
use std::alloc::{AllocError, Global};
use version_states::state_at;
use working_model::Working;

/// The state of a version. Where its bytes are few enough for an entry, that stands first in the cache then.
pub(crate) fn version_state(
    alloc: Global,
    cache: &mut Cache,
    pool: &mut Pool,
    repo: &Repo,
    begun: &Begun,
    v: u32,
) -> Result<Working, AllocError>
    requires meta { repo.now.meta ≡ Some begun.now.meta }
    requires history { repo.now.history ≡ begun.now.history.history }
    requires there { v < length repo.now.history.versions }
    requires usable { MayUse pool.old cache.old }
    requires forms { HasEncodings repo.now pool.old cache.old }
    ensures state { IfOk result (λ m. m ≡ state_of begun.now.meta repo.now.history v) }
    ensures good { IfOk result (λ m. Good begun.now.meta m) }
    ensures first { OnOk result (LeavesFirst begun.now.meta repo.now.history v cache.new) }
    ensures uses { Uses pool.old pool.new cache.old cache.new }
    ensures forms { HasEncodings repo.now pool.new cache.new }
{
    repo.recall_order();
    begun.meta.recall_soundness();
    state_at(alloc, cache, pool, &begun.meta, &begun.history, v)
}
