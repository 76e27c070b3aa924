//! States of versions in a cache, each as the bytes of a package that leads to it.
ghost use Rattle.std.specs.Prelude.{◌≡◌, ◌≢◌, ◌<◌, All, IfNone, IfOk, IfSome, None, OnOk, Some, is_some, length, nat_eq, true};
ghost use Rattle.std.specs.Map.{lookup};
ghost use Rattle.ecore_meta.specs.Sound.{Sound};
ghost use Rattle.model_state.specs.Good.{Good};
ghost use Rattle.model_state.specs.Packages.{fold_package};
ghost use Rattle.history_tree.specs.States.{operations_of, state_folded, state_of};
ghost use Rattle.state_form.specs.Spelled.{IsSpelled};
ghost use Rattle.state_cache.specs.Entries.{IsFirst, stands};
ghost use Rattle.version_states.specs.Cached.{AreEncodings, IsVersionEncoding, LeavesFirst, MayUse, Uses};

use crate::states::follow;
use ecore_meta::Metamodel;
use history_tree::History;
use model_graph::Graph;
use model_state::StepFault;
use op_reading::{FormFault, decode};
use page_pool::Pool;
use state_cache::Cache;
use state_form::encode_state;
use std::alloc::{AllocError, Global};
use working_model::Working;

/// The state of a version, from the bytes by which it is cached.
fn read_state(
    alloc: Global,
    meta: &Metamodel,
    _history: &History,
    _v: u32,
    bytes: &[u8],
) -> Result<Working, AllocError>
    requires sound { Sound meta.now }
    requires form { IsVersionEncoding meta.now _history.now.history (_v, bytes.now) }
    ensures state { IfOk result (λ m. m ≡ state_of meta.now _history.now.history _v) }
    ensures good { IfOk result (λ m. Good meta.now m) }
{
    let package = match decode(alloc, bytes) {
        Ok(package) => package,
        Err(FormFault::Memory) => return Err(AllocError),
        Err(FormFault::NotForm { .. }) => unreachable!(),
    };
    let mut model = Working::new(alloc);
    match follow(&mut model, meta, package.as_slice()) {
        Ok(()) => Ok(model),
        Err(fault) => match fault {
            StepFault::Memory => Err(AllocError),
            _ => unreachable!(),
        },
    }
}

/// The state of a version, where the cache has an entry for it, which then stands first.
pub(crate) fn cached_state(
    alloc: Global,
    cache: &mut Cache,
    pool: &Pool,
    meta: &Metamodel,
    history: &History,
    v: u32,
) -> Result<Option<Working>, AllocError>
    requires sound { Sound meta.now }
    requires usable { MayUse pool.now cache.old }
    requires forms { AreEncodings (Some meta.now) history.now.history (stands pool.now cache.old) }
    ensures state { IfOk result (λ found. IfSome found (λ m. m ≡ state_of meta.now history.now.history v)) }
    ensures good { IfOk result (λ found. IfSome found (λ m. Good meta.now m)) }
    ensures first { IfOk result (λ found. IfSome found (λ _. IsFirst v cache.new)) }
    ensures none { IfOk result (λ found. IfNone found (lookup (nat_eq v) (stands pool.now cache.old) ≡ None)) }
    ensures same { IfOk result (λ found. IfNone found (cache.new ≡ cache.old)) }
    ensures uses { Uses pool.now pool.now cache.old cache.new }
    ensures forms { AreEncodings (Some meta.now) history.now.history (stands pool.now cache.new) }
{
    match cache.lookup(pool, v)? {
        None => Ok(None),
        Some(bytes) => {
            let model = read_state(alloc, meta, history, v, &bytes)?;
            Ok(Some(model))
        }
    }
}

/// The versions at the end of a version's path that have no entry, and the state before them. That is the state of the
/// last version before it that has one, else the empty project. Whether the version itself has an entry is not looked
/// up again.
pub(crate) fn nearest(
    alloc: Global,
    cache: &mut Cache,
    pool: &Pool,
    meta: &Metamodel,
    history: &History,
    v: u32,
) -> Result<(Vec<u32>, Working), AllocError>
    requires sound { Sound meta.now }
    requires there { v < length history.now.history.versions }
    requires leads { is_some (state_folded meta.now history.now.history v) ≡ true }
    requires usable { MayUse pool.now cache.old }
    requires forms { AreEncodings (Some meta.now) history.now.history (stands pool.now cache.old) }
    ensures leads { IfOk result (λ r. state_folded meta.now history.now.history v ≡ fold_package meta.now r.1 (operations_of history.now.history.versions r.0.items)) }
    ensures good { IfOk result (λ r. Good meta.now r.1) }
    ensures there { IfOk result (λ r. All (λ u. u < length history.now.history.versions) r.0.items) }
    // So no more steps are taken than there are after the last version that has an entry.
    ensures missing { IfOk result (λ r. All (λ u. u ≢ v → lookup (nat_eq u) (stands pool.now cache.old) ≡ None) r.0.items) }
    ensures uses { Uses pool.now pool.now cache.old cache.new }
    ensures forms { AreEncodings (Some meta.now) history.now.history (stands pool.now cache.new) }
{
    history.recall_wholeness();
    let mut back = Vec::new(alloc);
    back.push(v)?;
    let mut at = v;
    while let Some(parent) = history.version(at).parent {
        if let Some(model) = cached_state(alloc, cache, pool, meta, history, parent)? {
            back.reverse();
            return Ok((back, model));
        }
        back.push(parent)?;
        at = parent;
    }
    back.reverse();
    Ok((back, Working::new(alloc)))
}

/// The cache keeps the state of a version, where its bytes are not too many. Its entry then stands first.
pub(crate) fn keep_state(
    alloc: Global,
    cache: &mut Cache,
    pool: &mut Pool,
    meta: &Metamodel,
    history: &History,
    v: u32,
    model: &Graph,
) -> Result<(), AllocError>
    requires sound { Sound meta.now }
    requires there { v < length history.now.history.versions }
    requires state { model.now ≡ state_of meta.now history.now.history v }
    requires good { Good meta.now model.now }
    requires spelled { IsSpelled meta.now model.now }
    requires usable { MayUse pool.old cache.old }
    requires forms { AreEncodings (Some meta.now) history.now.history (stands pool.old cache.old) }
    ensures first { OnOk result (LeavesFirst meta.now history.now.history v cache.new) }
    ensures uses { Uses pool.old pool.new cache.old cache.new }
    ensures forms { AreEncodings (Some meta.now) history.now.history (stands pool.new cache.new) }
{
    let Some(bytes) = encode_state(alloc, model, meta)? else {
        return Ok(());
    };
    let _kept = cache.store(pool, v, &bytes)?;
    Ok(())
}
