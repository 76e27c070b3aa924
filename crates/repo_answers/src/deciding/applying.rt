//! The commands `apply` and `revert`.
ghost use Rattle.std.specs.Prelude.{◌≡◌, ◌≢◌, ◌<◌, ℕ, IfOk, IfSome, List, OnOk, Result, Some, false, is_some, length, true};
ghost use Rattle.history_tree.specs.History.{path};
ghost use Rattle.history_tree.specs.MergeBase.{is_among};
ghost use Rattle.history_tree.specs.Since.{path_after};
ghost use Rattle.history_tree.specs.States.{package_of_version};
ghost use Rattle.merge_laws.specs.Pairs.{first_interfering};
ghost use Rattle.model_state.specs.Packages.{steps_all};
ghost use Rattle.model_state.specs.declared.operation.Operation.{Operation};
ghost use Rattle.model_state.specs.Steps.{first_stop};
ghost use Rattle.op_form.specs.declared.event.Event.TheVariants.{Edit};
ghost use Rattle.plain_repository.specs.Applying.{applied, apply_read, load_read, decide_apply, decide_revert, taken_out, with_operations};
ghost use Rattle.plain_repository.specs.Events.{playable_with};
ghost use Rattle.plain_repository.specs.State.{State, is_open, model_of, workspace_of};
ghost use Rattle.plain_repository.specs.State as plain;
ghost use Rattle.plain_repository.specs.Answers.{refused};
ghost use Rattle.ecore_meta.specs.Meta.{Meta};
ghost use Rattle.op_reading.specs.Given.{IsFault};
ghost use Rattle.version_states.specs.Cached.{MayUse, Uses};
ghost use Rattle.repo_state.specs.Cached.{HasEncodings};
ghost use Rattle.repo_answers.specs.Decisions.{plain_decision, CanMakeIt};
ghost use Rattle.repo_answers.specs.Needs.{IsStop, takes_in};
ghost use Rattle.repo_state.specs.Keeping.{plain_of};
ghost use Rattle.repo_state.specs.Working.{IsWorkingModel};

use crate::deciding::answers::{Decision, refuse, refuse_or_fail, tell_lines, with_event};
use crate::deciding::naming::unknown;
use merge_plans::{copy_operations, first_interfering, have_pair, path_after};
use model_state::Package;
use op_form::Event;
use op_reading::{FormFault, decode};
use page_pool::Pool;
use repo_state::{Begun, Repo, Workspace};
use reversals::reverse;
use script_lang::Refusal;
use state_cache::Cache;
use std::alloc::{AllocError, Global};
use texts::List;
use version_states::stop_in;
use working_model::Working;

fn holds(versions: &[u32], version: u32) -> bool
    ensures { result ≡ is_among versions.now version }
{
    versions.iter().any(|u| version == *u)
}

/// `apply WS HEX`, with the bytes of a package: its operations are recorded, where all their steps can be taken.
#[tactic(auto, unfolding(plain_repository::specs::Applying::decide_apply), using(version_states::proofs::Caching::uses_none))]
pub(crate) fn decide_apply(
    alloc: Global,
    cache: &mut Cache,
    pool: &mut Pool,
    repo: &mut Repo,
    ws: u32,
    bytes: &[u8],
) -> Result<Decision, AllocError>
    requires begun { is_some repo.old.meta ≡ true }
    requires usable { MayUse pool.old cache.old }
    requires forms { HasEncodings repo.old pool.old cache.old }
    ensures same { repo.new ≡ repo.old }
    ensures decision { (meta : Meta) → repo.old.meta ≡ Some meta → IfOk result (λ d. plain_decision d ≡ decide_apply repo.old meta ws bytes.now) }
    ensures made { IfOk result (λ d. CanMakeIt repo.old d.made) }
    ensures uses { Uses pool.old pool.new cache.old cache.new }
    ensures forms { HasEncodings repo.old pool.new cache.new }
{
    let Some(workspace) = repo.workspace(ws) else {
        return Ok(refuse(alloc, Refusal::NoWorkspace));
    };
    if workspace.is_open() {
        return Ok(refuse(alloc, Refusal::CompositeOpen));
    }
    match decode(alloc, bytes) {
        Ok(package) => apply_package(alloc, cache, pool, repo, ws, package),
        Err(fault) => refuse_or_fail(alloc, unread(fault)),
    }
}

/// The refusal of bytes that are no package; out of memory is none.
pub(crate) fn unread(fault: FormFault) -> Option<Refusal>
    ensures applied { (read : Result (List Operation) FormFault) (s : State) (meta : Meta) (ws : ℕ) (w : plain.Workspace) → IsFault fault read → IfSome result (λ refusal. refused refusal ≡ apply_read s meta ws w read) }
    ensures loaded { (read : Result (List Operation) FormFault) (s : State) (meta : Meta) (ws : ℕ) (w : plain.Workspace) → IsFault fault read → IfSome result (λ refusal. refused refusal ≡ load_read s meta ws w read) }
{
    match fault {
        FormFault::NotForm { at } => Some(Refusal::NotForm { at }),
        FormFault::Memory => None,
    }
}

/// The operations of a package are recorded, where all their steps can be taken.
pub(crate) fn apply_package(
    alloc: Global,
    cache: &mut Cache,
    pool: &mut Pool,
    repo: &mut Repo,
    ws: u32,
    package: Package,
) -> Result<Decision, AllocError>
    requires begun { is_some repo.old.meta ≡ true }
    requires takes { takes_in (workspace_of repo.old ws) «package» ≡ true }
    requires usable { MayUse pool.old cache.old }
    requires forms { HasEncodings repo.old pool.old cache.old }
    ensures same { repo.new ≡ repo.old }
    ensures decision { (meta : Meta) (w : plain.Workspace) → repo.old.meta ≡ Some meta → workspace_of repo.old ws ≡ Some w → IfOk result (λ d. plain_decision d ≡ applied repo.old ws «package» (first_stop meta (model_of meta repo.old.history w) (steps_all «package»))) }
    ensures made { IfOk result (λ d. CanMakeIt repo.old d.made) }
    ensures uses { Uses pool.old pool.new cache.old cache.new }
    ensures forms { HasEncodings repo.old pool.new cache.new }
{
    match stop_of(alloc, cache, pool, repo, ws, &package) {
        Ok(None) => with_operations(alloc, repo, ws, package),
        Ok(Some(step)) => Ok(refuse(alloc, Refusal::NotApplicable { step })),
        Err(fault) => Err(fault),
    }
}

/// The number of the first step of a package that can't be taken on a workspace, whose working model is kept.
#[tactic(auto, using(version_states::proofs::Caching::uses_none))]
fn stop_of(
    alloc: Global,
    cache: &mut Cache,
    pool: &mut Pool,
    repo: &mut Repo,
    ws: u32,
    package: &Package,
) -> Result<Option<u64>, AllocError>
    requires begun { is_some repo.old.meta ≡ true }
    requires there { is_some (workspace_of repo.old ws) ≡ true }
    requires usable { MayUse pool.old cache.old }
    requires forms { HasEncodings repo.old pool.old cache.old }
    ensures same { repo.new ≡ repo.old }
    ensures stop { IfOk result (λ found. IsStop repo.old ws «package».now found) }
    ensures uses { Uses pool.old pool.new cache.old cache.new }
    ensures forms { HasEncodings repo.old pool.new cache.new }
{
    let mut model = repo.take_model(alloc, cache, pool, ws)?;
    let stop = stop_on(alloc, repo, ws, &mut model, package)?;
    repo.keep_model(ws, model);
    Ok(stop)
}

/// The same, on that model, which stays as it is. After an error it is of no use.
fn stop_on(
    alloc: Global,
    repo: &Repo,
    _ws: u32,
    model: &mut Working,
    package: &Package,
) -> Result<Option<u64>, AllocError>
    requires begun { is_some repo.now.meta ≡ true }
    requires there { is_some (workspace_of repo.now _ws) ≡ true }
    requires model { IsWorkingModel repo.now _ws model.old }
    ensures same { OnOk result (model.new ≡ model.old) }
    ensures stop { IfOk result (λ found. IsStop repo.now _ws «package».now found) }
{
    let Some(begun) = repo.begun() else {
        unreachable!()
    };
    begun.meta.recall_soundness();
    stop_in(alloc, model, &begun.meta, package.as_slice())
}

/// Makes an event of operations that are recorded; where there is none, nothing changes.
fn with_operations(
    alloc: Global,
    repo: &Repo,
    ws: u32,
    package: Package,
) -> Result<Decision, AllocError>
    requires could { length «package» ≢ 0 → playable_with repo.now repo.now.meta (Edit ws «package») ≡ true }
    ensures decision { IfOk result (λ d. plain_decision d ≡ with_operations repo.now ws «package») }
    ensures made { IfOk result (λ d. CanMakeIt repo.now d.made) }
{
    if package.len() == 0 {
        return tell_lines(alloc, List::new(alloc));
    }
    with_event(alloc, repo, Event::Edit { ws, package })
}

/// `revert WS VERSION`: the reversal of what the version did is recorded, where nothing later interferes with it.
#[tactic(auto, unfolding(plain_repository::specs::Applying::decide_revert))]
pub(crate) fn decide_revert(
    alloc: Global,
    repo: &Repo,
    begun: &Begun,
    ws: u32,
    version: u32,
) -> Result<Decision, AllocError>
    requires meta { repo.now.meta ≡ Some begun.now.meta }
    requires history { repo.now.history ≡ begun.now.history.history }
    ensures decision { IfOk result (λ d. plain_decision d ≡ decide_revert repo.now begun.now.meta ws version) }
    ensures made { IfOk result (λ d. CanMakeIt repo.now d.made) }
{
    let Some(workspace) = repo.workspace(ws) else {
        return Ok(refuse(alloc, Refusal::NoWorkspace));
    };
    if workspace.is_open() {
        return Ok(refuse(alloc, Refusal::CompositeOpen));
    }
    let found = match begun.history.resolve(Some(version), None, None) {
        Ok(found) => found,
        Err(fault) => return Ok(refuse(alloc, unknown(fault))),
    };
    repo.recall_order();
    let path = begun.history.path(alloc, workspace.base)?;
    if !holds(path.as_slice(), found.version) {
        return Ok(refuse(alloc, Refusal::NotOnPath));
    }
    decide_revert_of(alloc, repo, begun, ws, workspace, found.version)
}

/// The same, of a version on the path of the base.
fn decide_revert_of(
    alloc: Global,
    repo: &Repo,
    begun: &Begun,
    ws: u32,
    workspace: &Workspace,
    version: u32,
) -> Result<Decision, AllocError>
    requires meta { repo.now.meta ≡ Some begun.now.meta }
    requires history { repo.now.history ≡ begun.now.history.history }
    requires there { workspace_of repo.now ws ≡ Some (plain_of workspace.now) }
    requires closed { is_open (Some (plain_of workspace.now)) ≡ false }
    requires on_path { is_among (path repo.now.history workspace.now.base) version ≡ true }
    requires version { version < length repo.now.history.versions }
    ensures decision { IfOk result (λ d. let operations = package_of_version repo.now.history.versions version in plain_decision d ≡ taken_out repo.now begun.now.meta ws (plain_of workspace.now) operations (first_interfering begun.now.meta repo.now.history.versions operations (path_after repo.now.history version workspace.now.base))) }
    ensures made { IfOk result (λ d. CanMakeIt repo.now d.made) }
{
    repo.recall_order();
    let history = &begun.history;
    let package = copy_operations(alloc, history.version(version).package.as_slice())?;
    let later = path_after(alloc, history, version, workspace.base)?;
    let found = first_interfering(alloc, &begun.meta, history, &package, later.as_slice())?;
    if found.is_some() {
        return Ok(refuse(alloc, Refusal::Interferes { version: found }));
    }
    let local = copy_operations(alloc, workspace.operations())?;
    if have_pair(alloc, &begun.meta, &package, &local)? {
        return Ok(refuse(alloc, Refusal::Interferes { version: None }));
    }
    let reversal = reverse(alloc, &package)?;
    with_operations(alloc, repo, ws, reversal)
}
