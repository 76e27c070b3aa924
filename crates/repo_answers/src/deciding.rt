//! What a command is answered, and the event that it makes: one line a command.
ghost use Rattle.std.specs.Prelude.{◌≡◌, ◌-◌, ◌<◌, ◌^◌, IfOk, IfNone, IfSome, OnOk, Some, false, length, true};
ghost use Rattle.plain_repository.specs.Repository.{decide_command, decide_line, block_text};
ghost use Rattle.script_lang.specs.Spelling.{IsCommand};
ghost use Rattle.repo_answers.specs.Needs.{IsModelFor, NeedsNone, model_for};
ghost use Rattle.repo_state.specs.Working.{IsWorkingModel};
ghost use Rattle.script_lang.specs.Command.{command_of};
ghost use Rattle.version_states.specs.Cached.{MayUse, Uses};
ghost use Rattle.repo_state.specs.Cached.{HasEncodings};
ghost use Rattle.repo_answers.specs.Shown.{LineFirst, ShownFirst, reads_version};
ghost use Rattle.repo_answers.specs.Decisions.{plain_decision, CanMakeIt, IsShortBlock};

mod answers;
mod applying;
mod checkouts;
mod choosing;
mod commits;
mod composites;
mod loading;
mod local;
mod merging;
mod metamodels;
mod models;
mod naming;
mod recording;
mod tidying;
mod views;

use answers::refuse;
pub use answers::{Decision, Made};
use applying::{decide_apply, decide_revert};
use checkouts::{decide_checkout, decide_drop};
use commits::{decide_branch, decide_commit, decide_signed, decide_tag, decide_upgrade};
use composites::{decide_begin, decide_end};
pub(crate) use loading::bytes_of_block;
use loading::decide_load;
use local::{decide_discard, decide_undo};
use merging::{decide_merge, decide_update};
use metamodels::{decide_evolve, decide_init};
use model_graph::Graph;
use models::{name_creation, reads_version, wanted};
use page_pool::Pool;
use recording::{decide_edit, decide_import};
use repo_state::Repo;
use script_lang::{Command, ParseFault, Refusal, parse_line};
use state_cache::Cache;
use std::alloc::{AllocError, Global};
use texts::Text;
use tidying::decide_tidy;
use views::{decide_cat, decide_changes, decide_log, decide_package, decide_show, decide_validate};
use working_model::Working;

/// The text of a block, empty where there is none.
pub(crate) fn block_text(block: &Option<Text>) -> &str
    requires short { IsShortBlock block.now }
    ensures text { result.now ≡ block_text block.now }
    ensures short { length result.now < 2 ^ 32 - 1 }
{
    match block {
        None => "",
        Some(text) => text.as_str(),
    }
}

/// The answer to a line that gets one, and to the block after it. Contracts see no change of the repository.
#[tactic(auto, unfolding(plain_repository::specs::Repository::decide_line), using(version_states::proofs::Caching::uses_none))]
pub fn decide(
    alloc: Global,
    cache: &mut Cache,
    pool: &mut Pool,
    repo: &mut Repo,
    line: &str,
    block: &Option<Text>,
) -> Result<Decision, AllocError>
    requires line { length line.now < 2 ^ 32 - 1 }
    requires block { IsShortBlock block.now }
    requires usable { MayUse pool.old cache.old }
    requires forms { HasEncodings repo.old pool.old cache.old }
    ensures same { repo.new ≡ repo.old }
    ensures decision { IfOk result (λ d. plain_decision d ≡ decide_line repo.old line.now block.now) }
    ensures made { IfOk result (λ d. CanMakeIt repo.old d.made) }
    ensures first { OnOk result (LineFirst repo.old (command_of line.now) cache.new) }
    ensures uses { Uses pool.old pool.new cache.old cache.new }
    ensures forms { HasEncodings repo.old pool.new cache.new }
{
    match parse_line(alloc, line) {
        Ok(mut command) => decide_command(alloc, cache, pool, repo, &mut command, block),
        Err(ParseFault::BadLine { column }) => Ok(refuse(alloc, Refusal::BadLine { column })),
        Err(ParseFault::Memory) => Err(AllocError),
    }
}

/// The answer to a command, which may need the working model of a workspace.
#[tactic(auto, using(version_states::proofs::Caching::uses_none))]
fn decide_command(
    alloc: Global,
    cache: &mut Cache,
    pool: &mut Pool,
    repo: &mut Repo,
    command: &mut Command,
    block: &Option<Text>,
) -> Result<Decision, AllocError>
    requires command { IsCommand command.old }
    requires block { IsShortBlock block.now }
    requires usable { MayUse pool.old cache.old }
    requires forms { HasEncodings repo.old pool.old cache.old }
    ensures same { repo.new ≡ repo.old }
    ensures decision { IfOk result (λ d. plain_decision d ≡ decide_command repo.old block.now command.old) }
    ensures made { IfOk result (λ d. CanMakeIt repo.old d.made) }
    ensures first { OnOk result (ShownFirst repo.old repo.old.meta command.old cache.new) }
    ensures uses { Uses pool.old pool.new cache.old cache.new }
    ensures forms { HasEncodings repo.old pool.new cache.new }
{
    if reads_version(command) {
        return decide_reading(alloc, cache, pool, repo, command, block);
    }
    let Some(ws) = wanted(repo, command) else {
        return decide_on(alloc, repo, command, block, None);
    };
    let mut model = repo.take_model(alloc, cache, pool, ws)?;
    let decision = decide_over(alloc, repo, ws, command, block, &mut model);
    repo.keep_model(ws, model);
    decision
}

/// The answer to a command that needs the working model of this workspace. A creation without an id has the fresh one from now on.
fn decide_over(
    alloc: Global,
    repo: &Repo,
    ws: u32,
    command: &mut Command,
    block: &Option<Text>,
    model: &mut Working,
) -> Result<Decision, AllocError>
    requires command { IsCommand command.old }
    requires needs { model_for command.old ≡ Some ws }
    requires block { IsShortBlock block.now }
    requires model { IsWorkingModel repo.now ws model.old }
    ensures model { model.new ≡ model.old }
    ensures decision { IfOk result (λ d. plain_decision d ≡ decide_command repo.now block.now command.old) }
    ensures made { IfOk result (λ d. CanMakeIt repo.now d.made) }
{
    name_creation(alloc, command, model)?;
    decide_on(alloc, repo, command, block, Some(model.graph()))
}

/// The answer to a command that reads the state of a version.
#[tactic(auto, unfolding(plain_repository::specs::Repository::decide_command), using(version_states::proofs::Caching::uses_none))]
fn decide_reading(
    alloc: Global,
    cache: &mut Cache,
    pool: &mut Pool,
    repo: &mut Repo,
    command: &Command,
    block: &Option<Text>,
) -> Result<Decision, AllocError>
    requires reads { reads_version command.now ≡ true }
    requires block { IsShortBlock block.now }
    requires usable { MayUse pool.old cache.old }
    requires forms { HasEncodings repo.old pool.old cache.old }
    ensures same { repo.new ≡ repo.old }
    ensures decision { IfOk result (λ d. plain_decision d ≡ decide_command repo.old block.now command.now) }
    ensures made { IfOk result (λ d. CanMakeIt repo.old d.made) }
    ensures first { OnOk result (ShownFirst repo.old repo.old.meta command.now cache.new) }
    ensures uses { Uses pool.old pool.new cache.old cache.new }
    ensures forms { HasEncodings repo.old pool.new cache.new }
{
    let Some(begun) = repo.begun() else {
        return Ok(refuse(alloc, Refusal::NotInit));
    };
    match command {
        Command::Checkout { spec } => decide_checkout(alloc, cache, pool, repo, begun, spec),
        Command::Cat { spec } => decide_cat(alloc, cache, pool, repo, begun, spec),
        Command::Apply { ws, bytes } => {
            decide_apply(alloc, cache, pool, repo, *ws, bytes.as_slice())
        }
        Command::Load { ws } => { decide_load(alloc, cache, pool, repo, *ws, block_text(block)) }
        _ => unreachable!(),
    }
}

/// The answer to another command, with the model of the workspace that needs it, where that is there.
#[tactic(auto, unfolding(plain_repository::specs::Repository::decide_command, plain_repository::specs::Metamodels::decide_init))]
fn decide_on(
    alloc: Global,
    repo: &Repo,
    command: &Command,
    block: &Option<Text>,
    model: Option<&Graph>,
) -> Result<Decision, AllocError>
    requires command { IsCommand command.now }
    requires other { reads_version command.now ≡ false }
    requires block { IsShortBlock block.now }
    requires model { IfSome model (λ m. IsModelFor repo.now command.now m.now) }
    requires none { IfNone model (NeedsNone repo.now command.now) }
    ensures decision { IfOk result (λ d. plain_decision d ≡ decide_command repo.now block.now command.now) }
    ensures made { IfOk result (λ d. CanMakeIt repo.now d.made) }
{
    let Some(begun) = repo.begun() else {
        return match command {
            Command::Init => decide_init(alloc, repo, block_text(block)),
            _ => Ok(refuse(alloc, Refusal::NotInit)),
        };
    };
    match command {
        Command::Init => Ok(refuse(alloc, Refusal::AlreadyInit)),
        Command::Evolve => decide_evolve(alloc, repo, begun, block_text(block)),
        Command::Edit { ws, edit } => decide_edit(alloc, repo, begun, *ws, edit, model),
        Command::Import { ws } => {
            decide_import(alloc, repo, begun, *ws, block_text(block), model)
        }
        Command::Begin { ws, name } => decide_begin(alloc, repo, *ws, name),
        Command::End { ws } => decide_end(alloc, repo, *ws),
        Command::Undo { ws } => decide_undo(alloc, repo, *ws),
        Command::Discard { ws } => decide_discard(alloc, repo, *ws),
        Command::Tidy { ws } => decide_tidy(alloc, repo, begun, *ws),
        Command::Changes { ws } => decide_changes(alloc, repo, begun, *ws),
        Command::Show { ws } => decide_show(alloc, repo, begun, *ws, model),
        Command::Validate { ws } => decide_validate(alloc, repo, begun, *ws, model),
        Command::Commit { ws, message } => decide_commit(alloc, repo, begun, *ws, message),
        Command::Signed {
            ws,
            author,
            moment,
            message,
        } => decide_signed(alloc, repo, begun, *ws, author, *moment, message),
        Command::Branch { ws, name } => decide_branch(alloc, repo, begun, *ws, name),
        Command::Tag { name, spec } => decide_tag(alloc, repo, begun, name, spec),
        Command::Log => decide_log(alloc, repo, begun),
        Command::Package { spec } => decide_package(alloc, repo, begun, spec),
        Command::Update { ws, choices } => decide_update(alloc, repo, begun, *ws, choices),
        Command::Merge {
            ws,
            branch,
            choices,
        } => decide_merge(alloc, repo, begun, *ws, branch, choices),
        Command::Revert { ws, version } => decide_revert(alloc, repo, begun, *ws, *version),
        Command::Drop { ws } => decide_drop(alloc, repo, *ws),
        Command::Upgrade => decide_upgrade(alloc, repo),
        Command::Checkout { .. }
        | Command::Cat { .. }
        | Command::Apply { .. }
        | Command::Load { .. } => unreachable!(),
    }
}
