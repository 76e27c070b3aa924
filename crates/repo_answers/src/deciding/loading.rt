//! The command `load`.
ghost use Rattle.std.specs.Prelude.{◌≡◌, ◌==◌, IfOk, IfSome, None, Some, cond, is_some, length, true};
ghost use Rattle.std.specs.List.{slice_split};
ghost use Rattle.host_port.specs.Cut.{is_lf};
ghost use Rattle.hex.specs.Hex.{decode_of};
ghost use Rattle.ecore_meta.specs.Meta.{Meta};
ghost use Rattle.plain_repository.specs.Applying.{bytes_of_lines, decide_load, load_package};
ghost use Rattle.plain_repository.specs.State as plain;
ghost use Rattle.plain_repository.specs.State.{workspace_of};
ghost use Rattle.repo_answers.specs.Decisions.{plain_decision, CanMakeIt};
ghost use Rattle.repo_answers.specs.Needs.{takes_in};
ghost use Rattle.repo_state.specs.Cached.{HasEncodings};
ghost use Rattle.script_lang.specs.Command.{if_decoded};
ghost use Rattle.version_states.specs.Cached.{MayUse, Uses};

use crate::deciding::answers::{Decision, refuse, refuse_or_fail};
use crate::deciding::applying::{apply_package, unread};
use hex::FromHexError;
use model_state::Package;
use op_reading::decode;
use page_pool::Pool;
use repo_state::Repo;
use script_lang::{Bytes, Refusal};
use state_cache::Cache;
use std::alloc::{AllocError, Global};

/// The bytes that a line spells, two hexadecimal digits a byte.
fn bytes_of_line(alloc: Global, line: &[u8]) -> Result<Option<Bytes>, AllocError>
    ensures { IfOk result (λ bytes. bytes ≡ if_decoded (decode_of line.now)) }
{
    match hex::decode(alloc, line) {
        Ok(bytes) => Ok(Some(Bytes::from_vec(bytes))),
        Err(FromHexError::OutOfMemory) => Err(AllocError),
        Err(
            FromHexError::InvalidHexCharacter { .. }
            | FromHexError::OddLength
            | FromHexError::InvalidStringLength,
        ) => Ok(None),
    }
}

/// The same, where nothing stands after the line.
fn bytes_of_only_line(alloc: Global, line: &str, rest: &str) -> Result<Option<Bytes>, AllocError>
    ensures { IfOk result (λ bytes. bytes ≡ cond (length rest.now == 0) (if_decoded (decode_of line.now)) None) }
{
    if !rest.is_empty() {
        return Ok(None);
    }
    bytes_of_line(alloc, line.as_bytes())
}

/// The bytes of a block that is one line of digits, known without a search for its line feed, which is no digit; none of another block.
fn bytes_of_digits(alloc: Global, block: &[u8]) -> Result<Option<Bytes>, AllocError>
    ensures { IfOk result (λ found. IfSome found (λ bytes. bytes_of_lines (slice_split is_lf block.now) ≡ Some bytes)) }
{
    let len = block.len();
    if len == 0 || block[len - 1] != b'\n' {
        return Ok(None);
    }
    bytes_of_line(alloc, &block[..len - 1])
}

/// The bytes that a block spells: those of its one line.
pub(crate) fn bytes_of_block(alloc: Global, block: &str) -> Result<Option<Bytes>, AllocError>
    ensures { IfOk result (λ bytes. bytes ≡ bytes_of_lines (slice_split is_lf block.now)) }
{
    if let Some(bytes) = bytes_of_digits(alloc, block.as_bytes())? {
        return Ok(Some(bytes));
    }
    match block.split_once('\n') {
        None => Ok(None),
        Some((line, rest)) => bytes_of_only_line(alloc, line, rest),
    }
}

/// Whether a workspace is there and takes operations: while a composite is open it takes one.
fn takes(repo: &Repo, ws: u32, package: &Package) -> bool
    ensures { result ≡ takes_in (workspace_of repo.now ws) «package».now }
{
    match repo.workspace(ws) {
        None => false,
        Some(workspace) => !workspace.is_open() || package.len() == 1,
    }
}

/// `load WS`, with a block that spells the bytes of a package: its operations are recorded, where all their steps can be taken.
#[tactic(auto, unfolding(plain_repository::specs::Applying::decide_load), using(version_states::proofs::Caching::uses_none))]
pub(crate) fn decide_load(
    alloc: Global,
    cache: &mut Cache,
    pool: &mut Pool,
    repo: &mut Repo,
    ws: u32,
    block: &str,
) -> Result<Decision, AllocError>
    requires begun { is_some repo.old.meta ≡ true }
    requires usable { MayUse pool.old cache.old }
    requires forms { HasEncodings repo.old pool.old cache.old }
    ensures same { repo.new ≡ repo.old }
    ensures decision { (meta : Meta) → repo.old.meta ≡ Some meta → IfOk result (λ d. plain_decision d ≡ decide_load repo.old meta ws block.now) }
    ensures made { IfOk result (λ d. CanMakeIt repo.old d.made) }
    ensures uses { Uses pool.old pool.new cache.old cache.new }
    ensures forms { HasEncodings repo.old pool.new cache.new }
{
    let Some(_workspace) = repo.workspace(ws) else {
        return Ok(refuse(alloc, Refusal::NoWorkspace));
    };
    let Some(bytes) = bytes_of_block(alloc, block)? else {
        return Ok(refuse(alloc, Refusal::NotForm { at: 0 }));
    };
    match decode(alloc, bytes.as_slice()) {
        Ok(package) => load_package(alloc, cache, pool, repo, ws, package),
        Err(fault) => refuse_or_fail(alloc, unread(fault)),
    }
}

/// The operations of a package are recorded, where the workspace takes them and all their steps can be taken.
#[tactic(auto, using(version_states::proofs::Caching::uses_none))]
fn load_package(
    alloc: Global,
    cache: &mut Cache,
    pool: &mut Pool,
    repo: &mut Repo,
    ws: u32,
    package: Package,
) -> Result<Decision, AllocError>
    requires begun { is_some repo.old.meta ≡ true }
    requires usable { MayUse pool.old cache.old }
    requires forms { HasEncodings repo.old pool.old cache.old }
    ensures same { repo.new ≡ repo.old }
    ensures decision { (meta : Meta) (w : plain.Workspace) → repo.old.meta ≡ Some meta → workspace_of repo.old ws ≡ Some w → IfOk result (λ d. plain_decision d ≡ load_package repo.old meta ws w «package») }
    ensures made { IfOk result (λ d. CanMakeIt repo.old d.made) }
    ensures uses { Uses pool.old pool.new cache.old cache.new }
    ensures forms { HasEncodings repo.old pool.new cache.new }
{
    if !takes(repo, ws, &package) {
        return Ok(refuse(alloc, Refusal::CompositeOpen));
    }
    apply_package(alloc, cache, pool, repo, ws, package)
}
