//! The lines of a turn: those that a guard refuses, and those that rules 5 and 6 are against.
ghost use Rattle.std.specs.Prelude.{◌≡◌, IfOk};
ghost use Rattle.std.specs.Option.{option_map};
ghost use Rattle.tool_requests.specs.Turns.{turn_refusal, turn_rule};

use crate::guard::{branch_at, command_in, denial};
use access_rules::{Access, Policy, check, own_rule};
use repo_state::Repo;
use std::alloc::{AllocError, Global};

/// The first rule that is against a line of the user's in a turn.
fn turn_rule(
    alloc: Global,
    policy: &Policy,
    user: &str,
    repo: &Repo,
    line: &str,
) -> Result<Option<u32>, AllocError>
    ensures { IfOk result (λ rule. rule ≡ turn_rule policy.now.grants user.now repo.now line.now) }
{
    let Some(command) = command_in(alloc, line)? else {
        return Ok(None);
    };
    let branch = branch_at(repo, &command);
    match check(policy, user, &command, branch) {
        Access::Denied { rule } => Ok(Some(rule)),
        Access::Pass => Ok(own_rule(policy, user, &command)),
    }
}

/// The reply that refuses a line of the user's in a turn, `no 41 Denied RULE`, where a rule is against it.
///
/// # Errors
///
/// The error is out of memory.
pub fn turn_refusal(
    alloc: Global,
    policy: &Policy,
    user: &str,
    repo: &Repo,
    line: &str,
) -> Result<Option<Vec<u8>>, AllocError>
    ensures { IfOk result (λ reply. option_map (λ bytes. bytes.items) reply ≡ turn_refusal policy.now.grants user.now repo.now line.now) }
{
    match turn_rule(alloc, policy, user, repo, line)? {
        None => Ok(None),
        Some(rule) => Ok(Some(denial(alloc, rule)?)),
    }
}
