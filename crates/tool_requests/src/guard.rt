//! A user, and the policy by which lines of the user are refused.
ghost use Rattle.std.specs.Prelude.{◌≡◌, ◌-◌, ◌<◌, ◌^◌, IfOk, length};
ghost use Rattle.std.specs.Option.{option_copied, option_map};
ghost use Rattle.history_tree.specs.Found.{branch_name};
ghost use Rattle.plain_repository.specs.State.{workspace_of};
ghost use Rattle.tool_requests.specs.Words.{command_in};
ghost use Rattle.tool_requests.specs.Denials.{branch_at, rule_against, denial, refusal_by};

use access_rules::{Access, Policy, check, workspace_in};
use repo_state::Repo;
use script_lang::{Command, Last, ParseFault, Refusal, Reply, parse_line, print_reply};
use std::alloc::{AllocError, Global};
use texts::{List, Text};

/// The most bytes of a text that is read as a line.
const MOST_LINE_BYTES: usize = 4_294_967_294;

/// A user, and the policy that says which commands the user may give. Who a user is, the caller says.
#[derive(Drop)]
pub struct Guard {
    pub user: Text,
    pub policy: Policy,
}

/// The command that a text spells as a line, if it spells one.
pub(crate) fn command_in(alloc: Global, text: &str) -> Result<Option<Command>, AllocError>
    ensures { IfOk result (λ command. command ≡ command_in text.now) }
{
    if text.len() > MOST_LINE_BYTES {
        return Ok(None);
    }
    match parse_line(alloc, text) {
        Ok(command) => Ok(Some(command)),
        Err(ParseFault::BadLine { .. }) => Ok(None),
        Err(ParseFault::Memory) => Err(AllocError),
    }
}

/// The name of the branch of a workspace, where that is there. Before `init` none is.
fn branch_of(repo: &Repo, ws: u32) -> Option<&str>
    ensures { option_copied result ≡ option_map (λ w. branch_name repo.now.history w.branch) (workspace_of repo.now ws) }
{
    repo.recall_order();
    match repo.begun() {
        None => None,
        Some(begun) => match repo.workspace(ws) {
            None => None,
            Some(workspace) => Some(begun.history.branch_name(workspace.branch)),
        },
    }
}

/// The name of the branch of the workspace that the command names, where that is there.
pub(crate) fn branch_at<'a>(repo: &'a Repo, command: &Command) -> Option<&'a str>
    ensures { option_copied result ≡ branch_at repo.now command.now }
{
    match workspace_in(command) {
        None => None,
        Some(ws) => branch_of(repo, ws),
    }
}

/// The reply that names the rule.
pub(crate) fn denial(alloc: Global, rule: u32) -> Result<Vec<u8>, AllocError>
    ensures { IfOk result (λ reply. reply.items ≡ denial rule) }
{
    let reply = Reply {
        lines: List::new(alloc),
        last: Last::No(Refusal::Denied { rule }),
    };
    print_reply(alloc, &reply)
}

impl Guard {
    /// The first rule that is against a line of the user's. None is against a line that spells no command, and none where the policy lets the
    /// user give the command.
    fn rule_against(
        &self,
        alloc: Global,
        repo: &Repo,
        line: &str,
    ) -> Result<Option<u32>, AllocError>
        ensures { IfOk result (λ rule. rule ≡ rule_against self.now.policy.grants self.now.user repo.now line.now) }
    {
        let Some(command) = command_in(alloc, line)? else {
            return Ok(None);
        };
        let branch = branch_at(repo, &command);
        match check(&self.policy, self.user.as_str(), &command, branch) {
            Access::Pass => Ok(None),
            Access::Denied { rule } => Ok(Some(rule)),
        }
    }

    /// The reply that refuses a line of the user's, `no 41 Denied RULE`, where a rule is against it.
    ///
    /// # Errors
    ///
    /// The error is out of memory.
    pub fn refusal(
        &self,
        alloc: Global,
        repo: &Repo,
        line: &str,
    ) -> Result<Option<Vec<u8>>, AllocError>
        ensures { IfOk result (λ reply. option_map (λ bytes. bytes.items) reply ≡ refusal_by self.now.policy.grants self.now.user repo.now line.now) }
    {
        match self.rule_against(alloc, repo, line)? {
            None => Ok(None),
            Some(rule) => Ok(Some(denial(alloc, rule)?)),
        }
    }
}
