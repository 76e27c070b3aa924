//! Whether a user may give a command.
ghost use Rattle.std.specs.Prelude.{◌≡◌, Some};
ghost use Rattle.std.specs.Option.{option_copied};
ghost use Rattle.access_rules.specs.Rule.{role_in, rule_of, rule, denied};

use crate::{Policy, Role, command_kind};
use command_facts::CommandKind;
use script_lang::Command;

/// Whether a user may give a command.
#[derive(Clone, Copy, Drop)]
pub enum Access {
    /// Nothing is against it.
    Pass,
    /// The rule of this number is the first that is against it.
    ///
    /// - 0: the user has no grant.
    /// - 2: the user is a reader, and the command works in a workspace.
    /// - 3: the user is no admin, and the command changes what all workspaces have in common.
    /// - 4: the user may work on one branch alone, and the command's workspace is on another.
    Denied { rule: u32 },
}

/// The role of a user, who may have none.
pub(crate) fn role_in<'a>(policy: &'a Policy, user: &str) -> Option<&'a Role>
    ensures { option_copied result ≡ role_in policy.now.grants user.now }
{
    match policy
        .grants
        .as_slice()
        .iter()
        .find(|grant| grant.user.as_str() == user)
    {
        None => None,
        Some(grant) => Some(&grant.role),
    }
}

/// The first rule that is against a command of that kind, by the user's role.
fn judge(role: &Role, kind: CommandKind, branch: Option<&str>) -> Access
    ensures { denied result ≡ rule_of (Some role.now) kind (option_copied branch.entry) }
{
    match (role, kind) {
        (Role::Admin, _) => Access::Pass,
        (_, CommandKind::Keeps) => Access::Denied { rule: 3 },
        (_, CommandKind::Looks) => Access::Pass,
        (Role::Reader, CommandKind::Works) => Access::Denied { rule: 2 },
        (Role::Writer { branch: None }, CommandKind::Works) => Access::Pass,
        (Role::Writer { branch: Some(own) }, CommandKind::Works) => match branch {
            Some(branch) if own.as_str() != branch => Access::Denied { rule: 4 },
            _ => Access::Pass,
        },
    }
}

/// Whether the policy lets the user give the command; else the first rule that is against it. `branch` is the name of the
/// branch of the command's workspace, where it names one that is there. A command whose workspace isn't there passes rule
/// 4, so that it is refused as ever. It takes no memory.
pub fn check(policy: &Policy, user: &str, command: &Command, branch: Option<&str>) -> Access
    ensures { denied result ≡ rule policy.now.grants user.now command.now (option_copied branch.entry) }
{
    match role_in(policy, user) {
        None => Access::Denied { rule: 0 },
        Some(role) => judge(role, command_kind(command), branch),
    }
}
