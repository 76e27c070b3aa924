//! Rules of turns, beside those of the table.
ghost use Rattle.std.specs.Prelude.{◌≡◌};
ghost use Rattle.access_rules.specs.Turns.{is_for, is_granted, own_rule, rule_five, rule_six};

use crate::access::role_in;
use crate::{Policy, Role};
use script_lang::Command;

/// Rule 5: who signs a version is its author.
fn rule_five(user: &str, author: &str) -> Option<u32>
    ensures { result ≡ rule_five user.now author.now }
{
    if author == user { None } else { Some(5) }
}

/// Whether it is the name of the branch that a role is for.
fn is_for(name: &str, role: &Role) -> bool
    ensures { result ≡ is_for name.now role.now }
{
    match role {
        Role::Writer { branch: Some(own) } => own.as_str() == name,
        Role::Writer { branch: None } => false,
        Role::Reader => false,
        Role::Admin => false,
    }
}

/// Whether a role of the policy is for the branch of that name.
fn is_granted(policy: &Policy, name: &str) -> bool
    ensures { result ≡ is_granted policy.now.grants name.now }
{
    policy
        .grants
        .as_slice()
        .iter()
        .any(|grant| is_for(name, &grant.role))
}

/// Rule 6: who may work on one branch alone makes none, and a branch that a grant names is made by an admin.
fn rule_six(policy: &Policy, user: &str, name: &str) -> Option<u32>
    ensures { result ≡ rule_six policy.now.grants user.now name.now }
{
    match role_in(policy, user) {
        Some(Role::Writer { branch: Some(_) }) => Some(6),
        Some(Role::Admin) => None,
        Some(Role::Reader) | Some(Role::Writer { branch: None }) | None => {
            if is_granted(policy, name) {
                Some(6)
            } else {
                None
            }
        }
    }
}

/// Which of these two rules is against a command of the user's: 5 where it signs by another name, 6 where it makes a branch that the user may
/// not make.
pub fn own_rule(policy: &Policy, user: &str, command: &Command) -> Option<u32>
    ensures { result ≡ own_rule policy.now.grants user.now command.now }
{
    match command {
        Command::Signed { author, .. } => rule_five(user, author.as_str()),
        Command::Branch { name, .. } => rule_six(policy, user, name.as_str()),
        _ => None,
    }
}
