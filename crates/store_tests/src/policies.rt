//! Which rule of a policy is against a command.
use access_rules::{Access, Policy, PolicyFault, check, read_policy, workspace_in};
use script_lang::{Command, parse_line};
use std::alloc::Global;
use std::process::Abort;
use std::test::Fail;

// A user of each role, in this order.
const POLICY: &str = "carol:reader,erin:writer,bob:writer@dev,alice:admin";

// Commands, and the rule that is against each for carol, erin, bob and alice, where its workspace is on trunk. All commands, by users of
// each role, are in `checks/tools`, and so are texts that are no policies.
const COMMANDS: &str = "log = - - - -
end 1 = 2 - 4 -
tag t 0 = 3 3 3 -";

// What stands before the mark and after it.
fn cut<'a>(text: &'a str, mark: &str) -> (&'a str, &'a str) {
    match text.split_once(mark) {
        Some(parts) => parts,
        None => (text, ""),
    }
}

// A text of the tests is short.
fn policy(alloc: Global, text: &str) -> Result<Policy, PolicyFault> {
    if text.len() > 1000 {
        return Err(PolicyFault::Memory);
    }
    read_policy(alloc, text)
}

fn command(alloc: Global, line: &str) -> Result<Command, Fail> {
    if line.len() > 1000 {
        return Err("a long line")?;
    }
    Ok(parse_line(alloc, line)?)
}

// The branch of the command's workspace, where it names one.
fn branch_of<'a>(command: &Command, branch: &'a str) -> Option<&'a str> {
    match workspace_in(command) {
        None => None,
        Some(_) => Some(branch),
    }
}

// The number of the rule, or `-`.
fn push_rule(alloc: Global, rules: &mut String, access: Access) -> Result<(), Fail> {
    match access {
        Access::Pass => rules.push_str("-")?,
        Access::Denied { rule } => rules.push_str(format!(in alloc; "{rule}")?.as_str())?,
    }
    Ok(())
}

// The rules that are against the command, for the users in their order.
fn rules(
    alloc: Global,
    policy: &Policy,
    command: &Command,
    branch: Option<&str>,
) -> Result<String, Fail> {
    let mut rules = String::new(alloc);
    for user in ["carol", "erin", "bob", "alice"] {
        if !rules.is_empty() {
            rules.push_str(" ")?;
        }
        push_rule(alloc, &mut rules, check(policy, user, command, branch))?;
    }
    Ok(rules)
}

fn check_command(rt: &impl Abort, alloc: Global, policy: &Policy, row: &str) -> Result<(), Fail> {
    let (line, wanted) = cut(row, " = ");
    let command = command(alloc, line)?;
    let found = rules(alloc, policy, &command, branch_of(&command, "trunk"));
    drop(command);
    assert_eq!(rt; found?.as_str(), wanted, "{line}");
    Ok(())
}

#[test]
fn a_command_is_denied_by_its_rule(rt: HostRuntime) -> Result<(), Fail> {
    let alloc = rt.alloc();
    let policy = policy(alloc, POLICY)?;
    for row in COMMANDS.lines() {
        check_command(&rt, alloc, &policy, row)?;
    }
    Ok(())
}
