//! The words of the command line, as what they ask for.
ghost use Rattle.std.specs.Prelude.{◌≡◌, [], ◌∷◌, IfOk, map, string_bytes};
ghost use Rattle.std.specs.Option.{option_map};
ghost use Rattle.tool_requests.specs.Words.{spec_in, grants_in, guard_in, tool_in, shown_by, Asks};
ghost use Rattle.tool_requests.specs.declared.tool.Tool.TheVariants.{Query, Blame, Serve};

use crate::guard::{Guard, command_in};
use crate::tool::{Request, Tool};
use access_rules::{Policy, PolicyFault, read_policy};
use model_state::is_name;
use script_lang::{Command, Spec};
use std::alloc::{AllocError, Global};
use texts::Text;

/// The most bytes of a policy.
const MOST_POLICY_BYTES: usize = 4_294_967_295;

/// The version that a command shows the text of.
fn shown_by(command: Command) -> Option<Spec>
    ensures { result ≡ shown_by command }
{
    match command {
        Command::Cat { spec } => Some(spec),
        _ => None,
    }
}

/// What a word names a version by, if it does: the word after `cat` is a line that spells a command.
fn spec_in(alloc: Global, word: &str) -> Result<Option<Spec>, AllocError>
    ensures { IfOk result (λ spec. spec ≡ spec_in word.now) }
{
    let line = format!(in alloc; "cat {word}")?;
    match command_in(alloc, line.as_str())? {
        None => Ok(None),
        Some(command) => Ok(shown_by(command)),
    }
}

/// The policy that a word is, if it is one.
fn policy_in(alloc: Global, text: &str) -> Result<Option<Policy>, AllocError>
    ensures { IfOk result (λ policy. option_map (λ p. p.grants) policy ≡ grants_in text.now) }
{
    if text.len() > MOST_POLICY_BYTES {
        return Ok(None);
    }
    match read_policy(alloc, text) {
        Ok(policy) => Ok(Some(policy)),
        Err(PolicyFault::BadPolicy { .. }) => Ok(None),
        Err(PolicyFault::Memory) => Err(AllocError),
    }
}

/// `guard USER POLICY`, by its words after the first.
fn guard_in(alloc: Global, user: &str, text: &str) -> Result<Option<Tool>, AllocError>
    ensures { IfOk result (λ tool. tool ≡ guard_in user.now text.now) }
{
    if !is_name(user) {
        return Ok(None);
    }
    let Some(policy) = policy_in(alloc, text)? else {
        return Ok(None);
    };
    let user = Text::new(alloc, user)?;
    Ok(Some(Tool::Guard(Guard { user, policy })))
}

/// `query SPEC ID CLASS FEATURE`, by its words after the first.
fn query_in(
    alloc: Global,
    spec: &str,
    element: &str,
    class: &str,
    feature: &str,
) -> Result<Option<Tool>, AllocError>
    ensures { IfOk result (λ tool. tool ≡ option_map (λ s. Query s element.now class.now feature.now) (spec_in spec.now)) }
{
    let Some(spec) = spec_in(alloc, spec)? else {
        return Ok(None);
    };
    Ok(Some(Tool::Query {
        spec,
        element: Text::new(alloc, element)?,
        class: Text::new(alloc, class)?,
        feature: Text::new(alloc, feature)?,
    }))
}

/// `blame SPEC ID`, by its words after the first.
fn blame_in(alloc: Global, spec: &str, element: &str) -> Result<Option<Tool>, AllocError>
    ensures { IfOk result (λ tool. tool ≡ option_map (λ s. Blame s element.now) (spec_in spec.now)) }
{
    let Some(spec) = spec_in(alloc, spec)? else {
        return Ok(None);
    };
    let element = Text::new(alloc, element)?;
    Ok(Some(Tool::Blame { spec, element }))
}

/// `serve POLICY`, by its word after the first.
fn serve_in(alloc: Global, text: &str) -> Result<Option<Tool>, AllocError>
    ensures { IfOk result (λ tool. tool ≡ option_map (λ grants. Serve (record { grants = grants })) (grants_in text.now)) }
{
    let Some(policy) = policy_in(alloc, text)? else {
        return Ok(None);
    };
    Ok(Some(Tool::Serve(policy)))
}

/// What a first word and one other ask for, if they are of a form.
fn serve_named(alloc: Global, name: &str, text: &str) -> Result<Option<Tool>, AllocError>
    ensures { IfOk result (λ tool. tool ≡ tool_in (name.now ∷ text.now ∷ [])) }
{
    match name {
        "serve" => serve_in(alloc, text),
        _ => Ok(None),
    }
}

/// What a first word and two others ask for, if they are of a form.
fn pair_in(alloc: Global, name: &str, first: &str, second: &str) -> Result<Option<Tool>, AllocError>
    ensures { IfOk result (λ tool. tool ≡ tool_in (name.now ∷ first.now ∷ second.now ∷ [])) }
{
    match name {
        "blame" => blame_in(alloc, first, second),
        "guard" => guard_in(alloc, first, second),
        _ => Ok(None),
    }
}

/// What a first word and four others ask for, if they are of a form.
fn query_named(
    alloc: Global,
    name: &str,
    spec: &str,
    element: &str,
    class: &str,
    feature: &str,
) -> Result<Option<Tool>, AllocError>
    ensures { IfOk result (λ tool. tool ≡ tool_in (name.now ∷ spec.now ∷ element.now ∷ class.now ∷ feature.now ∷ [])) }
{
    match name {
        "query" => query_in(alloc, spec, element, class, feature),
        _ => Ok(None),
    }
}

/// What the words ask of a store that is open; none where they are of no form.
fn tool_of(alloc: Global, words: &[String]) -> Result<Option<Tool>, AllocError>
    ensures { IfOk result (λ tool. tool ≡ tool_in (map string_bytes words.now)) }
{
    match words {
        [name, spec, element, class, feature] => query_named(
            alloc,
            name.as_str(),
            spec.as_str(),
            element.as_str(),
            class.as_str(),
            feature.as_str(),
        ),
        [name, first, second] => pair_in(alloc, name.as_str(), first.as_str(), second.as_str()),
        [name, text] => serve_named(alloc, name.as_str(), text.as_str()),
        _ => Ok(None),
    }
}

/// What one word asks for.
fn request_alone(word: &str) -> Option<Request>
    ensures { Asks (word.now ∷ []) result }
{
    match word {
        "replay" => Some(Request::Replay),
        _ => None,
    }
}

/// What the words ask for: `replay`, `query SPEC ID CLASS FEATURE`, `blame SPEC ID`, `guard USER POLICY` or `serve POLICY`; none where they are
/// of no form. A SPEC is a word with which `cat SPEC` is a line that spells a command. A USER is a name, and a POLICY one as
/// `access_rules` reads it.
///
/// # Errors
///
/// The error is out of memory: what is asked for has texts of its own.
pub fn request_of(alloc: Global, words: &[String]) -> Result<Option<Request>, AllocError>
    ensures { IfOk result (λ request. Asks (map string_bytes words.now) request) }
{
    if let [word] = words {
        return Ok(request_alone(word.as_str()));
    }
    match tool_of(alloc, words)? {
        None => Ok(None),
        Some(tool) => Ok(Some(Request::Work(tool))),
    }
}
