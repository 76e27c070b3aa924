//! Reading a policy from a text.
ghost use Rattle.std.specs.Prelude.{◌≡◌, ◌<◌, ◌^◌, ◌||◌, ◌++◌, ◌∷◌, [], ℕ, List, length, not, IfOk, IfSome, OnOk};
ghost use Rattle.std.specs.BTreeSet.{contains_text};
ghost use Rattle.finite_maps.specs.Equal.{text_eq};
ghost use Rattle.access_rules.specs.declared.policy.Grant.{Grant};
ghost use Rattle.access_rules.specs.Reading.{role_of, writer_of, grant_of, if_new, grants_of, GivesPolicy, HasUsers};

use crate::{Grant, Policy, PolicyFault, Role};
use model_state::is_name;
use std::alloc::{AllocError, Global};
use std::collections::BTreeSet;
use texts::{List, Text};

/// A writer of one branch, by what stands before `@` and after it.
fn writer_of(alloc: Global, first: &str, branch: &str) -> Result<Option<Role>, AllocError>
    ensures { IfOk result (λ role. role ≡ writer_of first.now branch.now) }
{
    if first == "writer" && is_name(branch) {
        let branch = Text::new(alloc, branch)?;
        Ok(Some(Role::Writer {
            branch: Some(branch),
        }))
    } else {
        Ok(None)
    }
}

/// The role that a word spells.
fn role_of(alloc: Global, word: &str) -> Result<Option<Role>, AllocError>
    ensures { IfOk result (λ role. role ≡ role_of word.now) }
{
    match word {
        "reader" => Ok(Some(Role::Reader)),
        "writer" => Ok(Some(Role::Writer { branch: None })),
        "admin" => Ok(Some(Role::Admin)),
        _ => match word.split_once('@') {
            None => Ok(None),
            Some((first, branch)) => writer_of(alloc, first, branch),
        },
    }
}

/// The grant that a piece of a policy spells.
fn grant_of(alloc: Global, piece: &str) -> Result<Option<Grant>, AllocError>
    ensures { IfOk result (λ grant. grant ≡ grant_of piece.now) }
{
    let Some((user, word)) = piece.split_once(':') else {
        return Ok(None);
    };
    let Some(role) = role_of(alloc, word)? else {
        return Ok(None);
    };
    if is_name(user) {
        let user = Text::new(alloc, user)?;
        Ok(Some(Grant { user, role }))
    } else {
        Ok(None)
    }
}

/// Puts the user into the set, and says whether it is new there.
fn enter(alloc: Global, user: &str, users: &mut BTreeSet<String>) -> Result<bool, AllocError>
    ensures new { IfOk result (λ new. new ≡ not (contains_text users.old user.now)) }
    ensures users { OnOk result ((name : List ℕ) → contains_text users.new name ≡ text_eq user.now name || contains_text users.old name) }
{
    let user = String::from_str(alloc, user)?;
    Ok(users.insert(user)?)
}

/// The grant that a piece of a policy spells, where its user has none yet. `users` are those who have one, and the
/// grant's user becomes one of them.
fn new_grant(
    alloc: Global,
    piece: &str,
    users: &mut BTreeSet<String>,
) -> Result<Option<Grant>, AllocError>
    ensures grant { IfOk result (λ grant. (earlier : List Grant) → HasUsers users.old earlier → grant ≡ if_new earlier (grant_of piece.now)) }
    ensures users { IfOk result (λ grant. IfSome grant (λ new. (earlier : List Grant) → HasUsers users.old earlier → HasUsers users.new (earlier ++ new ∷ []))) }
{
    match grant_of(alloc, piece)? {
        None => Ok(None),
        Some(grant) => {
            if enter(alloc, grant.user.as_str(), users)? {
                Ok(Some(grant))
            } else {
                Ok(None)
            }
        }
    }
}

/// The policy that a text spells: one or more grants, joined by commas, each of another user. A grant is `USER:reader`,
/// `USER:writer`, `USER:admin`, or `USER:writer@BRANCH`. Users and branches are names: a letter, and up to 63 letters,
/// digits, `_`, `.` or `-`.
///
/// # Errors
///
/// `BadPolicy` with the offset, from 0, of the first grant that does not fit, or whose user has one already. Else
/// `Memory`.
pub fn read_policy(alloc: Global, text: &str) -> Result<Policy, PolicyFault>
    requires short { length text.now < 2 ^ 32 }
    ensures policy { GivesPolicy result (grants_of text.now) }
{
    let mut users = BTreeSet::new(alloc);
    let mut grants = List::new(alloc);
    let mut rest = text;
    let mut offset: usize = 0;
    'pieces: while let Some((piece, after)) = rest.split_once(',') {
        match new_grant(alloc, piece, &mut users)? {
            None => return Err(PolicyFault::BadPolicy { at: offset as u32 }),
            Some(grant) => grants.push(grant)?,
        }
        offset = offset + piece.len() + 1;
        rest = after;
    }
    match new_grant(alloc, rest, &mut users)? {
        None => Err(PolicyFault::BadPolicy { at: offset as u32 }),
        Some(grant) => {
            grants.push(grant)?;
            Ok(Policy { grants })
        }
    }
}
