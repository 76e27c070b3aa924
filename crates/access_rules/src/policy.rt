//! Policies: who may do what.
use texts::{List, Text};

/// What a user may do.
#[derive(Drop)]
pub enum Role {
    /// Open workspaces, and look at all that there is.
    Reader,
    /// That, and work in workspaces: in those of one branch alone, where one is named.
    Writer { branch: Option<Text> },
    /// That, and what concerns all workspaces: the metamodel, the signing of versions, and tags.
    Admin,
}

/// A user by name, and what the user may do.
#[derive(Drop)]
pub struct Grant {
    pub user: Text,
    pub role: Role,
}

/// What each user may do. Who has no grant may do nothing.
#[derive(Drop)]
pub struct Policy {
    pub(crate) grants: List<Grant>,
}
