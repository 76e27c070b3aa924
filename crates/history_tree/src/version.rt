//! Versions, branches and tags, one by one.

use ecore_meta::CompactList;
use model_state::Operation;
use std::mem::size_of;
use texts::{List, Text};

/// What one commit recorded after its parent. Versions and branches are numbered in the order in which they are made, from 0.
#[derive(Drop)]
pub struct Version {
    /// The number of its branch.
    pub branch: u32,
    /// The version that it was made of; version 0 alone has none.
    pub parent: Option<u32>,
    /// The heads of other branches that were merged into it. Such a head may be a version of any branch.
    pub merged: List<u32>,
    /// Who made it, where it is signed. Author and moment are both there or both not.
    pub author: Option<Text>,
    /// When it was made, where it is signed: a number that the author gave, of any unit.
    pub moment: Option<u64>,
    /// What the user says of it.
    pub message: Text,
    /// The operations that lead from the parent's state to its own.
    pub package: CompactList<Operation>,
}

// A version of one operation takes no memory beside this, but for long texts.
const _: () = prove!(size_of::<Version>() == 216);

/// Who makes a version, and when: a number that the author gives, of any unit.
#[derive(Drop)]
pub struct Signature {
    pub author: Text,
    pub moment: u64,
}

/// A line of versions under a name, and the version where it starts.
#[derive(Drop)]
pub struct Branch {
    pub name: Text,
    pub start: u32,
}

/// A further name of a version.
#[derive(Drop)]
pub struct Tag {
    pub name: Text,
    pub version: u32,
}
