//! The last version that two paths have in common, and the version after which another branch is new to a workspace.
ghost use Rattle.std.specs.Prelude.{◌≡◌, ◌<◌, ◌++◌, ◌∷◌, [], true, length, All, IfOk};
ghost use Rattle.std.specs.List.{filter};
ghost use Rattle.history_tree.specs.History.{path};
ghost use Rattle.history_tree.specs.Marks.{is_flagged, Flagged, FlagsKnown};
ghost use Rattle.history_tree.specs.MergeBase.{greatest, last_common, merge_base, IsLastCommon, IsMergeBase};

use crate::history::History;
use std::alloc::{AllocError, Global};
use texts::List;

/// Sets the flags of the versions.
fn flag_all(flags: &mut Vec<bool>, versions: &[u32])
    requires { All (λ v. v < length flags.old.items) versions.now }
    ensures { Flagged flags.old.items flags.new.items versions.now }
{
    for v in versions {
        flags[*v as usize] = true;
    }
}

impl History {
    /// The parent of a version other than version 0, whose path is the parent's and then the version itself.
    pub fn parent_of(&self, v: u32) -> u32
        requires there { v < length self.now.history.versions }
        requires later { 0 < v }
        ensures path { path self.now.history v ≡ path self.now.history result ++ v ∷ [] }
        ensures before { result < v }
    {
        match self.version(v).parent {
            Some(parent) => parent,
            None => unreachable!(),
        }
    }

    /// The last version that is on the paths of both. It goes over both paths from their ends back to it, and takes no memory.
    pub fn last_common(&self, a: u32, b: u32) -> u32
        requires first { a < length self.now.history.versions }
        requires second { b < length self.now.history.versions }
        ensures common { result ≡ last_common self.now.history a b }
        ensures last { IsLastCommon self.now.history a b result }
        ensures there { result < length self.now.history.versions }
    {
        self.recall_wholeness();
        let mut first = a;
        let mut second = b;
        while first != second {
            if first < second {
                second = self.parent_of(second);
            } else {
                first = self.parent_of(first);
            }
        }
        first
    }

    /// A flag for each version, set for those on the base's path and those that count as merged there.
    fn known_flags(
        &self,
        alloc: Global,
        base: u32,
        pending: &[u32],
    ) -> Result<Vec<bool>, AllocError>
        requires base { base < length self.now.history.versions }
        requires pending { All (λ v. v < length self.now.history.versions) pending.now }
        ensures { IfOk result (λ flags. FlagsKnown self.now.history base pending.now flags.items) }
    {
        self.recall_wholeness();
        let mut flags = vec![in alloc; false; self.version_count() as usize]?;
        let path = self.path(alloc, base)?;
        flag_all(&mut flags, path.as_slice());
        flag_all(&mut flags, pending);
        for v in path.as_slice() {
            let version = self.version(*v);
            flag_all(&mut flags, version.merged.as_slice());
        }
        Ok(flags)
    }

    /// The last version with its flag set on a path.
    fn last_flagged(&self, flags: &[bool], v: u32) -> u32
        requires there { v < length self.now.history.versions }
        requires size { length flags.now ≡ length self.now.history.versions }
        requires first { is_flagged flags.now 0 ≡ true }
        ensures last { result ≡ greatest (filter (is_flagged flags.now) (path self.now.history v)) }
        ensures there { result < length self.now.history.versions }
    {
        self.recall_wholeness();
        let mut at = v;
        while !flags[at as usize] {
            at = self.parent_of(at);
        }
        at
    }

    /// The version after which the packages on another version's path are new to a workspace. It is the last on that
    /// path that is on the base's path too, or that counts as merged. Such a one is pending, or is listed as merged by
    /// a version on the base's path. Time and memory grow with the number of versions and of what they list as merged.
    pub fn merge_base(
        &self,
        alloc: Global,
        base: u32,
        pending: &List<u32>,
        other: u32,
    ) -> Result<u32, AllocError>
        requires base { base < length self.now.history.versions }
        requires pending { All (λ v. v < length self.now.history.versions) pending.now }
        requires other { other < length self.now.history.versions }
        ensures base { IfOk result (λ v. v ≡ merge_base self.now.history base pending.now other) }
        ensures last { IfOk result (λ v. IsMergeBase self.now.history base pending.now other v) }
        ensures there { IfOk result (λ v. v < length self.now.history.versions) }
    {
        self.recall_wholeness();
        let flags = self.known_flags(alloc, base, pending.as_slice())?;
        Ok(self.last_flagged(&flags, other))
    }
}
