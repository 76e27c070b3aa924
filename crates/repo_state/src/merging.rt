//! What is local in a workspace is replaced, or added to. A working model that is kept goes along.
ghost use Rattle.std.specs.Prelude.{◌≡◌, OnErr, OnOk, is_some, true};
ghost use Rattle.plain_repository.specs.Orderly.{IsOrderly};
ghost use Rattle.plain_repository.specs.State.{is_closed, with_changed, workspace_of};
ghost use Rattle.repo_state.specs.Planning.{AreTheirs, KeepModel, replaced, restarted, taken_up};

use crate::repo::Repo;
use crate::sizes::created;
use model_state::Package;
use std::alloc::{AllocError, Global};

/// What an update makes of what is local in a workspace: the version that it stands at then, and the operations. Between
/// the version where it stood and this one come theirs.
#[derive(Drop)]
pub struct Updated {
    pub base: u32,
    pub theirs: Package,
    pub operations: Package,
}

/// What a merge brings into a workspace: further operations, and the version that is merged.
#[derive(Drop)]
pub struct Merged {
    pub more: Package,
    pub version: u32,
}

impl Repo {
    /// The operations of a workspace are others, which lead to the same working model.
    pub fn replace_operations(&mut self, alloc: Global, ws: u32, operations: Package)
        requires there { is_some (workspace_of self.old ws) ≡ true }
        requires orderly { IsOrderly (with_changed (replaced operations) ws self.old) }
        requires model { KeepModel self.old ws operations }
        ensures done { self.new ≡ with_changed (replaced operations) ws self.old }
    {
        let Some(at) = self.place_of(ws) else {
            unreachable!()
        };
        let Some(_begun) = &self.begun else {
            unreachable!()
        };
        let Some(workspace) = &mut self.workspaces[at] else {
            unreachable!()
        };
        workspace.replace_operations(alloc, operations);
    }

    /// A workspace stands at a version with other operations.
    pub fn update(&mut self, alloc: Global, ws: u32, updated: Updated)
        requires there { is_some (workspace_of self.old ws) ≡ true }
        requires closed { is_closed (workspace_of self.old ws) ≡ true }
        requires orderly { IsOrderly (with_changed (restarted updated.base updated.operations) ws self.old) }
        requires theirs { AreTheirs self.old ws updated.base updated.theirs }
        ensures done { self.new ≡ with_changed (restarted updated.base updated.operations) ws self.old }
    {
        let Some(at) = self.place_of(ws) else {
            unreachable!()
        };
        let Some(begun) = &self.begun else {
            unreachable!()
        };
        begun.meta.recall_soundness();
        let Some(workspace) = &mut self.workspaces[at] else {
            unreachable!()
        };
        self.sizes.grow(at, workspace.added_by(&updated));
        workspace.update(alloc, &begun.meta, &begun.history, updated);
    }

    /// Further operations are added to a workspace, of a version that is merged. When out of memory nothing changes.
    pub fn take_up(&mut self, alloc: Global, ws: u32, merged: Merged) -> Result<(), AllocError>
        requires there { is_some (workspace_of self.old ws) ≡ true }
        requires closed { is_closed (workspace_of self.old ws) ≡ true }
        requires orderly { IsOrderly (with_changed (taken_up merged.more merged.version) ws self.old) }
        ensures done { OnOk result (self.new ≡ with_changed (taken_up merged.more merged.version) ws self.old) }
        ensures same { OnErr result (self.new ≡ self.old) }
    {
        let Some(at) = self.place_of(ws) else {
            unreachable!()
        };
        let Some(begun) = &self.begun else {
            unreachable!()
        };
        begun.meta.recall_soundness();
        self.sizes.grow(at, created(merged.more.as_slice()));
        let Some(workspace) = &mut self.workspaces[at] else {
            unreachable!()
        };
        workspace.take_up(alloc, &begun.meta, &begun.history, merged)
    }
}
