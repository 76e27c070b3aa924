//! The plans of an update and of a merge of a workspace.
ghost use Rattle.std.specs.Prelude.{◌≡◌, ◌<◌, All, IfOk, length};
ghost use Rattle.repo_state.specs.Keeping.{plain_of};
ghost use Rattle.repo_state.specs.Planning.{IsMergePlan, IsUpdatePlan};

use crate::repo::Begun;
use crate::workspace::Workspace;
use merge_plans::{Plan, plan_merge, plan_update};
use std::alloc::{AllocError, Global};

impl Begun {
    /// The plan of an update of a workspace.
    pub fn update_plan(&self, alloc: Global, workspace: &Workspace) -> Result<Plan, AllocError>
        requires branch { workspace.now.branch < length self.now.history.history.branches }
        ensures plan { IfOk result (λ p. IsUpdatePlan self.now.meta self.now.history.history (plain_of workspace.now) p) }
    {
        plan_update(
            alloc,
            &self.meta,
            &self.history,
            workspace.branch,
            workspace.base,
            workspace.operations(),
        )
    }

    /// The plan of a merge of a version into a workspace.
    pub fn merge_plan(
        &self,
        alloc: Global,
        workspace: &Workspace,
        other: u32,
    ) -> Result<Plan, AllocError>
        requires base { workspace.now.base < length self.now.history.history.versions }
        requires pending { All (λ v. v < length self.now.history.history.versions) workspace.now.pending }
        requires other { other < length self.now.history.history.versions }
        ensures plan { IfOk result (λ p. IsMergePlan self.now.meta self.now.history.history (plain_of workspace.now) other p) }
    {
        plan_merge(
            alloc,
            &self.meta,
            &self.history,
            workspace.base,
            &workspace.pending,
            workspace.operations(),
            other,
        )
    }
}
