//! The history grows by a version, a branch or a tag.
ghost use Rattle.std.specs.Prelude.{◌≡◌, ◌<◌, All, None, OnOk, OnErr, Some, length, false};
ghost use Rattle.history_tree.specs.Found.{branch_named, has_tag};
ghost use Rattle.history_tree.specs.History.{head, with_branch, with_tag, with_version};
ghost use Rattle.history_tree.specs.Room.{most_numbered};
ghost use Rattle.plain_repository.specs.Commits.{committed, moved_onto, version_of};
ghost use Rattle.repo_state.specs.Keeping.{plain_of};

use crate::repo::Begun;
use crate::workspace::Workspace;
use history_tree::{History, Signature};
use std::alloc::{AllocError, Global};
use texts::Text;

/// Makes room for a version, a branch and a tag. Where 4,294,967,295 of a sort are there it answers out of memory. No
/// store gets there, as it has at most so many events.
fn make_room(history: &mut History) -> Result<(), AllocError>
    ensures same { history.new.history ≡ history.old.history }
    ensures room { OnOk result (0 < history.new.spare) }
    ensures versions { OnOk result (length history.old.history.versions < most_numbered) }
    ensures branches { OnOk result (length history.old.history.branches < most_numbered) }
    ensures tags { OnOk result (length history.old.history.tags < most_numbered) }
{
    if history.version_count() == u32::MAX
        || history.branch_count() == u32::MAX
        || history.tag_count() == u32::MAX
    {
        return Err(AllocError);
    }
    history.reserve()
}

impl Begun {
    /// A workspace's local operations are a further version, at which it stands from now on. When out of memory nothing changes.
    pub(crate) fn commit(
        &mut self,
        alloc: Global,
        workspace: &mut Workspace,
        signature: Option<Signature>,
        message: Text,
    ) -> Result<(), AllocError>
        requires branch { workspace.old.branch < length self.old.history.history.branches }
        requires at_head { workspace.old.base ≡ head self.old.history.history workspace.old.branch }
        requires pending { All (λ v. v < length self.old.history.history.versions) workspace.old.pending }
        ensures meta { self.new.meta ≡ self.old.meta }
        ensures upgraded { self.new.upgraded ≡ self.old.upgraded }
        ensures version { OnOk result (self.new.history.history ≡ with_version self.old.history.history (version_of (plain_of workspace.old) signature message)) }
        ensures committed { OnOk result (plain_of workspace.new ≡ committed (length self.old.history.history.versions) (plain_of workspace.old)) }
        ensures model { workspace.new.model ≡ workspace.old.model }
        ensures same { OnErr result (self.new.history.history ≡ self.old.history.history) }
        ensures same_workspace { OnErr result (plain_of workspace.new ≡ plain_of workspace.old) }
    {
        make_room(&mut self.history)?;
        let number = self.history.version_count();
        let version = workspace.commit(alloc, signature, message, number);
        self.history.append(version);
        Ok(())
    }

    /// A further branch starts at a workspace's base, and the workspace is on it. When out of memory nothing changes.
    pub(crate) fn branch(&mut self, workspace: &mut Workspace, name: Text) -> Result<(), AllocError>
        requires base { workspace.old.base < length self.old.history.history.versions }
        requires new { branch_named self.old.history.history name ≡ None }
        ensures meta { self.new.meta ≡ self.old.meta }
        ensures upgraded { self.new.upgraded ≡ self.old.upgraded }
        ensures branch { OnOk result (self.new.history.history ≡ with_branch self.old.history.history name workspace.old.base) }
        ensures moved { OnOk result (plain_of workspace.new ≡ moved_onto (length self.old.history.history.branches) (plain_of workspace.old)) }
        ensures model { workspace.new.model ≡ workspace.old.model }
        ensures same { OnErr result (self.new.history.history ≡ self.old.history.history) }
        ensures same_workspace { OnErr result (plain_of workspace.new ≡ plain_of workspace.old) }
    {
        make_room(&mut self.history)?;
        let number = self.history.branch_count();
        self.history.add_branch(name, workspace.base);
        workspace.branch = number;
        Ok(())
    }

    /// A further tag. When out of memory nothing changes.
    pub(crate) fn tag(&mut self, name: Text, version: u32) -> Result<(), AllocError>
        requires new { has_tag self.old.history.history name ≡ false }
        requires version { version < length self.old.history.history.versions }
        ensures meta { self.new.meta ≡ self.old.meta }
        ensures upgraded { self.new.upgraded ≡ self.old.upgraded }
        ensures tag { OnOk result (self.new.history.history ≡ with_tag self.old.history.history name version) }
        ensures same { OnErr result (self.new.history.history ≡ self.old.history.history) }
    {
        make_room(&mut self.history)?;
        self.history.add_tag(name, version);
        Ok(())
    }
}
