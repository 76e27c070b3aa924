//! A workspace that doesn't keep its model takes over the one that another keeps, where there is no room for one more.
ghost use Rattle.std.specs.Prelude.{◌≡◌, ◌<◌, Some, IfSome, IfOk, is_some, length, true};
ghost use Rattle.plain_repository.specs.State.{workspace_of};
ghost use Rattle.repo_state.specs.Working.{IsWorkingModel};

use crate::repo::{Begun, Repo};
use crate::workspace::Workspace;
use std::alloc::Global;
use version_states::steps_between;
use working_model::Working;

/// So many models are kept at most beside that of the workspace that is used.
const MOST_BESIDE: usize = 63;

/// How long the way is from the working model of one workspace to that of another, in steps. Where it is longer than so many,
/// some number above that.
fn way_length(begun: &Begun, from: &Workspace, to: &Workspace, most: usize) -> usize
    requires from { from.now.base < length begun.now.history.history.versions }
    requires to { to.now.base < length begun.now.history.history.versions }
{
    let local = from.recorded(most).saturating_add(to.recorded(most));
    if local > most {
        return local;
    }
    local.saturating_add(steps_between(&begun.history, from.base, to.base, most - local))
}

/// The number of the workspace at a position.
fn number_of(at: usize) -> Option<u32> {
    match u32::try_from(at) {
        Ok(at) => at.checked_add(1),
        Err(_) => None,
    }
}

impl Repo {
    /// How long the way is from the model that one workspace keeps to the working model of another, None where it keeps none or
    /// the way isn't shorter than so many steps.
    fn way_from(&self, from: u32, to: u32, most: usize) -> Option<usize> {
        let Some(begun) = self.begun() else {
            return None;
        };
        let Some(other) = self.workspace(from) else {
            return None;
        };
        let Some(workspace) = self.workspace(to) else {
            return None;
        };
        if other.model.is_none() {
            return None;
        }
        self.recall_order();
        let length = way_length(begun, other, workspace, most);
        if length < most { Some(length) } else { None }
    }

    /// The other workspace whose model has the shortest way to the working model of a workspace, and fewer steps than it has
    /// elements.
    fn nearest(&self, ws: u32) -> Option<u32> {
        let mut nearest = None;
        let mut shortest = usize::MAX;
        for place in 0..self.sizes.len() {
            let (at, elements) = self.sizes.nth(place)?;
            let from = number_of(at)?;
            if from != ws {
                if let Some(length) = self.way_from(from, ws, shortest.min(elements)) {
                    nearest = Some(from);
                    shortest = length;
                }
            }
        }
        nearest
    }

    /// How many elements come on the way from the working model of one workspace to that of another, at most, and how many go.
    fn exchanged(&self, from: u32, to: u32) -> Option<(usize, usize)> {
        let Some(begun) = self.begun() else {
            return None;
        };
        let Some(other) = self.workspace(from) else {
            return None;
        };
        let Some(workspace) = self.workspace(to) else {
            return None;
        };
        self.recall_order();
        let between = steps_between(&begun.history, other.base, workspace.base, usize::MAX);
        Some((
            between
                .saturating_add(other.local_deleted())
                .saturating_add(workspace.local_created()),
            other
                .local_created()
                .saturating_add(workspace.local_deleted()),
        ))
    }

    /// Whether one model more of so many elements would be one too many.
    fn is_crowded(&self, elements: usize) -> bool {
        self.sizes.len() >= MOST_BESIDE || self.sizes.is_crowded(elements)
    }

    /// The working model that a workspace keeps, which is taken out of it, and its size, which goes to another position.
    fn take_kept(&mut self, ws: u32, to: usize, came: usize, went: usize) -> Option<Working>
        requires there { is_some (workspace_of self.old ws) ≡ true }
        ensures same { self.new ≡ self.old }
        ensures model { IfSome result (λ m. IsWorkingModel self.old ws m) }
    {
        let Some(at) = self.place_of(ws) else {
            unreachable!()
        };
        let Some(_begun) = &self.begun else {
            unreachable!()
        };
        let Some(workspace) = &mut self.workspaces[at] else {
            unreachable!()
        };
        let model = workspace.give_model();
        self.sizes.hand_over(at, to, came, went);
        model
    }

    /// The working model of one workspace is led to be that of another; none where memory runs out.
    fn led_over(&self, alloc: Global, from: u32, to: u32, model: Working) -> Option<Working>
        requires there { is_some (workspace_of self.now to) ≡ true }
        requires from { is_some (workspace_of self.now from) ≡ true }
        requires model { IsWorkingModel self.now from model }
        ensures model { IfSome result (λ m. IsWorkingModel self.now to m) }
    {
        let Some(begun) = self.begun() else {
            return None;
        };
        let Some(other) = self.workspace(from) else {
            return None;
        };
        let Some(workspace) = self.workspace(to) else {
            return None;
        };
        begun.meta.recall_soundness();
        self.recall_order();
        match workspace.model_from(alloc, &begun.meta, &begun.history, other, model) {
            Ok(model) => Some(model),
            Err(_) => None,
        }
    }

    /// The working model of a workspace that keeps none, made of the nearest one that another keeps, which keeps none then. None
    /// where there is room for one more, where none is near, or memory runs out.
    pub(crate) fn take_over(&mut self, alloc: Global, ws: u32, at: usize) -> Option<Working>
        requires there { is_some (workspace_of self.old ws) ≡ true }
        ensures same { self.new ≡ self.old }
        ensures model { IfSome result (λ m. IsWorkingModel self.old ws m) }
    {
        if self.workspace(ws)?.model.is_some() {
            return None;
        }
        let from = self.nearest(ws)?;
        let place = self.place_of(from)?;
        if !self.is_crowded(self.sizes.elements_at(place)) || self.workspace(from).is_none() {
            return None;
        }
        let (came, went) = self.exchanged(from, ws)?;
        let model = self.take_kept(from, at, came, went)?;
        self.led_over(alloc, from, ws, model)
    }
}
