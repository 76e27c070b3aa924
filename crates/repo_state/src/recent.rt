//! Which workspaces keep their working models: those that used theirs last.
ghost use Rattle.std.specs.Prelude.{◌≡◌, ◌≢◌, ◌<◌, ℕ, None, Some, IfSome, All, get_or, map, true, false};
ghost use Rattle.std.specs.List.{Contains};
ghost use Rattle.ecore_meta.specs.Meta.{Meta};
ghost use Rattle.history_tree.specs.History.{History};
ghost use Rattle.repo_state.specs.Keeping.{FitsAny, keeps_model, plain_any};
ghost use Rattle.repo_state.specs.Sizes.{HasRoom, sized};

use crate::repo::Repo;
use crate::sizes::{MOST_ELEMENTS, Sizes};
use crate::workspace::Workspace;
use recently_used::Recent;
use std::alloc::{AllocError, Global};
use working_model::Working;

/// A workspace, where it is there, doesn't keep its model any more.
fn drop_model(place: &mut Option<Workspace>)
    ensures same { plain_any place.new ≡ plain_any place.old }
    ensures gone { keeps_model place.new ≡ false }
{
    if let Some(workspace) = place {
        workspace.model = None;
    }
}

/// The workspace at that position, where there is one, doesn't keep its model any more.
fn forget(workspaces: &mut Vec<Option<Workspace>>, out: Option<usize>)
    ensures same { map plain_any workspaces.new.items ≡ map plain_any workspaces.old.items }
    ensures fits { (meta : Meta) (h : History) → All (FitsAny meta h) workspaces.old.items → All (FitsAny meta h) workspaces.new.items }
    ensures gone { (at : ℕ) → keeps_model (get_or workspaces.new.items at None) ≡ true → (keeps_model (get_or workspaces.old.items at None) ≡ true) × (out ≢ Some at) }
{
    let Some(at) = out else {
        return;
    };
    if at < workspaces.len() {
        drop_model(&mut workspaces[at]);
    }
}

/// As long as the models that are kept have more elements together than that, the one used longest ago is let go, and its
/// size with it. That of the workspace at this position stays. So a workspace whose size goes has no model afterwards.
fn let_go(workspaces: &mut Vec<Option<Workspace>>, sizes: &mut Sizes, at: usize, most: usize)
    requires { most < usize.MAX }
    ensures same { map plain_any workspaces.new.items ≡ map plain_any workspaces.old.items }
    ensures fits { (meta : Meta) (h : History) → All (FitsAny meta h) workspaces.old.items → All (FitsAny meta h) workspaces.new.items }
    ensures kept { (i : ℕ) → keeps_model (get_or workspaces.new.items i None) ≡ true → keeps_model (get_or workspaces.old.items i None) ≡ true }
    ensures sized { (i : ℕ) → Contains (sized sizes.old.sizes.items) i → keeps_model (get_or workspaces.new.items i None) ≡ true → Contains (sized sizes.new.sizes.items) i }
    ensures room { HasRoom sizes.new.sizes.items at most }
{
    while let Some(out) = sizes.take_out(at, most) {
        forget(workspaces, Some(out));
    }
}

/// No workspace keeps its model any more. This takes no memory.
fn forget_all(workspaces: &mut Vec<Option<Workspace>>)
    ensures same { map plain_any workspaces.new.items ≡ map plain_any workspaces.old.items }
    ensures fits { (meta : Meta) (h : History) → All (FitsAny meta h) workspaces.old.items → All (FitsAny meta h) workspaces.new.items }
    ensures none { (at : ℕ) → keeps_model (get_or workspaces.new.items at None) ≡ false }
{
    for at in 0..workspaces.len() {
        forget(workspaces, Some(at));
    }
}

/// The model, where the position is among those of the workspaces that used theirs last, and it has a size.
pub(crate) fn to_keep(recent: &Recent, sizes: &Sizes, at: usize, model: Working) -> Option<Working>
    ensures same { IfSome result (λ m. m ≡ model) }
    ensures among { IfSome result (λ _. Contains recent.now at) }
    ensures sized { IfSome result (λ _. Contains (sized sizes.now.sizes.items) at) }
{
    if recent.has(at) && sizes.has(at) {
        return Some(model);
    }
    None
}

impl Repo {
    /// The model of the workspace at a position is used now. Where one model more would be kept than may be, the workspace
    /// that used its own least recently doesn't keep it. It is made anew when it is wanted again.
    pub(crate) fn touch(&mut self, at: usize) -> Result<(), AllocError>
        ensures same { self.new ≡ self.old }
    {
        let out = self.recent.note(at)?;
        forget(&mut self.workspaces, out);
        self.sizes.forget(out);
        Ok(())
    }

    /// The model of the workspace at a position is used now, and is that. As long as the models that are kept are too large
    /// together, the one used longest ago is let go, but not this one. How many elements a model has that is made anew isn't
    /// known before. So it comes beside the others until then, and what events add comes beside them until the next use.
    pub(crate) fn weigh(
        &mut self,
        alloc: Global,
        at: usize,
        model: &Working,
    ) -> Result<(), AllocError>
        ensures same { self.new ≡ self.old }
    {
        self.sizes.note(alloc, at, model)?;
        let_go(&mut self.workspaces, &mut self.sizes, at, MOST_ELEMENTS);
        Ok(())
    }

    /// The models of all workspaces but the one at this position are let go, so that their memory is free.
    pub(crate) fn let_others_go(&mut self, at: usize)
        ensures same { self.new ≡ self.old }
    {
        self.sizes.put_last(at);
        let_go(&mut self.workspaces, &mut self.sizes, at, 0);
    }

    /// The models of all workspaces are let go, so that their memory is free. None is kept then, and this takes no memory.
    pub fn let_models_go(&mut self)
        ensures same { self.new ≡ self.old }
    {
        forget_all(&mut self.workspaces);
        self.sizes.clear();
    }
}
