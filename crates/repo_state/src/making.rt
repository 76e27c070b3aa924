//! What each event makes of the repository. Each call changes nothing when out of memory.
ghost use Rattle.std.specs.Prelude.{◌≡◌, ◌<◌, ◌-◌, ◌^◌, IfOk, IsErrOf, OnOk, OnErr, Ok, is_some, length, true, false, None};
ghost use Rattle.ecore_json.specs.Metamodel.{metamodel_of};
ghost use Rattle.history_tree.specs.History.{first_history};
ghost use Rattle.op_form.specs.declared.event.Event.TheVariants.{Begin, Branch, Checkout, Discard, Drop, Edit, End, Init, Tag, Undo};
ghost use Rattle.op_form.specs.Formed.{IsEvent};
ghost use Rattle.plain_repository.specs.Commits.{version_event};
ghost use Rattle.plain_repository.specs.Events.{effect, playable_with};
ghost use Rattle.plain_repository.specs.Metamodels.{is_metamodel};
ghost use Rattle.plain_repository.specs.State.{workspace_of};
ghost use Rattle.version_states.specs.Cached.{MayUse, Uses};
ghost use Rattle.repo_state.specs.Cached.{HasEncodings};
ghost use Rattle.repo_state.specs.Making.{LeadTo, can_take};
ghost use Rattle.repo_state.specs.Working.{IsWorkingModel};

use crate::fault::{PlayFault, package_fault};
use crate::recent::to_keep;
use crate::repo::{Begun, Repo};
use crate::sizes::created;
use crate::workspace::Workspace;
use ecore_json::{EcoreFault, read_metamodel};
use ecore_meta::Metamodel;
use history_tree::{History, Signature};
use model_state::Package;
use page_pool::Pool;
use state_cache::Cache;
use std::alloc::{AllocError, Global};
use texts::Text;
use version_states::take_all;
use working_model::Working;

/// The metamodel of a text.
pub(crate) fn read_meta(alloc: Global, text: &Text) -> Result<Metamodel, PlayFault>
    requires short { length text.now < 2 ^ 32 - 1 }
    ensures meta { IfOk result (λ m. metamodel_of text.now ≡ Ok m) }
    ensures cannot { IsErrOf result PlayFault.NotPlayable → is_metamodel text.now ≡ false }
{
    match read_metamodel(alloc, text.as_str()) {
        Ok(meta) => Ok(meta),
        Err(EcoreFault::Memory) => Err(PlayFault::Memory),
        Err(_) => Err(PlayFault::NotPlayable),
    }
}

/// The metamodel of a text, and the history that begins with it.
fn read_begun(alloc: Global, text: &Text) -> Result<Begun, PlayFault>
    requires short { length text.now < 2 ^ 32 - 1 }
    ensures meta { IfOk result (λ b. metamodel_of text.now ≡ Ok b.meta) }
    ensures history { IfOk result (λ b. b.history.history ≡ first_history) }
    ensures fresh { IfOk result (λ b. b.upgraded ≡ false) }
    ensures cannot { IsErrOf result PlayFault.NotPlayable → is_metamodel text.now ≡ false }
{
    let meta = read_meta(alloc, text)?;
    Ok(Begun {
        meta,
        history: History::new(alloc)?,
        upgraded: false,
    })
}

impl Repo {
    /// Takes the metamodel of a text, where there is none yet.
    pub fn begin(&mut self, alloc: Global, text: &Text) -> Result<(), PlayFault>
        requires short { length text.now < 2 ^ 32 - 1 }
        requires spelled { IsEvent (Init text.now) }
        ensures could { OnOk result (playable_with self.old self.old.meta (Init text.now) ≡ true) }
        ensures done { OnOk result (self.new ≡ effect self.old (Init text.now)) }
        ensures same { OnErr result (self.new ≡ self.old) }
        ensures cannot { IsErrOf result PlayFault.NotPlayable → playable_with self.old self.old.meta (Init text.now) ≡ false }
    {
        if self.begun.is_some() {
            return Err(PlayFault::NotPlayable);
        }
        let begun = read_begun(alloc, text)?;
        self.begun = Some(begun);
        Ok(())
    }

    /// Makes a workspace at a version on a branch.
    pub fn check_out(&mut self, alloc: Global, version: u32, branch: u32) -> Result<(), AllocError>
        requires could { playable_with self.old self.old.meta (Checkout version branch) ≡ true }
        requires spelled { IsEvent (Checkout version branch) }
        ensures done { OnOk result (self.new ≡ effect self.old (Checkout version branch)) }
        ensures same { OnErr result (self.new ≡ self.old) }
    {
        let Some(_begun) = &self.begun else {
            unreachable!()
        };
        match self
            .workspaces
            .push(Some(Workspace::new(alloc, branch, version)))
        {
            Ok(()) => Ok(()),
            Err(_) => Err(AllocError),
        }
    }

    /// Whether a workspace takes operations, so that it is left to take their steps.
    fn could_take(&self, ws: u32, package: &Package) -> bool
        ensures { result ≡ can_take self.now.meta (workspace_of self.now ws) «package».now }
    {
        let Some(_begun) = &self.begun else {
            return false;
        };
        match self.workspace(ws) {
            None => false,
            Some(workspace) => { package.len() == 1 || (package.len() > 1 && !workspace.is_open()) }
        }
    }

    /// Takes the steps of operations on the working model of a workspace and records them there, where they can be taken.
    #[tactic(auto, using(version_states::proofs::Caching::uses_none))]
    pub fn record(
        &mut self,
        alloc: Global,
        cache: &mut Cache,
        pool: &mut Pool,
        ws: u32,
        package: Package,
    ) -> Result<(), PlayFault>
        requires spelled { IsEvent (Edit ws «package») }
        requires usable { MayUse pool.old cache.old }
        requires forms { HasEncodings self.old pool.old cache.old }
        ensures could { OnOk result (playable_with self.old self.old.meta (Edit ws «package») ≡ true) }
        ensures done { OnOk result (self.new ≡ effect self.old (Edit ws «package»)) }
        ensures same { OnErr result (self.new ≡ self.old) }
        ensures cannot { IsErrOf result PlayFault.NotPlayable → playable_with self.old self.old.meta (Edit ws «package») ≡ false }
        ensures uses { Uses pool.old pool.new cache.old cache.new }
        ensures forms { HasEncodings self.old pool.new cache.new }
    {
        if !self.could_take(ws, &package) {
            return Err(PlayFault::NotPlayable);
        }
        let mut model = self.take_model(alloc, cache, pool, ws)?;
        if !self.advance(alloc, ws, &mut model, &package)? {
            self.keep_model(ws, model);
            return Err(PlayFault::NotPlayable);
        }
        self.install(alloc, ws, package, model)?;
        Ok(())
    }

    /// Takes the steps of operations on the working model of a workspace, and says whether it could take all. Where it couldn't,
    /// the model is as it was. After an error it is of no use.
    fn advance(
        &self,
        alloc: Global,
        ws: u32,
        model: &mut Working,
        package: &Package,
    ) -> Result<bool, PlayFault>
        requires takes { can_take self.now.meta (workspace_of self.now ws) «package».now ≡ true }
        requires model { IsWorkingModel self.now ws model.old }
        ensures could { IfOk result (λ all. all ≡ true → playable_with self.now self.now.meta (Edit ws «package».now) ≡ true) }
        ensures leads { IfOk result (λ all. all ≡ true → LeadTo self.now ws «package».now model.new) }
        ensures cannot { IfOk result (λ all. all ≡ false → playable_with self.now self.now.meta (Edit ws «package».now) ≡ false) }
        ensures fault { IsErrOf result PlayFault.NotPlayable → playable_with self.now self.now.meta (Edit ws «package».now) ≡ false }
        ensures same { IfOk result (λ all. all ≡ false → model.new ≡ model.old) }
    {
        let Some(begun) = &self.begun else {
            unreachable!()
        };
        begun.meta.recall_soundness();
        match take_all(alloc, model, &begun.meta, package.as_slice()) {
            Ok(all) => Ok(all),
            Err(fault) => Err(package_fault(fault)),
        }
    }

    /// Records operations in a workspace, with the model after them, which it keeps where it is among those that used theirs last.
    fn install(
        &mut self,
        alloc: Global,
        ws: u32,
        package: Package,
        model: Working,
    ) -> Result<(), AllocError>
        requires there { is_some (workspace_of self.old ws) ≡ true }
        requires could { playable_with self.old self.old.meta (Edit ws «package») ≡ true }
        requires spelled { IsEvent (Edit ws «package») }
        requires leads { LeadTo self.old ws «package» model }
        ensures done { OnOk result (self.new ≡ effect self.old (Edit ws «package»)) }
        ensures same { OnErr result (self.new ≡ self.old) }
    {
        let Some(at) = self.place_of(ws) else {
            unreachable!()
        };
        let Some(_begun) = &self.begun else {
            unreachable!()
        };
        self.sizes.grow(at, created(package.as_slice()));
        let kept = to_keep(&self.recent, &self.sizes, at, model);
        let Some(workspace) = &mut self.workspaces[at] else {
            unreachable!()
        };
        workspace.install(alloc, package, kept)
    }

    /// Opens a composite of that name in a workspace.
    pub fn open_composite(&mut self, alloc: Global, ws: u32, name: Text)
        requires there { is_some (workspace_of self.old ws) ≡ true }
        requires could { playable_with self.old self.old.meta (Begin ws name) ≡ true }
        requires spelled { IsEvent (Begin ws name) }
        ensures done { self.new ≡ effect self.old (Begin ws name) }
    {
        let Some(at) = self.place_of(ws) else {
            unreachable!()
        };
        let Some(_begun) = &self.begun else {
            unreachable!()
        };
        let Some(workspace) = &mut self.workspaces[at] else {
            unreachable!()
        };
        workspace.open_composite(alloc, name);
    }

    /// Closes the composite that is open in a workspace.
    pub fn close_composite(&mut self, ws: u32) -> Result<(), AllocError>
        requires there { is_some (workspace_of self.old ws) ≡ true }
        requires could { playable_with self.old self.old.meta (End ws) ≡ true }
        requires spelled { IsEvent (End ws) }
        ensures done { OnOk result (self.new ≡ effect self.old (End ws)) }
        ensures same { OnErr result (self.new ≡ self.old) }
    {
        let Some(at) = self.place_of(ws) else {
            unreachable!()
        };
        let Some(_begun) = &self.begun else {
            unreachable!()
        };
        let Some(workspace) = &mut self.workspaces[at] else {
            unreachable!()
        };
        workspace.close_composite()
    }

    /// Drops the last operation of a workspace. The elements that it deleted are counted as added to the model that is kept.
    pub fn undo(&mut self, alloc: Global, ws: u32)
        requires there { is_some (workspace_of self.old ws) ≡ true }
        requires could { playable_with self.old self.old.meta (Undo ws) ≡ true }
        requires spelled { IsEvent (Undo ws) }
        ensures done { self.new ≡ effect self.old (Undo ws) }
    {
        let Some(at) = self.place_of(ws) else {
            unreachable!()
        };
        let Some(begun) = &self.begun else {
            unreachable!()
        };
        begun.meta.recall_soundness();
        let Some(workspace) = &mut self.workspaces[at] else {
            unreachable!()
        };
        self.sizes.grow(at, workspace.last_deleted());
        workspace.undo(alloc, &begun.meta, &begun.history);
    }

    /// Drops all that is local in a workspace. The elements that it deleted are counted as added to the model that is kept.
    pub fn discard(&mut self, alloc: Global, ws: u32)
        requires there { is_some (workspace_of self.old ws) ≡ true }
        requires could { playable_with self.old self.old.meta (Discard ws) ≡ true }
        requires spelled { IsEvent (Discard ws) }
        ensures done { self.new ≡ effect self.old (Discard ws) }
    {
        let Some(at) = self.place_of(ws) else {
            unreachable!()
        };
        let Some(begun) = &self.begun else {
            unreachable!()
        };
        begun.meta.recall_soundness();
        let Some(workspace) = &mut self.workspaces[at] else {
            unreachable!()
        };
        self.sizes.grow(at, workspace.local_deleted());
        workspace.discard(alloc, &begun.meta, &begun.history);
    }

    /// The local operations of a workspace are a further version, at which it stands. It is signed where there is a signature.
    pub fn commit(
        &mut self,
        alloc: Global,
        ws: u32,
        signature: Option<Signature>,
        message: Text,
    ) -> Result<(), AllocError>
        requires there { is_some (workspace_of self.old ws) ≡ true }
        requires could { playable_with self.old self.old.meta (version_event ws signature message) ≡ true }
        requires spelled { IsEvent (version_event ws signature message) }
        ensures done { OnOk result (self.new ≡ effect self.old (version_event ws signature message)) }
        ensures same { OnErr result (self.new ≡ self.old) }
    {
        let Some(at) = self.place_of(ws) else {
            unreachable!()
        };
        let Some(begun) = &mut self.begun else {
            unreachable!()
        };
        let Some(workspace) = &mut self.workspaces[at] else {
            unreachable!()
        };
        begun.commit(alloc, workspace, signature, message)
    }

    /// A further branch starts at the base of a workspace, which is on it.
    pub fn branch(&mut self, ws: u32, name: Text) -> Result<(), AllocError>
        requires there { is_some (workspace_of self.old ws) ≡ true }
        requires could { playable_with self.old self.old.meta (Branch ws name) ≡ true }
        requires spelled { IsEvent (Branch ws name) }
        ensures done { OnOk result (self.new ≡ effect self.old (Branch ws name)) }
        ensures same { OnErr result (self.new ≡ self.old) }
    {
        let Some(at) = self.place_of(ws) else {
            unreachable!()
        };
        let Some(begun) = &mut self.begun else {
            unreachable!()
        };
        let Some(workspace) = &mut self.workspaces[at] else {
            unreachable!()
        };
        begun.branch(workspace, name)
    }

    /// A further tag of a version.
    pub fn tag(&mut self, name: Text, version: u32) -> Result<(), AllocError>
        requires could { playable_with self.old self.old.meta (Tag name version) ≡ true }
        requires spelled { IsEvent (Tag name version) }
        ensures done { OnOk result (self.new ≡ effect self.old (Tag name version)) }
        ensures same { OnErr result (self.new ≡ self.old) }
    {
        let Some(begun) = &mut self.begun else {
            unreachable!()
        };
        begun.tag(name, version)
    }

    /// Drops a workspace, whose number is never used again.
    pub fn drop_workspace(&mut self, ws: u32)
        requires there { is_some (workspace_of self.old ws) ≡ true }
        requires could { playable_with self.old self.old.meta (Drop ws) ≡ true }
        requires spelled { IsEvent (Drop ws) }
        ensures done { self.new ≡ effect self.old (Drop ws) }
    {
        let Some(at) = self.place_of(ws) else {
            unreachable!()
        };
        let Some(_begun) = &self.begun else {
            unreachable!()
        };
        self.workspaces[at] = None;
        self.sizes.forget(Some(at));
    }
}
