//! A workspace in memory, which may keep its working model.
ghost use Rattle.std.specs.Prelude.{◌≡◌, ◌≢◌, ◌<◌, ◌++◌, length, is_some, true, None, IfOk, IfSome, OnOk, OnErr, IfErr, Some};
ghost use Rattle.std.specs.Option.{option_copied, option_map};
ghost use Rattle.ecore_meta.specs.Sound.{Sound};
ghost use Rattle.model_state.specs.Good.{Good};
ghost use Rattle.model_state.specs.Steps.{fold};
ghost use Rattle.model_state.specs.Packages.{fold_package};
ghost use Rattle.history_tree.specs.States.{state_folded, state_of};
ghost use Rattle.plain_repository.specs.State.{model_of, folded, open_steps, recorded_steps, untouched, has_operations, has_local, is_closed, is_open};
ghost use Rattle.plain_repository.specs.Commits.{version_of, committed};
ghost use Rattle.plain_repository.specs.Composites.{with_open, with_closed};
ghost use Rattle.plain_repository.specs.Edits.{takes, with_more};
ghost use Rattle.plain_repository.specs.Local.{can_undo, without_any, without_last};
ghost use Rattle.state_form.specs.Spelled.{IsSpelled};
ghost use Rattle.state_cache.specs.Entries.{stands};
ghost use Rattle.version_states.specs.Cached.{AreEncodings, MayUse, Uses};
ghost use Rattle.repo_state.specs.Keeping.{plain_of, ModelFits};
ghost use Rattle.repo_state.specs.Planning.{replaced, restarted, taken_up};

use crate::following::{model_after, model_before, model_before_one, updated_model};
use crate::merging::{Merged, Updated};
use crate::sizes::{created, created_by, deleted, deleted_by};
use ecore_meta::{CompactList, Metamodel};
use history_tree::{History, Signature, Version};
use model_state::{Operation, Package, Step, StepFault};
use operation_room::fitted;
use page_pool::Pool;
use state_cache::Cache;
use std::alloc::{AllocError, Global};
use std::mem::replace;
use texts::{List, Text};
use version_states::{follow, go_over, state_at, steps_in, steps_out, take_back_all, take_steps};
use working_model::Working;

/// A composite that is open: its name, and the steps recorded in it so far.
#[derive(Drop)]
pub struct Composite {
    pub name: Text,
    pub steps: Vec<Step>,
}

/// What is recorded in a workspace, and its working model, where it is kept. Contracts of the repository don't see the model.
#[derive(Drop)]
pub struct Workspace {
    pub branch: u32,
    pub base: u32,
    pub(crate) operations: Vec<Operation>,
    pub(crate) composite: Option<Composite>,
    pub(crate) pending: List<u32>,
    pub(crate) model: Option<Working>,
}

/// Moves operations after others, without the room that their lists of steps don't use. When out of memory the others stay as they are.
fn append_operations(
    alloc: Global,
    operations: &mut Vec<Operation>,
    more: Package,
) -> Result<(), AllocError>
    ensures more { OnOk result (operations.new.items ≡ operations.old.items ++ more) }
    ensures same { OnErr result (operations.new.items ≡ operations.old.items) }
{
    let mut more = fitted(alloc, more);
    operations.append(&mut more)
}

/// Moves steps after others. When out of memory the others stay as they are.
fn append_steps(steps: &mut Vec<Step>, more: CompactList<Step>) -> Result<(), AllocError>
    ensures more { OnOk result (steps.new.items ≡ steps.old.items ++ more) }
    ensures same { OnErr result (steps.new.items ≡ steps.old.items) }
{
    more.append_to(steps)
}

/// The author and the moment of a signature, or neither.
fn signed_by(signature: Option<Signature>) -> (Option<Text>, Option<u64>)
    ensures author { result.0 ≡ option_map (λ s. s.author) signature }
    ensures moment { result.1 ≡ option_map (λ s. s.moment) signature }
    ensures both { is_some result.0 ≡ is_some result.1 }
{
    match signature {
        None => (None, None),
        Some(Signature { author, moment }) => (Some(author), Some(moment)),
    }
}

impl Workspace {
    /// A workspace on a branch, at a version, with nothing local.
    pub(crate) fn new(alloc: Global, branch: u32, base: u32) -> Workspace
        ensures untouched { plain_of result ≡ untouched branch base }
        ensures model { result.model ≡ None }
    {
        Workspace {
            branch,
            base,
            operations: Vec::new(alloc),
            composite: None,
            pending: List::new(alloc),
            model: None,
        }
    }

    /// The operations, in their order.
    pub fn operations(&self) -> &[Operation]
        ensures { result.now ≡ self.now.operations.items }
    {
        self.operations.as_slice()
    }

    /// The composite that is open.
    pub fn composite(&self) -> Option<&Composite>
        ensures { option_copied result ≡ self.now.composite }
    {
        self.composite.as_ref()
    }

    /// Whether there are operations.
    pub fn has_operations(&self) -> bool
        ensures { result ≡ has_operations (Some (plain_of self.now)) }
    {
        self.operations.len() > 0
    }

    /// Whether there is something for a version.
    pub fn has_local(&self) -> bool
        ensures { result ≡ has_local (Some (plain_of self.now)) }
    {
        self.has_operations() || self.pending.len() > 0
    }

    /// Whether a composite is open.
    pub fn is_open(&self) -> bool
        ensures open { result ≡ is_open (Some (plain_of self.now)) }
    {
        self.composite.is_some()
    }

    /// The working model, taken out of the workspace, or made anew where it is not kept.
    #[tactic(auto, using(version_states::proofs::Caching::uses_none))]
    pub(crate) fn take_model(
        &mut self,
        alloc: Global,
        cache: &mut Cache,
        pool: &mut Pool,
        meta: &Metamodel,
        history: &History,
    ) -> Result<Working, AllocError>
        requires sound { Sound meta.now }
        requires there { self.old.base < length history.now.history.versions }
        requires base { is_some (state_folded meta.now history.now.history self.old.base) ≡ true }
        requires leads { is_some (folded meta.now history.now.history (plain_of self.old)) ≡ true }
        requires spelled { IsSpelled meta.now (state_of meta.now history.now.history self.old.base) }
        requires fits { ModelFits meta.now history.now.history self.old }
        requires usable { MayUse pool.old cache.old }
        requires forms { AreEncodings (Some meta.now) history.now.history (stands pool.old cache.old) }
        ensures same { plain_of self.new ≡ plain_of self.old }
        ensures taken { self.new.model ≡ None }
        ensures model { IfOk result (λ m. m ≡ model_of meta.now history.now.history (plain_of self.old)) }
        ensures good { IfOk result (λ m. Good meta.now m) }
        ensures uses { Uses pool.old pool.new cache.old cache.new }
        ensures forms { AreEncodings (Some meta.now) history.now.history (stands pool.new cache.new) }
    {
        match self.model.take() {
            Some(model) => Ok(model),
            None => self.fold_model(alloc, cache, pool, meta, history),
        }
    }

    /// Operations are added after the others, or the steps of one join the composite that is open. The model that is
    /// given, if one is to be kept, is that after the operations. When out of memory the workspace stays as it is, but
    /// keeps no model.
    pub(crate) fn install(
        &mut self,
        alloc: Global,
        package: Package,
        model: Option<Working>,
    ) -> Result<(), AllocError>
        requires takes { takes (plain_of self.old).composite «package» ≡ true }
        ensures more { OnOk result (plain_of self.new ≡ with_more «package» (plain_of self.old)) }
        ensures kept { OnOk result (self.new.model ≡ model) }
        ensures same { OnErr result (plain_of self.new ≡ plain_of self.old) }
        ensures gone { OnErr result (self.new.model ≡ None) }
    {
        self.model = None;
        self.push_all(alloc, package)?;
        self.model = model;
        Ok(())
    }

    fn push_all(&mut self, alloc: Global, package: Package) -> Result<(), AllocError>
        requires takes { takes (plain_of self.old).composite «package» ≡ true }
        ensures more { OnOk result (plain_of self.new ≡ with_more «package» (plain_of self.old)) }
        ensures same { OnErr result (plain_of self.new ≡ plain_of self.old) }
        ensures model { self.new.model ≡ self.old.model }
    {
        match &mut self.composite {
            None => append_operations(alloc, &mut self.operations, package),
            Some(composite) => append_steps(&mut composite.steps, steps_out(package)),
        }
    }

    /// Opens a composite of that name, with no step yet.
    pub(crate) fn open_composite(&mut self, alloc: Global, name: Text)
        ensures opened { plain_of self.new ≡ with_open name (plain_of self.old) }
        ensures model { self.new.model ≡ self.old.model }
    {
        self.composite = Some(Composite {
            name,
            steps: Vec::new(alloc),
        });
    }

    /// Closes the composite that is open, which is the last operation where it has steps. When out of memory nothing changes.
    pub(crate) fn close_composite(&mut self) -> Result<(), AllocError>
        ensures closed { OnOk result (plain_of self.new ≡ with_closed (plain_of self.old)) }
        ensures same { OnErr result (plain_of self.new ≡ plain_of self.old) }
        ensures model { self.new.model ≡ self.old.model }
    {
        self.operations.reserve(1)?;
        let Some(Composite { name, mut steps }) = self.composite.take() else {
            return Ok(());
        };
        steps.shrink_to_fit();
        if steps.len() > 0 {
            self.operations.push_reserved(Operation::Composite {
                name,
                steps: List::from_vec(steps),
            });
        }
        Ok(())
    }

    /// How many elements the last operation deletes. No more come back where it is dropped.
    pub(crate) fn last_deleted(&self) -> usize {
        match self.operations.last() {
            None => 0,
            Some(operation) => deleted_by(operation.steps()),
        }
    }

    /// How many elements all that is local deletes. No more come back where it is dropped.
    pub(crate) fn local_deleted(&self) -> usize {
        let in_composite = match &self.composite {
            None => 0,
            Some(composite) => deleted_by(composite.steps.as_slice()),
        };
        deleted(self.operations.as_slice()).saturating_add(in_composite)
    }

    /// Drops the last operation. A model that is kept takes it back, or is not kept when out of memory.
    pub(crate) fn undo(&mut self, alloc: Global, meta: &Metamodel, _history: &History)
        requires sound { Sound meta.now }
        requires can { can_undo (Some (plain_of self.old)) ≡ true }
        requires base { Good meta.now (state_of meta.now _history.now.history self.old.base) }
        requires fits { ModelFits meta.now _history.now.history self.old }
        ensures undone { plain_of self.new ≡ without_last (plain_of self.old) }
        ensures fits { ModelFits meta.now _history.now.history self.new }
        ensures kept { is_some self.new.model ≡ true → is_some self.old.model ≡ true }
    {
        let Some(operation) = self.operations.pop() else {
            unreachable!()
        };
        let model = match self.model.take() {
            None => {
                drop(operation);
                None
            }
            Some(model) => model_before_one(alloc, meta, model, operation),
        };
        self.model = model;
    }

    /// Drops all that is local. A model that is kept takes it back, or is not kept when out of memory.
    pub(crate) fn discard(&mut self, alloc: Global, meta: &Metamodel, history: &History)
        requires sound { Sound meta.now }
        requires base { Good meta.now (state_of meta.now history.now.history self.old.base) }
        requires fits { ModelFits meta.now history.now.history self.old }
        ensures discarded { plain_of self.new ≡ without_any (plain_of self.old) }
        ensures fits { ModelFits meta.now history.now.history self.new }
        ensures kept { is_some self.new.model ≡ true → is_some self.old.model ≡ true }
    {
        // What is recorded in an open composite is an operation then.
        let model = match self.close_composite() {
            Ok(()) => self.rewind(alloc, meta, history),
            Err(_) => None,
        };
        self.operations = Vec::new(alloc);
        self.composite = None;
        self.pending = List::new(alloc);
        self.model = model;
    }

    /// The state of the base, by the model that is kept, which takes back the operations; none when out of memory. The
    /// workspace has neither any more.
    fn rewind(&mut self, alloc: Global, meta: &Metamodel, _history: &History) -> Option<Working>
        requires sound { Sound meta.now }
        requires base { Good meta.now (state_of meta.now _history.now.history self.old.base) }
        requires closed { is_closed (Some (plain_of self.old)) ≡ true }
        requires fits { ModelFits meta.now _history.now.history self.old }
        ensures state { IfSome result (λ m. m ≡ state_of meta.now _history.now.history self.old.base) }
        ensures kept { is_some result ≡ true → is_some self.old.model ≡ true }
        ensures branch { self.new.branch ≡ self.old.branch }
        ensures base { self.new.base ≡ self.old.base }
    {
        let operations = List::from_vec(replace(&mut self.operations, Vec::new(alloc)));
        let model = self.model.take()?;
        model_before(alloc, meta, model, &operations)
    }

    /// The version that the local operations make. The workspace stands at it from now on, under its number, with nothing local.
    pub(crate) fn commit(
        &mut self,
        alloc: Global,
        signature: Option<Signature>,
        message: Text,
        number: u32,
    ) -> Version
        ensures version { result ≡ version_of (plain_of self.old) signature message }
        ensures signed { is_some result.author ≡ is_some result.moment }
        ensures committed { plain_of self.new ≡ committed number (plain_of self.old) }
        ensures model { self.new.model ≡ self.old.model }
    {
        let (author, moment) = signed_by(signature);
        let parent = replace(&mut self.base, number);
        let mut operations = replace(&mut self.operations, Vec::new(alloc));
        operations.shrink_to_fit();
        Version {
            branch: self.branch,
            parent: Some(parent),
            merged: replace(&mut self.pending, List::new(alloc)),
            author,
            moment,
            message,
            package: CompactList::from_list(List::from_vec(operations)),
        }
    }

    /// The operations are others, which lead to the same model.
    pub(crate) fn replace_operations(&mut self, alloc: Global, operations: Package)
        ensures replaced { plain_of self.new ≡ replaced operations (plain_of self.old) }
        ensures model { self.new.model ≡ self.old.model }
    {
        self.operations = fitted(alloc, operations);
    }

    /// How many elements an update adds to the model at most. What is local is taken back, so what it deletes comes back, and
    /// what it creates goes.
    pub(crate) fn added_by(&self, updated: &Updated) -> usize {
        let theirs = created(updated.theirs.as_slice());
        theirs
            .saturating_add(created(updated.operations.as_slice()))
            .saturating_add(self.local_deleted())
            .saturating_sub(created(self.operations.as_slice()))
    }

    /// Stands at a version with other operations. A model that is kept goes there too, or is not kept when out of memory.
    pub(crate) fn update(
        &mut self,
        alloc: Global,
        meta: &Metamodel,
        history: &History,
        updated: Updated,
    )
        requires sound { Sound meta.now }
        requires base { Good meta.now (state_of meta.now history.now.history self.old.base) }
        requires closed { is_closed (Some (plain_of self.old)) ≡ true }
        requires fits { ModelFits meta.now history.now.history self.old }
        requires theirs { fold_package meta.now (state_of meta.now history.now.history self.old.base) updated.theirs ≡ Some (state_of meta.now history.now.history updated.base) }
        requires leads { is_some (fold_package meta.now (state_of meta.now history.now.history updated.base) updated.operations) ≡ true }
        ensures updated { plain_of self.new ≡ restarted updated.base updated.operations (plain_of self.old) }
        ensures fits { ModelFits meta.now history.now.history self.new }
        ensures kept { is_some self.new.model ≡ true → is_some self.old.model ≡ true }
    {
        let mine = List::from_vec(replace(&mut self.operations, Vec::new(alloc)));
        let model = match self.model.take() {
            None => None,
            Some(model) => {
                updated_model(alloc, meta, history, self.base, model, &mine, &updated)
            }
        };
        self.base = updated.base;
        self.operations = fitted(alloc, updated.operations);
        self.model = model;
    }

    /// Takes further operations after the others, of a version that is pending from now on. A model that is kept takes
    /// them too, or is not kept when out of memory. When out of memory nothing else changes.
    pub(crate) fn take_up(
        &mut self,
        alloc: Global,
        meta: &Metamodel,
        _history: &History,
        merged: Merged,
    ) -> Result<(), AllocError>
        requires sound { Sound meta.now }
        requires closed { is_closed (Some (plain_of self.old)) ≡ true }
        requires fits { ModelFits meta.now _history.now.history self.old }
        requires leads { is_some (folded meta.now _history.now.history (taken_up merged.more merged.version (plain_of self.old))) ≡ true }
        ensures taken { OnOk result (plain_of self.new ≡ taken_up merged.more merged.version (plain_of self.old)) }
        ensures same { OnErr result (plain_of self.new ≡ plain_of self.old) }
        ensures fits { ModelFits meta.now _history.now.history self.new }
        ensures kept { is_some self.new.model ≡ true → is_some self.old.model ≡ true }
    {
        let model = match self.model.take() {
            None => None,
            Some(model) => model_after(meta, model, merged.more.as_slice()),
        };
        self.append_merged(alloc, merged)?;
        self.model = model;
        Ok(())
    }

    /// Puts further operations after the others, of a version that is pending from now on. When out of memory nothing changes.
    fn append_merged(&mut self, alloc: Global, merged: Merged) -> Result<(), AllocError>
        ensures taken { OnOk result (plain_of self.new ≡ taken_up merged.more merged.version (plain_of self.old)) }
        ensures same { OnErr result (plain_of self.new ≡ plain_of self.old) }
        ensures model { self.new.model ≡ self.old.model }
    {
        self.pending.push(merged.version)?;
        match append_operations(alloc, &mut self.operations, merged.more) {
            Ok(()) => Ok(()),
            Err(_) => {
                self.pending.pop();
                Err(AllocError)
            }
        }
    }

    /// The model that is kept, if one is. The workspace keeps none from now on.
    pub(crate) fn give_model(&mut self) -> Option<Working>
        ensures same { plain_of self.new ≡ plain_of self.old }
        ensures taken { self.new.model ≡ None }
        ensures was { result ≡ self.old.model }
    {
        self.model.take()
    }

    /// The workspace keeps this model, or none.
    pub(crate) fn keep_model(&mut self, model: Option<Working>)
        ensures same { plain_of self.new ≡ plain_of self.old }
        ensures kept { self.new.model ≡ model }
    {
        self.model = model;
    }

    /// The working model, made anew.
    pub fn fold_model(
        &self,
        alloc: Global,
        cache: &mut Cache,
        pool: &mut Pool,
        meta: &Metamodel,
        history: &History,
    ) -> Result<Working, AllocError>
        requires there { self.now.base < length history.now.history.versions }
        requires base { is_some (state_folded meta.now history.now.history self.now.base) ≡ true }
        requires leads { is_some (folded meta.now history.now.history (plain_of self.now)) ≡ true }
        requires spelled { IsSpelled meta.now (state_of meta.now history.now.history self.now.base) }
        requires usable { MayUse pool.old cache.old }
        requires forms { AreEncodings (Some meta.now) history.now.history (stands pool.old cache.old) }
        ensures model { IfOk result (λ m. m ≡ model_of meta.now history.now.history (plain_of self.now)) }
        ensures good { IfOk result (λ m. Good meta.now m) }
        ensures uses { Uses pool.old pool.new cache.old cache.new }
        ensures forms { AreEncodings (Some meta.now) history.now.history (stands pool.new cache.new) }
    {
        meta.recall_soundness();
        let mut model = state_at(alloc, cache, pool, meta, history, self.base)?;
        match self.retake(&mut model, meta) {
            Ok(()) => Ok(model),
            Err(fault) => match fault {
                StepFault::Memory => Err(AllocError),
                _ => unreachable!(),
            },
        }
    }

    /// The steps of the composite that is open, none where none is.
    fn open_steps(&self) -> &[Step]
        ensures { result.now ≡ open_steps (plain_of self.now).composite }
    {
        match &self.composite {
            None => &[],
            Some(composite) => composite.steps.as_slice(),
        }
    }

    /// The state of the base, of the working model. What is recorded is taken back.
    fn unwind(
        &self,
        alloc: Global,
        model: Working,
        meta: &Metamodel,
        _history: &History,
    ) -> Result<Working, AllocError>
        requires sound { Sound meta.now }
        requires base { Good meta.now (state_of meta.now _history.now.history self.now.base) }
        requires model { folded meta.now _history.now.history (plain_of self.now) ≡ Some model }
        ensures state { IfOk result (λ m. m ≡ state_of meta.now _history.now.history self.now.base) }
        ensures good { IfOk result (λ m. Good meta.now m) }
    {
        let mut model = model;
        let operations = self.operations.as_slice();
        let steps = self.open_steps();
        take_back_all(alloc, &mut model, meta, operations, steps)?;
        Ok(model)
    }

    /// The working model, made of that of another workspace: what is recorded there is taken back, then comes the way from the
    /// base there to the one here, and what is recorded here.
    pub(crate) fn model_from(
        &self,
        alloc: Global,
        meta: &Metamodel,
        history: &History,
        other: &Workspace,
        model: Working,
    ) -> Result<Working, AllocError>
        requires sound { Sound meta.now }
        requires there { self.now.base < length history.now.history.versions }
        requires base { is_some (state_folded meta.now history.now.history self.now.base) ≡ true }
        requires leads { is_some (folded meta.now history.now.history (plain_of self.now)) ≡ true }
        requires other_there { other.now.base < length history.now.history.versions }
        requires other_base { is_some (state_folded meta.now history.now.history other.now.base) ≡ true }
        requires other_good { Good meta.now (state_of meta.now history.now.history other.now.base) }
        requires model { folded meta.now history.now.history (plain_of other.now) ≡ Some model }
        ensures model { IfOk result (λ m. m ≡ model_of meta.now history.now.history (plain_of self.now)) }
        ensures good { IfOk result (λ m. Good meta.now m) }
    {
        let mut model = other.unwind(alloc, model, meta, history)?;
        go_over(alloc, &mut model, meta, history, other.base, self.base)?;
        match self.retake(&mut model, meta) {
            Ok(()) => Ok(model),
            Err(fault) => match fault {
                StepFault::Memory => Err(AllocError),
                _ => unreachable!(),
            },
        }
    }

    /// How many steps are recorded. Where these are more than so many, some number above that.
    pub(crate) fn recorded(&self, most: usize) -> usize {
        let open = match &self.composite {
            None => 0,
            Some(composite) => composite.steps.len(),
        };
        steps_in(self.operations.as_slice(), most).saturating_add(open)
    }

    /// How many elements all that is local creates.
    pub(crate) fn local_created(&self) -> usize {
        let in_composite = match &self.composite {
            None => 0,
            Some(composite) => created_by(composite.steps.as_slice()),
        };
        created(self.operations.as_slice()).saturating_add(in_composite)
    }

    /// Takes all that is recorded on the state of the base. After an error the model is of no use.
    fn retake(&self, model: &mut Working, meta: &Metamodel) -> Result<(), StepFault>
        requires sound { Sound meta.now }
        requires good { Good meta.now model.old }
        ensures done { OnOk result (fold meta.now model.old (recorded_steps (plain_of self.now)) ≡ Some model.new) }
        ensures cannot { IfErr result (λ e. e ≢ StepFault.Memory → fold meta.now model.old (recorded_steps (plain_of self.now)) ≡ None) }
        ensures good { OnOk result (Good meta.now model.new) }
    {
        let operations = self.operations.as_slice();
        follow(model, meta, operations)?;
        match &self.composite {
            None => Ok(()),
            Some(composite) => {
                let steps = composite.steps.as_slice();
                take_steps(model, meta, steps)
            }
        }
    }
}
