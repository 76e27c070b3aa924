//! The repository in memory.
ghost use Rattle.std.specs.Prelude.{◌≡◌, ◌≤◌, ◌<◌, ◌^◌, suc, None, IfNone, IfOk, IfSome, length, is_some, true, Some, count_by};
ghost use Rattle.std.specs.Bool.{OnTrue, OnFalse};
ghost use Rattle.std.specs.Option.{option_copied, option_map};
ghost use Rattle.history_tree.specs.History.{no_history};
ghost use Rattle.plain_repository.specs.Answers.{most_events};
ghost use Rattle.plain_repository.specs.State.{empty, workspace_of};
ghost use Rattle.plain_repository.specs.Orderly.{IsOrderly};
ghost use Rattle.version_states.specs.Cached.{MayUse, Uses};
ghost use Rattle.repo_state.specs.Cached.{HasEncodings};
ghost use Rattle.repo_state.specs.Counting.{live_workspaces};
ghost use Rattle.repo_state.specs.Keeping.{plain_of};
ghost use Rattle.repo_state.specs.Working.{IsWorkingModel};

use crate::recent::to_keep;
use crate::sizes::Sizes;
use crate::workspace::Workspace;
use commit_journal::FIRST_GATE;
use ecore_meta::Metamodel;
use history_tree::History;
use page_pool::Pool;
use recently_used::Recent;
use state_cache::Cache;
use std::alloc::{AllocError, Global};
use std::marker::Model;
use working_model::Working;

const MOST_EVENTS: u32 = u32::MAX;

/// What there is once `init` was sent: the metamodel, the history, and whether each new version is signed.
#[derive(Drop)]
pub struct Begun {
    pub meta: Metamodel,
    pub history: History,
    pub upgraded: bool,
}

/// The metamodel and the history once there are such, the workspaces, and how much of the journal is used. Contracts see
/// all but the models that workspaces keep, and what is known of these: the positions of the workspaces that used theirs
/// last, 64 at most, and the sizes. Each workspace that keeps its model is among those, and its model has a size.
#[derive(Drop)]
pub struct Repo {
    pub(crate) begun: Option<Begun>,
    pub(crate) workspaces: Vec<Option<Workspace>>,
    pub(crate) recent: Recent,
    pub(crate) sizes: Sizes,
    pub(crate) events: u32,
    pub(crate) end: u64,
}

impl Model for Repo {
    ghost use Rattle.std.specs.Prelude.{◌^◌, ◌≤◌, map};
    ghost use Rattle.plain_repository.specs.State.{State};
    ghost use Rattle.plain_repository.specs.Orderly.{IsOrderly};
    ghost use Rattle.repo_state.specs.Keeping.{AllFit, KeepersAmong, meta_of, history_of, upgraded_of, plain_any};
    ghost use Rattle.repo_state.specs.Sizes.{sized};

    ghost Value = { State };

    ghost view = { λ r. record { meta = meta_of r.begun; history = history_of r.begun; workspaces = map plain_any r.workspaces.items; upgraded = upgraded_of r.begun; events = r.events; end = r.end } };

    ghost invariant = { λ r. (r.end ≤ 2 ^ 40) × AllFit r.begun r.workspaces.items × IsOrderly (record { meta = meta_of r.begun; history = history_of r.begun; workspaces = map plain_any r.workspaces.items; upgraded = upgraded_of r.begun; events = r.events; end = r.end }) × KeepersAmong r.recent r.workspaces.items × KeepersAmong (sized r.sizes.sizes.items) r.workspaces.items };
}

impl Repo {
    /// The repository before its first event: without a metamodel, over a journal that ends after its header of 16 bytes.
    pub fn new(alloc: Global) -> Repo
        ensures { result ≡ empty }
    {
        Repo {
            begun: None,
            workspaces: Vec::new(alloc),
            recent: Recent::new(alloc),
            sizes: Sizes::new(alloc),
            events: 0,
            end: FIRST_GATE,
        }
    }

    /// All is in order. A holder of any repository has it by this call, which does nothing.
    pub fn recall_order(&self)
        ensures { IsOrderly self.now }
    {
        // For what the type's invariant says.
        let _workspaces = &self.workspaces;
    }

    /// Whether the history has no room for an event.
    pub fn is_full(&self) -> bool
        ensures full { OnTrue result (most_events ≤ self.now.events) }
        ensures room { OnFalse result (self.now.events < most_events) }
    {
        self.events == MOST_EVENTS
    }

    /// The workspace of that number; none where it was never made or was dropped.
    pub fn workspace(&self, ws: u32) -> Option<&Workspace>
        ensures found { option_map plain_of (option_copied result) ≡ workspace_of self.now ws }
    {
        if ws == 0 {
            return None;
        }
        match self.workspaces.get(ws as usize - 1) {
            None => None,
            Some(workspace) => workspace.as_ref(),
        }
    }

    /// What `init` made, once it was sent.
    pub fn begun(&self) -> Option<&Begun>
        ensures meta { IfSome result (λ b. self.now.meta ≡ Some b.now.meta) }
        ensures history { IfSome result (λ b. self.now.history ≡ b.now.history.history) }
        ensures upgraded { IfSome result (λ b. self.now.upgraded ≡ b.now.upgraded) }
        ensures none { IfNone result (self.now.meta ≡ None) }
        ensures empty { IfNone result (self.now.history ≡ no_history) }
    {
        match &self.begun {
            None => None,
            Some(begun) => Some(begun),
        }
    }

    /// Whether the store is upgraded, so that each new version is signed.
    pub fn is_upgraded(&self) -> bool
        ensures { result ≡ self.now.upgraded }
    {
        match &self.begun {
            None => false,
            Some(begun) => begun.upgraded,
        }
    }

    /// How many workspaces were made, with those that were dropped: the number of the next is one more.
    pub fn made_workspaces(&self) -> usize
        ensures { result ≡ length self.now.workspaces }
    {
        self.workspaces.len()
    }

    /// How many workspaces are there, as far as 32 bits go. Those that were dropped are not counted.
    pub fn live_workspaces(&self) -> u32
        ensures { live_workspaces self.now < 2 ^ 32 → result ≡ live_workspaces self.now }
    {
        let live = self
            .workspaces
            .iter()
            .filter(|workspace| workspace.is_some())
            .count();
        u32::try_from(live).unwrap_or(u32::MAX)
    }

    /// How many events were made.
    pub fn event_count(&self) -> u32
        ensures { result ≡ self.now.events }
    {
        self.events
    }

    /// Where the journal ends, whose records the events are.
    pub fn end(&self) -> u64
        ensures { result ≡ self.now.end }
    {
        self.end
    }

    /// The journal has records of so many events and ends there, from now on.
    pub fn set_journal(&mut self, events: u32, end: u64)
        requires end { end ≤ 2 ^ 40 }
        ensures done { self.new ≡ record self.old { events = events; end = end } }
    {
        self.events = events;
        self.end = end;
    }

    /// The position of the workspace of that number.
    pub(crate) fn place_of(&self, ws: u32) -> Option<usize>
        ensures there { IfSome result (λ i. (ws ≡ suc i) × (i < length self.now.workspaces)) }
        ensures none { IfNone result (workspace_of self.now ws ≡ None) }
    {
        if ws == 0 || ws as usize > self.workspaces.len() {
            return None;
        }
        Some(ws as usize - 1)
    }

    /// The working model of a workspace, which doesn't keep it meanwhile. Of the other workspaces those that were used last
    /// keep theirs, as far as these and this one have at most 1,000,000 elements together. Where memory runs out, all others
    /// are let go, and the model is made once more.
    pub fn take_model(
        &mut self,
        alloc: Global,
        cache: &mut Cache,
        pool: &mut Pool,
        ws: u32,
    ) -> Result<Working, AllocError>
        requires there { is_some (workspace_of self.old ws) ≡ true }
        requires usable { MayUse pool.old cache.old }
        requires forms { HasEncodings self.old pool.old cache.old }
        ensures same { self.new ≡ self.old }
        ensures model { IfOk result (λ m. IsWorkingModel self.old ws m) }
        ensures uses { Uses pool.old pool.new cache.old cache.new }
        ensures forms { HasEncodings self.old pool.new cache.new }
    {
        let Some(at) = self.place_of(ws) else {
            unreachable!()
        };
        if let Ok(model) = self.model_at(alloc, cache, pool, ws, at) {
            return Ok(model);
        }
        self.let_others_go(at);
        self.model_at(alloc, cache, pool, ws, at)
    }

    /// The same, at its position and without a second try.
    #[tactic(auto, using(version_states::proofs::Caching::uses_none))]
    fn model_at(
        &mut self,
        alloc: Global,
        cache: &mut Cache,
        pool: &mut Pool,
        ws: u32,
        at: usize,
    ) -> Result<Working, AllocError>
        requires there { is_some (workspace_of self.old ws) ≡ true }
        requires usable { MayUse pool.old cache.old }
        requires forms { HasEncodings self.old pool.old cache.old }
        ensures same { self.new ≡ self.old }
        ensures model { IfOk result (λ m. IsWorkingModel self.old ws m) }
        ensures uses { Uses pool.old pool.new cache.old cache.new }
        ensures forms { HasEncodings self.old pool.new cache.new }
    {
        self.touch(at)?;
        let model = self.model_found(alloc, cache, pool, ws, at)?;
        self.weigh(alloc, at, &model)?;
        Ok(model)
    }

    /// The same, of a workspace that was counted among those that used theirs last: the one that it keeps, or else one that is
    /// taken over, or made anew.
    fn model_found(
        &mut self,
        alloc: Global,
        cache: &mut Cache,
        pool: &mut Pool,
        ws: u32,
        at: usize,
    ) -> Result<Working, AllocError>
        requires there { is_some (workspace_of self.old ws) ≡ true }
        requires usable { MayUse pool.old cache.old }
        requires forms { HasEncodings self.old pool.old cache.old }
        ensures same { self.new ≡ self.old }
        ensures model { IfOk result (λ m. IsWorkingModel self.old ws m) }
        ensures uses { Uses pool.old pool.new cache.old cache.new }
        ensures forms { HasEncodings self.old pool.new cache.new }
    {
        match self.take_over(alloc, ws, at) {
            Some(model) => Ok(model),
            None => self.model_out(alloc, cache, pool, ws),
        }
    }

    /// The same, without the models of others.
    fn model_out(
        &mut self,
        alloc: Global,
        cache: &mut Cache,
        pool: &mut Pool,
        ws: u32,
    ) -> Result<Working, AllocError>
        requires there { is_some (workspace_of self.old ws) ≡ true }
        requires usable { MayUse pool.old cache.old }
        requires forms { HasEncodings self.old pool.old cache.old }
        ensures same { self.new ≡ self.old }
        ensures model { IfOk result (λ m. IsWorkingModel self.old ws m) }
        ensures uses { Uses pool.old pool.new cache.old cache.new }
        ensures forms { HasEncodings self.old pool.new cache.new }
    {
        let Some(at) = self.place_of(ws) else {
            unreachable!()
        };
        let Some(begun) = &self.begun else {
            unreachable!()
        };
        let Some(workspace) = &mut self.workspaces[at] else {
            unreachable!()
        };
        begun.meta.recall_soundness();
        workspace.take_model(alloc, cache, pool, &begun.meta, &begun.history)
    }

    /// The workspace keeps its working model, where it is among those that used theirs last.
    pub fn keep_model(&mut self, ws: u32, model: Working)
        requires there { is_some (workspace_of self.old ws) ≡ true }
        requires model { IsWorkingModel self.old ws model }
        ensures same { self.new ≡ self.old }
    {
        let Some(at) = self.place_of(ws) else {
            unreachable!()
        };
        let Some(begun) = &self.begun else {
            unreachable!()
        };
        begun.meta.recall_soundness();
        let kept = to_keep(&self.recent, &self.sizes, at, model);
        let Some(workspace) = &mut self.workspaces[at] else {
            unreachable!()
        };
        workspace.keep_model(kept);
    }
}
