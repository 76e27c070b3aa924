//! A model, and where the search for a fresh id begins.
ghost use Rattle.std.specs.Prelude.{◌≡◌, Some, IfErr, IfOk, OnOk, take, true};
ghost use Rattle.edits.specs.FreshIds.{fresh_id};
ghost use Rattle.ecore_meta.specs.Meta.{Meta};
ghost use Rattle.model_state.specs.Faults.{IsApplyFault};
ghost use Rattle.model_state.specs.Good.{Good};
ghost use Rattle.model_state.specs.Ident.{is_id};
ghost use Rattle.model_state.specs.State.{nothing};
ghost use Rattle.model_state.specs.Steps.{first_stop, fold};
ghost use Rattle.working_model.specs.Taken.{AreTaken};

use crate::deletions::kept_up_to;
use ecore_meta::Metamodel;
use edits::numbered_id;
use model_graph::Graph;
use model_laws::take_in_order;
use model_state::{ApplyFault, Id, Look, Step};
use std::alloc::{AllocError, Global};
use std::marker::Model;

/// A model, and a number of a workspace's ids: those of lesser numbers are live. Contracts see the model alone.
#[derive(Drop)]
pub struct Working {
    alloc: Global,
    model: Graph,
    ws: u32,
    next: u64,
}

impl Model for Working {
    ghost use Rattle.model_graph.specs.contracts.graph.Graph.{the_row};
    ghost use Rattle.model_state.specs.State.{State};
    ghost use Rattle.working_model.specs.Taken.{AreTaken};

    ghost Value = { State };

    ghost coded = { the_row.coded };

    ghost view = { λ w. w.model };

    ghost invariant = { λ w. AreTaken w.model w.ws w.next };
}

/// The first id of a workspace, from a number on, that no live element has, and its number.
fn free_from(alloc: Global, model: &Graph, ws: u32, from: u64) -> Result<(Id, u64), AllocError>
    requires taken { AreTaken model.now ws from }
    ensures id { IfOk result (λ r. r.0 ≡ fresh_id model.now ws) }
    ensures form { OnOk result (is_id (fresh_id model.now ws) ≡ true) }
    ensures taken { IfOk result (λ r. AreTaken model.now ws r.1) }
{
    for k in from..u64::MAX {
        let id = numbered_id(alloc, ws, k)?;
        if model.class(&id).is_none() {
            return Ok((id, k));
        }
    }
    // No memory holds so many elements.
    Err(AllocError)
}

impl Working {
    /// The model without elements.
    pub fn new(alloc: Global) -> Working
        ensures empty { result ≡ nothing }
        ensures good { (meta : Meta) → Good meta result }
    {
        Working {
            alloc,
            model: Graph::new(alloc),
            ws: 0,
            next: 1,
        }
    }

    /// The model.
    pub fn graph(&self) -> &Graph
        ensures { result.now ≡ self.now }
    {
        &self.model
    }

    /// Takes the steps one by one, up to the first that can't be taken, whose place, from 0, and fault it gives. The steps before it are taken then.
    pub fn take_in_order(&mut self, meta: &Metamodel, steps: &[Step]) -> Result<(), ApplyFault>
        requires good { Good meta.now self.old }
        ensures done { OnOk result (fold meta.now self.old steps.now ≡ Some self.new) }
        ensures cannot { IfErr result (λ e. IsApplyFault (first_stop meta.now self.old steps.now) e) }
        ensures taken { IfErr result (λ e. fold meta.now self.old (take e.at steps.now) ≡ Some self.new) }
        ensures good { Good meta.now self.new }
    {
        let next = kept_up_to(self.alloc, self.ws, self.next, steps);
        self.next = 1;
        take_in_order(&mut self.model, meta, steps)?;
        self.next = next;
        Ok(())
    }

    /// The first id of a workspace that no live element has. The search begins where it ended the last time, or at the least
    /// number whose id was deleted since. It begins at 1 where that was for another workspace, or steps could not be taken since.
    pub fn fresh_id(&mut self, alloc: Global, ws: u32) -> Result<Id, AllocError>
        ensures id { IfOk result (λ id. id ≡ fresh_id self.old ws) }
        ensures form { OnOk result (is_id (fresh_id self.old ws) ≡ true) }
        ensures same { self.new ≡ self.old }
    {
        let from = if ws == self.ws { self.next } else { 1 };
        let (id, next) = free_from(alloc, &self.model, ws, from)?;
        self.ws = ws;
        self.next = next;
        Ok(id)
    }
}
