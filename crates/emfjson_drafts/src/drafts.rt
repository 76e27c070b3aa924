//! The drafts of a walk so far, with an index of their ids that finds a duplicate.
ghost use Rattle.std.specs.Prelude.{◌≡◌, ◌∷◌, [], ◌++◌, ◌<◌, List, OnOk, Some, length};
ghost use Rattle.std.specs.List.{list_any};
ghost use Rattle.finite_maps.specs.Equal.{option_eq, text_eq};
ghost use Rattle.model_documents.specs.declared.draft.ElementDraft.{ElementDraft};
ghost use Rattle.model_documents.specs.Parts.{ids_of};

use crate::finder::add_name;
use crate::held::Held;
use model_documents::ElementDraft;
use std::alloc::{AllocError, Global};
use std::collections::BTreeMap;
use std::marker::Model;

/// The elements that a walk has found so far, which are soon found by their ids.
#[derive(Drop)]
pub(crate) struct Drafts {
    rows: Vec<ElementDraft>,
    names: BTreeMap<String, usize>,
}

impl Model for Drafts {
    ghost use Rattle.std.specs.Prelude.{List};
    ghost use Rattle.model_documents.specs.declared.draft.ElementDraft.{ElementDraft};
    ghost use Rattle.model_documents.specs.Finder.{NamesOf};

    ghost Value = { List ElementDraft };

    ghost view = { λ a. a.rows.items };

    ghost invariant = { λ a. NamesOf a.rows.items a.names };
}

impl Drafts {
    /// No element is read yet.
    pub fn new(alloc: Global) -> Drafts
        ensures { result ≡ [] }
    {
        Drafts {
            rows: Vec::new(alloc),
            names: BTreeMap::new(alloc),
        }
    }

    /// How many elements are read.
    pub fn len(&self) -> usize
        ensures { result ≡ length self.now }
    {
        self.rows.len()
    }

    /// Whether one of the elements has the id.
    pub fn has_id(&self, id: &str) -> bool
        ensures { result ≡ list_any (option_eq text_eq (Some id.now)) (ids_of self.now) }
    {
        self.names.contains_key(id)
    }

    /// One more element, after the others.
    pub fn push(&mut self, alloc: Global, row: ElementDraft) -> Result<(), AllocError>
        ensures { OnOk result (self.new ≡ self.old ++ row ∷ []) }
    {
        let own = self.len();
        self.rows.push(row)?;
        match add_name(alloc, &mut self.names, own, &self.rows[own].id) {
            Ok(()) => Ok(()),
            Err(fault) => {
                self.rows.pop();
                Err(fault)
            }
        }
    }

    /// Gives an element what the keys of its object hold.
    pub fn fill(&mut self, own: usize, held: Held)
        requires { own < length self.old }
        ensures { (before : List ElementDraft) (row : ElementDraft) (after : List ElementDraft) → self.old ≡ before ++ row ∷ after → length before ≡ own → self.new ≡ before ++ record row { attrs = held.attrs; links = held.links } ∷ after }
    {
        let row = &mut self.rows[own];
        row.attrs = held.attrs;
        row.links = held.links;
    }

    /// The elements, in the order in which they were found.
    pub fn into_rows(self) -> Vec<ElementDraft>
        ensures { result.items ≡ self }
    {
        self.rows
    }
}
