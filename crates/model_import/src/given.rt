//! The ids that a document gives, as a set in which fresh ids are tested.
ghost use Rattle.std.specs.Prelude.{◌≡◌, IfOk, OnOk};
ghost use Rattle.std.specs.List.{list_any};
ghost use Rattle.model_documents.specs.Laws.{gives_id};
ghost use Rattle.model_import.specs.Given.{Gives, GivesAlso};

use model_documents::DocRow;
use model_state::Id;
use std::alloc::{AllocError, Global};
use std::collections::BTreeSet;
use std::marker::Model;

/// The rows of a document, whose ids are in order, so that it is soon found whether they give one.
#[derive(Drop)]
pub(crate) struct Given<'a> {
    rows: &'a [DocRow],
    ids: BTreeSet<Id>,
}

impl<'a> Model for Given<'a> {
    ghost use Rattle.std.specs.Prelude.{List};
    ghost use Rattle.model_documents.specs.declared.doc.DocRow.{DocRow};
    ghost use Rattle.model_import.specs.Given.{Gives};

    ghost Value = { List DocRow };

    ghost view = { λ a. a.rows.now };

    ghost invariant = { λ a. Gives a.ids a.rows.now };
}

impl<'a> Given<'a> {
    /// Makes the set of the ids, from all rows. The error is out of memory.
    pub fn new(alloc: Global, rows: &'a [DocRow]) -> Result<Given<'a>, AllocError>
        ensures { IfOk result (λ given. given ≡ rows.now) }
    {
        let ids = ids_given(alloc, rows)?;
        Ok(Given { rows, ids })
    }

    /// Whether the document gives the id.
    pub fn gives(&self, e: &Id) -> bool
        ensures { result ≡ list_any (gives_id e.now) self.now }
    {
        self.ids.contains(e)
    }
}

/// One more id, where the row gives one.
fn add_given(alloc: Global, ids: &mut BTreeSet<Id>, row: &DocRow) -> Result<(), AllocError>
    ensures { OnOk result (GivesAlso ids.old row.now ids.new) }
{
    match &row.id {
        None => {}
        Some(id) => {
            ids.insert(id.copy(alloc)?)?;
        }
    }
    Ok(())
}

/// The ids that rows give.
fn ids_given(alloc: Global, rows: &[DocRow]) -> Result<BTreeSet<Id>, AllocError>
    ensures { IfOk result (λ ids. Gives ids rows.now) }
{
    let mut ids = BTreeSet::new(alloc);
    for row in rows {
        add_given(alloc, &mut ids, row)?;
    }
    Ok(ids)
}
