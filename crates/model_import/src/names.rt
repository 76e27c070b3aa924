//! The ids of a document's elements: the given ones, and fresh ones that are neither live nor given.
ghost use Rattle.std.specs.Prelude.{◌≡◌, ◌<◌, IfOk, None, length};
ghost use Rattle.std.specs.List.{list_any};
ghost use Rattle.model_documents.specs.Laws.{gives_id};
ghost use Rattle.import_laws.specs.Names.{AreNames, IsName, any_in_use, in_use, is_taken, name_at};

use crate::given::Given;
use edits::numbered_id;
use model_documents::DocRow;
use model_state::{Id, Look};
use std::alloc::{AllocError, Global};
use texts::List;

/// The id of a row, and the number from which fresh ones go on.
#[derive(Drop)]
struct Named {
    id: Id,
    next: u64,
}

fn is_given(rows: &Given, e: &Id) -> bool
    ensures { result ≡ list_any (gives_id e.now) rows.now }
{
    rows.gives(e)
}

/// Whether an id is live, or the document gives it.
fn is_taken<L: Look>(look: &L, rows: &Given, e: &Id) -> bool
    ensures { result ≡ is_taken (L.state look.now) rows.now e.now }
{
    look.class(e).is_some() || is_given(rows, e)
}

/// The fresh id of the first number from the given one on.
fn fresh<L: Look>(
    alloc: Global,
    look: &L,
    rows: &Given,
    ws: u32,
    from: u64,
) -> Result<Named, AllocError>
    ensures { IfOk result (λ n. IsName (L.state look.now) rows.now ws from None n.id n.next) }
{
    for k in from..u64::MAX {
        let id = numbered_id(alloc, ws, k)?;
        if !is_taken(look, rows, &id) {
            return Ok(Named { id, next: k + 1 });
        }
    }
    // No memory holds so many elements.
    Err(AllocError)
}

/// The id of a row: the one that the document gives, or else a fresh one.
fn name_of<L: Look>(
    alloc: Global,
    look: &L,
    rows: &Given,
    ws: u32,
    from: u64,
    id: &Option<Id>,
) -> Result<Named, AllocError>
    ensures { IfOk result (λ n. IsName (L.state look.now) rows.now ws from id.now n.id n.next) }
{
    match id {
        None => fresh(alloc, look, rows, ws, from),
        Some(id) => Ok(Named {
            id: id.copy(alloc)?,
            next: from,
        }),
    }
}

/// The ids that the rows get, in order.
pub(crate) fn names<L: Look>(
    alloc: Global,
    look: &L,
    rows: &[DocRow],
    ws: u32,
) -> Result<List<Id>, AllocError>
    ensures names { IfOk result (λ names. AreNames (L.state look.now) rows.now ws 1 rows.now names) }
    ensures as_many { IfOk result (λ names. length names ≡ length rows.now) }
{
    let given = Given::new(alloc, rows)?;
    let mut names = List::new(alloc);
    let mut from: u64 = 1;
    for row in rows {
        let named = name_of(alloc, look, &given, ws, from, &row.id)?;
        names.push(named.id)?;
        from = named.next;
    }
    Ok(names)
}

/// The id of a row.
pub(crate) fn name_at(names: &[Id], n: usize) -> &Id
    requires { n < length names.now }
    ensures { result.now ≡ name_at names.now n }
{
    &names[n]
}

fn in_use<L: Look>(look: &L, id: &Option<Id>) -> bool
    ensures { result ≡ in_use (L.state look.now) id.now }
{
    match id {
        None => false,
        Some(id) => look.class(id).is_some(),
    }
}

/// Whether the document gives an id that is live.
pub(crate) fn any_in_use<L: Look>(look: &L, rows: &[DocRow]) -> bool
    ensures { result ≡ any_in_use (L.state look.now) rows.now }
{
    for row in rows {
        if in_use(look, &row.id) {
            return true;
        }
    }
    false
}
