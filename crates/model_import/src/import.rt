//! The import of a document as one composite: creations first, then values, then links.
ghost use Rattle.std.specs.Prelude.{◌≡◌, IfOk, length};
ghost use Rattle.model_documents.specs.Fits.{DocumentFits};
ghost use Rattle.import_laws.specs.Import.{Imports, composite, of_steps, recorded_import, steps_made};
ghost use Rattle.edits.specs.Answers.{Answers};

use crate::links::add_links;
use crate::names::{any_in_use, names};
use crate::news::news;
use crate::values::add_values;
use ecore_meta::Metamodel;
use edit_steps::EditFault;
use model_documents::{Doc, DocRow};
use model_state::{Id, Look, Operation, Step};
use std::alloc::{AllocError, Global};
use texts::{List, Text};

/// The steps: the elements are created, then they get their values, then they are linked.
fn steps<L: Look>(
    alloc: Global,
    look: &L,
    meta: &Metamodel,
    names: &[Id],
    rows: &[DocRow],
) -> Result<List<Step>, EditFault>
    requires { length names.now ≡ length rows.now }
    ensures { Answers result (steps_made meta.now (L.state look.now) names.now rows.now) }
{
    match news(alloc, look, names, rows) {
        Err(fault) => Err(fault),
        Ok(news) => {
            let mut steps = news;
            if add_values(alloc, meta, names, rows, &mut steps).is_err() {
                return Err(EditFault::Memory);
            }
            if add_links(alloc, meta, names, rows, &mut steps).is_err() {
                return Err(EditFault::Memory);
            }
            Ok(steps)
        }
    }
}

fn composite(
    alloc: Global,
    rows: &[DocRow],
    steps: List<Step>,
) -> Result<Option<Operation>, AllocError>
    ensures { IfOk result (λ o. o ≡ composite rows.now steps) }
{
    match rows {
        [] => Ok(None),
        [_, ..] => Ok(Some(Operation::Composite {
            name: Text::new(alloc, "import")?,
            steps,
        })),
    }
}

/// What is recorded of a document with these ids.
fn recorded<L: Look>(
    alloc: Global,
    look: &L,
    meta: &Metamodel,
    names: &[Id],
    rows: &[DocRow],
) -> Result<Option<Operation>, EditFault>
    requires { length names.now ≡ length rows.now }
    ensures { Answers result (of_steps rows.now (steps_made meta.now (L.state look.now) names.now rows.now)) }
{
    match steps(alloc, look, meta, names, rows) {
        Err(fault) => Err(fault),
        Ok(steps) => match composite(alloc, rows, steps) {
            Err(_) => Err(EditFault::Memory),
            Ok(operation) => Ok(operation),
        },
    }
}

/// What is recorded of a document with the ids that its elements get.
fn imported<L: Look>(
    alloc: Global,
    look: &L,
    meta: &Metamodel,
    ws: u32,
    doc: &Doc,
) -> Result<Option<Operation>, EditFault>
    ensures { Imports meta.now (L.state look.now) ws doc.now.rows result }
{
    let rows = doc.rows.as_slice();
    if any_in_use(look, rows) {
        return Err(EditFault::IdInUse);
    }
    match names(alloc, look, rows, ws) {
        Err(_) => Err(EditFault::Memory),
        Ok(names) => recorded(alloc, look, meta, names.as_slice(), rows),
    }
}

/// Records that a document is brought in, as one composite of the name `import`. Its roots stand after the last element
/// at the root, and elements without an id get fresh ones of the workspace. A document without elements makes no
/// operation. The document fits the metamodel, as each does that was read with it: both sides of a reference are given,
/// in one order.
///
/// # Errors
///
/// `IdInUse` where the document gives an id that is live; `Bound` where the root is to be renumbered and has
/// `MOST_ENTRIES` elements or more; `Memory`.
pub fn import_doc<L: Look>(
    alloc: Global,
    look: &L,
    meta: &Metamodel,
    ws: u32,
    doc: &Doc,
) -> Result<Option<Operation>, EditFault>
    requires fits { DocumentFits meta.now doc.now.rows }
    ensures made { Imports meta.now (L.state look.now) ws doc.now.rows result }
    ensures recorded { Answers result (recorded_import meta.now (L.state look.now) ws doc.now.rows) }
{
    imported(alloc, look, meta, ws, doc)
}
