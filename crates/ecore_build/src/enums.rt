//! The enums of a document with their literals.
ghost use Rattle.std.specs.Prelude.{◌≡◌, IfOk, map};
ghost use Rattle.ecore_build.specs.Faults.{enums_in, literal};
ghost use Rattle.ecore_drafts.specs.Counts.{Numbered};

use ecore_drafts::{ClassifierRow, LiteralRow};
use ecore_meta::{Enum, EnumLiteral, Enums};
use std::alloc::{AllocError, Global};
use texts::List;

/// A literal by its name and its text.
fn literal(alloc: Global, row: &LiteralRow) -> Result<EnumLiteral, AllocError>
    ensures { IfOk result (λ l. l ≡ literal row.now) }
{
    let name = row.name.copy(alloc)?;
    let text = row.literal.copy(alloc)?;
    Ok(EnumLiteral { name, text })
}

/// The literals of an enum, in their order.
fn all_literals(alloc: Global, rows: &[LiteralRow]) -> Result<Vec<EnumLiteral>, AllocError>
    ensures { IfOk result (λ v. v.items ≡ map literal rows.now) }
{
    let mut literals = Vec::new(alloc);
    for row in rows {
        literals.push(literal(alloc, row)?)?;
    }
    Ok(literals)
}

/// The enums in their order.
fn all_enums(alloc: Global, rows: &[ClassifierRow]) -> Result<Vec<Enum>, AllocError>
    ensures { IfOk result (λ v. v.items ≡ enums_in rows.now) }
{
    let mut enums = Vec::new(alloc);
    for row in rows {
        match row {
            ClassifierRow::Enum(row) => {
                enums.push(Enum {
                    name: row.name.copy(alloc)?,
                    literals: List::from_vec(all_literals(alloc, row.literals.as_slice())?),
                })?;
            }
            ClassifierRow::Class(_) => {}
            ClassifierRow::Plain(_) => {}
        }
    }
    Ok(enums)
}

/// The enums with their names and literals.
pub(crate) fn enums_of(alloc: Global, rows: &[ClassifierRow]) -> Result<Enums, AllocError>
    requires { Numbered rows.now }
    ensures { IfOk result (λ a. a ≡ enums_in rows.now) }
{
    let items = all_enums(alloc, rows)?;
    Enums::new(alloc, items)
}
