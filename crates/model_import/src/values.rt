//! The attribute values of an import, as steps.
ghost use Rattle.std.specs.Prelude.{◌≡◌, ◌++◌, OnOk, length};
ghost use Rattle.import_laws.specs.Values.{attr_made, attrs_made, inserts_made, put_made, values_made};

use crate::names::name_at;
use ecore_meta::{Metamodel, Value};
use model_documents::{DocAttr, DocRow};
use model_state::{Id, Step, is_attr};
use std::alloc::{AllocError, Global};
use texts::List;

fn add_put(
    alloc: Global,
    e: &Id,
    f: u32,
    values: &[Value],
    steps: &mut List<Step>,
) -> Result<(), AllocError>
    ensures { OnOk result (steps.new ≡ steps.old ++ put_made e.now f values.now) }
{
    match values.first() {
        None => Ok(()),
        Some(value) => {
            steps.push(Step::Put {
                e: e.copy(alloc)?,
                f,
                old: None,
                new: Some(value.copy(alloc)?),
            })?;
            Ok(())
        }
    }
}

fn add_inserts(
    alloc: Global,
    e: &Id,
    f: u32,
    values: &[Value],
    steps: &mut List<Step>,
) -> Result<(), AllocError>
    ensures { OnOk result (steps.new ≡ steps.old ++ inserts_made e.now f 0 values.now) }
{
    let mut at: u32 = 0;
    for value in values {
        steps.push(Step::Ins {
            e: e.copy(alloc)?,
            f,
            at,
            v: value.copy(alloc)?,
        })?;
        at = at.checked_add(1).ok_or(AllocError)?;
    }
    Ok(())
}

fn add_attr(
    alloc: Global,
    meta: &Metamodel,
    e: &Id,
    attr: &DocAttr,
    steps: &mut List<Step>,
) -> Result<(), AllocError>
    ensures { OnOk result (steps.new ≡ steps.old ++ attr_made meta.now e.now attr.now) }
{
    if is_attr(meta, attr.feature) {
        add_put(alloc, e, attr.feature, attr.values.as_slice(), steps)
    } else {
        add_inserts(alloc, e, attr.feature, attr.values.as_slice(), steps)
    }
}

fn add_attrs(
    alloc: Global,
    meta: &Metamodel,
    e: &Id,
    attrs: &[DocAttr],
    steps: &mut List<Step>,
) -> Result<(), AllocError>
    ensures { OnOk result (steps.new ≡ steps.old ++ attrs_made meta.now e.now attrs.now) }
{
    for attr in attrs {
        add_attr(alloc, meta, e, attr, steps)?;
    }
    Ok(())
}

/// The steps in which the elements of a document get their values.
pub(crate) fn add_values(
    alloc: Global,
    meta: &Metamodel,
    names: &[Id],
    rows: &[DocRow],
    steps: &mut List<Step>,
) -> Result<(), AllocError>
    requires { length names.now ≡ length rows.now }
    ensures { OnOk result (steps.new ≡ steps.old ++ values_made meta.now names.now rows.now) }
{
    for (n, row) in rows.iter().enumerate() {
        add_attrs(alloc, meta, name_at(names, n), row.attrs.as_slice(), steps)?;
    }
    Ok(())
}
