//! The reading of an Ecore document: JSON, then the package, then its first fault, then its metamodel.
ghost use Rattle.std.specs.Prelude.{◌≡◌, ◌<◌, ◌-◌, ◌^◌, Some, length, option_map};
ghost use Rattle.serde_json.specs.View.{view};
ghost use Rattle.serde_json.specs.Find.{as_array};
ghost use Rattle.ecore_drafts.specs.Counts.{Numbered};
ghost use Rattle.ecore_build.specs.Faults.{fault};
ghost use Rattle.ecore_drafts.specs.Fit.{NamesFit};
ghost use Rattle.ecore_json.specs.Metamodel.{root_of, package_of, built, of_package, metamodel_of, GivesMetamodel};
ghost use Rattle.ecore_json.specs.Rows.{rows_of};

use crate::ecore;
use crate::fault::{EcoreFault, WalkFault, of_meta};
use crate::rows::{own_prefix, rows_of};
use crate::table::Position;
use crate::walk::{is_a, object_fault};
use ecore_build::{MetaRows, build};
use ecore_meta::Metamodel;
use serde_json::Value;
use std::alloc::Global;

/// The object that a document is: itself, or the only value of an array.
fn root_of(document: &Value) -> Option<&Value>
    ensures { option_map (λ v. view v.now) result ≡ root_of (view document.now) (as_array (view document.now)) }
{
    match document.as_array() {
        None => Some(document),
        Some(values) => match values.as_slice() {
            [] => None,
            [root] => Some(root),
            [_, _, ..] => None,
        },
    }
}

fn package_of(document: &Value) -> Option<&Value>
    ensures { option_map (λ v. view v.now) result ≡ package_of (view document.now) }
{
    match root_of(document) {
        None => None,
        Some(root) => {
            if is_a(ecore::PACKAGE, root) {
                Some(root)
            } else {
                None
            }
        }
    }
}

/// The metamodel of the rows, or their first fault.
fn built(alloc: Global, rows: &MetaRows) -> Result<Metamodel, EcoreFault>
    requires numbered { Numbered rows.now.classifiers }
    requires fit { NamesFit rows.now.classifiers }
    ensures { GivesMetamodel result (built (fault rows.now.classifiers) rows.now) }
{
    match build(alloc, rows) {
        Ok(metamodel) => Ok(metamodel),
        Err(fault) => Err(of_meta(fault)),
    }
}

/// The metamodel that a package describes, or its first fault.
fn of_package(alloc: Global, root: &Value) -> Result<Metamodel, EcoreFault>
    requires { Numbered (rows_of (view root.now)).classifiers }
    ensures { GivesMetamodel result (of_package (Some (view root.now))) }
{
    let own = own_prefix(alloc, root)?;
    match object_fault(own.as_str(), Position::Root, root) {
        Some(WalkFault::BadKey) => Err(EcoreFault::BadKey),
        Some(WalkFault::LeftOut) => Err(EcoreFault::LeftOut),
        None => {
            let rows = rows_of(alloc, own.as_str(), root)?;
            built(alloc, &rows)
        }
    }
}

/// The metamodel that the text of an Ecore document describes, or its first fault.
#[tactic(auto, unfolding(crate::specs::Metamodel::metamodel_of))]
pub fn read_metamodel(alloc: Global, text: &str) -> Result<Metamodel, EcoreFault>
    requires short { length text.now < 2 ^ 32 - 1 }
    ensures read { GivesMetamodel result (metamodel_of text.now) }
{
    match Value::from_str(alloc, text) {
        Err(error) => {
            if error.is_memory() {
                Err(EcoreFault::Memory)
            } else {
                Err(EcoreFault::NotJson)
            }
        }
        Ok(document) => match package_of(&document) {
            None => Err(EcoreFault::NotPackage),
            Some(root) => of_package(alloc, root),
        },
    }
}
