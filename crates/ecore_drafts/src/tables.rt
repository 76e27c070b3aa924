//! The tables of inheritance: all classes above each class, cycles among them, and the features that each class
//! declares.
ghost use Rattle.std.specs.Prelude.{◌≡◌, ◌<◌, ◌+◌, IfOk, length, map, ◌^◌};
ghost use Rattle.std.specs.List.{list_any, range_with_len};
ghost use Rattle.ecore_drafts.specs.Document.{feature_total, own_features};
ghost use Rattle.ecore_drafts.specs.Supers.{super_cycle, Inside, all_above};
ghost use Rattle.ecore_meta.specs.Meta.{is_in};
ghost use Rattle.ecore_drafts.specs.Counts.{too_many};

use crate::rows::ClassifierRow;
use crate::supers::above;
use ecore_meta::is_in;
use std::alloc::{AllocError, Global};
use std::collections::BTreeSet;

/// For each class, itself and all those above it.
pub fn all_above(alloc: Global, supers: &[Vec<u32>]) -> Result<Vec<BTreeSet<u32>>, AllocError>
    requires inside { Inside (map (λ ups. ups.items) supers.now) }
    requires few { length supers.now < 2 ^ 32 }
    ensures { IfOk result (λ v. map (λ s. s.keys) v.items ≡ all_above (map (λ ups. ups.items) supers.now)) }
{
    let mut table = Vec::new(alloc);
    for class in 0..supers.len() {
        table.push(above(alloc, supers, class as u32)?)?;
    }
    Ok(table)
}

/// Whether some of the classes `ups` is that class or one below it; `above` has for each class itself and those above.
fn any_below(above: &[BTreeSet<u32>], ups: &[u32], class: u32) -> bool
    ensures { result ≡ list_any (λ b. is_in (map (λ s. s.keys) above.now) b class) ups.now }
{
    for up in ups {
        if is_in(above, *up, class) {
            return true;
        }
    }
    false
}

/// Whether a class is above itself.
pub fn any_cycle(supers: &[Vec<u32>], above: &[BTreeSet<u32>]) -> bool
    requires above { map (λ s. s.keys) above.now ≡ all_above (map (λ ups. ups.items) supers.now) }
    requires inside { Inside (map (λ ups. ups.items) supers.now) }
    requires few { length supers.now < 2 ^ 32 }
    ensures { result ≡ super_cycle (map (λ ups. ups.items) supers.now) }
{
    for (class, ups) in supers.iter().enumerate() {
        if any_below(above, ups.as_slice(), class as u32) {
            return true;
        }
    }
    false
}

/// The numbers from `first` on, as many as `count`: those of the features that one class declares.
fn numbers(alloc: Global, first: u32, count: usize) -> Result<Vec<u32>, AllocError>
    requires { first + count < 2 ^ 32 }
    ensures { IfOk result (λ v. v.items ≡ range_with_len first count) }
{
    let mut numbers = Vec::new(alloc);
    for n in 0..count {
        numbers.push(first + n as u32)?;
    }
    Ok(numbers)
}

/// The numbers of the features that each class itself declares.
pub fn own_features(alloc: Global, rows: &[ClassifierRow]) -> Result<Vec<Vec<u32>>, AllocError>
    requires { feature_total rows.now < too_many }
    ensures { IfOk result (λ v. map (λ fs. fs.items) v.items ≡ own_features rows.now) }
{
    let mut own = Vec::new(alloc);
    let mut first: u32 = 0;
    for row in rows {
        match row {
            ClassifierRow::Class(row) => {
                own.push(numbers(alloc, first, row.features.len())?)?;
                first += row.features.len() as u32;
            }
            ClassifierRow::Enum(_) => {}
            ClassifierRow::Plain(_) => {}
        }
    }
    Ok(own)
}
