//! The direct supertypes of each class by number, those that are none of the document, and their closure: all classes above
//! a class.
ghost use Rattle.std.specs.Prelude.{◌≡◌, ◌<◌, ◌∷◌, [], ℕ, IfOk, OnOk, is_some, length, map, not};
ghost use Rattle.std.specs.Ordering.{nat_cmp};
ghost use Rattle.std.specs.List.{filter, filter_map, list_any, range_with_len};
ghost use Rattle.std.specs.BTreeSet.{contains};
ghost use Rattle.ecore_drafts.specs.Document.{class_number, lacks_super, supers_in};
ghost use Rattle.ecore_drafts.specs.Supers.{is_above, Inside, Reached, Grown};

use crate::classifiers::Classifiers;
use crate::rows::ClassifierRow;
use std::alloc::{AllocError, Global};
use std::collections::BTreeSet;
use texts::Text;

impl<'a> Classifiers<'a> {
    /// The numbers of the classes of those names; what is no class is left out.
    fn class_numbers(&self, alloc: Global, names: &[Text]) -> Result<Vec<u32>, AllocError>
        ensures { IfOk result (λ v. v.items ≡ filter_map (class_number self.now) names.now) }
    {
        let mut numbers = Vec::new(alloc);
        for name in names {
            match self.class_number(name.as_str()) {
                Some(number) => numbers.push(number)?,
                None => {}
            }
        }
        Ok(numbers)
    }

    /// The direct supertypes of each class.
    pub fn supers(&self, alloc: Global, rows: &[ClassifierRow]) -> Result<Vec<Vec<u32>>, AllocError>
        ensures { IfOk result (λ v. map (λ ups. ups.items) v.items ≡ supers_in self.now rows.now) }
    {
        let mut supers = Vec::new(alloc);
        for row in rows {
            match row {
                ClassifierRow::Class(row) => {
                    supers.push(self.class_numbers(alloc, row.supers.as_slice())?)?;
                }
                ClassifierRow::Enum(_) => {}
                ClassifierRow::Plain(_) => {}
            }
        }
        Ok(supers)
    }

    /// Whether one of the names is no class of the document.
    fn lacks_one(&self, names: &[Text]) -> bool
        ensures { result ≡ list_any (λ t. not (is_some (class_number self.now t))) names.now }
    {
        for name in names {
            if self.class_number(name.as_str()).is_none() {
                return true;
            }
        }
        false
    }

    /// Whether the row is a class that names a supertype which is no class of the document.
    fn lacks_super(&self, row: &ClassifierRow) -> bool
        ensures { result ≡ lacks_super self.now row.now }
    {
        match row {
            ClassifierRow::Class(row) => self.lacks_one(row.supers.as_slice()),
            ClassifierRow::Enum(_) => false,
            ClassifierRow::Plain(_) => false,
        }
    }

    /// Whether some class names a supertype that is no class of the document.
    pub fn any_lacks_super(&self, rows: &[ClassifierRow]) -> bool
        ensures { result ≡ list_any (lacks_super self.now) rows.now }
    {
        for row in rows {
            if self.lacks_super(row) {
                return true;
            }
        }
        false
    }
}

/// Adds a class to those seen and to those reached, where it was not yet seen.
fn reach(up: u32, seen: &mut BTreeSet<u32>, reached: &mut Vec<u32>) -> Result<(), AllocError>
    requires { Reached seen.old reached.old.items }
    ensures kept { OnOk result (Reached seen.new reached.new.items) }
    ensures grown { OnOk result (Grown (up ∷ []) reached.old.items reached.new.items) }
{
    if seen.contains(&up) {
        return Ok(());
    }
    seen.insert(up)?;
    reached.push(up)?;
    Ok(())
}

/// Adds classes to those seen and to those reached, in their order.
fn reach_all(
    ups: &[u32],
    seen: &mut BTreeSet<u32>,
    reached: &mut Vec<u32>,
) -> Result<(), AllocError>
    requires { Reached seen.old reached.old.items }
    ensures kept { OnOk result (Reached seen.new reached.new.items) }
    ensures grown { OnOk result (Grown ups.now reached.old.items reached.new.items) }
{
    for up in ups {
        reach(*up, seen, reached)?;
    }
    Ok(())
}

/// The class and all those above it.
pub(crate) fn above(
    alloc: Global,
    supers: &[Vec<u32>],
    class: u32,
) -> Result<BTreeSet<u32>, AllocError>
    requires inside { Inside (map (λ ups. ups.items) supers.now) }
    requires class { class < length supers.now }
    ensures has { IfOk result (λ s. (d : ℕ) → contains nat_cmp s d ≡ is_above (map (λ ups. ups.items) supers.now) class d) }
    ensures rising { IfOk result (λ s. s.keys ≡ filter (is_above (map (λ ups. ups.items) supers.now) class) (range_with_len 0 (length supers.now))) }
{
    let mut seen = BTreeSet::new(alloc);
    let mut reached = Vec::new(alloc);
    seen.insert(class)?;
    reached.push(class)?;
    let mut next = 0;
    while next < reached.len() {
        let ups = supers[reached[next] as usize].as_slice();
        reach_all(ups, &mut seen, &mut reached)?;
        next += 1;
    }
    Ok(seen)
}
