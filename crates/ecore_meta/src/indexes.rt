//! Indexes of names: of the classes of a metamodel, and of the literals of its enums.
ghost use Rattle.std.specs.Prelude.{◌≡◌, ◌<◌, IfOk, IsSome, None, OnOk, Some, cond, length, map, ◌^◌};
ghost use Rattle.std.specs.BTreeMap.{get_by_text};
ghost use Rattle.std.specs.Str.{bytes_eq};
ghost use Rattle.ecore_meta.specs.Indexes.{AllKnown};
ghost use Rattle.ecore_meta.specs.Names.{Name, number_of};
ghost use Rattle.ecore_meta.specs.Values.{AreShort, literal_in, or_else};

use crate::meta::{Class, Enum, EnumLiteral};
use std::alloc::{AllocError, Global};
use std::collections::BTreeMap;

/// Gives the name its number, where the index has none for it.
pub(crate) fn enter(
    alloc: Global,
    name: &str,
    number: u32,
    index: &mut BTreeMap<String, u32>,
) -> Result<(), AllocError>
    ensures { OnOk result ((q : Name) → get_by_text index.new q ≡ or_else (get_by_text index.old q) (cond (bytes_eq q name.now) (Some number) None)) }
{
    if index.contains_key(name) {
        return Ok(());
    }
    let key = String::from_str(alloc, name)?;
    index.insert(key, number)?;
    Ok(())
}

/// The number of each class by its name.
pub(crate) fn class_index(
    alloc: Global,
    classes: &[Class],
) -> Result<BTreeMap<String, u32>, AllocError>
    requires { length classes.now < 2 ^ 32 }
    ensures { IfOk result (λ m. (q : Name) → get_by_text m q ≡ number_of q (map (λ c. c.name) classes.now)) }
{
    let mut index = BTreeMap::new(alloc);
    for (n, class) in classes.iter().enumerate() {
        enter(alloc, class.name.as_str(), n as u32, &mut index)?;
    }
    Ok(index)
}

fn enter_texts(
    alloc: Global,
    literals: &[EnumLiteral],
    index: &mut BTreeMap<String, u32>,
) -> Result<(), AllocError>
    requires { length literals.now < 2 ^ 32 }
    ensures { OnOk result ((q : Name) → get_by_text index.new q ≡ or_else (get_by_text index.old q) (number_of q (map (λ l. l.text) literals.now))) }
{
    for (n, literal) in literals.iter().enumerate() {
        enter(alloc, literal.text.as_str(), n as u32, index)?;
    }
    Ok(())
}

/// Enters the name of a literal whose text has a number. A name that is the text needs no search.
fn enter_name(
    alloc: Global,
    literal: &EnumLiteral,
    number: u32,
    index: &mut BTreeMap<String, u32>,
) -> Result<(), AllocError>
    requires { IsSome (get_by_text index.old literal.now.text) }
    ensures { OnOk result ((q : Name) → get_by_text index.new q ≡ or_else (get_by_text index.old q) (cond (bytes_eq q literal.now.name) (Some number) None)) }
{
    if literal.name == literal.text {
        return Ok(());
    }
    enter(alloc, literal.name.as_str(), number, index)
}

/// Enters the names of literals whose texts have numbers.
fn enter_names(
    alloc: Global,
    literals: &[EnumLiteral],
    index: &mut BTreeMap<String, u32>,
) -> Result<(), AllocError>
    requires few { length literals.now < 2 ^ 32 }
    requires texts { (q : Name) → get_by_text index.old q ≡ number_of q (map (λ l. l.text) literals.now) }
    ensures { OnOk result ((q : Name) → get_by_text index.new q ≡ literal_in literals.now q) }
{
    for (n, literal) in literals.iter().enumerate() {
        enter_name(alloc, literal, n as u32, index)?;
    }
    Ok(())
}

/// The number of each literal of an enum by its text, and by its name where that is no literal's text.
fn literal_index(
    alloc: Global,
    literals: &[EnumLiteral],
) -> Result<BTreeMap<String, u32>, AllocError>
    requires { length literals.now < 2 ^ 32 }
    ensures { IfOk result (λ m. (q : Name) → get_by_text m q ≡ literal_in literals.now q) }
{
    let mut index = BTreeMap::new(alloc);
    enter_texts(alloc, literals, &mut index)?;
    enter_names(alloc, literals, &mut index)?;
    Ok(index)
}

/// The same of each enum.
pub(crate) fn literal_indexes(
    alloc: Global,
    enums: &[Enum],
) -> Result<Vec<BTreeMap<String, u32>>, AllocError>
    requires { AreShort enums.now }
    ensures { IfOk result (λ v. AllKnown enums.now v.items) }
{
    let mut indexes = Vec::new(alloc);
    for found in enums {
        indexes.push(literal_index(alloc, found.literals.as_slice())?)?;
    }
    Ok(indexes)
}

/// The number that the index has for the name.
pub(crate) fn number_in(index: &BTreeMap<String, u32>, name: &str) -> Option<u32>
    ensures { result ≡ get_by_text index.now name.now }
{
    index.get(name).copied()
}
