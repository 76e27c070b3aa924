//! The enums of a metamodel by number, and their literals by number, by text and by name.
ghost use Rattle.std.specs.Prelude.{◌≡◌, ◌<◌, IfOk, length, slice_get, ◌^◌};
ghost use Rattle.std.specs.BTreeMap.{get_by_text};
ghost use Rattle.std.specs.Option.{option_and_then, option_copied};
ghost use Rattle.ecore_meta.specs.Typing.{literals_at, text_in};
ghost use Rattle.ecore_meta.specs.Values.{AreShort, literal_in};

use crate::indexes::{literal_indexes, number_in};
use crate::meta::{Enum, EnumLiteral};
use std::alloc::{AllocError, Global};
use std::collections::BTreeMap;
use std::marker::Model;

/// The enums of a metamodel, which contracts see as their list. The list gives each its number. A literal is found by its text or
/// name without a search.
#[derive(Drop)]
pub struct Enums {
    items: Vec<Enum>,
    /// For each enum, the number of each literal by its text, and by its name where that is no literal's text.
    literals: Vec<BTreeMap<String, u32>>,
}

impl Model for Enums {
    ghost use Rattle.std.specs.Prelude.{List};
    ghost use Rattle.ecore_meta.specs.Indexes.{HasLiterals};
    ghost use Rattle.ecore_meta.specs.declared.meta.Enum.{Enum};

    ghost Value = { List Enum };

    ghost view = { λ a. a.items.items };

    ghost invariant = { λ a. HasLiterals a.items.items a.literals.items };
}

fn enum_at(enums: &[Enum], number: u32) -> Option<&Enum>
    ensures { option_copied result ≡ slice_get enums.now number }
{
    enums.get(number as usize)
}

fn literal_at(literals: &[EnumLiteral], n: u32) -> Option<&EnumLiteral>
    ensures { option_copied result ≡ slice_get literals.now n }
{
    literals.get(n as usize)
}

fn text_in(literals: &[EnumLiteral], n: u32) -> &str
    ensures { result.now ≡ text_in literals.now n }
{
    match literal_at(literals, n) {
        None => "",
        Some(literal) => literal.text.as_str(),
    }
}

fn text_at(enums: &[Enum], e: u32, n: u32) -> &str
    ensures { result.now ≡ text_in (literals_at enums.now e) n }
{
    match enum_at(enums, e) {
        None => "",
        Some(found) => text_in(found.literals.as_slice(), n),
    }
}

fn count(enums: &[Enum], e: u32) -> u32
    requires short { AreShort enums.now }
    ensures { result ≡ length (literals_at enums.now e) }
{
    match enum_at(enums, e) {
        None => 0,
        Some(found) => found.literals.len() as u32,
    }
}

fn index_at(indexes: &[BTreeMap<String, u32>], n: u32) -> Option<&BTreeMap<String, u32>>
    ensures { option_copied result ≡ slice_get indexes.now n }
{
    indexes.get(n as usize)
}

fn number_at(indexes: &[BTreeMap<String, u32>], n: u32, name: &str) -> Option<u32>
    ensures { result ≡ option_and_then (λ m. get_by_text m name.now) (slice_get indexes.now n) }
{
    match index_at(indexes, n) {
        None => None,
        Some(index) => number_in(index, name),
    }
}

impl Enums {
    /// The enums of a list.
    pub fn new(alloc: Global, items: Vec<Enum>) -> Result<Enums, AllocError>
        requires few { length items.items < 2 ^ 32 }
        requires short { AreShort items.items }
        ensures { IfOk result (λ a. a ≡ items.items) }
    {
        let literals = literal_indexes(alloc, items.as_slice())?;
        Ok(Enums { items, literals })
    }

    /// How many there are; they are numbered from 0.
    pub fn len(&self) -> u32
        ensures { result ≡ length self.now }
    {
        self.items.len() as u32
    }

    /// The enum of that number, where there is one.
    pub fn get(&self, e: u32) -> Option<&Enum>
        ensures { option_copied result ≡ slice_get self.now e }
    {
        enum_at(self.items.as_slice(), e)
    }

    /// How many literals an enum has; none where there is no such enum.
    pub fn literal_count(&self, e: u32) -> u32
        ensures { result ≡ length (literals_at self.now e) }
    {
        count(self.items.as_slice(), e)
    }

    /// The text that stands for a literal of an enum in a model, empty for numbers that are none.
    pub fn literal_text(&self, e: u32, n: u32) -> &str
        ensures { result.now ≡ text_in (literals_at self.now e) n }
    {
        text_at(self.items.as_slice(), e, n)
    }

    /// The literal of an enum that has this text, or else the one that has this name.
    pub fn literal_named(&self, e: u32, text: &str) -> Option<u32>
        ensures { result ≡ literal_in (literals_at self.now e) text.now }
    {
        number_at(self.literals.as_slice(), e, text)
    }
}
