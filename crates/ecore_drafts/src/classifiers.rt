//! The symbol table of a package: its classes, enums and data types by name, each kind numbered by itself.
ghost use Rattle.std.specs.Prelude.{◌≡◌, ◌<◌, ◌+◌, ◌∷◌, [], false, IfOk, None, OnOk, Some, cond, length, map, slice_get};
ghost use Rattle.std.specs.Option.{option_copied};
ghost use Rattle.std.specs.Str.{bytes_eq};
ghost use Rattle.ecore_meta.specs.Names.{Name, has_repeat, number_of, place_in};
ghost use Rattle.ecore_meta.specs.Values.{or_else};
ghost use Rattle.ecore_drafts.specs.Document.{classifier_name, class_number, feature_names, feature_number, feature_total};
ghost use Rattle.ecore_drafts.specs.Classifiers.{AllPlaced, FitsIn, MayHave, Placed, class_in, classifier_named, number_at, number_in, numbered};
ghost use Rattle.ecore_drafts.specs.Counts.{too_many};

use crate::names::{classifier_names, index};
use crate::rows::{ClassifierRow, FeatureRow};
use std::alloc::{AllocError, Global};
use std::collections::BTreeMap;
use std::marker::Model;

/// What a name of the package stands for.
#[derive(Clone, Copy)]
pub(crate) enum Classifier {
    /// The class of that number; its own features are numbered from `first`.
    Class { number: u32, first: u32 },
    /// The enum of that number.
    Enum { number: u32, is_empty: bool },
    /// A data type.
    Plain,
}

/// The classifiers of a document by name. No name stands twice.
#[derive(Drop)]
pub struct Classifiers<'a> {
    rows: &'a [ClassifierRow],
    index: BTreeMap<&'a str, usize>,
    numbered: Vec<Classifier>,
    /// For each row, the place of each feature that it declares, by its name.
    own: Vec<BTreeMap<&'a str, usize>>,
}

impl<'a> Model for Classifiers<'a> {
    ghost use Rattle.ecore_drafts.specs.Document.{ClassifierRows};
    ghost use Rattle.ecore_drafts.specs.Classifiers.{Tells};

    ghost Value = { ClassifierRows };

    ghost view = { λ a. a.rows.now };

    ghost invariant = { λ a. Tells a.rows.now a.index a.numbered.items a.own.items };
}

impl<'a> Classifiers<'a> {
    /// `None` where a name stands twice.
    pub fn new(
        alloc: Global,
        rows: &'a [ClassifierRow],
    ) -> Result<Option<Classifiers<'a>>, AllocError>
        requires classifiers { length rows.now < too_many }
        requires features { feature_total rows.now < too_many }
        ensures { IfOk result (MayHave rows.now) }
    {
        let names = classifier_names(alloc, rows)?;
        let numbered = number(alloc, rows)?;
        let own = own_places(alloc, rows)?;
        match index(alloc, names.as_slice())? {
            None => Ok(None),
            Some(index) => Ok(Some(Classifiers {
                rows,
                index,
                numbered,
                own,
            })),
        }
    }

    /// What a name stands for, found in the index. No name stands twice.
    pub(crate) fn named(&self, name: &str) -> Option<Classifier>
        ensures found { result ≡ classifier_named self.now name.now }
        ensures apart { has_repeat (map classifier_name self.now) ≡ false }
    {
        match self.index.get(name) {
            None => None,
            Some(place) => at(self.numbered.as_slice(), *place),
        }
    }

    /// The number of the class of that name, `None` where the name is that of an enum or a data type, or of nothing.
    pub(crate) fn class_number(&self, name: &str) -> Option<u32>
        ensures { result ≡ class_number self.now name.now }
    {
        class_in(self.named(name))
    }
}

/// The number of a class, `None` for an enum, a data type or no classifier at all.
fn class_in(kind: Option<Classifier>) -> Option<u32>
    ensures { result ≡ class_in kind }
{
    match kind {
        Some(Classifier::Class { number, first: _ }) => Some(number),
        Some(
            Classifier::Enum {
                number: _,
                is_empty: _,
            },
        ) => None,
        Some(Classifier::Plain) => None,
        None => None,
    }
}

impl<'a> Classifiers<'a> {
    /// The number of the feature of that name that the class of that name itself declares.
    pub(crate) fn feature_number(&self, class: &str, feature: &str) -> Option<u32>
        ensures { result ≡ feature_number self.now class.now feature.now }
    {
        match self.index.get(class) {
            None => None,
            Some(place) => feature_at(
                self.rows,
                self.numbered.as_slice(),
                self.own.as_slice(),
                *place,
                feature,
            ),
        }
    }
}

/// The number, among the features of all classes, of the feature of that name that the class at a place declares.
fn feature_at(
    rows: &[ClassifierRow],
    kinds: &[Classifier],
    own: &[BTreeMap<&str, usize>],
    place: usize,
    feature: &str,
) -> Option<u32>
    requires kinds { kinds.now ≡ numbered 0 0 0 rows.now }
    requires few { feature_total rows.now < too_many }
    requires own { AllPlaced rows.now own.now }
    ensures { result ≡ number_at rows.now place feature.now }
{
    match row_at(rows, place) {
        Some(row) => match places_at(own, place) {
            Some(places) => number_in(row, at(kinds, place), places, feature),
            None => None,
        },
        None => None,
    }
}

/// The number of the feature of that name that one row declares: those of an enum or a data type are none.
fn number_in(
    row: &ClassifierRow,
    kind: Option<Classifier>,
    places: &BTreeMap<&str, usize>,
    feature: &str,
) -> Option<u32>
    requires fits { FitsIn row.now kind }
    requires places { Placed row.now places.now }
    ensures { result ≡ number_in (Some row.now) kind feature.now }
{
    match kind {
        None => None,
        Some(kind) => number_of_kind(row, kind, places, feature),
    }
}

/// The same of a row that has a number.
fn number_of_kind(
    row: &ClassifierRow,
    kind: Classifier,
    places: &BTreeMap<&str, usize>,
    feature: &str,
) -> Option<u32>
    requires fits { FitsIn row.now (Some kind) }
    requires places { Placed row.now places.now }
    ensures { result ≡ number_in (Some row.now) (Some kind) feature.now }
{
    match row {
        ClassifierRow::Class(_) => match kind {
            Classifier::Class { number: _, first } => match place_of(places, feature) {
                Some(n) => Some(first + n as u32),
                None => None,
            },
            Classifier::Enum {
                number: _,
                is_empty: _,
            } => None,
            Classifier::Plain => None,
        },
        ClassifierRow::Enum(_) => None,
        ClassifierRow::Plain(_) => None,
    }
}

/// What a row stands for, after so many classes, features and enums.
fn kind_of(row: &ClassifierRow, classes: u32, features: u32, enums: u32) -> Classifier
    ensures { numbered classes features enums (row.now ∷ []) ≡ result ∷ [] }
{
    match row {
        ClassifierRow::Class(_) => Classifier::Class {
            number: classes,
            first: features,
        },
        ClassifierRow::Enum(row) => Classifier::Enum {
            number: enums,
            is_empty: row.literals.len() == 0,
        },
        ClassifierRow::Plain(_) => Classifier::Plain,
    }
}

/// The classifiers in their order, each kind numbered by itself.
fn number(alloc: Global, rows: &[ClassifierRow]) -> Result<Vec<Classifier>, AllocError>
    requires classifiers { length rows.now < too_many }
    requires features { feature_total rows.now < too_many }
    ensures { IfOk result (λ v. v.items ≡ numbered 0 0 0 rows.now) }
{
    let mut numbered = Vec::new(alloc);
    let mut classes: u32 = 0;
    let mut features: u32 = 0;
    let mut enums: u32 = 0;
    for row in rows {
        numbered.push(kind_of(row, classes, features, enums))?;
        match row {
            ClassifierRow::Class(row) => {
                classes += 1;
                features += row.features.len() as u32;
            }
            ClassifierRow::Enum(_) => enums += 1,
            ClassifierRow::Plain(_) => {}
        }
    }
    Ok(numbered)
}

/// The row at a place, `None` past the end.
fn row_at(rows: &[ClassifierRow], place: usize) -> Option<&ClassifierRow>
    ensures { option_copied result ≡ slice_get rows.now place }
{
    rows.get(place)
}

/// The classifier at a place of the table of kinds, `None` past the end.
fn at(numbered: &[Classifier], place: usize) -> Option<Classifier>
    ensures { result ≡ slice_get numbered.now place }
{
    numbered.get(place).copied()
}

/// The place that an index has for a name, `None` where it has none.
fn place_of(places: &BTreeMap<&str, usize>, name: &str) -> Option<usize>
    ensures { result ≡ place_in places.now name.now }
{
    places.get(name).copied()
}

/// The index of features of the row at a place, `None` past the end.
fn places_at<'a, 'b>(
    own: &'b [BTreeMap<&'a str, usize>],
    place: usize,
) -> Option<&'b BTreeMap<&'a str, usize>>
    ensures { option_copied result ≡ slice_get own.now place }
{
    own.get(place)
}

/// Gives the name its place, where the index has none for it.
fn place<'a>(
    name: &'a str,
    at: usize,
    index: &mut BTreeMap<&'a str, usize>,
) -> Result<(), AllocError>
    ensures { OnOk result ((q : Name) → place_in index.new q ≡ or_else (place_in index.old q) (cond (bytes_eq q name.now) (Some at) None)) }
{
    if index.contains_key(name) {
        return Ok(());
    }
    index.insert(name, at)?;
    Ok(())
}

/// The place of each feature by its name, the first of several.
fn feature_places<'a>(
    alloc: Global,
    features: &'a [FeatureRow],
) -> Result<BTreeMap<&'a str, usize>, AllocError>
    ensures { IfOk result (λ m. (q : Name) → place_in m q ≡ number_of q (feature_names features.now)) }
{
    let mut index = BTreeMap::new(alloc);
    for (n, feature) in features.iter().enumerate() {
        place(feature.name.as_str(), n, &mut index)?;
    }
    Ok(index)
}

/// The place of each feature that one row declares, by its name: no entry for an enum or a data type.
fn row_places<'a>(
    alloc: Global,
    row: &'a ClassifierRow,
) -> Result<BTreeMap<&'a str, usize>, AllocError>
    ensures { IfOk result (Placed row.now) }
{
    match row {
        ClassifierRow::Class(row) => Ok(feature_places(alloc, row.features.as_slice())?),
        ClassifierRow::Enum(_) => Ok(BTreeMap::new(alloc)),
        ClassifierRow::Plain(_) => Ok(BTreeMap::new(alloc)),
    }
}

/// For each row, the places of the features that it declares.
fn own_places<'a>(
    alloc: Global,
    rows: &'a [ClassifierRow],
) -> Result<Vec<BTreeMap<&'a str, usize>>, AllocError>
    ensures { IfOk result (λ v. AllPlaced rows.now v.items) }
{
    let mut own = Vec::new(alloc);
    for row in rows {
        own.push(row_places(alloc, row)?)?;
    }
    Ok(own)
}
