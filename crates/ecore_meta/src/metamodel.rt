//! A metamodel, and its questions: classes and features by number and by name, subtyping, literals, defaults.
ghost use Rattle.std.specs.Prelude.{◌≡◌, ◌<◌, IfOk, length, slice_get, Some};
ghost use Rattle.std.specs.Option.{option_copied, option_map};
ghost use Rattle.ecore_meta.specs.Meta.{class_named, feature_named, features_of, has_feature, is_a};
ghost use Rattle.ecore_meta.specs.Promised.{IsMetamodel};
ghost use Rattle.ecore_meta.specs.Sound.{Sound};
ghost use Rattle.ecore_meta.specs.Typing.{literal_count, literal_text, literals_of};
ghost use Rattle.ecore_meta.specs.Holds.{Holds};
ghost use Rattle.ecore_meta.specs.Parts.{meta_in};
ghost use Rattle.ecore_meta.specs.Values.{literal_in};

use crate::above::{is_in, set_at};
use crate::enums::Enums;
use crate::feature_index::{feature_indexes, feature_of, name_index};
use crate::indexes::{class_index, number_in};
use crate::meta::{Class, Enum, Feature};
use std::alloc::{AllocError, Global};
use std::collections::{BTreeMap, BTreeSet};
use std::marker::Model;
use texts::Text;

/// A metamodel, which contracts see as its classes, the classes above each, its features and its enums.
#[derive(Drop)]
pub struct Metamodel {
    uri: Text,
    classes: Vec<Class>,
    features: Vec<Feature>,
    /// Each class and all those above it.
    above: Vec<BTreeSet<u32>>,
    enums: Enums,
    /// The number of each class by its name.
    class_index: BTreeMap<String, u32>,
    /// The number of each name of a feature.
    feature_names: BTreeMap<String, u32>,
    /// For each class, its features by the numbers of their names.
    feature_index: Vec<BTreeMap<u32, u32>>,
}

/// The parts of a metamodel, all but its indexes.
#[derive(Drop)]
pub struct Parts {
    pub uri: Text,
    pub classes: Vec<Class>,
    /// Each class and all those above it.
    pub above: Vec<BTreeSet<u32>>,
    pub features: Vec<Feature>,
    pub enums: Enums,
}

impl Model for Metamodel {
    ghost use Rattle.std.specs.Prelude.{map};
    ghost use Rattle.ecore_meta.specs.Meta.{Meta};
    ghost use Rattle.ecore_meta.specs.Indexes.{Keeps};

    ghost Value = { Meta };

    ghost view = { λ a. record { uri = a.uri; classes = a.classes.items; above = map (λ s. s.keys) a.above.items; features = a.features.items; enums = a.enums } };

    ghost invariant = { λ a. Keeps (record { uri = a.uri; classes = a.classes.items; above = map (λ s. s.keys) a.above.items; features = a.features.items; enums = a.enums }) a.class_index a.feature_names a.feature_index.items };
}

impl Metamodel {
    /// The metamodel of its parts, with indexes of its classes and features by name.
    pub fn of_parts(alloc: Global, parts: Parts) -> Result<Metamodel, AllocError>
        requires { Holds (meta_in parts) }
        ensures { IfOk result (λ m. m ≡ meta_in parts) }
    {
        let class_index = class_index(alloc, parts.classes.as_slice())?;
        let features = parts.features.as_slice();
        let feature_names = name_index(alloc, features)?;
        let feature_index = feature_indexes(
            alloc,
            &feature_names,
            features,
            parts.classes.as_slice(),
        )?;
        Ok(Metamodel {
            uri: parts.uri,
            classes: parts.classes,
            features: parts.features,
            above: parts.above,
            enums: parts.enums,
            class_index,
            feature_names,
            feature_index,
        })
    }

    /// The namespace URI.
    pub fn uri(&self) -> &str
        ensures { result.now ≡ self.now.uri }
    {
        self.uri.as_str()
    }

    /// How many classes there are; they are numbered from 0.
    pub fn class_count(&self) -> u32
        ensures { result ≡ length self.now.classes }
    {
        self.classes.len() as u32
    }

    /// How many features all classes declare; they are numbered from 0.
    pub fn feature_count(&self) -> u32
        ensures { result ≡ length self.now.features }
    {
        self.features.len() as u32
    }

    /// How many enums there are; they are numbered from 0.
    pub fn enum_count(&self) -> u32
        ensures { result ≡ length self.now.enums }
    {
        self.enums.len()
    }

    /// How many literals an enum has.
    pub fn literal_count(&self, e: u32) -> u32
        requires { e < length self.now.enums }
        ensures { result ≡ literal_count self.now e }
    {
        self.enums.literal_count(e)
    }

    /// The text that stands for a literal of an enum in a model.
    pub fn literal_text(&self, e: u32, n: u32) -> &str
        requires there { e < length self.now.enums }
        requires literal { n < literal_count self.now e }
        ensures { result.now ≡ literal_text self.now e n }
    {
        self.enums.literal_text(e, n)
    }

    /// The law of opposites of links. Each names the other back, none is its own, and what one side may link the other
    /// may link back. A holder of any metamodel has it by this call, which does nothing.
    pub fn recall_soundness(&self)
        ensures { Sound self.now }
    {
        // For what the type's invariant says.
        let _uri = &self.uri;
    }

    /// What holds of every metamodel. It tells of classes above classes, of lists of features, of opposites of both
    /// sorts, of names, of bounds, and of what features name. A holder of any metamodel has it by this call, which does
    /// nothing.
    pub fn recall_promises(&self)
        ensures { IsMetamodel self.now }
    {
        // For what the type's invariant says.
        let _uri = &self.uri;
    }

    /// The enum of that number, where there is one.
    pub fn get_enum(&self, e: u32) -> Option<&Enum>
        ensures { option_copied result ≡ slice_get self.now.enums e }
    {
        self.enums.get(e)
    }

    /// The numbers of a class and of all classes above it; none where there is no such class.
    pub fn above(&self, c: u32) -> Option<&BTreeSet<u32>>
        ensures { option_map (λ s. s.keys) (option_copied result) ≡ slice_get self.now.above c }
    {
        set_at(self.above.as_slice(), c)
    }

    /// Whether the class c is d, or d is above it.
    pub fn is_a(&self, c: u32, d: u32) -> bool
        ensures { result ≡ is_a self.now c d }
    {
        is_in(self.above.as_slice(), c, d)
    }

    /// Whether the class has the feature, its own or inherited.
    pub fn has_feature(&self, c: u32, f: u32) -> bool
        ensures { result ≡ has_feature self.now c f }
    {
        // For the lists of features, of which the table tells.
        self.recall_promises();
        match self.get_feature(f) {
            None => false,
            Some(feature) => self.is_a(c, feature.owner),
        }
    }

    /// The class of that number, where there is one.
    pub fn get_class(&self, n: u32) -> Option<&Class>
        ensures { option_copied result ≡ slice_get self.now.classes n }
    {
        self.classes.get(n as usize)
    }

    /// The feature of that number, where there is one.
    pub fn get_feature(&self, n: u32) -> Option<&Feature>
        ensures { option_copied result ≡ slice_get self.now.features n }
    {
        self.features.get(n as usize)
    }

    /// The numbers of the features of a class, its own and inherited, rising; none where there is no such class.
    pub fn features_of(&self, class: u32) -> &[u32]
        ensures { result.now ≡ features_of self.now class }
    {
        match self.get_class(class) {
            None => &[],
            Some(class) => class.features.as_slice(),
        }
    }

    /// The class of that number.
    pub fn class(&self, n: u32) -> &Class
        requires { n < length self.now.classes }
        ensures { slice_get self.now.classes n ≡ Some result.now }
    {
        &self.classes[n as usize]
    }

    /// The feature of that number.
    pub fn feature(&self, n: u32) -> &Feature
        requires { n < length self.now.features }
        ensures { slice_get self.now.features n ≡ Some result.now }
    {
        &self.features[n as usize]
    }
}

impl Metamodel {
    /// The class of that name.
    pub fn class_named(&self, name: &str) -> Option<u32>
        ensures { result ≡ class_named self.now name.now }
    {
        number_in(&self.class_index, name)
    }

    /// The literal of an enum that has this text, or else the one that has this name.
    pub fn literal_named(&self, e: u32, text: &str) -> Option<u32>
        ensures { result ≡ literal_in (literals_of self.now e) text.now }
    {
        self.enums.literal_named(e, text)
    }
}

impl Metamodel {
    /// The feature of that name that the class has, its own or inherited.
    pub fn feature_named(&self, class: u32, name: &str) -> Option<u32>
        ensures { result ≡ feature_named self.now class name.now }
    {
        match number_in(&self.feature_names, name) {
            None => None,
            Some(id) => feature_of(self.feature_index.as_slice(), class, id),
        }
    }
}
