//! The rows of a document: classifiers, features and literals as they are written, with unresolved names.
ghost use Rattle.std.specs.Prelude.{◌≡◌};
ghost use Rattle.ecore_drafts.specs.Document.{classifier_name};

use texts::{List, Text};

/// What a document says of a package, in its order: the classifiers by name, and names still to be resolved.
#[derive(Drop)]
pub struct MetaRows {
    pub name: Text,
    /// The namespace URI, by which a model text names the package's classes.
    pub uri: Text,
    pub classifiers: List<ClassifierRow>,
}

/// A classifier as a document describes it.
#[derive(Drop)]
pub enum ClassifierRow {
    Class(ClassRow),
    Enum(EnumRow),
    /// A data type of the package, by its name: its values are texts.
    Plain(Text),
}

/// A class as a document describes it: its supertypes and the types of its features are names, which may be none of the document's.
#[derive(Drop)]
pub struct ClassRow {
    pub name: Text,
    pub is_abstract: bool,
    /// The names of the direct supertypes.
    pub supers: List<Text>,
    /// The features that the class itself declares.
    pub features: List<FeatureRow>,
}

/// An enum as a document describes it, with its literals in their order.
#[derive(Drop)]
pub struct EnumRow {
    pub name: Text,
    pub literals: List<LiteralRow>,
}

/// A literal of an enum as a document describes it.
#[derive(Drop)]
pub struct LiteralRow {
    pub name: Text,
    /// Ecore's number of the literal; the metamodel doesn't keep it.
    pub value: i64,
    /// The text that stands for the literal in a model.
    pub literal: Text,
}

/// The name of a feature's type.
#[derive(Drop)]
pub enum TypeName {
    /// A classifier of the package itself.
    Own(Text),
    /// A data type of Ecore, as `EString`.
    Ecore(Text),
}

/// The name of an opposite: a class of the package, and a feature that it declares.
#[derive(Drop)]
pub struct OppositeRow {
    pub class: Text,
    pub feature: Text,
}

/// An attribute or a reference as a document describes it; the names in it may be none of the document's.
#[derive(Drop)]
pub struct FeatureRow {
    pub name: Text,
    pub is_reference: bool,
    pub target: TypeName,
    pub lower: i64,
    /// The most values, -1 for no bound.
    pub upper: i64,
    pub unique: bool,
    pub containment: bool,
    pub opposite: Option<OppositeRow>,
    pub default_text: Option<Text>,
    /// Volatile, transient or derived: the feature holds nothing.
    pub skipped: bool,
}

impl ClassifierRow {
    /// The name under which other rows refer to the classifier.
    pub fn name(&self) -> &str
        ensures { result.now ≡ classifier_name self.now }
    {
        match self {
            ClassifierRow::Class(row) => row.name.as_str(),
            ClassifierRow::Enum(row) => row.name.as_str(),
            ClassifierRow::Plain(name) => name.as_str(),
        }
    }
}
