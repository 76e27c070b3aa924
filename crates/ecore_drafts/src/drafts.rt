//! The drafts of features: type, opposite and owner resolved from names to numbers, or reported to be missing.
ghost use Rattle.std.specs.Prelude.{◌≡◌, ◌<◌, ◌+◌, ◌++◌, IfOk, OnOk, length, map};
ghost use Rattle.ecore_drafts.specs.Classifiers.{scalar_in};
ghost use Rattle.ecore_drafts.specs.Drafts.{class_target, draft, drafts, ecore_scalar, end_of, target_of, value_target};
ghost use Rattle.ecore_drafts.specs.Counts.{too_many};

use crate::classifiers::{Classifier, Classifiers};
use crate::rows::{ClassifierRow, FeatureRow, TypeName};
use ecore_meta::Scalar;
use std::alloc::{AllocError, Global};
use texts::Text;

/// The type of a feature.
#[derive(Drop)]
pub enum Target {
    /// Not looked at: the feature is skipped.
    Skipped,
    /// A type of Ecore that no attribute may have here.
    Unsupported,
    /// No type of the package that fits.
    Missing,
    /// Elements of the class of that number.
    Elements(u32),
    Values(Scalar),
}

/// The opposite of a reference.
#[derive(Clone, Copy)]
pub enum End {
    /// It names none.
    Open,
    /// The feature that it names is not declared there.
    Nowhere,
    /// The feature of that number.
    At(u32),
}

/// A feature with the names in it resolved, in the form in which the faults are looked for.
#[derive(Drop)]
pub struct FeatureDraft {
    pub owner: u32,
    pub name: Text,
    pub target: Target,
    pub end: End,
    pub lower: i64,
    pub upper: i64,
    pub unique: bool,
    pub containment: bool,
    pub default_text: Option<Text>,
}

/// The types of Ecore that an attribute may have.
fn ecore_scalar(name: &str) -> Target
    ensures { result ≡ ecore_scalar name.now }
{
    if name == "EString" {
        Target::Values(Scalar::Text)
    } else if name == "EBoolean" {
        Target::Values(Scalar::Flag)
    } else if name == "EByte" {
        Target::Values(Scalar::Byte)
    } else if name == "EShort" {
        Target::Values(Scalar::Short)
    } else if name == "EInt" {
        Target::Values(Scalar::Int)
    } else if name == "ELong" {
        Target::Values(Scalar::Long)
    } else {
        Target::Unsupported
    }
}

/// What a name of the package stands for, as an attribute's type.
fn scalar_in(kind: Option<Classifier>) -> Target
    ensures { result ≡ scalar_in kind }
{
    match kind {
        Some(
            Classifier::Class {
                number: _,
                first: _,
            },
        ) => Target::Missing,
        Some(Classifier::Enum { number, is_empty }) => {
            if is_empty {
                Target::Missing
            } else {
                Target::Values(Scalar::Literal(number))
            }
        }
        Some(Classifier::Plain) => Target::Values(Scalar::Text),
        None => Target::Missing,
    }
}

impl<'a> Classifiers<'a> {
    /// The type of a reference: a class of the package, so a name of Ecore's fits none.
    fn class_target(&self, name: &TypeName) -> Target
        ensures { result ≡ class_target self.now name.now }
    {
        match name {
            TypeName::Ecore(_) => Target::Missing,
            TypeName::Own(name) => match self.class_number(name.as_str()) {
                Some(number) => Target::Elements(number),
                None => Target::Missing,
            },
        }
    }

    /// The type of an attribute: one of the six types of Ecore that are known here, an enum or a data type.
    fn value_target(&self, name: &TypeName) -> Target
        ensures { result ≡ value_target self.now name.now }
    {
        match name {
            TypeName::Ecore(name) => ecore_scalar(name.as_str()),
            TypeName::Own(name) => scalar_in(self.named(name.as_str())),
        }
    }

    /// The type of a feature: that of a reference is looked for among the classes, that of an attribute among all else.
    fn target_of(&self, row: &FeatureRow) -> Target
        ensures { result ≡ target_of self.now row.now }
    {
        if row.skipped {
            Target::Skipped
        } else if row.is_reference {
            self.class_target(&row.target)
        } else {
            self.value_target(&row.target)
        }
    }

    /// The opposite that a row names: that of an attribute, or of a feature that is skipped, is not looked at.
    fn end_of(&self, row: &FeatureRow) -> End
        ensures { result ≡ end_of self.now row.now }
    {
        if row.skipped || !row.is_reference {
            return End::Open;
        }
        match &row.opposite {
            None => End::Open,
            Some(named) => {
                match self.feature_number(named.class.as_str(), named.feature.as_str()) {
                    None => End::Nowhere,
                    Some(number) => End::At(number),
                }
            }
        }
    }

    /// A feature that the class of that number declares.
    fn draft(&self, alloc: Global, owner: u32, row: &FeatureRow) -> Result<FeatureDraft, AllocError>
        ensures { IfOk result (λ d. d ≡ draft self.now owner row.now) }
    {
        Ok(FeatureDraft {
            owner,
            name: row.name.copy(alloc)?,
            target: self.target_of(row),
            end: self.end_of(row),
            lower: row.lower,
            upper: row.upper,
            unique: row.unique,
            containment: row.containment,
            default_text: copy_text(alloc, &row.default_text)?,
        })
    }

    /// Appends the drafts of the features that one class declares, in their order; `owner` is the number of the class.
    fn draft_all(
        &self,
        alloc: Global,
        owner: u32,
        rows: &[FeatureRow],
        drafts: &mut Vec<FeatureDraft>,
    ) -> Result<(), AllocError>
        ensures { OnOk result (drafts.new.items ≡ drafts.old.items ++ map (draft self.now owner) rows.now) }
    {
        for row in rows {
            drafts.push(self.draft(alloc, owner, row)?)?;
        }
        Ok(())
    }

    /// The features of the document in the order of their declaration.
    pub fn drafts(
        &self,
        alloc: Global,
        rows: &[ClassifierRow],
    ) -> Result<Vec<FeatureDraft>, AllocError>
        requires same { self.now ≡ rows.now }
        requires few { length rows.now < too_many }
        ensures { IfOk result (λ v. v.items ≡ drafts rows.now) }
    {
        let mut drafts = Vec::new(alloc);
        let mut owner: u32 = 0;
        for row in rows {
            match row {
                ClassifierRow::Class(row) => {
                    self.draft_all(alloc, owner, row.features.as_slice(), &mut drafts)?;
                    owner += 1;
                }
                ClassifierRow::Enum(_) => {}
                ClassifierRow::Plain(_) => {}
            }
        }
        Ok(drafts)
    }
}

/// The same text, or none.
fn copy_text(alloc: Global, text: &Option<Text>) -> Result<Option<Text>, AllocError>
    ensures { IfOk result (λ t. t ≡ text.now) }
{
    match text {
        None => Ok(None),
        Some(text) => Ok(Some(text.copy(alloc)?)),
    }
}
