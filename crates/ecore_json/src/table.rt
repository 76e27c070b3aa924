//! The keys that each class of Ecore's objects may have and must have, and what the value of each is to be.
ghost use Rattle.std.specs.Prelude.{◌≡◌, map};
ghost use Rattle.ecore_json.specs.Table.{table, required, wants, row_of};

/// What an object of a document is.
#[derive(Clone, Copy)]
pub(crate) enum Shape {
    Package,
    Class,
    Enum,
    DataType,
    Literal,
    Attribute,
    Reference,
    /// A reference to a type, of a feature or of a class.
    TypeLink,
    /// A reference to the opposite of a reference.
    OppositeLink,
}

/// Where an object stands, which says what it may be.
#[derive(Clone, Copy)]
pub(crate) enum Position {
    Root,
    Classifier,
    Feature,
    Literal,
    TypeLink,
    OppositeLink,
}

/// What a value that holds no object is to be.
#[derive(Clone, Copy)]
pub(crate) enum ValueKind {
    Anything,
    Flag,
    /// A whole number of 32 bits, signed.
    Whole,
    Text,
    Name,
    FeatureName,
    TypeReference,
    OppositeReference,
}

/// What a key asks of its value.
#[derive(Clone, Copy)]
pub(crate) enum Wanted {
    Value(ValueKind),
    /// An object of that place.
    Object(Position),
    /// An array of them, or a single one.
    Objects(Position),
}

const PACKAGE: [(&str, Wanted); 8] = [
    ("_id", Wanted::Value(ValueKind::Anything)),
    ("eAnnotations", Wanted::Value(ValueKind::Anything)),
    ("eClass", Wanted::Value(ValueKind::Anything)),
    ("eClassifiers", Wanted::Objects(Position::Classifier)),
    ("eSubpackages", Wanted::Value(ValueKind::Anything)),
    ("name", Wanted::Value(ValueKind::Name)),
    ("nsPrefix", Wanted::Value(ValueKind::Anything)),
    ("nsURI", Wanted::Value(ValueKind::Text)),
];

const CLASS: [(&str, Wanted); 13] = [
    ("_id", Wanted::Value(ValueKind::Anything)),
    ("abstract", Wanted::Value(ValueKind::Flag)),
    ("eAnnotations", Wanted::Value(ValueKind::Anything)),
    ("eClass", Wanted::Value(ValueKind::Anything)),
    ("eGenericSuperTypes", Wanted::Value(ValueKind::Anything)),
    ("eOperations", Wanted::Value(ValueKind::Anything)),
    ("eStructuralFeatures", Wanted::Objects(Position::Feature)),
    ("eSuperTypes", Wanted::Objects(Position::TypeLink)),
    ("eTypeParameters", Wanted::Value(ValueKind::Anything)),
    ("instanceClassName", Wanted::Value(ValueKind::Anything)),
    ("instanceTypeName", Wanted::Value(ValueKind::Anything)),
    ("interface", Wanted::Value(ValueKind::Anything)),
    ("name", Wanted::Value(ValueKind::Name)),
];

const ENUM: [(&str, Wanted); 8] = [
    ("_id", Wanted::Value(ValueKind::Anything)),
    ("eAnnotations", Wanted::Value(ValueKind::Anything)),
    ("eClass", Wanted::Value(ValueKind::Anything)),
    ("eLiterals", Wanted::Objects(Position::Literal)),
    ("instanceClassName", Wanted::Value(ValueKind::Anything)),
    ("instanceTypeName", Wanted::Value(ValueKind::Anything)),
    ("name", Wanted::Value(ValueKind::Name)),
    ("serializable", Wanted::Value(ValueKind::Anything)),
];

const DATA_TYPE: [(&str, Wanted); 7] = [
    ("_id", Wanted::Value(ValueKind::Anything)),
    ("eAnnotations", Wanted::Value(ValueKind::Anything)),
    ("eClass", Wanted::Value(ValueKind::Anything)),
    ("instanceClassName", Wanted::Value(ValueKind::Anything)),
    ("instanceTypeName", Wanted::Value(ValueKind::Anything)),
    ("name", Wanted::Value(ValueKind::Name)),
    ("serializable", Wanted::Value(ValueKind::Anything)),
];

const LITERAL: [(&str, Wanted); 6] = [
    ("_id", Wanted::Value(ValueKind::Anything)),
    ("eAnnotations", Wanted::Value(ValueKind::Anything)),
    ("eClass", Wanted::Value(ValueKind::Anything)),
    ("literal", Wanted::Value(ValueKind::Text)),
    ("name", Wanted::Value(ValueKind::Name)),
    ("value", Wanted::Value(ValueKind::Whole)),
];

const ATTRIBUTE: [(&str, Wanted); 17] = [
    ("_id", Wanted::Value(ValueKind::Anything)),
    ("changeable", Wanted::Value(ValueKind::Anything)),
    ("defaultValueLiteral", Wanted::Value(ValueKind::Text)),
    ("derived", Wanted::Value(ValueKind::Flag)),
    ("eAnnotations", Wanted::Value(ValueKind::Anything)),
    ("eClass", Wanted::Value(ValueKind::Anything)),
    ("eGenericType", Wanted::Value(ValueKind::Anything)),
    ("eType", Wanted::Object(Position::TypeLink)),
    ("iD", Wanted::Value(ValueKind::Anything)),
    ("lowerBound", Wanted::Value(ValueKind::Whole)),
    ("name", Wanted::Value(ValueKind::FeatureName)),
    ("ordered", Wanted::Value(ValueKind::Anything)),
    ("transient", Wanted::Value(ValueKind::Flag)),
    ("unique", Wanted::Value(ValueKind::Flag)),
    ("unsettable", Wanted::Value(ValueKind::Anything)),
    ("upperBound", Wanted::Value(ValueKind::Whole)),
    ("volatile", Wanted::Value(ValueKind::Flag)),
];

const REFERENCE: [(&str, Wanted); 20] = [
    ("_id", Wanted::Value(ValueKind::Anything)),
    ("changeable", Wanted::Value(ValueKind::Anything)),
    ("containment", Wanted::Value(ValueKind::Flag)),
    ("defaultValueLiteral", Wanted::Value(ValueKind::Anything)),
    ("derived", Wanted::Value(ValueKind::Flag)),
    ("eAnnotations", Wanted::Value(ValueKind::Anything)),
    ("eClass", Wanted::Value(ValueKind::Anything)),
    ("eGenericType", Wanted::Value(ValueKind::Anything)),
    ("eKeys", Wanted::Value(ValueKind::Anything)),
    ("eOpposite", Wanted::Object(Position::OppositeLink)),
    ("eType", Wanted::Object(Position::TypeLink)),
    ("lowerBound", Wanted::Value(ValueKind::Whole)),
    ("name", Wanted::Value(ValueKind::FeatureName)),
    ("ordered", Wanted::Value(ValueKind::Anything)),
    ("resolveProxies", Wanted::Value(ValueKind::Anything)),
    ("transient", Wanted::Value(ValueKind::Flag)),
    ("unique", Wanted::Value(ValueKind::Flag)),
    ("unsettable", Wanted::Value(ValueKind::Anything)),
    ("upperBound", Wanted::Value(ValueKind::Whole)),
    ("volatile", Wanted::Value(ValueKind::Flag)),
];

const TYPE: [(&str, Wanted); 3] = [
    ("$ref", Wanted::Value(ValueKind::TypeReference)),
    ("_id", Wanted::Value(ValueKind::Anything)),
    ("eClass", Wanted::Value(ValueKind::Anything)),
];

const OPPOSITE: [(&str, Wanted); 3] = [
    ("$ref", Wanted::Value(ValueKind::OppositeReference)),
    ("_id", Wanted::Value(ValueKind::Anything)),
    ("eClass", Wanted::Value(ValueKind::Anything)),
];

/// The keys that an object of the shape may have, each with what it asks of its value.
fn table(shape: Shape) -> &'static [(&'static str, Wanted)]
    ensures { map (λ r. (r.0.now, r.1)) result.now ≡ table shape }
{
    match shape {
        Shape::Package => &PACKAGE,
        Shape::Class => &CLASS,
        Shape::Enum => &ENUM,
        Shape::DataType => &DATA_TYPE,
        Shape::Literal => &LITERAL,
        Shape::Attribute => &ATTRIBUTE,
        Shape::Reference => &REFERENCE,
        Shape::TypeLink => &TYPE,
        Shape::OppositeLink => &OPPOSITE,
    }
}

fn row_of(rows: &[(&str, Wanted)], key: &str) -> Option<Wanted>
    ensures { result ≡ row_of (map (λ r. (r.0.now, r.1)) rows.now) key.now }
{
    for (name, wanted) in rows {
        if key == *name {
            return Some(*wanted);
        }
    }
    None
}

/// What the key asks of its value in an object of the shape, if it may stand there.
pub(crate) fn wants(shape: Shape, key: &str) -> Option<Wanted>
    ensures { result ≡ wants shape key.now }
{
    row_of(table(shape), key)
}

/// The keys that an object of the shape must have, in the order of their bytes.
pub(crate) fn required(shape: Shape) -> &'static [&'static str]
    ensures { map (λ k. k.now) result.now ≡ required shape }
{
    match shape {
        Shape::Package => &["name", "nsURI"],
        Shape::Class => &["name"],
        Shape::Enum => &["name"],
        Shape::DataType => &["name"],
        Shape::Literal => &["name"],
        Shape::Attribute => &["eType", "name"],
        Shape::Reference => &["eType", "name"],
        Shape::TypeLink => &["$ref"],
        Shape::OppositeLink => &["$ref"],
    }
}
