//! The terms of a metamodel: values, types of attributes, kinds of features, features, classes and literals.
ghost use Rattle.std.specs.Prelude.{◌≡◌, IfOk};

use std::alloc::{AllocError, Global};
use texts::{List, Text};

/// A value of an attribute.
#[derive(Debug, PartialEq, Drop)]
pub enum Value {
    Text(Text),
    Flag(bool),
    Whole(i64),
    /// The literal of that number in its enum, from 0.
    Literal(u32),
}

/// The type of an attribute's values. Whole numbers are signed, of 8, 16, 32 and 64 bits.
#[derive(Debug, PartialEq, Drop)]
pub enum Scalar {
    Text,
    Flag,
    Byte,
    Short,
    Int,
    Long,
    /// The enum of that number.
    Literal(u32),
}

/// What a feature holds. Classes are named by their numbers, opposites by the numbers of features.
#[derive(PartialEq, Drop)]
pub enum Kind {
    /// At most one value. The default is the declared one, else that of the type; a text without a declared one has
    /// none.
    Attr {
        scalar: Scalar,
        default: Option<Value>,
    },
    /// A list of values.
    AttrMany {
        scalar: Scalar,
        unique: bool,
    },
    /// References up to an upper bound.
    Bounded {
        target: u32,
        opposite: Option<u32>,
    },
    /// References without an upper bound.
    Free {
        target: u32,
        opposite: Option<u32>,
    },
    /// The elements inside.
    Contains {
        target: u32,
        opposite: Option<u32>,
    },
    /// The container, which the place alone gives.
    Container {
        target: u32,
        opposite: u32,
    },
    /// Nothing: the feature is volatile, transient or derived.
    Skip,
}

/// A feature as its class declares it.
#[derive(Drop)]
pub struct Feature {
    /// The class that declares it.
    pub owner: u32,
    pub name: Text,
    pub lower: u64,
    /// The most values, `None` for no bound.
    pub upper: Option<u64>,
    pub kind: Kind,
}

/// A class of a metamodel. The list that it stands in gives it its number.
#[derive(Drop)]
pub struct Class {
    pub name: Text,
    pub is_abstract: bool,
    /// The numbers of its own and its inherited features, rising.
    pub features: List<u32>,
}

/// A literal of an enum: its name, and the text that stands for it in a model.
#[derive(Drop)]
pub struct EnumLiteral {
    pub name: Text,
    pub text: Text,
}

/// An enum of a metamodel: its name, and its literals in their order.
#[derive(Drop)]
pub struct Enum {
    pub name: Text,
    pub literals: List<EnumLiteral>,
}

impl Value {
    /// The same value, a text in memory of its own.
    pub fn copy(&self, alloc: Global) -> Result<Value, AllocError>
        ensures { IfOk result (λ v. v ≡ self.now) }
    {
        match self {
            Value::Text(t) => Ok(Value::Text(t.copy(alloc)?)),
            Value::Flag(b) => Ok(Value::Flag(*b)),
            Value::Whole(n) => Ok(Value::Whole(*n)),
            Value::Literal(n) => Ok(Value::Literal(*n)),
        }
    }
}
