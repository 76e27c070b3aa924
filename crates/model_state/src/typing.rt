//! The typing rules: which features and values a metamodel lets an element have, and the bounds of its lists.
ghost use Rattle.std.specs.Prelude.{◌≡◌, Some};
ghost use Rattle.std.specs.List.{list_any};
ghost use Rattle.finite_maps.specs.Equal.{option_eq};
ghost use Rattle.finite_maps.specs.Maps.{is_below};
ghost use Rattle.model_state.specs.Typing.{is_concrete, contains_to, kind_of, upper_of, child_upper, row_upper, plain_to, opposite_of, is_plain, fits, is_attr, attr_fits, is_many, is_unique, many_fits, is_default, value_eq};
ghost use Rattle.model_state.specs.Steps.{class_has, may_link};
ghost use Rattle.ecore_meta.specs.Typing.{is_one};

use ecore_meta::{Kind, Metamodel, Scalar, Value};

/// Whether a list of n entries has room for one more under the bound.
pub fn is_below_bound(n: usize, upper: Option<u64>) -> bool
    ensures { result ≡ is_below n upper }
{
    match upper {
        None => true,
        Some(upper) => (n as u64) < upper,
    }
}

/// Whether the class exists and is not abstract.
pub fn is_concrete(meta: &Metamodel, c: u32) -> bool
    ensures { result ≡ is_concrete meta.now c }
{
    c < meta.class_count() && !meta.class(c).is_abstract
}

/// Whether the class of an element, where it is live, has the feature.
pub fn class_has(meta: &Metamodel, c: Option<u32>, f: u32) -> bool
    ensures { result ≡ class_has meta.now c f }
{
    match c {
        None => false,
        Some(c) => meta.has_feature(c, f),
    }
}

/// Whether the feature is a containment of elements of the class.
pub fn may_contain(meta: &Metamodel, f: u32, d: u32) -> bool
    ensures { result ≡ contains_to meta.now (kind_of meta.now f) d }
{
    match meta.get_feature(f) {
        None => false,
        Some(feature) => match &feature.kind {
            Kind::Contains { target, .. } => meta.is_a(d, *target),
            _ => false,
        },
    }
}

/// Whether the feature is a plain reference, neither containment nor container.
pub fn is_plain(meta: &Metamodel, f: u32) -> bool
    ensures { result ≡ is_plain (kind_of meta.now f) }
{
    match meta.get_feature(f) {
        None => false,
        Some(feature) => match &feature.kind {
            Kind::Bounded { .. } => true,
            Kind::Free { .. } => true,
            _ => false,
        },
    }
}

fn is_plain_to(meta: &Metamodel, f: u32, d: u32) -> bool
    ensures { result ≡ plain_to meta.now (kind_of meta.now f) d }
{
    match meta.get_feature(f) {
        None => false,
        Some(feature) => match &feature.kind {
            Kind::Bounded { target, .. } => meta.is_a(d, *target),
            Kind::Free { target, .. } => meta.is_a(d, *target),
            _ => false,
        },
    }
}

/// Whether an element of the one class, where it is live, may refer by the feature to one of the other.
pub fn may_link(meta: &Metamodel, c: Option<u32>, f: u32, d: Option<u32>) -> bool
    ensures { result ≡ may_link meta.now c f d }
{
    match c {
        None => false,
        Some(c) => match d {
            None => false,
            Some(d) => meta.has_feature(c, f) && is_plain_to(meta, f, d),
        },
    }
}

/// The opposite of a plain reference.
pub fn opposite_of(meta: &Metamodel, f: u32) -> Option<u32>
    ensures { result ≡ opposite_of meta.now f }
{
    match meta.get_feature(f) {
        None => None,
        Some(feature) => match &feature.kind {
            Kind::Bounded { opposite, .. } => *opposite,
            Kind::Free { opposite, .. } => *opposite,
            _ => None,
        },
    }
}

/// The upper bound of a feature, None where it has none.
pub fn upper_of(meta: &Metamodel, f: u32) -> Option<u64>
    ensures { result ≡ upper_of meta.now f }
{
    match meta.get_feature(f) {
        None => None,
        Some(feature) => feature.upper,
    }
}

/// Whether an upper bound is one.
pub fn is_one(upper: Option<u64>) -> bool
    ensures { result ≡ is_one upper }
{
    match upper {
        None => false,
        Some(upper) => upper == 1,
    }
}

/// How many references of the feature an element may have, None for any number.
pub fn row_upper(meta: &Metamodel, f: u32) -> Option<u64>
    ensures { result ≡ row_upper meta.now f }
{
    match meta.get_feature(f) {
        None => None,
        Some(feature) => match &feature.kind {
            Kind::Bounded { .. } => feature.upper,
            _ => None,
        },
    }
}

/// How many children may stand in the feature, None for any number.
pub fn child_upper(meta: &Metamodel, f: u32) -> Option<u64>
    ensures { result ≡ child_upper meta.now f }
{
    match meta.get_feature(f) {
        None => None,
        Some(feature) => match &feature.kind {
            Kind::Contains { .. } => feature.upper,
            _ => None,
        },
    }
}

/// Whether two values are the same.
pub fn is_same_value(x: &Value, y: &Value) -> bool
    ensures { result ≡ value_eq x.now y.now }
{
    match x {
        Value::Text(a) => match y {
            Value::Text(b) => a == b,
            _ => false,
        },
        Value::Flag(a) => match y {
            Value::Flag(b) => { if *a { *b } else { !*b } }
            _ => false,
        },
        Value::Whole(a) => match y {
            Value::Whole(b) => a == b,
            _ => false,
        },
        Value::Literal(a) => match y {
            Value::Literal(b) => a == b,
            _ => false,
        },
    }
}

/// Whether both are the same value, or none.
pub fn is_same_option(x: &Option<Value>, y: &Option<Value>) -> bool
    ensures { result ≡ option_eq value_eq x.now y.now }
{
    match x {
        None => y.is_none(),
        Some(x) => match y {
            None => false,
            Some(y) => is_same_value(x, y),
        },
    }
}

/// Whether the value is among these.
pub fn contains(values: &[Value], v: &Value) -> bool
    ensures { result ≡ list_any (value_eq v.now) values.now }
{
    values.iter().any(|x| is_same_value(v, x))
}

/// Whether a value is of the type.
pub fn fits(meta: &Metamodel, scalar: &Scalar, v: &Value) -> bool
    ensures { result ≡ fits meta.now scalar.now v.now }
{
    match v {
        Value::Text(_) => match scalar {
            Scalar::Text => true,
            _ => false,
        },
        Value::Flag(_) => match scalar {
            Scalar::Flag => true,
            _ => false,
        },
        Value::Whole(n) => match scalar {
            Scalar::Byte => scalar.has_whole(*n),
            Scalar::Short => scalar.has_whole(*n),
            Scalar::Int => scalar.has_whole(*n),
            Scalar::Long => scalar.has_whole(*n),
            _ => false,
        },
        Value::Literal(n) => match scalar {
            Scalar::Literal(e) => *e < meta.enum_count() && *n < meta.literal_count(*e),
            _ => false,
        },
    }
}

/// Whether the feature is a single attribute.
pub fn is_attr(meta: &Metamodel, f: u32) -> bool
    ensures { result ≡ is_attr (kind_of meta.now f) }
{
    match meta.get_feature(f) {
        None => false,
        Some(feature) => match &feature.kind {
            Kind::Attr { .. } => true,
            _ => false,
        },
    }
}

/// Whether the feature is a single attribute of the value's type.
pub fn attr_fits(meta: &Metamodel, f: u32, v: &Value) -> bool
    ensures { result ≡ attr_fits meta.now (kind_of meta.now f) v.now }
{
    match meta.get_feature(f) {
        None => false,
        Some(feature) => match &feature.kind {
            Kind::Attr { scalar, .. } => fits(meta, scalar, v),
            _ => false,
        },
    }
}

/// Whether the value is the default of the single attribute.
pub fn is_default(meta: &Metamodel, f: u32, v: &Value) -> bool
    ensures { result ≡ is_default (kind_of meta.now f) v.now }
{
    match meta.get_feature(f) {
        None => false,
        Some(feature) => match &feature.kind {
            Kind::Attr { default, .. } => match default {
                None => false,
                Some(default) => is_same_value(default, v),
            },
            _ => false,
        },
    }
}

/// Whether the feature is a many-valued attribute.
pub fn is_many(meta: &Metamodel, f: u32) -> bool
    ensures { result ≡ is_many (kind_of meta.now f) }
{
    match meta.get_feature(f) {
        None => false,
        Some(feature) => match &feature.kind {
            Kind::AttrMany { .. } => true,
            _ => false,
        },
    }
}

/// Whether the feature is a many-valued attribute that holds no value twice.
pub fn is_unique(meta: &Metamodel, f: u32) -> bool
    ensures { result ≡ is_unique (kind_of meta.now f) }
{
    match meta.get_feature(f) {
        None => false,
        Some(feature) => match &feature.kind {
            Kind::AttrMany { unique, .. } => *unique,
            _ => false,
        },
    }
}

/// Whether the feature is a many-valued attribute of the value's type.
pub fn many_fits(meta: &Metamodel, f: u32, v: &Value) -> bool
    ensures { result ≡ many_fits meta.now (kind_of meta.now f) v.now }
{
    match meta.get_feature(f) {
        None => false,
        Some(feature) => match &feature.kind {
            Kind::AttrMany { scalar, .. } => fits(meta, scalar, v),
            _ => false,
        },
    }
}
