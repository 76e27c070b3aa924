//! Parts of two metamodels compared by names.
ghost use Rattle.std.specs.Prelude.{◌≡◌, ◌&&◌, nat_eq};
ghost use Rattle.std.specs.Str.{bytes_eq};
ghost use Rattle.finite_maps.specs.Equal.{option_eq};
ghost use Rattle.model_state.specs.Typing.{flag_eq};
ghost use Rattle.metamodel_growth.specs.Extension.{begins, class_same, enum_same, feature_same, kind_same, opposite_same, parts_same, scalar_same};

use crate::names::{class_name, enum_name, feature_name, owner_name};
use ecore_meta::{EnumLiteral, Feature, Kind, Metamodel, Scalar};
use model_state::is_same_option;

fn class_same(old: &Metamodel, next: &Metamodel, c: u32, d: u32) -> bool
    ensures { result ≡ class_same old.now next.now c d }
{
    class_name(old, c) == class_name(next, d)
}

fn enum_same(old: &Metamodel, next: &Metamodel, e: u32, d: u32) -> bool
    ensures { result ≡ enum_same old.now next.now e d }
{
    enum_name(old, e) == enum_name(next, d)
}

fn feature_same(old: &Metamodel, next: &Metamodel, f: u32, g: u32) -> bool
    ensures { result ≡ feature_same old.now next.now f g }
{
    owner_name(old, f) == owner_name(next, g) && feature_name(old, f) == feature_name(next, g)
}

pub(crate) fn same_flag(a: bool, b: bool) -> bool
    ensures { result ≡ flag_eq a b }
{
    if a { b } else { !b }
}

pub(crate) fn same_bound(a: Option<u64>, b: Option<u64>) -> bool
    ensures { result ≡ option_eq nat_eq a b }
{
    match a {
        None => b.is_none(),
        Some(a) => match b {
            None => false,
            Some(b) => a == b,
        },
    }
}

fn scalar_same(old: &Metamodel, next: &Metamodel, s: &Scalar, t: &Scalar) -> bool
    ensures { result ≡ scalar_same old.now next.now s.now t.now }
{
    match s {
        Scalar::Text => matches!(t, Scalar::Text),
        Scalar::Flag => matches!(t, Scalar::Flag),
        Scalar::Byte => matches!(t, Scalar::Byte),
        Scalar::Short => matches!(t, Scalar::Short),
        Scalar::Int => matches!(t, Scalar::Int),
        Scalar::Long => matches!(t, Scalar::Long),
        Scalar::Literal(e) => match t {
            Scalar::Literal(d) => enum_same(old, next, *e, *d),
            _ => false,
        },
    }
}

fn opposite_same(old: &Metamodel, next: &Metamodel, f: Option<u32>, g: Option<u32>) -> bool
    ensures { result ≡ opposite_same old.now next.now f g }
{
    match f {
        None => g.is_none(),
        Some(f) => match g {
            None => false,
            Some(g) => feature_same(old, next, f, g),
        },
    }
}

fn reference_same(
    old: &Metamodel,
    next: &Metamodel,
    c: u32,
    f: Option<u32>,
    d: u32,
    g: Option<u32>,
) -> bool
    ensures { result ≡ class_same old.now next.now c d && opposite_same old.now next.now f g }
{
    class_same(old, next, c, d) && opposite_same(old, next, f, g)
}

fn kind_same(old: &Metamodel, next: &Metamodel, k: &Kind, l: &Kind) -> bool
    ensures { result ≡ kind_same old.now next.now k.now l.now }
{
    match k {
        Kind::Attr { scalar, default } => match l {
            Kind::Attr {
                scalar: t,
                default: other,
            } => scalar_same(old, next, scalar, t) && is_same_option(default, other),
            _ => false,
        },
        Kind::AttrMany { scalar, unique } => match l {
            Kind::AttrMany {
                scalar: t,
                unique: other,
            } => scalar_same(old, next, scalar, t) && same_flag(*unique, *other),
            _ => false,
        },
        Kind::Bounded { target, opposite } => match l {
            Kind::Bounded {
                target: d,
                opposite: g,
            } => reference_same(old, next, *target, *opposite, *d, *g),
            _ => false,
        },
        Kind::Free { target, opposite } => match l {
            Kind::Free {
                target: d,
                opposite: g,
            } => reference_same(old, next, *target, *opposite, *d, *g),
            _ => false,
        },
        Kind::Contains { target, opposite } => match l {
            Kind::Contains {
                target: d,
                opposite: g,
            } => reference_same(old, next, *target, *opposite, *d, *g),
            _ => false,
        },
        Kind::Container { target, opposite } => match l {
            Kind::Container {
                target: d,
                opposite: g,
            } => class_same(old, next, *target, *d) && feature_same(old, next, *opposite, *g),
            _ => false,
        },
        Kind::Skip => matches!(l, Kind::Skip),
    }
}

/// Whether two features have the same bounds and the same kind.
pub(crate) fn parts_same(old: &Metamodel, next: &Metamodel, x: &Feature, y: &Feature) -> bool
    ensures { result ≡ parts_same old.now next.now x.now y.now }
{
    x.lower == y.lower && same_bound(x.upper, y.upper) && kind_same(old, next, &x.kind, &y.kind)
}

fn same_literal(l: &EnumLiteral, m: &EnumLiteral) -> bool
    ensures { result ≡ bytes_eq l.now.name m.now.name && bytes_eq l.now.text m.now.text }
{
    l.name.as_str() == m.name.as_str() && l.text.as_str() == m.text.as_str()
}

/// Whether the first list is how the second begins.
pub(crate) fn begins(ls: &[EnumLiteral], ms: &[EnumLiteral]) -> bool
    ensures { result ≡ begins ls.now ms.now }
{
    for i in 0..ls.len() {
        if i >= ms.len() {
            return false;
        }
        if !same_literal(&ls[i], &ms[i]) {
            return false;
        }
    }
    true
}
