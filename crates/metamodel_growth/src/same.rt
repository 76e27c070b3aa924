//! Whether two metamodels are the same, part by part.
ghost use Rattle.std.specs.Prelude.{◌≡◌, ◌↔◌, ◌&&◌, IsTrue, length, nat_eq, slice_get};
ghost use Rattle.finite_maps.specs.Equal.{list_eq, option_eq};
ghost use Rattle.metamodel_growth.specs.Same.{all_below, class_alike, enum_alike, feature_alike, feature_eq, is_same, kind_eq, literal_eq, scalar_eq};

use crate::compare::{begins, same_bound, same_flag};
use crate::kept::literals_of;
use crate::names::{class_name, enum_name, is_abstract};
use ecore_meta::{EnumLiteral, Feature, Kind, Metamodel, Scalar};
use model_state::is_same_option;
use std::collections::BTreeSet;

fn scalar_eq(s: &Scalar, t: &Scalar) -> bool
    ensures { result ≡ scalar_eq s.now t.now }
{
    match s {
        Scalar::Text => matches!(t, Scalar::Text),
        Scalar::Flag => matches!(t, Scalar::Flag),
        Scalar::Byte => matches!(t, Scalar::Byte),
        Scalar::Short => matches!(t, Scalar::Short),
        Scalar::Int => matches!(t, Scalar::Int),
        Scalar::Long => matches!(t, Scalar::Long),
        Scalar::Literal(e) => match t {
            Scalar::Literal(d) => *e == *d,
            _ => false,
        },
    }
}

fn opposite_eq(f: Option<u32>, g: Option<u32>) -> bool
    ensures { result ≡ option_eq nat_eq f g }
{
    match f {
        None => g.is_none(),
        Some(f) => match g {
            None => false,
            Some(g) => f == g,
        },
    }
}

fn reference_eq(c: u32, f: Option<u32>, d: u32, g: Option<u32>) -> bool
    ensures { result ≡ nat_eq c d && option_eq nat_eq f g }
{
    c == d && opposite_eq(f, g)
}

fn kind_eq(k: &Kind, l: &Kind) -> bool
    ensures { result ≡ kind_eq k.now l.now }
{
    match k {
        Kind::Attr { scalar, default } => match l {
            Kind::Attr {
                scalar: t,
                default: other,
            } => scalar_eq(scalar, t) && is_same_option(default, other),
            _ => false,
        },
        Kind::AttrMany { scalar, unique } => match l {
            Kind::AttrMany {
                scalar: t,
                unique: other,
            } => scalar_eq(scalar, t) && same_flag(*unique, *other),
            _ => false,
        },
        Kind::Bounded { target, opposite } => match l {
            Kind::Bounded {
                target: d,
                opposite: g,
            } => reference_eq(*target, *opposite, *d, *g),
            _ => false,
        },
        Kind::Free { target, opposite } => match l {
            Kind::Free {
                target: d,
                opposite: g,
            } => reference_eq(*target, *opposite, *d, *g),
            _ => false,
        },
        Kind::Contains { target, opposite } => match l {
            Kind::Contains {
                target: d,
                opposite: g,
            } => reference_eq(*target, *opposite, *d, *g),
            _ => false,
        },
        Kind::Container { target, opposite } => match l {
            Kind::Container {
                target: d,
                opposite: g,
            } => *target == *d && *opposite == *g,
            _ => false,
        },
        Kind::Skip => matches!(l, Kind::Skip),
    }
}

fn feature_eq(x: &Feature, y: &Feature) -> bool
    ensures { result ≡ feature_eq x.now y.now }
{
    x.owner == y.owner
        && x.name.as_str() == y.name.as_str()
        && x.lower == y.lower
        && same_bound(x.upper, y.upper)
        && kind_eq(&x.kind, &y.kind)
}

fn feature_alike(a: &Metamodel, b: &Metamodel, f: u32) -> bool
    ensures { result ≡ feature_alike a.now b.now f }
{
    match a.get_feature(f) {
        None => b.get_feature(f).is_none(),
        Some(x) => match b.get_feature(f) {
            None => false,
            Some(y) => feature_eq(x, y),
        },
    }
}

fn features_alike(a: &Metamodel, b: &Metamodel) -> bool
    ensures { result ≡ all_below (feature_alike a.now b.now) (length a.now.features) }
{
    for f in 0..a.feature_count() {
        if !feature_alike(a, b, f) {
            return false;
        }
    }
    true
}

#[tactic(auto, using(crate::proofs::SameLaws::literals_are))]
fn literals_eq(ls: &[EnumLiteral], ms: &[EnumLiteral]) -> bool
    ensures { result ≡ list_eq literal_eq ls.now ms.now }
{
    begins(ls, ms) && ls.len() == ms.len()
}

fn enum_alike(a: &Metamodel, b: &Metamodel, e: u32) -> bool
    ensures { result ≡ enum_alike a.now b.now e }
{
    enum_name(a, e) == enum_name(b, e) && literals_eq(literals_of(a, e), literals_of(b, e))
}

fn enums_alike(a: &Metamodel, b: &Metamodel) -> bool
    ensures { result ≡ all_below (enum_alike a.now b.now) (length a.now.enums) }
{
    for e in 0..a.enum_count() {
        if !enum_alike(a, b, e) {
            return false;
        }
    }
    true
}

fn set_eq(xs: &BTreeSet<u32>, ys: &BTreeSet<u32>) -> bool
    ensures { result ≡ list_eq nat_eq xs.now.keys ys.now.keys }
{
    *xs == *ys
}

fn above_same(a: &Metamodel, b: &Metamodel, c: u32) -> bool
    ensures { result ≡ option_eq (list_eq nat_eq) (slice_get a.now.above c) (slice_get b.now.above c) }
{
    match a.above(c) {
        None => b.above(c).is_none(),
        Some(xs) => match b.above(c) {
            None => false,
            Some(ys) => set_eq(xs, ys),
        },
    }
}

fn class_alike(a: &Metamodel, b: &Metamodel, c: u32) -> bool
    ensures { result ≡ class_alike a.now b.now c }
{
    class_name(a, c) == class_name(b, c)
        && same_flag(is_abstract(a, c), is_abstract(b, c))
        && above_same(a, b, c)
}

fn classes_alike(a: &Metamodel, b: &Metamodel) -> bool
    ensures { result ≡ all_below (class_alike a.now b.now) (length a.now.classes) }
{
    for c in 0..a.class_count() {
        if !class_alike(a, b, c) {
            return false;
        }
    }
    true
}

/// Whether two metamodels have one URI and, by number, the same classes, features and enums.
#[tactic(auto, unfolding(crate::specs::Same::is_same))]
fn same_parts(a: &Metamodel, b: &Metamodel) -> bool
    ensures { result ≡ is_same a.now b.now }
{
    a.uri() == b.uri()
        && (a.class_count() == b.class_count() && classes_alike(a, b))
        && (a.enum_count() == b.enum_count() && enums_alike(a, b))
        && (a.feature_count() == b.feature_count() && features_alike(a, b))
}

/// Whether two metamodels are the same: they have one URI and, by number, the same classes, features and enums. A class is
/// its name, its flag and the classes above it; its list of features follows from these and from the owners of features.
pub fn is_same(a: &Metamodel, b: &Metamodel) -> bool
    ensures parts { result ≡ is_same a.now b.now }
    ensures exact { IsTrue result ↔ (a.now ≡ b.now) }
{
    a.recall_promises();
    b.recall_promises();
    same_parts(a, b)
}
