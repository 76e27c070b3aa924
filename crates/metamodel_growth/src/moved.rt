//! The parts of a metamodel with new numbers.
ghost use Rattle.std.specs.Prelude.{◌≡◌, ◌<◌, ◌++◌, ◌∷◌, [], IfOk, OnOk, length, map, slice_get};
ghost use Rattle.std.specs.List.{filter_map};
ghost use Rattle.std.specs.Option.{option_map};
ghost use Rattle.ecore_meta.specs.Meta.{is_a};
ghost use Rattle.ecore_meta.specs.Parts.{meta_in};
ghost use Rattle.ecore_meta.specs.Promised.{declared};
ghost use Rattle.ecore_meta.specs.Values.{AreShort};
ghost use Rattle.metamodel_growth.specs.Order.{place_in, places};
ghost use Rattle.metamodel_growth.specs.Renumbered.{class_moved, feature_moved, kind_moved, renumbered, scalar_moved};

use crate::kept::above_of;
use crate::order::{Order, Orders, places};
use ecore_meta::{Class, Enum, EnumLiteral, Enums, Feature, Kind, Metamodel, Parts, Scalar, Value};
use std::alloc::{AllocError, Global};
use std::collections::BTreeSet;
use texts::{List, Text};

fn scalar_moved(to: &Orders, scalar: &Scalar) -> Scalar
    ensures { result ≡ scalar_moved to.now scalar.now }
{
    match scalar {
        Scalar::Text => Scalar::Text,
        Scalar::Flag => Scalar::Flag,
        Scalar::Byte => Scalar::Byte,
        Scalar::Short => Scalar::Short,
        Scalar::Int => Scalar::Int,
        Scalar::Long => Scalar::Long,
        Scalar::Literal(e) => Scalar::Literal(to.enums.place(*e)),
    }
}

fn opposite_moved(order: &Order, opposite: Option<u32>) -> Option<u32>
    ensures { result ≡ option_map (place_in order.now) opposite }
{
    match opposite {
        None => None,
        Some(f) => Some(order.place(f)),
    }
}

fn copy_default(alloc: Global, default: &Option<Value>) -> Result<Option<Value>, AllocError>
    ensures { IfOk result (λ o. o ≡ default.now) }
{
    match default {
        None => Ok(None),
        Some(value) => Ok(Some(value.copy(alloc)?)),
    }
}

/// A kind with the new numbers.
fn kind_moved(alloc: Global, to: &Orders, kind: &Kind) -> Result<Kind, AllocError>
    ensures { IfOk result (λ k. k ≡ kind_moved to.now kind.now) }
{
    match kind {
        Kind::Attr { scalar, default } => Ok(Kind::Attr {
            scalar: scalar_moved(to, scalar),
            default: copy_default(alloc, default)?,
        }),
        Kind::AttrMany { scalar, unique } => Ok(Kind::AttrMany {
            scalar: scalar_moved(to, scalar),
            unique: *unique,
        }),
        Kind::Bounded { target, opposite } => Ok(Kind::Bounded {
            target: to.classes.place(*target),
            opposite: opposite_moved(&to.features, *opposite),
        }),
        Kind::Free { target, opposite } => Ok(Kind::Free {
            target: to.classes.place(*target),
            opposite: opposite_moved(&to.features, *opposite),
        }),
        Kind::Contains { target, opposite } => Ok(Kind::Contains {
            target: to.classes.place(*target),
            opposite: opposite_moved(&to.features, *opposite),
        }),
        Kind::Container { target, opposite } => Ok(Kind::Container {
            target: to.classes.place(*target),
            opposite: to.features.place(*opposite),
        }),
        Kind::Skip => Ok(Kind::Skip),
    }
}

fn feature_moved(alloc: Global, to: &Orders, x: &Feature) -> Result<Feature, AllocError>
    ensures { IfOk result (λ y. y ≡ feature_moved to.now x.now) }
{
    Ok(Feature {
        owner: to.classes.place(x.owner),
        name: x.name.copy(alloc)?,
        lower: x.lower,
        upper: x.upper,
        kind: kind_moved(alloc, to, &x.kind)?,
    })
}

/// Puts a feature behind the others, where there is one of that number.
fn push_feature(
    alloc: Global,
    next: &Metamodel,
    to: &Orders,
    f: u32,
    moved: &mut Vec<Feature>,
) -> Result<(), AllocError>
    ensures { OnOk result (moved.new.items ≡ moved.old.items ++ filter_map (λ k. option_map (feature_moved to.now) (slice_get next.now.features k)) (f ∷ [])) }
{
    match next.get_feature(f) {
        Some(x) => moved.push(feature_moved(alloc, to, x)?)?,
        None => {}
    }
    Ok(())
}

fn features(alloc: Global, next: &Metamodel, to: &Orders) -> Result<Vec<Feature>, AllocError>
    ensures { IfOk result (λ v. v.items ≡ filter_map (λ f. option_map (feature_moved to.now) (slice_get next.now.features f)) to.now.features) }
{
    let mut moved = Vec::new(alloc);
    for f in to.features.numbers() {
        push_feature(alloc, next, to, *f, &mut moved)?;
    }
    Ok(moved)
}

/// The numbers of a set, rising.
fn numbers_of(alloc: Global, set: &BTreeSet<u32>) -> Result<Vec<u32>, AllocError>
    ensures { IfOk result (λ v. v.items ≡ set.now.keys) }
{
    let numbers: Vec<u32> = set.iter().copied().collect(alloc)?;
    Ok(numbers)
}

/// The features of a class by their new numbers, rising.
fn features_of(
    alloc: Global,
    next: &Metamodel,
    order: &Order,
    c: u32,
) -> Result<Vec<u32>, AllocError>
    requires { length order.now ≡ length next.now.features }
    ensures { IfOk result (λ v. v.items ≡ places (declared next.now c) order.now) }
{
    next.recall_promises();
    let set = places(alloc, order, next.features_of(c))?;
    let numbers = numbers_of(alloc, &set)?;
    Ok(numbers)
}

fn class_moved(
    alloc: Global,
    next: &Metamodel,
    to: &Orders,
    c: u32,
    x: &Class,
) -> Result<Class, AllocError>
    requires { length to.now.features ≡ length next.now.features }
    ensures { IfOk result (λ y. y ≡ class_moved next.now to.now c x.now) }
{
    Ok(Class {
        name: x.name.copy(alloc)?,
        is_abstract: x.is_abstract,
        features: List::from_vec(features_of(alloc, next, &to.features, c)?),
    })
}

/// Puts a class behind the others, where there is one of that number.
fn push_class(
    alloc: Global,
    next: &Metamodel,
    to: &Orders,
    c: u32,
    moved: &mut Vec<Class>,
) -> Result<(), AllocError>
    requires { length to.now.features ≡ length next.now.features }
    ensures { OnOk result (moved.new.items ≡ moved.old.items ++ filter_map (λ k. option_map (class_moved next.now to.now k) (slice_get next.now.classes k)) (c ∷ [])) }
{
    match next.get_class(c) {
        Some(x) => moved.push(class_moved(alloc, next, to, c, x)?)?,
        None => {}
    }
    Ok(())
}

fn classes(alloc: Global, next: &Metamodel, to: &Orders) -> Result<Vec<Class>, AllocError>
    requires { length to.now.features ≡ length next.now.features }
    ensures { IfOk result (λ v. v.items ≡ filter_map (λ c. option_map (class_moved next.now to.now c) (slice_get next.now.classes c)) to.now.classes) }
{
    let mut moved = Vec::new(alloc);
    for c in to.classes.numbers() {
        push_class(alloc, next, to, *c, &mut moved)?;
    }
    Ok(moved)
}

/// The classes that a class is, by their new numbers.
fn above_moved(
    alloc: Global,
    next: &Metamodel,
    order: &Order,
    c: u32,
) -> Result<BTreeSet<u32>, AllocError>
    requires { length order.now ≡ length next.now.classes }
    ensures { IfOk result (λ s. s.keys ≡ places (is_a next.now c) order.now) }
{
    next.recall_promises();
    let classes = above_of(alloc, next, c)?;
    let set = places(alloc, order, classes.as_slice())?;
    Ok(set)
}

fn above(alloc: Global, next: &Metamodel, order: &Order) -> Result<Vec<BTreeSet<u32>>, AllocError>
    requires { length order.now ≡ length next.now.classes }
    ensures { IfOk result (λ v. map (λ s. s.keys) v.items ≡ map (λ c. places (is_a next.now c) order.now) order.now) }
{
    let mut moved = Vec::new(alloc);
    for c in order.numbers() {
        moved.push(above_moved(alloc, next, order, *c)?)?;
    }
    Ok(moved)
}

fn copy_literal(alloc: Global, literal: &EnumLiteral) -> Result<EnumLiteral, AllocError>
    ensures { IfOk result (λ l. l ≡ literal.now) }
{
    let name = literal.name.copy(alloc)?;
    let text = literal.text.copy(alloc)?;
    Ok(EnumLiteral { name, text })
}

fn copy_literals(alloc: Global, literals: &[EnumLiteral]) -> Result<Vec<EnumLiteral>, AllocError>
    ensures { IfOk result (λ v. v.items ≡ literals.now) }
{
    let mut copies = Vec::new(alloc);
    for literal in literals {
        copies.push(copy_literal(alloc, literal)?)?;
    }
    Ok(copies)
}

fn copy_enum(alloc: Global, found: &Enum) -> Result<Enum, AllocError>
    ensures { IfOk result (λ e. e ≡ found.now) }
{
    let name = found.name.copy(alloc)?;
    let literals = List::from_vec(copy_literals(alloc, found.literals.as_slice())?);
    Ok(Enum { name, literals })
}

/// Puts an enum behind the others.
fn push_enum(
    alloc: Global,
    next: &Metamodel,
    e: u32,
    moved: &mut Vec<Enum>,
) -> Result<(), AllocError>
    requires there { e < length next.now.enums }
    requires short { AreShort moved.old.items }
    ensures short { OnOk result (AreShort moved.new.items) }
    ensures moved { OnOk result (moved.new.items ≡ moved.old.items ++ filter_map (λ k. slice_get next.now.enums k) (e ∷ [])) }
{
    // For how many literals there are.
    let _count = next.literal_count(e);
    match next.get_enum(e) {
        Some(found) => moved.push(copy_enum(alloc, found)?)?,
        None => {}
    }
    Ok(())
}

fn enums(alloc: Global, next: &Metamodel, order: &Order) -> Result<Enums, AllocError>
    requires { length order.now ≡ length next.now.enums }
    ensures { IfOk result (λ a. a ≡ filter_map (λ e. slice_get next.now.enums e) order.now) }
{
    order.recall_order();
    let mut moved = Vec::new(alloc);
    for e in order.numbers() {
        push_enum(alloc, next, *e, &mut moved)?;
    }
    Enums::new(alloc, moved)
}

/// The parts of the metamodel with the new numbers.
pub(crate) fn renumbered(alloc: Global, next: &Metamodel, to: &Orders) -> Result<Parts, AllocError>
    requires classes { length to.now.classes ≡ length next.now.classes }
    requires features { length to.now.features ≡ length next.now.features }
    requires enums { length to.now.enums ≡ length next.now.enums }
    ensures { IfOk result (λ p. meta_in p ≡ renumbered next.now to.now) }
{
    let uri = Text::new(alloc, next.uri())?;
    let classes = classes(alloc, next, to)?;
    let above = above(alloc, next, &to.classes)?;
    let features = features(alloc, next, to)?;
    let enums = enums(alloc, next, &to.enums)?;
    Ok(Parts {
        uri,
        classes,
        above,
        features,
        enums,
    })
}
