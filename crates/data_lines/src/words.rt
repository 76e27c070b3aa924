//! Words of a step's line.
ghost use Rattle.std.specs.Prelude.{◌≡◌, ◌++◌, ◌∷◌, OnOk};
ghost use Rattle.std.specs.Fmt.{decimal};
ghost use Rattle.shown_lines.specs.Lines.{class_name, feature_name, optional, place_word, value_word};
ghost use Rattle.shown_lines.specs.Typed.{IsClass, IsFeature, IsPlace, IsValue, IsValueIfAny};

use crate::line::Line;
use ecore_meta::{Kind, Metamodel, Value};
use model_state::Place;
use std::alloc::AllocError;

/// The name of a class as the metamodel has it.
pub(crate) fn class_name(meta: &Metamodel, c: u32) -> &str
    requires { IsClass meta.now c }
    ensures { result.now ≡ class_name meta.now c }
{
    meta.class(c).name.as_str()
}

/// The name of a feature as the metamodel has it.
pub(crate) fn feature_name(meta: &Metamodel, f: u32) -> &str
    requires { IsFeature meta.now f }
    ensures { result.now ≡ feature_name meta.now f }
{
    meta.feature(f).name.as_str()
}

/// Adds a space and the JSON text of a value of the feature.
pub(crate) fn push_value(
    line: &mut Line,
    meta: &Metamodel,
    f: u32,
    v: &Value,
) -> Result<(), AllocError>
    requires feature { IsFeature meta.now f }
    requires value { IsValue meta.now f v.now }
    ensures { OnOk result (line.new ≡ line.old ++ 32 ∷ value_word meta.now f v.now) }
{
    match &meta.feature(f).kind {
        Kind::Attr { scalar, .. } => line.push_value(v, scalar, meta),
        Kind::AttrMany { scalar, .. } => line.push_value(v, scalar, meta),
        _ => line.push_word(""),
    }
}

/// Adds a space and the JSON text of a value, or `-` where there is none.
pub(crate) fn push_value_if_any(
    line: &mut Line,
    meta: &Metamodel,
    f: u32,
    v: &Option<Value>,
) -> Result<(), AllocError>
    requires feature { IsFeature meta.now f }
    requires value { IsValueIfAny meta.now f v.now }
    ensures { OnOk result (line.new ≡ line.old ++ 32 ∷ optional (value_word meta.now f) v.now) }
{
    match v {
        None => line.push_word("-"),
        Some(v) => push_value(line, meta, f, v),
    }
}

/// Adds a space and a rank in decimal, or `-` where there is none.
pub(crate) fn push_rank_if_any(line: &mut Line, rank: Option<u64>) -> Result<(), AllocError>
    ensures { OnOk result (line.new ≡ line.old ++ 32 ∷ optional decimal rank) }
{
    match rank {
        None => line.push_word("-"),
        Some(rank) => line.push_number(rank),
    }
}

/// Adds a space and `/` for the root, or the parent's id, `/` and the feature's name.
pub(crate) fn push_place(line: &mut Line, meta: &Metamodel, place: &Place) -> Result<(), AllocError>
    requires { IsPlace meta.now place.now }
    ensures { OnOk result (line.new ≡ line.old ++ 32 ∷ place_word meta.now place.now) }
{
    match place {
        Place::Root => line.push_word("/"),
        Place::Inside { parent, feature } => {
            line.push_word(parent.as_str())?;
            line.push("/")?;
            line.push(feature_name(meta, *feature))
        }
    }
}
