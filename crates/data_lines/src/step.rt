//! The line of a step.
ghost use Rattle.std.specs.Prelude.{◌≡◌, ◌++◌, ◌∷◌, [], IfOk, OnOk, codes};
ghost use Rattle.std.specs.Fmt.{decimal};
ghost use Rattle.shown_lines.specs.Lines.{class_name, feature_name, optional, place_word, after_spaces, step_line, value_word};
ghost use Rattle.shown_lines.specs.Typed.{IsClass, IsFeature, IsPlace, IsTyped, IsValue, IsValueIfAny};

use crate::line::Line;
use crate::words::{
    class_name, feature_name, push_place, push_rank_if_any, push_value, push_value_if_any,
};
use ecore_meta::{Metamodel, Value};
use model_state::{Id, Place, Step};
use std::alloc::{AllocError, Global};
use texts::Text;

/// The line of a step.
pub(crate) fn step_line(alloc: Global, meta: &Metamodel, step: &Step) -> Result<Text, AllocError>
    requires { IsTyped meta.now step.now }
    ensures { IfOk result (λ t. t ≡ step_line meta.now step.now) }
{
    let mut line = Line::new(alloc);
    push_step(&mut line, meta, step)?;
    line.into_text()
}

#[tactic(auto, unfolding(shown_lines::specs::Lines::step_words))]
fn push_step(line: &mut Line, meta: &Metamodel, step: &Step) -> Result<(), AllocError>
    requires { IsTyped meta.now step.now }
    ensures { OnOk result (line.new ≡ line.old ++ step_line meta.now step.now) }
{
    match step {
        Step::Put { e, f, old, new } => push_change(line, meta, e, *f, old, new),
        Step::Ins { e, f, at, v } => push_at(line, meta, "ins", e, *f, *at, v),
        Step::Del { e, f, at, v } => push_at(line, meta, "del", e, *f, *at, v),
        Step::Shift { e, f, from, to } => push_shift(line, meta, e, *f, *from, *to),
        Step::Link { a, f, ra, b, rb } => push_row(line, meta, "link", a, *f, *ra, b, *rb),
        Step::Unlink { a, f, ra, b, rb } => push_row(line, meta, "unlink", a, *f, *ra, b, *rb),
        Step::RerankRow { a, f, b, old, new } => push_rank_of_row(line, meta, a, *f, b, *old, *new),
        Step::New {
            e,
            class,
            place,
            rank,
        } => push_birth(line, meta, "new", e, *class, place, *rank),
        Step::Gone {
            e,
            class,
            place,
            rank,
        } => push_birth(line, meta, "gone", e, *class, place, *rank),
        Step::Move {
            e,
            from,
            from_rank,
            to,
            to_rank,
            ..
        } => push_move(line, meta, e, from.get(), *from_rank, to.get(), *to_rank),
        Step::RerankPlace { e, old, new } => push_rank_of_place(line, e, *old, *new),
    }
}

/// A kind of step, and the element that it changes.
fn push_element(line: &mut Line, kind: &str, e: &Id) -> Result<(), AllocError>
    ensures { OnOk result (line.new ≡ line.old ++ after_spaces (kind.now ∷ e.now ∷ [])) }
{
    line.push_word(kind)?;
    line.push_word(e.as_str())
}

/// A kind of step, and the feature of an element that it changes.
fn push_feature(
    line: &mut Line,
    meta: &Metamodel,
    kind: &str,
    e: &Id,
    f: u32,
) -> Result<(), AllocError>
    requires { IsFeature meta.now f }
    ensures { OnOk result (line.new ≡ line.old ++ after_spaces (kind.now ∷ e.now ∷ feature_name meta.now f ∷ [])) }
{
    push_element(line, kind, e)?;
    line.push_word(feature_name(meta, f))
}

/// A place, and the rank there.
fn push_spot(line: &mut Line, meta: &Metamodel, place: &Place, rank: u64) -> Result<(), AllocError>
    requires { IsPlace meta.now place.now }
    ensures { OnOk result (line.new ≡ line.old ++ after_spaces (place_word meta.now place.now ∷ decimal rank ∷ [])) }
{
    push_place(line, meta, place)?;
    line.push_number(rank)
}

fn push_numbers(line: &mut Line, before: u64, after: u64) -> Result<(), AllocError>
    ensures { OnOk result (line.new ≡ line.old ++ after_spaces (decimal before ∷ decimal after ∷ [])) }
{
    line.push_number(before)?;
    line.push_number(after)
}

/// A value before and a value after.
fn push_change(
    line: &mut Line,
    meta: &Metamodel,
    e: &Id,
    f: u32,
    old: &Option<Value>,
    new: &Option<Value>,
) -> Result<(), AllocError>
    requires feature { IsFeature meta.now f }
    requires old { IsValueIfAny meta.now f old.now }
    requires new { IsValueIfAny meta.now f new.now }
    ensures { OnOk result (line.new ≡ line.old ++ after_spaces (codes "put" ∷ e.now ∷ feature_name meta.now f ∷ optional (value_word meta.now f) old.now ∷ optional (value_word meta.now f) new.now ∷ [])) }
{
    push_feature(line, meta, "put", e, f)?;
    push_value_if_any(line, meta, f, old)?;
    push_value_if_any(line, meta, f, new)
}

/// An index of a list, and the value there.
fn push_at(
    line: &mut Line,
    meta: &Metamodel,
    kind: &str,
    e: &Id,
    f: u32,
    at: u32,
    v: &Value,
) -> Result<(), AllocError>
    requires feature { IsFeature meta.now f }
    requires value { IsValue meta.now f v.now }
    ensures { OnOk result (line.new ≡ line.old ++ after_spaces (kind.now ∷ e.now ∷ feature_name meta.now f ∷ decimal at ∷ value_word meta.now f v.now ∷ [])) }
{
    push_feature(line, meta, kind, e, f)?;
    line.push_number(at as u64)?;
    push_value(line, meta, f, v)
}

/// The index before and the index after.
fn push_shift(
    line: &mut Line,
    meta: &Metamodel,
    e: &Id,
    f: u32,
    from: u32,
    to: u32,
) -> Result<(), AllocError>
    requires { IsFeature meta.now f }
    ensures { OnOk result (line.new ≡ line.old ++ after_spaces (codes "shift" ∷ e.now ∷ feature_name meta.now f ∷ decimal from ∷ decimal to ∷ [])) }
{
    push_feature(line, meta, "shift", e, f)?;
    push_numbers(line, from as u64, to as u64)
}

/// The rank of a reference, its target, and the rank of its opposite.
fn push_row(
    line: &mut Line,
    meta: &Metamodel,
    kind: &str,
    a: &Id,
    f: u32,
    ra: u64,
    b: &Id,
    rb: Option<u64>,
) -> Result<(), AllocError>
    requires { IsFeature meta.now f }
    ensures { OnOk result (line.new ≡ line.old ++ after_spaces (kind.now ∷ a.now ∷ feature_name meta.now f ∷ decimal ra ∷ b.now ∷ optional decimal rb ∷ [])) }
{
    push_feature(line, meta, kind, a, f)?;
    line.push_number(ra)?;
    line.push_word(b.as_str())?;
    push_rank_if_any(line, rb)
}

/// The target of a reference, and the rank before and after.
fn push_rank_of_row(
    line: &mut Line,
    meta: &Metamodel,
    a: &Id,
    f: u32,
    b: &Id,
    old: u64,
    new: u64,
) -> Result<(), AllocError>
    requires { IsFeature meta.now f }
    ensures { OnOk result (line.new ≡ line.old ++ after_spaces (codes "rerank" ∷ a.now ∷ feature_name meta.now f ∷ b.now ∷ decimal old ∷ decimal new ∷ [])) }
{
    push_feature(line, meta, "rerank", a, f)?;
    line.push_word(b.as_str())?;
    push_numbers(line, old, new)
}

/// An element that is created or deleted, with its class, its place and its rank there.
fn push_birth(
    line: &mut Line,
    meta: &Metamodel,
    kind: &str,
    e: &Id,
    class: u32,
    place: &Place,
    rank: u64,
) -> Result<(), AllocError>
    requires class { IsClass meta.now class }
    requires place { IsPlace meta.now place.now }
    ensures { OnOk result (line.new ≡ line.old ++ after_spaces (kind.now ∷ e.now ∷ class_name meta.now class ∷ place_word meta.now place.now ∷ decimal rank ∷ [])) }
{
    push_element(line, kind, e)?;
    line.push_word(class_name(meta, class))?;
    push_spot(line, meta, place, rank)
}

/// The place and rank before, and those after.
fn push_move(
    line: &mut Line,
    meta: &Metamodel,
    e: &Id,
    from: &Place,
    from_rank: u64,
    to: &Place,
    to_rank: u64,
) -> Result<(), AllocError>
    requires from { IsPlace meta.now from.now }
    requires to { IsPlace meta.now to.now }
    ensures { OnOk result (line.new ≡ line.old ++ after_spaces (codes "move" ∷ e.now ∷ place_word meta.now from.now ∷ decimal from_rank ∷ place_word meta.now to.now ∷ decimal to_rank ∷ [])) }
{
    push_element(line, "move", e)?;
    push_spot(line, meta, from, from_rank)?;
    push_spot(line, meta, to, to_rank)
}

/// The rank of an element before and after.
fn push_rank_of_place(line: &mut Line, e: &Id, old: u64, new: u64) -> Result<(), AllocError>
    ensures { OnOk result (line.new ≡ line.old ++ after_spaces (codes "place" ∷ e.now ∷ decimal old ∷ decimal new ∷ [])) }
{
    push_element(line, "place", e)?;
    push_numbers(line, old, new)
}
