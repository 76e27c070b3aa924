//! Steps, written after what stands: ids, values, places, and each kind's fields.
ghost use Rattle.std.specs.Prelude.{◌≡◌, ◌++◌, ◌∷◌, ◌<◌, OnOk};
ghost use Rattle.byte_form.specs.Fields.{text_encoding, u32_encoding, u64_encoding};
ghost use Rattle.op_form.specs.Lists.{option_encoding, items_encoding, list_encoding};
ghost use Rattle.op_form.specs.Values.{value_encoding, place_encoding, flag_encoding};
ghost use Rattle.op_form.specs.Steps.{step_encoding};
ghost use Rattle.op_form.specs.Formed.{IsGiven, IsIdText, IsList, IsValue, IsStep};

use byte_form::Form;
use ecore_meta::Value;
use model_state::{Id, Place, Step};
use std::alloc::AllocError;
use texts::List;

/// Writes an id as a text: the count of its bytes, and the bytes. The error is out of memory.
pub(crate) fn put_id(form: &mut Form, id: &Id) -> Result<(), AllocError>
    ensures { OnOk result (form.new ≡ form.old ++ text_encoding id.now) }
{
    form.put_text(id.as_str())
}

fn put_flag(form: &mut Form, flag: bool) -> Result<(), AllocError>
    ensures { OnOk result (form.new ≡ form.old ++ flag_encoding flag) }
{
    form.put_u8(if flag { 1 } else { 0 })
}

/// Writes the byte of a value's kind, from 1 to 4, and what that kind has. The error is out of memory.
#[tactic(auto, unfolding(crate::specs::Values::value_encoding))]
pub(crate) fn put_value(form: &mut Form, value: &Value) -> Result<(), AllocError>
    requires { IsValue value.now }
    ensures { OnOk result (form.new ≡ form.old ++ value_encoding value.now) }
{
    match value {
        Value::Text(text) => {
            form.put_u8(1)?;
            form.put_text(text.as_str())
        }
        Value::Flag(flag) => {
            form.put_u8(2)?;
            put_flag(form, *flag)
        }
        Value::Whole(number) => {
            form.put_u8(3)?;
            form.put_u64(number.cast_unsigned())
        }
        Value::Literal(number) => {
            form.put_u8(4)?;
            form.put_u32(*number)
        }
    }
}

fn put_value_if_any(form: &mut Form, value: &Option<Value>) -> Result<(), AllocError>
    requires { IsGiven IsValue value.now }
    ensures { OnOk result (form.new ≡ form.old ++ option_encoding value_encoding value.now) }
{
    match value {
        None => form.put_u8(0),
        Some(value) => {
            form.put_u8(1)?;
            put_value(form, value)
        }
    }
}

fn put_rank_if_any(form: &mut Form, rank: Option<u64>) -> Result<(), AllocError>
    ensures { OnOk result (form.new ≡ form.old ++ option_encoding u64_encoding rank) }
{
    match rank {
        None => form.put_u8(0),
        Some(rank) => {
            form.put_u8(1)?;
            form.put_u64(rank)
        }
    }
}

/// Writes a byte 0 for the root, or a byte 1, the parent's id and the feature's number. The error is out of memory.
#[tactic(auto, unfolding(crate::specs::Values::place_encoding))]
pub(crate) fn put_place(form: &mut Form, place: &Place) -> Result<(), AllocError>
    ensures { OnOk result (form.new ≡ form.old ++ place_encoding place.now) }
{
    match place {
        Place::Root => form.put_u8(0),
        Place::Inside { parent, feature } => {
            form.put_u8(1)?;
            put_id(form, parent)?;
            form.put_u32(*feature)
        }
    }
}

fn put_id_items(form: &mut Form, ids: &[Id]) -> Result<(), AllocError>
    ensures { OnOk result (form.new ≡ form.old ++ items_encoding text_encoding ids.now) }
{
    for id in ids {
        put_id(form, id)?;
    }
    Ok(())
}

fn put_ids(form: &mut Form, ids: &List<Id>) -> Result<(), AllocError>
    requires { IsList IsIdText ids.now }
    ensures { OnOk result (form.new ≡ form.old ++ list_encoding text_encoding ids.now) }
{
    form.put_u32(ids.len() as u32)?;
    put_id_items(form, ids.as_slice())
}

/// A step: its kind's byte, and its fields.
#[tactic(auto, unfolding(crate::specs::Steps::step_encoding))]
pub(crate) fn put_step(form: &mut Form, step: &Step) -> Result<(), AllocError>
    requires { IsStep step.now }
    ensures { OnOk result (form.new ≡ form.old ++ step_encoding step.now) }
{
    match step {
        Step::Put { e, f, old, new } => put_change(form, e, *f, old, new),
        Step::Ins { e, f, at, v } => put_at_index(form, 2, e, *f, *at, v),
        Step::Del { e, f, at, v } => put_at_index(form, 3, e, *f, *at, v),
        Step::Shift { e, f, from, to } => put_shift(form, e, *f, *from, *to),
        Step::Link { a, f, ra, b, rb } => put_row(form, 5, a, *f, *ra, b, *rb),
        Step::Unlink { a, f, ra, b, rb } => put_row(form, 6, a, *f, *ra, b, *rb),
        Step::RerankRow { a, f, b, old, new } => put_rank_of_row(form, a, *f, b, *old, *new),
        Step::New {
            e,
            class,
            place,
            rank,
        } => put_birth(form, 8, e, *class, place, *rank),
        Step::Gone {
            e,
            class,
            place,
            rank,
        } => put_birth(form, 9, e, *class, place, *rank),
        Step::Move {
            e,
            from,
            from_rank,
            to,
            to_rank,
            above_from,
            above_to,
        } => put_move(
            form,
            e,
            from.get(),
            *from_rank,
            to.get(),
            *to_rank,
            above_from.get(),
            above_to.get(),
        ),
        Step::RerankPlace { e, old, new } => put_rank_of_place(form, e, *old, *new),
    }
}

fn put_change(
    form: &mut Form,
    e: &Id,
    f: u32,
    old: &Option<Value>,
    new: &Option<Value>,
) -> Result<(), AllocError>
    requires old { IsGiven IsValue old.now }
    requires new { IsGiven IsValue new.now }
    ensures { OnOk result (form.new ≡ form.old ++ 1 ∷ (text_encoding e.now ++ (u32_encoding f ++ (option_encoding value_encoding old.now ++ option_encoding value_encoding new.now)))) }
{
    form.put_u8(1)?;
    put_id(form, e)?;
    form.put_u32(f)?;
    put_value_if_any(form, old)?;
    put_value_if_any(form, new)
}

fn put_shift(form: &mut Form, e: &Id, f: u32, from: u32, to: u32) -> Result<(), AllocError>
    ensures { OnOk result (form.new ≡ form.old ++ 4 ∷ (text_encoding e.now ++ (u32_encoding f ++ (u32_encoding from ++ u32_encoding to)))) }
{
    form.put_u8(4)?;
    put_id(form, e)?;
    form.put_u32(f)?;
    form.put_u32(from)?;
    form.put_u32(to)
}

fn put_rank_of_row(
    form: &mut Form,
    a: &Id,
    f: u32,
    b: &Id,
    old: u64,
    new: u64,
) -> Result<(), AllocError>
    ensures { OnOk result (form.new ≡ form.old ++ 7 ∷ (text_encoding a.now ++ (u32_encoding f ++ (text_encoding b.now ++ (u64_encoding old ++ u64_encoding new))))) }
{
    form.put_u8(7)?;
    put_id(form, a)?;
    form.put_u32(f)?;
    put_id(form, b)?;
    put_ranks(form, old, new)
}

fn put_move(
    form: &mut Form,
    e: &Id,
    from: &Place,
    from_rank: u64,
    to: &Place,
    to_rank: u64,
    above_from: &List<Id>,
    above_to: &List<Id>,
) -> Result<(), AllocError>
    requires above_from { IsList IsIdText above_from.now }
    requires above_to { IsList IsIdText above_to.now }
    ensures { OnOk result (form.new ≡ form.old ++ 10 ∷ (text_encoding e.now ++ (place_encoding from.now ++ (u64_encoding from_rank ++ (place_encoding to.now ++ (u64_encoding to_rank ++ (list_encoding text_encoding above_from.now ++ list_encoding text_encoding above_to.now))))))) }
{
    form.put_u8(10)?;
    put_id(form, e)?;
    put_spot(form, from, from_rank)?;
    put_spot(form, to, to_rank)?;
    put_ids(form, above_from)?;
    put_ids(form, above_to)
}

fn put_rank_of_place(form: &mut Form, e: &Id, old: u64, new: u64) -> Result<(), AllocError>
    ensures { OnOk result (form.new ≡ form.old ++ 11 ∷ (text_encoding e.now ++ (u64_encoding old ++ u64_encoding new))) }
{
    form.put_u8(11)?;
    put_id(form, e)?;
    put_ranks(form, old, new)
}

fn put_at_index(
    form: &mut Form,
    kind: u8,
    e: &Id,
    f: u32,
    at: u32,
    v: &Value,
) -> Result<(), AllocError>
    requires { IsValue v.now }
    ensures { OnOk result (form.new ≡ form.old ++ kind ∷ (text_encoding e.now ++ (u32_encoding f ++ (u32_encoding at ++ value_encoding v.now)))) }
{
    form.put_u8(kind)?;
    put_id(form, e)?;
    form.put_u32(f)?;
    form.put_u32(at)?;
    put_value(form, v)
}

fn put_row(
    form: &mut Form,
    kind: u8,
    a: &Id,
    f: u32,
    ra: u64,
    b: &Id,
    rb: Option<u64>,
) -> Result<(), AllocError>
    ensures { OnOk result (form.new ≡ form.old ++ kind ∷ (text_encoding a.now ++ (u32_encoding f ++ (u64_encoding ra ++ (text_encoding b.now ++ option_encoding u64_encoding rb))))) }
{
    form.put_u8(kind)?;
    put_id(form, a)?;
    form.put_u32(f)?;
    form.put_u64(ra)?;
    put_id(form, b)?;
    put_rank_if_any(form, rb)
}

fn put_birth(
    form: &mut Form,
    kind: u8,
    e: &Id,
    class: u32,
    place: &Place,
    rank: u64,
) -> Result<(), AllocError>
    ensures { OnOk result (form.new ≡ form.old ++ kind ∷ (text_encoding e.now ++ (u32_encoding class ++ (place_encoding place.now ++ u64_encoding rank)))) }
{
    form.put_u8(kind)?;
    put_id(form, e)?;
    form.put_u32(class)?;
    put_spot(form, place, rank)
}

fn put_spot(form: &mut Form, place: &Place, rank: u64) -> Result<(), AllocError>
    ensures { OnOk result (form.new ≡ form.old ++ (place_encoding place.now ++ u64_encoding rank)) }
{
    put_place(form, place)?;
    form.put_u64(rank)
}

fn put_ranks(form: &mut Form, old: u64, new: u64) -> Result<(), AllocError>
    ensures { OnOk result (form.new ≡ form.old ++ (u64_encoding old ++ u64_encoding new)) }
{
    form.put_u64(old)?;
    form.put_u64(new)
}
