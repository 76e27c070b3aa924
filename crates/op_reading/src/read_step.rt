//! Steps, read from the first byte on: one function a kind.
ghost use Rattle.op_reading.specs.Steps.{put_at, ins_at, del_at, shift_at, link_at, unlink_at, rerank_row_at, new_at, gone_at, move_at, rerank_place_at, step_at};
ghost use Rattle.op_reading.specs.Given.{Gives};

use crate::FormFault;
use crate::read_value::{
    take_id, take_ids, take_place, take_rank_if_any, take_value, take_value_if_any,
};
use byte_form::Reader;
use ecore_meta::Boxed;
use model_state::Step;
use std::alloc::Global;

/// A step: its kind's byte, and its fields.
#[tactic(auto, unfolding(crate::specs::Steps::step_at))]
pub(crate) fn take_step(alloc: Global, reader: &mut Reader<'_>) -> Result<Step, FormFault>
    ensures { Gives reader.new result (step_at reader.old) }
{
    let at = reader.offset();
    match reader.take_u8()? {
        1 => put(alloc, reader),
        2 => ins(alloc, reader),
        3 => del(alloc, reader),
        4 => shift(alloc, reader),
        5 => link(alloc, reader),
        6 => unlink(alloc, reader),
        7 => rerank_row(alloc, reader),
        8 => new(alloc, reader),
        9 => gone(alloc, reader),
        10 => move_(alloc, reader),
        11 => rerank_place(alloc, reader),
        _ => Err(FormFault::NotForm { at }),
    }
}

#[tactic(auto, unfolding(crate::specs::Steps::put_at))]
fn put(alloc: Global, reader: &mut Reader<'_>) -> Result<Step, FormFault>
    ensures { Gives reader.new result (put_at reader.old) }
{
    let e = take_id(alloc, reader)?;
    let f = reader.take_u32()?;
    let old = take_value_if_any(alloc, reader)?;
    let new = take_value_if_any(alloc, reader)?;
    Ok(Step::Put { e, f, old, new })
}

#[tactic(auto, unfolding(crate::specs::Steps::ins_at))]
fn ins(alloc: Global, reader: &mut Reader<'_>) -> Result<Step, FormFault>
    ensures { Gives reader.new result (ins_at reader.old) }
{
    let e = take_id(alloc, reader)?;
    let f = reader.take_u32()?;
    let at = reader.take_u32()?;
    let v = take_value(alloc, reader)?;
    Ok(Step::Ins { e, f, at, v })
}

#[tactic(auto, unfolding(crate::specs::Steps::del_at))]
fn del(alloc: Global, reader: &mut Reader<'_>) -> Result<Step, FormFault>
    ensures { Gives reader.new result (del_at reader.old) }
{
    let e = take_id(alloc, reader)?;
    let f = reader.take_u32()?;
    let at = reader.take_u32()?;
    let v = take_value(alloc, reader)?;
    Ok(Step::Del { e, f, at, v })
}

#[tactic(auto, unfolding(crate::specs::Steps::shift_at))]
fn shift(alloc: Global, reader: &mut Reader<'_>) -> Result<Step, FormFault>
    ensures { Gives reader.new result (shift_at reader.old) }
{
    let e = take_id(alloc, reader)?;
    let f = reader.take_u32()?;
    let from = reader.take_u32()?;
    let to = reader.take_u32()?;
    Ok(Step::Shift { e, f, from, to })
}

#[tactic(auto, unfolding(crate::specs::Steps::link_at))]
fn link(alloc: Global, reader: &mut Reader<'_>) -> Result<Step, FormFault>
    ensures { Gives reader.new result (link_at reader.old) }
{
    let a = take_id(alloc, reader)?;
    let f = reader.take_u32()?;
    let ra = reader.take_u64()?;
    let b = take_id(alloc, reader)?;
    let rb = take_rank_if_any(reader)?;
    Ok(Step::Link { a, f, ra, b, rb })
}

#[tactic(auto, unfolding(crate::specs::Steps::unlink_at))]
fn unlink(alloc: Global, reader: &mut Reader<'_>) -> Result<Step, FormFault>
    ensures { Gives reader.new result (unlink_at reader.old) }
{
    let a = take_id(alloc, reader)?;
    let f = reader.take_u32()?;
    let ra = reader.take_u64()?;
    let b = take_id(alloc, reader)?;
    let rb = take_rank_if_any(reader)?;
    Ok(Step::Unlink { a, f, ra, b, rb })
}

#[tactic(auto, unfolding(crate::specs::Steps::rerank_row_at))]
fn rerank_row(alloc: Global, reader: &mut Reader<'_>) -> Result<Step, FormFault>
    ensures { Gives reader.new result (rerank_row_at reader.old) }
{
    let a = take_id(alloc, reader)?;
    let f = reader.take_u32()?;
    let b = take_id(alloc, reader)?;
    let old = reader.take_u64()?;
    let new = reader.take_u64()?;
    Ok(Step::RerankRow { a, f, b, old, new })
}

#[tactic(auto, unfolding(crate::specs::Steps::new_at))]
fn new(alloc: Global, reader: &mut Reader<'_>) -> Result<Step, FormFault>
    ensures { Gives reader.new result (new_at reader.old) }
{
    let e = take_id(alloc, reader)?;
    let class = reader.take_u32()?;
    let place = take_place(alloc, reader)?;
    let rank = reader.take_u64()?;
    Ok(Step::New {
        e,
        class,
        place,
        rank,
    })
}

#[tactic(auto, unfolding(crate::specs::Steps::gone_at))]
fn gone(alloc: Global, reader: &mut Reader<'_>) -> Result<Step, FormFault>
    ensures { Gives reader.new result (gone_at reader.old) }
{
    let e = take_id(alloc, reader)?;
    let class = reader.take_u32()?;
    let place = take_place(alloc, reader)?;
    let rank = reader.take_u64()?;
    Ok(Step::Gone {
        e,
        class,
        place,
        rank,
    })
}

#[tactic(auto, unfolding(crate::specs::Steps::move_at))]
fn move_(alloc: Global, reader: &mut Reader<'_>) -> Result<Step, FormFault>
    ensures { Gives reader.new result (move_at reader.old) }
{
    let e = take_id(alloc, reader)?;
    let from = take_place(alloc, reader)?;
    let from_rank = reader.take_u64()?;
    let to = take_place(alloc, reader)?;
    let to_rank = reader.take_u64()?;
    let above_from = take_ids(alloc, reader)?;
    let above_to = take_ids(alloc, reader)?;
    Ok(Step::Move {
        e,
        from: Boxed::new(alloc, from)?,
        from_rank,
        to: Boxed::new(alloc, to)?,
        to_rank,
        above_from: Boxed::new(alloc, above_from)?,
        above_to: Boxed::new(alloc, above_to)?,
    })
}

#[tactic(auto, unfolding(crate::specs::Steps::rerank_place_at))]
fn rerank_place(alloc: Global, reader: &mut Reader<'_>) -> Result<Step, FormFault>
    ensures { Gives reader.new result (rerank_place_at reader.old) }
{
    let e = take_id(alloc, reader)?;
    let old = reader.take_u64()?;
    let new = reader.take_u64()?;
    Ok(Step::RerankPlace { e, old, new })
}
