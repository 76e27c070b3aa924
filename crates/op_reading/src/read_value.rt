//! Ids, values and places, read from the first byte on.
ghost use Rattle.op_reading.specs.Reading.{any_text_at, option_at, list_at, items_at, u64_at};
ghost use Rattle.op_reading.specs.Values.{id_at, value_at, place_at, flag_at};
ghost use Rattle.op_reading.specs.Given.{Gives};

use crate::FormFault;
use byte_form::Reader;
use ecore_meta::Value;
use model_state::{Id, IdFault, Place};
use std::alloc::Global;
use texts::{List, Text};

/// A text: the count of its bytes in four bytes, and the bytes.
pub(crate) fn take_text(alloc: Global, reader: &mut Reader<'_>) -> Result<Text, FormFault>
    ensures { Gives reader.new result (any_text_at reader.old) }
{
    let text = reader.take_text(alloc)?;
    Ok(Text::new(alloc, text.as_str())?)
}

/// An id: a text of its form. Where the form is another, the fault has the offset of the text.
#[tactic(auto, unfolding(crate::specs::Values::id_at))]
pub(crate) fn take_id(alloc: Global, reader: &mut Reader<'_>) -> Result<Id, FormFault>
    ensures { Gives reader.new result (id_at reader.old) }
{
    let at = reader.offset();
    let text = reader.take_text(alloc)?;
    match Id::read(alloc, text.as_str()) {
        Ok(id) => Ok(id),
        Err(IdFault::Bad) => Err(FormFault::NotForm { at }),
        Err(IdFault::Memory) => Err(FormFault::Memory),
    }
}

#[tactic(auto, unfolding(crate::specs::Values::flag_at))]
fn take_flag(reader: &mut Reader<'_>) -> Result<Value, FormFault>
    ensures { Gives reader.new result (flag_at reader.old) }
{
    let at = reader.offset();
    match reader.take_u8()? {
        0 => Ok(Value::Flag(false)),
        1 => Ok(Value::Flag(true)),
        _ => Err(FormFault::NotForm { at }),
    }
}

/// A value: the byte of its kind, from 1 to 4, and what that kind has.
#[tactic(auto, unfolding(crate::specs::Values::value_at))]
pub(crate) fn take_value(alloc: Global, reader: &mut Reader<'_>) -> Result<Value, FormFault>
    ensures { Gives reader.new result (value_at reader.old) }
{
    let at = reader.offset();
    match reader.take_u8()? {
        1 => Ok(Value::Text(take_text(alloc, reader)?)),
        2 => take_flag(reader),
        3 => Ok(Value::Whole(reader.take_u64()?.cast_signed())),
        4 => Ok(Value::Literal(reader.take_u32()?)),
        _ => Err(FormFault::NotForm { at }),
    }
}

/// A value after a byte 1, or none after a byte 0.
#[tactic(auto, unfolding(crate::specs::Reading::option_at))]
pub(crate) fn take_value_if_any(
    alloc: Global,
    reader: &mut Reader<'_>,
) -> Result<Option<Value>, FormFault>
    ensures { Gives reader.new result (option_at value_at reader.old) }
{
    let at = reader.offset();
    match reader.take_u8()? {
        0 => Ok(None),
        1 => Ok(Some(take_value(alloc, reader)?)),
        _ => Err(FormFault::NotForm { at }),
    }
}

/// A rank of eight bytes after a byte 1, or none after a byte 0.
#[tactic(auto, unfolding(crate::specs::Reading::option_at))]
pub(crate) fn take_rank_if_any(reader: &mut Reader<'_>) -> Result<Option<u64>, FormFault>
    ensures { Gives reader.new result (option_at u64_at reader.old) }
{
    let at = reader.offset();
    match reader.take_u8()? {
        0 => Ok(None),
        1 => Ok(Some(reader.take_u64()?)),
        _ => Err(FormFault::NotForm { at }),
    }
}

/// A place: a byte 0 for the root, or a byte 1, the parent's id and the feature's number.
#[tactic(auto, unfolding(crate::specs::Values::place_at))]
pub(crate) fn take_place(alloc: Global, reader: &mut Reader<'_>) -> Result<Place, FormFault>
    ensures { Gives reader.new result (place_at reader.old) }
{
    let at = reader.offset();
    match reader.take_u8()? {
        0 => Ok(Place::Root),
        1 => {
            let parent = take_id(alloc, reader)?;
            let feature = reader.take_u32()?;
            Ok(Place::Inside { parent, feature })
        }
        _ => Err(FormFault::NotForm { at }),
    }
}

/// The ids of a list: their count in four bytes, and each as a text.
#[tactic(auto, unfolding(crate::specs::Reading::list_at))]
pub(crate) fn take_ids(alloc: Global, reader: &mut Reader<'_>) -> Result<List<Id>, FormFault>
    ensures { Gives reader.new result (list_at id_at reader.old) }
{
    let count = reader.take_u32()?;
    id_items(alloc, reader, count)
}

fn id_items(alloc: Global, reader: &mut Reader<'_>, count: u32) -> Result<List<Id>, FormFault>
    ensures { Gives reader.new result (items_at id_at count reader.old) }
{
    let mut ids = List::new(alloc);
    for index in 0..count {
        ids.push(take_id(alloc, reader)?)?;
    }
    Ok(ids)
}
