//! Packages and events, read from the first byte on, and as all of the bytes.
ghost use Rattle.op_reading.specs.Reading.{list_at, some_at, items_at};
ghost use Rattle.op_reading.specs.Steps.{step_at};
ghost use Rattle.op_reading.specs.Packages.{kind_at, name_at, simple_at, composite_at, operation_at, package_at};
ghost use Rattle.op_reading.specs.Events.{init_at, checkout_at, edit_at, begin_at, commit_at, branch_at, tag_at, update_at, merge_at, evolve_at, signed_at, event_at, whole_of};
ghost use Rattle.op_reading.specs.Given.{Gives, GivesWhole};

use crate::FormFault;
use crate::read_step::take_step;
use crate::read_value::take_text;
use byte_form::Reader;
use ecore_meta::CompactList;
use model_state::{OpKind, Operation, Package, Step, is_name};
use op_form::Event;
use std::alloc::Global;
use texts::{List, Text};

/// The package whose encoding all of the bytes are.
///
/// # Errors
///
/// `NotForm` with the offset of the first field that can't be read, or of the first byte left over; `Memory`.
#[tactic(auto, unfolding(crate::specs::Events::whole_of))]
pub fn decode(alloc: Global, bytes: &[u8]) -> Result<Package, FormFault>
    ensures read { GivesWhole result (whole_of package_at bytes.now) }
{
    let mut reader = Reader::new(bytes);
    let package = take_package(alloc, &mut reader)?;
    reader.finish()?;
    Ok(package)
}

/// The event whose encoding all of the bytes are.
///
/// # Errors
///
/// As of `decode`.
#[tactic(auto, unfolding(crate::specs::Events::whole_of))]
pub fn decode_event(alloc: Global, bytes: &[u8]) -> Result<Event, FormFault>
    ensures read { GivesWhole result (whole_of event_at bytes.now) }
{
    let mut reader = Reader::new(bytes);
    let event = take_event(alloc, &mut reader)?;
    reader.finish()?;
    Ok(event)
}

#[tactic(auto, unfolding(crate::specs::Packages::kind_at))]
fn take_kind(reader: &mut Reader<'_>) -> Result<OpKind, FormFault>
    ensures { Gives reader.new result (kind_at reader.old) }
{
    let at = reader.offset();
    match reader.take_u8()? {
        1 => Ok(OpKind::Create),
        2 => Ok(OpKind::Delete),
        3 => Ok(OpKind::Attribute),
        4 => Ok(OpKind::ManyAttribute),
        5 => Ok(OpKind::Reference),
        6 => Ok(OpKind::Move),
        _ => Err(FormFault::NotForm { at }),
    }
}

#[tactic(auto, unfolding(crate::specs::Packages::name_at))]
fn take_name(alloc: Global, reader: &mut Reader<'_>) -> Result<Text, FormFault>
    ensures { Gives reader.new result (name_at reader.old) }
{
    let at = reader.offset();
    let name = take_text(alloc, reader)?;
    if !is_name(name.as_str()) {
        return Err(FormFault::NotForm { at });
    }
    Ok(name)
}

#[tactic(auto, unfolding(crate::specs::Reading::some_at))]
fn take_steps(alloc: Global, reader: &mut Reader<'_>) -> Result<List<Step>, FormFault>
    ensures { Gives reader.new result (some_at step_at reader.old) }
{
    let at = reader.offset();
    let count = reader.take_u32()?;
    if count == 0 {
        return Err(FormFault::NotForm { at });
    }
    step_items(alloc, reader, count)
}

fn step_items(alloc: Global, reader: &mut Reader<'_>, count: u32) -> Result<List<Step>, FormFault>
    ensures { Gives reader.new result (items_at step_at count reader.old) }
{
    let mut steps = List::new(alloc);
    for index in 0..count {
        steps.push(take_step(alloc, reader)?)?;
    }
    Ok(steps)
}

#[tactic(auto, unfolding(crate::specs::Packages::simple_at))]
fn take_simple(alloc: Global, reader: &mut Reader<'_>) -> Result<Operation, FormFault>
    ensures { Gives reader.new result (simple_at reader.old) }
{
    let kind = take_kind(reader)?;
    let steps = take_steps(alloc, reader)?;
    Ok(Operation::Simple {
        kind,
        steps: CompactList::from_list(steps),
    })
}

#[tactic(auto, unfolding(crate::specs::Packages::composite_at))]
fn take_composite(alloc: Global, reader: &mut Reader<'_>) -> Result<Operation, FormFault>
    ensures { Gives reader.new result (composite_at reader.old) }
{
    let name = take_name(alloc, reader)?;
    let steps = take_steps(alloc, reader)?;
    Ok(Operation::Composite { name, steps })
}

#[tactic(auto, unfolding(crate::specs::Packages::operation_at))]
fn take_operation(alloc: Global, reader: &mut Reader<'_>) -> Result<Operation, FormFault>
    ensures { Gives reader.new result (operation_at reader.old) }
{
    let at = reader.offset();
    match reader.take_u8()? {
        1 => take_simple(alloc, reader),
        2 => take_composite(alloc, reader),
        _ => Err(FormFault::NotForm { at }),
    }
}

#[tactic(auto, unfolding(crate::specs::Packages::package_at, crate::specs::Reading::list_at))]
fn take_package(alloc: Global, reader: &mut Reader<'_>) -> Result<Package, FormFault>
    ensures { Gives reader.new result (package_at reader.old) }
{
    let count = reader.take_u32()?;
    operation_items(alloc, reader, count)
}

fn operation_items(
    alloc: Global,
    reader: &mut Reader<'_>,
    count: u32,
) -> Result<List<Operation>, FormFault>
    ensures { Gives reader.new result (items_at operation_at count reader.old) }
{
    let mut operations = List::new(alloc);
    for index in 0..count {
        operations.push(take_operation(alloc, reader)?)?;
    }
    Ok(operations)
}

#[tactic(auto, unfolding(crate::specs::Events::event_at, crate::specs::Events::upgrade_at))]
fn take_event(alloc: Global, reader: &mut Reader<'_>) -> Result<Event, FormFault>
    ensures { Gives reader.new result (event_at reader.old) }
{
    let at = reader.offset();
    match reader.take_u8()? {
        1 => take_init(alloc, reader),
        2 => take_checkout(reader),
        3 => take_edit(alloc, reader),
        4 => take_begin(alloc, reader),
        5 => Ok(Event::End {
            ws: reader.take_u32()?,
        }),
        6 => Ok(Event::Undo {
            ws: reader.take_u32()?,
        }),
        7 => Ok(Event::Discard {
            ws: reader.take_u32()?,
        }),
        8 => Ok(Event::Tidy {
            ws: reader.take_u32()?,
        }),
        9 => take_commit(alloc, reader),
        10 => take_branch(alloc, reader),
        11 => take_tag(alloc, reader),
        12 => take_update(alloc, reader),
        13 => take_merge(alloc, reader),
        14 => Ok(Event::Drop {
            ws: reader.take_u32()?,
        }),
        15 => take_evolve(alloc, reader),
        16 => Ok(Event::Upgrade),
        17 => take_signed(alloc, reader),
        _ => Err(FormFault::NotForm { at }),
    }
}

#[tactic(auto, unfolding(crate::specs::Events::init_at))]
fn take_init(alloc: Global, reader: &mut Reader<'_>) -> Result<Event, FormFault>
    ensures { Gives reader.new result (init_at reader.old) }
{
    let text = take_text(alloc, reader)?;
    Ok(Event::Init { text })
}

#[tactic(auto, unfolding(crate::specs::Events::checkout_at))]
fn take_checkout(reader: &mut Reader<'_>) -> Result<Event, FormFault>
    ensures { Gives reader.new result (checkout_at reader.old) }
{
    let version = reader.take_u32()?;
    let branch = reader.take_u32()?;
    Ok(Event::Checkout { version, branch })
}

#[tactic(auto, unfolding(crate::specs::Events::edit_at))]
fn take_edit(alloc: Global, reader: &mut Reader<'_>) -> Result<Event, FormFault>
    ensures { Gives reader.new result (edit_at reader.old) }
{
    let ws = reader.take_u32()?;
    let package = take_package(alloc, reader)?;
    Ok(Event::Edit { ws, package })
}

#[tactic(auto, unfolding(crate::specs::Events::begin_at))]
fn take_begin(alloc: Global, reader: &mut Reader<'_>) -> Result<Event, FormFault>
    ensures { Gives reader.new result (begin_at reader.old) }
{
    let ws = reader.take_u32()?;
    let name = take_text(alloc, reader)?;
    Ok(Event::Begin { ws, name })
}

#[tactic(auto, unfolding(crate::specs::Events::commit_at))]
fn take_commit(alloc: Global, reader: &mut Reader<'_>) -> Result<Event, FormFault>
    ensures { Gives reader.new result (commit_at reader.old) }
{
    let ws = reader.take_u32()?;
    let message = take_text(alloc, reader)?;
    Ok(Event::Commit { ws, message })
}

#[tactic(auto, unfolding(crate::specs::Events::branch_at))]
fn take_branch(alloc: Global, reader: &mut Reader<'_>) -> Result<Event, FormFault>
    ensures { Gives reader.new result (branch_at reader.old) }
{
    let ws = reader.take_u32()?;
    let name = take_text(alloc, reader)?;
    Ok(Event::Branch { ws, name })
}

#[tactic(auto, unfolding(crate::specs::Events::tag_at))]
fn take_tag(alloc: Global, reader: &mut Reader<'_>) -> Result<Event, FormFault>
    ensures { Gives reader.new result (tag_at reader.old) }
{
    let name = take_text(alloc, reader)?;
    let version = reader.take_u32()?;
    Ok(Event::Tag { name, version })
}

#[tactic(auto, unfolding(crate::specs::Events::update_at))]
fn take_update(alloc: Global, reader: &mut Reader<'_>) -> Result<Event, FormFault>
    ensures { Gives reader.new result (update_at reader.old) }
{
    let ws = reader.take_u32()?;
    let choices = take_text(alloc, reader)?;
    Ok(Event::Update { ws, choices })
}

#[tactic(auto, unfolding(crate::specs::Events::merge_at))]
fn take_merge(alloc: Global, reader: &mut Reader<'_>) -> Result<Event, FormFault>
    ensures { Gives reader.new result (merge_at reader.old) }
{
    let ws = reader.take_u32()?;
    let branch = reader.take_u32()?;
    let choices = take_text(alloc, reader)?;
    Ok(Event::Merge {
        ws,
        branch,
        choices,
    })
}

#[tactic(auto, unfolding(crate::specs::Events::evolve_at))]
fn take_evolve(alloc: Global, reader: &mut Reader<'_>) -> Result<Event, FormFault>
    ensures { Gives reader.new result (evolve_at reader.old) }
{
    let text = take_text(alloc, reader)?;
    Ok(Event::Evolve { text })
}

#[tactic(auto, unfolding(crate::specs::Events::signed_at))]
fn take_signed(alloc: Global, reader: &mut Reader<'_>) -> Result<Event, FormFault>
    ensures { Gives reader.new result (signed_at reader.old) }
{
    let ws = reader.take_u32()?;
    let author = take_text(alloc, reader)?;
    let moment = reader.take_u64()?;
    let message = take_text(alloc, reader)?;
    Ok(Event::Signed {
        ws,
        author,
        moment,
        message,
    })
}
