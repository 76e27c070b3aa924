//! Whether an event has an encoding. Lengths and names are looked at. What a type says of its values is known without a
//! look, and the tests of it are always true. Such are the range of a number, the form of an id, and that a text is
//! UTF-8.
ghost use Rattle.std.specs.Prelude.{◌≡◌, ◌&&◌, IsTrue};
ghost use Rattle.model_state.specs.Ident.{is_id};
ghost use Rattle.std.specs.List.{list_all};
ghost use Rattle.op_form.specs.Formed.{is_u32, is_u64, is_i64, is_short_text, is_given, is_list, is_some_list, is_value, is_place, is_step, is_operation, is_package, is_event, IsEvent, IsPackage};

use crate::Event;
use crate::event::is_event;
use ecore_meta::Value;
use model_state::{Id, Operation, Package, Place, Step, is_name};
use texts::{List, Text};

/// Whether an event has an encoding, so that `encode_event` takes it. Each operation has a step, each composite a name
/// of its form, and each text and list fewer than 2^32 bytes or items.
pub fn has_encoding(event: &Event) -> bool
    ensures form { result ≡ is_event event.now }
    ensures spelled { IsTrue result → IsEvent event.now }
{
    is_event(event)
}

/// Whether a package has an encoding, so that `encode` takes it. It has fewer than 2^32 operations, each with a step,
/// and each composite with a name of its form. Each text and list has fewer than 2^32 bytes or items.
pub fn is_package(package: &Package) -> bool
    ensures form { result ≡ is_package «package».now }
    ensures spelled { IsTrue result → IsPackage «package».now }
{
    are_operations(package)
}

pub(crate) fn is_u32(number: u32) -> bool
    ensures { result ≡ is_u32 number }
{
    // Only the contract needs it.
    let _number = number;
    true
}

pub(crate) fn is_u64(number: u64) -> bool
    ensures { result ≡ is_u64 number }
{
    // Only the contract needs it.
    let _number = number;
    true
}

fn is_i64(number: i64) -> bool
    ensures { result ≡ is_i64 number }
{
    // Only the contract needs it.
    let _number = number;
    true
}

fn is_id(id: &Id) -> bool
    ensures { result ≡ is_id id.now }
{
    // For what the call's contract says.
    let _text = id.as_str();
    true
}

/// Whether a length is one of 32 bits.
fn is_short(len: usize) -> bool
    ensures { result ≡ is_u32 len }
{
    len <= u32::MAX as usize
}

pub(crate) fn is_short_text(text: &Text) -> bool
    ensures { result ≡ is_short_text text.now }
{
    is_short(text.as_str().len())
}

#[tactic(auto, unfolding(crate::specs::Formed::is_value))]
fn is_value(value: &Value) -> bool
    ensures { result ≡ is_value value.now }
{
    match value {
        Value::Text(text) => is_short_text(text),
        Value::Flag(_) => true,
        Value::Whole(number) => is_i64(*number),
        Value::Literal(number) => is_u32(*number),
    }
}

fn is_value_if_any(value: &Option<Value>) -> bool
    ensures { result ≡ is_given is_value value.now }
{
    match value {
        None => true,
        Some(value) => is_value(value),
    }
}

fn is_rank_if_any(rank: Option<u64>) -> bool
    ensures { result ≡ is_given is_u64 rank }
{
    match rank {
        None => true,
        Some(rank) => is_u64(rank),
    }
}

#[tactic(auto, unfolding(crate::specs::Formed::is_place))]
fn is_place(place: &Place) -> bool
    ensures { result ≡ is_place place.now }
{
    match place {
        Place::Root => true,
        Place::Inside { parent, feature } => is_id(parent) && is_u32(*feature),
    }
}

fn are_ids(ids: &List<Id>) -> bool
    ensures { result ≡ is_list is_id ids.now }
{
    is_short(ids.len()) && all_ids(ids.as_slice())
}

fn all_ids(ids: &[Id]) -> bool
    ensures { result ≡ list_all is_id ids.now }
{
    ids.iter().all(|id| is_id(id))
}

/// An element, and the number of a feature or of a class.
fn is_entry(e: &Id, number: u32) -> bool
    ensures { result ≡ is_id e.now && is_u32 number }
{
    is_id(e) && is_u32(number)
}

fn is_at_index(e: &Id, f: u32, at: u32, v: &Value) -> bool
    ensures { result ≡ is_id e.now && is_u32 f && is_u32 at && is_value v.now }
{
    is_entry(e, f) && is_u32(at) && is_value(v)
}

fn is_row(a: &Id, f: u32, ra: u64, b: &Id, rb: Option<u64>) -> bool
    ensures { result ≡ is_id a.now && is_u32 f && is_u64 ra && is_id b.now && is_given is_u64 rb }
{
    is_entry(a, f) && is_u64(ra) && is_id(b) && is_rank_if_any(rb)
}

fn is_birth(e: &Id, class: u32, place: &Place, rank: u64) -> bool
    ensures { result ≡ is_id e.now && is_u32 class && is_place place.now && is_u64 rank }
{
    is_entry(e, class) && is_place(place) && is_u64(rank)
}

fn is_move(
    e: &Id,
    from: &Place,
    from_rank: u64,
    to: &Place,
    to_rank: u64,
    above_from: &List<Id>,
    above_to: &List<Id>,
) -> bool
    ensures { result ≡ is_id e.now && is_place from.now && is_u64 from_rank && is_place to.now && is_u64 to_rank && is_list is_id above_from.now && is_list is_id above_to.now }
{
    is_id(e)
        && is_place(from)
        && is_u64(from_rank)
        && is_place(to)
        && is_u64(to_rank)
        && are_ids(above_from)
        && are_ids(above_to)
}

#[tactic(auto, unfolding(crate::specs::Formed::is_step))]
fn is_step(step: &Step) -> bool
    ensures { result ≡ is_step step.now }
{
    match step {
        Step::Put { e, f, old, new } => {
            is_entry(e, *f) && is_value_if_any(old) && is_value_if_any(new)
        }
        Step::Ins { e, f, at, v } => is_at_index(e, *f, *at, v),
        Step::Del { e, f, at, v } => is_at_index(e, *f, *at, v),
        Step::Shift { e, f, from, to } => is_entry(e, *f) && is_u32(*from) && is_u32(*to),
        Step::Link { a, f, ra, b, rb } => is_row(a, *f, *ra, b, *rb),
        Step::Unlink { a, f, ra, b, rb } => is_row(a, *f, *ra, b, *rb),
        Step::RerankRow { a, f, b, old, new } => {
            is_entry(a, *f) && is_id(b) && is_u64(*old) && is_u64(*new)
        }
        Step::New {
            e,
            class,
            place,
            rank,
        } => is_birth(e, *class, place, *rank),
        Step::Gone {
            e,
            class,
            place,
            rank,
        } => is_birth(e, *class, place, *rank),
        Step::Move {
            e,
            from,
            from_rank,
            to,
            to_rank,
            above_from,
            above_to,
        } => is_move(
            e,
            from.get(),
            *from_rank,
            to.get(),
            *to_rank,
            above_from.get(),
            above_to.get(),
        ),
        Step::RerankPlace { e, old, new } => is_id(e) && is_u64(*old) && is_u64(*new),
    }
}

/// A list with at least one step.
fn are_steps(steps: &[Step]) -> bool
    ensures { result ≡ is_some_list is_step steps.now }
{
    1 <= steps.len() && is_short(steps.len()) && all_steps(steps)
}

fn all_steps(steps: &[Step]) -> bool
    ensures { result ≡ list_all is_step steps.now }
{
    steps.iter().all(|step| is_step(step))
}

#[tactic(auto, unfolding(crate::specs::Formed::is_operation))]
fn is_operation(operation: &Operation) -> bool
    ensures { result ≡ is_operation operation.now }
{
    match operation {
        Operation::Simple { steps, .. } => are_steps(steps.as_slice()),
        Operation::Composite { name, steps } => {
            is_name(name.as_str()) && are_steps(steps.as_slice())
        }
    }
}

#[tactic(auto, unfolding(crate::specs::Formed::is_package))]
pub(crate) fn are_operations(package: &Package) -> bool
    ensures { result ≡ is_package «package».now }
{
    is_short(package.len()) && all_operations(package.as_slice())
}

fn all_operations(operations: &[Operation]) -> bool
    ensures { result ≡ list_all is_operation operations.now }
{
    operations.iter().all(|operation| is_operation(operation))
}
