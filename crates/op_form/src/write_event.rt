//! Packages and events, as bytes.
ghost use Rattle.byte_form.specs.Fields.{text_encoding, u32_encoding, u64_encoding};
ghost use Rattle.std.specs.Prelude.{◌≡◌, ◌<◌, ◌^◌, ◌++◌, ◌∷◌, IfOk, OnOk, All, length};
ghost use Rattle.op_form.specs.Lists.{items_encoding, list_encoding};
ghost use Rattle.op_form.specs.Steps.{step_encoding};
ghost use Rattle.op_form.specs.Packages.{kind_encoding, operation_encoding, package_encoding};
ghost use Rattle.op_form.specs.Events.{event_encoding};
ghost use Rattle.op_form.specs.Formed.{IsSomeList, IsStep, IsOperation, IsPackage, IsEvent};

use crate::Event;
use crate::write_step::put_step;
use byte_form::Form;
use model_state::{OpKind, Operation, Package, Step};
use std::alloc::{AllocError, Global};

/// The encoding of a package.
pub fn encode(alloc: Global, package: &Package) -> Result<Vec<u8>, AllocError>
    requires spelled { IsPackage «package».now }
    ensures form { IfOk result (λ bytes. bytes.items ≡ package_encoding «package».now) }
{
    let mut form = Form::new(alloc);
    put_package(&mut form, package)?;
    Ok(form.into_bytes())
}

/// The encoding of an event.
pub fn encode_event(alloc: Global, event: &Event) -> Result<Vec<u8>, AllocError>
    requires spelled { IsEvent event.now }
    ensures form { IfOk result (λ bytes. bytes.items ≡ event_encoding event.now) }
{
    let mut form = Form::new(alloc);
    put_event(&mut form, event)?;
    Ok(form.into_bytes())
}

fn put_kind(form: &mut Form, kind: OpKind) -> Result<(), AllocError>
    ensures { OnOk result (form.new ≡ form.old ++ kind_encoding kind) }
{
    form.put_u8(match kind {
        OpKind::Create => 1,
        OpKind::Delete => 2,
        OpKind::Attribute => 3,
        OpKind::ManyAttribute => 4,
        OpKind::Reference => 5,
        OpKind::Move => 6,
    })
}

fn put_step_items(form: &mut Form, steps: &[Step]) -> Result<(), AllocError>
    requires { All IsStep steps.now }
    ensures { OnOk result (form.new ≡ form.old ++ items_encoding step_encoding steps.now) }
{
    for step in steps {
        put_step(form, step)?;
    }
    Ok(())
}

fn put_steps(form: &mut Form, steps: &[Step]) -> Result<(), AllocError>
    requires { IsSomeList IsStep steps.now }
    ensures { OnOk result (form.new ≡ form.old ++ list_encoding step_encoding steps.now) }
{
    form.put_u32(steps.len() as u32)?;
    put_step_items(form, steps)
}

#[tactic(auto, unfolding(crate::specs::Packages::operation_encoding))]
fn put_operation(form: &mut Form, operation: &Operation) -> Result<(), AllocError>
    requires { IsOperation operation.now }
    ensures { OnOk result (form.new ≡ form.old ++ operation_encoding operation.now) }
{
    match operation {
        Operation::Simple { kind, steps } => {
            form.put_u8(1)?;
            put_kind(form, *kind)?;
            put_steps(form, steps.as_slice())
        }
        Operation::Composite { name, steps } => {
            form.put_u8(2)?;
            form.put_text(name.as_str())?;
            put_steps(form, steps.as_slice())
        }
    }
}

fn put_operation_items(form: &mut Form, operations: &[Operation]) -> Result<(), AllocError>
    requires { All IsOperation operations.now }
    ensures { OnOk result (form.new ≡ form.old ++ items_encoding operation_encoding operations.now) }
{
    for operation in operations {
        put_operation(form, operation)?;
    }
    Ok(())
}

#[tactic(auto, unfolding(crate::specs::Packages::package_encoding))]
fn put_package(form: &mut Form, package: &Package) -> Result<(), AllocError>
    requires { IsPackage «package».now }
    ensures { OnOk result (form.new ≡ form.old ++ package_encoding «package».now) }
{
    form.put_u32(package.len() as u32)?;
    put_operation_items(form, package.as_slice())
}

#[tactic(auto, unfolding(crate::specs::Events::event_encoding))]
fn put_event(form: &mut Form, event: &Event) -> Result<(), AllocError>
    requires { IsEvent event.now }
    ensures { OnOk result (form.new ≡ form.old ++ event_encoding event.now) }
{
    match event {
        Event::Init { text } => put_of_text(form, 1, text.as_str()),
        Event::Checkout { version, branch } => {
            form.put_u8(2)?;
            form.put_u32(*version)?;
            form.put_u32(*branch)
        }
        Event::Edit { ws, package } => {
            form.put_u8(3)?;
            form.put_u32(*ws)?;
            put_package(form, package)
        }
        Event::Begin { ws, name } => put_with_text(form, 4, *ws, name.as_str()),
        Event::End { ws } => put_of_workspace(form, 5, *ws),
        Event::Undo { ws } => put_of_workspace(form, 6, *ws),
        Event::Discard { ws } => put_of_workspace(form, 7, *ws),
        Event::Tidy { ws } => put_of_workspace(form, 8, *ws),
        Event::Commit { ws, message } => put_with_text(form, 9, *ws, message.as_str()),
        Event::Branch { ws, name } => put_with_text(form, 10, *ws, name.as_str()),
        Event::Tag { name, version } => {
            form.put_u8(11)?;
            form.put_text(name.as_str())?;
            form.put_u32(*version)
        }
        Event::Update { ws, choices } => put_with_text(form, 12, *ws, choices.as_str()),
        Event::Merge {
            ws,
            branch,
            choices,
        } => {
            form.put_u8(13)?;
            form.put_u32(*ws)?;
            form.put_u32(*branch)?;
            form.put_text(choices.as_str())
        }
        Event::Drop { ws } => put_of_workspace(form, 14, *ws),
        Event::Evolve { text } => put_of_text(form, 15, text.as_str()),
        Event::Upgrade => form.put_u8(16),
        Event::Signed {
            ws,
            author,
            moment,
            message,
        } => put_signed(form, *ws, author.as_str(), *moment, message.as_str()),
    }
}

/// Appends the encoding of an event of a text alone.
fn put_of_text(form: &mut Form, kind: u8, text: &str) -> Result<(), AllocError>
    requires { length text.now < 2 ^ 32 }
    ensures { OnOk result (form.new ≡ form.old ++ kind ∷ text_encoding text.now) }
{
    form.put_u8(kind)?;
    form.put_text(text)
}

/// Appends the encoding of a version's event with its author and its moment.
fn put_signed(
    form: &mut Form,
    ws: u32,
    author: &str,
    moment: u64,
    message: &str,
) -> Result<(), AllocError>
    requires author { length author.now < 2 ^ 32 }
    requires message { length message.now < 2 ^ 32 }
    ensures { OnOk result (form.new ≡ form.old ++ 17 ∷ (u32_encoding ws ++ (text_encoding author.now ++ (u64_encoding moment ++ text_encoding message.now)))) }
{
    form.put_u8(17)?;
    form.put_u32(ws)?;
    form.put_text(author)?;
    form.put_u64(moment)?;
    form.put_text(message)
}

/// Appends the encoding of an event of a workspace's number and a text.
fn put_with_text(form: &mut Form, kind: u8, ws: u32, text: &str) -> Result<(), AllocError>
    requires { length text.now < 2 ^ 32 }
    ensures { OnOk result (form.new ≡ form.old ++ kind ∷ (u32_encoding ws ++ text_encoding text.now)) }
{
    form.put_u8(kind)?;
    form.put_u32(ws)?;
    form.put_text(text)
}

/// Appends the encoding of an event of a workspace's number alone.
fn put_of_workspace(form: &mut Form, kind: u8, ws: u32) -> Result<(), AllocError>
    ensures { OnOk result (form.new ≡ form.old ++ kind ∷ u32_encoding ws) }
{
    form.put_u8(kind)?;
    form.put_u32(ws)
}
