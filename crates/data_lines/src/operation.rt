//! The lines of operations, and those of an open composite.
ghost use Rattle.std.specs.Prelude.{◌≡◌, ◌++◌, ◌∷◌, [], IfOk, OnOk, codes, map};
ghost use Rattle.shown_lines.specs.Lines.{kind_word, kind_words, open_lines, operation_line, operation_lines, after_spaces, step_line};
ghost use Rattle.shown_lines.specs.Typed.{AreTyped, IsTypedPackage};

use crate::line::Line;
use crate::step::step_line;
use ecore_meta::Metamodel;
use model_state::{OpKind, Operation, Step};
use std::alloc::{AllocError, Global};
use texts::{List, Text};

/// The lines of a package: for each operation `op N KIND`, with N from 1, and then one line a step. That its steps are of
/// the metamodel is known by `law_of_taken_steps` where they were taken.
#[tactic(auto, unfolding(shown_lines::specs::Lines::operation_lines))]
pub fn operation_lines(
    alloc: Global,
    package: &[Operation],
    meta: &Metamodel,
) -> Result<List<Text>, AllocError>
    requires typed { IsTypedPackage meta.now «package».now }
    ensures lines { IfOk result (λ lines. lines ≡ operation_lines meta.now «package».now) }
{
    let mut lines = List::new(alloc);
    for (n, operation) in package.iter().enumerate() {
        lines.push(operation_line(alloc, n as u64 + 1, operation)?)?;
        push_steps(alloc, &mut lines, operation.steps(), meta)?;
    }
    Ok(lines)
}

/// The lines of an open composite: `open NAME`, and then one line a step, as in the lines of a package. That the steps
/// are of the metamodel is known by `law_of_taken_steps` where they were taken.
#[tactic(auto, unfolding(shown_lines::specs::Lines::open_lines))]
pub fn open_lines(
    alloc: Global,
    name: &Text,
    steps: &[Step],
    meta: &Metamodel,
) -> Result<List<Text>, AllocError>
    requires typed { AreTyped meta.now steps.now }
    ensures lines { IfOk result (λ lines. lines ≡ open_lines meta.now name.now steps.now) }
{
    let mut lines = List::new(alloc);
    lines.push(open_line(alloc, name)?)?;
    push_steps(alloc, &mut lines, steps, meta)?;
    Ok(lines)
}

fn open_line(alloc: Global, name: &Text) -> Result<Text, AllocError>
    ensures { IfOk result (λ t. t ≡ codes "open" ++ after_spaces (name.now ∷ [])) }
{
    let mut line = Line::new(alloc);
    line.push("open")?;
    line.push_word(name.as_str())?;
    line.into_text()
}

fn push_steps(
    alloc: Global,
    lines: &mut List<Text>,
    steps: &[Step],
    meta: &Metamodel,
) -> Result<(), AllocError>
    requires { AreTyped meta.now steps.now }
    ensures { OnOk result (lines.new ≡ lines.old ++ map (step_line meta.now) steps.now) }
{
    for step in steps {
        lines.push(step_line(alloc, meta, step)?)?;
    }
    Ok(())
}

fn kind_word(kind: OpKind) -> &'static str
    ensures { result.now ≡ kind_word kind }
{
    match kind {
        OpKind::Create => "create",
        OpKind::Delete => "delete",
        OpKind::Attribute => "attribute",
        OpKind::ManyAttribute => "many-attribute",
        OpKind::Reference => "reference",
        OpKind::Move => "move",
    }
}

fn push_kind(line: &mut Line, operation: &Operation) -> Result<(), AllocError>
    ensures { OnOk result (line.new ≡ line.old ++ after_spaces (kind_words operation.now)) }
{
    match operation {
        Operation::Simple { kind, .. } => line.push_word(kind_word(*kind)),
        Operation::Composite { name, .. } => {
            line.push_word("composite")?;
            line.push_word(name.as_str())
        }
    }
}

fn operation_line(alloc: Global, n: u64, operation: &Operation) -> Result<Text, AllocError>
    ensures { IfOk result (λ t. t ≡ operation_line n operation.now) }
{
    let mut line = Line::new(alloc);
    line.push("op")?;
    line.push_number(n)?;
    push_kind(&mut line, operation)?;
    line.into_text()
}
