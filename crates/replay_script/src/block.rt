//! The block of an event.
ghost use Rattle.std.specs.Prelude.{◌≡◌, ◌⊎◌, ◌≤◌, ◌<◌, IfOk, IfErr, length};
ghost use Rattle.op_form.specs.Formed.{IsEvent, IsPackage};
ghost use Rattle.op_form.specs.Packages.{package_encoding};
ghost use Rattle.replay_texts.specs.Texts.{digits_line};
ghost use Rattle.replay_script.specs.Answers.{GivesBlock};

use crate::PrintFault;
use crate::draft::Draft;
use model_state::Package;
use op_form::{Event, encode};
use std::alloc::{AllocError, Global};

/// The most bytes of a package whose digits, two a byte, and their line feed are a block.
const PACKAGE_LIMIT: usize = 4_194_303;

/// The text of an event's block: the metamodel as it was given, or the package's bytes in hexadecimal digits as one line.
///
/// # Errors
///
/// `TooLong` where the package has more than 4,194,303 bytes, or `Memory`.
pub(crate) fn event_block(alloc: Global, event: &Event) -> Result<Option<Draft>, PrintFault>
    requires { IsEvent event.now }
    ensures { GivesBlock result event.now }
{
    match event {
        Event::Init { text } => Ok(Some(text_block(alloc, text.as_str())?)),
        Event::Evolve { text } => Ok(Some(text_block(alloc, text.as_str())?)),
        Event::Edit { package, .. } => Ok(Some(digits_block(alloc, package)?)),
        _ => Ok(None),
    }
}

/// A text as it stands.
fn text_block(alloc: Global, text: &str) -> Result<Draft, AllocError>
    ensures { IfOk result (λ block. block ≡ text.now) }
{
    let mut block = Draft::new(alloc);
    block.push(text)?;
    Ok(block)
}

/// The bytes of a package in hexadecimal digits, as one line.
fn digits_block(alloc: Global, package: &Package) -> Result<Draft, PrintFault>
    requires { IsPackage «package».now }
    ensures short { IfOk result (λ _. length (package_encoding «package».now) ≤ 4194303) }
    ensures digits { IfOk result (λ block. block ≡ digits_line (package_encoding «package».now)) }
    ensures fault { IfErr result (λ fault. (fault ≡ PrintFault.Memory) ⊎ ((fault ≡ PrintFault.TooLong) × (4194303 < length (package_encoding «package».now)))) }
{
    let bytes = encode(alloc, package)?;
    if bytes.len() > PACKAGE_LIMIT {
        return Err(PrintFault::TooLong);
    }
    let digits = hex::encode(alloc, bytes.as_slice())?;
    let mut block = text_block(alloc, digits.as_str())?;
    block.push("\n")?;
    Ok(block)
}
