//! The lines of an event: its line, and its block where it has one.
ghost use Rattle.std.specs.Prelude.{◌≡◌, ◌⊎◌, IfOk, IfErr};
ghost use Rattle.host_port.specs.declared.lines.TheConstants.{LINE_LIMIT};
ghost use Rattle.printed_items.specs.Printed.{printed_item};
ghost use Rattle.op_form.specs.Formed.{IsEvent};
ghost use Rattle.replay_script.specs.Printable.{breaks};
ghost use Rattle.replay_script.specs.Answers.{history_of, lines_again};

use crate::PrintFault;
use crate::block::event_block;
use crate::draft::Draft;
use crate::standing::{breaks_block, breaks_line};
use crate::words::event_line;
use history_tree::History;
use host_port::LINE_LIMIT;
use op_form::Event;
use std::alloc::{AllocError, Global};

/// The lines by which a script makes an event again, each with its line feed. The history is that which the events before it leave,
/// and none before the first event. It takes what `encode_event` of `op_form` takes.
///
/// # Errors
///
/// `Unknown` where the event names a version or a branch that the history hasn't. `TooLong` where a package has more than 4,194,303
/// bytes. `NotPrintable` in these cases:
/// - a message holds a line feed, or ends with a carriage return;
/// - a metamodel's text has more than 8,388,608 bytes, or isn't empty and doesn't end with a line feed;
/// - a line of that text is `.`, or ends with a carriage return;
/// - the event's line has more than 1,048,576 bytes.
///
/// Else `Memory`.
#[tactic(auto, using(crate::proofs::Printing::unknown, crate::proofs::Printing::too_long, crate::proofs::Printing::broken, crate::proofs::Printing::past_limit, crate::proofs::Printing::printed))]
pub fn line_of(
    alloc: Global,
    history: Option<&History>,
    event: &Event,
) -> Result<Vec<u8>, PrintFault>
    requires spelled { IsEvent event.now }
    ensures lines { IfOk result (λ bytes. lines_again (history_of history.entry) event.now ≡ Ok bytes.items) }
    ensures fault { IfErr result (λ fault. (fault ≡ PrintFault.Memory) ⊎ (lines_again (history_of history.entry) event.now ≡ Err fault)) }
{
    let line = event_line(alloc, history, event)?;
    let block = event_block(alloc, event)?;
    if breaks(event) || line.len() as u64 > LINE_LIMIT {
        return Err(PrintFault::NotPrintable);
    }
    Ok(with_block(line, block)?)
}

/// Whether the text of an event is one that its line or its block can't hold.
fn breaks(event: &Event) -> bool
    ensures { result ≡ breaks event.now }
{
    match event {
        Event::Init { text } => breaks_block(text.as_str()),
        Event::Evolve { text } => breaks_block(text.as_str()),
        Event::Commit { message, .. } => breaks_line(message.as_str()),
        Event::Signed { message, .. } => breaks_line(message.as_str()),
        _ => false,
    }
}

/// A line with its line feed, and its block with the line that ends it.
fn with_block(line: Draft, block: Option<Draft>) -> Result<Vec<u8>, AllocError>
    ensures { IfOk result (λ bytes. bytes.items ≡ printed_item (record { line = line; block = block })) }
{
    let mut lines = line;
    lines.push("\n")?;
    if let Some(text) = block {
        lines.push_draft(&text)?;
        lines.push(".\n")?;
    }
    Ok(lines.into_bytes())
}
