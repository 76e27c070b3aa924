//! Lines, and blocks of lines, read from a host in pieces.
ghost use Rattle.std.specs.Prelude.{◌≡◌, ◌^◌, ◌<◌, ◌≤◌, ◌++◌, ◌↔◌, false, ◌+◌, ℕ, [], List, Bool, length, IsTrue, IsErr, IfOk, OnOk, IsErrOf, Ok};
ghost use Rattle.std.specs.List.{slice_split};
ghost use Rattle.host_port.specs.Limits.{line_limit, block_limit};
ghost use Rattle.host_port.specs.Host.{GoesOn, KeepsDisk, KeepsSaid, RaisesTakesAlone, Rose};
ghost use Rattle.host_port.specs.Cut.{cut_block, script_from, is_lf, next_line_of};
ghost use Rattle.host_port.specs.Reads.{GotBlock, GotLine, PastLine};

mod block;
mod pending;
mod unread;

use crate::Host;
use block::Block;
use std::alloc::{AllocError, Global};
use std::marker::Model;
use std::mem::swap;
use thiserror::Error;
use unread::Unread;

/// The most bytes of a line, its line feed not counted.
pub const LINE_LIMIT: u64 = 1_048_576;

/// The most bytes of a block, line feeds counted and the line that ends it not.
pub const BLOCK_LIMIT: u64 = 8_388_608;

/// An input has fewer bytes than this.
pub const INPUT_LIMIT: u64 = 1 << 40;

/// What came of a call for a line.
#[derive(Clone, Copy, Debug, PartialEq, Eq)]
pub enum Got {
    /// A line was read, and `text` is that line.
    Line,
    /// The input is read to its end, and no line is left.
    End,
}

/// Why no line or block is read. `at` is an offset in the input, in bytes from 0.
#[derive(Clone, Copy, Debug, PartialEq, Eq, Error)]
pub enum LineFault {
    /// A line goes on past its limit, at this offset.
    #[error("a line is too long at {at}")]
    LineTooLong { at: u64 },
    /// A block goes on past its limit, at this offset.
    #[error("a block is too long at {at}")]
    BlockTooLong { at: u64 },
    /// The first byte of a line or block that is no UTF-8 is at this offset.
    #[error("no UTF-8 at {at}")]
    NotText { at: u64 },
    /// The input ends at this offset, in a block.
    #[error("the input ends within a block at {at}")]
    UnendedBlock { at: u64 },
    /// The input has that many bytes or more.
    #[error("the input goes on at {at}")]
    InputTooLong { at: u64 },
    /// The host failed to hand over input.
    #[error("the input can't be read")]
    Failed,
    /// No memory is left.
    #[error("out of memory")]
    Memory,
}

/// Reads the lines of an input, whatever pieces the host hands over. After a call that answered a fault it isn't used
/// again.
#[derive(Drop)]
pub struct Lines {
    unread: Unread,
    text: String,
    block: Block,
    failed: bool,
}

impl Model for Lines {
    ghost use Rattle.std.specs.Prelude.{string_bytes};
    ghost use Rattle.host_port.specs.Reads.{Reader};

    ghost Value = { Reader };

    ghost view = { λ l. record { pending = l.unread.pending; offset = l.unread.offset; text = string_bytes l.text; failed = l.failed } };
}

impl Lines {
    /// A reader that stands at the input's first byte.
    pub fn new(alloc: Global) -> Result<Lines, AllocError>
        ensures start { IfOk result (λ lines. (lines.pending ≡ []) × (lines.offset ≡ 0)) }
        ensures fresh { IfOk result (λ lines. lines.failed ≡ false) }
    {
        Ok(Lines {
            unread: Unread::new(alloc),
            text: String::new(alloc),
            block: Block::new(alloc),
            failed: false,
        })
    }

    /// The line or block that was read last.
    pub fn text(&self) -> &str
        ensures text { result.now ≡ self.now.text }
    {
        self.text.as_str()
    }

    /// Reads the next line.
    pub fn next_line<H: Host>(&mut self, host: &mut H) -> Result<Got, LineFault>
        requires fresh { self.old.failed ≡ false }
        // It is the line that stands there, or the end, or the fault; the length is judged before the text.
        ensures line { IsTrue (H.told host.old).tells →
            GotLine result self.new.text (next_line_of self.old.offset (self.old.pending ++ (H.told host.old).left)) }
        ensures past { IsTrue (H.told host.old).tells → OnOk result (PastLine
            (self.old.pending ++ (H.told host.old).left) (self.new.pending ++ (H.told host.new).left) self.old.offset self.new.offset) }
        ensures end { IsTrue (H.told host.old).tells → IfOk result (λ got. got ≡ Got.End → (H.told host.new).left ≡ []) }
        ensures short { IfOk result (λ got. got ≡ Got.Line → length self.new.text ≤ line_limit) }
        ensures advances { IfOk result (λ got. got ≡ Got.Line → self.old.offset < self.new.offset) }
        ensures low { self.new.offset ≤ 2 ^ 40 }
        ensures failed { IsTrue self.new.failed ↔ IsErr result }
        ensures course { GoesOn (H.told host.old) (H.told host.new) }
        ensures disk { KeepsDisk (H.told host.old) (H.told host.new) }
        ensures said { KeepsSaid (H.told host.old) (H.told host.new) }
        ensures alone { RaisesTakesAlone (H.told host.old) (H.told host.new) }
        ensures cause { IsErrOf result LineFault.Failed → Rose (H.told host.old).take_faults (H.told host.new).take_faults }
    {
        let got = self.unread.read_line(&mut self.text, host);
        self.failed = got.is_err();
        got
    }

    /// Reads the block that follows a line: all lines up to one that is just `.`.
    pub fn next_block<H: Host>(&mut self, host: &mut H) -> Result<(), LineFault>
        requires fresh { self.old.failed ≡ false }
        // Whatever line stands before the block, the script goes on with that line and this block, or ends by the fault.
        ensures block { IsTrue (H.told host.old).tells → (takes : List ℕ → Bool) (line : List ℕ) → GotBlock result self.new.text line
            (cut_block takes line self.old.offset self.old.offset (Ok []) (slice_split is_lf (self.old.pending ++ (H.told host.old).left)))
            (script_from takes self.new.offset (self.new.pending ++ (H.told host.new).left)) }
        ensures short { OnOk result (length self.new.text ≤ block_limit) }
        ensures failed { IsTrue self.new.failed ↔ IsErr result }
        ensures later { self.old.offset ≤ self.new.offset }
        ensures low { self.new.offset ≤ 2 ^ 40 }
        ensures course { GoesOn (H.told host.old) (H.told host.new) }
        ensures disk { KeepsDisk (H.told host.old) (H.told host.new) }
        ensures said { KeepsSaid (H.told host.old) (H.told host.new) }
        ensures alone { RaisesTakesAlone (H.told host.old) (H.told host.new) }
        ensures cause { IsErrOf result LineFault.Failed → Rose (H.told host.old).take_faults (H.told host.new).take_faults }
    {
        let read = self.block.read(&mut self.unread, host);
        swap(&mut self.text, &mut self.block.text);
        self.failed = read.is_err();
        read
    }
}
