//! One frame of a pool: its bytes, and whether it is out.
ghost use Rattle.std.specs.Prelude.{◌≡◌, ◌+◌, ◌≤◌, length, IfSome, IfNone, Some, None};
ghost use Rattle.page_pool.specs.Frames.{zeros, overwritten, frame_size};

use crate::pool::FRAME_SIZE;
use std::marker::Model;

/// A frame's bytes stay where they are when it is given back. Contracts see them while it is out.
#[derive(Drop)]
pub(crate) struct Slot {
    is_out: bool,
    page: [u8; FRAME_SIZE],
}

impl Model for Slot {
    ghost use Rattle.std.specs.Prelude.{List, Option, ℕ, Some, None, cond};

    ghost Value = { Option (List ℕ) };

    ghost view = { λ s. cond s.is_out (Some s.page) None };
}

// The bytes of a frame that was just taken.
fn blank() -> [u8; FRAME_SIZE]
    ensures { result ≡ zeros }
{
    [0; FRAME_SIZE]
}

// Writes over a part of a frame.
fn overwrite(page: &mut [u8; FRAME_SIZE], at: usize, bytes: &[u8])
    requires { at + length bytes.now ≤ frame_size }
    ensures { page.new ≡ overwritten page.old at bytes.now }
{
    page[at..at + bytes.len()].copy_from_slice(bytes);
}

impl Slot {
    /// A free frame.
    pub(crate) fn new() -> Slot
        ensures { result ≡ None }
    {
        Slot {
            is_out: false,
            page: blank(),
        }
    }

    /// Takes the frame out, with bytes that are 0.
    pub(crate) fn take(&mut self)
        ensures { self.new ≡ Some zeros }
    {
        self.is_out = true;
        self.page = blank();
    }

    /// Gives the frame back. Its bytes are left as they are, so that this costs nothing.
    pub(crate) fn give(&mut self)
        ensures { self.new ≡ None }
    {
        self.is_out = false;
    }

    /// Writes bytes into a frame that is out, from an offset on.
    pub(crate) fn write(&mut self, at: usize, bytes: &[u8])
        requires { at + length bytes.now ≤ frame_size }
        ensures { IfSome self.old (λ old. self.new ≡ Some (overwritten old at bytes.now)) }
    {
        overwrite(&mut self.page, at, bytes);
    }

    /// The bytes of a frame that is out.
    pub(crate) fn page(&self) -> Option<&[u8; FRAME_SIZE]>
        ensures some { IfSome result (λ page. self.now ≡ Some page.now) }
        ensures none { IfNone result (self.now ≡ None) }
    {
        if self.is_out { Some(&self.page) } else { None }
    }
}
