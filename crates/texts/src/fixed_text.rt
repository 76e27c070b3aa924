//! A text in a room of fixed size.
ghost use Rattle.std.specs.Prelude.{◌≡◌, ◌<◌, ◌≤◌, length};

use std::marker::Model;
use std::str;

/// A text of at most `MOST` bytes, all in the value itself. `MOST` is below 256.
#[derive(Drop)]
pub(crate) struct FixedText<const MOST: usize> {
    len: u8,
    bytes: [u8; MOST],
}

impl<const MOST: usize> Model for FixedText<MOST> {
    ghost use Rattle.std.specs.Prelude.{List, ℕ, ◌≤◌, take, IsUtf8};

    ghost Value = { List ℕ };

    ghost view = { λ a. take a.len a.bytes };

    ghost invariant = { λ a. (a.len ≤ MOST) × ∥ IsUtf8 (take a.len a.bytes) ∥₁ };
}

impl<const MOST: usize> FixedText<MOST> {
    /// The text, which takes no memory.
    pub(crate) fn new(text: &str) -> FixedText<MOST>
        requires fits { length text.now ≤ MOST }
        requires counted { MOST < 256 }
        ensures { result ≡ text.now }
    {
        let mut bytes = [0; MOST];
        bytes[..text.len()].copy_from_slice(text.as_bytes());
        FixedText {
            len: text.len() as u8,
            bytes,
        }
    }

    /// The text as a `&str`.
    pub(crate) fn as_str(&self) -> &str
        ensures { result.now ≡ self.now }
    {
        unsafe { str::from_utf8_unchecked(&self.bytes[..self.len as usize]) }
    }
}
