//! Bytes in the making.
ghost use Rattle.std.specs.Prelude.{◌≡◌, ◌++◌, ◌∷◌, [], OnOk, length};
ghost use Rattle.std.specs.Fmt.{decimal};
ghost use Rattle.replay_script.specs.Lines.{last_part};

use std::alloc::{AllocError, Global};
use std::marker::Model;

/// For how many bytes a draft has room from the start.
const FIRST_ROOM: usize = 256;

/// A line or a block in the making, which contracts see as its bytes so far.
#[derive(Drop)]
pub(crate) struct Draft {
    alloc: Global,
    bytes: Vec<u8>,
}

impl Model for Draft {
    ghost use Rattle.std.specs.Prelude.{List, ℕ};

    ghost Value = { List ℕ };

    ghost view = { λ a. a.bytes.items };
}

impl Draft {
    /// No bytes yet. There is room for the lines of a short event from the start, where memory is at hand.
    pub(crate) fn new(alloc: Global) -> Draft
        ensures { result ≡ [] }
    {
        let bytes = match Vec::with_capacity(alloc, FIRST_ROOM) {
            Ok(bytes) => bytes,
            Err(_) => Vec::new(alloc),
        };
        Draft { alloc, bytes }
    }

    /// More of the text.
    pub(crate) fn push(&mut self, text: &str) -> Result<(), AllocError>
        ensures { OnOk result (self.new ≡ self.old ++ text.now) }
    {
        self.bytes.extend_from_slice(text.as_bytes())
    }

    /// A further word, after a space.
    pub(crate) fn push_word(&mut self, word: &str) -> Result<(), AllocError>
        ensures { OnOk result (self.new ≡ self.old ++ 32 ∷ word.now) }
    {
        self.push(" ")?;
        self.push(word)
    }

    /// A number in decimal, as a further word.
    pub(crate) fn push_number(&mut self, number: u64) -> Result<(), AllocError>
        ensures { OnOk result (self.new ≡ self.old ++ 32 ∷ decimal number) }
    {
        let digits = format!(in self.alloc; "{number}")?;
        self.push_word(digits.as_str())
    }

    /// A last word, which may hold spaces; nothing where it is empty.
    pub(crate) fn push_last_word(&mut self, word: &str) -> Result<(), AllocError>
        ensures { OnOk result (self.new ≡ self.old ++ last_part word.now) }
    {
        if word.is_empty() {
            return Ok(());
        }
        self.push_word(word)
    }

    /// How many bytes there are.
    pub(crate) fn len(&self) -> usize
        ensures { result ≡ length self.now }
    {
        self.bytes.len()
    }

    /// The text of all bytes of another draft, after these.
    pub(crate) fn push_draft(&mut self, other: &Draft) -> Result<(), AllocError>
        ensures { OnOk result (self.new ≡ self.old ++ other.now) }
    {
        self.bytes.extend_from_slice(other.bytes.as_slice())
    }

    /// The bytes, in the memory of the draft.
    pub(crate) fn into_bytes(self) -> Vec<u8>
        ensures { result.items ≡ self }
    {
        self.bytes
    }
}
