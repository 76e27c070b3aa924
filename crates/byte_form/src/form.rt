//! The encoder: fields are appended to a byte string, each by its encoding.
ghost use Rattle.std.specs.Prelude.{◌≡◌, ◌<◌, ◌^◌, ◌++◌, [], ◌∷◌, length, OnOk, OnErr};
ghost use Rattle.byte_form.specs.Fields.{u32_encoding, u64_encoding, text_encoding};

use std::alloc::{AllocError, Global};
use std::marker::Model;

/// For how many bytes a form has room from the start: those of an event that records one edit.
const FIRST_ROOM: usize = 64;

/// Bytes that grow field by field. A field for which there is no memory leaves them as they were.
#[derive(Debug, Drop)]
pub struct Form {
    bytes: Vec<u8>,
}

impl Model for Form {
    ghost use Rattle.std.specs.Prelude.{List, ℕ};

    ghost Value = { List ℕ };

    ghost view = { λ form. form.bytes.items };
}

impl Form {
    /// No bytes yet. There is room for a short event from the start, where memory is at hand.
    pub fn new(alloc: Global) -> Form
        ensures empty { result ≡ [] }
    {
        let bytes = match Vec::with_capacity(alloc, FIRST_ROOM) {
            Ok(bytes) => bytes,
            Err(_) => Vec::new(alloc),
        };
        Form { bytes }
    }

    /// One byte more.
    pub fn put_u8(&mut self, n: u8) -> Result<(), AllocError>
        ensures ok { OnOk result (self.new ≡ self.old ++ n ∷ []) }
        ensures err { OnErr result (self.new ≡ self.old) }
    {
        self.bytes.push(n)?;
        Ok(())
    }

    /// Four bytes more, the most significant first.
    #[tactic(auto, unfolding(crate::specs::Fields::u32_encoding))]
    pub fn put_u32(&mut self, n: u32) -> Result<(), AllocError>
        ensures ok { OnOk result (self.new ≡ self.old ++ u32_encoding n) }
        ensures err { OnErr result (self.new ≡ self.old) }
    {
        self.bytes.extend_from_slice(&n.to_be_bytes())
    }

    /// Eight bytes more, the most significant first.
    #[tactic(auto, unfolding(crate::specs::Fields::u64_encoding))]
    pub fn put_u64(&mut self, n: u64) -> Result<(), AllocError>
        ensures ok { OnOk result (self.new ≡ self.old ++ u64_encoding n) }
        ensures err { OnErr result (self.new ≡ self.old) }
    {
        self.bytes.extend_from_slice(&n.to_be_bytes())
    }

    /// The count of the text's bytes in four bytes, and those bytes.
    #[tactic(auto, unfolding(crate::specs::Fields::text_encoding, crate::specs::Fields::u32_encoding))]
    pub fn put_text(&mut self, text: &str) -> Result<(), AllocError>
        requires short { length text.now < 2 ^ 32 }
        ensures ok { OnOk result (self.new ≡ self.old ++ text_encoding text.now) }
        ensures err { OnErr result (self.new ≡ self.old) }
    {
        let before = self.bytes.len();
        self.bytes
            .extend_from_slice(&(text.len() as u32).to_be_bytes())?;
        if self.bytes.extend_from_slice(text.as_bytes()).is_err() {
            self.bytes.truncate(before);
            return Err(AllocError);
        }
        Ok(())
    }

    /// All bytes so far.
    pub fn bytes(&self) -> &[u8]
        ensures bytes { result.now ≡ self.now }
    {
        &self.bytes
    }

    /// The bytes, without a copy.
    pub fn into_bytes(self) -> Vec<u8>
        ensures bytes { result.items ≡ self }
    {
        self.bytes
    }
}
