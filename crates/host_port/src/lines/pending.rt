//! The bytes of an input that are at hand and not read yet.
ghost use Rattle.std.specs.Prelude.{◌≡◌, ◌≤◌, ◌++◌, [], length, drop, OnOk, OnErr};

use std::alloc::{AllocError, Global};
use std::marker::Model;

/// Bytes that are added at the end, and removed at the beginning when they are read.
#[derive(Drop)]
pub struct Pending {
    bytes: Vec<u8>,
    /// How many of the bytes are read.
    read: usize,
}

impl Model for Pending {
    ghost use Rattle.std.specs.Prelude.{◌≤◌, List, ℕ, drop, length};

    ghost Value = { List ℕ };

    ghost view = { λ p. drop p.read p.bytes.items };

    ghost invariant = { λ p. p.read ≤ length p.bytes.items };
}

impl Pending {
    /// No bytes.
    pub fn new(alloc: Global) -> Pending
        ensures { result ≡ [] }
    {
        Pending {
            bytes: Vec::new(alloc),
            read: 0,
        }
    }

    /// The bytes that are not read.
    pub fn as_slice(&self) -> &[u8]
        ensures { result.now ≡ self.now }
    {
        &self.bytes[self.read..]
    }

    /// How many bytes are not read.
    pub fn len(&self) -> usize
        ensures { result ≡ length self.now }
    {
        self.bytes.len() - self.read
    }

    /// Adds bytes at the end.
    pub fn extend(&mut self, more: &[u8]) -> Result<(), AllocError>
        ensures added { OnOk result (self.new ≡ self.old ++ more.now) }
        ensures same { OnErr result (self.new ≡ self.old) }
    {
        self.make_room();
        self.bytes.extend_from_slice(more)?;
        Ok(())
    }

    /// Moves the bytes that are not read to the beginning, where no more of them are left than are read. So a byte is moved once at most for each
    /// byte that was read.
    fn make_room(&mut self)
        ensures same { self.new ≡ self.old }
    {
        let left = self.bytes.len() - self.read;
        if left <= self.read {
            self.bytes.copy_within(self.read.., 0);
            self.bytes.truncate(left);
            self.read = 0;
        }
    }

    /// Reads the first bytes.
    pub fn go_past(&mut self, count: usize)
        requires { count ≤ length self.old }
        ensures past { self.new ≡ drop count self.old }
    {
        self.read += count;
    }
}
