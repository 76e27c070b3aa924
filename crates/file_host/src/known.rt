//! What is known of the store's file without a call.
ghost use Rattle.std.specs.Prelude.{◌≡◌, ◌+◌, ◌-◌, ◌≤◌, length, take, drop, IfSome, None};

use std::alloc::Global;

/// How many bytes are read at once.
const AHEAD: usize = 256 * 1024;

/// Bytes of the file that were read before they are asked for.
#[derive(Drop)]
pub(crate) struct Ahead {
    /// The offset in the file of the first of them.
    pub(crate) from: u64,
    /// How many they are: the first so many in `bytes`. The others there are any.
    pub(crate) count: usize,
    pub(crate) bytes: Vec<u8>,
}

impl Ahead {
    /// None, and no room for any.
    pub(crate) fn none(alloc: Global) -> Ahead
        ensures { result.count ≡ 0 }
    {
        Ahead {
            from: 0,
            count: 0,
            bytes: Vec::new(alloc),
        }
    }

    /// Those of so many bytes from an offset on, where all of them were read.
    pub(crate) fn part(&self, at: u64, size: usize) -> Option<&[u8]>
        ensures { IfSome result (λ part. (self.now.from ≤ at) × ((at - self.now.from) + size ≤ self.now.count)
            × (part.now ≡ take size (drop (at - self.now.from) self.now.bytes.items)) × (length part.now ≡ size)) }
    {
        let skipped = at.checked_sub(self.from)? as usize;
        let end = skipped.checked_add(size)?;
        if end > self.count || end > self.bytes.len() {
            return None;
        }
        Some(&self.bytes[skipped..end])
    }

    /// Makes room where there is none. Without memory for it there stays none, and nothing is read ahead.
    pub(crate) fn make_room(&mut self, alloc: Global)
        ensures { self.new.count ≡ 0 }
    {
        self.count = 0;
        if self.bytes.is_empty()
            && let Ok(room) = vec![in alloc; 0; AHEAD]
        {
            self.bytes = room;
        }
    }
}

/// What is known of the file.
#[derive(Drop)]
pub(crate) struct Known {
    /// The length in bytes, as the system told it, and then by what was written since.
    pub(crate) len: Option<u64>,
    pub(crate) ahead: Ahead,
}

impl Known {
    /// Nothing is known yet.
    pub(crate) fn nothing(alloc: Global) -> Known
        ensures len { result.len ≡ None }
        ensures ahead { result.ahead.count ≡ 0 }
    {
        Known {
            len: None,
            ahead: Ahead::none(alloc),
        }
    }

    /// Forgets all, before something is written.
    pub(crate) fn forget(&mut self)
        ensures len { self.new.len ≡ None }
        ensures ahead { self.new.ahead.count ≡ 0 }
    {
        self.len = None;
        self.ahead.count = 0;
    }
}
