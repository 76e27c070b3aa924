//! Byte strings in frames of a pool.
ghost use Rattle.std.specs.Prelude.{ℕ, ◌≡◌, ◌+◌, ◌*◌, ◌<◌, ◌≤◌, ◌^◌, [], length, take, drop, IfOk, OnOk, OnErr};
ghost use Rattle.page_pool.specs.Frames.{out_of, free_of, SameFrames, frame_size, pool_limit};
ghost use Rattle.page_pool.specs.Paged.{AreOut, AreFree, KeepsOthers, frames_for, content, HoldsBytes};

use crate::pool::{FRAME_SIZE, Frame, Pool};
use std::alloc::{AllocError, Global};
use std::marker::Model;

/// A byte string that lies in frames of a pool. Contracts see its frames and how many bytes it has; the bytes are the pool's.
#[derive(Drop)]
pub struct PagedBytes {
    frames: Vec<Frame>,
    size: usize,
}

impl Model for PagedBytes {
    ghost use Rattle.std.specs.Prelude.{◌≡◌, length};
    ghost use Rattle.page_pool.specs.Paged.{PagedState, frames_for};

    ghost Value = { PagedState };

    ghost view = { λ p. record { frames = p.frames.items; size = p.size } };

    ghost invariant = { λ p. length p.frames.items ≡ frames_for p.size };
}

/// How many frames hold so many bytes.
pub fn count_frames(size: usize) -> usize
    requires { size < 2 ^ 63 }
    ensures { result ≡ frames_for size }
{
    (size + (FRAME_SIZE - 1)) / FRAME_SIZE
}

// The i-th piece of a byte string.
fn piece_of(bytes: &[u8], i: usize) -> &[u8]
    requires { frame_size * i ≤ length bytes.now }
    ensures piece { result.now ≡ take frame_size (drop (frame_size * i) bytes.now) }
    ensures size { length result.now ≤ frame_size }
{
    let rest = &bytes[FRAME_SIZE * i..];
    if rest.len() < FRAME_SIZE {
        return rest;
    }
    &rest[..FRAME_SIZE]
}

/// Room for the frames of a byte string. Contracts see for how many.
#[derive(Drop)]
pub struct Room {
    frames: Vec<Frame>,
}

impl Model for Room {
    ghost use Rattle.std.specs.Prelude.{ℕ, ◌≡◌, [], vec_capacity};

    ghost Value = { ℕ };

    ghost view = { λ r. vec_capacity r.frames };

    ghost invariant = { λ r. r.frames.items ≡ [] };
}

impl Room {
    /// Room for so many frames.
    pub fn new(alloc: Global, count: usize) -> Result<Room, AllocError>
        ensures { IfOk result (λ room. room ≡ count) }
    {
        let frames = Vec::with_capacity(alloc, count)?;
        Ok(Room { frames })
    }

    /// Writes bytes into frames that it takes from a pool. It takes no memory.
    pub fn fill(self, pool: &mut Pool, bytes: &[u8]) -> PagedBytes
        requires room { frames_for (length bytes.now) ≤ self }
        requires free { frames_for (length bytes.now) ≤ free_of pool.old }
        ensures holds { HoldsBytes pool.new result bytes.now }
        ensures fresh { AreFree pool.old result.frames }
        ensures others { KeepsOthers pool.old pool.new result.frames }
        ensures out { out_of pool.new ≡ out_of pool.old + frames_for (length bytes.now) }
    {
        let mut frames = self.frames;
        for i in 0..count_frames(bytes.len()) {
            match pool.take() {
                Some(frame) => {
                    pool.write(&frame, 0, piece_of(bytes, i));
                    frames.push_reserved(frame);
                }
                None => unreachable!(),
            }
        }
        PagedBytes {
            frames,
            size: bytes.len(),
        }
    }
}

impl PagedBytes {
    /// No bytes, in no frames.
    pub fn empty(alloc: Global) -> PagedBytes
        ensures { result ≡ record { frames = []; size = 0 } }
    {
        PagedBytes {
            frames: Vec::new(alloc),
            size: 0,
        }
    }

    /// Writes bytes into frames that it takes from a pool. When out of memory the pool's frames are as before.
    pub fn store(alloc: Global, pool: &mut Pool, bytes: &[u8]) -> Result<PagedBytes, AllocError>
        requires room { out_of pool.old + frames_for (length bytes.now) ≤ pool_limit }
        ensures holds { IfOk result (λ paged. HoldsBytes pool.new paged bytes.now) }
        ensures fresh { IfOk result (λ paged. AreFree pool.old paged.frames) }
        ensures others { IfOk result (λ paged. KeepsOthers pool.old pool.new paged.frames) }
        ensures out { OnOk result (out_of pool.new ≡ out_of pool.old + frames_for (length bytes.now)) }
        ensures same { OnErr result (SameFrames pool.old pool.new) }
        ensures err { OnErr result (out_of pool.new ≡ out_of pool.old) }
    {
        let count = count_frames(bytes.len());
        let room = Room::new(alloc, count)?;
        if pool.reserve(count as u32).is_err() {
            return Err(AllocError);
        }
        Ok(room.fill(pool, bytes))
    }

    /// How many bytes it has.
    pub fn len(&self) -> usize
        ensures { result ≡ self.now.size }
    {
        self.size
    }

    /// How many frames it has.
    pub fn frames(&self) -> usize
        ensures frames { result ≡ length self.now.frames }
        ensures count { result ≡ frames_for self.now.size }
    {
        self.frames.len()
    }

    /// The bytes of its i-th frame.
    pub fn piece<'a>(&self, pool: &'a Pool, i: usize) -> &'a [u8]
        requires out { AreOut pool.now self.now.frames }
        requires index { i < length self.now.frames }
        ensures piece { result.now ≡ take frame_size (drop (frame_size * i) (content pool.now self.now)) }
    {
        let page = pool.bytes(&self.frames[i]);
        let left = self.size - FRAME_SIZE * i;
        if left < FRAME_SIZE {
            return &page[..left];
        }
        page
    }

    /// Reads the bytes.
    pub fn read(&self, alloc: Global, pool: &Pool) -> Result<Vec<u8>, AllocError>
        requires out { AreOut pool.now self.now.frames }
        ensures read { IfOk result (λ bytes. bytes.items ≡ content pool.now self.now) }
    {
        let mut bytes = Vec::new(alloc);
        for frame in &self.frames {
            bytes.extend_from_slice(pool.bytes(frame))?;
        }
        bytes.truncate(self.size);
        Ok(bytes)
    }

    /// Gives each frame back.
    pub fn give_up(self, pool: &mut Pool)
        requires out { AreOut pool.old self.frames }
        ensures free { AreFree pool.new self.frames }
        ensures others { KeepsOthers pool.old pool.new self.frames }
        ensures out { out_of pool.new + length self.frames ≡ out_of pool.old }
        ensures room { free_of pool.new ≡ free_of pool.old + length self.frames }
    {
        let mut frames = self.frames;
        while let Some(frame) = frames.pop() {
            pool.give(frame);
        }
    }
}
