//! One region of frames: which of them are out, and the bytes of each that is.
ghost use Rattle.std.specs.Prelude.{ℕ, ◌≡◌, ◌+◌, ◌<◌, ◌≤◌, ◌↔◌, max, [], length, Some, IfSome, IfNone, OnOk, OnErr, vec_len, vec_capacity, Err};
ghost use Rattle.page_pool.specs.Frames.{frame_at, out_of, free_of, IsOut, SameFrames, IsTaken, IsGiven, IsWritten, overwritten, frame_size, pool_limit};
ghost use Rattle.page_pool.specs.Region.{IsSound};

use crate::fault::PoolFault;
use crate::slot::Slot;
use std::alloc::Global;
use std::marker::Model;

/// How many bytes a frame has.
pub const FRAME_SIZE: usize = 4096;

/// The most frames of a pool.
pub const POOL_LIMIT: usize = 8192;

/// A frame that is out of a pool. It can't be copied.
#[derive(Drop)]
pub struct Frame {
    number: u32,
}

impl Model for Frame {
    ghost Value = { ℕ };

    ghost view = { λ f. f.number };
}

/// One region of frames. Contracts see the frames by their numbers: the bytes of each that is out, and which are free.
#[derive(Drop)]
pub struct Pool {
    slots: Vec<Slot>,
    free: Vec<u32>,
}

impl Model for Pool {
    ghost use Rattle.std.specs.Prelude.{vec_capacity, List, Option, ℕ};
    ghost use Rattle.page_pool.specs.Region.{IsSound};

    ghost Value = { List (Option (List ℕ)) };

    ghost view = { λ p. p.slots.items };

    ghost invariant = { λ p. IsSound p.slots.items p.free.items (vec_capacity p.free) };
}

// Adds free frames, for which there is room.
fn lengthen(slots: &mut Vec<Slot>, free: &mut Vec<u32>, more: usize)
    requires sound { IsSound slots.old.items free.old.items (vec_capacity free.old) }
    requires few { vec_len slots.old + more ≤ pool_limit }
    requires slots { vec_len slots.old + more ≤ vec_capacity slots.old }
    requires free { vec_len slots.old + more ≤ vec_capacity free.old }
    ensures sound { IsSound slots.new.items free.new.items (vec_capacity free.new) }
    ensures same { SameFrames slots.old.items slots.new.items }
    ensures out { out_of slots.new.items ≡ out_of slots.old.items }
    ensures free { free_of slots.new.items ≡ free_of slots.old.items + more }
{
    for _ in 0..more {
        let number = slots.len() as u32;
        slots.push_reserved(Slot::new());
        free.push_reserved(number);
    }
}

impl Pool {
    /// A pool without frames.
    pub fn new(alloc: Global) -> Pool
        ensures empty { result ≡ [] }
        ensures out { out_of result ≡ 0 }
        ensures free { free_of result ≡ 0 }
    {
        Pool {
            slots: Vec::new(alloc),
            free: Vec::new(alloc),
        }
    }

    /// Makes at least so many frames free.
    pub fn reserve(&mut self, count: u32) -> Result<(), PoolFault>
        ensures same { SameFrames self.old self.new }
        ensures out { out_of self.new ≡ out_of self.old }
        ensures free { OnOk result (free_of self.new ≡ max (free_of self.old) count) }
        ensures err { OnErr result (self.new ≡ self.old) }
        ensures full { (result ≡ Err PoolFault.Full) ↔ (pool_limit < out_of self.old + count) }
    {
        let free = self.free.len();
        let out = self.taken();
        let wanted = count as usize;
        if wanted > POOL_LIMIT - out {
            return Err(PoolFault::Full);
        }
        if wanted <= free {
            return Ok(());
        }
        let more = wanted - free;
        if self.slots.reserve(more).is_err() {
            return Err(PoolFault::Memory);
        }
        if self.free.reserve(out + more).is_err() {
            return Err(PoolFault::Memory);
        }
        lengthen(&mut self.slots, &mut self.free, more);
        Ok(())
    }

    /// Takes a free frame out, whose bytes are then 0. It takes no memory.
    pub fn take(&mut self) -> Option<Frame>
        ensures some { IfSome result (λ frame. IsTaken self.old self.new frame) }
        ensures none { IfNone result (free_of self.old ≡ 0) }
        ensures same { IfNone result (self.new ≡ self.old) }
    {
        let number = self.free.pop()?;
        self.slots[number as usize].take();
        Some(Frame { number })
    }

    /// Gives a frame back.
    pub fn give(&mut self, frame: Frame)
        requires out { IsOut self.old frame }
        ensures given { IsGiven self.old self.new frame }
    {
        let number = frame.number;
        self.slots[number as usize].give();
        self.free.push_reserved(number);
    }

    /// Writes bytes into a frame, from an offset on.
    pub fn write(&mut self, frame: &Frame, at: u32, bytes: &[u8])
        requires out { IsOut self.old frame.now }
        requires range { at + length bytes.now ≤ frame_size }
        ensures written { IfSome (frame_at self.old frame.now) (λ old. IsWritten self.old self.new frame.now (overwritten old at bytes.now)) }
    {
        self.slots[frame.number as usize].write(at as usize, bytes);
    }

    /// The bytes of a frame.
    pub fn bytes(&self, frame: &Frame) -> &[u8]
        requires out { IsOut self.now frame.now }
        ensures bytes { frame_at self.now frame.now ≡ Some result.now }
        ensures size { length result.now ≡ frame_size }
    {
        match self.slots[frame.number as usize].page() {
            Some(page) => page,
            None => unreachable!(),
        }
    }

    /// How many frames are free.
    pub fn free(&self) -> u32
        ensures { result ≡ free_of self.now }
    {
        self.free.len() as u32
    }

    /// How many frames are out.
    pub fn out(&self) -> u32
        ensures out { result ≡ out_of self.now }
        ensures limit { result ≤ pool_limit }
    {
        self.taken() as u32
    }

    // How many frames are out, as a size.
    fn taken(&self) -> usize
        ensures taken { result ≡ out_of self.now }
        ensures limit { result ≤ pool_limit }
    {
        self.slots.len() - self.free.len()
    }
}
