//! Byte strings by version, of which those used least recently go where there is no room.
ghost use Rattle.std.specs.Prelude.{◌≡◌, ◌⊎◌, ◌+◌, ◌-◌, ◌<◌, ◌≤◌, ◌^◌, ◌↔◌, ℕ, List, [], ◌∷◌, length, take, drop, nat_eq, option_map, true, false, OnOk, OnErr, IfOk, IfErr, IfSome, IsOk};
ghost use Rattle.std.specs.Bool.{OnTrue, OnFalse};
ghost use Rattle.std.specs.Map.{lookup, remove_entry};
ghost use Rattle.lru.specs.LruCache.{promoted, lru_cache};
ghost use Rattle.page_pool.specs.Frames.{out_of, free_of, SameFrames, pool_limit};
ghost use Rattle.page_pool.specs.Paged.{AreOut};
ghost use Rattle.state_cache.specs.Entries.{held, stands, IsCached, IsFirst, KeepsApart, IsStored, IsYielded, IsWithin, Released, Keeps, Fits, most_entry_bytes, most_frames_held};

use lru::LruCache;
use page_pool::{POOL_LIMIT, PagedBytes, Pool, Room, count_frames};
use std::alloc::{AllocError, Global};
use std::marker::Model;
use std::num::NonZeroUsize;

/// The most entries of a cache.
const MOST_HELD: usize = 64;

/// The most frames that its entries hold.
const MOST_FRAMES_HELD: usize = 6144;

/// More frames than any cache holds.
const ANY_FRAMES: usize = 1 << 33;

/// The most bytes of an entry.
const MOST_ENTRY_BYTES: usize = 8_388_608;

/// Byte strings by version. Contracts see the versions and where their bytes lie, the most recently used first.
#[derive(Drop)]
pub struct Cache {
    alloc: Global,
    entries: LruCache<u32, PagedBytes>,
    count: usize,
}

impl Model for Cache {
    ghost use Rattle.std.specs.Prelude.{ℕ, List};
    ghost use Rattle.page_pool.specs.Paged.{PagedState};
    ghost use Rattle.state_cache.specs.Entries.{IsWithin};

    ghost Value = { List (ℕ × PagedState) };

    ghost view = { λ a. a.entries.entries };

    ghost invariant = { λ a. IsWithin a.entries.entries a.entries.cap a.count };
}

// How far entries are evicted: until so many stay at most, with so many frames at most where so many more are needed.
#[derive(Clone, Copy, Drop)]
struct Limits {
    entries: usize,
    frames: usize,
    needed: usize,
}

// Whether entries with so many frames are within the limits.
fn is_within(limits: Limits, entries: usize, count: usize, out: u32) -> bool
    requires small { count + limits.needed < 2 ^ 63 }
    ensures yes { OnTrue result ((entries ≤ limits.entries) × (count + limits.needed ≤ limits.frames) × (out + limits.needed ≤ pool_limit)) }
    ensures no { OnFalse result (entries ≤ limits.entries → count + limits.needed ≤ limits.frames → pool_limit < out + limits.needed) }
{
    entries <= limits.entries
        && count + limits.needed <= limits.frames
        && out as usize + limits.needed <= POOL_LIMIT
}

// Evicts the entries that were used least recently, until the others are within the limits or none is left.
fn evict(
    entries: &mut LruCache<u32, PagedBytes>,
    pool: &mut Pool,
    held_frames: usize,
    limits: Limits,
) -> usize
    requires out { IsCached pool.old entries.old.entries }
    requires counted { held_frames ≡ length (held entries.old.entries) }
    requires needed { limits.needed < 2 ^ 32 }
    ensures released { Released pool.old pool.new (held entries.old.entries) (held entries.new.entries) }
    ensures counted { result ≡ length (held entries.new.entries) }
    ensures cap { entries.new.cap ≡ entries.old.cap }
    ensures kept { Keeps (Fits limits.entries limits.frames (out_of pool.old - held_frames) limits.needed) entries.old.entries entries.new.entries }
    ensures room { Fits limits.entries limits.frames (out_of pool.old - held_frames) limits.needed (length entries.new.entries) result ⊎ (entries.new.entries ≡ []) }
{
    let mut count = held_frames;
    while !is_within(limits, entries.len(), count, pool.out()) {
        match entries.pop_lru() {
            Some((_, evicted)) => {
                count -= evicted.frames();
                evicted.give_up(pool);
            }
            None => return count,
        }
    }
    count
}

// Puts an entry without bytes first, and gives the frames back that the version's entry had. Says how many they were.
fn put_empty(
    alloc: Global,
    entries: &mut LruCache<u32, PagedBytes>,
    pool: &mut Pool,
    version: u32,
) -> Result<usize, AllocError>
    requires out { IsCached pool.old entries.old.entries }
    requires room { length entries.old.entries < entries.old.cap }
    ensures entries { OnOk result (entries.new ≡ lru_cache ((version, record { frames = []; size = 0 }) ∷ remove_entry (nat_eq version) entries.old.entries) entries.old.cap) }
    ensures released { OnOk result (Released pool.old pool.new (held entries.old.entries) (held (remove_entry (nat_eq version) entries.old.entries))) }
    ensures given { IfOk result (λ given. given + length (held (remove_entry (nat_eq version) entries.old.entries)) ≡ length (held entries.old.entries)) }
    ensures err { OnErr result (entries.new ≡ entries.old) }
    ensures same { OnErr result (pool.new ≡ pool.old) }
{
    match entries.put(version, PagedBytes::empty(alloc)) {
        Ok(Some(paged)) => {
            let given = paged.frames();
            paged.give_up(pool);
            Ok(given)
        }
        Ok(None) => Ok(0),
        Err(_) => Err(AllocError),
    }
}

// Gives the first entry its bytes.
fn replace_first(entries: &mut LruCache<u32, PagedBytes>, version: u32, paged: PagedBytes)
    requires there { IsFirst version entries.old.entries }
    ensures { entries.new ≡ lru_cache ((version, paged) ∷ drop 1 entries.old.entries) entries.old.cap }
{
    match entries.put(version, paged) {
        Ok(old) => drop(old),
        Err(_) => unreachable!(),
    }
}

impl Cache {
    /// A cache without entries.
    pub fn new(alloc: Global) -> Result<Cache, AllocError>
        ensures { IfOk result (λ cache. cache ≡ []) }
    {
        // One more than the entries that stay: a new one stands among the others until there is room for it.
        let most = NonZeroUsize::MIN.saturating_add(MOST_HELD);
        let entries = LruCache::new(alloc, most)?;
        Ok(Cache {
            alloc,
            entries,
            count: 0,
        })
    }

    /// What was last stored for a version while its entry stays. The entry then stands first.
    pub fn lookup(&mut self, pool: &Pool, version: u32) -> Result<Option<Vec<u8>>, AllocError>
        requires out { IsCached pool.now self.old }
        ensures found { IfOk result (λ found. option_map (λ bytes. bytes.items) found ≡ lookup (nat_eq version) (stands pool.now self.old)) }
        ensures first { OnOk result (self.new ≡ promoted (nat_eq version) self.old) }
        ensures order { OnOk result (stands pool.now self.new ≡ promoted (nat_eq version) (stands pool.now self.old)) }
        ensures frames { length (held self.new) ≡ length (held self.old) }
        ensures out { IsCached pool.now self.new }
        ensures err { OnErr result (self.new ≡ self.old) }
    {
        let bytes = match self.entries.peek(&version) {
            Some(paged) => paged.read(self.alloc, pool)?,
            None => return Ok(None),
        };
        self.entries.promote(&version);
        Ok(Some(bytes))
    }

    /// Puts an entry for a version first, and evicts those that were used least recently. Each goes only where
    /// otherwise more than `MOST_HELD` entries or `MOST_FRAMES_HELD` frames would be held, or more than `POOL_LIMIT` be
    /// out. `false` where the bytes are too long.
    pub fn store(&mut self, pool: &mut Pool, version: u32, bytes: &[u8]) -> Result<bool, AllocError>
        requires out { IsCached pool.old self.old }
        requires others { out_of pool.old ≤ most_frames_held + length (held self.old) }
        ensures stored { IfOk result (λ stored. OnTrue stored (IsStored pool.old pool.new version bytes.now self.old self.new)) }
        ensures long { IfOk result (λ stored. (stored ≡ false) ↔ (most_entry_bytes < length bytes.now)) }
        ensures none { IfOk result (λ stored. OnFalse stored ((self.new ≡ self.old) × (pool.new ≡ pool.old))) }
        ensures out { IsCached pool.new self.new }
        ensures apart { KeepsApart pool.old pool.new self.old self.new }
        ensures err { OnErr result (self.new ≡ self.old) }
        ensures same { OnErr result (SameFrames pool.old pool.new) }
        ensures err_out { OnErr result (out_of pool.new ≡ out_of pool.old) }
    {
        if bytes.len() > MOST_ENTRY_BYTES {
            return Ok(false);
        }
        // All memory is taken before the first entry goes.
        let needed = count_frames(bytes.len());
        let room = Room::new(self.alloc, needed)?;
        let possible = needed.min(POOL_LIMIT - pool.out() as usize);
        if pool.reserve(possible as u32).is_err() {
            return Err(AllocError);
        }
        let given = put_empty(self.alloc, &mut self.entries, pool, version)?;
        let limits = Limits {
            entries: MOST_HELD,
            frames: MOST_FRAMES_HELD,
            needed,
        };
        let left = evict(&mut self.entries, pool, self.count - given, limits);
        let paged = room.fill(pool, bytes);
        self.count = left + needed;
        replace_first(&mut self.entries, version, paged);
        Ok(true)
    }

    /// Evicts the entries that were used least recently, until so many more frames can be out or no entry is left. It
    /// takes no memory.
    pub fn yield_frames(&mut self, pool: &mut Pool, count: u32)
        requires out { IsCached pool.old self.old }
        ensures yielded { IsYielded pool.old pool.new count self.old self.new }
        ensures out { IsCached pool.new self.new }
        ensures apart { KeepsApart pool.old pool.new self.old self.new }
    {
        let limits = Limits {
            entries: MOST_HELD,
            frames: ANY_FRAMES,
            needed: count as usize,
        };
        self.count = evict(&mut self.entries, pool, self.count, limits);
    }
}
