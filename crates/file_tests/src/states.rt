//! States that are cached: what is found, what goes and what is yielded.
ghost use Rattle.state_cache.specs.Entries.{HoldsAll};

use page_pool::Pool;
use state_cache::Cache;
use std::alloc::{AllocError, Global};
use std::test::Fail;

// Whether bytes were stored for a version, in a cache that holds all frames that are out.
fn stored(
    cache: &mut Cache,
    pool: &mut Pool,
    version: u32,
    bytes: &[u8],
) -> Result<bool, AllocError>
    requires { HoldsAll pool.old cache.old }
    ensures { HoldsAll pool.new cache.new }
{
    cache.store(pool, version, bytes)
}

// Stores the bytes for each of so many versions, from 0 on.
fn fill(cache: &mut Cache, pool: &mut Pool, versions: u32, bytes: &[u8]) -> Result<(), AllocError>
    requires { HoldsAll pool.old cache.old }
    ensures { HoldsAll pool.new cache.new }
{
    for version in 0..versions {
        stored(cache, pool, version, bytes)?;
    }
    Ok(())
}

// How many bytes are found for a version.
fn found(cache: &mut Cache, pool: &Pool, version: u32) -> Result<Option<usize>, AllocError>
    requires { HoldsAll pool.now cache.old }
    ensures { HoldsAll pool.now cache.new }
{
    match cache.lookup(pool, version)? {
        None => Ok(None),
        Some(bytes) => Ok(Some(bytes.len())),
    }
}

// Which is the first of so many versions, from 0 on, whose entry stays.
fn oldest(cache: &mut Cache, pool: &Pool, versions: u32) -> Result<Option<u32>, AllocError>
    requires { HoldsAll pool.now cache.old }
{
    for version in 0..versions {
        if found(cache, pool, version)?.is_some() {
            return Ok(Some(version));
        }
    }
    Ok(None)
}

// How many frames are out, and which version is the oldest whose entry stays. Before that the bytes are stored for so
// many versions, and so many frames are asked for.
fn left(
    cache: &mut Cache,
    pool: &mut Pool,
    versions: u32,
    bytes: &[u8],
    yielded: u32,
) -> Result<(u32, Option<u32>), AllocError>
    requires { HoldsAll pool.old cache.old }
{
    fill(cache, pool, versions, bytes)?;
    cache.yield_frames(pool, yielded);
    Ok((pool.out(), oldest(cache, pool, versions)?))
}

// The same, in a new cache.
fn left_of_new(
    alloc: Global,
    versions: u32,
    bytes: &[u8],
    yielded: u32,
) -> Result<(u32, Option<u32>), AllocError> {
    let mut pool = Pool::new(alloc);
    let mut cache = Cache::new(alloc)?;
    left(&mut cache, &mut pool, versions, bytes, yielded)
}

#[test]
fn only_what_has_no_room_goes_the_oldest_first(rt: HostRuntime) -> Result<(), Fail> {
    let alloc = rt.alloc();
    let all = vec![in alloc; 7; 8_388_609]?;
    for (versions, size, yielded, want) in [
        (64, 1, 0, (64, Some(0))),
        (65, 1, 0, (64, Some(1))),
        (1, 8_388_609, 0, (0, None)),
        (4, 8_388_608, 0, (6_144, Some(1))),
        (3, 8_388_608, 2_048, (6_144, Some(0))),
        (3, 8_388_608, 2_049, (4_096, Some(1))),
        (3, 8_388_608, 8_193, (0, None)),
    ] {
        let bytes = all.get(..size).unwrap_or(&[]);
        assert_eq!(&rt; left_of_new(alloc, versions, bytes, yielded)?, want);
    }
    Ok(())
}

// What is found of versions 0 and 1 once 0 is looked up among 64 and one more is stored.
fn promoted(
    cache: &mut Cache,
    pool: &mut Pool,
) -> Result<(Option<usize>, Option<usize>), AllocError>
    requires { HoldsAll pool.old cache.old }
{
    fill(cache, pool, 64, &[7; 3])?;
    found(cache, pool, 0)?;
    stored(cache, pool, 64, &[7; 3])?;
    Ok((found(cache, pool, 0)?, found(cache, pool, 1)?))
}

#[test]
fn an_entry_that_is_looked_up_stays_before_others(rt: HostRuntime) -> Result<(), Fail> {
    let mut pool = Pool::new(rt.alloc());
    let mut cache = Cache::new(rt.alloc())?;
    assert_eq!(rt; promoted(&mut cache, &mut pool)?, (Some(3), None));
    Ok(())
}

// Whether these bytes are found for a version.
fn holds(cache: &mut Cache, pool: &Pool, version: u32, bytes: &[u8]) -> Result<bool, AllocError>
    requires { HoldsAll pool.now cache.old }
    ensures { HoldsAll pool.now cache.new }
{
    match cache.lookup(pool, version)? {
        None => Ok(false),
        Some(found) => Ok(found.as_slice() == bytes),
    }
}

// How many bytes are found for a version before and after a store. Told too is whether that store and one of other
// bytes say that they are kept.
fn kept(
    cache: &mut Cache,
    pool: &mut Pool,
    other: &[u8],
) -> Result<(Option<usize>, bool, Option<usize>, bool), AllocError>
    requires { HoldsAll pool.old cache.old }
{
    let before = found(cache, pool, 3)?;
    let first = stored(cache, pool, 3, b"state")?;
    let after = found(cache, pool, 3)?;
    let second = stored(cache, pool, 3, other)?;
    Ok((before, first, after, second))
}

#[test]
fn a_store_says_whether_the_bytes_are_kept(rt: HostRuntime) -> Result<(), Fail> {
    let alloc = rt.alloc();
    let long = vec![in alloc; 7; 8_388_609]?;
    let mut pool = Pool::new(alloc);
    let mut cache = Cache::new(alloc)?;
    let (before, first, after, second) = kept(&mut cache, &mut pool, long.as_slice())?;
    assert_eq!(&rt; (before, after), (None, Some(5)));
    assert_eq!(&rt; (first, second), (true, false));
    Ok(())
}

// Whether what was stored last is found of two versions, of which one is stored twice.
fn replaced(cache: &mut Cache, pool: &mut Pool) -> Result<(bool, bool), AllocError>
    requires { HoldsAll pool.old cache.old }
{
    stored(cache, pool, 3, b"first")?;
    stored(cache, pool, 4, b"other")?;
    stored(cache, pool, 3, b"second")?;
    Ok((
        holds(cache, pool, 3, b"second")?,
        holds(cache, pool, 4, b"other")?,
    ))
}

#[test]
fn what_was_stored_last_for_a_version_is_found(rt: HostRuntime) -> Result<(), Fail> {
    let mut pool = Pool::new(rt.alloc());
    let mut cache = Cache::new(rt.alloc())?;
    assert_eq!(rt; replaced(&mut cache, &mut pool)?, (true, true));
    assert_eq!(rt; pool.out(), 2);
    Ok(())
}
