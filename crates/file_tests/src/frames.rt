//! A pool of frames, and records that lie in its frames until they are written.
ghost use Rattle.std.specs.Prelude.{◌≡◌, ◌≤◌, List, ℕ, IsTrue, IfOk, false};
ghost use Rattle.host_port.specs.Host.{disk_now};
ghost use Rattle.page_pool.specs.Frames.{out_of};
ghost use Rattle.commit_journal.specs.Journal.{IsJournalAtRest, IsShort};

use commit_journal::{Fit, Journal, JournalFault, Walk, fits, give_up};
use host_port::{Host, MemoryHost};
use page_pool::{PagedBytes, Pool, PoolFault};
use std::alloc::{AllocError, Global};
use std::process::Abort;
use std::test::Fail;

// How many frames are free, and how many are out.
fn counts(pool: &Pool) -> (u32, u32)
    ensures { result.1 ≡ out_of pool.now }
{
    (pool.free(), pool.out())
}

// A pool without frames gives none, has no room for a frame more than 8192, and then has room for these.
fn has_room_for_8192(rt: &impl Abort, pool: &mut Pool) {
    assert_eq!(rt; pool.take().is_none(), true);
    assert_eq!(rt; pool.reserve(8193), Err(PoolFault::Full));
    assert_eq!(rt; pool.reserve(8192), Ok(()));
    assert_eq!(rt; counts(pool), (8192, 0));
}

#[test]
fn a_pool_has_at_most_8192_frames(rt: HostRuntime) {
    has_room_for_8192(&rt, &mut Pool::new(rt.alloc()));
}

// The first and the last byte of a frame that is taken, and given back.
fn ends_of_next(pool: &mut Pool) -> Option<(u8, u8)> {
    let frame = pool.take()?;
    let page = pool.bytes(&frame);
    let ends = (page[0], page[4095]);
    pool.give(frame);
    Some(ends)
}

// Stores a frame's bytes and gives them up. Gives how many frames are free and out before that.
fn rewritten(alloc: Global, pool: &mut Pool) -> Result<(u32, u32), AllocError>
    requires { out_of pool.old ≡ 0 }
{
    let paged = PagedBytes::store(alloc, pool, &[7; 4096])?;
    let stored = counts(pool);
    paged.give_up(pool);
    Ok(stored)
}

// A frame that was written is free again, and blank.
fn is_blank_again(rt: &impl Abort, alloc: Global, pool: &mut Pool)
    requires { out_of pool.old ≡ 0 }
{
    assert_eq!(rt; rewritten(alloc, pool), Ok((0, 1)));
    assert_eq!(rt; ends_of_next(pool), Some((0, 0)));
    assert_eq!(rt; counts(pool), (1, 0));
}

#[test]
fn a_frame_that_was_written_is_blank_when_it_is_taken_again(rt: HostRuntime) {
    is_blank_again(&rt, rt.alloc(), &mut Pool::new(rt.alloc()));
}

// The journal of a store that has no records.
fn opened<H: Host>(alloc: Global, host: &mut H) -> Result<Journal, JournalFault>
    ensures whole { IfOk result (λ journal. journal.broken ≡ false) }
    ensures at_rest { IfOk result (λ journal. IsTrue (H.told host.new).tells → ((forms : List (List ℕ)) × IsJournalAtRest (disk_now (H.told host.new)) forms journal.end)) }
{
    let mut walk = Walk::mount(host)?;
    let Some(_) = walk.next_bytes(alloc, host)? else {
        return Ok(walk.finish());
    };
    Err(JournalFault::Damaged { at: walk.offset() })
}

// In how many frames a byte string's record lies that is made ready, and how many are out once it is given up.
fn given_up<H: Host>(
    alloc: Global,
    host: &mut H,
    pool: &mut Pool,
    form: &[u8],
) -> Result<(u32, u32), JournalFault>
    requires form { IsShort form.now }
    requires none { out_of pool.old ≡ 0 }
{
    let journal = opened(alloc, host)?;
    let prepared = journal.prepare(alloc, pool, form)?;
    let frames = pool.out();
    give_up(prepared, pool);
    Ok((frames, pool.out()))
}

// The same of a byte string of a length, in a new store.
fn given_up_of(alloc: Global, size: usize) -> Result<(u32, u32), JournalFault>
    requires { size ≤ 16777211 }
{
    let form = vec![in alloc; 9; size]?;
    let mut pool = Pool::new(alloc);
    let mut host = MemoryHost::new(alloc, Vec::new(alloc), 1, Vec::new(alloc), Vec::new(alloc));
    given_up(alloc, &mut host, &mut pool, &form)
}

// A byte string's record lies in so many frames, and none is out once it is given up.
fn takes(rt: &impl Abort, alloc: Global, size: usize, frames: u32)
    requires { size ≤ 16777211 }
{
    assert_eq!(rt; given_up_of(alloc, size), Ok((frames, 0)), "{size}");
}

#[test]
fn a_byte_string_takes_its_bytes_and_five_in_frames(rt: HostRuntime) {
    takes(&rt, rt.alloc(), 0, 1);
    takes(&rt, rt.alloc(), 4_091, 1);
    takes(&rt, rt.alloc(), 4_092, 2);
    takes(&rt, rt.alloc(), 16_777_211, 4_096);
}

// Appends a byte string's record to a store that has none, and gives in how many frames it lay.
fn appended<H: Host>(
    alloc: Global,
    host: &mut H,
    pool: &mut Pool,
    form: &[u8],
) -> Result<u32, JournalFault>
    requires form { IsShort form.now }
    requires none { out_of pool.old ≡ 0 }
    ensures { out_of pool.new ≡ 0 }
{
    let mut journal = opened(alloc, host)?;
    match fits(journal.end(), form.len() as u64) {
        Fit::Yes => {
            let prepared = journal.prepare(alloc, pool, form)?;
            let frames = pool.out();
            journal.append(pool, host, prepared)?;
            Ok(frames)
        }
        Fit::TooLarge | Fit::Full => Err(JournalFault::Damaged { at: 0 }),
    }
}

// The file whose only record is this byte string.
fn file_of(alloc: Global, form: &[u8]) -> Result<Vec<u8>, Fail>
    requires { IsShort form.now }
{
    let mut file = b"EMFSTORE\0\0\0\x01\0\0\0\0\xa5".to_vec(alloc)?;
    file.extend_from_slice(&(form.len() as u32).to_be_bytes())?;
    file.extend_from_slice(form)?;
    file.push(0)?;
    Ok(file)
}

// Where a byte string's record was added it is the file's only one.
fn is_alone(rt: &impl Abort, alloc: Global, host: &MemoryHost, form: &[u8]) -> Result<(), Fail>
    requires { IsShort form.now }
{
    let wanted = file_of(alloc, form)?;
    assert_eq!(rt; host.file(), wanted.as_slice());
    Ok(())
}

// In how many frames a byte string's record lay, or the fault where a call of the host fails, is as wanted. Then no frame is out, and a
// record that was added is the file's only one.
fn is_told(
    rt: &impl Abort,
    alloc: Global,
    host: &mut MemoryHost,
    pool: &mut Pool,
    form: &[u8],
    wanted: Result<u32, JournalFault>,
) -> Result<(), Fail>
    requires form { IsShort form.now }
    requires none { out_of pool.old ≡ 0 }
{
    let is_added = wanted.is_ok();
    assert_eq!(rt; appended(alloc, host, pool, form), wanted);
    assert_eq!(rt; pool.out(), 0);
    if is_added {
        is_alone(rt, alloc, host, form)?;
    }
    Ok(())
}

// The same of a new store, whose host's call of a number fails.
fn is_told_at(
    rt: &impl Abort,
    alloc: Global,
    form: &[u8],
    call: u64,
    wanted: Result<u32, JournalFault>,
) -> Result<(), Fail>
    requires { IsShort form.now }
{
    let fails = vec![in alloc; call; 1]?;
    let mut pool = Pool::new(alloc);
    let mut host = MemoryHost::new(alloc, Vec::new(alloc), 1, Vec::new(alloc), fails);
    is_told(rt, alloc, &mut host, &mut pool, form, wanted)
}

// Six calls open a store without records; after a record's frames come a sync, the gate and a sync.
fn is_written_by_frames(
    rt: &impl Abort,
    alloc: Global,
    form: &[u8],
    frames: u32,
) -> Result<(), Fail>
    requires { IsShort form.now }
{
    let calls = 6 + u64::from(frames) + 3;
    for call in 0..calls {
        is_told_at(rt, alloc, form, call, Err(JournalFault::DiskFault))?;
    }
    is_told_at(rt, alloc, form, calls, Ok(frames))
}

// The same of a byte string of a length.
fn is_written_of(rt: &impl Abort, alloc: Global, size: u16, frames: u32) -> Result<(), Fail> {
    let form = vec![in alloc; 9; usize::from(size)]?;
    is_written_by_frames(rt, alloc, &form, frames)
}

#[test]
fn a_record_is_written_frame_by_frame(rt: HostRuntime) -> Result<(), Fail> {
    for (size, frames) in [(4_091, 1), (4_092, 2), (8_188, 3)] {
        is_written_of(&rt, rt.alloc(), size, frames)?;
    }
    Ok(())
}
