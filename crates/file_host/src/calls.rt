//! Calls of the system, made again where a signal interrupts them, and gone on with until all is done.
ghost use Rattle.std.specs.Prelude.{◌≡◌, ◌⊎◌, ◌++◌, ◌+◌, ◌^◌, ◌<◌, ◌≤◌, length, take, drop, IsTrue, IfOk, OnOk, OnErr};
ghost use Rattle.host_port.specs.Host.{disk_now, said_now, GoesOn, Throughout, KeepsDisk, KeepsSaid, KeepsInput, Moves, AddsPart, WrittenPart, written, synced};
ghost use Rattle.system_port.specs.Stays.{Stays};

use crate::opening::open_store;
use host_port::Failed;
use system_port::{Stop, System};

/// Opens the store. Where a signal interrupts one of the opening's calls, it begins anew.
pub(crate) fn open<S: System>(system: &mut S) -> Result<(S::File, u64), Failed>
    ensures stays { Stays (S.told system.old) (S.told system.new) }
    ensures length { IfOk result (λ opened. IsTrue (S.told system.old).tells → opened.1 ≡ length (disk_now (S.told system.old)).now) }
{
    for _ in 0..u64::MAX {
        match open_store(system) {
            Ok(opened) => return Ok(opened),
            Err(Stop::Interrupted) => {}
            Err(_) => return Err(Failed),
        }
    }
    Err(Failed)
}

/// Asks for the file's length.
pub(crate) fn measure<S: System>(system: &mut S, file: &S::File) -> Result<u64, Failed>
    ensures stays { Stays (S.told system.old) (S.told system.new) }
    ensures length { IfOk result (λ n. IsTrue (S.told system.old).tells → n ≡ length (disk_now (S.told system.old)).now) }
{
    for _ in 0..u64::MAX {
        match system.examine(file) {
            Ok(found) => return Ok(found.len),
            Err(Stop::Interrupted) => {}
            Err(_) => return Err(Failed),
        }
    }
    Err(Failed)
}

/// Hands over some of the input.
pub(crate) fn read_some<S: System>(system: &mut S, into: &mut [u8]) -> Result<usize, Failed>
    requires { 0 < length into.old }
    ensures course { GoesOn (S.told system.old) (S.told system.new) }
    ensures disk { KeepsDisk (S.told system.old) (S.told system.new) }
    ensures said { KeepsSaid (S.told system.old) (S.told system.new) }
    ensures bound { IfOk result (λ n. n ≤ length into.new) }
    ensures moved { IfOk result (λ n. IsTrue (S.told system.old).tells → Moves (S.told system.old) (S.told system.new) (take n into.new)) }
{
    for _ in 0..u64::MAX {
        match system.read(into) {
            Ok(count) => return Ok(count),
            Err(Stop::Interrupted) => {}
            Err(_) => return Err(Failed),
        }
    }
    Err(Failed)
}

/// Prints all of the bytes.
pub(crate) fn print_all<S: System>(system: &mut S, bytes: &[u8]) -> Result<(), Failed>
    ensures course { GoesOn (S.told system.old) (S.told system.new) }
    ensures disk { KeepsDisk (S.told system.old) (S.told system.new) }
    ensures input { KeepsInput (S.told system.old) (S.told system.new) }
    ensures part { Throughout (S.told system.old) (S.told system.new) (λ _ said. AddsPart (said_now (S.told system.old)) bytes.now said) }
    ensures whole { OnOk result (IsTrue (S.told system.old).tells → said_now (S.told system.new) ≡ said_now (S.told system.old) ++ bytes.now) }
{
    let mut done = 0;
    for _ in 0..u64::MAX {
        if done == bytes.len() {
            return Ok(());
        }
        match system.print(&bytes[done..]) {
            Ok(0) => return Err(Failed),
            Ok(count) => done += count,
            Err(Stop::Interrupted) => {}
            Err(_) => return Err(Failed),
        }
    }
    Err(Failed)
}

/// Reads the file's bytes from the offset on to the beginning of `into`: as many as one call gives, and as many calls as it
/// takes for so many at least. It answers how many there are.
pub(crate) fn read_at_least<S: System>(
    system: &mut S,
    file: &S::File,
    at: u64,
    into: &mut [u8],
    least: usize,
) -> Result<usize, Failed>
    ensures stays { Stays (S.told system.old) (S.told system.new) }
    ensures least { IfOk result (λ n. least ≤ n) }
    ensures bound { IfOk result (λ n. n ≤ length into.new) }
    ensures bytes { IfOk result (λ n. IsTrue (S.told system.old).tells → take n into.new ≡ take n (drop at (disk_now (S.told system.old)).now)) }
{
    let mut done = 0;
    for _ in 0..u64::MAX {
        if done >= least {
            return Ok(done);
        }
        let Some(from) = at.checked_add(done as u64) else {
            return Err(Failed);
        };
        match system.read_at(file, from, &mut into[done..]) {
            Ok(0) => return Err(Failed),
            Ok(count) => done += count,
            Err(Stop::Interrupted) => {}
            Err(_) => return Err(Failed),
        }
    }
    Err(Failed)
}

/// Writes all of the bytes from the offset on.
pub(crate) fn write_all_at<S: System>(
    system: &mut S,
    file: &S::File,
    at: u64,
    bytes: &[u8],
) -> Result<(), Failed>
    requires offset { IsTrue (S.told system.old).tells → at ≤ length (disk_now (S.told system.old)).now }
    requires limit { at + length bytes.now ≤ 2 ^ 40 }
    ensures course { GoesOn (S.told system.old) (S.told system.new) }
    ensures said { KeepsSaid (S.told system.old) (S.told system.new) }
    ensures input { KeepsInput (S.told system.old) (S.told system.new) }
    ensures part { Throughout (S.told system.old) (S.told system.new)
        (λ disk _. WrittenPart (disk_now (S.told system.old)) (record { from = at; to = at + length bytes.now }) disk) }
    ensures whole { OnOk result (IsTrue (S.told system.old).tells → disk_now (S.told system.new) ≡ written (disk_now (S.told system.old)) at bytes.now) }
{
    let mut done = 0;
    for _ in 0..u64::MAX {
        match system.write_at(file, at, bytes, done) {
            Ok(count) => {
                done += count;
                if done == bytes.len() {
                    return Ok(());
                }
                if count == 0 {
                    return Err(Failed);
                }
            }
            Err(Stop::Interrupted) => {}
            Err(_) => return Err(Failed),
        }
    }
    Err(Failed)
}

/// Makes stable what was written.
pub(crate) fn sync<S: System>(system: &mut S, file: &S::File) -> Result<(), Failed>
    ensures course { GoesOn (S.told system.old) (S.told system.new) }
    ensures said { KeepsSaid (S.told system.old) (S.told system.new) }
    ensures input { KeepsInput (S.told system.old) (S.told system.new) }
    ensures before_or_after { Throughout (S.told system.old) (S.told system.new)
        (λ disk _. (disk ≡ disk_now (S.told system.old)) ⊎ (disk ≡ synced (disk_now (S.told system.old)))) }
    ensures stable { OnOk result (IsTrue (S.told system.old).tells → disk_now (S.told system.new) ≡ synced (disk_now (S.told system.old))) }
    ensures kept { OnErr result (KeepsDisk (S.told system.old) (S.told system.new)) }
{
    for _ in 0..u64::MAX {
        match system.sync(file) {
            Ok(()) => return Ok(()),
            Err(Stop::Interrupted) => {}
            Err(_) => return Err(Failed),
        }
    }
    Err(Failed)
}
