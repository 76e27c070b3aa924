//! The store, which is opened by the first call that needs it, and what is known of it without a call.
ghost use Rattle.std.specs.Prelude.{◌≡◌, ◌⊎◌, ◌+◌, ◌^◌, ◌≤◌, length, take, drop, IsTrue, IfOk, OnOk, OnErr};
ghost use Rattle.host_port.specs.Host.{disk_now, GoesOn, Throughout, KeepsDisk, KeepsSaid, KeepsInput, WrittenPart, written, synced};
ghost use Rattle.system_port.specs.Stays.{Stays};
ghost use Rattle.file_host.specs.Counting.{HasBytes};
ghost use Rattle.file_host.specs.Known.{IsKnown};

use crate::calls::{measure, open, read_at_least, sync, write_all_at};
use crate::known::{Ahead, Known};
use host_port::Failed;
use std::alloc::Global;
use system_port::System;

/// The file, opened where it is not.
fn opened<S: System>(
    system: &mut S,
    file: Option<S::File>,
    known: &mut Known,
) -> Result<S::File, Failed>
    requires known { IsKnown (S.told system.old) known.old }
    ensures known { IsKnown (S.told system.new) known.new }
    ensures stays { Stays (S.told system.old) (S.told system.new) }
{
    match file {
        Some(file) => Ok(file),
        None => {
            let (file, found) = open(system)?;
            known.len = Some(found);
            Ok(file)
        }
    }
}

/// The length that is known, or else the one that the system tells.
fn length_of<S: System>(system: &mut S, file: &S::File, known: &mut Known) -> Result<u64, Failed>
    requires known { IsKnown (S.told system.old) known.old }
    ensures known { IsKnown (S.told system.new) known.new }
    ensures stays { Stays (S.told system.old) (S.told system.new) }
    ensures length { IfOk result (λ n. IsTrue (S.told system.old).tells → n ≡ length (disk_now (S.told system.old)).now) }
{
    match known.len {
        Some(len) => Ok(len),
        None => {
            let found = measure(system, file)?;
            known.len = Some(found);
            Ok(found)
        }
    }
}

/// Writes all of the bytes. The length stays known where they are written, and what was read ahead is forgotten.
fn write_to<S: System>(
    system: &mut S,
    file: &S::File,
    known: &mut Known,
    at: u64,
    bytes: &[u8],
) -> Result<(), Failed>
    requires known { IsKnown (S.told system.old) known.old }
    requires offset { IsTrue (S.told system.old).tells → at ≤ length (disk_now (S.told system.old)).now }
    requires limit { at + length bytes.now ≤ 2 ^ 40 }
    ensures known { IsKnown (S.told system.new) known.new }
    ensures course { GoesOn (S.told system.old) (S.told system.new) }
    ensures said { KeepsSaid (S.told system.old) (S.told system.new) }
    ensures input { KeepsInput (S.told system.old) (S.told system.new) }
    ensures part { Throughout (S.told system.old) (S.told system.new)
        (λ disk _. WrittenPart (disk_now (S.told system.old)) (record { from = at; to = at + length bytes.now }) disk) }
    ensures whole { OnOk result (IsTrue (S.told system.old).tells → disk_now (S.told system.new) ≡ written (disk_now (S.told system.old)) at bytes.now) }
{
    let before = length_of(system, file, known)?;
    known.forget();
    write_all_at(system, file, at, bytes)?;
    known.len = Some(before.max(at + bytes.len() as u64));
    Ok(())
}

/// The length of the store.
pub(crate) fn len_of_store<S: System>(
    system: &mut S,
    file: &mut Option<S::File>,
    known: &mut Known,
) -> Result<u64, Failed>
    requires known { IsKnown (S.told system.old) known.old }
    ensures known { IsKnown (S.told system.new) known.new }
    ensures stays { Stays (S.told system.old) (S.told system.new) }
    ensures length { IfOk result (λ n. IsTrue (S.told system.old).tells → n ≡ length (disk_now (S.told system.old)).now) }
{
    let open = opened(system, file.take(), known)?;
    let given = length_of(system, &open, known);
    *file = Some(open);
    given
}

/// Reads anew what is ahead of the offset, at least so many bytes of it.
fn read_ahead<S: System>(
    system: &mut S,
    file: &S::File,
    ahead: &mut Ahead,
    at: u64,
    least: usize,
) -> Result<(), Failed>
    requires { ahead.old.count ≡ 0 }
    ensures stays { Stays (S.told system.old) (S.told system.new) }
    ensures bytes { HasBytes (S.told system.new) ahead.new.from ahead.new.bytes.items ahead.new.count }
    ensures from { OnOk result (ahead.new.from ≡ at) }
    ensures least { OnOk result ((least ≤ ahead.new.count) × (ahead.new.count ≤ length ahead.new.bytes.items)) }
{
    let count = read_at_least(system, file, at, &mut ahead.bytes, least)?;
    ahead.from = at;
    ahead.count = count;
    Ok(())
}

/// Fills `into` with the file's bytes: from those that were read ahead, or else by reading ahead from there. More bytes than
/// are read at once go straight to `into`.
fn read_from<S: System>(
    alloc: Global,
    system: &mut S,
    file: &S::File,
    ahead: &mut Ahead,
    at: u64,
    into: &mut [u8],
) -> Result<(), Failed>
    requires known { HasBytes (S.told system.old) ahead.old.from ahead.old.bytes.items ahead.old.count }
    ensures known { HasBytes (S.told system.new) ahead.new.from ahead.new.bytes.items ahead.new.count }
    ensures stays { Stays (S.told system.old) (S.told system.new) }
    ensures bytes { OnOk result (IsTrue (S.told system.old).tells → into.new ≡ take (length into.old) (drop at (disk_now (S.told system.old)).now)) }
{
    if let Some(part) = ahead.part(at, into.len()) {
        into.copy_from_slice(part);
        return Ok(());
    }
    ahead.make_room(alloc);
    let size = into.len();
    if size > ahead.bytes.len() {
        read_at_least(system, file, at, into, size)?;
        return Ok(());
    }
    read_ahead(system, file, ahead, at, size)?;
    into.copy_from_slice(&ahead.bytes[..size]);
    Ok(())
}

/// Fills `into` with bytes of the store.
pub(crate) fn read_store<S: System>(
    alloc: Global,
    system: &mut S,
    file: &mut Option<S::File>,
    known: &mut Known,
    at: u64,
    into: &mut [u8],
) -> Result<(), Failed>
    requires known { IsKnown (S.told system.old) known.old }
    ensures known { IsKnown (S.told system.new) known.new }
    ensures stays { Stays (S.told system.old) (S.told system.new) }
    ensures bytes { OnOk result (IsTrue (S.told system.old).tells → into.new ≡ take (length into.old) (drop at (disk_now (S.told system.old)).now)) }
{
    let open = opened(system, file.take(), known)?;
    let given = read_from(alloc, system, &open, &mut known.ahead, at, into);
    *file = Some(open);
    given
}

/// Writes all of the bytes into the store.
pub(crate) fn write_store<S: System>(
    system: &mut S,
    file: &mut Option<S::File>,
    known: &mut Known,
    at: u64,
    bytes: &[u8],
) -> Result<(), Failed>
    requires known { IsKnown (S.told system.old) known.old }
    requires offset { IsTrue (S.told system.old).tells → at ≤ length (disk_now (S.told system.old)).now }
    requires limit { at + length bytes.now ≤ 2 ^ 40 }
    ensures known { IsKnown (S.told system.new) known.new }
    ensures course { GoesOn (S.told system.old) (S.told system.new) }
    ensures said { KeepsSaid (S.told system.old) (S.told system.new) }
    ensures input { KeepsInput (S.told system.old) (S.told system.new) }
    ensures part { Throughout (S.told system.old) (S.told system.new)
        (λ disk _. WrittenPart (disk_now (S.told system.old)) (record { from = at; to = at + length bytes.now }) disk) }
    ensures whole { OnOk result (IsTrue (S.told system.old).tells → disk_now (S.told system.new) ≡ written (disk_now (S.told system.old)) at bytes.now) }
{
    let open = opened(system, file.take(), known)?;
    let given = write_to(system, &open, known, at, bytes);
    *file = Some(open);
    given
}

/// Makes stable what was written into the store.
pub(crate) fn sync_store<S: System>(
    system: &mut S,
    file: &mut Option<S::File>,
    known: &mut Known,
) -> Result<(), Failed>
    requires known { IsKnown (S.told system.old) known.old }
    ensures known { IsKnown (S.told system.new) known.new }
    ensures course { GoesOn (S.told system.old) (S.told system.new) }
    ensures said { KeepsSaid (S.told system.old) (S.told system.new) }
    ensures input { KeepsInput (S.told system.old) (S.told system.new) }
    ensures before_or_after { Throughout (S.told system.old) (S.told system.new)
        (λ disk _. (disk ≡ disk_now (S.told system.old)) ⊎ (disk ≡ synced (disk_now (S.told system.old)))) }
    ensures stable { OnOk result (IsTrue (S.told system.old).tells → disk_now (S.told system.new) ≡ synced (disk_now (S.told system.old))) }
    ensures kept { OnErr result (KeepsDisk (S.told system.old) (S.told system.new)) }
{
    let open = opened(system, file.take(), known)?;
    let given = sync(system, &open);
    *file = Some(open);
    given
}
