//! Writes that are on the disk when they are answered: of a slice, and of bytes that lie in frames.
ghost use Rattle.std.specs.Prelude.{ℕ, List, ◌≡◌, ◌+◌, ◌^◌, ◌≤◌, length, IsTrue, OnOk, OnErr};
ghost use Rattle.host_port.specs.Host.{disk_now, Rose, GoesOn, Throughout, KeepsSaid, KeepsInput, RaisesDiskAlone, written, overwritten, synced};
ghost use Rattle.page_pool.specs.Paged.{AreOut, content, frames_for};
ghost use Rattle.commit_journal.specs.TornWrites.{IsWriting, WrittenWithin};

use host_port::{Failed, Host};
use page_pool::{FRAME_SIZE, PagedBytes, Pool};

pub(crate) fn write_durably<H: Host>(host: &mut H, at: u64, bytes: &[u8]) -> Result<(), Failed>
    requires offset { IsTrue (H.told host.old).tells → at ≤ length (disk_now (H.told host.old)).now }
    requires limit { at + length bytes.now ≤ 2 ^ 40 }
    ensures course { GoesOn (H.told host.old) (H.told host.new) }
    ensures said { KeepsSaid (H.told host.old) (H.told host.new) }
    ensures input { KeepsInput (H.told host.old) (H.told host.new) }
    ensures during { Throughout (H.told host.old) (H.told host.new) (λ disk _. IsWriting (disk_now (H.told host.old)) at bytes.now disk) }
    ensures done { OnOk result (IsTrue (H.told host.old).tells → disk_now (H.told host.new) ≡ synced (written (disk_now (H.told host.old)) at bytes.now)) }
    ensures alone { RaisesDiskAlone (H.told host.old) (H.told host.new) }
    ensures cause { OnErr result (Rose (H.told host.old).disk_faults (H.told host.new).disk_faults) }
{
    host.write_at(at, bytes)?;
    host.sync()
}

// The pieces that lie in frames, written one after another.
fn write_pieces<H: Host>(
    host: &mut H,
    at: u64,
    pool: &Pool,
    paged: &PagedBytes,
) -> Result<(), Failed>
    requires out { AreOut pool.now paged.now.frames }
    requires count { length paged.now.frames ≡ frames_for paged.now.size }
    requires offset { IsTrue (H.told host.old).tells → at ≤ length (disk_now (H.told host.old)).now }
    requires limit { at + length (content pool.now paged.now) ≤ 2 ^ 40 }
    ensures course { GoesOn (H.told host.old) (H.told host.new) }
    ensures said { KeepsSaid (H.told host.old) (H.told host.new) }
    ensures input { KeepsInput (H.told host.old) (H.told host.new) }
    ensures during { Throughout (H.told host.old) (H.told host.new) (λ disk _. WrittenWithin (disk_now (H.told host.old)) (record { from = at; to = at + length (content pool.now paged.now) }) disk) }
    ensures whole { OnOk result (IsTrue (H.told host.old).tells → (disk_now (H.told host.new)).now ≡ overwritten (disk_now (H.told host.old)).now at (content pool.now paged.now)) }
    ensures alone { RaisesDiskAlone (H.told host.old) (H.told host.new) }
    ensures cause { OnErr result (Rose (H.told host.old).disk_faults (H.told host.new).disk_faults) }
{
    for i in 0..paged.frames() {
        let piece = paged.piece(pool, i);
        host.write_at(at + FRAME_SIZE as u64 * i as u64, piece)?;
    }
    Ok(())
}

/// Writes bytes that lie in frames, one write for each frame. They are on the disk when it is answered.
pub(crate) fn write_pages<H: Host>(
    host: &mut H,
    at: u64,
    pool: &Pool,
    paged: &PagedBytes,
) -> Result<(), Failed>
    requires out { AreOut pool.now paged.now.frames }
    requires count { length paged.now.frames ≡ frames_for paged.now.size }
    requires offset { IsTrue (H.told host.old).tells → at ≤ length (disk_now (H.told host.old)).now }
    requires limit { at + length (content pool.now paged.now) ≤ 2 ^ 40 }
    ensures course { GoesOn (H.told host.old) (H.told host.new) }
    ensures said { KeepsSaid (H.told host.old) (H.told host.new) }
    ensures input { KeepsInput (H.told host.old) (H.told host.new) }
    ensures during { Throughout (H.told host.old) (H.told host.new) (λ disk _. IsWriting (disk_now (H.told host.old)) at (content pool.now paged.now) disk) }
    ensures done { OnOk result (IsTrue (H.told host.old).tells → disk_now (H.told host.new) ≡ synced (written (disk_now (H.told host.old)) at (content pool.now paged.now))) }
    ensures alone { RaisesDiskAlone (H.told host.old) (H.told host.new) }
    ensures cause { OnErr result (Rose (H.told host.old).disk_faults (H.told host.new).disk_faults) }
{
    write_pieces(host, at, pool, paged)?;
    host.sync()
}
