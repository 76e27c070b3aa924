//! The append of a record: its bytes are made ready first, then written after a closed gate, and the gate is opened
//! last.
ghost use Rattle.std.specs.Prelude.{◌≡◌, ◌+◌, ◌^◌, ◌<◌, ◌≤◌, ◌++◌, [], ◌∷◌, List, ℕ, length, take, IsTrue, IfOk, OnOk, OnErr, true, false};
ghost use Rattle.host_port.specs.Host.{disk_now, Rose, GoesOn, Throughout, KeepsSaid, KeepsInput, RaisesDiskAlone, CrashLeaves};
ghost use Rattle.page_pool.specs.Frames.{out_of, SameFrames, pool_limit};
ghost use Rattle.page_pool.specs.Paged.{AreOut, AreFree, KeepsOthers, frames_for};
ghost use Rattle.commit_journal.specs.Journal.{JournalState, after_gate, four_bytes, IsShort, HoldsRecord, IsReady, IsBeforeOrAfter, IsJournalAtRest, IsGateLast};

use crate::fit::OPEN_GATE;
use crate::write::{write_durably, write_pages};
use host_port::{Failed, Host};
use page_pool::{PagedBytes, Pool};
use std::alloc::{AllocError, Global};
use std::marker::Model;

/// A journal that was read to its closed gate, to which records can be appended.
#[derive(Drop)]
pub struct Journal {
    end: u64,
    broken: bool,
}

impl Model for Journal {
    ghost Value = { JournalState };

    ghost view = { λ j. record { end = j.end; broken = j.broken } };

    ghost invariant = { λ j. j.end < 2 ^ 40 };
}

/// A record that is ready to be written: all that an append writes after its gate, in frames of a pool.
#[derive(Drop)]
pub struct Prepared {
    paged: PagedBytes,
}

impl Model for Prepared {
    ghost use Rattle.page_pool.specs.Paged.{PagedState};

    ghost Value = { PagedState };

    ghost view = { λ p. p.paged };
}

/// Gives the frames of a record back that is not to be appended.
pub fn give_up(prepared: Prepared, pool: &mut Pool)
    requires out { AreOut pool.old prepared.frames }
    ensures free { AreFree pool.new prepared.frames }
    ensures others { KeepsOthers pool.old pool.new prepared.frames }
    ensures out { out_of pool.new + length prepared.frames ≡ out_of pool.old }
{
    prepared.paged.give_up(pool);
}

fn length_field(n: u32) -> [u8; 4]
    ensures { result ≡ four_bytes n }
{
    n.to_be_bytes()
}

impl Journal {
    pub(crate) fn at(end: u64) -> Journal
        requires { end < 2 ^ 40 }
        ensures { result ≡ record { end = end; broken = false } }
    {
        Journal { end, broken: false }
    }

    /// The offset of the closed gate.
    pub fn end(&self) -> u64
        ensures offset { result ≡ self.now.end }
        ensures low { result < 2 ^ 40 }
    {
        self.end
    }

    /// Makes the record of a byte string ready in frames of the pool, so that an append takes no memory.
    pub fn prepare(
        &self,
        alloc: Global,
        pool: &mut Pool,
        form: &[u8],
    ) -> Result<Prepared, AllocError>
        requires short { IsShort form.now }
        requires room { out_of pool.old + frames_for (length form.now + 5) ≤ pool_limit }
        ensures holds { IfOk result (λ prepared. HoldsRecord pool.new prepared form.now) }
        ensures fresh { IfOk result (λ prepared. AreFree pool.old prepared.frames) }
        ensures others { IfOk result (λ prepared. KeepsOthers pool.old pool.new prepared.frames) }
        ensures out { OnOk result (out_of pool.new ≡ out_of pool.old + frames_for (length form.now + 5)) }
        ensures same { OnErr result (SameFrames pool.old pool.new) }
        ensures err { OnErr result (out_of pool.new ≡ out_of pool.old) }
    {
        let mut bytes = Vec::with_capacity(alloc, form.len() + 5)?;
        bytes.extend_from_slice(&length_field(form.len() as u32))?;
        bytes.extend_from_slice(form)?;
        bytes.push(0)?;
        let paged = PagedBytes::store(alloc, pool, &bytes)?;
        Ok(Prepared { paged })
    }

    /// Adds a record: writes it and the next closed gate, frame by frame, syncs, opens the gate before it, syncs. A crash at
    /// any moment leaves the old records, or these with the new one; after `Ok` the new one. After an error the journal is
    /// broken: what the file holds then is known only by reading it again. The record's frames are given back either way.
    pub fn append<H: Host>(
        &mut self,
        pool: &mut Pool,
        host: &mut H,
        prepared: Prepared,
    ) -> Result<(), Failed>
        requires whole { self.old.broken ≡ false }
        requires ready { IsReady pool.old prepared self.old.end }
        requires at_rest { IsTrue (H.told host.old).tells → ((forms : List (List ℕ)) × IsJournalAtRest (disk_now (H.told host.old)) forms self.old.end) }

        ensures ok { OnOk result ((form : List ℕ) → HoldsRecord pool.old prepared form → self.new ≡ record { end = self.old.end + 5 + length form; broken = false }) }
        ensures err { OnErr result (self.new ≡ record { end = self.old.end; broken = true }) }
        ensures cause { OnErr result (Rose (H.told host.old).disk_faults (H.told host.new).disk_faults) }
        ensures alone { RaisesDiskAlone (H.told host.old) (H.told host.new) }
        ensures course { GoesOn (H.told host.old) (H.told host.new) }
        ensures said { KeepsSaid (H.told host.old) (H.told host.new) }
        ensures input { KeepsInput (H.told host.old) (H.told host.new) }

        ensures free { AreFree pool.new prepared.frames }
        ensures others { KeepsOthers pool.old pool.new prepared.frames }
        ensures out { out_of pool.new + length prepared.frames ≡ out_of pool.old }

        ensures added { OnOk result (IsTrue (H.told host.old).tells → (form : List ℕ) → HoldsRecord pool.old prepared form
            → (forms : List (List ℕ)) → IsJournalAtRest (disk_now (H.told host.old)) forms self.old.end
            → IsJournalAtRest (disk_now (H.told host.new)) (forms ++ form ∷ []) self.new.end) }
        ensures any_moment { (form : List ℕ) → HoldsRecord pool.old prepared form
            → (forms : List (List ℕ)) → IsJournalAtRest (disk_now (H.told host.old)) forms self.old.end
            → Throughout (H.told host.old) (H.told host.new) (λ disk _. CrashLeaves (IsBeforeOrAfter forms form) disk) }
        ensures prefix { Throughout (H.told host.old) (H.told host.new) (λ disk _. take self.old.end disk.now ≡ take self.old.end (disk_now (H.told host.old)).now) }
        ensures gate_last { (form : List ℕ) → HoldsRecord pool.old prepared form
            → Throughout (H.told host.old) (H.told host.new) (λ disk _. IsGateLast (disk_now (H.told host.old)) self.old.end (after_gate form) disk) }
    {
        let gate = self.end;
        let length = prepared.paged.len() as u64;
        self.broken = true;
        let done = write_pages(host, gate + 1, pool, &prepared.paged);
        prepared.paged.give_up(pool);
        done?;
        write_durably(host, gate, &[OPEN_GATE])?;
        self.end = gate + length;
        self.broken = false;
        Ok(())
    }
}
