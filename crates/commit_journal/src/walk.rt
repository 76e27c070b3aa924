//! Reading a journal's records, one after the other.
ghost use Rattle.std.specs.Prelude.{◌≡◌, ◌⊎◌, ◌+◌, ◌^◌, ◌<◌, ◌≤◌, ◌++◌, [], ◌∷◌, List, ℕ, length, IsTrue, IfOk, OnOk, IfErr, IfSome, IfNone, OnErr, IsErrOf, true, false};
ghost use Rattle.host_port.specs.Host.{disk_now, Rose, GoesOn, Throughout, KeepsDisk, KeepsSaid, KeepsInput, RaisesDiskAlone, CrashLeaves};
ghost use Rattle.std.specs.Bool.{OnTrue, OnFalse};
ghost use Rattle.commit_journal.specs.Journal.{WalkState, header, four_bytes, IsWalked, IsClosed, IsStuck, IsOpen, IsNoHeader, IsJournalAtRest, IsShort, IsAtMostSynced, MountedFrom, StandsForSame, StandsForNone, first_gate, most_bytes, new_size};
ghost use Rattle.commit_journal.specs.Walk.{IfDamaged};

use crate::fault::JournalFault;
use crate::fit::{FIRST_GATE, JOURNAL_LIMIT, MOST_BYTES, NEW_SIZE, OPEN_GATE};
use crate::journal::Journal;
use crate::write::write_durably;
use host_port::{Failed, Host};
use std::alloc::Global;
use std::marker::Model;

/// What a journal begins with: that it is one, and the version of its form.
const HEADER: [u8; 16] = *b"EMFSTORE\0\0\0\x01\0\0\0\0";

/// A new journal: the header and a closed gate.
const NEW_FILE: [u8; 17] = *b"EMFSTORE\0\0\0\x01\0\0\0\0\0";

/// A journal that is being read, record by record.
#[derive(Drop)]
pub struct Walk {
    offset: u64,
    next: u64,
    ended: bool,
}

impl Model for Walk {
    ghost Value = { WalkState };

    ghost view = { λ w. record { offset = w.offset; next = w.next; ended = w.ended } };

    ghost invariant = { λ w. w.next < 2 ^ 40 };
}

fn first_difference(head: &[u8; 16]) -> Option<u64>
    ensures same { IfNone result (head.now ≡ header) }
    ensures differs { IfSome result (λ at. IsNoHeader head.now at) }
{
    for (i, byte) in head.iter().enumerate() {
        if *byte != HEADER[i] {
            return Some(i as u64);
        }
    }
    None
}

// The number in a field of four bytes.
fn number_in(field: &[u8; 4]) -> u32
    ensures spelled { four_bytes result ≡ field.now }
    ensures low { result < 2 ^ 32 }
{
    u32::from_be_bytes(*field)
}

// Whether a record of that size may stand at a gate.
fn has_room(length: u64, gate: u64, size: u64) -> bool
    requires gate { gate < 2 ^ 40 }
    requires field { gate + 5 ≤ length }
    ensures room { OnTrue result ((size ≤ most_bytes) × (gate + 5 + size < 2 ^ 40) × (gate + 5 + size ≤ length)) }
    ensures none { OnFalse result ((size ≤ most_bytes) → (gate + 5 + size < 2 ^ 40) → length < gate + 5 + size) }
{
    size <= MOST_BYTES && gate + 5 + size < JOURNAL_LIMIT && size <= length - gate - 5
}

/// What stands at the offset where a record's gate may stand.
enum Gate {
    /// No record: the journal ends here.
    Closed,
    /// A record whose byte string has so many bytes, all of them in the file.
    Open { size: u64 },
    /// Neither, so the file stands for no list of byte strings.
    Broken,
}

// The gate, and the length after it in the same read.
fn read_gate<H: Host>(host: &mut H, gate: u64) -> Result<Gate, Failed>
    requires gate { gate < 2 ^ 40 }
    ensures closed { IfOk result (λ found. found ≡ Gate.Closed → IsTrue (H.told host.old).tells → IsClosed (disk_now (H.told host.old)).now gate) }
    ensures broken { IfOk result (λ found. found ≡ Gate.Broken → IsTrue (H.told host.old).tells → IsStuck (disk_now (H.told host.old)).now gate) }
    ensures open { IfOk result (λ found. (size : ℕ) → found ≡ Gate.Open size → IsTrue (H.told host.old).tells → IsOpen (disk_now (H.told host.old)).now gate size) }
    ensures short { IfOk result (λ found. (size : ℕ) → found ≡ Gate.Open size → (size ≤ most_bytes) × (gate + 5 + size < 2 ^ 40)) }
    ensures cause { OnErr result (Rose (H.told host.old).disk_faults (H.told host.new).disk_faults) }
    ensures alone { RaisesDiskAlone (H.told host.old) (H.told host.new) }
    ensures course { GoesOn (H.told host.old) (H.told host.new) }
    ensures disk { KeepsDisk (H.told host.old) (H.told host.new) }
    ensures said { KeepsSaid (H.told host.old) (H.told host.new) }
    ensures input { KeepsInput (H.told host.old) (H.told host.new) }
{
    let length = host.len()?;
    if length <= gate {
        return Ok(Gate::Broken);
    }
    if length - gate < 5 {
        let mut mark = [0; 1];
        host.read_at(gate, &mut mark)?;
        return Ok(if mark[0] == OPEN_GATE {
            Gate::Broken
        } else {
            Gate::Closed
        });
    }
    let mut head = [0; 5];
    host.read_at(gate, &mut head)?;
    if head[0] != OPEN_GATE {
        return Ok(Gate::Closed);
    }
    let size = u64::from(number_in(&[head[1], head[2], head[3], head[4]]));
    if !has_room(length, gate, size) {
        return Ok(Gate::Broken);
    }
    Ok(Gate::Open { size })
}

impl Walk {
    /// Syncs. Then it writes the header and a closed gate where the file has at most 17 bytes, and else looks at
    /// the header. It never answers `Memory`.
    pub fn mount<H: Host>(host: &mut H) -> Result<Walk, JournalFault>
        ensures ok { IfOk result (λ walk. walk ≡ record { offset = first_gate; next = first_gate; ended = false }) }
        ensures walked { OnOk result (IsTrue (H.told host.old).tells → IsWalked (disk_now (H.told host.new)) [] first_gate) }
        ensures same { OnOk result (IsTrue (H.told host.old).tells → StandsForSame (disk_now (H.told host.old)).now (disk_now (H.told host.new)).now) }
        ensures any_moment { Throughout (H.told host.old) (H.told host.new)
            (λ disk _. (disk ≡ disk_now (H.told host.old)) ⊎ CrashLeaves (StandsForSame (disk_now (H.told host.old)).now) disk) }
        ensures file { OnOk result (IsTrue (H.told host.old).tells → MountedFrom (disk_now (H.told host.old)).now (disk_now (H.told host.new)).now) }
        ensures damaged { IfErr result (λ fault. IfDamaged fault (λ at. IsTrue (H.told host.old).tells → IsNoHeader (disk_now (H.told host.old)).now at)) }
        ensures nothing { IfErr result (λ fault. IfDamaged fault (λ _. IsTrue (H.told host.old).tells → StandsForNone (disk_now (H.told host.old)).now)) }
        ensures kept { IfErr result (λ fault. IfDamaged fault (λ _. Throughout (H.told host.old) (H.told host.new) (λ disk _. disk.now ≡ (disk_now (H.told host.old)).now))) }
        // A file of more than 17 bytes is at each moment as it was, or that synced, whatever the answer.
        ensures long { new_size < length (disk_now (H.told host.old)).now → Throughout (H.told host.old) (H.told host.new) (λ disk _. IsAtMostSynced (disk_now (H.told host.old)) disk) }
        ensures cause { IsErrOf result JournalFault.DiskFault → Rose (H.told host.old).disk_faults (H.told host.new).disk_faults }
        ensures memory { ¬ IsErrOf result JournalFault.Memory }
        ensures alone { RaisesDiskAlone (H.told host.old) (H.told host.new) }
        ensures course { GoesOn (H.told host.old) (H.told host.new) }
        ensures said { KeepsSaid (H.told host.old) (H.told host.new) }
        ensures input { KeepsInput (H.told host.old) (H.told host.new) }
    {
        host.sync()?;
        let length = host.len()?;
        if length <= NEW_SIZE {
            write_durably(host, 0, &NEW_FILE)?;
            return Ok(Walk::start());
        }
        let mut head = [0; 16];
        host.read_at(0, &mut head)?;
        match first_difference(&head) {
            Some(at) => Err(JournalFault::Damaged { at }),
            None => Ok(Walk::start()),
        }
    }

    fn start() -> Walk
        ensures { result ≡ record { offset = first_gate; next = first_gate; ended = false } }
    {
        Walk {
            offset: FIRST_GATE,
            next: FIRST_GATE,
            ended: false,
        }
    }

    /// The offset of the gate that was opened last.
    pub fn offset(&self) -> u64
        ensures { result ≡ self.now.offset }
    {
        self.offset
    }

    /// The next record's byte string, or `None` at the closed gate.
    pub fn next_bytes<H: Host>(
        &mut self,
        alloc: Global,
        host: &mut H,
    ) -> Result<Option<Vec<u8>>, JournalFault>
        requires walked { IsTrue (H.told host.old).tells → ((forms : List (List ℕ)) × IsWalked (disk_now (H.told host.old)) forms self.old.next) }
        ensures some { IfOk result (λ next. IfSome next (λ form. (self.new ≡ record { offset = self.old.next; next = self.old.next + 5 + length form.items; ended = self.old.ended }) × IsShort form.items)) }
        ensures none { IfOk result (λ next. IfNone next (self.new ≡ record self.old { ended = true })) }
        ensures err { OnErr result (self.new ≡ self.old) }
        ensures low { self.new.next < 2 ^ 40 }
        ensures walked { IfOk result (λ next. IfSome next (λ form. IsTrue (H.told host.old).tells → (forms : List (List ℕ)) → IsWalked (disk_now (H.told host.old)) forms self.old.next
            → IsWalked (disk_now (H.told host.new)) (forms ++ form.items ∷ []) self.new.next)) }
        ensures closed { IfOk result (λ next. IfNone next (IsTrue (H.told host.old).tells → IsClosed (disk_now (H.told host.old)).now self.old.next)) }
        ensures ended { IfOk result (λ next. IfNone next (IsTrue (H.told host.old).tells → (forms : List (List ℕ)) → IsWalked (disk_now (H.told host.old)) forms self.old.next
            → IsJournalAtRest (disk_now (H.told host.new)) forms self.new.next)) }
        ensures damaged { IfErr result (λ fault. IfDamaged fault (λ at. (at ≡ self.old.next) × (IsTrue (H.told host.old).tells → IsStuck (disk_now (H.told host.old)).now at))) }
        ensures nothing { IfErr result (λ fault. IfDamaged fault (λ _. IsTrue (H.told host.old).tells → StandsForNone (disk_now (H.told host.old)).now)) }
        ensures cause { IsErrOf result JournalFault.DiskFault → Rose (H.told host.old).disk_faults (H.told host.new).disk_faults }
        ensures alone { RaisesDiskAlone (H.told host.old) (H.told host.new) }
        ensures course { GoesOn (H.told host.old) (H.told host.new) }
        ensures disk { KeepsDisk (H.told host.old) (H.told host.new) }
        ensures said { KeepsSaid (H.told host.old) (H.told host.new) }
        ensures input { KeepsInput (H.told host.old) (H.told host.new) }
    {
        let gate = self.next;
        match read_gate(host, gate)? {
            Gate::Closed => {
                self.ended = true;
                Ok(None)
            }
            Gate::Broken => Err(JournalFault::Damaged { at: gate }),
            Gate::Open { size } => {
                let mut form = vec![in alloc; 0; size as usize]?;
                host.read_at(gate + 5, &mut form)?;
                self.offset = gate;
                self.next = gate + 5 + size;
                Ok(Some(form))
            }
        }
    }

    /// The journal, once its closed gate was found.
    pub fn finish(self) -> Journal
        requires { self.ended ≡ true }
        ensures { result ≡ record { end = self.next; broken = false } }
    {
        Journal::at(self.next)
    }
}
