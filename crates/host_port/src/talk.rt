//! A host whose input depends on what was printed.
ghost use Rattle.std.specs.Prelude.{◌≡◌, ◌⊎◌, ◌+◌, ◌-◌, ◌^◌, ◌<◌, ◌≤◌, ◌++◌, [], true, false, length, take, drop, map, min, IsTrue, IfOk, OnOk, OnErr};
ghost use Rattle.host_port.specs.Host.{Rose, overwritten};
ghost use Rattle.host_port.specs.Talk.{turn, taken_on, pieces_in, padded};

use crate::calls::{hand_over, overwrite, raise};
use crate::image::lengthen;
use crate::{Failed, Host};
use std::alloc::{AllocError, Global};
use std::vec::IntoIter;

/// A host for tests of a dialogue. It hands its input over piece by piece, the next one only once something was printed
/// since the last `take`. It reports nothing but its failures.
#[derive(Drop)]
pub struct TalkHost {
    alloc: Global,
    pieces: IntoIter<Vec<u8>>,
    piece: Vec<u8>,
    taken: usize,
    heard: bool,
    said: Vec<u8>,
    file: Vec<u8>,
    take_faults: u64,
    say_faults: u64,
    disk_faults: u64,
    ghost taken_fits: { taken ≤ length piece.items },
}

// Goes on to the next piece where one is due.
fn turn_over(pieces: &mut IntoIter<Vec<u8>>, piece: &mut Vec<u8>, taken: &mut usize, heard: bool)
    requires { taken.old ≤ length piece.old.items }
    ensures fits { taken.new ≤ length piece.new.items }
    ensures turned { turn (drop taken.old piece.old.items) (pieces_in pieces.old) heard
        ≡ record { part = drop taken.new piece.new.items; later = pieces_in pieces.new; heard = false } }
{
    if *taken < piece.len() {
        return;
    }
    if !heard {
        return;
    }
    match pieces.next() {
        Some(next) => {
            *piece = next;
            *taken = 0;
        }
        None => {}
    }
}

// Reads what the file has from an offset on, and zeros after its end.
fn read_over(file: &[u8], at: u64, into: &mut [u8])
    ensures { into.new ≡ take (length into.old) (drop at (padded file.now (at + length into.old))) }
{
    let rest = &file[(at as usize).min(file.len())..];
    let count = rest.len().min(into.len());
    into.fill(0);
    into[..count].copy_from_slice(&rest[..count]);
}

// The file with bytes over it from an offset on, lengthened with zeros where it ends before.
fn write_over(alloc: Global, file: &Vec<u8>, at: u64, bytes: &[u8]) -> Result<Vec<u8>, AllocError>
    ensures { IfOk result (λ v. v.items ≡ overwritten (padded file.now.items at) at bytes.now) }
{
    let long = lengthen(alloc, file, at, 0)?;
    overwrite(alloc, &long, at, bytes)
}

impl TalkHost {
    ghost use Rattle.host_port.specs.TalkHost.{talk_of, words_of, file_of};

    /// A host with these pieces of input and this file. The first piece is handed over before anything was printed.
    pub fn new(alloc: Global, pieces: Vec<Vec<u8>>, file: Vec<u8>) -> TalkHost
        ensures talk { talk_of result ≡ record { part = []; later = map (λ v. v.items) pieces.items; heard = true } }
        ensures words { words_of result ≡ [] }
        ensures file { file_of result ≡ file.items }
    {
        TalkHost {
            alloc,
            pieces: pieces.into_iter(),
            piece: Vec::new(alloc),
            taken: 0,
            heard: true,
            said: Vec::new(alloc),
            file,
            take_faults: 0,
            say_faults: 0,
            disk_faults: 0,
        }
    }

    /// The bytes printed so far.
    pub fn said(&self) -> &[u8]
        ensures said { result.now ≡ words_of self.now }
    {
        &self.said
    }
}

impl Host for TalkHost {
    ghost use Rattle.host_port.specs.Host.{disk_now, said_now, GoesOn, Throughout, KeepsDisk, KeepsSaid, KeepsInput, Moves, AddsPart, RaisesTakesAlone, RaisesSaysAlone, RaisesDiskAlone, WrittenPart, written, synced};
    ghost use Rattle.host_port.specs.TalkHost.{talk_told, talk_of, words_of, file_of, KeepsTalk};
    ghost use Rattle.host_port.specs.Laws.{untold};

    ghost told = { talk_told };

    ghost now_is_left = { λ host t told low. untold ((talk_told host).disk t) told };

    fn take(&mut self, into: &mut [u8]) -> Result<usize, Failed>
        requires { 0 < length into.old }
        ensures course { GoesOn (talk_told self.old) (talk_told self.new) }
        ensures disk { KeepsDisk (talk_told self.old) (talk_told self.new) }
        ensures said { KeepsSaid (talk_told self.old) (talk_told self.new) }
        ensures bound { IfOk result (λ n. n ≤ length into.new) }
        ensures moved { IfOk result (λ n. IsTrue (talk_told self.old).tells → Moves (talk_told self.old) (talk_told self.new) (take n into.new)) }
        ensures alone { RaisesTakesAlone (talk_told self.old) (talk_told self.new) }
        ensures cause { OnErr result (Rose (talk_told self.old).take_faults (talk_told self.new).take_faults) }
        ensures talk { IfOk result (λ n. talk_of self.new ≡ taken_on (turn (talk_of self.old).part (talk_of self.old).later (talk_of self.old).heard) n) }
        ensures bytes { IfOk result (λ n. take n into.new ≡ take n (turn (talk_of self.old).part (talk_of self.old).later (talk_of self.old).heard).part) }
        ensures count { IfOk result (λ n. n ≡ min (length into.old) (length (turn (talk_of self.old).part (talk_of self.old).later (talk_of self.old).heard).part)) }
        ensures succeeds { OnErr result ⊥ }
        ensures words { words_of self.new ≡ words_of self.old }
        ensures file { file_of self.new ≡ file_of self.old }
    {
        turn_over(
            &mut self.pieces,
            &mut self.piece,
            &mut self.taken,
            self.heard,
        );
        self.heard = false;
        let most = into.len();
        let count = hand_over(&self.piece[self.taken..], most, into);
        self.taken += count;
        Ok(count)
    }

    fn say(&mut self, bytes: &[u8]) -> Result<(), Failed>
        ensures course { GoesOn (talk_told self.old) (talk_told self.new) }
        ensures disk { KeepsDisk (talk_told self.old) (talk_told self.new) }
        ensures input { KeepsInput (talk_told self.old) (talk_told self.new) }
        ensures part { Throughout (talk_told self.old) (talk_told self.new) (λ _ said. AddsPart (said_now (talk_told self.old)) bytes.now said) }
        ensures whole { OnOk result (IsTrue (talk_told self.old).tells → said_now (talk_told self.new) ≡ said_now (talk_told self.old) ++ bytes.now) }
        ensures alone { RaisesSaysAlone (talk_told self.old) (talk_told self.new) }
        ensures cause { OnErr result (Rose (talk_told self.old).say_faults (talk_told self.new).say_faults) }
        ensures talk { OnOk result (talk_of self.new ≡ record (talk_of self.old) { heard = true }) }
        ensures words { OnOk result (words_of self.new ≡ words_of self.old ++ bytes.now) }
        ensures file { OnOk result (file_of self.new ≡ file_of self.old) }
        ensures failed { OnErr result (KeepsTalk self.old self.new) }
    {
        match self.said.extend_from_slice(bytes) {
            Ok(()) => {
                self.heard = true;
                Ok(())
            }
            Err(_) => {
                raise(&mut self.say_faults);
                Err(Failed)
            }
        }
    }

    fn len(&mut self) -> Result<u64, Failed>
        ensures course { GoesOn (talk_told self.old) (talk_told self.new) }
        ensures disk { KeepsDisk (talk_told self.old) (talk_told self.new) }
        ensures said { KeepsSaid (talk_told self.old) (talk_told self.new) }
        ensures input { KeepsInput (talk_told self.old) (talk_told self.new) }
        ensures length { IfOk result (λ n. IsTrue (talk_told self.old).tells → n ≡ length (disk_now (talk_told self.old)).now) }
        ensures alone { RaisesDiskAlone (talk_told self.old) (talk_told self.new) }
        ensures cause { OnErr result (Rose (talk_told self.old).disk_faults (talk_told self.new).disk_faults) }
        ensures value { IfOk result (λ n. n ≡ length (file_of self.old)) }
        ensures succeeds { OnErr result ⊥ }
        ensures kept { KeepsTalk self.old self.new }
    {
        Ok(self.file.len() as u64)
    }

    fn read_at(&mut self, at: u64, into: &mut [u8]) -> Result<(), Failed>
        requires { IsTrue (talk_told self.old).tells → at + length into.old ≤ length (disk_now (talk_told self.old)).now }
        ensures course { GoesOn (talk_told self.old) (talk_told self.new) }
        ensures disk { KeepsDisk (talk_told self.old) (talk_told self.new) }
        ensures said { KeepsSaid (talk_told self.old) (talk_told self.new) }
        ensures input { KeepsInput (talk_told self.old) (talk_told self.new) }
        ensures bytes { OnOk result (IsTrue (talk_told self.old).tells → into.new ≡ take (length into.old) (drop at (disk_now (talk_told self.old)).now)) }
        ensures alone { RaisesDiskAlone (talk_told self.old) (talk_told self.new) }
        ensures cause { OnErr result (Rose (talk_told self.old).disk_faults (talk_told self.new).disk_faults) }
        ensures value { OnOk result (into.new ≡ take (length into.old) (drop at (padded (file_of self.old) (at + length into.old)))) }
        ensures succeeds { OnErr result ⊥ }
        ensures kept { KeepsTalk self.old self.new }
    {
        read_over(&self.file, at, into);
        Ok(())
    }

    fn write_at(&mut self, at: u64, bytes: &[u8]) -> Result<(), Failed>
        requires offset { IsTrue (talk_told self.old).tells → at ≤ length (disk_now (talk_told self.old)).now }
        requires limit { at + length bytes.now ≤ 2 ^ 40 }
        ensures course { GoesOn (talk_told self.old) (talk_told self.new) }
        ensures said { KeepsSaid (talk_told self.old) (talk_told self.new) }
        ensures input { KeepsInput (talk_told self.old) (talk_told self.new) }
        ensures part { Throughout (talk_told self.old) (talk_told self.new)
            (λ disk _. WrittenPart (disk_now (talk_told self.old)) (record { from = at; to = at + length bytes.now }) disk) }
        ensures whole { OnOk result (IsTrue (talk_told self.old).tells → disk_now (talk_told self.new) ≡ written (disk_now (talk_told self.old)) at bytes.now) }
        ensures alone { RaisesDiskAlone (talk_told self.old) (talk_told self.new) }
        ensures cause { OnErr result (Rose (talk_told self.old).disk_faults (talk_told self.new).disk_faults) }
        ensures talk { OnOk result (talk_of self.new ≡ talk_of self.old) }
        ensures words { OnOk result (words_of self.new ≡ words_of self.old) }
        ensures file { OnOk result (file_of self.new ≡ overwritten (padded (file_of self.old) at) at bytes.now) }
        ensures failed { OnErr result (KeepsTalk self.old self.new) }
    {
        match write_over(self.alloc, &self.file, at, bytes) {
            Ok(file) => {
                self.file = file;
                Ok(())
            }
            Err(_) => {
                raise(&mut self.disk_faults);
                Err(Failed)
            }
        }
    }

    fn sync(&mut self) -> Result<(), Failed>
        ensures course { GoesOn (talk_told self.old) (talk_told self.new) }
        ensures said { KeepsSaid (talk_told self.old) (talk_told self.new) }
        ensures input { KeepsInput (talk_told self.old) (talk_told self.new) }
        ensures before_or_after { Throughout (talk_told self.old) (talk_told self.new)
            (λ disk _. (disk ≡ disk_now (talk_told self.old)) ⊎ (disk ≡ synced (disk_now (talk_told self.old)))) }
        ensures stable { OnOk result (IsTrue (talk_told self.old).tells → disk_now (talk_told self.new) ≡ synced (disk_now (talk_told self.old))) }
        ensures kept { OnErr result (KeepsDisk (talk_told self.old) (talk_told self.new)) }
        ensures alone { RaisesDiskAlone (talk_told self.old) (talk_told self.new) }
        ensures cause { OnErr result (Rose (talk_told self.old).disk_faults (talk_told self.new).disk_faults) }
        ensures done { OnOk result (KeepsTalk self.old self.new) }
        ensures succeeds { OnErr result ⊥ }
    {
        Ok(())
    }
}
