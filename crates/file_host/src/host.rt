//! The host of a program over one file.
ghost use Rattle.std.specs.Prelude.{◌≡◌, ◌≤◌, Ok, IfOk, OnOk, OnErr};
ghost use Rattle.host_port.specs.Host.{Rose};
ghost use Rattle.std.specs.Process.{exit_status};
ghost use Rattle.system_port.specs.Stays.{Stays};
ghost use Rattle.file_host.specs.Counting.{counting};
ghost use Rattle.file_host.specs.Known.{IsKnown};
ghost use Rattle.std.proofs.Props.{props};

use crate::calls::{print_all, read_some};
use crate::known::Known;
use crate::opening::is_error_in_store;
use crate::store::{len_of_store, read_store, sync_store, write_store};
use host_port::{Failed, Host};
use std::alloc::Global;
use std::fmt::Display;
use std::process::ExitCode;
use system_port::System;

/// The least status that tells of a fault. Below it are that of a run without a refusal, and that of one with some.
const FIRST_FAULT: u8 = 2;

/// A store, an input and a console of a system. The first call that needs the store opens it, and it stays open for as long as
/// the host lives. It reports all that the system does, and its counts of faults.
#[derive(Drop)]
pub struct FileHost<S: System + Drop> {
    alloc: Global,
    system: S,
    file: Option<S::File>,
    known: Known,
    take_faults: u64,
    say_faults: u64,
    disk_faults: u64,
    ghost known_is: { IsKnown (S.told system) known } by { Prim.hlevel props },
}

/// Counts a call that failed.
fn counted<T>(given: Result<T, Failed>, faults: &mut u64) -> Result<T, Failed>
    ensures value { result ≡ given }
    ensures ok { OnOk result (faults.new ≡ faults.old) }
    ensures err { OnErr result (Rose faults.old faults.new) }
    ensures later { faults.old ≤ faults.new }
{
    if given.is_err() {
        *faults = faults.saturating_add(1);
    }
    given
}

impl<S: System + Drop> FileHost<S> {
    /// A host that has opened nothing yet. It has memory for what it reads ahead once it reads, and does without where there is
    /// none.
    pub fn new(alloc: Global, system: S) -> FileHost<S>
        ensures told { ⟦<FileHost<S> as Host>⟧.told result ≡ counting (S.told system) 0 0 0 }
    {
        FileHost {
            alloc,
            system,
            file: None,
            known: Known::nothing(alloc),
            take_faults: 0,
            say_faults: 0,
            disk_faults: 0,
        }
    }

    /// The system, with all that was done to it.
    pub fn into_system(self) -> S
        ensures { S.told result ≡ S.told self.system }
    {
        self.system
    }

    /// The exit status. Where it tells of a fault, a line of complaint has the program's name and why. No line is written where
    /// complaints go into the store.
    pub fn end<W: Display + Drop>(&mut self, program: &str, status: u8, why: W) -> ExitCode
        ensures status { exit_status result ≡ status }
        ensures stays { Stays (⟦<FileHost<S> as Host>⟧.told self.old) (⟦<FileHost<S> as Host>⟧.told self.new) }
    {
        if status >= FIRST_FAULT && !is_error_in_store(&mut self.system) {
            self.system.complain(program, why);
        }
        ExitCode::from(status)
    }
}

impl<S: System + Drop> Host for FileHost<S> {
    ghost use Rattle.std.specs.Prelude.{◌⊎◌, ◌++◌, ◌+◌, ◌^◌, ◌<◌, length, take, drop, IsTrue};
    ghost use Rattle.host_port.specs.Host.{disk_now, said_now, GoesOn, Throughout, KeepsDisk, KeepsSaid, KeepsInput, Moves, AddsPart, RaisesTakesAlone, RaisesSaysAlone, RaisesDiskAlone, WrittenPart, written, synced};

    ghost told = { λ host. counting (S.told host.system) host.take_faults host.say_faults host.disk_faults };

    ghost now_is_left = { λ host t told low. S.now_is_left host.system t told low };

    fn take(&mut self, into: &mut [u8]) -> Result<usize, Failed> {
        counted(read_some(&mut self.system, into), &mut self.take_faults)
    }

    fn say(&mut self, bytes: &[u8]) -> Result<(), Failed> {
        counted(print_all(&mut self.system, bytes), &mut self.say_faults)
    }

    fn len(&mut self) -> Result<u64, Failed> {
        counted(
            len_of_store(&mut self.system, &mut self.file, &mut self.known),
            &mut self.disk_faults,
        )
    }

    fn read_at(&mut self, at: u64, into: &mut [u8]) -> Result<(), Failed> {
        counted(
            read_store(
                self.alloc,
                &mut self.system,
                &mut self.file,
                &mut self.known,
                at,
                into,
            ),
            &mut self.disk_faults,
        )
    }

    fn write_at(&mut self, at: u64, bytes: &[u8]) -> Result<(), Failed> {
        counted(
            write_store(&mut self.system, &mut self.file, &mut self.known, at, bytes),
            &mut self.disk_faults,
        )
    }

    fn sync(&mut self) -> Result<(), Failed> {
        counted(
            sync_store(&mut self.system, &mut self.file, &mut self.known),
            &mut self.disk_faults,
        )
    }
}
