//! What the system underneath is asked for. Each call is made once: it may do a part, and it may be interrupted.
ghost use Rattle.std.specs.Prelude.{◌≡◌, ◌⊎◌, ◌++◌, ℕ, ◌+◌, ◌^◌, ◌<◌, ◌≤◌, length, take, drop, IsTrue, IfOk, OnOk, OnErr, Err};
ghost use Rattle.host_port.specs.Host.{Told, Disk, MayLeave, disk_now, said_now, GoesOn, Throughout, KeepsDisk, KeepsSaid, KeepsInput, Moves, AddsPart, WrittenPart, synced};
ghost use Rattle.system_port.specs.Stays.{Stays};
ghost use Rattle.system_port.specs.Writes.{begun, under_way};

use crate::{Found, Name, Stop};
use std::fmt::Display;
use std::path::{Path, PathBuf};

/// The system: one file that is the store, an input, a console, and a place for complaints. It counts no faults: its three
/// counts are no more than that they never fall. What it is asked of the store's lock, name and folder changes nothing that
/// it reports.
pub trait System {
    /// An open handle of the store's file.
    type File: Drop;

    /// An open folder.
    type Folder: Drop;

    /// All that it reports.
    ghost told: { Self → Told };

    /// Opens the file that has the store's name, for reading and writing. One that is missing is made, and is empty.
    fn open(&mut self) -> Result<Self::File, Stop>
        ensures { Stays (told self.old) (told self.new) };

    /// Another handle of the open file, whose number is that of no standard stream, not even of a closed one.
    fn duplicate(&mut self, file: &Self::File) -> Result<Self::File, Stop>
        ensures { Stays (told self.old) (told self.new) };

    /// Takes the file's lock, which no other program has then. It is let go with the last handle of what was opened.
    fn lock(&mut self, file: &Self::File) -> Result<(), Stop>
        ensures { Stays (told self.old) (told self.new) };

    /// What there is to know of the open file.
    fn examine(&mut self, file: &Self::File) -> Result<Found, Stop>
        ensures stays { Stays (told self.old) (told self.new) }
        ensures length { IfOk result (λ found. IsTrue (told self.old).tells → found.len ≡ length (disk_now (told self.old)).now) };

    /// What there is to know of the file to which the name leads now.
    fn find(&mut self, name: Name) -> Result<Found, Stop>
        ensures { Stays (told self.old) (told self.new) };

    /// Whether the store's name is a link to another.
    fn is_link(&mut self) -> Result<bool, Stop>
        ensures { Stays (told self.old) (told self.new) };

    /// The whole name of the file to which the store's name leads, without a link in it.
    fn whole_name(&mut self) -> Result<PathBuf, Stop>
        ensures { Stays (told self.old) (told self.new) };

    /// Opens the folder of that name for reading.
    fn open_folder(&mut self, name: Path<'_>) -> Result<Self::Folder, Stop>
        ensures { Stays (told self.old) (told self.new) };

    /// After it succeeds, a crash leaves the names that the folder has.
    fn sync_folder(&mut self, folder: &Self::Folder) -> Result<(), Stop>
        ensures { Stays (told self.old) (told self.new) };

    /// Puts some of the file's bytes from the offset `at` on at the beginning of `into`, and answers how many.
    fn read_at(&mut self, file: &Self::File, at: u64, into: &mut [u8]) -> Result<usize, Stop>
        ensures stays { Stays (told self.old) (told self.new) }
        ensures bound { IfOk result (λ n. n ≤ length into.new) }
        ensures bytes { IfOk result (λ n. IsTrue (told self.old).tells → take n into.new ≡ take n (drop at (disk_now (told self.old)).now)) };

    /// Goes on with a request to write the bytes from the offset `at` on, of which `done` are written. It writes some of the
    /// others, and answers how many.
    fn write_at(
        &mut self,
        file: &Self::File,
        at: u64,
        bytes: &[u8],
        done: usize,
    ) -> Result<usize, Stop>
        requires done { done ≤ length bytes.now }
        requires offset { IsTrue (told self.old).tells → at ≤ length (disk_now (told self.old)).now }
        requires limit { at + length bytes.now ≤ 2 ^ 40 }
        ensures course { GoesOn (told self.old) (told self.new) }
        ensures said { KeepsSaid (told self.old) (told self.new) }
        ensures input { KeepsInput (told self.old) (told self.new) }
        ensures bound { IfOk result (λ n. done + n ≤ length bytes.now) }
        ensures part { (first : Disk) → disk_now (told self.old) ≡ under_way first at bytes.now done
            → Throughout (told self.old) (told self.new) (λ disk _. WrittenPart first (record { from = at; to = at + length bytes.now }) disk) }
        ensures some { IfOk result (λ n. IsTrue (told self.old).tells → (first : Disk) → disk_now (told self.old) ≡ under_way first at bytes.now done
            → disk_now (told self.new) ≡ begun first at bytes.now (done + n)) }
        ensures interrupted { result ≡ Err Stop.Interrupted → KeepsDisk (told self.old) (told self.new) };

    /// After it succeeds, a crash leaves what a read gives.
    fn sync(&mut self, file: &Self::File) -> Result<(), Stop>
        ensures course { GoesOn (told self.old) (told self.new) }
        ensures said { KeepsSaid (told self.old) (told self.new) }
        ensures input { KeepsInput (told self.old) (told self.new) }
        ensures before_or_after { Throughout (told self.old) (told self.new)
            (λ disk _. (disk ≡ disk_now (told self.old)) ⊎ (disk ≡ synced (disk_now (told self.old)))) }
        ensures stable { OnOk result (IsTrue (told self.old).tells → disk_now (told self.new) ≡ synced (disk_now (told self.old))) }
        ensures kept { OnErr result (KeepsDisk (told self.old) (told self.new)) };

    /// Puts bytes of the input at the beginning of `into`, and answers how many; 0 is the input's end.
    fn read(&mut self, into: &mut [u8]) -> Result<usize, Stop>
        requires { 0 < length into.old }
        ensures course { GoesOn (told self.old) (told self.new) }
        ensures disk { KeepsDisk (told self.old) (told self.new) }
        ensures said { KeepsSaid (told self.old) (told self.new) }
        ensures bound { IfOk result (λ n. n ≤ length into.new) }
        ensures moved { IfOk result (λ n. IsTrue (told self.old).tells → Moves (told self.old) (told self.new) (take n into.new)) }
        ensures interrupted { result ≡ Err Stop.Interrupted → KeepsInput (told self.old) (told self.new) };

    /// Prints some of the bytes, from the first on, and answers how many.
    fn print(&mut self, bytes: &[u8]) -> Result<usize, Stop>
        ensures course { GoesOn (told self.old) (told self.new) }
        ensures disk { KeepsDisk (told self.old) (told self.new) }
        ensures input { KeepsInput (told self.old) (told self.new) }
        ensures bound { IfOk result (λ n. n ≤ length bytes.now) }
        ensures part { Throughout (told self.old) (told self.new) (λ _ said. AddsPart (said_now (told self.old)) bytes.now said) }
        ensures some { IfOk result (λ n. IsTrue (told self.old).tells → said_now (told self.new) ≡ said_now (told self.old) ++ take n bytes.now) }
        ensures interrupted { result ≡ Err Stop.Interrupted → KeepsSaid (told self.old) (told self.new) };

    /// Writes a line where complaints go, with the program's name and why it ends so, or a part of it.
    fn complain<W: Display + Drop>(&mut self, program: &str, why: W)
        ensures { Stays (told self.old) (told self.new) };

    /// What a read gives is what a crash may leave.
    ghost now_is_left: { (system : Self) (t : ℕ) → IsTrue (told system).tells → t ≤ (told system).clock → MayLeave ((told system).disk t) ((told system).disk t).now };
}
