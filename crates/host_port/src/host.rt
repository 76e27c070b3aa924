//! One object holds the store and the console, so that one clock orders what is written and what is printed.
ghost use Rattle.std.specs.Prelude.{◌≡◌, ◌⊎◌, ◌++◌, ℕ, ◌+◌, ◌^◌, ◌<◌, ◌≤◌, length, take, drop, IsTrue, IfOk, OnOk, OnErr};
ghost use Rattle.host_port.specs.Host.{Told, MayLeave, disk_now, said_now, Rose, GoesOn, Throughout, KeepsDisk, KeepsSaid, KeepsInput, Moves, AddsPart, RaisesTakesAlone, RaisesSaysAlone, RaisesDiskAlone, WrittenPart, written, synced};

use thiserror::Error;

/// A call of a host failed. Its count of faults says which kind of call.
#[derive(Clone, Copy, Debug, PartialEq, Eq, Error)]
#[error("a call of the host failed")]
pub struct Failed;

/// The outside of the program: an input, a console and one file. A call that fails has raised the count of faults of
/// its kind, or that stands at its greatest number. No clause says that other calls leave it. The kinds are that of
/// `take`, that of `say`, and that of the four calls on the file.
pub trait Host {
    /// All that it reports: what the file may be found to hold at each moment, what was printed by then, and the input.
    ghost told: { Self → Told };

    /// Puts bytes of the input at the beginning of `into`, and answers how many; 0 is the input's end.
    fn take(&mut self, into: &mut [u8]) -> Result<usize, Failed>
        requires { 0 < length into.old }
        ensures course { GoesOn (told self.old) (told self.new) }
        ensures disk { KeepsDisk (told self.old) (told self.new) }
        ensures said { KeepsSaid (told self.old) (told self.new) }
        ensures bound { IfOk result (λ n. n ≤ length into.new) }
        ensures moved { IfOk result (λ n. IsTrue (told self.old).tells → Moves (told self.old) (told self.new) (take n into.new)) }
        ensures alone { RaisesTakesAlone (told self.old) (told self.new) }
        ensures cause { OnErr result (Rose (told self.old).take_faults (told self.new).take_faults) };

    /// Prints all the bytes, or fails.
    fn say(&mut self, bytes: &[u8]) -> Result<(), Failed>
        ensures course { GoesOn (told self.old) (told self.new) }
        ensures disk { KeepsDisk (told self.old) (told self.new) }
        ensures input { KeepsInput (told self.old) (told self.new) }
        ensures part { Throughout (told self.old) (told self.new) (λ _ said. AddsPart (said_now (told self.old)) bytes.now said) }
        ensures whole { OnOk result (IsTrue (told self.old).tells → said_now (told self.new) ≡ said_now (told self.old) ++ bytes.now) }
        ensures alone { RaisesSaysAlone (told self.old) (told self.new) }
        ensures cause { OnErr result (Rose (told self.old).say_faults (told self.new).say_faults) };

    /// The file's length in bytes.
    fn len(&mut self) -> Result<u64, Failed>
        ensures course { GoesOn (told self.old) (told self.new) }
        ensures disk { KeepsDisk (told self.old) (told self.new) }
        ensures said { KeepsSaid (told self.old) (told self.new) }
        ensures input { KeepsInput (told self.old) (told self.new) }
        ensures length { IfOk result (λ n. IsTrue (told self.old).tells → n ≡ length (disk_now (told self.old)).now) }
        ensures alone { RaisesDiskAlone (told self.old) (told self.new) }
        ensures cause { OnErr result (Rose (told self.old).disk_faults (told self.new).disk_faults) };

    /// Fills `into` with the file's bytes from the offset `at` on.
    fn read_at(&mut self, at: u64, into: &mut [u8]) -> Result<(), Failed>
        requires { IsTrue (told self.old).tells → at + length into.old ≤ length (disk_now (told self.old)).now }
        ensures course { GoesOn (told self.old) (told self.new) }
        ensures disk { KeepsDisk (told self.old) (told self.new) }
        ensures said { KeepsSaid (told self.old) (told self.new) }
        ensures input { KeepsInput (told self.old) (told self.new) }
        ensures bytes { OnOk result (IsTrue (told self.old).tells → into.new ≡ take (length into.old) (drop at (disk_now (told self.old)).now)) }
        ensures alone { RaisesDiskAlone (told self.old) (told self.new) }
        ensures cause { OnErr result (Rose (told self.old).disk_faults (told self.new).disk_faults) };

    /// Writes the bytes from the offset `at` on, over what is there and past the end. Until a sync succeeds, a crash may
    /// leave any bytes in the range.
    fn write_at(&mut self, at: u64, bytes: &[u8]) -> Result<(), Failed>
        requires offset { IsTrue (told self.old).tells → at ≤ length (disk_now (told self.old)).now }
        requires limit { at + length bytes.now ≤ 2 ^ 40 }
        ensures course { GoesOn (told self.old) (told self.new) }
        ensures said { KeepsSaid (told self.old) (told self.new) }
        ensures input { KeepsInput (told self.old) (told self.new) }
        ensures part { Throughout (told self.old) (told self.new)
            (λ disk _. WrittenPart (disk_now (told self.old)) (record { from = at; to = at + length bytes.now }) disk) }
        ensures whole { OnOk result (IsTrue (told self.old).tells → disk_now (told self.new) ≡ written (disk_now (told self.old)) at bytes.now) }
        ensures alone { RaisesDiskAlone (told self.old) (told self.new) }
        ensures cause { OnErr result (Rose (told self.old).disk_faults (told self.new).disk_faults) };

    /// After it succeeds, a crash leaves what a read gives.
    fn sync(&mut self) -> Result<(), Failed>
        ensures course { GoesOn (told self.old) (told self.new) }
        ensures said { KeepsSaid (told self.old) (told self.new) }
        ensures input { KeepsInput (told self.old) (told self.new) }
        ensures before_or_after { Throughout (told self.old) (told self.new)
            (λ disk _. (disk ≡ disk_now (told self.old)) ⊎ (disk ≡ synced (disk_now (told self.old)))) }
        ensures stable { OnOk result (IsTrue (told self.old).tells → disk_now (told self.new) ≡ synced (disk_now (told self.old))) }
        ensures kept { OnErr result (KeepsDisk (told self.old) (told self.new)) }
        ensures alone { RaisesDiskAlone (told self.old) (told self.new) }
        ensures cause { OnErr result (Rose (told self.old).disk_faults (told self.new).disk_faults) };

    /// What a read gives is what a crash may leave.
    ghost now_is_left: { (host : Self) (t : ℕ) → IsTrue (told host).tells → t ≤ (told host).clock → MayLeave ((told host).disk t) ((told host).disk t).now };
}
