//! A host that stops answering after a number of calls.
ghost use Rattle.std.specs.Prelude.{◌≡◌, ◌⊎◌, ◌+◌, ◌^◌, ◌<◌, ◌≤◌, ◌++◌, length, take, drop, min, IsTrue, IfOk, OnOk, OnErr};
ghost use Rattle.host_port.specs.Host.{Rose};

use crate::calls::raise;
use crate::{Failed, Host, MemoryHost};

/// A host that passes a number of calls on to a host in memory and fails each later one, as a machine that crashed.
#[derive(Drop)]
pub struct FuseHost {
    inner: MemoryHost,
    calls: u64,
    take_faults: u64,
    say_faults: u64,
    disk_faults: u64,
}

impl FuseHost {
    ghost use Rattle.host_port.specs.Fuse.{inner_of, calls_left};

    /// Passes that many calls on, each of which fails exactly where the inner one does, and then fails each one.
    pub fn new(inner: MemoryHost, calls: u64) -> FuseHost
        ensures inner { inner_of result ≡ inner }
        ensures calls { calls_left result ≡ calls }
    {
        FuseHost {
            inner,
            calls,
            take_faults: 0,
            say_faults: 0,
            disk_faults: 0,
        }
    }

    /// The host in memory, as the calls that were passed on left it.
    pub fn into_inner(self) -> MemoryHost
        ensures inner { result ≡ inner_of self }
    {
        self.inner
    }
}

impl Host for FuseHost {
    ghost use Rattle.host_port.specs.Host.{disk_now, said_now, GoesOn, Throughout, KeepsDisk, KeepsSaid, KeepsInput, Moves, AddsPart, RaisesTakesAlone, RaisesSaysAlone, RaisesDiskAlone, WrittenPart, written, synced};
    ghost use Rattle.host_port.specs.Memory.{settings_of};
    ghost use Rattle.host_port.specs.Fuse.{inner_of, fuse_told, WasPassedDone, HasPassedFault};
    ghost use Rattle.host_port.specs.Laws.{left_now};

    ghost told = { fuse_told };

    ghost now_is_left = { λ host t told low. left_now host.inner.first.items host.inner.calls.items t };

    fn take(&mut self, into: &mut [u8]) -> Result<usize, Failed>
        requires { 0 < length into.old }
        ensures course { GoesOn (fuse_told self.old) (fuse_told self.new) }
        ensures disk { KeepsDisk (fuse_told self.old) (fuse_told self.new) }
        ensures said { KeepsSaid (fuse_told self.old) (fuse_told self.new) }
        ensures bound { IfOk result (λ n. n ≤ length into.new) }
        ensures moved { IfOk result (λ n. IsTrue (fuse_told self.old).tells → Moves (fuse_told self.old) (fuse_told self.new) (take n into.new)) }
        ensures alone { RaisesTakesAlone (fuse_told self.old) (fuse_told self.new) }
        ensures cause { OnErr result (Rose (fuse_told self.old).take_faults (fuse_told self.new).take_faults) }
        ensures count { IfOk result (λ n. n ≡ min (min (length into.old) (settings_of (inner_of self.old)).piece) (length (fuse_told self.old).left)) }
        ensures done { OnOk result (WasPassedDone self.old self.new) }
        ensures failed { OnErr result (HasPassedFault self.old self.new) }
    {
        if self.calls == 0 {
            raise(&mut self.take_faults);
            return Err(Failed);
        }
        self.calls -= 1;
        self.inner.take(into)
    }

    fn say(&mut self, bytes: &[u8]) -> Result<(), Failed>
        ensures course { GoesOn (fuse_told self.old) (fuse_told self.new) }
        ensures disk { KeepsDisk (fuse_told self.old) (fuse_told self.new) }
        ensures input { KeepsInput (fuse_told self.old) (fuse_told self.new) }
        ensures part { Throughout (fuse_told self.old) (fuse_told self.new) (λ _ said. AddsPart (said_now (fuse_told self.old)) bytes.now said) }
        ensures whole { OnOk result (IsTrue (fuse_told self.old).tells → said_now (fuse_told self.new) ≡ said_now (fuse_told self.old) ++ bytes.now) }
        ensures alone { RaisesSaysAlone (fuse_told self.old) (fuse_told self.new) }
        ensures cause { OnErr result (Rose (fuse_told self.old).say_faults (fuse_told self.new).say_faults) }
        ensures done { OnOk result (WasPassedDone self.old self.new) }
        ensures failed { OnErr result (HasPassedFault self.old self.new) }
    {
        if self.calls == 0 {
            raise(&mut self.say_faults);
            return Err(Failed);
        }
        self.calls -= 1;
        self.inner.say(bytes)
    }

    fn len(&mut self) -> Result<u64, Failed>
        ensures course { GoesOn (fuse_told self.old) (fuse_told self.new) }
        ensures disk { KeepsDisk (fuse_told self.old) (fuse_told self.new) }
        ensures said { KeepsSaid (fuse_told self.old) (fuse_told self.new) }
        ensures input { KeepsInput (fuse_told self.old) (fuse_told self.new) }
        ensures length { IfOk result (λ n. IsTrue (fuse_told self.old).tells → n ≡ length (disk_now (fuse_told self.old)).now) }
        ensures alone { RaisesDiskAlone (fuse_told self.old) (fuse_told self.new) }
        ensures cause { OnErr result (Rose (fuse_told self.old).disk_faults (fuse_told self.new).disk_faults) }
        ensures done { OnOk result (WasPassedDone self.old self.new) }
        ensures failed { OnErr result (HasPassedFault self.old self.new) }
    {
        if self.calls == 0 {
            raise(&mut self.disk_faults);
            return Err(Failed);
        }
        self.calls -= 1;
        self.inner.len()
    }

    fn read_at(&mut self, at: u64, into: &mut [u8]) -> Result<(), Failed>
        requires { IsTrue (fuse_told self.old).tells → at + length into.old ≤ length (disk_now (fuse_told self.old)).now }
        ensures course { GoesOn (fuse_told self.old) (fuse_told self.new) }
        ensures disk { KeepsDisk (fuse_told self.old) (fuse_told self.new) }
        ensures said { KeepsSaid (fuse_told self.old) (fuse_told self.new) }
        ensures input { KeepsInput (fuse_told self.old) (fuse_told self.new) }
        ensures bytes { OnOk result (IsTrue (fuse_told self.old).tells → into.new ≡ take (length into.old) (drop at (disk_now (fuse_told self.old)).now)) }
        ensures alone { RaisesDiskAlone (fuse_told self.old) (fuse_told self.new) }
        ensures cause { OnErr result (Rose (fuse_told self.old).disk_faults (fuse_told self.new).disk_faults) }
        ensures done { OnOk result (WasPassedDone self.old self.new) }
        ensures failed { OnErr result (HasPassedFault self.old self.new) }
    {
        if self.calls == 0 {
            raise(&mut self.disk_faults);
            return Err(Failed);
        }
        self.calls -= 1;
        self.inner.read_at(at, into)
    }

    fn write_at(&mut self, at: u64, bytes: &[u8]) -> Result<(), Failed>
        requires offset { IsTrue (fuse_told self.old).tells → at ≤ length (disk_now (fuse_told self.old)).now }
        requires limit { at + length bytes.now ≤ 2 ^ 40 }
        ensures course { GoesOn (fuse_told self.old) (fuse_told self.new) }
        ensures said { KeepsSaid (fuse_told self.old) (fuse_told self.new) }
        ensures input { KeepsInput (fuse_told self.old) (fuse_told self.new) }
        ensures part { Throughout (fuse_told self.old) (fuse_told self.new)
            (λ disk _. WrittenPart (disk_now (fuse_told self.old)) (record { from = at; to = at + length bytes.now }) disk) }
        ensures whole { OnOk result (IsTrue (fuse_told self.old).tells → disk_now (fuse_told self.new) ≡ written (disk_now (fuse_told self.old)) at bytes.now) }
        ensures alone { RaisesDiskAlone (fuse_told self.old) (fuse_told self.new) }
        ensures cause { OnErr result (Rose (fuse_told self.old).disk_faults (fuse_told self.new).disk_faults) }
        ensures done { OnOk result (WasPassedDone self.old self.new) }
        ensures failed { OnErr result (HasPassedFault self.old self.new) }
    {
        if self.calls == 0 {
            raise(&mut self.disk_faults);
            return Err(Failed);
        }
        self.calls -= 1;
        self.inner.write_at(at, bytes)
    }

    fn sync(&mut self) -> Result<(), Failed>
        ensures course { GoesOn (fuse_told self.old) (fuse_told self.new) }
        ensures said { KeepsSaid (fuse_told self.old) (fuse_told self.new) }
        ensures input { KeepsInput (fuse_told self.old) (fuse_told self.new) }
        ensures before_or_after { Throughout (fuse_told self.old) (fuse_told self.new)
            (λ disk _. (disk ≡ disk_now (fuse_told self.old)) ⊎ (disk ≡ synced (disk_now (fuse_told self.old)))) }
        ensures stable { OnOk result (IsTrue (fuse_told self.old).tells → disk_now (fuse_told self.new) ≡ synced (disk_now (fuse_told self.old))) }
        ensures kept { OnErr result (KeepsDisk (fuse_told self.old) (fuse_told self.new)) }
        ensures alone { RaisesDiskAlone (fuse_told self.old) (fuse_told self.new) }
        ensures cause { OnErr result (Rose (fuse_told self.old).disk_faults (fuse_told self.new).disk_faults) }
        ensures done { OnOk result (WasPassedDone self.old self.new) }
        ensures failed { OnErr result (HasPassedFault self.old self.new) }
    {
        if self.calls == 0 {
            raise(&mut self.disk_faults);
            return Err(Failed);
        }
        self.calls -= 1;
        self.inner.sync()
    }
}
