//! A system for tests, over a host.
ghost use Rattle.std.specs.Prelude.{◌≡◌};

use crate::{Found, Name, Stop, System};
use host_port::Host;
use std::fmt::Display;
use std::path::{Path, PathBuf};

/// A system that makes each call of a host, and interrupts each second one before it. It writes and prints all at once. Its
/// store is a regular file that no other program has, and the opening is interrupted at its beginning alone.
#[derive(Drop)]
pub struct HostSystem<H: Host + Drop> {
    host: H,
    interrupts: bool,
}

/// Whether this call may go on: each second one may.
fn turned(interrupts: &mut bool) -> Result<(), Stop> {
    *interrupts = !*interrupts;
    if *interrupts {
        Err(Stop::Interrupted)
    } else {
        Ok(())
    }
}

impl<H: Host + Drop> HostSystem<H> {
    /// A system over the host, whose first call is interrupted.
    pub fn new(host: H) -> HostSystem<H>
        ensures told { ⟦<HostSystem<H> as System>⟧.told result ≡ H.told host }
    {
        HostSystem {
            host,
            interrupts: false,
        }
    }
}

impl<H: Host + Drop> System for HostSystem<H> {
    type File = ();

    type Folder = ();

    ghost told = { λ s. H.told s.host };

    ghost now_is_left = { λ s t told low. H.now_is_left s.host t told low };

    fn open(&mut self) -> Result<(), Stop> {
        turned(&mut self.interrupts)
    }

    fn duplicate(&mut self, _file: &()) -> Result<(), Stop> {
        Ok(())
    }

    fn lock(&mut self, _file: &()) -> Result<(), Stop> {
        Ok(())
    }

    fn examine(&mut self, _file: &()) -> Result<Found, Stop> {
        match self.host.len() {
            Ok(len) => Ok(Found {
                is_regular: true,
                len,
                device: 0,
                node: 0,
            }),
            Err(_) => Err(Stop::Failed),
        }
    }

    fn find(&mut self, _name: Name) -> Result<Found, Stop> {
        Err(Stop::Lacking)
    }

    fn is_link(&mut self) -> Result<bool, Stop> {
        Ok(false)
    }

    fn whole_name(&mut self) -> Result<PathBuf, Stop> {
        Err(Stop::Lacking)
    }

    fn open_folder(&mut self, _name: Path<'_>) -> Result<(), Stop> {
        Ok(())
    }

    fn sync_folder(&mut self, _folder: &()) -> Result<(), Stop> {
        Ok(())
    }

    fn read_at(&mut self, _file: &(), at: u64, into: &mut [u8]) -> Result<usize, Stop> {
        turned(&mut self.interrupts)?;
        let Ok(len) = self.host.len() else {
            return Err(Stop::Failed);
        };
        let count = (len.saturating_sub(at) as usize).min(into.len());
        if count == 0 {
            return Ok(0);
        }
        match self.host.read_at(at, &mut into[..count]) {
            Ok(()) => Ok(count),
            Err(_) => Err(Stop::Failed),
        }
    }

    fn write_at(&mut self, _file: &(), at: u64, bytes: &[u8], done: usize) -> Result<usize, Stop> {
        turned(&mut self.interrupts)?;
        if done > 0 {
            return Ok(0);
        }
        match self.host.write_at(at, bytes) {
            Ok(()) => Ok(bytes.len()),
            Err(_) => Err(Stop::Failed),
        }
    }

    fn sync(&mut self, _file: &()) -> Result<(), Stop> {
        turned(&mut self.interrupts)?;
        match self.host.sync() {
            Ok(()) => Ok(()),
            Err(_) => Err(Stop::Failed),
        }
    }

    fn read(&mut self, into: &mut [u8]) -> Result<usize, Stop> {
        turned(&mut self.interrupts)?;
        match self.host.take(into) {
            Ok(count) => Ok(count),
            Err(_) => Err(Stop::Failed),
        }
    }

    fn print(&mut self, bytes: &[u8]) -> Result<usize, Stop> {
        turned(&mut self.interrupts)?;
        match self.host.say(bytes) {
            Ok(()) => Ok(bytes.len()),
            Err(_) => Err(Stop::Failed),
        }
    }

    fn complain<W: Display + Drop>(&mut self, _program: &str, _why: W) {}
}
