//! The store beside whoever writes it: opened to be read alone, and seen up to the gate that was closed when it was opened.
ghost use Rattle.std.specs.Prelude.{◌≤◌, IfOk, length};

use crate::answers::{JOURNAL, found, given};
use crate::gates::end_of;
use crate::system::RealSystem;
use std::fmt::Display;
use std::fs::File;
use std::io::ErrorKind;
use std::os::unix::fs::FileExt;
use std::path::{Path, PathBuf};
use std::rt::Files;
use std::{fs, io};
use system_port::{Found, Name, Stop, System};

/// A store without a record: the header of a journal, and a closed gate.
const NEW_STORE: [u8; 17] = *b"EMFSTORE\0\0\0\x01\0\0\0\0\0";

/// What is seen of the store. None of it changes while others write.
#[derive(Drop)]
pub enum Seen {
    /// There is no file.
    Missing,
    /// A file without a record.
    Empty(File),
    /// The records before the gate at `end`, and that gate as a closed one.
    Prefix { file: File, end: u64 },
    /// All of a file whose records don't end at a closed gate, so it is damaged.
    Whole(File),
}

/// The system of a program that reads the store beside whoever writes it. It opens the file to read alone. It takes no lock, makes no file,
/// writes nothing and syncs nothing.
#[derive(Drop)]
pub struct BesideSystem<'a, R: Files<File = File> + Input + Print + Eprint + AllocGlobal> {
    rt: &'a R,
    real: RealSystem<'a, R>,
}

impl<'a, R: Files<File = File> + Input + Print + Eprint + AllocGlobal> BesideSystem<'a, R> {
    pub fn new(rt: &'a R) -> BesideSystem<'a, R> {
        BesideSystem {
            rt,
            real: RealSystem::new(rt),
        }
    }
}

/// The file, opened to read alone; none where there is none. Only a regular file is opened, as the opening of another may wait.
fn open_file<R: Files<File = File>>(rt: &R) -> io::Result<Option<File>> {
    match fs::metadata(rt, JOURNAL) {
        Ok(found) if found.is_file() => Ok(Some(File::open(rt, JOURNAL)?)),
        Ok(_) => Err(io::Error::from(ErrorKind::InvalidInput)),
        Err(error) if error.kind() == ErrorKind::NotFound => Ok(None),
        Err(error) => Err(error),
    }
}

/// What is seen of an open file.
fn seen_of<R: Files<File = File> + AllocGlobal>(rt: &R, file: File) -> io::Result<Seen> {
    if file.metadata()?.len() <= NEW_STORE.len() as u64 {
        return Ok(Seen::Empty(file));
    }
    match end_of(rt.alloc(), &file)? {
        Some(end) if end < NEW_STORE.len() as u64 => Ok(Seen::Empty(file)),
        Some(end) => Ok(Seen::Prefix { file, end }),
        None => Ok(Seen::Whole(file)),
    }
}

/// What is seen of the store now.
fn open_seen<R: Files<File = File> + AllocGlobal>(rt: &R) -> io::Result<Seen> {
    match open_file(rt)? {
        None => Ok(Seen::Missing),
        Some(file) => seen_of(rt, file),
    }
}

/// One byte of a store without a record.
fn read_new(at: u64, into: &mut [u8]) -> usize
    ensures { result ≤ length into.new }
{
    if into.is_empty() || at >= NEW_STORE.len() as u64 {
        return 0;
    }
    into[0] = NEW_STORE[at as usize];
    1
}

/// Some bytes of the records before `end`, or the closed gate there.
fn read_prefix(file: &File, end: u64, at: u64, into: &mut [u8]) -> io::Result<usize>
    ensures { IfOk result (λ n. n ≤ length into.new) }
{
    if into.is_empty() || at > end {
        return Ok(0);
    }
    if at == end {
        into[0] = 0;
        return Ok(1);
    }
    let left = end - at;
    if into.len() as u64 <= left {
        return file.read_at(into, at);
    }
    file.read_at(&mut into[..left as usize], at)
}

/// What the system tells of the file, but for its length.
fn found_of(file: &File, len: u64) -> io::Result<Found> {
    let mut told = found(&file.metadata()?);
    told.len = len;
    Ok(told)
}

impl Seen {
    fn duplicate(&self) -> io::Result<Seen> {
        match self {
            Seen::Missing => Ok(Seen::Missing),
            Seen::Empty(file) => Ok(Seen::Empty(file.try_clone()?)),
            Seen::Prefix { file, end } => Ok(Seen::Prefix {
                file: file.try_clone()?,
                end: *end,
            }),
            Seen::Whole(file) => Ok(Seen::Whole(file.try_clone()?)),
        }
    }

    fn examine(&self) -> io::Result<Found> {
        match self {
            Seen::Missing => Ok(Found {
                is_regular: true,
                len: NEW_STORE.len() as u64,
                device: 0,
                node: 0,
            }),
            Seen::Empty(file) => found_of(file, NEW_STORE.len() as u64),
            Seen::Prefix { file, end } => found_of(file, end.saturating_add(1)),
            Seen::Whole(file) => Ok(found(&file.metadata()?)),
        }
    }

    fn read_at(&self, at: u64, into: &mut [u8]) -> io::Result<usize>
        ensures { IfOk result (λ n. n ≤ length into.new) }
    {
        match self {
            Seen::Missing | Seen::Empty(_) => Ok(read_new(at, into)),
            Seen::Prefix { file, end } => read_prefix(file, *end, at, into),
            Seen::Whole(file) => file.read_at(into, at),
        }
    }

    fn is_new(&self) -> bool {
        match self {
            Seen::Missing | Seen::Empty(_) => true,
            Seen::Prefix { .. } | Seen::Whole(_) => false,
        }
    }
}

impl<R: Files<File = File> + Input + Print + Eprint + AllocGlobal> System for BesideSystem<'_, R> {
    ghost use Rattle.host_port.specs.Talk.{nothing_told};
    ghost use Rattle.host_port.specs.Laws.{untold};

    type File = Seen;

    type Folder = File;

    ghost told = { λ s. nothing_told 0 0 0 };

    ghost now_is_left = { λ s t told low. untold ((nothing_told 0 0 0).disk t) told };

    fn open(&mut self) -> Result<Seen, Stop> {
        given(open_seen(self.rt))
    }

    fn duplicate(&mut self, file: &Seen) -> Result<Seen, Stop> {
        given(file.duplicate())
    }

    fn lock(&mut self, _file: &Seen) -> Result<(), Stop> {
        Ok(())
    }

    fn examine(&mut self, file: &Seen) -> Result<Found, Stop> {
        given(file.examine())
    }

    fn find(&mut self, name: Name) -> Result<Found, Stop> {
        self.real.find(name)
    }

    fn is_link(&mut self) -> Result<bool, Stop> {
        self.real.is_link()
    }

    fn whole_name(&mut self) -> Result<PathBuf, Stop> {
        self.real.whole_name()
    }

    fn open_folder(&mut self, name: Path<'_>) -> Result<File, Stop> {
        self.real.open_folder(name)
    }

    fn sync_folder(&mut self, _folder: &File) -> Result<(), Stop> {
        Ok(())
    }

    fn read_at(&mut self, file: &Seen, at: u64, into: &mut [u8]) -> Result<usize, Stop> {
        given(file.read_at(at, into))
    }

    /// Writes nothing. It succeeds where the bytes stand there already: those of a store without a record.
    fn write_at(&mut self, file: &Seen, at: u64, bytes: &[u8], done: usize) -> Result<usize, Stop> {
        if file.is_new() && at == 0 && bytes == NEW_STORE.as_slice() {
            return Ok(bytes.len() - done);
        }
        Err(Stop::Failed)
    }

    fn sync(&mut self, _file: &Seen) -> Result<(), Stop> {
        Ok(())
    }

    fn read(&mut self, into: &mut [u8]) -> Result<usize, Stop> {
        self.real.read(into)
    }

    fn print(&mut self, bytes: &[u8]) -> Result<usize, Stop> {
        self.real.print(bytes)
    }

    fn complain<W: Display + Drop>(&mut self, program: &str, why: W) {
        self.real.complain(program, why)
    }
}
