//! The calls of the system, each made once. Beside each stands the sentence of the manual page that it is trusted by.
use crate::answers::{JOURNAL, found, given, path_of};
use std::fmt::Display;
use std::fs::{File, OpenOptions};
use std::io::Read;
use std::os::unix::fs::FileExt;
use std::path::{Path, PathBuf};
use std::rt::Files;
use std::{fs, io};
use system_port::{Found, Name, Stop, System};

/// The file `emfstore.journal` in the working folder, and the standard streams.
#[derive(Drop)]
pub struct RealSystem<'a, R: Files<File = File> + Input + Print + Eprint + AllocGlobal> {
    rt: &'a R,
    reader: R::Reader,
}

impl<'a, R: Files<File = File> + Input + Print + Eprint + AllocGlobal> RealSystem<'a, R> {
    pub fn new(rt: &'a R) -> RealSystem<'a, R> {
        RealSystem {
            rt,
            reader: rt.reader(),
        }
    }
}

impl<R: Files<File = File> + Input + Print + Eprint + AllocGlobal> System for RealSystem<'_, R> {
    ghost use Rattle.host_port.specs.Talk.{nothing_told};
    ghost use Rattle.host_port.specs.Laws.{untold};

    type File = File;

    type Folder = File;

    ghost told = { λ s. nothing_told 0 0 0 };

    ghost now_is_left = { λ s t told low. untold ((nothing_told 0 0 0).disk t) told };

    /// open(2): "If the specified file does not exist, it may optionally (if O_CREAT is specified in flags) be created by open()."
    fn open(&mut self) -> Result<File, Stop> {
        let mut how = OpenOptions::new();
        how.read(true).write(true).create(true);
        given(how.open(self.rt, JOURNAL))
    }

    /// fcntl(2), F_DUPFD with 3: "Duplicate the file descriptor fd using the lowest-numbered available file descriptor greater
    /// than or equal to arg."
    fn duplicate(&mut self, file: &File) -> Result<File, Stop> {
        given(file.try_clone())
    }

    /// flock(2): "Only one process may hold an exclusive lock for a given file at a given time." It is let go "when all such
    /// file descriptors have been closed."
    fn lock(&mut self, file: &File) -> Result<(), Stop> {
        given(file.try_lock().map_err(io::Error::from))
    }

    /// statx(2): "If pathname is an empty string and the AT_EMPTY_PATH flag is specified in flags [..], then the target file is
    /// the one referred to by the file descriptor dirfd."
    fn examine(&mut self, file: &File) -> Result<Found, Stop> {
        Ok(found(&given(file.metadata())?))
    }

    /// statx(2), which follows links. proc(5), of the folder with a process's files: "there is one entry for each file which
    /// the process has open, named by its file descriptor, and which is a symbolic link to the actual file."
    fn find(&mut self, name: Name) -> Result<Found, Stop> {
        Ok(found(&given(fs::metadata(self.rt, path_of(name)))?))
    }

    /// statx(2), AT_SYMLINK_NOFOLLOW: "If pathname is a symbolic link, do not dereference it".
    fn is_link(&mut self) -> Result<bool, Stop> {
        Ok(given(fs::symlink_metadata(self.rt, JOURNAL))?.is_symlink())
    }

    /// realpath(3): it "expands all symbolic links [..] to produce a canonicalized absolute pathname."
    fn whole_name(&mut self) -> Result<PathBuf, Stop> {
        given(fs::canonicalize(self.rt, JOURNAL))
    }

    /// open(2), for reading alone.
    fn open_folder(&mut self, name: Path<'_>) -> Result<File, Stop> {
        given(File::open(self.rt, name))
    }

    /// fsync(2): "Calling fsync() does not necessarily ensure that the entry in the directory containing the file has also
    /// reached disk. For that an explicit fsync() on a file descriptor for the directory is also needed."
    fn sync_folder(&mut self, folder: &File) -> Result<(), Stop> {
        given(folder.sync_all())
    }

    /// pread(2): it "reads up to count bytes from file descriptor fd at offset offset (from the start of the file)", and
    /// "returns the number of bytes read (a return of zero indicates end of file)".
    fn read_at(&mut self, file: &File, at: u64, into: &mut [u8]) -> Result<usize, Stop> {
        given(file.read_at(into, at))
    }

    /// pwrite(2): it "writes up to count bytes from the buffer starting at buf to the file descriptor fd at offset offset", and
    /// "returns the number of bytes written."
    fn write_at(&mut self, file: &File, at: u64, bytes: &[u8], done: usize) -> Result<usize, Stop> {
        given(file.write_at(&bytes[done..], at + done as u64))
    }

    /// fdatasync(2): as fsync, "so that all changed information can be retrieved even if the system crashes or is rebooted",
    /// with what metadata "is needed in order to allow a subsequent data retrieval to be correctly handled."
    fn sync(&mut self, file: &File) -> Result<(), Stop> {
        given(file.sync_data())
    }

    /// read(2): "On success, the number of bytes read is returned (zero indicates end of file)". EINTR: "The call was
    /// interrupted by a signal before any data was read".
    fn read(&mut self, into: &mut [u8]) -> Result<usize, Stop> {
        given(self.reader.read(into))
    }

    /// write(2): "On success, the number of bytes written is returned." EINTR: "The call was interrupted by a signal before any
    /// data was written".
    fn print(&mut self, bytes: &[u8]) -> Result<usize, Stop> {
        given(self.rt.write_some(bytes))
    }

    /// write(2), to standard error.
    fn complain<W: Display + Drop>(&mut self, program: &str, why: W) {
        let _ = eprintln!(self.rt; "{program}: {why}");
    }
}
