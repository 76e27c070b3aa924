//! The opening of the store: what must hold before its file is read or written.
ghost use Rattle.std.specs.Prelude.{◌≡◌, ◌≢◌, length, IsTrue, IfOk, Ok, Err};
ghost use Rattle.host_port.specs.Host.{disk_now};
ghost use Rattle.system_port.specs.Stays.{Stays};

use std::path::Path;
use system_port::{Found, Name, Stop, System};

const FOLDER: &str = ".";

const ROOT: &str = "/";

/// Nothing is wrong where the system only says that it has no such call.
fn unless_lacking(answer: Result<(), Stop>) -> Result<(), Stop>
    ensures lacking { answer ≡ Err Stop.Lacking → result ≡ Ok tt }
    ensures other { answer ≢ Err Stop.Lacking → result ≡ answer }
{
    match answer {
        Err(Stop::Lacking) => Ok(()),
        _ => answer,
    }
}

/// The file that has the store's name. What is opened gets the least number that is free, and that of a standard stream
/// where one is closed. A second handle of what was opened never does.
fn open_file<S: System>(system: &mut S) -> Result<S::File, Stop>
    ensures { Stays (S.told system.old) (S.told system.new) }
{
    let file = system.open()?;
    system.duplicate(&file)
}

/// Takes the file's lock, or fails where another program has it. A file system that knows no locks gives none, and is used
/// without.
fn lock<S: System>(system: &mut S, file: &S::File) -> Result<(), Stop>
    ensures { Stays (S.told system.old) (S.told system.new) }
{
    unless_lacking(system.lock(file))
}

/// Whether the name leads to the file. One of which the system tells nothing is taken for another file.
fn leads_to<S: System>(system: &mut S, name: Name, file: &Found) -> Result<bool, Stop>
    ensures { Stays (S.told system.old) (S.told system.new) }
{
    match system.find(name) {
        Ok(found) => Ok(found.is_same(file)),
        Err(Stop::Interrupted) => Err(Stop::Interrupted),
        Err(_) => Ok(false),
    }
}

/// Whether the file is open as a standard stream, whatever its name was then.
fn is_stream<S: System>(system: &mut S, file: &Found) -> Result<bool, Stop>
    ensures { Stays (S.told system.old) (S.told system.new) }
{
    Ok(
        leads_to(system, Name::Input, file)?
            || leads_to(system, Name::Output, file)?
            || leads_to(system, Name::Error, file)?,
    )
}

/// The folder that has the file's name. A link may lead to a file in another folder.
fn open_folder<S: System>(system: &mut S) -> Result<S::Folder, Stop>
    ensures { Stays (S.told system.old) (S.told system.new) }
{
    if !system.is_link()? {
        return system.open_folder(Path::new(FOLDER));
    }
    let name = system.whole_name()?;
    system.open_folder(name.parent().unwrap_or(Path::new(ROOT)))
}

/// Makes sure that the folder keeps the name of a new file. A folder that may not be read, or whose system has no such
/// sync, is left as it is.
fn keep_name<S: System>(system: &mut S) -> Result<(), Stop>
    ensures { Stays (S.told system.old) (S.told system.new) }
{
    match open_folder(system) {
        Ok(folder) => unless_lacking(system.sync_folder(&folder)),
        Err(Stop::Denied) => Ok(()),
        Err(stop) => Err(stop),
    }
}

/// The file under its lock, and its length. Only then is it looked at: this fails, and lets the file and the lock go, where it
/// is no regular file, or is open as a standard stream too. The folder of an empty file keeps its name from then on.
pub(crate) fn open_store<S: System>(system: &mut S) -> Result<(S::File, u64), Stop>
    ensures stays { Stays (S.told system.old) (S.told system.new) }
    ensures length { IfOk result (λ opened. IsTrue (S.told system.old).tells → opened.1 ≡ length (disk_now (S.told system.old)).now) }
{
    let file = open_file(system)?;
    lock(system, &file)?;
    let found = system.examine(&file)?;
    if !found.is_regular || is_stream(system, &found)? {
        return Err(Stop::Failed);
    }
    if found.len == 0 {
        keep_name(system)?;
    }
    Ok((file, found.len))
}

/// Whether standard error is the file that has the store's name, as far as the system tells. A line of complaint would take
/// the place of the store's first bytes.
pub(crate) fn is_error_in_store<S: System>(system: &mut S) -> bool
    ensures { Stays (S.told system.old) (S.told system.new) }
{
    match system.find(Name::Store) {
        Ok(store) => leads_to(system, Name::Error, &store).unwrap_or(true),
        Err(_) => false,
    }
}
