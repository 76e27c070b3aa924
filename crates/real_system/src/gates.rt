//! The gates of a journal's records, walked without its lock.
//!
//! A writer writes a record behind a closed gate and opens the gate after that. So what is read after a gate was seen open is the record as
//! it stays. Bytes are read in windows, each twice: the gates are looked at in the first reading, the sizes behind them in the second.
use std::alloc::Global;
use std::fs::File;
use std::io;
use std::io::ErrorKind;
use std::os::unix::fs::FileExt;

/// What a journal begins with.
const HEADER: [u8; 16] = *b"EMFSTORE\0\0\0\x01\0\0\0\0";

const FIRST_GATE: u64 = 16;

/// No gate is at this offset or behind it.
const LIMIT: u64 = 1_099_511_627_776;

/// How many bytes are read ahead.
const AHEAD: usize = 262_144;

/// How many bytes a gate and the size behind it have.
const HEAD: usize = 5;

const OPEN: u8 = 0xa5;

/// What stands at a gate.
enum Gate {
    Closed,
    /// A record whose byte string has so many bytes.
    Open { size: u32 },
    /// The file ends there.
    Missing,
}

/// Bytes of the file from an offset on, as they were at two readings one after the other.
#[derive(Drop)]
struct Window {
    from: u64,
    first: Vec<u8>,
    second: Vec<u8>,
}

/// Bytes of the file from the offset on, fewer than are read ahead where the file ends.
fn read_ahead(alloc: Global, file: &File, at: u64) -> io::Result<Vec<u8>> {
    let Ok(mut bytes) = vec![in alloc; 0; AHEAD] else {
        return Err(io::Error::from(ErrorKind::OutOfMemory));
    };
    let count = file.read_at(bytes.as_mut_slice(), at)?;
    bytes.truncate(count);
    Ok(bytes)
}

/// The size behind the gate at that place.
fn size_at(bytes: &[u8], place: usize) -> Option<u32> {
    if bytes.len() < HEAD || place > bytes.len() - HEAD {
        return None;
    }
    let size = [
        bytes[place + 1],
        bytes[place + 2],
        bytes[place + 3],
        bytes[place + 4],
    ];
    Some(u32::from_be_bytes(size))
}

impl Window {
    fn read(alloc: Global, file: &File, from: u64) -> io::Result<Window> {
        let first = read_ahead(alloc, file, from)?;
        let second = read_ahead(alloc, file, from)?;
        Ok(Window {
            from,
            first,
            second,
        })
    }

    /// Whether a gate at the offset and the size behind it are in the window.
    fn covers(&self, gate: u64) -> bool {
        gate >= self.from && size_at(&self.first, place_of(gate - self.from)).is_some()
    }

    /// What stands at the offset, which isn't before the window.
    fn gate(&self, gate: u64) -> Gate {
        let place = place_of(gate.saturating_sub(self.from));
        match self.first.get(place) {
            None => Gate::Missing,
            Some(mark) if *mark != OPEN => Gate::Closed,
            Some(_) => match size_at(&self.second, place) {
                None => Gate::Missing,
                Some(size) => Gate::Open { size },
            },
        }
    }
}

/// An offset in the window as a place there.
fn place_of(offset: u64) -> usize {
    usize::try_from(offset).unwrap_or(usize::MAX)
}

/// Whether the file begins as a journal does.
fn has_header(file: &File) -> io::Result<bool> {
    let mut head = [0; 16];
    file.read_exact_at(&mut head, 0)?;
    Ok(head == HEADER)
}

/// The offset of the first gate of the file that is closed. None where its records don't end at one.
pub(crate) fn end_of(alloc: Global, file: &File) -> io::Result<Option<u64>> {
    if !has_header(file)? {
        return Ok(None);
    }
    let mut window = Window::read(alloc, file, FIRST_GATE)?;
    let mut gate = FIRST_GATE;
    for _ in 0..u64::MAX {
        if gate >= LIMIT {
            return Ok(None);
        }
        if !window.covers(gate) {
            window = Window::read(alloc, file, gate)?;
        }
        match window.gate(gate) {
            Gate::Closed => return Ok(Some(gate)),
            Gate::Missing => return Ok(None),
            Gate::Open { size } => gate = gate.saturating_add(HEAD as u64 + u64::from(size)),
        }
    }
    Ok(None)
}
