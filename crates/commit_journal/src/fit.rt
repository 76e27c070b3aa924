//! The numbers of a journal: where records stand in it, the limits of a record and of a journal. Before an append both
//! limits are tested.
ghost use Rattle.std.specs.Prelude.{◌≡◌, ◌+◌, ◌^◌, ◌<◌, ◌↔◌};
ghost use Rattle.commit_journal.specs.Journal.{RecordFits, fit_of, next_gate};

/// The offset of the first gate: after the header.
pub const FIRST_GATE: u64 = 16;

/// How many bytes a new file has: its header's, and a closed gate's.
pub(crate) const NEW_SIZE: u64 = 17;

/// The byte of a gate that a record stands behind; any other closes it.
pub(crate) const OPEN_GATE: u8 = 0xa5;

/// The most bytes of a record: its gate, its length and its byte string.
const RECORD_LIMIT: u64 = 1 << 24;

/// The most bytes of a byte string.
pub const MOST_BYTES: u64 = RECORD_LIMIT - 5;

/// The most bytes of a journal.
pub(crate) const JOURNAL_LIMIT: u64 = 1 << 40;

/// Whether a record of a byte string may be appended.
#[derive(Clone, Copy, Debug, PartialEq, Eq)]
pub enum Fit {
    Yes,
    /// The record would pass 2^24 bytes.
    TooLarge,
    /// The journal would pass 2^40 bytes.
    Full,
}

/// Whether a byte string of `n` bytes may be appended to a journal whose closed gate is at `end`.
pub fn fits(end: u64, n: u64) -> Fit
    ensures fit { result ≡ fit_of end n }
    ensures yes { (result ≡ Fit.Yes) ↔ RecordFits end n }
{
    if n > MOST_BYTES {
        return Fit::TooLarge;
    }
    if end > JOURNAL_LIMIT - 6 - n {
        return Fit::Full;
    }
    Fit::Yes
}

/// The offset of the gate after a record of a byte string of `n` bytes, whose own gate is at `gate`.
pub fn next_gate(gate: u64, n: u64) -> u64
    requires low { next_gate gate n < 2 ^ 40 }
    ensures offset { result ≡ next_gate gate n }
{
    gate + 5 + n
}
