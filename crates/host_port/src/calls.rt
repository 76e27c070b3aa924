//! The list of calls that a host in memory keeps, and what each of them does.
ghost use Rattle.std.specs.Prelude.{◌≡◌, ◌⊎◌, ◌+◌, ◌-◌, ◌^◌, ◌≤◌, ◌↔◌, ◌++◌, [], ◌∷◌, length, take, min, IsTrue, IfOk, OnOk, OnErr, Contains, Vec};
ghost use Rattle.std.specs.Bool.{OnTrue, OnFalse};
ghost use Rattle.host_port.specs.Host.{Rose, overwritten};
ghost use Rattle.host_port.specs.Replay.{shown, IsQuiet};

use std::alloc::{AllocError, Global};

/// A call as far as it changed something: one that failed, or that only reads, is quiet.
#[derive(Drop)]
pub enum Call {
    Quiet,
    Say(Vec<u8>),
    Write(u64, Vec<u8>),
    Sync,
}

// One more, up to the counter's last value.
pub(crate) fn raise(count: &mut u64)
    ensures raised { count.new ≡ min (count.old + 1) (2 ^ 64 - 1) }
    ensures rose { Rose count.old count.new × (count.old ≤ count.new) }
{
    *count = count.saturating_add(1);
}

// Gives the call its number, and says whether it is one of those that are to fail.
fn is_listed(fails: &[u64], made: &mut u64) -> bool
    ensures numbered { made.new ≡ min (made.old + 1) (2 ^ 64 - 1) }
    ensures listed { IsTrue result ↔ Contains fails.now made.old }
{
    let number = *made;
    raise(made);
    fails.contains(&number)
}

// Adds a call to the list, or finds no memory for it.
pub(crate) fn note(calls: &mut Vec<Call>, call: Call) -> bool
    ensures noted { OnTrue result (calls.new.items ≡ calls.old.items ++ call ∷ []) }
    ensures starved { OnFalse result (calls.new.items ≡ calls.old.items) }
{
    calls.push(call).is_ok()
}

// Adds a quiet call, or counts it among those that found no memory.
fn note_quiet(calls: &mut Vec<Call>, starved: &mut u64) -> bool
    ensures quiet { IsQuiet calls.old.items calls.new.items }
    ensures fed { OnTrue result (starved.new ≡ starved.old) }
    ensures starved { OnFalse result (Rose starved.old starved.new) }
{
    if !note(calls, Call::Quiet) {
        raise(starved);
        return false;
    }
    true
}

// Whether a call may go on. One that is to fail is noted and raises its count.
pub(crate) fn begins(
    fails: &[u64],
    made: &mut u64,
    calls: &mut Vec<Call>,
    starved: &mut u64,
    faults: &mut u64,
) -> bool
    ensures numbered { made.new ≡ min (made.old + 1) (2 ^ 64 - 1) }
    ensures allowed { OnTrue result (¬ Contains fails.now made.old) }
    ensures going_on { OnTrue result ((calls.new.items ≡ calls.old.items) × (starved.new ≡ starved.old) × (faults.new ≡ faults.old)) }
    ensures listed { OnFalse result (Contains fails.now made.old) }
    ensures refused { OnFalse result (IsQuiet calls.old.items calls.new.items) }
    ensures raised { OnFalse result (faults.new ≡ min (faults.old + 1) (2 ^ 64 - 1)) }
    ensures later { faults.old ≤ faults.new }
{
    if is_listed(fails, made) {
        let _ = note_quiet(calls, starved);
        raise(faults);
        return false;
    }
    true
}

// A call that found no memory raises both counts.
pub(crate) fn starve(starved: &mut u64, faults: &mut u64)
    ensures starved { Rose starved.old starved.new }
    ensures raised { faults.new ≡ min (faults.old + 1) (2 ^ 64 - 1) }
    ensures later { faults.old ≤ faults.new }
{
    raise(starved);
    raise(faults);
}

// Whether a call that changes nothing may go on: it is to, and was noted.
pub(crate) fn begins_quiet(
    fails: &[u64],
    made: &mut u64,
    calls: &mut Vec<Call>,
    starved: &mut u64,
    faults: &mut u64,
) -> bool
    ensures numbered { made.new ≡ min (made.old + 1) (2 ^ 64 - 1) }
    ensures quiet { IsQuiet calls.old.items calls.new.items }
    ensures allowed { OnTrue result (¬ Contains fails.now made.old) }
    ensures going_on { OnTrue result ((starved.new ≡ starved.old) × (faults.new ≡ faults.old)) }
    ensures cause { OnFalse result (Contains fails.now made.old ⊎ Rose starved.old starved.new) }
    ensures raised { OnFalse result (faults.new ≡ min (faults.old + 1) (2 ^ 64 - 1)) }
    ensures later { faults.old ≤ faults.new }
{
    if !begins(fails, made, calls, starved, faults) {
        return false;
    }
    if !note_quiet(calls, starved) {
        raise(faults);
        return false;
    }
    true
}

// The file now: that of the start until something was written.
pub(crate) fn shown_bytes<'a>(written: &'a Option<Vec<u8>>, first: &'a Vec<u8>) -> &'a [u8]
    ensures { result.now ≡ shown written.now first.now.items }
{
    match written {
        Some(file) => file,
        None => first,
    }
}

// The bytes with others over them from an offset on, or after them where they end before it.
pub(crate) fn overwrite(
    alloc: Global,
    file: &[u8],
    at: u64,
    bytes: &[u8],
) -> Result<Vec<u8>, AllocError>
    ensures { IfOk result (λ v. v.items ≡ overwritten file.now at bytes.now) }
{
    let at = (at as usize).min(file.len());
    let mut next = file[..at].to_vec(alloc)?;
    next.extend_from_slice(bytes)?;
    if bytes.len() < file.len() - at {
        next.extend_from_slice(&file[at + bytes.len()..])?;
    }
    Ok(next)
}

// Hands over as much of what is left as fits, up to a number of bytes.
pub(crate) fn hand_over(left: &[u8], most: usize, into: &mut [u8]) -> usize
    requires some { 1 ≤ most }
    requires room { 1 ≤ length into.old }
    ensures count { result ≡ min (min (length into.old) most) (length left.now) }
    ensures left { result ≤ length left.now }
    ensures into { result ≤ length into.new }
    ensures bytes { take result into.new ≡ take result left.now }
    ensures end { result ≡ 0 → length left.now ≡ 0 }
{
    let count = into.len().min(most).min(left.len());
    into[..count].copy_from_slice(&left[..count]);
    count
}

// Adds to what was printed, and notes the call.
pub(crate) fn try_say(
    alloc: Global,
    said: &mut Vec<u8>,
    calls: &mut Vec<Call>,
    bytes: &[u8],
) -> Result<(), AllocError>
    ensures said { OnOk result (said.new.items ≡ said.old.items ++ bytes.now) }
    ensures noted { OnOk result ((v : Vec _ _) × (v.items ≡ bytes.now) × (calls.new.items ≡ calls.old.items ++ Call.Say v ∷ [])) }
    ensures said_err { OnErr result (said.new.items ≡ said.old.items) }
    ensures calls_err { OnErr result (calls.new.items ≡ calls.old.items) }
{
    let copy = bytes.to_vec(alloc)?;
    let before = said.len();
    said.extend_from_slice(bytes)?;
    if !note(calls, Call::Say(copy)) {
        said.truncate(before);
        return Err(AllocError);
    }
    Ok(())
}

// Writes into the file, and notes the call.
pub(crate) fn try_write(
    alloc: Global,
    first: &Vec<u8>,
    written: &mut Option<Vec<u8>>,
    calls: &mut Vec<Call>,
    at: u64,
    bytes: &[u8],
) -> Result<(), AllocError>
    ensures written { OnOk result (shown written.new first.now.items ≡ overwritten (shown written.old first.now.items) at bytes.now) }
    ensures noted { OnOk result ((v : Vec _ _) × (v.items ≡ bytes.now) × (calls.new.items ≡ calls.old.items ++ Call.Write at v ∷ [])) }
    ensures written_err { OnErr result (shown written.new first.now.items ≡ shown written.old first.now.items) }
    ensures calls_err { OnErr result (calls.new.items ≡ calls.old.items) }
{
    let copy = bytes.to_vec(alloc)?;
    let next = overwrite(alloc, shown_bytes(written, first), at, bytes)?;
    if !note(calls, Call::Write(at, copy)) {
        return Err(AllocError);
    }
    *written = Some(next);
    Ok(())
}
