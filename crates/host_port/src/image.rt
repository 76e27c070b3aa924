//! The file after a crash, from the list of calls.
ghost use Rattle.std.specs.Prelude.{◌≡◌, ◌-◌, ◌++◌, length, replicate, IfOk, OnOk};
ghost use Rattle.host_port.specs.Host.{Disk, MayLeave};
ghost use Rattle.host_port.specs.Image.{IsFilled, IsShownAs};
ghost use Rattle.host_port.specs.Replay.{at_start, after_call, after_calls, smeared};

use crate::calls::{Call, overwrite};
use std::alloc::{AllocError, Global};

// The bytes, lengthened to an offset with one byte.
pub(crate) fn lengthen(
    alloc: Global,
    bytes: &Vec<u8>,
    to: u64,
    fill: u8,
) -> Result<Vec<u8>, AllocError>
    ensures { IfOk result (λ v. v.items ≡ bytes.now.items ++ replicate (to - length bytes.now.items) fill) }
{
    let gap = (to as usize).saturating_sub(bytes.len());
    let mut long = bytes.to_vec(alloc)?;
    long.extend_from_slice(&vec![in alloc; fill; gap]?)?;
    Ok(long)
}

// The bytes with one byte in a range, and at the offsets up to it that there weren't.
fn smear(
    alloc: Global,
    image: &Vec<u8>,
    at: u64,
    count: usize,
    fill: u8,
) -> Result<Vec<u8>, AllocError>
    ensures { IfOk result (λ v. v.items ≡ smeared image.now.items at count fill) }
{
    let long = lengthen(alloc, image, at, fill)?;
    overwrite(alloc, &long, at, &vec![in alloc; fill; count]?)
}

// Takes one call further what a read gives and what a crash leaves.
fn follow(
    alloc: Global,
    call: &Call,
    fill: u8,
    now: &mut Vec<u8>,
    image: &mut Vec<u8>,
) -> Result<(), AllocError>
    ensures { OnOk result ((disk : Disk) → IsShownAs disk fill now.old.items image.old.items
        → IsShownAs (after_call disk call.now) fill now.new.items image.new.items) }
{
    match call {
        Call::Quiet | Call::Say(_) => Ok(()),
        Call::Write(at, bytes) => {
            *image = smear(alloc, image, *at, bytes.len(), fill)?;
            *now = overwrite(alloc, now, *at, bytes)?;
            Ok(())
        }
        Call::Sync => {
            *image = now.to_vec(alloc)?;
            Ok(())
        }
    }
}

// The file of the greatest length that a crash may leave after these calls, with one byte wherever it may hold any.
pub(crate) fn image_after(
    alloc: Global,
    first: &Vec<u8>,
    calls: &Vec<Call>,
    fill: u8,
) -> Result<Vec<u8>, AllocError>
    ensures left { IfOk result (λ v. MayLeave (after_calls (at_start first.now.items) calls.now.items) v.items) }
    ensures filled { IfOk result (λ v. IsFilled (after_calls (at_start first.now.items) calls.now.items) fill v.items) }
{
    let mut now = first.to_vec(alloc)?;
    let mut image = first.to_vec(alloc)?;
    for call in calls {
        follow(alloc, call, fill, &mut now, &mut image)?;
    }
    Ok(image)
}
